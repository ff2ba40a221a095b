// The code of numbers and conditions.

ghost use Rattle.std.specs.Prelude.{◌≡◌, length, reverse, OnOk, if◌then◌else◌};
ghost use Rattle.tl_compiler.specs.Numbers.{own_register, register_of, behind, calculation, into_code, operand_code, operands_code, jump_code, test_jump, comparison_code, branch_code};
ghost use Rattle.tl_instr.specs.declared.instr.Instr.TheVariants.{JumpIfLess};
ghost use Rattle.tl_lowering.specs.Fit.{HasBoth, HasConditionRoom};
ghost use Rattle.tl_lowering.specs.Registers.{HasTemporaries, HasRegisters};

use crate::draft::{Draft, Label, value_register};
use std::alloc::AllocError;
use tl_instr::{Instr, ValueRegister};
use tl_lowering::{Condition, Expression};
use tl_syntax::Operator;

/// Where code for numbers stands: the first free value register, where a failure leads, and the statement it belongs to.
#[derive(Clone, Copy)]
pub struct Site {
    pub free: usize,
    pub failure: Label,
    pub origin: usize,
}

// The register that a value is in; any other number is in none.
fn own_register(number: &Expression) -> Option<ValueRegister>
    ensures { result ≡ own_register number.now }
{
    match number {
        Expression::Value(register) => Some(*register),
        Expression::Constant(_)
        | Expression::Field(_, _)
        | Expression::Children(_)
        | Expression::Calculated(_, _, _) => None,
    }
}

/// The register that an operand is in: a value is in its own.
#[tactic(auto, using(crate::proofs::RoomLemmas::free_register))]
pub fn register_of(operand: &Expression, free: usize) -> ValueRegister
    requires { HasRegisters operand.now free }
    ensures { result ≡ register_of operand.now free }
{
    match own_register(operand) {
        Some(register) => register,
        None => value_register(free),
    }
}

/// The next free register after an operand.
#[tactic(auto, using(crate::proofs::RoomLemmas::free_register))]
pub fn behind(operand: &Expression, free: usize) -> usize
    requires { HasRegisters operand.now free }
    ensures { result ≡ behind operand.now free }
{
    match own_register(operand) {
        Some(_) => free,
        None => free + 1,
    }
}

fn operation(
    operator: Operator,
    to: ValueRegister,
    left: ValueRegister,
    right: ValueRegister,
    failure: Label,
) -> Instr
    ensures { result ≡ calculation operator to left right failure.0 }
{
    let otherwise = failure.target();
    match operator {
        Operator::Add => Instr::Add {
            to,
            left,
            right,
            otherwise,
        },
        Operator::Subtract => Instr::Subtract {
            to,
            left,
            right,
            otherwise,
        },
        Operator::Multiply => Instr::Multiply {
            to,
            left,
            right,
            otherwise,
        },
        Operator::Divide => Instr::Divide {
            to,
            left,
            right,
            otherwise,
        },
    }
}

/// How two registers are compared.
#[derive(Clone, Copy)]
pub enum Test {
    Less,
    Equal,
}

// The jump to the target if the test of the two registers holds.
fn test_jump(test: Test, left: ValueRegister, right: ValueRegister, target: u16) -> Instr
    ensures { result ≡ test_jump test left right target }
{
    match test {
        Test::Less => Instr::JumpIfLess {
            left,
            right,
            target,
        },
        Test::Equal => Instr::JumpIfEqual {
            left,
            right,
            target,
        },
    }
}

impl Draft {
    /// The code that puts a number into the site's first free register; a value stays in its own.
    #[cycle(numbers)]
    #[tactic(auto, using(crate::proofs::RoomLemmas::free_register, crate::proofs::RoomLemmas::of_registers))]
    pub fn operand(&mut self, operand: &Expression, site: Site) -> Result<(), AllocError>
        requires { HasRegisters operand.now site.free }
        ensures { OnOk result (reverse self.new.instrs.items ≡ operand_code operand.now site.free site.failure.0 (reverse self.old.instrs.items)) }
    {
        match own_register(operand) {
            Some(_) => Ok(()),
            None => {
                let to = value_register(site.free);
                self.into(operand, to, site)
            }
        }
    }

    /// The code that puts a number into a register. Only its last instruction writes that register.
    #[cycle(numbers)]
    #[tactic(auto, using(crate::proofs::RoomLemmas::left_fits, crate::proofs::RoomLemmas::right_fits))]
    pub fn into(
        &mut self,
        number: &Expression,
        to: ValueRegister,
        site: Site,
    ) -> Result<(), AllocError>
        requires { HasTemporaries number.now site.free }
        ensures { OnOk result (reverse self.new.instrs.items ≡ into_code number.now to site.free site.failure.0 (reverse self.old.instrs.items)) }
    {
        let origin = site.origin;
        match number {
            Expression::Constant(number) => {
                let number = *number;
                self.put(origin, Instr::Set { to, number })
            }
            Expression::Value(from) => {
                let from = *from;
                self.put(origin, Instr::Copy { to, from })
            }
            Expression::Field(node, field) => {
                let (node, field) = (*node, *field);
                self.put(origin, Instr::Get { to, node, field })
            }
            Expression::Children(node) => {
                let node = *node;
                self.put(origin, Instr::Kids { to, node })
            }
            Expression::Calculated(operator, left, right) => {
                let free = behind(left, site.free);
                let first = register_of(left, site.free);
                let second = register_of(right, free);
                let instr = operation(*operator, to, first, second, site.failure);
                self.put(origin, instr)?;
                self.operand(right, Site { free, ..site })?;
                self.operand(left, site)
            }
        }
    }

    /// The code of two operands, one after the other.
    pub fn operands(
        &mut self,
        left: &Expression,
        right: &Expression,
        site: Site,
    ) -> Result<(), AllocError>
        requires { HasBoth left.now right.now site.free }
        ensures { OnOk result (reverse self.new.instrs.items ≡ operands_code left.now right.now site.free site.failure.0 (reverse self.old.instrs.items)) }
    {
        let free = behind(left, site.free);
        self.operand(right, Site { free, ..site })?;
        self.operand(left, site)
    }

    // A jump to the label if the two registers compare as `sense` says; otherwise control goes on.
    fn jump_if(
        &mut self,
        test: Test,
        registers: (ValueRegister, ValueRegister),
        sense: bool,
        label: Label,
        origin: usize,
    ) -> Result<(), AllocError>
        ensures { OnOk result (reverse self.new.instrs.items ≡ jump_code (test_jump test registers.0 registers.1) sense label.0 (reverse self.old.instrs.items)) }
    {
        let (left, right) = registers;
        if sense {
            return self.put(origin, test_jump(test, left, right, label.target()));
        }
        let on = self.here();
        self.jump(origin, label)?;
        self.put(origin, test_jump(test, left, right, on.target()))
    }

    // The code that goes to the label if the two numbers compare as `sense` says; otherwise control goes on.
    fn comparison(
        &mut self,
        test: Test,
        left: &Expression,
        right: &Expression,
        sense: bool,
        label: Label,
        site: Site,
    ) -> Result<(), AllocError>
        requires { HasBoth left.now right.now site.free }
        ensures { OnOk result (reverse self.new.instrs.items ≡ comparison_code (test_jump test) left.now right.now sense label.0 site.free site.failure.0 (reverse self.old.instrs.items)) }
    {
        let free = behind(left, site.free);
        let first = register_of(left, site.free);
        let second = register_of(right, free);
        self.jump_if(test, (first, second), sense, label, site.origin)?;
        self.operands(left, right, site)
    }

    // The same for whether the first number is greater than the second one.
    fn greater(
        &mut self,
        left: &Expression,
        right: &Expression,
        sense: bool,
        label: Label,
        site: Site,
    ) -> Result<(), AllocError>
        requires { HasBoth left.now right.now site.free }
        ensures { OnOk result (reverse self.new.instrs.items ≡ comparison_code (λ x y l. JumpIfLess y x l) left.now right.now sense label.0 site.free site.failure.0 (reverse self.old.instrs.items)) }
    {
        let free = behind(left, site.free);
        let first = register_of(left, site.free);
        let second = register_of(right, free);
        self.jump_if(Test::Less, (second, first), sense, label, site.origin)?;
        self.operands(left, right, site)
    }

    // Where control goes if the first of two conditions is false: on, if a true whole leads to the label; otherwise to the
    // label.
    fn way_out(&self, sense: bool, label: Label) -> Label
        ensures { result.0 ≡ (if sense then length (reverse self.now.instrs.items) else label.0) }
    {
        if sense { self.here() } else { label }
    }

    /// The code that goes to the label if the condition is what `sense` says; otherwise control goes on.
    pub fn branch(
        &mut self,
        condition: &Condition,
        sense: bool,
        label: Label,
        site: Site,
    ) -> Result<(), AllocError>
        requires { HasConditionRoom condition.now site.free }
        ensures { OnOk result (reverse self.new.instrs.items ≡ branch_code condition.now sense label.0 site.free site.failure.0 (reverse self.old.instrs.items)) }
    {
        match condition {
            Condition::Less(left, right) => {
                self.comparison(Test::Less, left, right, sense, label, site)
            }
            Condition::Equal(left, right) => {
                self.comparison(Test::Equal, left, right, sense, label, site)
            }
            Condition::Greater(left, right) => self.greater(left, right, sense, label, site),
            Condition::Not(inner) => self.branch(inner, !sense, label, site),
            Condition::And(first, second) => {
                let way_out = self.way_out(sense, label);
                self.branch(second, sense, label, site)?;
                self.branch(first, false, way_out, site)
            }
        }
    }
}
