// Numbers and conditions, with registers in place of names.

ghost use Rattle.std.specs.Prelude.{◌≡◌, ◌≤◌, ◌-◌, ◌^◌, ℕ, pos, int_div, int_rem, min, true, Some, IfOk, OnOk};
ghost use Rattle.tl_instr.specs.declared.operand.TheConstants.{VALUE_REGISTERS};
ghost use Rattle.tl_lowering.specs.Names.{names_of};
ghost use Rattle.tl_lowering.specs.Naming.{IsCalculated, IsNumber, IsLiteral, folded as folded_lem, IsConstant, IsCount, IsNot, IsBoth, IsComparison, IsCompared, IsCondition};
ghost use Rattle.tl_lowering.specs.Outcomes.{may_fail as may_fail_lem, condition_may_fail as condition_may_fail_lem};
ghost use Rattle.tl_lowering.specs.Paths.{nodes_of};
ghost use Rattle.tl_lowering.specs.Registers.{HasRegisters, behind as behind_lem, registers_of as registers_of_lem, registers_for as registers_for_lem};
ghost use Rattle.tl_lowering.specs.Scopes.{view_of, IsInUse};
ghost use Rattle.tl_lowering.specs.Sets.{Nodes};
ghost use Rattle.tl_lowering.specs.Sound.{IsReadable, IsTestable};
ghost use Rattle.tl_syntax.specs.declared.parsed.Form.TheVariants.{Named};

use crate::paths::Held;
use crate::program::{Condition, Expression};
use crate::scope::{Meaning, Scope};
use std::alloc::Global;
use tl_instr::VALUE_REGISTERS;
use tl_syntax::parsed::{self, Comparison, Form, Name};
use tl_syntax::{Operator, SyntaxFault, Wrong};

/// Whether the expression is an operation, which may fail.
pub fn may_fail(expression: &Expression) -> bool
    ensures { result ≡ may_fail_lem expression.now }
{
    matches!(*expression, Expression::Calculated(_, _, _))
}

/// Whether the condition contains an operation, which may fail.
pub fn condition_may_fail(condition: &Condition) -> bool
    ensures { result ≡ condition_may_fail_lem condition.now }
{
    match condition {
        Condition::Less(left, right)
        | Condition::Greater(left, right)
        | Condition::Equal(left, right) => may_fail(left) || may_fail(right),
        Condition::Not(inner) => condition_may_fail(inner),
        Condition::And(first, second) => condition_may_fail(first) || condition_may_fail(second),
    }
}

/// The next free register after an operand, if `free` was free before it. A value has a register already and takes none.
pub fn behind(expression: &Expression, free: usize) -> usize
    ensures { result ≡ min (behind_lem expression.now free) (2 ^ 64 - 1) }
{
    match expression {
        Expression::Value(_) => free,
        _ => free.saturating_add(1),
    }
}

/// How many value registers there must be to compute the number, if `free` is the first free one.
#[cycle(registers)]
pub fn registers_of(expression: &Expression, free: usize) -> usize
    ensures { result ≡ min (registers_of_lem expression.now free) (2 ^ 64 - 1) }
{
    match expression {
        Expression::Calculated(_, left, right) => {
            let first = registers_for(left, free);
            first.max(registers_for(right, behind(left, free)))
        }
        _ => 0,
    }
}

/// The same for an operand: it needs a register of its own, unless it is a value.
#[cycle(registers)]
pub fn registers_for(expression: &Expression, free: usize) -> usize
    ensures { result ≡ min (registers_for_lem expression.now free) (2 ^ 64 - 1) }
{
    registers_of(expression, free).max(behind(expression, free))
}

/// 291 at `offset` if there are fewer than `needed` registers.
pub fn check_registers(needed: usize, offset: usize) -> Result<(), SyntaxFault>
    ensures { OnOk result (needed ≤ VALUE_REGISTERS) }
{
    if needed > VALUE_REGISTERS {
        return Err(SyntaxFault::at(Wrong::Values, offset));
    }
    Ok(())
}

/// The operation on the two numbers.
pub fn calculated(
    alloc: Global,
    operator: Operator,
    left: Expression,
    right: Expression,
) -> Result<Expression, SyntaxFault>
    ensures readable { (values : ℕ) (held : Nodes) → IsReadable values held left → IsReadable values held right → IfOk result (λ e. IsReadable values held e) }
    ensures fails { IfOk result (λ e. may_fail_lem e ≡ true) }
    ensures named { IfOk result (IsCalculated operator left right) }
{
    let left = Box::new(alloc, left)?;
    let right = Box::new(alloc, right)?;
    Ok(Expression::Calculated(operator, left, right))
}

// The quotient by 65,536, and the rest.
fn divided(number: i64) -> (i64, i32)
    ensures quotient { result.0 ≡ int_div number (pos 65536) }
    ensures rest { result.1 ≡ int_rem number (pos 65536) }
{
    (number / 65_536, (number % 65_536) as i32)
}

// A number that is written in the text. An instruction has one of 32 bits: another one is computed from its quotient by 65,536 and
// the rest, which can't fail.
fn literal(alloc: Global, number: i64) -> Result<Expression, SyntaxFault>
    ensures named { IfOk result (IsLiteral number) }
    ensures readable { (values : ℕ) (held : Nodes) → IfOk result (λ e. IsReadable values held e) }
{
    match i32::try_from(number) {
        Ok(short) => Ok(Expression::Constant(short)),
        Err(_) => {
            let (quotient, rest) = divided(number);
            let quotient = literal(alloc, quotient)?;
            let base = Expression::Constant(65_536);
            let product = calculated(alloc, Operator::Multiply, quotient, base)?;
            calculated(alloc, Operator::Add, product, Expression::Constant(rest))
        }
    }
}

// The result of an operation on two constants. 271 at the offset if it doesn't have 64 bits, or if the divisor is 0.
fn folded(operator: Operator, left: i64, right: i64, offset: usize) -> Result<i64, SyntaxFault>
    ensures { IfOk result (λ n. folded_lem operator left right ≡ Some n) }
{
    let fault = SyntaxFault::at(Wrong::Number, offset);
    match operator {
        Operator::Add => left.checked_add(right).ok_or(fault),
        Operator::Subtract => left.checked_sub(right).ok_or(fault),
        Operator::Multiply => left.checked_mul(right).ok_or(fault),
        Operator::Divide => left.checked_div(right).ok_or(fault),
    }
}

pub fn negated(alloc: Global, condition: Condition) -> Result<Condition, SyntaxFault>
    ensures testable { (values : ℕ) (held : Nodes) → IsTestable values held condition → IfOk result (λ c. IsTestable values held c) }
    ensures fails { IfOk result (λ c. condition_may_fail_lem c ≡ condition_may_fail_lem condition) }
    ensures named { IfOk result (IsNot condition) }
{
    Ok(Condition::Not(Box::new(alloc, condition)?))
}

fn both(alloc: Global, first: Condition, second: Condition) -> Result<Condition, SyntaxFault>
    ensures named { IfOk result (IsBoth first second) }
    ensures testable { (values : ℕ) (held : Nodes) → IsTestable values held first → IsTestable values held second
        → IfOk result (λ c. IsTestable values held c) }
{
    let first = Box::new(alloc, first)?;
    let second = Box::new(alloc, second)?;
    Ok(Condition::And(first, second))
}

fn compared(
    alloc: Global,
    comparison: Comparison,
    left: Expression,
    right: Expression,
) -> Result<Condition, SyntaxFault>
    ensures named { IfOk result (IsComparison comparison left right) }
    ensures testable { (values : ℕ) (held : Nodes) → IsReadable values held left → IsReadable values held right → IfOk result (λ c. IsTestable values held c) }
{
    match comparison {
        Comparison::Less => Ok(Condition::Less(left, right)),
        Comparison::LessOrEqual => negated(alloc, Condition::Greater(left, right)),
        Comparison::Greater => Ok(Condition::Greater(left, right)),
        Comparison::GreaterOrEqual => negated(alloc, Condition::Less(left, right)),
        Comparison::Equal => Ok(Condition::Equal(left, right)),
        Comparison::NotEqual => negated(alloc, Condition::Equal(left, right)),
    }
}

impl Scope {
    // The number that a name stands for.
    fn named(&self, alloc: Global, name: Name, offset: usize) -> Result<Expression, SyntaxFault>
        requires { IsInUse (view_of self.now) }
        ensures named { IfOk result (IsNumber (names_of self.now) (Named name)) }
        ensures readable { (held : Nodes) → IfOk result (λ e. IsReadable self.now.values held e) }
    {
        match self.known(name)? {
            Meaning::Constant(number, _) => literal(alloc, number),
            Meaning::Value(register) => Ok(Expression::Value(register)),
            Meaning::Index(register) => Ok(Expression::Value(register)),
            _ => Err(SyntaxFault::at(Wrong::NoNumber, offset)),
        }
    }

    /// A number. 275, 277 or 281 at the first name or part that is wrong.
    pub fn number(
        &self,
        alloc: Global,
        expression: &parsed::Expression,
        held: Held,
    ) -> Result<Expression, SyntaxFault>
        requires { IsInUse (view_of self.now) }
        ensures named { IfOk result (IsNumber (names_of self.now) expression.now.form) }
        ensures readable { IfOk result (λ e. IsReadable self.now.values (nodes_of held) e) }
    {
        match &expression.form {
            Form::Number(number) => literal(alloc, *number),
            Form::Named(name) => self.named(alloc, *name, expression.offset),
            Form::Field { node, field } => {
                let node = self.node(*node, held)?;
                Ok(Expression::Field(node, self.field(*field)?))
            }
            Form::Children(node) => Ok(Expression::Children(self.node(*node, held)?)),
            Form::Negated(operand) => {
                let operand = self.number(alloc, operand, held)?;
                calculated(alloc, Operator::Subtract, Expression::Constant(0), operand)
            }
            Form::Calculated(operator, left, right) => {
                let left = self.number(alloc, left, held)?;
                let right = self.number(alloc, right, held)?;
                calculated(alloc, *operator, left, right)
            }
            _ => Err(SyntaxFault::at(Wrong::NoNumber, expression.offset)),
        }
    }

    /// An operand: a number that can be computed in the registers above the values. 291 at its first token if it can't.
    pub fn operand(
        &self,
        alloc: Global,
        expression: &parsed::Expression,
        held: Held,
    ) -> Result<Expression, SyntaxFault>
        requires { IsInUse (view_of self.now) }
        ensures named { IfOk result (IsNumber (names_of self.now) expression.now.form) }
        ensures readable { IfOk result (λ e. IsReadable self.now.values (nodes_of held) e) }
        ensures room { IfOk result (λ e. HasRegisters e self.now.values) }
    {
        self.operand_from(alloc, expression, held, usize::from(self.values))
    }

    /// The same, if `free` is the first free register.
    pub fn operand_from(
        &self,
        alloc: Global,
        expression: &parsed::Expression,
        held: Held,
        free: usize,
    ) -> Result<Expression, SyntaxFault>
        requires { IsInUse (view_of self.now) }
        ensures named { IfOk result (IsNumber (names_of self.now) expression.now.form) }
        ensures readable { IfOk result (λ e. IsReadable self.now.values (nodes_of held) e) }
        ensures room { IfOk result (λ e. HasRegisters e free) }
    {
        let number = self.number(alloc, expression, held)?;
        check_registers(registers_for(&number, free), expression.offset)?;
        Ok(number)
    }

    // A comparison of two numbers.
    fn comparison(
        &self,
        alloc: Global,
        comparison: Comparison,
        operands: (&parsed::Expression, &parsed::Expression),
        held: Held,
    ) -> Result<Condition, SyntaxFault>
        requires { IsInUse (view_of self.now) }
        ensures named { IfOk result (IsCompared (names_of self.now) comparison operands.entry.0.now.form operands.entry.1.now.form) }
        ensures testable { IfOk result (λ c. IsTestable self.now.values (nodes_of held) c) }
    {
        let left = self.number(alloc, operands.0, held)?;
        let right = self.number(alloc, operands.1, held)?;
        let free = usize::from(self.values);
        let needed = registers_for(&left, free).max(registers_for(&right, behind(&left, free)));
        check_registers(needed, operands.0.offset)?;
        compared(alloc, comparison, left, right)
    }

    /// A condition. 275, 277, 281 or 291 at the first name or part that is wrong.
    pub fn condition(
        &self,
        alloc: Global,
        expression: &parsed::Expression,
        held: Held,
    ) -> Result<Condition, SyntaxFault>
        requires { IsInUse (view_of self.now) }
        ensures named { IfOk result (IsCondition (names_of self.now) expression.now.form) }
        ensures testable { IfOk result (λ c. IsTestable self.now.values (nodes_of held) c) }
    {
        match &expression.form {
            Form::Compared(comparison, left, right) => {
                self.comparison(alloc, *comparison, (left, right), held)
            }
            Form::Not(operand) => negated(alloc, self.condition(alloc, operand, held)?),
            Form::And(first, second) => {
                let first = self.condition(alloc, first, held)?;
                let second = self.condition(alloc, second, held)?;
                both(alloc, first, second)
            }
            Form::Or(first, second) => {
                let first = negated(alloc, self.condition(alloc, first, held)?)?;
                let second = negated(alloc, self.condition(alloc, second, held)?)?;
                negated(alloc, both(alloc, first, second)?)
            }
            _ => Err(SyntaxFault::at(Wrong::NoCondition, expression.offset)),
        }
    }

    // The number of the constant that a name stands for.
    fn known_constant(&self, name: Name, offset: usize) -> Result<i64, SyntaxFault>
        ensures { IfOk result (IsConstant (names_of self.now) (Named name)) }
    {
        match self.known(name)? {
            Meaning::Constant(number, _) => Ok(number),
            _ => Err(SyntaxFault::at(Wrong::NoNumber, offset)),
        }
    }

    /// The number of a constant. 275 or 277 at the first name or part that is wrong, 271 at the first token of an operation whose result
    /// doesn't have 64 bits, or that divides by 0.
    pub fn constant(&self, expression: &parsed::Expression) -> Result<i64, SyntaxFault>
        ensures { IfOk result (IsConstant (names_of self.now) expression.now.form) }
    {
        match &expression.form {
            Form::Number(number) => Ok(*number),
            Form::Named(name) => self.known_constant(*name, expression.offset),
            Form::Negated(operand) => {
                let operand = self.constant(operand)?;
                folded(Operator::Subtract, 0, operand, expression.offset)
            }
            Form::Calculated(operator, left, right) => {
                let left = self.constant(left)?;
                let right = self.constant(right)?;
                folded(*operator, left, right, expression.offset)
            }
            _ => Err(SyntaxFault::at(Wrong::NoNumber, expression.offset)),
        }
    }

    // The number of a constant. 280 at the first token if it isn't one, and otherwise as `constant` says.
    fn count(&self, expression: &parsed::Expression) -> Result<i64, SyntaxFault>
        ensures { IfOk result (IsConstant (names_of self.now) expression.now.form) }
    {
        match self.constant(expression) {
            Err(
                SyntaxFault::At {
                    wrong: Wrong::NoNumber,
                    ..
                },
            ) => Err(SyntaxFault::at(Wrong::Turns, expression.offset)),
            other => other,
        }
    }

    /// How often a loop may turn. 275 or 271 as `constant` says, 280 at the first token if it isn't a constant from 1 to 65,535.
    pub fn turns(&self, expression: &parsed::Expression) -> Result<u16, SyntaxFault>
        ensures { IfOk result (IsCount (names_of self.now) expression.now.form) }
    {
        let number = self.count(expression)?;
        match u16::try_from(number) {
            Ok(turns) if turns > 0 => Ok(turns),
            _ => Err(SyntaxFault::at(Wrong::Turns, expression.offset)),
        }
    }
}
