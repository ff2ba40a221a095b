// Statements without blocks of their own, with registers in place of names.

ghost use Rattle.std.specs.Prelude.{◌≡◌, ◌<◌, ◌≤◌, [], ◌∷◌, ℕ, ◌+◌, true, false, IfOk, OnOk};
ghost use Rattle.tl_lowering.specs.Blocks.{nodes_more};
ghost use Rattle.tl_lowering.specs.Computing.{CannotFail, IsComputed};
ghost use Rattle.tl_lowering.specs.Drafts.{Binds};
ghost use Rattle.tl_lowering.specs.declared.lowering.Binding.TheVariants.{Value as one_value};
ghost use Rattle.tl_instr.specs.declared.operand.TheConstants.{VALUE_REGISTERS};
ghost use Rattle.tl_lowering.specs.declared.program.Statement.TheVariants.{Skip};
ghost use Rattle.tl_lowering.specs.Declaring.{IsLocking, IsDeclarable, IsNewValue};
ghost use Rattle.tl_lowering.specs.Entering.{before_of, entered_of, IsEntering, IsEnteringPlace};
ghost use Rattle.tl_lowering.specs.Passing.{failing_entered, nowhere_entered};
ghost use Rattle.tl_lowering.specs.Names.{names_of};
ghost use Rattle.tl_lowering.specs.Naming.{IsNumber, IsChanged, IsUpdate, AreWritten, IsWritten, rewrites as rewrites_lem, Emits, IsAction, is_plain, with_locking, Locks};
ghost use Rattle.tl_lowering.specs.Outcomes.{may_fail as may_fail_lem, condition_may_fail as condition_may_fail_lem};
ghost use Rattle.tl_lowering.specs.Paths.{nodes_of, paths_of, nowhere, failing_if};
ghost use Rattle.tl_lowering.specs.Scopes.{View, view_of, IsInUse, IsAt, IsLowered, Extends};
ghost use Rattle.tl_lowering.specs.Sets.{Nodes, holds};
ghost use Rattle.tl_lowering.specs.Sound.{IsReadable};
ghost use Rattle.tl_syntax.specs.declared.parsed.Action.TheVariants.{Assign, Descend, Take, Free};
ghost use Rattle.tl_syntax.specs.declared.parsed.Place.TheVariants.{Node as one_node, Child as one_child, Pair as two_children};

use crate::lowering::{Lowered, Lowering};
use crate::paths::{Flow, Held};
use crate::program::{Condition, Expression, Place, Statement};
use crate::values::{
    behind, calculated, check_registers, condition_may_fail, may_fail, registers_for, registers_of,
};
use tl_instr::{Field, NodeRegister, ValueRegister};
use tl_syntax::parsed::{self, Action, Change, Child, Name};
use tl_syntax::{Operator, SyntaxFault, Wrong};

/// What is locked, and the names by which it is then held.
#[derive(Drop)]
pub struct Locking {
    pub place: Place,
    pub first: (Name, NodeRegister),
    pub second: Option<(Name, NodeRegister)>,
    /// What holds after the lock.
    pub held: Held,
}

// Whether one of these writes is to that field of the node.
fn rewrites(writes: &Statement, node: NodeRegister, field: Field) -> bool
    ensures { result ≡ rewrites_lem writes.now node field }
{
    match writes {
        Statement::Sequence(first, second) => {
            rewrites(first, node, field) || rewrites(second, node, field)
        }
        Statement::Write(other, written, _) => *other == node && *written == field,
        _ => false,
    }
}

impl Lowering {
    // The new number of a value or a field.
    fn changed(
        &self,
        old: Expression,
        change: Change,
        operand: Expression,
    ) -> Result<Expression, SyntaxFault>
        ensures named { IfOk result (IsChanged old change operand) }
        ensures readable { (values : ℕ) (held : Nodes) → IsReadable values held old → IsReadable values held operand
            → IfOk result (λ e. IsReadable values held e) }
    {
        match change {
            Change::Set => Ok(operand),
            Change::Add => calculated(self.alloc, Operator::Add, old, operand),
            Change::Subtract => calculated(self.alloc, Operator::Subtract, old, operand),
        }
    }

    fn assign(
        &self,
        name: Name,
        change: Change,
        value: &parsed::Expression,
        held: Held,
    ) -> Result<Lowered, SyntaxFault>
        requires { IsAt (view_of self.now.scope) held }
        ensures named { IfOk result (λ l. IsAction (names_of self.now.scope) (Assign name change value.now) l.0) }
        ensures lowered { IfOk result (λ l. IsLowered (view_of self.now.scope) held l.0 l.1) }
        ensures entering { IfOk result (λ l. IsEntering (before_of held) l.0 l.1) }
    {
        let register = self.scope.value(name)?;
        let operand = self.scope.number(self.alloc, value, held)?;
        let number = self.changed(Expression::Value(register), change, operand)?;
        let needed = registers_of(&number, usize::from(self.scope.values));
        check_registers(needed, value.offset)?;
        let flow = Flow::on(held).failing_if(may_fail(&number), held);
        Ok((Statement::Assign(register, number), flow))
    }

    // The field that a write changes, and its new number. 298 if `done` writes that field.
    fn update(
        &self,
        write: &parsed::Write,
        done: &Statement,
        held: Held,
    ) -> Result<(NodeRegister, Field, Expression), SyntaxFault>
        requires { IsAt (view_of self.now.scope) held }
        ensures named { IfOk result (λ u. IsUpdate (names_of self.now.scope) write.now u.0 u.1 u.2) }
        ensures apart { IfOk result (λ u. rewrites_lem done.now u.0 u.1 ≡ false) }
        ensures held { IfOk result (λ u. holds (nodes_of held) u.0 ≡ true) }
        ensures readable { IfOk result (λ u. IsReadable self.now.scope.values (nodes_of held) u.2) }
    {
        let node = self.scope.node(write.node, held)?;
        let field = self.scope.field(write.field)?;
        if rewrites(done, node, field) {
            return Err(SyntaxFault::at(Wrong::WrittenTwice, write.node.offset));
        }
        let operand = self.scope.number(self.alloc, &write.value, held)?;
        let number = self.changed(Expression::Field(node, field), write.change, operand)?;
        Ok((node, field, number))
    }

    fn write(&self, write: &parsed::Write, held: Held) -> Result<Lowered, SyntaxFault>
        requires { IsAt (view_of self.now.scope) held }
        ensures named { IfOk result (λ l. IsWritten (names_of self.now.scope) write.now [] l.0) }
        ensures lowered { IfOk result (λ l. IsLowered (view_of self.now.scope) held l.0 l.1) }
        ensures entering { IfOk result (λ l. IsEntering (before_of held) l.0 l.1) }
    {
        let (node, field, number) = self.update(write, &Statement::Skip, held)?;
        let needed = registers_for(&number, usize::from(self.scope.values));
        check_registers(needed, write.value.offset)?;
        let flow = Flow::on(held).failing_if(may_fail(&number), held);
        Ok((Statement::Write(node, field, number), flow))
    }

    // The number of a write, which is computed in the register `free`, and what is done once all numbers are computed: `done`, and
    // then this write.
    fn computed(
        &self,
        write: &parsed::Write,
        free: u8,
        done: Statement,
        held: Held,
    ) -> Result<(ValueRegister, Expression, Statement), SyntaxFault>
        requires at { IsAt (view_of self.now.scope) held }
        requires done { CannotFail free (view_of self.now.scope) held done }
        ensures register { IfOk result (λ c. c.0 ≡ free) }
        ensures room { OnOk result (free < VALUE_REGISTERS) }
        ensures named { IfOk result (λ c. IsComputed (names_of self.now.scope) free write.now c.1 done c.2) }
        ensures readable { IfOk result (λ c. IsReadable self.now.scope.values (nodes_of held) c.1) }
        ensures done { IfOk result (λ c. CannotFail (free + 1) (view_of self.now.scope) held c.2) }
    {
        let Some(register) = ValueRegister::new(free) else {
            return Err(SyntaxFault::at(Wrong::Values, write.node.offset));
        };
        let (node, field, number) = self.update(write, &done, held)?;
        let needed = registers_of(&number, usize::from(free));
        check_registers(needed, write.value.offset)?;
        let last = Statement::Write(node, field, Expression::Value(register));
        Ok((register, number, self.then(done, last)?))
    }

    /// A number in a register of its own, and what follows. The number may fail.
    pub fn let_in(
        &self,
        register: ValueRegister,
        number: Expression,
        body: Lowered,
        held: Held,
    ) -> Result<Lowered, SyntaxFault>
        ensures named { IfOk result (λ l. Binds (one_value register number) body.0 l.0) }
        ensures flow { IfOk result (λ l. paths_of l.1 ≡ failing_if (may_fail_lem number) (paths_of body.1) (nodes_of held)) }
        ensures entering { IfOk result (λ l. entered_of l.1 ≡ failing_entered (may_fail_lem number) (before_of held) (entered_of body.1)) }
    {
        let (body, flow) = body;
        let flow = flow.failing_if(may_fail(&number), held);
        Ok((Statement::Let(register, number, self.boxed(body)?), flow))
    }

    // The numbers of writes are computed one after another, in the registers from `free` on. Then `done` is done, and the writes.
    fn all_computed(
        &self,
        writes: &[parsed::Write],
        free: u8,
        done: Statement,
        held: Held,
    ) -> Result<Lowered, SyntaxFault>
        requires at { IsAt (view_of self.now.scope) held }
        requires free { self.now.scope.values ≤ free }
        requires few { free ≤ VALUE_REGISTERS }
        requires done { CannotFail free (view_of self.now.scope) held done }
        ensures named { IfOk result (λ l. AreWritten (names_of self.now.scope) free writes.now done l.0) }
        ensures lowered { IfOk result (λ l. IsLowered (record (view_of self.now.scope) { values = free }) held l.0 l.1) }
        ensures entering { IfOk result (λ l. IsEntering (before_of held) l.0 l.1) }
    {
        let Some((write, others)) = writes.split_first() else {
            return Ok((done, Flow::on(held)));
        };
        let (register, number, done) = self.computed(write, free, done, held)?;
        let body = self.all_computed(others, free + 1, done, held)?;
        self.let_in(register, number, body, held)
    }

    // Two writes or more.
    fn several_writes(
        &self,
        first: &parsed::Write,
        others: &[parsed::Write],
        held: Held,
    ) -> Result<Lowered, SyntaxFault>
        requires { IsAt (view_of self.now.scope) held }
        ensures named { IfOk result (λ l. AreWritten (names_of self.now.scope) self.now.scope.values (first.now ∷ others.now) Skip l.0) }
        ensures lowered { IfOk result (λ l. IsLowered (view_of self.now.scope) held l.0 l.1) }
        ensures entering { IfOk result (λ l. IsEntering (before_of held) l.0 l.1) }
    {
        let free = self.scope.values;
        let (register, number, last) = self.computed(first, free, Statement::Skip, held)?;
        let body = self.all_computed(others, free + 1, last, held)?;
        self.let_in(register, number, body, held)
    }

    // One write, or several.
    fn writes(
        &self,
        first: &parsed::Write,
        others: &[parsed::Write],
        held: Held,
    ) -> Result<Lowered, SyntaxFault>
        requires { IsAt (view_of self.now.scope) held }
        ensures named { IfOk result (λ l. IsWritten (names_of self.now.scope) first.now others.now l.0) }
        ensures lowered { IfOk result (λ l. IsLowered (view_of self.now.scope) held l.0 l.1) }
        ensures entering { IfOk result (λ l. IsEntering (before_of held) l.0 l.1) }
    {
        match others.split_first() {
            None => self.write(first, held),
            Some(_) => self.several_writes(first, others, held),
        }
    }

    fn emit(&self, values: &[parsed::Expression], held: Held) -> Result<Lowered, SyntaxFault>
        requires { IsAt (view_of self.now.scope) held }
        ensures named { IfOk result (λ l. Emits (names_of self.now.scope) values.now l.0) }
        ensures lowered { IfOk result (λ l. IsLowered (view_of self.now.scope) held l.0 l.1) }
        ensures entering { IfOk result (λ l. IsEntering (before_of held) l.0 l.1) }
    {
        let mut emits = Vec::new(self.alloc);
        let mut flow = Flow::on(held);
        for value in values {
            let number = self.scope.operand(self.alloc, value, held)?;
            flow = flow.failing_if(may_fail(&number), held);
            emits.push(Statement::Emit(number))?;
        }
        Ok((self.sequence(emits)?, flow))
    }

    fn free(&self, name: Name, held: Held) -> Result<Lowered, SyntaxFault>
        requires { IsAt (view_of self.now.scope) held }
        ensures named { IfOk result (λ l. IsAction (names_of self.now.scope) (Free name) l.0) }
        ensures lowered { IfOk result (λ l. IsLowered (view_of self.now.scope) held l.0 l.1) }
        ensures entering { IfOk result (λ l. IsEntering (before_of held) l.0 l.1) }
    {
        let node = self.scope.node(name, held)?;
        Ok((Statement::Free(node), Flow::on(held.without(node))))
    }

    // The child is locked in the next free register for a moment.
    fn descend(
        &self,
        name: Name,
        number: &parsed::Expression,
        offset: usize,
        held: Held,
    ) -> Result<Lowered, SyntaxFault>
        requires { IsAt (view_of self.now.scope) held }
        ensures named { IfOk result (λ l. IsAction (names_of self.now.scope) (Descend name number.now) l.0) }
        ensures lowered { IfOk result (λ l. IsLowered (view_of self.now.scope) held l.0 l.1) }
        ensures entering { IfOk result (λ l. IsEntering (before_of held) l.0 l.1) }
    {
        let node = self.scope.node(name, held)?;
        self.scope.next_node(0, offset)?;
        let number = self.scope.operand(self.alloc, number, held)?;
        let flow = Flow::on(held.with(node)).failing(held);
        Ok((Statement::Descend(node, number), flow))
    }

    fn take(&self, name: Name, from: Name, held: Held) -> Result<Lowered, SyntaxFault>
        requires { IsAt (view_of self.now.scope) held }
        ensures named { IfOk result (λ l. IsAction (names_of self.now.scope) (Take name from) l.0) }
        ensures lowered { IfOk result (λ l. IsLowered (view_of self.now.scope) held l.0 l.1) }
        ensures entering { IfOk result (λ l. IsEntering (before_of held) l.0 l.1) }
    {
        let node = self.scope.node(name, held)?;
        if name.symbol == from.symbol {
            return Err(SyntaxFault::at(Wrong::SameNode, from.offset));
        }
        let other = self.scope.node(from, held)?;
        let flow = Flow::on(held.taking(node, other));
        Ok((Statement::Take(node, other), flow))
    }

    /// A plain statement, whose first word stands at the offset. Others are lowered where this is called.
    pub fn action(&self, action: &Action, offset: usize, held: Held) -> Result<Lowered, SyntaxFault>
        requires { IsAt (view_of self.now.scope) held }
        ensures named { IfOk result (λ l. is_plain action.now ≡ true → IsAction (names_of self.now.scope) action.now l.0) }
        ensures lowered { IfOk result (λ l. IsLowered (view_of self.now.scope) held l.0 l.1) }
        ensures entering { IfOk result (λ l. IsEntering (before_of held) l.0 l.1) }
    {
        match action {
            Action::Assign {
                name,
                change,
                value,
            } => self.assign(*name, *change, value, held),
            Action::Write(first, others) => self.writes(first, others, held),
            Action::Emit(values) => self.emit(values, held),
            Action::Descend { node, number } => self.descend(*node, number, offset, held),
            Action::Take { node, from } => self.take(*node, *from, held),
            Action::Free(name) => self.free(*name, held),
            Action::Let { .. }
            | Action::Lock(_)
            | Action::Use { .. }
            | Action::Require(_, _)
            | Action::Leave(_)
            | Action::Fail(_)
            | Action::BreakWith(_) => Ok((Statement::Skip, Flow::on(held))),
        }
    }

    /// The register and the number of a new value.
    pub fn new_value(
        &self,
        name: Name,
        value: &parsed::Expression,
        held: Held,
    ) -> Result<(ValueRegister, Expression), SyntaxFault>
        requires { IsInUse (view_of self.now.scope) }
        ensures named { IfOk result (λ v. IsNumber (names_of self.now.scope) value.now.form v.1) }
        ensures value { IfOk result (λ v. IsNewValue (view_of self.now.scope) held name v.0 v.1) }
    {
        self.scope.check_new(name)?;
        let register = self.scope.next_value(name.offset)?;
        let number = self.scope.number(self.alloc, value, held)?;
        let needed = registers_of(&number, register.index());
        check_registers(needed, value.offset)?;
        Ok((register, number))
    }

    fn node_place(
        &self,
        name: Name,
        offset: usize,
        number: &parsed::Expression,
        held: Held,
    ) -> Result<Locking, SyntaxFault>
        requires { IsAt (view_of self.now.scope) held }
        ensures named { IfOk result (λ l. Locks (names_of self.now.scope) (one_node name offset number.now) l) }
        ensures locking { IfOk result (λ l. IsLocking (view_of self.now.scope) held l) }
        ensures entering { IfOk result (λ l. IsEnteringPlace (before_of held) l) }
    {
        self.scope.check_new(name)?;
        let register = self.scope.next_node(0, name.offset)?;
        if held.is_entered {
            return Err(SyntaxFault::at(Wrong::EnteredAgain, offset));
        }
        let number = self.scope.operand(self.alloc, number, held)?;
        Ok(Locking {
            place: Place::Node(register, number),
            first: (name, register),
            second: None,
            held: held.with(register).entered(),
        })
    }

    fn child_place(&self, child: &Child, held: Held) -> Result<Locking, SyntaxFault>
        requires { IsAt (view_of self.now.scope) held }
        ensures named { IfOk result (λ l. Locks (names_of self.now.scope) (one_child child.now) l) }
        ensures locking { IfOk result (λ l. IsLocking (view_of self.now.scope) held l) }
        ensures entering { IfOk result (λ l. IsEnteringPlace (before_of held) l) }
    {
        self.scope.check_new(child.name)?;
        let register = self.scope.next_node(0, child.name.offset)?;
        let parent = self.scope.node(child.parent, held)?;
        let number = self.scope.operand(self.alloc, &child.number, held)?;
        Ok(Locking {
            place: Place::Child(register, parent, number),
            first: (child.name, register),
            second: None,
            held: held.visiting(parent).with(register),
        })
    }

    fn pair_place(&self, first: &Child, second: &Child, held: Held) -> Result<Locking, SyntaxFault>
        requires { IsAt (view_of self.now.scope) held }
        ensures named { IfOk result (λ l. Locks (names_of self.now.scope) (two_children first.now second.now) l) }
        ensures locking { IfOk result (λ l. IsLocking (view_of self.now.scope) held l) }
        ensures entering { IfOk result (λ l. IsEnteringPlace (before_of held) l) }
    {
        self.scope.check_new(first.name)?;
        let register = self.scope.next_node(0, first.name.offset)?;
        let parent = self.scope.node(first.parent, held)?;
        let first_number = self.scope.operand(self.alloc, &first.number, held)?;
        self.scope.check_new(second.name)?;
        if first.name.symbol == second.name.symbol {
            return Err(SyntaxFault::at(Wrong::Twice, second.name.offset));
        }
        let second_register = self.scope.next_node(1, second.name.offset)?;
        if self.scope.node(second.parent, held)? != parent {
            return Err(SyntaxFault::at(Wrong::OtherParent, second.parent.offset));
        }
        let free = behind(&first_number, usize::from(self.scope.values));
        let second_number = self
            .scope
            .operand_from(self.alloc, &second.number, held, free)?;
        let place = Place::Pair {
            first: register,
            second: second_register,
            parent,
            first_number,
            second_number,
        };
        Ok(Locking {
            place,
            first: (first.name, register),
            second: Some((second.name, second_register)),
            held: held.visiting(parent).with(register).with(second_register),
        })
    }

    /// What is to be locked. 275 to 277, 281, 282, 285, 291 or 292 at the first part that is wrong.
    pub fn place(&self, place: &parsed::Place, held: Held) -> Result<Locking, SyntaxFault>
        requires { IsAt (view_of self.now.scope) held }
        ensures named { IfOk result (λ l. Locks (names_of self.now.scope) place.now l) }
        ensures locking { IfOk result (λ l. IsLocking (view_of self.now.scope) held l) }
        ensures entering { IfOk result (λ l. IsEnteringPlace (before_of held) l) }
    {
        match place {
            parsed::Place::Node {
                name,
                offset,
                number,
            } => self.node_place(*name, *offset, number, held),
            parsed::Place::Child(child) => self.child_place(child, held),
            parsed::Place::Pair(first, second) => self.pair_place(first, second, held),
        }
    }

    /// Declares the names of what was locked.
    pub fn declare(&mut self, locking: &Locking) -> Result<(), SyntaxFault>
        requires { IsDeclarable (view_of self.old.scope) locking.now }
        ensures names { OnOk result (IsInUse (view_of self.old.scope) → IsInUse (view_of self.new.scope)) }
        ensures values { OnOk result (self.new.scope.values ≡ self.old.scope.values) }
        ensures nodes { OnOk result (self.new.scope.nodes ≡ nodes_more locking.now.place self.old.scope.nodes) }
        ensures loops { OnOk result (self.new.scope.loops ≡ self.old.scope.loops) }
        ensures extends { OnOk result ((outer : View) → Extends outer (view_of self.old.scope) → Extends outer (view_of self.new.scope)) }
        ensures named { OnOk result (names_of self.new.scope ≡ with_locking (names_of self.old.scope) locking.now) }
    {
        self.scope.declare_node(locking.first.0, locking.first.1)?;
        if let Some((name, register)) = locking.second {
            self.scope.declare_node(name, register)?;
        }
        Ok(())
    }
}

/// How a condition can fail: only if it contains an operation.
pub fn asked(condition: &Condition, held: Held) -> Flow
    ensures paths { paths_of result ≡ failing_if (condition_may_fail_lem condition.now) nowhere (nodes_of held) }
    ensures entered { entered_of result ≡ failing_entered (condition_may_fail_lem condition.now) (before_of held) nowhere_entered }
{
    Flow::NOWHERE.failing_if(condition_may_fail(condition), held)
}
