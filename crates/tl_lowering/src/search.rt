// Loops that are left with numbers, with registers in place of names.

ghost use Rattle.std.specs.Prelude.{◌≡◌, ◌+◌, ◌<◌, List, length, Some, IfOk, OnOk};
ghost use Rattle.tl_lowering.specs.Choosing.{IsSearch, IsSearched};
ghost use Rattle.tl_lowering.specs.Entering.{before_of, entered_of, IsEntering};
ghost use Rattle.tl_lowering.specs.Names.{names_of, HasLoop, with_variables, AreFound};
ghost use Rattle.tl_lowering.specs.Naming.{IsNumber, IsThen};
ghost use Rattle.tl_lowering.specs.Outcomes.{may_fail as may_fail_lem};
ghost use Rattle.tl_lowering.specs.Passing.{failing_entered};
ghost use Rattle.tl_lowering.specs.Paths.{nodes_of, paths_of, failing_if};
ghost use Rattle.tl_lowering.specs.Reading.{IsBlock, AreNothing, AreLeft, IsActed, finding_at};
ghost use Rattle.tl_lowering.specs.Registers.{HasTemporaries};
ghost use Rattle.tl_lowering.specs.Scopes.{View, view_of, IsInUse, IsAt, IsLowered, Extends};
ghost use Rattle.tl_lowering.specs.Sound.{IsReadable};
ghost use Rattle.tl_lowering.specs.declared.program.Statement.TheVariants.{Assign};
ghost use Rattle.tl_syntax.specs.declared.parsed.Action.TheVariants.{BreakWith as leaves_with};
ghost use Rattle.tl_syntax.specs.declared.parsed.Declaration.{Declaration as TextDeclaration};
ghost use Rattle.tl_syntax.specs.declared.parsed.Expression.{Expression as TextExpression};
ghost use Rattle.std.specs.declared.vec.Vec.{Vec};
ghost use Rattle.std.specs.declared.alloc.Global.{Global};

use crate::lowering::{Entrance, Lowered, Lowering};
use crate::paths::Held;
use crate::program::{Condition, Expression, Statement};
use crate::readers::{Finding, Readers};
use crate::values::{check_registers, may_fail, registers_of};
use tl_instr::ValueRegister;
use tl_syntax::parsed::{self, Declaration, Name};
use tl_syntax::{SyntaxFault, Wrong};

/// A loop that may be left with numbers, alone in a block; their names; and what is done behind it where it is, and where it isn't.
pub type Search<'a> = (
    &'a [parsed::Statement],
    &'a [Name],
    &'a [parsed::Statement],
    &'a [parsed::Statement],
);

// The register so many above another one. 291 at `offset` if there is none.
fn above(register: ValueRegister, count: usize, offset: usize) -> Result<ValueRegister, SyntaxFault>
    ensures { IfOk result (λ r. r ≡ register + count) }
{
    let number = register.index().saturating_add(count);
    match u8::try_from(number).ok().and_then(ValueRegister::new) {
        Some(register) => Ok(register),
        None => Err(SyntaxFault::at(Wrong::Values, offset)),
    }
}

impl Lowering {
    // What a loop that begins here is left with: so many numbers. 291 or 293 if it can't be.
    fn finding(&self, names: &[Name], offset: usize) -> Result<Finding, SyntaxFault>
        ensures finding { IfOk result (λ f. f ≡ finding_at (names_of self.now.scope) (length names.now)) }
        ensures depth { OnOk result (HasLoop (names_of self.now.scope)) }
    {
        self.check_depth(offset)?;
        let flag = self.scope.next_value(offset)?;
        let count = names.len();
        let depth = self.scope.loops.saturating_add(1);
        Ok(Finding { flag, count, depth })
    }

    // The names stand for the values above this one.
    fn declare_found(&mut self, names: &[Name], below: ValueRegister) -> Result<(), SyntaxFault>
        requires { below + length names.now < self.old.scope.values }
        ensures named { OnOk result (names_of self.new.scope ≡ with_variables (names_of self.old.scope) (below + 1) names.now) }
        ensures fresh { OnOk result (AreFound (names_of self.old.scope) (below + 1) names.now) }
        ensures in_use { OnOk result (IsInUse (view_of self.old.scope) → IsInUse (view_of self.new.scope)) }
        ensures values { OnOk result (self.new.scope.values ≡ self.old.scope.values) }
        ensures nodes { OnOk result (self.new.scope.nodes ≡ self.old.scope.nodes) }
        ensures loops { OnOk result (self.new.scope.loops ≡ self.old.scope.loops) }
        ensures extends { OnOk result ((outer : View) → Extends outer (view_of self.old.scope) → Extends outer (view_of self.new.scope)) }
    {
        let Some((name, others)) = names.split_first() else {
            return Ok(());
        };
        self.scope.check_new(*name)?;
        let register = above(below, 1, name.offset)?;
        self.scope.declare_variable(*name, register)?;
        self.declare_found(others, register)
    }

    // What is done behind a loop that was left with numbers.
    #[cycle(lowering)]
    fn found(
        &mut self,
        before: &[Declaration],
        readers: &Readers,
        finding: &Finding,
        names: &[Name],
        block: &[parsed::Statement],
        held: Held,
    ) -> Result<Lowered, SyntaxFault>
        requires at { IsAt (view_of self.old.scope) held }
        requires room { finding.now.flag + length names.now < self.old.scope.values }
        ensures scope { OnOk result (view_of self.new.scope ≡ view_of self.old.scope) }
        ensures fresh { OnOk result (AreFound (names_of self.old.scope) (finding.now.flag + 1) names.now) }
        ensures named { IfOk result (λ l. IsBlock before.now readers.now
            (with_variables (names_of self.old.scope) (finding.now.flag + 1) names.now) block.now l.0) }
        ensures lowered { IfOk result (λ l. IsLowered (view_of self.old.scope) held l.0 l.1) }
        ensures entering { IfOk result (λ l. IsEntering (before_of held) l.0 l.1) }
    {
        let mark = self.scope.mark();
        self.declare_found(names, finding.flag)?;
        let first = self.block(before, readers, block, held)?;
        self.scope.return_to(mark);
        Ok(first)
    }

    // A loop that may be left with numbers, which have registers here, and what is done behind it.
    #[cycle(lowering)]
    fn searched(
        &mut self,
        before: &[Declaration],
        readers: &Readers,
        finding: &Finding,
        search: Search<'_>,
        offset: usize,
        held: Held,
    ) -> Result<Lowered, SyntaxFault>
        requires at { IsAt (view_of self.old.scope) held }
        requires room { finding.now.flag + length search.1.now < self.old.scope.values }
        ensures scope { OnOk result (view_of self.new.scope ≡ view_of self.old.scope) }
        ensures named { IfOk result (λ l. IsSearched before.now readers.now (names_of self.old.scope) finding.now search.entry.0.now
            search.entry.1.now search.entry.2.now search.entry.3.now l.0) }
        ensures lowered { IfOk result (λ l. IsLowered (view_of self.old.scope) held l.0 l.1) }
        ensures entering { IfOk result (λ l. IsEntering (before_of held) l.0 l.1) }
    {
        let (turns, names, found, otherwise) = search;
        let inside = readers.searching(finding);
        let (turned, flow) = self.block(before, &inside, turns, held)?;
        let Some(behind) = flow.after else {
            return Err(SyntaxFault::at(Wrong::Unreached, offset));
        };
        let first = self.found(before, readers, finding, names, found, behind)?;
        let second = self.block(before, readers, otherwise, behind)?;
        let flag = Expression::Value(finding.flag);
        let entrance = Entrance::Condition(Condition::Equal(flag, Expression::Constant(1)));
        check_registers(usize::from(self.scope.values) + 1, offset)?;
        let (choice, next) = self.chosen(entrance, first, second, behind)?;
        let whole = self.then(turned, choice)?;
        let flow = flow.then(next);
        Ok((whole, flow))
    }

    // So many values from this register on are 0 before the statement.
    fn with_nothing(
        &self,
        register: ValueRegister,
        count: usize,
        body: Lowered,
        held: Held,
    ) -> Result<Lowered, SyntaxFault>
        ensures named { IfOk result (λ l. AreNothing register count body.0 l.0) }
        ensures lowered { (scope : View) → register ≡ scope.values → IsLowered (record scope { values = scope.values + count }) held body.0 body.1
            → IfOk result (λ l. IsLowered scope held l.0 l.1) }
        ensures entering { IsEntering (before_of held) body.0 body.1 → IfOk result (λ l. IsEntering (before_of held) l.0 l.1) }
    {
        if count == 0 {
            return Ok(body);
        }
        let left = count - 1;
        let last = above(register, left, 0)?;
        let body = self.let_in(last, Expression::Constant(0), body, held)?;
        self.with_nothing(register, left, body, held)
    }

    /// A loop that may be left with numbers, and what is done behind it.
    #[cycle(lowering)]
    pub fn search(
        &mut self,
        before: &[Declaration],
        readers: &Readers,
        search: Search<'_>,
        offset: usize,
        held: Held,
    ) -> Result<Lowered, SyntaxFault>
        requires { IsAt (view_of self.old.scope) held }
        ensures scope { OnOk result (view_of self.new.scope ≡ view_of self.old.scope) }
        ensures named { IfOk result (λ l. IsSearch before.now readers.now (names_of self.old.scope) search.entry.0.now
            search.entry.1.now search.entry.2.now search.entry.3.now l.0) }
        ensures lowered { IfOk result (λ l. IsLowered (view_of self.old.scope) held l.0 l.1) }
        ensures entering { IfOk result (λ l. IsEntering (before_of held) l.0 l.1) }
    {
        let finding = self.finding(search.1, offset)?;
        let count = search.1.len() + 1;
        let mark = self.scope.mark();
        self.scope.add_values(count, offset)?;
        let whole = self.searched(before, readers, &finding, search, offset, held)?;
        self.scope.return_to(mark);
        self.with_nothing(finding.flag, count, whole, held)
    }

    // What the innermost loop is left with. 288 if no `found` stands behind it.
    fn finding_here(&self, readers: &Readers, offset: usize) -> Result<Finding, SyntaxFault>
        ensures finding { IfOk result (λ f. readers.now.finding ≡ Some f) }
        ensures depth { IfOk result (λ f. f.depth ≡ self.now.scope.loops) }
    {
        match readers.finding {
            Some(finding) if finding.depth == self.scope.loops => Ok(finding),
            _ => Err(SyntaxFault::at(Wrong::NoSearch, offset)),
        }
    }

    // A number for a value without a name.
    fn number_left(&self, value: &parsed::Expression, held: Held) -> Result<Expression, SyntaxFault>
        requires { IsAt (view_of self.now.scope) held }
        ensures named { IfOk result (IsNumber (names_of self.now.scope) value.now.form) }
        ensures fits { IfOk result (λ e. HasTemporaries e self.now.scope.values) }
        ensures readable { IfOk result (IsReadable self.now.scope.values (nodes_of held)) }
    {
        let number = self.scope.number(self.alloc, value, held)?;
        let needed = registers_of(&number, usize::from(self.scope.values));
        check_registers(needed, value.offset)?;
        Ok(number)
    }

    // A number is put into a register that is in use, and then something is done.
    fn assigned(
        &self,
        register: ValueRegister,
        number: Expression,
        rest: Lowered,
        held: Held,
    ) -> Result<Lowered, SyntaxFault>
        ensures named { IfOk result (λ l. IsThen (Assign register number) rest.0 l.0) }
        ensures flow { IfOk result (λ l. paths_of l.1 ≡ failing_if (may_fail_lem number) (paths_of rest.1) (nodes_of held)) }
        ensures entering { IfOk result (λ l. entered_of l.1 ≡ failing_entered (may_fail_lem number) (before_of held) (entered_of rest.1)) }
    {
        let (rest, flow) = rest;
        let flow = flow.failing_if(may_fail(&number), held);
        Ok((self.then(Statement::Assign(register, number), rest)?, flow))
    }

    // The numbers are put into registers above `below`, one after another, and then the loop is left.
    fn left_with(
        &self,
        values: &[parsed::Expression],
        below: ValueRegister,
        way: Lowered,
        held: Held,
    ) -> Result<Lowered, SyntaxFault>
        requires at { IsAt (view_of self.now.scope) held }
        requires lowered { IsLowered (view_of self.now.scope) held way.0 way.1 }
        requires entering { IsEntering (before_of held) way.0 way.1 }
        ensures named { IfOk result (λ l. AreLeft (names_of self.now.scope) way.0 (below + 1) values.now l.0) }
        ensures lowered { IfOk result (λ l. IsLowered (view_of self.now.scope) held l.0 l.1) }
        ensures entering { IfOk result (λ l. IsEntering (before_of held) l.0 l.1) }
    {
        let Some((value, others)) = values.split_first() else {
            return Ok(way);
        };
        let register = above(below, 1, value.offset)?;
        self.check_in_use(register, value.offset)?;
        let number = self.number_left(value, held)?;
        let rest = self.left_with(others, register, way, held)?;
        self.assigned(register, number, rest, held)
    }

    /// Leaves the innermost loop with these numbers. 279 if its `found` has more names, or fewer, 288 if it has none.
    pub fn break_with(
        &self,
        readers: &Readers,
        values: &[parsed::Expression],
        offset: usize,
        held: Held,
    ) -> Result<Lowered, SyntaxFault>
        requires { IsAt (view_of self.now.scope) held }
        ensures named { (before : List TextDeclaration) (all : Vec TextExpression Global) → values.now ≡ all.items
            → IfOk result (λ l. IsActed before readers.now (names_of self.now.scope) (leaves_with all) l.0) }
        ensures lowered { IfOk result (λ l. IsLowered (view_of self.now.scope) held l.0 l.1) }
        ensures entering { IfOk result (λ l. IsEntering (before_of held) l.0 l.1) }
    {
        let finding = self.finding_here(readers, offset)?;
        if values.len() != finding.count {
            return Err(SyntaxFault::at(Wrong::FoundNames, offset));
        }
        self.check_in_use(finding.flag, offset)?;
        let (out, flow) = self.break_out(offset, held)?;
        let found = Statement::Assign(finding.flag, Expression::Constant(1));
        let way = self.then(found, out)?;
        self.left_with(values, finding.flag, (way, flow), held)
    }
}
