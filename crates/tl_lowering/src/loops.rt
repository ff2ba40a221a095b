// Loops without their blocks, with registers in place of names.

ghost use Rattle.std.specs.Prelude.{◌≡◌, ◌≢◌, ◌+◌, ◌<◌, Bool, true, None, option_map, IfOk, OnOk, IfSome};
ghost use Rattle.std.specs.Borrow.{Bor};
ghost use Rattle.tl_lowering.specs.declared.paths.Held.{Held};
ghost use Rattle.tl_lowering.specs.Entering.{before_of, entered_at, entered_of, before_body, before_turns, IsEntering};
ghost use Rattle.tl_lowering.specs.Choosing.{IsRepeated, IsVisited, names_within, IsTurning, IsTurnBody, IsLoop};
ghost use Rattle.tl_lowering.specs.Names.{names_of, AreFresh};
ghost use Rattle.tl_lowering.specs.declared.scope.Meaning.TheVariants.{Nothing};
ghost use Rattle.tl_lowering.specs.Passing.{walks, KeepsOut};
ghost use Rattle.tl_lowering.specs.Reading.{IsVisiting};
ghost use Rattle.tl_syntax.specs.declared.parsed.Expression.{Expression as TextExpression};
ghost use Rattle.tl_lowering.specs.Paths.{nodes_of, passed_of, known, paths_of, keeping};
ghost use Rattle.tl_lowering.specs.Repeating.{IsRepetition, IsVisit, IsBody, IsTurn, IsWalk, IsUnpassed, begun, passed_within, more_in};
ghost use Rattle.tl_lowering.specs.Scopes.{View, view_of, meaning_of, IsInUse, IsAt, IsLowered, Extends};

use crate::descents::passed_down;
use crate::lowering::{Lowered, Lowering};
use crate::paths::{Flow, Held, join};
use crate::program::{Expression, Place, Statement};
use crate::readers::Readers;
use crate::values::{behind, calculated, check_registers};
use tl_budget::MAX_DEPTH;
use tl_instr::{NodeRegister, ValueRegister};
use tl_syntax::parsed::{self, Declaration, Name};
use tl_syntax::{Operator, SyntaxFault, Wrong};

/// A loop over the children of a node.
#[derive(Clone, Copy)]
pub struct Visit {
    pub name: Name,
    /// The name of the child's place.
    pub index_name: Option<Name>,
    pub child: NodeRegister,
    pub parent: NodeRegister,
    pub index: ValueRegister,
    pub turns: u16,
}

/// How often a block is repeated.
#[derive(Drop)]
pub enum Repetition {
    Times(u16),
    UpTo(Expression, u16),
    Children(Visit),
}

// Behind a loop that began with `held`, and where it fails.
fn leaving(after: Option<Held>, fails: Option<Held>, held: Held) -> Flow
    ensures paths { paths_of result ≡ record { after = keeping (nodes_of held) (known after); fails = known fails; breaks = None } }
    ensures entered { entered_of result ≡ record { after = entered_at after; fails = entered_at fails; breaks = None } }
{
    let flow = Flow {
        after,
        fails,
        breaks: None,
    };
    flow.keeping(held.nodes)
}

impl Lowering {
    /// 293 inside four loops.
    pub fn check_depth(&self, offset: usize) -> Result<(), SyntaxFault>
        ensures { OnOk result (self.now.scope.loops < MAX_DEPTH) }
    {
        if usize::from(self.scope.loops) >= MAX_DEPTH {
            return Err(SyntaxFault::at(Wrong::LoopDepth, offset));
        }
        Ok(())
    }

    /// How often a block is repeated. 275, 277, 280, 281, 291 or 293 at the first part that is wrong.
    pub fn repetition(
        &self,
        turns: &parsed::Expression,
        at_most: Option<&parsed::Expression>,
        offset: usize,
        held: Held,
    ) -> Result<Repetition, SyntaxFault>
        requires { IsInUse (view_of self.now.scope) }
        ensures named { IfOk result (IsRepeated (names_of self.now.scope) turns.now.form (option_map (λ (e : Bor TextExpression). e.now.form) at_most.entry)) }
        ensures repetition { IfOk result (λ r. IsRepetition (view_of self.now.scope) held r) }
        ensures fresh { IfOk result (IsUnpassed (passed_of held)) }
        ensures depth { OnOk result (self.now.scope.loops < MAX_DEPTH) }
    {
        self.check_depth(offset)?;
        let Some(at_most) = at_most else {
            return Ok(Repetition::Times(self.scope.turns(turns)?));
        };
        let number = self.scope.operand(self.alloc, turns, held)?;
        let free = behind(&number, usize::from(self.scope.values));
        check_registers(free.saturating_add(1), turns.offset)?;
        Ok(Repetition::UpTo(number, self.scope.turns(at_most)?))
    }

    // 276 if the name of a loop's child or that of its place is declared already.
    fn check_names(&self, child: Name, index: Option<Name>) -> Result<(), SyntaxFault>
        ensures named { OnOk result (AreFresh (names_of self.now.scope) child index) }
        ensures child { OnOk result (meaning_of (view_of self.now.scope) child.symbol ≡ Nothing) }
        ensures index { OnOk result (IfSome index (λ n. (meaning_of (view_of self.now.scope) n.symbol ≡ Nothing) × (n.symbol.0 ≢ child.symbol.0))) }
    {
        self.scope.check_new(child)?;
        let Some(index) = index else {
            return Ok(());
        };
        self.scope.check_new(index)?;
        if index.symbol == child.symbol {
            return Err(SyntaxFault::at(Wrong::Twice, index.offset));
        }
        Ok(())
    }

    /// A loop over the children of a node: its registers, and how many turns it has at most. 275 to 277, 280, 281, 284 or 291 to
    /// 293 at the first part that is wrong.
    pub fn visit(
        &self,
        names: (Name, Option<Name>, Name),
        at_most: &parsed::Expression,
        offset: usize,
        held: Held,
    ) -> Result<Repetition, SyntaxFault>
        requires { IsInUse (view_of self.now.scope) }
        ensures named { IfOk result (IsVisited (names_of self.now.scope) names.0 names.1 names.2 at_most.now.form) }
        ensures repetition { IfOk result (λ r. IsRepetition (view_of self.now.scope) held r) }
        ensures fresh { IfOk result (IsUnpassed (passed_of held)) }
        ensures depth { OnOk result (self.now.scope.loops < MAX_DEPTH) }
    {
        self.check_depth(offset)?;
        let (name, index_name, parent) = names;
        self.check_names(name, index_name)?;
        let child = self.scope.next_node(0, name.offset)?;
        let index = self.scope.next_value(name.offset)?;
        check_registers(usize::from(self.scope.values) + 3, name.offset)?;
        let owner = self.scope.node(parent, held)?;
        if held.has_visited(owner) {
            return Err(SyntaxFault::at(Wrong::NoTurn, parent.offset));
        }
        Ok(Repetition::Children(Visit {
            name,
            index_name,
            child,
            parent: owner,
            index,
            turns: self.scope.turns(at_most)?,
        }))
    }

    /// Enters the body of a loop and declares the loop's names. `start` holds as a turn begins; the result holds in the body.
    pub fn begin(&mut self, repetition: &Repetition, start: Held) -> Result<Held, SyntaxFault>
        requires at { IsAt (view_of self.old.scope) start }
        requires repetition { IsRepetition (view_of self.old.scope) start repetition.now }
        requires depth { self.old.scope.loops < MAX_DEPTH }
        ensures named { OnOk result (names_of self.new.scope ≡ names_within (names_of self.old.scope) repetition.now) }
        ensures at { IfOk result (λ inside. IsAt (view_of self.new.scope) inside) }
        ensures held { IfOk result (λ inside. nodes_of inside ≡ begun repetition.now (nodes_of start)) }
        ensures entered { IfOk result (λ inside. inside.is_entered ≡ start.is_entered) }
        ensures passed { IfOk result (λ inside. passed_of inside ≡ passed_within repetition.now (passed_of start)) }
        ensures values { OnOk result (self.new.scope.values ≡ more_in repetition.now self.old.scope.values) }
        ensures nodes { OnOk result (self.new.scope.nodes ≡ more_in repetition.now self.old.scope.nodes) }
        ensures loops { OnOk result (self.new.scope.loops ≡ self.old.scope.loops + 1) }
        ensures extends { OnOk result ((outer : View) → Extends outer (view_of self.old.scope) → Extends outer (view_of self.new.scope)) }
    {
        self.scope.loops = self.scope.loops.saturating_add(1);
        let Repetition::Children(visit) = repetition else {
            return Ok(start);
        };
        self.scope.declare_index(visit.index_name, visit.index)?;
        self.scope.declare_node(visit.name, visit.child)?;
        Ok(start.visiting(visit.parent).with(visit.child))
    }

    /// 283 if a turn that begins with `start` changes which nodes are held, or enters the tree.
    pub fn check_turn(&self, flow: Flow, start: Held, offset: usize) -> Result<Flow, SyntaxFault>
        ensures paths { IfOk result (λ f. paths_of f ≡ record (paths_of flow) { after = keeping (nodes_of start) (paths_of flow).after }) }
        ensures kept { IfOk result (λ f. IfSome (paths_of f).after (λ h. h ≡ nodes_of start)) }
        ensures entered { IfOk result (λ f. entered_of f ≡ entered_of flow) }
        ensures once { IfOk result (λ f. KeepsOut (entered_of f).after (before_of start)) }
    {
        let flow = flow.keeping(start.nodes);
        if let Some(after) = flow.after {
            if after.nodes != start.nodes || (after.is_entered && !start.is_entered) {
                return Err(SyntaxFault::at(Wrong::LoopChanges, offset));
            }
        }
        Ok(flow)
    }

    /// A loop with its body. `start` holds as a turn begins, `held` as the loop begins.
    pub fn repeated(
        &self,
        repetition: Repetition,
        lowered: Lowered,
        start: Held,
        held: Held,
    ) -> Result<Lowered, SyntaxFault>
        requires at { IsAt (view_of self.now.scope) held }
        requires start { nodes_of start ≡ nodes_of held }
        requires repetition { IsRepetition (view_of self.now.scope) held repetition }
        requires before { before_of start ≡ before_turns repetition lowered.0 (before_of held) }
        requires entering { IsEntering (before_body repetition (before_of start)) lowered.0 lowered.1 }
        requires once { KeepsOut (entered_of lowered.1).after (before_of start) }
        requires block { walks lowered.0 ≡ None }
        requires fresh { IsUnpassed (passed_of held) repetition }
        requires turn { IsTurn self.now.scope.values self.now.scope.nodes (nodes_of held) repetition lowered.0 lowered.1 }
        ensures named { IfOk result (λ l. IsTurning lowered.0 repetition l.0) }
        ensures lowered { IfOk result (λ l. IsLowered (view_of self.now.scope) held l.0 l.1) }
        ensures entering { IfOk result (λ l. IsEntering (before_of held) l.0 l.1) }
    {
        let (body, flow) = lowered;
        let turned = join(flow.after, flow.breaks);
        match repetition {
            Repetition::Times(turns) => {
                let whole = Statement::Repeat(turns, self.boxed(body)?);
                Ok((whole, leaving(turned, flow.fails, held)))
            }
            Repetition::UpTo(number, turns) => {
                let whole = Statement::RepeatUpTo(number, turns, self.boxed(body)?);
                let after = join(Some(held), turned);
                Ok((whole, leaving(after, join(Some(held), flow.fails), held)))
            }
            Repetition::Children(visit) => {
                let whole = self.visiting(visit, body)?;
                let after = join(Some(held.visiting(visit.parent)), turned);
                Ok((whole, leaving(after, join(Some(start), flow.fails), held)))
            }
        }
    }

    // The children are counted first; if there are too many, the loop fails. Then each turn locks the next one, and fails where that
    // one was passed.
    fn visiting(&self, visit: Visit, body: Statement) -> Result<Statement, SyntaxFault>
        ensures named { IfOk result (IsVisiting visit.index visit.child visit.parent visit.turns body) }
        ensures walk { (held : Held) (in_loop : Bool) → IsAt (view_of self.now.scope) held → IsVisit (view_of self.now.scope) held visit
            → IsBody self.now.scope.values self.now.scope.nodes (nodes_of held) (Repetition.Children visit) body
            → IfOk result (λ s. IsWalk self.now.scope.values self.now.scope.nodes (nodes_of held) in_loop visit.child body s) }
    {
        let next = calculated(
            self.alloc,
            Operator::Add,
            Expression::Value(visit.index),
            Expression::Constant(1),
        )?;
        let place = Place::Child(visit.child, visit.parent, Expression::Value(visit.index));
        let body = self.boxed(body)?;
        let lock = Statement::Lock(place, body, self.boxed(Statement::Fail)?);
        let turn = self.then(Statement::Assign(visit.index, next), lock)?;
        let count = Expression::Children(visit.parent);
        let turns = Statement::RepeatUpTo(count, visit.turns, self.boxed(turn)?);
        Ok(Statement::Let(visit.index, Expression::Constant(-1), self.boxed(turns)?))
    }

    // The body of a loop's turn. `start` holds as it begins.
    #[cycle(lowering)]
    fn turn(
        &mut self,
        before: &[Declaration],
        readers: &Readers,
        repetition: &Repetition,
        body: &[parsed::Statement],
        offset: usize,
        start: Held,
    ) -> Result<Lowered, SyntaxFault>
        requires at { IsAt (view_of self.old.scope) start }
        requires repetition { IsRepetition (view_of self.old.scope) start repetition.now }
        requires depth { self.old.scope.loops < MAX_DEPTH }
        ensures scope { OnOk result (view_of self.new.scope ≡ view_of self.old.scope) }
        ensures named { IfOk result (λ l. IsTurnBody before.now readers.now (names_of self.old.scope) repetition.now body.now l.0) }
        ensures turn { IfOk result (λ l. IsTurn self.old.scope.values self.old.scope.nodes (nodes_of start) repetition.now l.0 l.1) }
        ensures entering { IfOk result (λ l. IsEntering (before_body repetition.now (before_of start)) l.0 l.1) }
        ensures once { IfOk result (λ l. KeepsOut (entered_of l.1).after (before_of start)) }
    {
        let mark = self.scope.mark();
        let inside = self.begin(repetition, start)?;
        let (body, flow) = self.block(before, readers, body, inside)?;
        self.scope.return_to(mark);
        self.scope.loops = self.scope.loops.saturating_sub(1);
        let flow = self.check_turn(flow, start, offset)?;
        let body = self.renewed(readers, repetition, body, offset)?;
        Ok((body, flow))
    }

    /// A loop, whose first word stands at the offset. From which nodes a turn goes down is known once its body is read; the text tells
    /// it before, but of a part only that it may go down from each node that it is given. Where that isn't so, the turn is read again.
    #[cycle(lowering)]
    pub fn turns(
        &mut self,
        before: &[Declaration],
        readers: &Readers,
        repetition: Repetition,
        body: &[parsed::Statement],
        offset: usize,
        held: Held,
    ) -> Result<Lowered, SyntaxFault>
        requires at { IsAt (view_of self.old.scope) held }
        requires repetition { IsRepetition (view_of self.old.scope) held repetition }
        requires depth { self.old.scope.loops < MAX_DEPTH }
        requires fresh { IsUnpassed (passed_of held) repetition }
        ensures scope { OnOk result (view_of self.new.scope ≡ view_of self.old.scope) }
        ensures named { IfOk result (λ l. IsLoop before.now readers.now (names_of self.old.scope) repetition body.now l.0) }
        ensures lowered { IfOk result (λ l. IsLowered (view_of self.old.scope) held l.0 l.1) }
        ensures entering { IfOk result (λ l. IsEntering (before_of held) l.0 l.1) }
    {
        let guess = held.forgetting(self.scope.may_descend(body));
        let first = self.turn(before, readers, &repetition, body, offset, guess)?;
        let start = held.forgetting(passed_down(&repetition, &first.0));
        if start.visited == guess.visited {
            return self.repeated(repetition, first, start, held);
        }
        let again = self.turn(before, readers, &repetition, body, offset, start)?;
        self.repeated(repetition, again, start, held)
    }
}
