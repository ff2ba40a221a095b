// Blocks and the statements that have blocks, with registers in place of names.

ghost use Rattle.std.specs.Prelude.{◌≡◌, IfOk, OnOk, IfSome, IfNone, List, Some, false};
ghost use Rattle.tl_lowering.specs.Blocks.{IsBinding, IsClosing, Closes, IsWellFormedAt, AreAlike, AreFree, Standing, then_of, binding_paths, values_with, nodes_with};
ghost use Rattle.tl_lowering.specs.Drafts.{opens, head_failure as head_failure_lem, IsMissing, IsOpening, IsHeadOf, IsElse, IsElseOf, other_of, Opens, Binds, Encloses, Becomes, IsFinished, MayFollow, IsExtended};
ghost use Rattle.tl_lowering.specs.Entering.{before_of, entered_of, IsEntering, IsEnteringHead, IsEnteringBinding, EntersSoFar};
ghost use Rattle.tl_lowering.specs.Passing.{Before, Entered, then_by};
ghost use Rattle.tl_lowering.specs.Failing.{is_told};
ghost use Rattle.tl_lowering.specs.declared.readers.Readers.{Readers as KnownReaders};
ghost use Rattle.tl_lowering.specs.Names.{names_of};
ghost use Rattle.tl_lowering.specs.Naming.{declares};
ghost use Rattle.tl_lowering.specs.Reading.{IsBlock, AreStatements, IsStatement, IsActed};
ghost use Rattle.tl_lowering.specs.Lowering.{IsHead, IsRefusal, IsDraft, behind_draft};
ghost use Rattle.tl_lowering.specs.Paths.{nodes_of, outcomes, paths_of};
ghost use Rattle.tl_lowering.specs.Scopes.{View, view_of, IsAt, IsLowered, Extends, is_in_loop};
ghost use Rattle.tl_lowering.specs.Sets.{Nodes};
ghost use Rattle.tl_lowering.specs.declared.program.Statement.{Statement as CoreStatement};
ghost use Rattle.tl_syntax.specs.declared.parsed.Declaration.{Declaration as TextDeclaration};
ghost use Rattle.tl_syntax.specs.declared.parsed.Statement.{Statement as TextStatement};
ghost use Rattle.tl_syntax.specs.declared.parsed.StatementForm.{StatementForm as TextForm};

use crate::failing::{number_failure, place_failure};
use crate::naming::Locking;
use crate::parts::MAX_BLOCKS;
use crate::paths::{Flow, Held};
use crate::program::{Condition, Expression, Place, Statement};
use crate::readers::Readers;
use crate::scope::Scope;
use crate::values::may_fail;
use std::alloc::Global;
use tl_instr::ValueRegister;
use tl_syntax::parsed::{self, Action, Declaration, Name, StatementForm};
use tl_syntax::{Failure, SyntaxFault, Wrong};

/// A statement, and where the paths through it lead.
pub type Lowered = (Statement, Flow);

/// What is declared so far.
#[derive(Drop)]
pub struct Lowering {
    pub alloc: Global,
    pub scope: Scope,
    /// How many words and signs of parts may still be read where they are used.
    pub part_size: usize,
    /// How many parts are around the place.
    pub part_depth: u8,
    /// How many blocks are around the place.
    pub level: usize,
    /// How many statements may still be read, each counted as often as blocks are around it.
    pub work: usize,
}

// What a `let` or a `lock` declares for the rest of its block.
#[derive(Drop)]
enum Binding {
    Value(ValueRegister, Expression),
    ValueElse(ValueRegister, Expression, Statement),
    Nodes(Place, Statement),
}

// A declaration whose block hasn't ended yet, and what the block does before it.
#[derive(Drop)]
struct Opened {
    binding: Binding,
    offset: usize,
    earlier: Vec<Statement>,
}

// The part of a block that was read so far.
#[derive(Drop)]
struct Draft {
    opened: Vec<Opened>,
    statements: Vec<Statement>,
    flow: Flow,
}

// What a declaration declares, before its `else` is read.
#[derive(Drop)]
enum Head {
    Value(Name, ValueRegister, Expression),
    Nodes(Locking),
}

/// What an `if` tests.
#[derive(Drop)]
pub enum Entrance {
    Condition(Condition),
    Lock(Locking),
}

// How a declaration may fail before its `else`.
fn head_failure(head: &Head) -> Option<Failure>
    ensures { result ≡ head_failure_lem head.now }
{
    match head {
        Head::Value(_, _, number) => number_failure(may_fail(number)),
        Head::Nodes(locking) => Some(place_failure(&locking.place)),
    }
}

// A missing `else` fails.
fn refused(otherwise: Option<Lowered>, held: Held) -> Lowered
    ensures named { result.0 ≡ other_of otherwise }
    ensures refusal { (scope : View) → IfSome otherwise (λ l. IsRefusal scope held l.0 l.1) → IsRefusal scope held result.0 result.1 }
    ensures entering { IfSome otherwise (λ l. IsEntering (before_of held) l.0 l.1) → IsEntering (before_of held) result.0 result.1 }
{
    match otherwise {
        None => (Statement::Fail, Flow::NOWHERE.failing(held)),
        Some(otherwise) => otherwise,
    }
}

impl Lowering {
    // A declaration with the rest of its block.
    fn wrapped(&self, binding: Binding, rest: Statement) -> Result<Statement, SyntaxFault>
        ensures named { IfOk result (Binds binding rest) }
        ensures closing { IfOk result (λ s. IsClosing binding rest s) }
    {
        let rest = self.boxed(rest)?;
        match binding {
            Binding::Value(register, number) => Ok(Statement::Let(register, number, rest)),
            Binding::ValueElse(register, number, otherwise) => {
                let otherwise = self.boxed(otherwise)?;
                Ok(Statement::LetElse(register, number, rest, otherwise))
            }
            Binding::Nodes(place, otherwise) => {
                let otherwise = self.boxed(otherwise)?;
                Ok(Statement::Lock(place, rest, otherwise))
            }
        }
    }

    // The same, behind what the block does before it.
    fn closed(&self, opened: Opened, rest: Statement) -> Result<Statement, SyntaxFault>
        ensures named { IfOk result (Encloses opened rest) }
        ensures closes { IfOk result (λ s. Closes opened rest s) }
    {
        let Opened {
            binding,
            offset,
            mut earlier,
        } = opened;
        let whole = self.wrapped(binding, rest)?;
        earlier.push(self.at(offset, whole)?)?;
        self.sequence(earlier)
    }

    // The complete block.
    fn finished(&self, draft: Draft) -> Result<Statement, SyntaxFault>
        ensures named { IfOk result (IsFinished draft) }
        ensures order { (start : Standing) (scope : View) (outer : Nodes) → IsDraft start draft scope → AreFree start.nodes outer
            → IfOk result (λ s. AreAlike outer (then_of start.paths (outcomes s)) (behind_draft start draft) × IsWellFormedAt s start (is_in_loop scope)) }
    {
        let Draft {
            mut opened,
            statements,
            flow: _,
        } = draft;
        let mut whole = self.sequence(statements)?;
        while let Some(last) = opened.pop() {
            whole = self.closed(last, whole)?;
        }
        Ok(whole)
    }

    // How many statements may still be read behind those of a block. 274 in too many blocks, 294 if they become too many.
    fn work_behind(&self, statements: &[parsed::Statement]) -> Result<usize, SyntaxFault> {
        let Some(first) = statements.first() else {
            return Ok(self.work);
        };
        if self.level >= MAX_BLOCKS {
            return Err(SyntaxFault::at(Wrong::Blocks, first.offset));
        }
        let around = self.level.saturating_add(1);
        match self
            .work
            .checked_sub(statements.len().saturating_mul(around))
        {
            Some(left) => Ok(left),
            None => Err(SyntaxFault::at(Wrong::Statements, first.offset)),
        }
    }

    /// A block. `held` holds where it begins.
    #[cycle(lowering)]
    pub fn block(
        &mut self,
        before: &[Declaration],
        readers: &Readers,
        statements: &[parsed::Statement],
        held: Held,
    ) -> Result<Lowered, SyntaxFault>
        requires { IsAt (view_of self.old.scope) held }
        ensures scope { OnOk result (view_of self.new.scope ≡ view_of self.old.scope) }
        ensures named { IfOk result (λ l. IsBlock before.now readers.now (names_of self.old.scope) statements.now l.0) }
        ensures lowered { IfOk result (λ l. IsLowered (view_of self.old.scope) held l.0 l.1) }
        ensures entering { IfOk result (λ l. IsEntering (before_of held) l.0 l.1) }
    {
        self.work = self.work_behind(statements)?;
        self.level = self.level.saturating_add(1);
        let mark = self.scope.mark();
        let mut draft = Draft {
            opened: Vec::new(self.alloc),
            statements: Vec::new(self.alloc),
            flow: Flow::on(held),
        };
        for statement in statements {
            let Some(held_here) = draft.flow.after else {
                return Err(SyntaxFault::at(Wrong::Unreached, statement.offset));
            };
            let flow = self.extend(before, readers, &mut draft, statement, held_here)?;
            draft.flow = draft.flow.then(flow);
        }
        self.scope.return_to(mark);
        self.level = self.level.saturating_sub(1);
        let flow = draft.flow.keeping(held.nodes);
        Ok((self.finished(draft)?, flow))
    }

    // What a `let` or a `lock` declares, before its `else` is read. None for any other statement.
    fn head(&self, form: &StatementForm, held: Held) -> Result<Option<Head>, SyntaxFault>
        requires { IsAt (view_of self.now.scope) held }
        ensures named { IfOk result (IsHeadOf (names_of self.now.scope) form.now) }
        ensures head { IfOk result (λ head. IfSome head (IsHead (view_of self.now.scope) held)) }
        ensures entering { IfOk result (λ head. IfSome head (IsEnteringHead (before_of held))) }
    {
        let StatementForm::Act(action, _) = form else {
            return Ok(None);
        };
        match action {
            Action::Let { name, value } => {
                let (register, number) = self.new_value(*name, value, held)?;
                Ok(Some(Head::Value(*name, register, number)))
            }
            Action::Lock(place) => Ok(Some(Head::Nodes(self.place(place, held)?))),
            _ => Ok(None),
        }
    }

    // The declaration with its `else`, if it has one. Its names are known from here on.
    fn bound(
        &mut self,
        head: Head,
        otherwise: Option<Lowered>,
        held: Held,
    ) -> Result<(Binding, Flow), SyntaxFault>
        requires at { IsAt (view_of self.old.scope) held }
        requires head { IsHead (view_of self.old.scope) held head }
        requires otherwise { IfSome otherwise (λ l. IsRefusal (view_of self.old.scope) held l.0 l.1) }
        requires entering { IsEnteringHead (before_of held) head }
        requires refused { IfSome otherwise (λ l. IsEntering (before_of held) l.0 l.1) }
        ensures named { (before : List TextDeclaration) (readers : KnownReaders) (form : TextForm) → IsOpening (names_of self.old.scope) form head
            → IsElse before readers (names_of self.old.scope) form head otherwise
            → IfOk result (λ b. Opens before readers (names_of self.old.scope) form b.0 (names_of self.new.scope)) }
        ensures binding { IfOk result (λ b. IsBinding b.0 self.old.scope.values self.old.scope.nodes (nodes_of held) (is_in_loop (view_of self.old.scope))) }
        ensures paths { IfOk result (λ b. paths_of b.1 ≡ binding_paths b.0 (nodes_of held)) }
        ensures entering { IfOk result (λ b. IsEnteringBinding (before_of held) b.0 b.1) }
        ensures at { IfOk result (λ b. IfSome b.1.after (IsAt (view_of self.new.scope))) }
        ensures values { IfOk result (λ b. self.new.scope.values ≡ values_with b.0 self.old.scope.values) }
        ensures nodes { IfOk result (λ b. self.new.scope.nodes ≡ nodes_with b.0 self.old.scope.nodes) }
        ensures loops { OnOk result (self.new.scope.loops ≡ self.old.scope.loops) }
        ensures extends { OnOk result ((outer : View) → Extends outer (view_of self.old.scope) → Extends outer (view_of self.new.scope)) }
    {
        match head {
            Head::Value(name, register, number) => {
                self.scope.declare_value(name, register)?;
                let Some((statement, flow)) = otherwise else {
                    let flow = Flow::on(held).failing_if(may_fail(&number), held);
                    return Ok((Binding::Value(register, number), flow));
                };
                let binding = Binding::ValueElse(register, number, statement);
                Ok((binding, flow.going_on(held)))
            }
            Head::Nodes(locking) => {
                self.declare(&locking)?;
                let (statement, flow) = refused(otherwise, held);
                let flow = flow.going_on(locking.held);
                Ok((Binding::Nodes(locking.place, statement), flow))
            }
        }
    }

    // What a declaration without an `else` does where it fails, if an `else` around it reads the code. None if it doesn't, or if the
    // declaration can't fail.
    fn missing_else(
        &self,
        readers: &Readers,
        head: &Head,
        offset: usize,
        held: Held,
    ) -> Result<Option<Lowered>, SyntaxFault>
        requires { IsAt (view_of self.now.scope) held }
        ensures none { IfOk result (λ o. IfNone o (is_told readers.now.code (head_failure_lem head.now) ≡ false)) }
        ensures told { IfOk result (λ o. IfSome o (λ l. IsMissing readers.now head.now l.0)) }
        ensures refusal { IfOk result (λ o. IfSome o (λ l. IsRefusal (view_of self.now.scope) held l.0 l.1)) }
        ensures entering { IfOk result (λ o. IfSome o (λ l. IsEntering (before_of held) l.0 l.1)) }
    {
        let Some(_) = readers.code else {
            return Ok(None);
        };
        let Some(failure) = head_failure(head) else {
            return Ok(None);
        };
        let code = Expression::Constant(failure.code());
        Ok(Some(self.failure(readers, code, offset, held)?))
    }

    // The `else` of a declaration. 286 if control can reach its end.
    #[cycle(lowering)]
    fn refusal(
        &mut self,
        before: &[Declaration],
        readers: &Readers,
        head: &Head,
        statement: &parsed::Statement,
        held: Held,
    ) -> Result<Option<Lowered>, SyntaxFault>
        requires { IsAt (view_of self.old.scope) held }
        ensures scope { OnOk result (view_of self.new.scope ≡ view_of self.old.scope) }
        ensures named { IfOk result (IsElseOf before.now readers.now (names_of self.old.scope) statement.now.form head.now) }
        ensures refusal { IfOk result (λ o. IfSome o (λ l. IsRefusal (view_of self.old.scope) held l.0 l.1)) }
        ensures entering { IfOk result (λ o. IfSome o (λ l. IsEntering (before_of held) l.0 l.1)) }
    {
        let StatementForm::Act(_, otherwise) = &statement.form else {
            return Ok(None);
        };
        let Some(otherwise) = otherwise else {
            return self.missing_else(readers, head, statement.offset, held);
        };
        let (statement, flow) = self.block(before, readers, &otherwise.body, held)?;
        if flow.after.is_some() {
            return Err(SyntaxFault::at(Wrong::ElseEnds, otherwise.offset));
        }
        Ok(Some((statement, flow)))
    }

    // Adds a statement to a block.
    #[cycle(lowering)]
    fn extend(
        &mut self,
        before: &[Declaration],
        readers: &Readers,
        draft: &mut Draft,
        statement: &parsed::Statement,
        held: Held,
    ) -> Result<Flow, SyntaxFault>
        requires { IsAt (view_of self.old.scope) held }
        ensures named { IfOk result (λ f. (rest : List TextStatement) (items all : List CoreStatement) → MayFollow f rest
            → AreStatements before.now readers.now (names_of self.new.scope) rest items → Becomes draft.new items all
            → IsExtended before.now readers.now (names_of self.old.scope) statement.now rest draft.old all) }
        ensures draft { (start : Standing) → IsDraft start draft.old (view_of self.old.scope) → (behind_draft start draft.old).after ≡ Some (nodes_of held)
            → OnOk result (IsDraft start draft.new (view_of self.new.scope)) }
        ensures paths { (start : Standing) → (behind_draft start draft.old).after ≡ Some (nodes_of held)
            → IfOk result (λ f. behind_draft start draft.new ≡ then_of (behind_draft start draft.old) (λ h. paths_of f)) }
        ensures entering { (e : Before) (x : Entered) → x.after ≡ Some (before_of held) → EntersSoFar e draft.old x
            → IfOk result (λ f. EntersSoFar e draft.new (then_by x.after x (λ h. entered_of f))) }
        ensures flow { OnOk result (draft.new.flow ≡ draft.old.flow) }
        ensures at { IfOk result (λ f. IfSome f.after (IsAt (view_of self.new.scope))) }
        ensures loops { OnOk result (self.new.scope.loops ≡ self.old.scope.loops) }
        ensures extends { OnOk result ((outer : View) → Extends outer (view_of self.old.scope) → Extends outer (view_of self.new.scope)) }
    {
        let offset = statement.offset;
        let Some(head) = self.head(&statement.form, held)? else {
            let (lowered, flow) = self.statement(before, readers, &statement.form, offset, held)?;
            let marked = self.marked(readers, lowered, offset)?;
            draft.statements.push(self.at(offset, marked)?)?;
            return Ok(flow);
        };
        let otherwise = self.refusal(before, readers, &head, statement, held)?;
        let (binding, flow) = self.bound(head, otherwise, held)?;
        let earlier = std::mem::replace(&mut draft.statements, Vec::new(self.alloc));
        draft.opened.push(Opened {
            binding,
            offset,
            earlier,
        })?;
        Ok(flow)
    }

    // A statement that declares nothing for the rest of its block. Its first word stands at the offset.
    #[cycle(lowering)]
    fn statement(
        &mut self,
        before: &[Declaration],
        readers: &Readers,
        form: &StatementForm,
        offset: usize,
        held: Held,
    ) -> Result<Lowered, SyntaxFault>
        requires { IsAt (view_of self.old.scope) held }
        ensures scope { OnOk result (view_of self.new.scope ≡ view_of self.old.scope) }
        ensures named { IfOk result (λ l. opens form.now ≡ false
            → IsStatement before.now readers.now (names_of self.old.scope) form.now l.0) }
        ensures lowered { IfOk result (λ l. IsLowered (view_of self.old.scope) held l.0 l.1) }
        ensures entering { IfOk result (λ l. IsEntering (before_of held) l.0 l.1) }
    {
        match form {
            StatementForm::Act(action, otherwise) => match otherwise {
                None => self.acted(before, readers, action, offset, held),
                Some(otherwise) => {
                    let unread = readers.unread();
                    let lowered = self.acted(before, &unread, action, offset, held)?;
                    self.handled(before, readers, lowered, &otherwise.body, held)
                }
            },
            StatementForm::Try(why, body, handler) => {
                self.tried(before, readers, why, body, handler, held)
            }
            StatementForm::If(question, body, otherwise) => {
                self.choice(before, readers, question, body, otherwise, held)
            }
            StatementForm::Repeat {
                turns,
                at_most,
                body,
            } => {
                let repetition = self.repetition(turns, at_most.as_ref(), offset, held)?;
                self.turns(before, readers, repetition, body, offset, held)
            }
            StatementForm::ForEach {
                child,
                index,
                parent,
                at_most,
                body,
            } => {
                let names = (*child, *index, *parent);
                let repetition = self.visit(names, at_most, offset, held)?;
                self.turns(before, readers, repetition, body, offset, held)
            }
            StatementForm::Block(body) => self.block(before, readers, body, held),
            StatementForm::Search(turns, names, found, otherwise) => {
                self.search(
                    before,
                    readers,
                    (turns, names, found, otherwise),
                    offset,
                    held,
                )
            }
        }
    }

    // A statement without blocks of its own that declares nothing, where a part is expanded.
    #[cycle(lowering)]
    fn acted(
        &mut self,
        before: &[Declaration],
        readers: &Readers,
        action: &Action,
        offset: usize,
        held: Held,
    ) -> Result<Lowered, SyntaxFault>
        requires { IsAt (view_of self.old.scope) held }
        ensures scope { OnOk result (view_of self.new.scope ≡ view_of self.old.scope) }
        ensures named { IfOk result (λ l. declares action.now ≡ false
            → IsActed before.now readers.now (names_of self.old.scope) action.now l.0) }
        ensures lowered { IfOk result (λ l. IsLowered (view_of self.old.scope) held l.0 l.1) }
        ensures entering { IfOk result (λ l. IsEntering (before_of held) l.0 l.1) }
    {
        match action {
            Action::Use { part, arguments } => self.used(before, readers, *part, arguments, held),
            Action::Require(condition, code) => { self.require(readers, condition, code, held) }
            Action::Leave(leave) => self.leave(readers, *leave, offset, held),
            Action::BreakWith(values) => self.break_with(readers, values, offset, held),
            Action::Fail(code) => {
                let number = self.code(code, held)?;
                self.failure(readers, number, offset, held)
            }
            _ => self.action(action, offset, held),
        }
    }
}
