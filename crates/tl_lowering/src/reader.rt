// From a text to the core forms of its procedures.

ghost use Rattle.std.specs.Prelude.{◌≡◌, [], ◌≤◌, length, None, pos, true, IfSome, IfOk, OnOk};
ghost use Rattle.std.specs.List.{All};
ghost use Rattle.tl_lowering.specs.Atomic.{IsAtomic};
ghost use Rattle.tl_lowering.specs.declared.program.Procedure.{Procedure as CoreProcedure};
ghost use Rattle.tl_lowering.specs.declared.program.Statement.TheVariants.{Skip};
ghost use Rattle.tl_lowering.specs.Fit.{IsWord};
ghost use Rattle.tl_lowering.specs.Names.{names_of, index_of, with_procedure, with_values, AreNew};
ghost use Rattle.tl_lowering.specs.Outcomes.{fails};
ghost use Rattle.tl_lowering.specs.Passing.{nothing_before, EntersOnce};
ghost use Rattle.tl_lowering.specs.Reading.{IsTried, IsBody, IsProcedure, IsWithField, AreDeclared, IsProgram};
ghost use Rattle.tl_lowering.specs.Scopes.{view_of, IsInUse, IsAt, IsBare, Extends, is_in_loop};
ghost use Rattle.tl_lowering.specs.Sets.{none_held};
ghost use Rattle.tl_lowering.specs.Sound.{IsWellFormed, IsInOrder};
ghost use Rattle.tl_syntax.specs.Tokens.{spellings};

use crate::atomic::check_atomic;
use crate::lowering::Lowering;
use crate::parts::{MAX_PART_SIZE, MAX_WORK};
use crate::paths::Held;
use crate::program::{Procedure, Program, Statement};
use crate::readers::Readers;
use crate::scope::Scope;
use indexmap::IndexSet;
use std::alloc::Global;
use tl_instr::{Field, MAX_ARGS};
use tl_syntax::parsed::{self, Declaration, Name};
use tl_syntax::{Syntax, SyntaxFault, Wrong, parse};

// The field with that number.
fn field_numbered(number: i64) -> Option<Field>
    ensures { IfSome result (λ f. number ≡ pos f) }
{
    u8::try_from(number).ok().and_then(Field::new)
}

impl Lowering {
    fn declare_field(
        &mut self,
        name: Name,
        expression: &parsed::Expression,
        index: usize,
    ) -> Result<(), SyntaxFault>
        requires { IsBare (view_of self.old.scope) }
        ensures named { OnOk result (IsWithField index (names_of self.old.scope) name expression.now (names_of self.new.scope)) }
        ensures bare { OnOk result (IsBare (view_of self.new.scope)) }
    {
        self.scope.check_new_field(name)?;
        let number = self.scope.constant(expression)?;
        match field_numbered(number) {
            Some(field) => {
                self.scope.declare_field(name, field, index);
                Ok(())
            }
            None => Err(SyntaxFault::at(Wrong::FieldNumber, expression.offset)),
        }
    }

    fn declare_arguments(&mut self, names: &[Name]) -> Result<(), SyntaxFault>
        requires { IsBare (view_of self.old.scope) }
        ensures named { OnOk result (names_of self.new.scope ≡ with_values (names_of self.old.scope) names.now) }
        ensures fresh { OnOk result (AreNew (names_of self.old.scope) names.now) }
        ensures names { OnOk result (IsInUse (view_of self.new.scope)) }
        ensures values { OnOk result (self.new.scope.values ≤ MAX_ARGS) }
        ensures nodes { OnOk result (self.new.scope.nodes ≡ 0) }
        ensures loops { OnOk result (self.new.scope.loops ≡ 0) }
        ensures extends { OnOk result (Extends (view_of self.old.scope) (view_of self.new.scope)) }
    {
        for name in names {
            self.scope.check_new(*name)?;
            if usize::from(self.scope.values) >= MAX_ARGS {
                return Err(SyntaxFault::at(Wrong::Argument, name.offset));
            }
            let register = self.scope.next_value(name.offset)?;
            self.scope.declare_value(*name, register)?;
        }
        Ok(())
    }

    // A failure that the procedure's `else` doesn't handle ends the procedure. 299 if a write may stand before it in an atomic one.
    fn completed(
        &self,
        procedure: &parsed::Procedure,
        handled: Statement,
    ) -> Result<Statement, SyntaxFault>
        ensures named { IfOk result (IsTried handled Skip) }
        ensures atomic { OnOk result (procedure.now.is_atomic ≡ true → IsAtomic handled) }
    {
        check_atomic(procedure.is_atomic, &handled, procedure.name.offset)?;
        self.attempt(handled, Statement::Skip)
    }

    // The body of a procedure. An absent `else` is an empty block.
    fn body(
        &mut self,
        before: &[Declaration],
        procedure: &parsed::Procedure,
    ) -> Result<Statement, SyntaxFault>
        requires { IsAt (view_of self.old.scope) Held.NOTHING }
        ensures scope { OnOk result (view_of self.new.scope ≡ view_of self.old.scope) }
        ensures named { IfOk result (IsBody before.now (names_of self.old.scope) procedure.now) }
        ensures sound { IfOk result (λ s. IsWellFormed s self.old.scope.values self.old.scope.nodes none_held (is_in_loop (view_of self.old.scope))) }
        ensures handled { IfOk result (λ s. fails s none_held ≡ []) }
        ensures enters { IfOk result (λ s. EntersOnce s nothing_before) }
    {
        let nothing = Readers::nothing();
        let Some(why) = procedure.why else {
            let lowered = self.block(before, &nothing, &procedure.body, Held::NOTHING)?;
            check_atomic(procedure.is_atomic, &lowered.0, procedure.name.offset)?;
            let (handled, _flow) = self.handled(
                before,
                &nothing,
                lowered,
                &procedure.otherwise,
                Held::NOTHING,
            )?;
            return self.completed(procedure, handled);
        };
        let (register, lowered) = self.told(before, &nothing, why, &procedure.body, Held::NOTHING)?;
        check_atomic(procedure.is_atomic, &lowered.0, procedure.name.offset)?;
        let named = (why, register);
        let (handled, _flow) = self.heard(
            before,
            &nothing,
            named,
            lowered,
            &procedure.otherwise,
            Held::NOTHING,
        )?;
        self.completed(procedure, handled)
    }

    fn procedure(
        &mut self,
        before: &[Declaration],
        procedure: &parsed::Procedure,
        names: &IndexSet<&[u8]>,
    ) -> Result<Procedure, SyntaxFault>
        requires { IsBare (view_of self.old.scope) }
        ensures fresh { OnOk result (index_of (names_of self.old.scope) procedure.now.name ≡ None) }
        ensures named { IfOk result (IsProcedure (spellings names.now.keys) before.now (with_procedure (names_of self.old.scope) procedure.now.name
            (length before.now)) procedure.now) }
        ensures names { OnOk result (names_of self.new.scope ≡ with_procedure (names_of self.old.scope) procedure.now.name (length before.now)) }
        ensures scope { OnOk result (IsBare (view_of self.new.scope)) }
        ensures procedure { IfOk result (λ p. IsWord p.name.items → IsInOrder p) }
    {
        self.scope.declare_procedure(procedure.name, before.len())?;
        let mark = self.scope.mark();
        self.declare_arguments(&procedure.arguments)?;
        let arity = self.scope.values;
        let body = self.body(before, procedure)?;
        self.scope.return_to(mark);
        let name = match names.get_index(procedure.name.symbol.0) {
            Some(name) => Vec::from_slice(self.alloc, *name)?,
            None => Vec::new(self.alloc),
        };
        Ok(Procedure {
            name,
            offset: procedure.name.offset,
            arity,
            body,
        })
    }

    fn program(
        &mut self,
        declarations: &[Declaration],
        names: &IndexSet<&[u8]>,
    ) -> Result<Program, SyntaxFault>
        requires { IsBare (view_of self.old.scope) }
        ensures named { IfOk result (λ p. AreDeclared (spellings names.now.keys) [] (names_of self.old.scope) declarations.now p.procedures.items) }
        ensures procedures { IfOk result (λ p. All (λ (q : CoreProcedure). IsWord q.name.items → IsInOrder q) p.procedures.items) }
    {
        let mut procedures = Vec::new(self.alloc);
        for (index, declaration) in declarations.iter().enumerate() {
            let before = &declarations[..index];
            match declaration {
                Declaration::Field { name, number } => {
                    self.declare_field(*name, number, index)?;
                }
                Declaration::Constant { name, value } => {
                    self.scope.check_new(*name)?;
                    let number = self.scope.constant(value)?;
                    self.scope.declare_constant(*name, number, index);
                }
                Declaration::Procedure(procedure) => {
                    procedures.push(self.procedure(before, procedure, names)?)?;
                }
                Declaration::Part(part) => self.scope.declare_procedure(part.name, index)?,
            }
        }
        Ok(Program { procedures })
    }
}

/// The procedures of a text, or its first fault: faults of tokens anywhere in the text come first, then those of grammar, then
/// those of the rules.
pub fn read(alloc: Global, text: &[u8]) -> Result<Program, SyntaxFault>
    // Its procedures are those of the text.
    ensures named { IfOk result (λ p. IsProgram text.now p.procedures.items) }
    // They are in order.
    ensures procedures { IfOk result (λ p. All IsInOrder p.procedures.items) }
{
    let Syntax {
        declarations,
        names,
    } = parse(alloc, text)?;
    let scope = Scope::new(alloc, names.len())?;
    let mut lowering = Lowering {
        alloc,
        scope,
        part_size: MAX_PART_SIZE,
        part_depth: 0,
        level: 0,
        work: MAX_WORK,
    };
    lowering.program(&declarations, &names)
}
