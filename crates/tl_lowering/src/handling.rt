// Statements with the handlers of their failures, with registers in place of names.

ghost use Rattle.std.specs.Prelude.{◌≡◌, ◌+◌, Some, IfOk, OnOk};
ghost use Rattle.tl_lowering.specs.Drafts.{IsTry, IsHeard, IsHandled};
ghost use Rattle.tl_lowering.specs.Entering.{before_of, IsEntering};
ghost use Rattle.tl_lowering.specs.Failing.{reading};
ghost use Rattle.tl_lowering.specs.Names.{names_of, IsNew, HasValue, with_unnamed};
ghost use Rattle.tl_lowering.specs.Reading.{IsBlock};
ghost use Rattle.tl_lowering.specs.Scopes.{view_of, IsAt, IsLowered};

use crate::lowering::{Lowered, Lowering};
use crate::paths::Held;
use crate::program::Expression;
use crate::readers::Readers;
use tl_instr::ValueRegister;
use tl_syntax::SyntaxFault;
use tl_syntax::parsed::{self, Declaration, Name};

impl Lowering {
    /// A block, and the handler of its failure, in which the name has the failure's code.
    #[cycle(lowering)]
    pub fn tried(
        &mut self,
        before: &[Declaration],
        readers: &Readers,
        why: &Option<Name>,
        body: &[parsed::Statement],
        handler: &[parsed::Statement],
        held: Held,
    ) -> Result<Lowered, SyntaxFault>
        requires { IsAt (view_of self.old.scope) held }
        ensures scope { OnOk result (view_of self.new.scope ≡ view_of self.old.scope) }
        ensures named { IfOk result (λ l. IsTry before.now readers.now (names_of self.old.scope) why.now body.now handler.now l.0) }
        ensures lowered { IfOk result (λ l. IsLowered (view_of self.old.scope) held l.0 l.1) }
        ensures entering { IfOk result (λ l. IsEntering (before_of held) l.0 l.1) }
    {
        let Some(why) = why else {
            let unread = readers.unread();
            let lowered = self.block(before, &unread, body, held)?;
            return self.handled(before, readers, lowered, handler, held);
        };
        let (register, lowered) = self.told(before, readers, *why, body, held)?;
        self.heard(before, readers, (*why, register), lowered, handler, held)
    }

    /// A statement, and the handler of its failure. `held` held when the statement began.
    #[cycle(lowering)]
    pub fn handled(
        &mut self,
        before: &[Declaration],
        readers: &Readers,
        lowered: Lowered,
        handler: &[parsed::Statement],
        held: Held,
    ) -> Result<Lowered, SyntaxFault>
        requires at { IsAt (view_of self.old.scope) held }
        requires lowered { IsLowered (view_of self.old.scope) held lowered.0 lowered.1 }
        requires entering { IsEntering (before_of held) lowered.0 lowered.1 }
        ensures scope { OnOk result (view_of self.new.scope ≡ view_of self.old.scope) }
        ensures named { IfOk result (λ l. IsHandled before.now readers.now (names_of self.old.scope) lowered.0 handler.now l.0) }
        ensures lowered { IfOk result (λ l. IsLowered (view_of self.old.scope) held l.0 l.1) }
        ensures entering { IfOk result (λ l. IsEntering (before_of held) l.0 l.1) }
    {
        let (statement, flow) = lowered;
        let (handler, other) = self.block(before, readers, handler, flow.handled(held))?;
        let attempt = self.attempt(statement, handler)?;
        Ok((attempt, flow.handled_by(other)))
    }

    /// A block whose failure leaves its code in a register, which is that of the next value.
    #[cycle(lowering)]
    pub fn told(
        &mut self,
        before: &[Declaration],
        readers: &Readers,
        why: Name,
        body: &[parsed::Statement],
        held: Held,
    ) -> Result<(ValueRegister, Lowered), SyntaxFault>
        requires { IsAt (view_of self.old.scope) held }
        ensures scope { OnOk result (view_of self.new.scope ≡ view_of self.old.scope) }
        ensures fresh { OnOk result (IsNew (names_of self.old.scope) why) }
        ensures room { OnOk result (HasValue (names_of self.old.scope)) }
        ensures register { IfOk result (λ t. t.0 ≡ self.old.scope.values) }
        ensures named { IfOk result (λ t. IsBlock before.now (reading readers.now self.old.scope.values)
            (with_unnamed (names_of self.old.scope)) body.now t.1.0) }
        ensures lowered { IfOk result (λ t. IsLowered (record (view_of self.old.scope) { values = self.old.scope.values + 1 }) held t.1.0 t.1.1) }
        ensures entering { IfOk result (λ t. IsEntering (before_of held) t.1.0 t.1.1) }
    {
        self.scope.check_new(why)?;
        let register = self.scope.next_value(why.offset)?;
        let mark = self.scope.mark();
        self.scope.add_value();
        let reading = readers.reading(register);
        let lowered = self.block(before, &reading, body, held)?;
        self.scope.return_to(mark);
        Ok((register, lowered))
    }

    /// A statement whose failure leaves its code in the register, and the handler of the failure, in which the name has the code.
    #[cycle(lowering)]
    pub fn heard(
        &mut self,
        before: &[Declaration],
        readers: &Readers,
        why: (Name, ValueRegister),
        lowered: Lowered,
        handler: &[parsed::Statement],
        held: Held,
    ) -> Result<Lowered, SyntaxFault>
        requires at { IsAt (view_of self.old.scope) held }
        requires fresh { IsNew (names_of self.old.scope) why.0 }
        requires register { why.1 ≡ self.old.scope.values }
        requires lowered { IsLowered (record (view_of self.old.scope) { values = self.old.scope.values + 1 }) held lowered.0 lowered.1 }
        requires entering { IsEntering (before_of held) lowered.0 lowered.1 }
        ensures scope { OnOk result (view_of self.new.scope ≡ view_of self.old.scope) }
        ensures named { IfOk result (λ l. IsHeard before.now readers.now (names_of self.old.scope) why.0 lowered.0 handler.now l.0) }
        ensures lowered { IfOk result (λ l. IsLowered (view_of self.old.scope) held l.0 l.1) }
        ensures entering { IfOk result (λ l. IsEntering (before_of held) l.0 l.1) }
    {
        let (name, register) = why;
        let mark = self.scope.mark();
        self.scope.declare_value(name, register)?;
        let tried = self.handled(before, readers, lowered, handler, held)?;
        self.scope.return_to(mark);
        self.let_in(register, Expression::Constant(0), tried, held)
    }
}
