// An `if`, with registers in place of names.

ghost use Rattle.std.specs.Prelude.{◌≡◌, IfOk, OnOk};
ghost use Rattle.tl_lowering.specs.Choosing.{IsEntered, names_behind, IsChosen, IsChoice};
ghost use Rattle.tl_lowering.specs.Entering.{before_of, IsEntering, IsEnteringEntrance, entrance_entered};
ghost use Rattle.tl_lowering.specs.Names.{names_of};
ghost use Rattle.tl_lowering.specs.Reading.{IsBlock};
ghost use Rattle.tl_lowering.specs.Lowering.{IsEntrance, IsInside, entered, nodes_in};
ghost use Rattle.tl_lowering.specs.Paths.{nodes_of};
ghost use Rattle.tl_lowering.specs.Scopes.{View, view_of, IsAt, IsLowered, Extends};

use crate::lowering::{Entrance, Lowered, Lowering};
use crate::naming::asked;
use crate::paths::Held;
use crate::program::Statement;
use crate::readers::Readers;
use tl_syntax::SyntaxFault;
use tl_syntax::parsed::{self, Declaration, Question};

impl Lowering {
    fn entrance(&self, question: &Question, held: Held) -> Result<Entrance, SyntaxFault>
        requires { IsAt (view_of self.now.scope) held }
        ensures named { IfOk result (IsEntered (names_of self.now.scope) question.now) }
        ensures entrance { IfOk result (IsEntrance (view_of self.now.scope) held) }
        ensures entering { IfOk result (IsEnteringEntrance (before_of held)) }
    {
        match question {
            Question::Condition(condition) => {
                let condition = self.scope.condition(self.alloc, condition, held)?;
                Ok(Entrance::Condition(condition))
            }
            Question::Lock(place) => Ok(Entrance::Lock(self.place(place, held)?)),
        }
    }

    // Enters the first block of an `if` and declares its names. The result holds in that block.
    fn enter(&mut self, entrance: &Entrance, held: Held) -> Result<Held, SyntaxFault>
        requires at { IsAt (view_of self.old.scope) held }
        requires entrance { IsEntrance (view_of self.old.scope) held entrance.now }
        ensures named { OnOk result (names_of self.new.scope ≡ names_behind (names_of self.old.scope) entrance.now) }
        ensures at { IfOk result (λ inside. IsAt (view_of self.new.scope) inside) }
        ensures held { IfOk result (λ inside. nodes_of inside ≡ entered entrance.now (nodes_of held)) }
        ensures entered { IfOk result (λ inside. IsEnteringEntrance (before_of held) entrance.now
            → before_of inside ≡ entrance_entered entrance.now (before_of held)) }
        ensures values { OnOk result (self.new.scope.values ≡ self.old.scope.values) }
        ensures nodes { OnOk result (self.new.scope.nodes ≡ nodes_in entrance.now self.old.scope.nodes) }
        ensures loops { OnOk result (self.new.scope.loops ≡ self.old.scope.loops) }
        ensures extends { OnOk result ((outer : View) → Extends outer (view_of self.old.scope) → Extends outer (view_of self.new.scope)) }
    {
        match entrance {
            Entrance::Condition(_) => Ok(held),
            Entrance::Lock(locking) => {
                self.declare(locking)?;
                Ok(locking.held)
            }
        }
    }

    /// The choice between the two blocks.
    pub fn chosen(
        &self,
        entrance: Entrance,
        first: Lowered,
        second: Lowered,
        held: Held,
    ) -> Result<Lowered, SyntaxFault>
        requires at { IsAt (view_of self.now.scope) held }
        requires entrance { IsEntrance (view_of self.now.scope) held entrance }
        requires first { IsInside (view_of self.now.scope) held entrance first.0 first.1 }
        requires second { IsLowered (view_of self.now.scope) held second.0 second.1 }
        requires entering { IsEnteringEntrance (before_of held) entrance }
        requires first_entering { IsEntering (entrance_entered entrance (before_of held)) first.0 first.1 }
        requires second_entering { IsEntering (before_of held) second.0 second.1 }
        ensures named { IfOk result (λ l. IsChosen first.0 second.0 entrance l.0) }
        ensures lowered { IfOk result (λ l. IsLowered (view_of self.now.scope) held l.0 l.1) }
        ensures entering { IfOk result (λ l. IsEntering (before_of held) l.0 l.1) }
    {
        let (first, flow) = first;
        let (second, other) = second;
        let first = self.boxed(first)?;
        let second = self.boxed(second)?;
        match entrance {
            Entrance::Condition(condition) => {
                let flow = asked(&condition, held).or(flow).or(other);
                Ok((Statement::If(condition, first, second), flow))
            }
            Entrance::Lock(locking) => {
                let flow = flow.keeping(held.nodes).or(other);
                Ok((Statement::Lock(locking.place, first, second), flow))
            }
        }
    }

    // The first block of an `if`.
    #[cycle(lowering)]
    fn first_block(
        &mut self,
        before: &[Declaration],
        readers: &Readers,
        entrance: &Entrance,
        body: &[parsed::Statement],
        held: Held,
    ) -> Result<Lowered, SyntaxFault>
        requires at { IsAt (view_of self.old.scope) held }
        requires entrance { IsEntrance (view_of self.old.scope) held entrance.now }
        ensures scope { OnOk result (view_of self.new.scope ≡ view_of self.old.scope) }
        ensures named { IfOk result (λ l. IsBlock before.now readers.now
            (names_behind (names_of self.old.scope) entrance.now) body.now l.0) }
        ensures inside { IfOk result (λ l. IsInside (view_of self.old.scope) held entrance.now l.0 l.1) }
        ensures entering { IsEnteringEntrance (before_of held) entrance.now
            → IfOk result (λ l. IsEntering (entrance_entered entrance.now (before_of held)) l.0 l.1) }
    {
        let mark = self.scope.mark();
        let inside = self.enter(entrance, held)?;
        let first = self.block(before, readers, body, inside)?;
        self.scope.return_to(mark);
        Ok(first)
    }

    /// An `if`.
    #[cycle(lowering)]
    pub fn choice(
        &mut self,
        before: &[Declaration],
        readers: &Readers,
        question: &Question,
        body: &[parsed::Statement],
        otherwise: &[parsed::Statement],
        held: Held,
    ) -> Result<Lowered, SyntaxFault>
        requires { IsAt (view_of self.old.scope) held }
        ensures scope { OnOk result (view_of self.new.scope ≡ view_of self.old.scope) }
        ensures named { IfOk result (λ l. IsChoice before.now readers.now (names_of self.old.scope) question.now body.now otherwise.now l.0) }
        ensures lowered { IfOk result (λ l. IsLowered (view_of self.old.scope) held l.0 l.1) }
        ensures entering { IfOk result (λ l. IsEntering (before_of held) l.0 l.1) }
    {
        let entrance = self.entrance(question, held)?;
        let first = self.first_block(before, readers, &entrance, body, held)?;
        let second = self.block(before, readers, otherwise, held)?;
        self.chosen(entrance, first, second, held)
    }
}
