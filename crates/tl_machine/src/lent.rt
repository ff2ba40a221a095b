// A call that goes on away from its tree.

ghost use Rattle.std.specs.Prelude.{◌≡◌, ◌↔◌, ℕ, IsTrue};
ghost use Rattle.std.specs.Arc.{arc_value};
ghost use Rattle.tl_tree.specs.Records.{Record as RecordValue};
ghost use Rattle.tl_tree_locking.specs.declared.action.Action.TheVariants as did;
ghost use Rattle.tl_machine.specs.BetweenSteps.{IsAtStop};
ghost use Rattle.tl_machine.specs.Stopped.{after_action};
ghost use Rattle.tl_machine.specs.Turns.{IsTurn, IsFrom, HasRun, Stops};
ghost use Rattle.tl_machine.specs.declared.want.Stop.TheVariants as stop;

use crate::call::CallState;
use crate::turn::Turn;
use crate::want::{Pending, Stop};
use std::marker::Model;
use std::sync::Arc;
use tl_tree::Shape;
use tl_tree_locking::Action;
use tl_verify::Proc;

/// A call as a worker has it, who does its local instructions: the procedure, the state from which the worker does them,
/// and the state to which they led. It knows no shape, since local instructions ask for none: they do the same on every
/// shape on which the state is a call's.
#[derive(Debug, Drop)]
pub struct LentTurn {
    procedure: Arc<Proc>,
    from: CallState,
    to: CallState,
    // Where the call stops at `to`, if its local instructions were done here.
    pending: Option<Pending>,
}

impl Model for LentTurn {
    ghost use Rattle.std.specs.Arc.{arc_value};
    ghost use Rattle.std.specs.Prelude.{IfSome};
    ghost use Rattle.tl_machine.specs.BetweenSteps.{HaltsAt};
    ghost use Rattle.tl_machine.specs.Turns.{LentValue, AreStates};

    ghost Value = { LentValue };

    ghost view = { λ l. record { code = arc_value l.procedure; from = l.from; to = l.to } };

    ghost invariant = { λ l. AreStates (record { code = arc_value l.procedure; from = l.from; to = l.to }) × IfSome l.pending (HaltsAt (arc_value l.procedure).instrs l.to) };
}

impl LentTurn {
    // A call of the procedure. Local instructions led from one state to the other.
    pub(crate) fn new(
        procedure: Arc<Proc>,
        shape: &Shape,
        from: &CallState,
        to: &CallState,
    ) -> LentTurn
        requires from { IsTurn (arc_value procedure).instrs shape.now from.now }
        requires to { IsTurn (arc_value procedure).instrs shape.now to.now }
        ensures { result ≡ record { code = arc_value procedure; from = from.now; to = to.now } }
    {
        LentTurn {
            procedure,
            from: *from,
            to: *to,
            pending: None,
        }
    }

    /// Does the local instructions from the state to which the last ones led. Takes no memory.
    pub fn run_local(&mut self)
        ensures code { self.new.code ≡ self.old.code }
        ensures from { self.new.from ≡ self.old.to }
        ensures run { HasRun self.new }
    {
        self.from = self.to;
        self.pending = Some(self.to.run_local(&self.procedure));
    }

    /// Whether the instructions started from the turn's state, in the same code. The shape isn't compared.
    pub fn is_from(&self, turn: &Turn) -> bool
        ensures same { IsTrue result ↔ IsFrom self.now turn.now }
        ensures turn { IsTurn turn.now.code.instrs turn.now.parents turn.now.call }
    {
        turn.call().is(&self.from) && turn.procedure().is(&self.procedure)
    }

    /// Where the call stops after its local instructions, on trees of the shape.
    pub fn stop(&self, shape: &Shape) -> Stop
        requires turn { IsTurn self.now.code.instrs shape.now self.now.to }
        requires stop { IsAtStop self.now.code.instrs self.now.to }
        ensures { Stops (record { code = self.now.code; parents = shape.now; call = self.now.to }) result }
    {
        match self.pending {
            Some(pending) => self.to.stop_at(&self.procedure, shape, pending),
            None => self.to.stop(&self.procedure, shape),
        }
    }

    /// The state after the local instructions.
    pub fn to(&self) -> &CallState
        ensures { result.now ≡ self.now.to }
    {
        &self.to
    }

    /// Does the lock or the free of this action, at which the call stops on trees of the shape; any other action leaves the
    /// state as it is. So a call that did the action elsewhere need not be copied back. Takes no memory.
    #[inline(always)]
    pub fn repeat(&mut self, shape: &Shape, action: &Action)
        requires from { IsTurn self.old.code.instrs shape.now self.old.from }
        requires to { IsTurn self.old.code.instrs shape.now self.old.to }
        requires lock { (x : ℕ) (found : RecordValue) → action.now ≡ did.Lock x found → Stops (record { code = self.old.code; parents = shape.now; call = self.old.to }) (stop.Lock x) }
        requires free { (x : ℕ) (left : RecordValue) → action.now ≡ did.Free x left → Stops (record { code = self.old.code; parents = shape.now; call = self.old.to }) (stop.Free x) }
        ensures turn { IsTurn self.old.code.instrs shape.now self.new.to }
        ensures exact { self.new ≡ record self.old { to = after_action self.old.code.instrs shape.now self.old.to action.now } }
    {
        self.pending = None;
        match *action {
            Action::Lock { node, found } => self.to.lock(&self.procedure, shape, node, found),
            Action::Free { .. } => {
                let _left = self.to.free(&self.procedure, shape);
            }
            _ => {}
        }
    }

    /// The turn to which the local instructions led, on trees of the shape.
    pub fn into_turn(self, shape: Arc<Shape>) -> Turn
        requires { IsTurn self.code.instrs (arc_value shape) self.to }
        ensures { result ≡ record { code = self.code; parents = arc_value shape; call = self.to } }
    {
        Turn::at(self.procedure, shape, &self.to)
    }
}
