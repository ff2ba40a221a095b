// What a call does by itself.

ghost use Rattle.std.specs.Prelude.{◌≡◌};
ghost use Rattle.std.specs.Arc.{arc_value};
ghost use Rattle.tl_machine.specs.Turns.{IsSegment, HasRun, end_of};

use crate::call::CallState;
use crate::lent::LentTurn;
use crate::turn::Turn;
use crate::want::Stop;
use std::marker::Model;
use std::sync::Arc;
use tl_tree::Shape;

/// The local instructions that a call did in a row: the turn before them, the state after them, and where the call then
/// stops. By the type, local instructions lead from the turn's state to the other. Only `local` makes one.
#[derive(Debug, Drop)]
pub struct Segment {
    from: Turn,
    to: CallState,
    stop: Stop,
}

impl Model for Segment {
    ghost use Rattle.tl_machine.specs.Turns.{SegmentValue, IsSegment};

    ghost Value = { SegmentValue };

    ghost view = { λ s. record { from = s.from; to = s.to; stop = s.stop } };

    ghost invariant = { λ s. IsSegment (record { from = s.from; to = s.to; stop = s.stop }) };
}

impl Segment {
    /// The turn before the first of the instructions.
    pub fn from(&self) -> &Turn
        ensures turn { result.now ≡ self.now.from }
        ensures segment { IsSegment self.now }
    {
        &self.from
    }

    /// The state after the last of them.
    pub fn to(&self) -> &CallState
        ensures state { result.now ≡ self.now.to }
        ensures segment { IsSegment self.now }
    {
        &self.to
    }

    /// Where the call stops after the last of them.
    pub fn stop(&self) -> Stop
        ensures stop { result ≡ self.now.stop }
        ensures segment { IsSegment self.now }
    {
        self.stop
    }

    /// The turn before the first of them, the state after the last, and where the call then stops.
    pub fn into_parts(self) -> (Turn, CallState, Stop)
        ensures parts { record { from = result.0; to = result.1; stop = result.2 } ≡ self }
        ensures segment { IsSegment self }
    {
        (self.from, self.to, self.stop)
    }

    /// The call as lent to a worker that has done them, and the shape.
    pub fn into_lent(self) -> (LentTurn, Arc<Shape>)
        ensures lent { result.0 ≡ record { code = self.from.code; from = self.from.call; to = self.to } }
        ensures shape { arc_value result.1 ≡ self.from.parents }
        ensures run { HasRun result.0 }
        ensures segment { IsSegment self }
    {
        let (procedure, shape, from) = self.from.into_parts();
        let lent = LentTurn::new(procedure, &shape, &from, &self.to);
        (lent, shape)
    }

    /// The turn after the last of them, with the same procedure and shape. Takes no memory.
    pub fn into_turn(self) -> Turn
        ensures turn { result ≡ end_of self }
        ensures segment { IsSegment self }
    {
        let mut turn = self.from;
        turn.put_at(&self.to);
        turn
    }
}

/// Does a call's local instructions from where it stands, up to the first that isn't local. Takes no memory.
pub fn local(turn: Turn) -> Segment
    ensures { result.from ≡ turn }
{
    let mut to = *turn.call();
    let pending = to.run_local(turn.procedure());
    let stop = to.stop_at(turn.procedure(), turn.shape(), pending);
    Segment {
        from: turn,
        to,
        stop,
    }
}
