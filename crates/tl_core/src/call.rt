// What a core keeps of a call.

ghost use Rattle.std.specs.Prelude.{◌≡◌, length, option_copied};
ghost use Rattle.std.specs.Arc.{arc_value};
ghost use Rattle.tl_core.specs.Begun.{Begins};
ghost use Rattle.tl_core.specs.Stored.{slot_of, reply_in};

use arrayvec::ArrayVec;
use std::sync::Arc;
use tl_instr::MAX_ARGS;
use tl_machine::{Reply, Turn, copied};
use tl_tree::Shape;
use tl_verify::Proc;

/// A call as the core keeps it for ever. Callers see it through the core's readers.
#[derive(Debug, Drop)]
pub struct Call {
    // The number of its procedure.
    pub(crate) procedure: u32,
    pub(crate) args: ArrayVec<i64, MAX_ARGS>,
    pub(crate) progress: Progress,
}

/// How far a call is.
#[derive(Debug, Drop)]
pub enum Progress {
    /// The call's turn is in this slot.
    Open { slot: usize },
    /// The call gave this reply, after `steps` instructions. Its turn is gone.
    Done { reply: Reply, steps: u32 },
}

/// What a core keeps of a call only while the call is open. It is stored in a slot.
#[derive(Debug, Drop)]
pub struct OpenCall {
    // The call's number.
    pub(crate) call: u32,
    // How many places of the history are reserved for the call. The number is stored next to what each step of the turn
    // uses.
    pub(crate) places: usize,
    pub(crate) turn: Turn,
}

impl Call {
    // The slot of an open call.
    pub(crate) fn slot(&self) -> Option<usize>
        ensures { result ≡ slot_of self.now.progress }
    {
        match self.progress {
            Progress::Open { slot } => Some(slot),
            Progress::Done { .. } => None,
        }
    }

    // The reply of a done call.
    pub(crate) fn reply(&self) -> Option<&Reply>
        ensures { option_copied result ≡ reply_in self.now.progress }
    {
        match &self.progress {
            Progress::Open { .. } => None,
            Progress::Done { reply, .. } => Some(reply),
        }
    }
}

// The arguments as a core keeps them.
pub(crate) fn kept(procedure: &Proc, args: &[i64]) -> ArrayVec<i64, MAX_ARGS>
    requires { length args.now ≡ procedure.now.arity }
    ensures { result.items ≡ args.now }
{
    // The code was accepted, so it takes at most eight arguments.
    let _fact = procedure.code().arity();
    copied(args)
}

// The turn of a call at its start. It is built where it will be kept: a turn is large, and each move would copy it.
#[inline(always)]
pub(crate) fn begin(procedure: Arc<Proc>, shape: Arc<Shape>, args: &[i64]) -> Turn
    requires { length args.now ≡ (arc_value procedure).arity }
    ensures { Begins (arc_value procedure) (arc_value shape) args.now args.now result }
{
    // The code was accepted.
    let _fact = procedure.code();
    let turn = Turn::at_start(procedure, shape, args);
    let _fact = turn.call();
    turn
}
