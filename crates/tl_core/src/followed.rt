// The results of a turn of a call.

use tl_machine::{Reply, Stop, Turn};

/// The result of a segment that a call followed.
#[derive(Debug, Drop)]
pub enum Followed {
    /// The segment's instructions and the lock or free after them are done: this is the call's turn now.
    Went(Turn),
    /// The call is about to lock `node`, which `holder` holds. Nothing was done.
    Blocked { node: u32, holder: u32 },
    /// The segment's instructions are done, and the call has ended with this reply.
    Finished(Reply),
}

/// The result of a turn: of a call's local instructions, which were done elsewhere, and of the stop after them.
#[derive(Clone, Copy, Debug, PartialEq, Eq)]
pub enum TurnOutcome {
    /// The instructions are done, and so is the lock or free at which the call stopped.
    Advanced { stop: Stop },
    /// The call is about to lock `node`, which `holder` holds. Nothing was done.
    Blocked { node: u32, holder: u32 },
    /// The instructions and the return are done: the call has ended.
    Finished,
}
