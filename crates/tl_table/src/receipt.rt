// The result of a call.

ghost use Rattle.std.specs.Prelude.{◌≡◌, ◌↔◌, IsTrue};

use arrayvec::ArrayVec;
use tl_budget::MAX_EMITS;
use tl_instr::MAX_ARGS;
use tl_machine::{Turn, copied};

/// The result of a call, as plain data.
#[derive(Debug, Drop, PartialEq, Eq)]
pub struct Receipt {
    /// The number of the session that asked for the call.
    pub session: u32,
    /// The number of the epoch.
    pub epoch: u32,
    /// The number of the call in its epoch.
    pub call: u32,
    /// The number of its procedure.
    pub procedure: u32,
    /// The call's arguments.
    pub args: ArrayVec<i64, MAX_ARGS>,
    /// The call's reply: the values that it emitted, in order.
    pub reply: ArrayVec<i64, MAX_EMITS>,
}

impl Receipt {
    /// Whether the other is the same receipt.
    pub fn is(&self, other: &Receipt) -> bool
        ensures { IsTrue result ↔ (self.now ≡ other.now) }
    {
        self == other
    }

    /// A copy of the receipt. Takes no memory.
    pub fn copy(&self) -> Receipt
        ensures { result ≡ self.now }
    {
        Receipt {
            session: self.session,
            epoch: self.epoch,
            call: self.call,
            procedure: self.procedure,
            args: copied(self.args.as_slice()),
            reply: copied(self.reply.as_slice()),
        }
    }
}

/// The result of a submitted segment.
#[derive(Debug, Drop)]
pub enum Sent {
    /// The segment's instructions and the lock or free after them are done: this is the call's turn now.
    Went(Turn),
    /// The call is about to lock a node that another call holds. Nothing was done.
    Blocked,
    /// The segment's instructions are done, and the call has ended.
    Finished(Receipt),
}
