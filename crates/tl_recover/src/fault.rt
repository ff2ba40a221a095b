// Why a core isn't driven again.

ghost use Rattle.std.specs.Prelude.{◌≡◌};

use arrayvec::ArrayVec;
use thiserror::Error;
use tl_core::CoreFault;

/// Why a core isn't driven again. The turns are counted from 0.
#[derive(Clone, Copy, Debug, PartialEq, Eq, Error)]
pub enum RecoverFault {
    /// 1004 and the turn: it is that of a call whose request isn't there.
    #[error("turn {turn} is that of a call whose request isn't there")]
    NoRequest { turn: u32 },
    /// 1005 and the turn: the call is over, is about to lock a node that another call holds, or wasn't admitted.
    #[error("the call can't take turn {turn}")]
    OutOfTurn { turn: u32 },
    /// 501, 601 to 605, 690: the core refuses the call.
    #[error("{0}")]
    Core(CoreFault),
}

impl RecoverFault {
    ghost use Rattle.tl_recover.specs.Faults.{numbers_of};

    /// The fault's number, followed by the turn if the fault names one.
    pub fn numbers(&self) -> ArrayVec<u64, 3>
        ensures { result.items ≡ numbers_of self.now }
    {
        let (number, turn) = match self {
            RecoverFault::NoRequest { turn } => (1004, *turn),
            RecoverFault::OutOfTurn { turn } => (1005, *turn),
            RecoverFault::Core(fault) => return fault.numbers(),
        };
        let mut numbers = ArrayVec::new();
        numbers.push(number);
        numbers.push(u64::from(turn));
        numbers
    }
}
