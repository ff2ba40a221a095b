// Why a table refuses.

ghost use Rattle.std.specs.Prelude.{◌≡◌};

use arrayvec::ArrayVec;
use thiserror::Error;
use tl_core::CoreFault;

/// Why a table refuses. A refusal changes nothing.
#[derive(Clone, Copy, Debug, PartialEq, Eq, Error)]
pub enum TableFault {
    /// 501, 601 to 606, 690: the core refuses.
    #[error("{0}")]
    Core(CoreFault),
    /// 801: the segment doesn't begin where its call is, or the call is done.
    #[error("the call isn't where the segment begins")]
    Stale,
    /// 803: no session of that number was given.
    #[error("no session of that number")]
    NoSession,
    /// 808: the last of 256 epochs is the current one.
    #[error("too many epochs")]
    TooManyEpochs,
    /// 821: 65,535 sessions were given.
    #[error("too many sessions")]
    TooManySessions,
    /// 890: memory was refused.
    #[error("out of memory")]
    Memory,
}

impl TableFault {
    ghost use Rattle.tl_table.specs.Faults.{numbers_of};

    /// The fault's number.
    pub fn numbers(&self) -> ArrayVec<u64, 3>
        ensures { result.items ≡ numbers_of self.now }
    {
        let mut numbers = ArrayVec::new();
        match self {
            TableFault::Core(fault) => return fault.numbers(),
            TableFault::Stale => numbers.push(801),
            TableFault::NoSession => numbers.push(803),
            TableFault::TooManyEpochs => numbers.push(808),
            TableFault::TooManySessions => numbers.push(821),
            TableFault::Memory => numbers.push(890),
        }
        numbers
    }
}
