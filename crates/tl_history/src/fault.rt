// Why no places were reserved.

ghost use Rattle.std.specs.Prelude.{◌≡◌};
ghost use Rattle.tl_history.specs.declared.fault.HistoryFault.TheVariants.{Memory};

use arrayvec::ArrayVec;
use std::alloc::AllocError;
use thiserror::Error;

/// Why no places were reserved.
#[derive(Clone, Copy, Debug, PartialEq, Eq, Error)]
pub enum HistoryFault {
    /// 605: there is no room for that many more events.
    #[error("the history has no room for so many more events")]
    HistoryFull,
    /// 690: memory was refused.
    #[error("out of memory")]
    Memory,
}

impl HistoryFault {
    ghost use Rattle.tl_history.specs.Faults.{numbers_of};

    /// The fault's number.
    pub fn numbers(&self) -> ArrayVec<u64, 1>
        ensures { result.items ≡ numbers_of self.now }
    {
        let mut numbers = ArrayVec::new();
        numbers.push(match self {
            HistoryFault::HistoryFull => 605,
            HistoryFault::Memory => 690,
        });
        numbers
    }
}

impl From<AllocError> for HistoryFault {
    ghost from_gives = { λ _ e. e ≡ Memory };

    fn from(_refused: AllocError) -> HistoryFault {
        HistoryFault::Memory
    }
}
