// Why a core refuses.

ghost use Rattle.std.specs.Prelude.{◌≡◌};
ghost use Rattle.tl_core.specs.declared.fault.CoreFault.TheVariants.{Memory};

use arrayvec::ArrayVec;
use std::alloc::AllocError;
use thiserror::Error;

/// Why a core refuses. A refusal changes nothing.
#[derive(Clone, Copy, Debug, PartialEq, Eq, Error)]
pub enum CoreFault {
    /// 501: there are more or fewer arguments than the procedure takes.
    #[error("another number of arguments than the procedure takes")]
    WrongArgs,
    /// 601: no procedure has that name.
    #[error("no procedure of that name")]
    NoProcedure,
    /// 602: no call of that number was admitted.
    #[error("no call of that number")]
    NoCall,
    /// 603: 4,096 calls were admitted.
    #[error("too many calls")]
    TooManyCalls,
    /// 604: 64 calls are open.
    #[error("too many calls are open")]
    TooManyOpen,
    /// 605: the history has no room for all that the call may do.
    #[error("the history has no room for the call")]
    HistoryFull,
    /// 606 and the call: the call isn't done, and it is the least such one.
    #[error("call {call} isn't done")]
    NotAtRest { call: u32 },
    /// 607: the segment doesn't begin at the turn that the call is at.
    #[error("not from the turn that the call is at")]
    NotFrom,
    /// 690: memory was refused.
    #[error("out of memory")]
    Memory,
}

impl CoreFault {
    ghost use Rattle.tl_core.specs.Faults.{numbers_of};

    /// The fault's number, followed by the call if the fault names one.
    pub fn numbers(&self) -> ArrayVec<u64, 3>
        ensures { result.items ≡ numbers_of self.now }
    {
        let mut numbers = ArrayVec::new();
        numbers.push(match self {
            CoreFault::WrongArgs => 501,
            CoreFault::NoProcedure => 601,
            CoreFault::NoCall => 602,
            CoreFault::TooManyCalls => 603,
            CoreFault::TooManyOpen => 604,
            CoreFault::HistoryFull => 605,
            CoreFault::NotAtRest { .. } => 606,
            CoreFault::NotFrom => 607,
            CoreFault::Memory => 690,
        });
        if let CoreFault::NotAtRest { call } = self {
            numbers.push(u64::from(*call));
        }
        numbers
    }
}

impl From<AllocError> for CoreFault {
    ghost from_gives = { λ _ e. e ≡ Memory };

    fn from(_refused: AllocError) -> CoreFault {
        CoreFault::Memory
    }
}
