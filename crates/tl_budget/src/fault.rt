// Why the loops or the costs of a code aren't accepted.

ghost use Rattle.std.specs.Prelude.{◌≡◌};
ghost use Rattle.tl_budget.specs.declared.fault.NestFault.TheVariants.{Memory};
ghost use Rattle.tl_budget.specs.Faults.{numbers_of};

use arrayvec::ArrayVec;
use std::alloc::AllocFailed;
use thiserror::Error;

/// Why the loops or the costs of a code aren't accepted. Positions are counted from 0.
#[derive(Clone, Copy, Debug, PartialEq, Eq, Error)]
pub enum NestFault {
    /// 301: the loop that opens here has no end.
    #[error("instruction {0}: the loop has no end")]
    LoopOpen(u16),
    /// 302: an end without an open loop.
    #[error("instruction {0}: an end without a loop")]
    EndAlone(u16),
    /// 303: a loop opens inside four others.
    #[error("instruction {0}: more than four loops in one another")]
    TooDeep(u16),
    /// 304: a loop of no turns.
    #[error("instruction {0}: a loop of no turns")]
    ZeroCount(u16),
    /// 305: the code may do more than 1,000,000 instructions.
    #[error("more than 1,000,000 steps")]
    StepsOver,
    /// 306: the code may lock more than 4,096 nodes.
    #[error("more than 4,096 locks")]
    LocksOver,
    /// 307: the code may emit more than 32 values.
    #[error("more than 32 emitted values")]
    EmitsOver,
    /// 390: memory was refused.
    #[error("out of memory")]
    Memory,
}

impl<T: Drop> From<AllocFailed<T>> for NestFault {
    ghost from_gives = { λ _ e. e ≡ Memory };

    fn from(_error: AllocFailed<T>) -> NestFault {
        NestFault::Memory
    }
}

impl NestFault {
    /// The fault's number, then its position if it has one.
    pub fn numbers(&self) -> ArrayVec<u64, 3>
        ensures { result.items ≡ numbers_of self.now }
    {
        let (number, position) = match *self {
            NestFault::LoopOpen(position) => (301, Some(position)),
            NestFault::EndAlone(position) => (302, Some(position)),
            NestFault::TooDeep(position) => (303, Some(position)),
            NestFault::ZeroCount(position) => (304, Some(position)),
            NestFault::StepsOver => (305, None),
            NestFault::LocksOver => (306, None),
            NestFault::EmitsOver => (307, None),
            NestFault::Memory => (390, None),
        };
        let mut numbers = ArrayVec::new();
        numbers.push(number);
        if let Some(position) = position {
            numbers.push(u64::from(position));
        }
        numbers
    }
}
