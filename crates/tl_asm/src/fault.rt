//! Why a text doesn't stand for a code.

ghost use Rattle.std.specs.Prelude.{◌≡◌};
ghost use Rattle.tl_asm.specs.declared.fault.AsmFault.TheVariants.{Memory};

use arrayvec::ArrayVec;
use std::alloc::{AllocError, AllocFailed};
use thiserror::Error;

/// What is wrong with a text. Lines are numbered from 1.
#[derive(Clone, Copy, Debug, PartialEq, Eq, Error)]
pub enum AsmFault {
    /// 251: the line has none of the forms of a procedure's lines, or the text ends too early.
    #[error("line {0}: not understood")]
    BadLine(u64),
    /// 252: no line defines the label that this line uses.
    #[error("line {0}: no such label")]
    NoLabel(u64),
    /// 253: an earlier line defines this line's label.
    #[error("line {0}: the label is defined before")]
    LabelTwice(u64),
    /// 254: there are more than 1,024 instructions.
    #[error("the code has more than 1,024 instructions")]
    TooLong,
    /// 290: memory was refused.
    #[error("out of memory")]
    Memory,
}

impl AsmFault {
    ghost use Rattle.tl_asm.specs.Faults.{numbers_of};

    /// The fault's number, then the line if it has one.
    pub fn numbers(&self) -> ArrayVec<u64, 3>
        ensures { result.items ≡ numbers_of self.now }
    {
        let mut numbers = ArrayVec::new();
        match *self {
            AsmFault::BadLine(line) => {
                numbers.push(251);
                numbers.push(line);
            }
            AsmFault::NoLabel(line) => {
                numbers.push(252);
                numbers.push(line);
            }
            AsmFault::LabelTwice(line) => {
                numbers.push(253);
                numbers.push(line);
            }
            AsmFault::TooLong => numbers.push(254),
            AsmFault::Memory => numbers.push(290),
        }
        numbers
    }
}

impl From<AllocError> for AsmFault {
    ghost from_gives = { λ _ e. e ≡ Memory };

    fn from(_error: AllocError) -> AsmFault {
        AsmFault::Memory
    }
}

impl<T: Drop> From<AllocFailed<T>> for AsmFault {
    ghost from_gives = { λ _ e. e ≡ Memory };

    fn from(_error: AllocFailed<T>) -> AsmFault {
        AsmFault::Memory
    }
}
