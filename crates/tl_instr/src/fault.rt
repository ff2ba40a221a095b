//! Why bytes or instructions don't make a code.

ghost use Rattle.std.specs.Prelude.{◌≡◌};
ghost use Rattle.tl_instr.specs.declared.fault.CodeFault.TheVariants.{Memory};

use arrayvec::ArrayVec;
use std::alloc::{AllocError, AllocFailed};
use thiserror::Error;

/// What is wrong with a code, or with the bytes of its container.
#[derive(Clone, Copy, Debug, PartialEq, Eq, Error)]
pub enum CodeFault {
    /// 201: the bytes begin neither with `TLP1` nor with `TLP2`.
    #[error("the bytes begin neither with TLP1 nor with TLP2")]
    BadMagic,
    /// 202: the header is cut short, or the number of bytes differs from what the count says.
    #[error("the container's length is wrong")]
    BadLength,
    /// 203: the version has no such opcode, at this position.
    #[error("no such opcode at position {0}")]
    BadOpcode(u16),
    /// 204: an operand is out of its range in that version, or an unused one isn't 0, at this position.
    #[error("a bad operand at position {0}")]
    BadOperand(u16),
    /// 205: there are not 1 to 1,024 instructions.
    #[error("the code has no instruction, or more than 1,024")]
    BadCount,
    /// 206: the arity is above 8, or the byte after it isn't 0.
    #[error("the arity is more than 8, or the byte after it is not 0")]
    BadArity,
    /// 207: the code isn't of the first version.
    #[error("the code is of version 2 already")]
    NotVersion1,
    /// 290: memory was refused.
    #[error("out of memory")]
    Memory,
}

impl CodeFault {
    ghost use Rattle.tl_instr.specs.Faults.{numbers_of};

    /// The fault's number, then its position if it has one.
    pub fn numbers(&self) -> ArrayVec<u64, 3>
        ensures { result.items ≡ numbers_of self.now }
    {
        let mut numbers = ArrayVec::new();
        match *self {
            CodeFault::BadMagic => numbers.push(201),
            CodeFault::BadLength => numbers.push(202),
            CodeFault::BadOpcode(position) => {
                numbers.push(203);
                numbers.push(u64::from(position));
            }
            CodeFault::BadOperand(position) => {
                numbers.push(204);
                numbers.push(u64::from(position));
            }
            CodeFault::BadCount => numbers.push(205),
            CodeFault::BadArity => numbers.push(206),
            CodeFault::NotVersion1 => numbers.push(207),
            CodeFault::Memory => numbers.push(290),
        }
        numbers
    }
}

impl From<AllocError> for CodeFault {
    ghost from_gives = { λ _ e. e ≡ Memory };

    fn from(_error: AllocError) -> CodeFault {
        CodeFault::Memory
    }
}

impl<T: Drop> From<AllocFailed<T>> for CodeFault {
    ghost from_gives = { λ _ e. e ≡ Memory };

    fn from(_error: AllocFailed<T>) -> CodeFault {
        CodeFault::Memory
    }
}
