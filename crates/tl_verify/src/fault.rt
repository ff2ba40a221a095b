// Why a code isn't accepted.

ghost use Rattle.std.specs.Prelude.{◌≡◌};
ghost use Rattle.tl_verify.specs.Faults.{numbers_of, of_nest};
ghost use Rattle.tl_verify.specs.declared.fault.VerifyFault.TheVariants.{Memory};

use arrayvec::ArrayVec;
use std::alloc::AllocError;
use thiserror::Error;
use tl_budget::NestFault;

/// Why a code isn't accepted. Positions are counted from 0.
#[derive(Clone, Copy, Debug, PartialEq, Eq, Error)]
pub enum VerifyFault {
    /// 301 to 307: the loops don't match, or the code may cost too much.
    #[error(transparent)]
    Nest(NestFault),
    /// 401: the target is at or before the jump.
    #[error("instruction {0}: the jump goes back")]
    BackJump(u16),
    /// 402: the target is in a loop that the jump isn't in.
    #[error("instruction {0}: the jump goes into a loop")]
    IntoLoop(u16),
    /// 403: the target, or the next position, is past the end.
    #[error("instruction {0}: control goes past the end of the code")]
    OffEnd(u16),
    /// 404: a `first` that a call may reach after it locked a node.
    #[error("instruction {0}: first comes after another lock")]
    FirstSpent(u16),
    /// 405: the register, given last, is empty.
    #[error("instruction {0}: register n{1} holds no node")]
    NotHeld(u16, u8),
    /// 406: the register that has to take a node, given last, holds one already.
    #[error("instruction {0}: register n{1} holds a node already")]
    Occupied(u16, u8),
    /// 407: the call ends while it holds the node of a register. The least such register is given.
    #[error("instruction {0}: register n{1} still holds a node at the end")]
    HeldAtReturn(u16, u8),
    /// 408: control arrives here with a register held on one path and empty on another.
    #[error("instruction {0}: paths that join here hold different registers")]
    Joins(u16),
    /// 409: a turn of the loop that ends here changes which registers are held, or spends `first`.
    #[error("instruction {0}: a turn of the loop changes what is held")]
    LoopChanges(u16),
    /// 490: memory was refused.
    #[error("out of memory")]
    Memory,
}

impl From<AllocError> for VerifyFault {
    ghost from_gives = { λ _ e. e ≡ Memory };

    fn from(_: AllocError) -> VerifyFault {
        VerifyFault::Memory
    }
}

impl From<NestFault> for VerifyFault {
    ghost from_gives = { λ f e. e ≡ of_nest f };

    fn from(fault: NestFault) -> VerifyFault {
        match fault {
            NestFault::Memory => VerifyFault::Memory,
            fault => VerifyFault::Nest(fault),
        }
    }
}

impl VerifyFault {
    /// The fault's number, then its parts.
    pub fn numbers(&self) -> ArrayVec<u64, 3>
        ensures { result.items ≡ numbers_of self.now }
    {
        let (number, position, register) = match *self {
            VerifyFault::Nest(fault) => return fault.numbers(),
            VerifyFault::BackJump(position) => (401, Some(position), None),
            VerifyFault::IntoLoop(position) => (402, Some(position), None),
            VerifyFault::OffEnd(position) => (403, Some(position), None),
            VerifyFault::FirstSpent(position) => (404, Some(position), None),
            VerifyFault::NotHeld(position, register) => (405, Some(position), Some(register)),
            VerifyFault::Occupied(position, register) => (406, Some(position), Some(register)),
            VerifyFault::HeldAtReturn(position, register) => (407, Some(position), Some(register)),
            VerifyFault::Joins(position) => (408, Some(position), None),
            VerifyFault::LoopChanges(position) => (409, Some(position), None),
            VerifyFault::Memory => (490, None, None),
        };
        let mut numbers = ArrayVec::new();
        numbers.push(number);
        if let Some(position) = position {
            numbers.push(u64::from(position));
        }
        if let Some(register) = register {
            numbers.push(u64::from(register));
        }
        numbers
    }
}
