// Why there is no order.

ghost use Rattle.std.specs.Prelude.{◌≡◌};
ghost use Rattle.tl_serial_order.specs.declared.fault.SerialFault.TheVariants.{Memory};

use arrayvec::ArrayVec;
use std::alloc::{AllocError, AllocFailed};
use thiserror::Error;

/// Why there is no order, or nothing could be concluded from it.
#[derive(Clone, Copy, Debug, PartialEq, Eq, Error)]
pub enum SerialFault {
    /// 651 and the call: the call was admitted and isn't done.
    #[error("call {call} isn't done")]
    Unfinished { call: u32 },
    /// 690: memory was refused.
    #[error("out of memory")]
    Memory,
}

impl SerialFault {
    ghost use Rattle.tl_serial_order.specs.Faults.{numbers_of};

    /// The fault's number, followed by the call if the fault names one.
    pub fn numbers(&self) -> ArrayVec<u64, 2>
        ensures { result.items ≡ numbers_of self.now }
    {
        let mut numbers = ArrayVec::new();
        match *self {
            SerialFault::Unfinished { call } => {
                numbers.push(651);
                numbers.push(u64::from(call));
            }
            SerialFault::Memory => numbers.push(690),
        }
        numbers
    }
}

impl From<AllocError> for SerialFault {
    ghost from_gives = { λ _ e. e ≡ Memory };

    fn from(_refused: AllocError) -> SerialFault {
        SerialFault::Memory
    }
}

impl<T: Drop> From<AllocFailed<T>> for SerialFault {
    ghost from_gives = { λ _ e. e ≡ Memory };

    fn from(_refused: AllocFailed<T>) -> SerialFault {
        SerialFault::Memory
    }
}
