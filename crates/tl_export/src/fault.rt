// Why a store isn't exported.

ghost use Rattle.std.specs.Prelude.{◌≡◌};
ghost use Rattle.tl_store.specs.declared.fault.StoreFault.TheVariants as store;
ghost use Rattle.tl_export.specs.declared.fault.ExportFault.TheVariants.{Store};
ghost use Rattle.tl_export.specs.Faults.{IsOfReading};

use arrayvec::ArrayVec;
use std::alloc::{AllocError, AllocFailed};
use thiserror::Error;
use tl_audit::ChainFault;
use tl_ledger::ReadFault;
use tl_store::StoreFault;

/// Why a store isn't exported.
#[derive(Clone, Copy, Debug, PartialEq, Eq, Error)]
pub enum ExportFault {
    /// 1003 to 1006, 1011 to 1013, 1090, or the core's refusal of a call: an epoch can't be taken again.
    #[error("{0}")]
    Store(StoreFault),
    /// 718 or 719 and what the auditor adds: the trail of an epoch isn't clean, or doesn't take over from the one before. The trail has the number 0.
    #[error("{0}")]
    Unclean(ChainFault),
    /// 1007 and the node: its record at the last seal isn't that of the calls taken again.
    #[error("the record of node {node} at the last seal isn't that of the calls taken again")]
    WrongRecord { node: u64 },
    /// 32: what is to be kept of a trail can't be written.
    #[error("the trails can't be written")]
    Untaken,
}

impl ExportFault {
    ghost use Rattle.tl_export.specs.Faults.{numbers_of};

    /// The fault's number, then its parts.
    pub fn numbers(&self) -> ArrayVec<u64, 5>
        ensures { result.items ≡ numbers_of self.now }
    {
        let mut numbers = ArrayVec::new();
        match self {
            ExportFault::Store(fault) => {
                let Ok(()) = numbers.try_extend_from_slice(fault.numbers().as_slice()) else {
                    unreachable!()
                };
            }
            ExportFault::Unclean(fault) => return fault.numbers(),
            ExportFault::WrongRecord { node } => {
                numbers.push(1007);
                numbers.push(*node);
            }
            ExportFault::Untaken => numbers.push(32),
        }
        numbers
    }
}

impl From<StoreFault> for ExportFault {
    ghost from_gives = { λ fault e. e ≡ Store fault };

    fn from(fault: StoreFault) -> ExportFault {
        ExportFault::Store(fault)
    }
}

impl From<ReadFault> for ExportFault {
    ghost from_gives = { λ fault e. IsOfReading fault e };

    fn from(fault: ReadFault) -> ExportFault {
        ExportFault::Store(StoreFault::from(fault))
    }
}

impl From<AllocError> for ExportFault {
    ghost from_gives = { λ _ e. e ≡ Store store.Memory };

    fn from(_refused: AllocError) -> ExportFault {
        ExportFault::Store(StoreFault::Memory)
    }
}

impl<T: Drop> From<AllocFailed<T>> for ExportFault {
    ghost from_gives = { λ _ e. e ≡ Store store.Memory };

    fn from(_refused: AllocFailed<T>) -> ExportFault {
        ExportFault::Store(StoreFault::Memory)
    }
}
