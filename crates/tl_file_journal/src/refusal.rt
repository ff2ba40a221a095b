// Why a server doesn't begin on a store, or doesn't end on it.

ghost use Rattle.std.specs.Prelude.{◌≡◌};
ghost use Rattle.tl_file_journal.specs.Refusals.{numbers_of, status_of};
ghost use Rattle.tl_file_journal.specs.declared.refusal.StoreRefusal.TheVariants.{File, Store};
ghost use Rattle.tl_store.specs.declared.fault.StoreFault.TheVariants.{Memory};

use arrayvec::ArrayVec;
use std::alloc::{AllocError, AllocFailed};
use thiserror::Error;
use tl_core::CoreFault;
use tl_recover::RecoverFault;
use tl_store::StoreFault;
use tl_store_file::FileFault;

/// Why a server with a store doesn't begin, or can't go on.
#[derive(Clone, Copy, Debug, Error)]
pub enum StoreRefusal {
    /// 1008: there is no store, and no tree to make one of.
    #[error("there is no store, and no --tree to make one of")]
    NoTree,
    /// 1009: there is a store, which has a tree, and another tree is named.
    #[error("the store has a tree: leave out --tree")]
    HasTree,
    /// 1019: a log lies beside a closed volume, whose own was taken into it.
    #[error("a log lies beside a closed volume, which has none")]
    StrayLog,
    #[error("{0}")]
    File(FileFault),
    #[error("{0}")]
    Store(StoreFault),
}

impl StoreRefusal {
    /// The numbers that stand for it.
    pub fn numbers(&self) -> ArrayVec<u64, 3>
        ensures { result.items ≡ numbers_of self.now }
    {
        let mut numbers = ArrayVec::new();
        match self {
            StoreRefusal::NoTree => numbers.push(1008),
            StoreRefusal::HasTree => numbers.push(1009),
            StoreRefusal::StrayLog => numbers.push(1019),
            StoreRefusal::File(fault) => {
                // There is room: a file's fault has two numbers at most.
                let _added = numbers.try_extend_from_slice(fault.numbers().as_slice());
            }
            StoreRefusal::Store(fault) => return fault.numbers(),
        }
        numbers
    }

    /// The exit status: 3 if the file or the disk failed, 4 if memory was refused, else 1.
    pub fn status(&self) -> u8
        ensures { result ≡ status_of self.now }
    {
        match self {
            StoreRefusal::File(
                FileFault::Unopened(_)
                | FileFault::Busy
                | FileFault::DiskFailed
                | FileFault::DiskFull,
            )
            | StoreRefusal::Store(StoreFault::DiskFailed | StoreFault::DiskFull) => 3,
            StoreRefusal::File(FileFault::Memory)
            | StoreRefusal::Store(
                StoreFault::Memory | StoreFault::Turn(RecoverFault::Core(CoreFault::Memory)),
            ) => 4,
            _ => 1,
        }
    }
}

impl From<FileFault> for StoreRefusal {
    ghost from_gives = { λ fault refusal. refusal ≡ File fault };

    fn from(fault: FileFault) -> Self {
        StoreRefusal::File(fault)
    }
}

impl From<StoreFault> for StoreRefusal {
    ghost from_gives = { λ fault refusal. refusal ≡ Store fault };

    fn from(fault: StoreFault) -> Self {
        StoreRefusal::Store(fault)
    }
}

impl From<AllocError> for StoreRefusal {
    ghost from_gives = { λ _ refusal. refusal ≡ Store Memory };

    fn from(_refused: AllocError) -> Self {
        StoreRefusal::Store(StoreFault::Memory)
    }
}

impl<T: Drop> From<AllocFailed<T>> for StoreRefusal {
    ghost from_gives = { λ _ refusal. refusal ≡ Store Memory };

    fn from(_refused: AllocFailed<T>) -> Self {
        StoreRefusal::Store(StoreFault::Memory)
    }
}
