// Why a store isn't recovered.

ghost use Rattle.std.specs.Prelude.{◌≡◌};
ghost use Rattle.tl_store.specs.declared.fault.StoreFault.TheVariants.{Memory, Turn};
ghost use Rattle.tl_store.specs.Faults.{numbers_of, fault_of_name, IsOfReading};

use arrayvec::ArrayVec;
use sqlite_trees::error::StoreError;
use std::alloc::{AllocError, AllocFailed};
use thiserror::Error;
use tl_ledger::ReadFault;
use tl_recover::RecoverFault;

/// Why a store isn't recovered.
#[derive(Clone, Copy, Debug, PartialEq, Eq, Error)]
pub enum StoreFault {
    /// 1003 and the table's number: it has a row of another form.
    #[error("table {table} of the store has a row of another form")]
    BadRow { table: u32 },
    /// 1004 or 1005 and the turn, or the core's refusal of a call: 501, 601 to 605, 690.
    #[error("{0}")]
    Turn(RecoverFault),
    /// 1006 and the call: its stored reply isn't that of the call taken again.
    #[error("the stored reply of call {call} isn't that of the call taken again")]
    WrongReply { call: u32 },
    /// 1011: the disk failed.
    #[error("the store's disk failed")]
    DiskFailed,
    /// 1012: the disk is full.
    #[error("the store's disk is full")]
    DiskFull,
    /// 1013: the file is damaged: a page isn't what was written.
    #[error("the store's file is damaged")]
    Damaged,
    /// 1014: the store isn't what was run.
    #[error("the store isn't what was run")]
    Other,
    /// 1090: memory was refused.
    #[error("out of memory")]
    Memory,
}

impl StoreFault {
    /// The fault's number, then its parts.
    pub fn numbers(&self) -> ArrayVec<u64, 3>
        ensures { result.items ≡ numbers_of self.now }
    {
        let (number, part) = match self {
            StoreFault::BadRow { table } => (1003, Some(*table)),
            StoreFault::Turn(fault) => return fault.numbers(),
            StoreFault::WrongReply { call } => (1006, Some(*call)),
            StoreFault::DiskFailed => (1011, None),
            StoreFault::DiskFull => (1012, None),
            StoreFault::Damaged => (1013, None),
            StoreFault::Other => (1014, None),
            StoreFault::Memory => (1090, None),
        };
        let mut numbers = ArrayVec::new();
        numbers.push(number);
        if let Some(part) = part {
            numbers.push(u64::from(part));
        }
        numbers
    }

    /// The fault that a failure of the disk is.
    pub fn of_disk(name: StoreError) -> StoreFault
        ensures { result ≡ fault_of_name name }
    {
        match name {
            StoreError::OutOfMemory => StoreFault::Memory,
            StoreError::Full => StoreFault::DiskFull,
            StoreError::Corrupt => StoreFault::Damaged,
            StoreError::Io | StoreError::Broken | StoreError::Unstorable => StoreFault::DiskFailed,
        }
    }
}

impl From<ReadFault> for StoreFault {
    ghost from_gives = { λ fault e. IsOfReading fault e };

    fn from(fault: ReadFault) -> StoreFault {
        match fault {
            ReadFault::Store(name) => StoreFault::of_disk(name),
            ReadFault::NotRows { table } => StoreFault::BadRow { table },
        }
    }
}

impl From<RecoverFault> for StoreFault {
    ghost from_gives = { λ fault e. e ≡ Turn fault };

    fn from(fault: RecoverFault) -> StoreFault {
        StoreFault::Turn(fault)
    }
}

impl From<AllocError> for StoreFault {
    ghost from_gives = { λ _ e. e ≡ Memory };

    fn from(_refused: AllocError) -> StoreFault {
        StoreFault::Memory
    }
}

impl<T: Drop> From<AllocFailed<T>> for StoreFault {
    ghost from_gives = { λ _ e. e ≡ Memory };

    fn from(_refused: AllocFailed<T>) -> StoreFault {
        StoreFault::Memory
    }
}
