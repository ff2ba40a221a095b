// Why there is no copy.

ghost use Rattle.std.specs.Prelude.{◌≡◌};
ghost use Rattle.tl_file_snapshot.specs.Faults.{fault_of_error, fault_of_copy, fault_of_file};

use sqlite_trees::error::StoreError;
use thiserror::Error;
use tl_snapshot::CopyFault;
use tl_store_file::FileFault;

/// Why there is no copy of a store.
#[derive(Clone, Copy, Debug, PartialEq, Eq, Error)]
pub enum SnapshotFault {
    /// The name isn't that of a copy.
    #[error("a copy's name is 1 to 64 ASCII letters, digits, _ or -, and then .db")]
    BadName,
    /// There is a file of that name, or one that SQLite would take for its log.
    #[error("there is a file of that name, or a log of it")]
    Taken,
    /// The copy's file can't be made or written.
    #[error("the copy's file can't be written")]
    Unwritten,
    /// The copy doesn't have as many rows as were counted.
    #[error("the copy has other counts than the store")]
    Counts,
    /// The store itself fails.
    #[error("the store fails")]
    Source(StoreError),
    /// Memory was refused.
    #[error("out of memory")]
    Memory,
}

impl SnapshotFault {
    /// The fault that a failure of the copy is.
    pub fn of_copy(error: StoreError) -> SnapshotFault
        ensures { result ≡ fault_of_error error }
    {
        match error {
            StoreError::OutOfMemory => SnapshotFault::Memory,
            _ => SnapshotFault::Unwritten,
        }
    }
}

impl From<CopyFault> for SnapshotFault {
    ghost from_gives = { λ fault wider. wider ≡ fault_of_copy fault };

    fn from(fault: CopyFault) -> SnapshotFault {
        match fault {
            CopyFault::Source(error) => SnapshotFault::Source(error),
            CopyFault::Target(error) => SnapshotFault::of_copy(error),
        }
    }
}

impl From<FileFault> for SnapshotFault {
    ghost from_gives = { λ fault wider. wider ≡ fault_of_file fault };

    fn from(fault: FileFault) -> SnapshotFault {
        match fault {
            FileFault::Memory => SnapshotFault::Memory,
            _ => SnapshotFault::Unwritten,
        }
    }
}
