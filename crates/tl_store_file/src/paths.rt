// What a path names, opened.

use crate::fault::{FileFault, Hindrance};
use crate::finding::find;
use crate::opening::Found;
use crate::reading::{ReadFrom, open_files};
use sqlite_disk::Unknown;
use sqlite_std_file::{File, OpenError};
use std::fs::{OpenOptions, Permissions};
use std::hash::{BuildHasher, RandomState};
use std::io::{self, ErrorKind};
use std::os::unix::fs::{OpenOptionsExt, PermissionsExt};

/// What the system says where a file system has no locks: ENOLCK and EOPNOTSUPP.
const NO_LOCKS: i32 = 37;

const NOT_SUPPORTED: i32 = 95;

/// What the system says where a disk fails: EIO.
const IO_FAILED: i32 = 5;

/// A file that is only read.
pub type ReadFile = ReadFrom<Unknown>;

// What keeps a file from being opened, by what the system says. What is no regular file with one name has no number of the system, and is `Unsupported`.
fn hindrance_of(error: &io::Error) -> Hindrance {
    if matches!(error.raw_os_error(), Some(NO_LOCKS | NOT_SUPPORTED)) {
        return Hindrance::NoLocks;
    }
    match error.kind() {
        ErrorKind::PermissionDenied => Hindrance::Permission,
        ErrorKind::NotFound => Hindrance::NoFolder,
        ErrorKind::Unsupported | ErrorKind::IsADirectory => Hindrance::NotRegular,
        _ => Hindrance::Other,
    }
}

// Why a file isn't opened, by what the system says: its disk, or something that keeps it from being opened.
fn refusal_of(error: &io::Error) -> FileFault {
    match (error.kind(), error.raw_os_error()) {
        (ErrorKind::OutOfMemory, _) => FileFault::Memory,
        (ErrorKind::StorageFull, _) => FileFault::DiskFull,
        (_, Some(IO_FAILED)) => FileFault::DiskFailed,
        _ => FileFault::Unopened(hindrance_of(error)),
    }
}

// Why files aren't opened.
fn fault_of_opening(error: OpenError) -> FileFault {
    match error {
        OpenError::OutOfMemory => FileFault::Memory,
        OpenError::Busy => FileFault::Busy,
        OpenError::HotJournal => FileFault::Unopened(Hindrance::Journal),
        OpenError::Io(error) => refusal_of(&error),
    }
}

// A random number.
fn seed(rt: &HostRuntime) -> Result<u64, FileFault> {
    match RandomState::new(rt) {
        Ok(state) => Ok(state.hash_one(&0u8)),
        Err(_) => Err(FileFault::DiskFailed),
    }
}

// Makes an empty file with this mode, if there is no file of that name.
fn make_empty(rt: &HostRuntime, path: &str, mode: u32) -> io::Result<()> {
    let made = OpenOptions::new()
        .write(true)
        .create_new(true)
        .mode(mode)
        .open(rt, path);
    match made {
        // The system leaves out of the mode what the process's mask has.
        Ok(file) => file.set_permissions(Permissions::from_mode(mode)),
        Err(error) if error.kind() == ErrorKind::AlreadyExists => Ok(()),
        Err(error) => Err(error),
    }
}

/// What the file of that path holds, and its log beside it. Both are made if they aren't there: the file with mode 644, less what the process's mask
/// has, and the log with the file's. As long as they are open, others find the database locked.
pub fn open(rt: &HostRuntime, path: &str) -> Result<Found<File>, FileFault> {
    let seed = seed(rt)?;
    match sqlite_std_file::open(rt, path, Unknown) {
        Ok(files) => find(rt.alloc(), files, seed),
        Err(error) => Err(fault_of_opening(error)),
    }
}

/// The same, where a file that is made gets this mode.
pub fn open_with_mode(rt: &HostRuntime, path: &str, mode: u32) -> Result<Found<File>, FileFault> {
    match make_empty(rt, path, mode) {
        Ok(()) => open(rt, path),
        Err(error) => Err(refusal_of(&error)),
    }
}

/// What the file of that path holds, and its log beside it, to be read: who may only read the file and its folder can do that. Nothing is made or
/// written: what is written of the store stays in memory. As long as it is open, others may read it, and find it locked if they would write.
pub fn open_to_read(rt: &HostRuntime, path: &str) -> Result<Found<ReadFile>, FileFault> {
    let seed = seed(rt)?;
    match open_files(rt, path, Unknown) {
        Ok(files) => find(rt.alloc(), files, seed),
        Err(error) => Err(fault_of_opening(error)),
    }
}
