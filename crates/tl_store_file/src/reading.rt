// A store's file and its log, opened to be read: nothing is made, and nothing is written.

ghost use Rattle.std.specs.Prelude.{IsTrue, IfOk};
ghost use Rattle.tl_store_file.specs.Read.{reader_is_usable};

use crate::reader::{Content, Reader, settle};
use os::RangeLock;
use sqlite_disk::{Files, Modelled, Start};
use sqlite_std_file::OpenError;
use std::fs;
use std::hash::{BuildHasher, RandomState};
use std::io::{self, ErrorKind, Read};
use std::os::fd::AsRawFd;
use std::os::unix::fs::MetadataExt;

/// Where SQLite's locks lie in a file, and how many bytes they take.
const LOCKS: u64 = 1 << 30;

const LOCK_BYTES: u64 = 512;

/// A file that is only read, and held what `S` says.
pub type ReadFrom<S> = Modelled<Reader, S>;

/// The database of that path and its log, to be read. As long as they are open, others may read the database, and find it locked if they would write.
/// Of a log that isn't there nothing is read.
pub fn open_files<S: Start>(
    rt: &HostRuntime,
    path: &str,
    _start: S,
) -> Result<Files<ReadFrom<S>>, OpenError>
    ensures log { IfOk result (λ files. IsTrue (reader_is_usable S.Start files.log)) }
    ensures db { IfOk result (λ files. IsTrue (reader_is_usable S.Start files.db)) }
{
    // The files lie where a link leads, and no link is followed after that.
    let real = fs::canonicalize(rt, path)?;
    let db = open_locked(rt, real.as_str())?;
    let journal = format!(in rt.alloc(); "{}-journal", real.as_str())?;
    if has_hot_journal(rt, journal.as_str())? {
        return Err(OpenError::HotJournal);
    }
    let log = format!(in rt.alloc(); "{}-wal", real.as_str())?;
    let log = read_log(rt, log.as_str())?;
    settle(&db)?;
    let key = RandomState::new(rt)?.hash_one(&0u8);
    let log = Reader::new(Content::Memory(log), key);
    let db = Reader::new(Content::File(db), key);
    Ok(Files {
        log: Modelled::new(log, true, key),
        db: Modelled::new(db, false, key),
    })
}

// Opens a regular file with one name that is no link, and locks it against who would write.
fn open_locked(rt: &HostRuntime, path: &str) -> Result<fs::File, OpenError> {
    let named = fs::symlink_metadata(rt, path)?;
    if !named.is_file() {
        return Err(OpenError::Io(ErrorKind::Unsupported.into()));
    }
    let file = fs::open(rt, path)?;
    let found = file.metadata()?;
    let is_named = found.dev() == named.dev() && found.ino() == named.ino();
    if !is_named || found.nlink() != 1 {
        return Err(OpenError::Io(ErrorKind::Unsupported.into()));
    }
    if os::try_lock_range(file.as_raw_fd(), RangeLock::Shared, LOCKS, LOCK_BYTES) == 0 {
        return Ok(file);
    }
    let error = io::Error::from_raw_os_error(os::errno());
    if error.kind() == ErrorKind::WouldBlock {
        Err(OpenError::Busy)
    } else {
        Err(OpenError::Io(error))
    }
}

// The bytes of a log; none if it isn't there.
fn read_log(rt: &HostRuntime, path: &str) -> Result<Vec<u8>, OpenError> {
    match fs::symlink_metadata(rt, path) {
        Ok(found) if found.is_file() => {}
        Ok(_) => return Err(OpenError::Io(ErrorKind::Unsupported.into())),
        Err(error) if error.kind() == ErrorKind::NotFound => return Ok(Vec::new(rt.alloc())),
        Err(error) => return Err(OpenError::Io(error)),
    }
    match fs::read(rt, path) {
        Ok(bytes) => Ok(bytes),
        Err(error) if error.kind() == ErrorKind::OutOfMemory => Err(OpenError::OutOfMemory),
        Err(error) => Err(OpenError::Io(error)),
    }
}

// A journal that is missing, is empty or begins with a zero has nothing to play back. Anything there but a regular file is refused too.
fn has_hot_journal(rt: &HostRuntime, path: &str) -> io::Result<bool> {
    match fs::symlink_metadata(rt, path) {
        Ok(found) if found.is_file() => {}
        Ok(_) => return Ok(true),
        Err(error) if error.kind() == ErrorKind::NotFound => return Ok(false),
        Err(error) => return Err(error),
    }
    let mut journal = fs::open(rt, path)?;
    let mut first = [0];
    Ok(journal.read(&mut first)? == 1 && first[0] != 0)
}
