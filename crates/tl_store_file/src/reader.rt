// A file that is only read, as the kit's model of a disk asks for it.

ghost use Rattle.std.specs.Prelude.{◌≡◌, ◌<◌, ◌≤◌, ◌^◌, [], ◌∷◌, length, IfOk};
ghost use Rattle.sqlite_disk.specs.Events.{settled};

use crate::record::Record;
use sqlite_disk::{Calls, is_no_room};
use std::alloc::AllocError;
use std::fs;
use std::io::{self, ErrorKind};
use std::os::fd::AsRawFd;
use std::os::unix::fs::FileExt;

// The numbers of the calls, as `sqlite_disk` counts them.
const SETTLED: u64 = 0;

const MEASURED: u64 = 1;

const READ: u64 = 2;

const WRITTEN: u64 = 3;

const CUT: u64 = 4;

const FLUSHED: u64 = 5;

const TESTED: u64 = 6;

const MAX_OFFSET: usize = (1 << 63) - 1;

/// What is read.
#[derive(Drop)]
pub enum Content {
    /// A file that is open for reading alone. Nothing can be written.
    File(fs::File),
    /// The bytes of a file. What is written stays in memory, and goes with it.
    Memory(Vec<u8>),
}

/// A file that is read, and of which no byte changes.
#[derive(Drop)]
pub struct Reader {
    content: Content,
    record: Record,
}

impl Reader {
    /// Takes a content that the disk has as a read returns it.
    pub fn new(content: Content, key: u64) -> Reader
        ensures { result.record.events ≡ settled key ∷ [] }
    {
        let mut record = Record::new();
        record.note(&[SETTLED, key, 0, 1], &[]);
        Reader { content, record }
    }
}

/// Has the disk get what a read of the file returns, and drops the kernel's copies of its pages, which a sync that failed may have left other than the
/// disk has them. A file system that can't be written knows no such call, and has nothing to do.
pub fn settle(file: &fs::File) -> io::Result<()> {
    sync(file)?;
    let advised = libc::posix_fadvise(file.as_raw_fd(), 0, 0, libc::POSIX_FADV_DONTNEED);
    if advised == 0 {
        Ok(())
    } else {
        Err(io::Error::from_raw_os_error(advised))
    }
}

fn sync(file: &fs::File) -> io::Result<()> {
    match file.sync_all() {
        Err(error) if error.kind() == ErrorKind::InvalidInput => Ok(()),
        synced => synced,
    }
}

fn out_of_memory(_refused: AllocError) -> io::Error {
    ErrorKind::OutOfMemory.into()
}

impl Content {
    fn len(&self) -> io::Result<usize> {
        match self {
            Content::File(file) => Ok(file.metadata()?.len() as usize),
            Content::Memory(bytes) => Ok(bytes.len()),
        }
    }

    fn read(&self, at: usize, buf: &mut [u8]) -> io::Result<usize>
        ensures { IfOk result (λ n. (0 < n) × (n ≤ length buf.old) × (at < 2 ^ 63)) }
    {
        if at > MAX_OFFSET {
            return Err(ErrorKind::InvalidInput.into());
        }
        let got = match self {
            Content::File(file) => file.read_at(buf, at as u64)?,
            Content::Memory(bytes) => copy_out(bytes, at, buf),
        };
        if got == 0 {
            Err(ErrorKind::UnexpectedEof.into())
        } else {
            Ok(got)
        }
    }

    fn write(&mut self, at: usize, bytes: &[u8]) -> io::Result<usize>
        requires { 0 < length bytes.now }
        ensures { IfOk result (λ n. (0 < n) × (n ≤ length bytes.now) × (at < 2 ^ 63)) }
    {
        if at > MAX_OFFSET {
            return Err(ErrorKind::InvalidInput.into());
        }
        match self {
            Content::File(_) => Err(ErrorKind::PermissionDenied.into()),
            Content::Memory(memory) => copy_in(memory, at, bytes),
        }
    }

    fn resize(&mut self, len: usize) -> io::Result<()> {
        match self {
            Content::File(_) => Err(ErrorKind::PermissionDenied.into()),
            Content::Memory(memory) => memory.resize(len, 0).map_err(out_of_memory),
        }
    }

    fn sync(&mut self) -> io::Result<()> {
        match self {
            Content::File(file) => sync(file),
            Content::Memory(_) => Ok(()),
        }
    }
}

// Copies the bytes from there on, as many as there are and as there is room for.
fn copy_out(bytes: &[u8], at: usize, buf: &mut [u8]) -> usize
    ensures { result ≤ length buf.old }
{
    if at >= bytes.len() {
        return 0;
    }
    let count = buf.len().min(bytes.len() - at);
    buf[..count].copy_from_slice(&bytes[at..at + count]);
    count
}

// Puts all the bytes there, behind zeros where the end comes before.
fn copy_in(memory: &mut Vec<u8>, at: usize, bytes: &[u8]) -> io::Result<usize>
    ensures { IfOk result (λ n. n ≡ length bytes.now) }
{
    let Some(end) = at.checked_add(bytes.len()) else {
        return Err(ErrorKind::InvalidInput.into());
    };
    if memory.len() < end {
        memory.resize(end, 0).map_err(out_of_memory)?;
    }
    memory[at..end].copy_from_slice(bytes);
    Ok(bytes.len())
}

impl Calls for Reader {
    ghost history = { λ f. f.record.events };

    fn len(&mut self) -> io::Result<usize> {
        let answer = self.content.len();
        match answer {
            Ok(n) => self.record.note(&[MEASURED, n as u64, 0, 1], &[]),
            Err(_) => self.record.note(&[MEASURED, 0, 0, 0], &[]),
        }
        answer
    }

    fn read_some(&mut self, at: usize, buf: &mut [u8]) -> io::Result<usize> {
        let (at64, len) = (at as u64, buf.len() as u64);
        let answer = self.content.read(at, buf);
        match answer {
            Ok(n) => self.record.note(&[READ, at64, len, 1], &buf[..n]),
            Err(_) => self.record.note(&[READ, at64, len, 0], &[]),
        }
        answer
    }

    fn read_under(&mut self, key: u64, want: u64, at: usize, buf: &mut [u8]) -> io::Result<usize> {
        let (at64, len) = (at as u64, buf.len() as u64);
        let answer = self.content.read(at, buf);
        match answer {
            Ok(n) => self
                .record
                .note(&[TESTED, at64, len, 1, key, want], &buf[..n]),
            Err(_) => self.record.note(&[TESTED, at64, len, 0, key, want], &[]),
        }
        answer
    }

    fn write_some(&mut self, at: usize, bytes: &[u8]) -> io::Result<usize> {
        let answer = self.content.write(at, bytes);
        match answer {
            Ok(n) => self.record.note(&[WRITTEN, at as u64, n as u64, 1], bytes),
            Err(error) => self.record.note(
                &[WRITTEN, at as u64, u64::from(is_no_room(&error)), 0],
                bytes,
            ),
        }
        answer
    }

    fn resize(&mut self, len: usize) -> io::Result<()> {
        let answer = self.content.resize(len);
        match answer {
            Ok(()) => self.record.note(&[CUT, len as u64, 0, 1], &[]),
            Err(error) => self
                .record
                .note(&[CUT, len as u64, u64::from(is_no_room(&error)), 0], &[]),
        }
        answer
    }

    fn sync(&mut self) -> io::Result<()> {
        let answer = self.content.sync();
        match answer {
            Ok(()) => self.record.note(&[FLUSHED, 0, 0, 1], &[]),
            Err(error) => self
                .record
                .note(&[FLUSHED, 0, u64::from(is_no_room(&error)), 0], &[]),
        }
        answer
    }
}
