// The sums of the volumes that are closed, as `sha256sum` writes and checks them.

use crate::name::volume_number;
use sha2::{Digest, Sha256};
use std::alloc::{AllocError, Global};
use std::fs;
use std::io::{self, ErrorKind, Read, Write};
use std::rt::Files;

/// The file of the folder that lists the SHA-256 of each closed volume, a line each, in the order in which they were closed.
pub const SUMS: &str = "SHA256SUMS";

// How many bytes are read at once.
const PIECE: usize = 65_536;

/// The SHA-256 of a file, as 64 hexadecimal digits.
pub fn sum_of<R: Files + AllocGlobal>(rt: &R, path: &str) -> io::Result<String> {
    let alloc = rt.alloc();
    let mut file = fs::open(rt, path)?;
    let mut piece = Vec::new(alloc);
    piece.resize(PIECE, 0)?;
    let mut hasher = Sha256::new();
    for _ in 0..u64::MAX {
        let count = file.read(piece.as_mut_slice())?;
        if count == 0 {
            break;
        }
        hasher.update(&piece[..count]);
    }
    Ok(hex::encode(alloc, hasher.finalize())?)
}

/// The list of a folder; empty if there is none.
pub fn list_of<R: Files + AllocGlobal>(rt: &R, folder: &str) -> io::Result<String> {
    let alloc = rt.alloc();
    let path = format!(in alloc; "{folder}/{SUMS}")?;
    match fs::read_to_string(rt, path.as_str()) {
        Ok(text) => Ok(text),
        Err(error) if error.kind() == ErrorKind::NotFound => Ok(String::new(alloc)),
        Err(error) => Err(error),
    }
}

/// The sum that a list has of the volume of that number.
pub fn listed<'t>(list: &'t str, number: u64) -> Option<&'t str> {
    list.lines().find_map(|line| sum_in(line, number))
}

// The sum in a line, if that is of the volume of that number.
fn sum_in(line: &str, number: u64) -> Option<&str> {
    let (sum, name) = line.split_once("  ")?;
    if volume_number(name) == Some(number) {
        Some(sum)
    } else {
        None
    }
}

/// The line of a volume's sum.
pub(crate) fn line_of(alloc: Global, sum: &str, number: u64) -> Result<String, AllocError> {
    format!(in alloc; "{sum}  {number}.db\n")
}

/// Makes sure that the names in a folder are on the disk.
pub(crate) fn sync_folder(rt: &HostRuntime, folder: &str) -> io::Result<()> {
    fs::open(rt, folder)?.sync_all()
}

/// Writes a file, so that a crash leaves it as it was or whole.
pub(crate) fn write_whole(rt: &HostRuntime, path: &str, bytes: &[u8]) -> io::Result<()> {
    let part = format!(in rt.alloc(); "{path}.part")?;
    let mut file = fs::create(rt, part.as_str())?;
    file.write_all(bytes)?;
    file.sync_all()?;
    fs::rename(rt, part.as_str(), path)
}
