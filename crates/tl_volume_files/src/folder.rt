// The folder of a store in volumes.

use crate::name::volume_number;
use crate::sums::{SUMS, line_of, list_of, listed, sum_of, sync_folder, write_whole};
use std::alloc::AllocError;
use std::fs;
use std::io::{self, ErrorKind};
use std::os::unix::fs::PermissionsExt;
use std::rt::Files;

/// The numbers of the volumes in a folder, rising.
pub fn volumes_in<R: Files + AllocGlobal + Clone + Drop>(
    rt: &R,
    folder: &str,
) -> io::Result<Vec<u64>> {
    let mut numbers = Vec::new(rt.alloc());
    for entry in fs::read_dir(rt, folder)? {
        if let Some(number) = volume_number(entry?.file_name()) {
            numbers.push(number)?;
        }
    }
    numbers.sort_unstable();
    Ok(numbers)
}

/// Makes the folder of a store, if it isn't there. Once this has returned `Ok`, no crash loses it.
pub fn make_folder(rt: &HostRuntime, folder: &str) -> io::Result<()> {
    match fs::create_dir(rt, folder) {
        Ok(()) => {}
        Err(error) if error.kind() == ErrorKind::AlreadyExists => return Ok(()),
        Err(error) => return Err(error),
    }
    let path = folder.trim_end_matches('/');
    match path.rsplit_once('/') {
        Some(("", _)) => sync_folder(rt, "/"),
        Some((parent, _)) => sync_folder(rt, parent),
        None => sync_folder(rt, "."),
    }
}

/// Whether a log with anything in it lies beside the file at that path.
pub fn has_log<R: Files + AllocGlobal>(rt: &R, path: &str) -> io::Result<bool> {
    let log = format!(in rt.alloc(); "{path}-wal")?;
    match fs::metadata(rt, log.as_str()) {
        Ok(metadata) => Ok(metadata.len() > 0),
        Err(error) if error.kind() == ErrorKind::NotFound => Ok(false),
        Err(error) => Err(error),
    }
}

// Removes a file, if it is there.
fn remove_file(rt: &HostRuntime, path: &str) -> io::Result<()> {
    match fs::remove_file(rt, path) {
        Err(error) if error.kind() == ErrorKind::NotFound => Ok(()),
        removed => removed,
    }
}

/// A folder whose files `N.db` are the volumes of a store: the volumes before that one have N epochs. The highest one that was begun is live; the
/// others are closed, and no byte of them changes again.
#[derive(Drop)]
pub struct Volumes {
    rt: HostRuntime,
    folder: String,
    // The mode of the files that are made; the live volume's if none is named.
    mode: Option<u32>,
}

impl Volumes {
    /// The volumes in that folder.
    pub fn new(rt: HostRuntime, folder: &str, mode: Option<u32>) -> Result<Volumes, AllocError> {
        let folder = String::from_str(rt.alloc(), folder.trim_end_matches('/'))?;
        Ok(Volumes { rt, folder, mode })
    }

    /// Where the volume of that number is.
    pub fn path_of(&self, number: u64) -> Result<String, AllocError> {
        format!(in self.rt.alloc(); "{}/{number}.db", self.folder)
    }

    /// The numbers of the volumes that there are, rising.
    pub fn numbers(&self) -> io::Result<Vec<u64>> {
        volumes_in(&self.rt, self.folder.as_str())
    }

    /// Whether there is a file of the volume of that number.
    pub fn is_there(&self, number: u64) -> io::Result<bool> {
        Ok(self.numbers()?.contains(&number))
    }

    /// The mode of the next volume's file, where the live one is at that path: what is named for it, or else the live one's.
    pub fn next_mode(&self, live: &str) -> io::Result<u32> {
        match self.mode {
            Some(mode) => Ok(mode),
            None => Ok(fs::metadata(&self.rt, live)?.permissions().mode() & 0o777),
        }
    }

    /// Whether the list of the folder has the volume of that number.
    pub fn is_listed(&self, number: u64) -> io::Result<bool> {
        let text = list_of(&self.rt, self.folder.as_str())?;
        Ok(listed(text.as_str(), number).is_some())
    }

    /// Removes a volume that wasn't begun, with its log, if they are there. Once this has returned `Ok`, no crash brings them back.
    pub fn remove(&self, number: u64) -> io::Result<()> {
        let path = self.path_of(number)?;
        self.remove_log(path.as_str())?;
        remove_file(&self.rt, path.as_str())?;
        sync_folder(&self.rt, self.folder.as_str())
    }

    /// Copies a closed volume, byte by byte and with its mode, into the file of that path, and makes sure that the disk has it. False if the list has no sum of
    /// the volume, or what was written has another one.
    pub fn copy_closed(&self, number: u64, path: &str) -> io::Result<bool> {
        let text = list_of(&self.rt, self.folder.as_str())?;
        let Some(wanted) = listed(text.as_str(), number) else {
            return Ok(false);
        };
        let volume = self.path_of(number)?;
        fs::copy(&self.rt, volume.as_str(), path)?;
        fs::open(&self.rt, path)?.sync_all()?;
        Ok(sum_of(&self.rt, path)?.as_str() == wanted)
    }

    // Removes the log of the volume at that path, if it is there.
    fn remove_log(&self, path: &str) -> io::Result<()> {
        let log = format!(in self.rt.alloc(); "{path}-wal")?;
        remove_file(&self.rt, log.as_str())
    }

    /// Removes the log of a volume that is closed, all of which was taken into its file, and adds the volume's SHA-256 to the list of the folder, if it
    /// isn't there. Answers the SHA-256 of the list as it is then: it changes if a byte of a closed volume does.
    pub fn close(&self, number: u64) -> io::Result<String> {
        let alloc = self.rt.alloc();
        let path = self.path_of(number)?;
        self.remove_log(path.as_str())?;
        let list = format!(in alloc; "{}/{SUMS}", self.folder)?;
        let mut text = list_of(&self.rt, self.folder.as_str())?;
        if listed(text.as_str(), number).is_none() {
            let sum = sum_of(&self.rt, path.as_str())?;
            text.push_str(line_of(alloc, sum.as_str(), number)?.as_str())?;
            write_whole(&self.rt, list.as_str(), text.as_bytes())?;
            sync_folder(&self.rt, self.folder.as_str())?;
        }
        sum_of(&self.rt, list.as_str())
    }
}
