// The file that trails are written to.

ghost use Rattle.std.specs.Prelude.{◌≡◌};

use crate::CliFault;
use std::fs::OpenOptions;
use std::io::Write;
use std::rt::Files;
use std::{fs, io};
use tl_commands::TrailSink;

/// A file that is created when the first piece is written, so that a command that fails before that leaves it as it was.
#[derive(Drop)]
pub struct TrailFile<'a, R: Files> {
    rt: &'a R,
    path: &'a str,
    // Whether a file that is there stays, and nothing is written.
    is_new: bool,
    file: Option<R::File>,
    reason: Option<io::Error>,
    failed: u64,
}

impl<'a, R: Files> TrailFile<'a, R> {
    /// A file that replaces the one that is there.
    pub fn new(rt: &'a R, path: &'a str) -> TrailFile<'a, R> {
        TrailFile {
            rt,
            path,
            is_new: false,
            file: None,
            reason: None,
            failed: 0,
        }
    }

    /// A file that can't be written where there is one already.
    pub fn that_is_new(rt: &'a R, path: &'a str) -> TrailFile<'a, R> {
        let mut file = TrailFile::new(rt, path);
        file.is_new = true;
        file
    }

    // Makes the file.
    fn make(&self) -> io::Result<R::File> {
        if !self.is_new {
            return fs::create(self.rt, self.path);
        }
        OpenOptions::new()
            .write(true)
            .create_new(true)
            .open(self.rt, self.path)
    }

    /// Why a piece couldn't be written, if one couldn't.
    pub fn into_reason(self) -> Option<io::Error> {
        self.reason
    }

    // Writes a piece after those before it.
    fn write(&mut self, piece: &str) -> io::Result<()>
        ensures { self.new.failed ≡ self.old.failed }
    {
        if self.file.is_none() {
            self.file = Some(self.make()?);
        }
        match &mut self.file {
            Some(file) => file.write_all(piece.as_bytes()),
            None => Ok(()),
        }
    }
}

impl<R: Files> TrailSink for TrailFile<'_, R> {
    ghost use Rattle.std.specs.Prelude.{None};

    // No contract can say what is in a file.
    ghost text = { λ _. None };

    ghost failures = { λ s. s.failed };

    fn put(&mut self, piece: &str) -> Result<(), CliFault> {
        let Err(reason) = self.write(piece) else {
            return Ok(());
        };
        // If the count can't rise, the fault is another. No run counts this far.
        let Some(failed) = self.failed.checked_add(1) else {
            return Err(CliFault::Memory);
        };
        self.failed = failed;
        self.reason = Some(reason);
        Err(CliFault::Unwritable)
    }
}
