// The command `export`, and `audit` of a store.

use crate::CliFault;
use crate::failure::Failure;
use crate::program::Program;
use crate::store_files::{PrintedOrders, Written, write_trails};
use std::fs;
use std::io::{ErrorKind, Read};
use std::rt::Files;
use tl_file_export::Epochs;
use tl_file_journal::StoreRefusal;
use tl_store_file::FileFault;

/// What an SQLite database begins with.
const DATABASE: &[u8; 16] = b"SQLite format 3\0";

impl<'a, R: Files + Print + Eprint + AllocGlobal + Clone + Drop> Program<'a, R> {
    /// Checks that a folder is there, and has no trails. 32 otherwise.
    pub(crate) fn check_folder<'p>(&self, folder: &'p str) -> Result<(), Failure<'p>> {
        match self.numbers_in(folder) {
            Ok(None) => Ok(()),
            Ok(Some(_)) => {
                let _shown = eprintln!(self.rt; "treedb: {folder} has trails already");
                Err(Failure::Refused(CliFault::Unwritable))
            }
            Err(Failure::Unreadable { path, reason }) => Err(Failure::Unwritable { path, reason }),
            Err(failure) => Err(failure),
        }
    }

    /// Whether that is a file that begins as an SQLite database does. 31 if its beginning can't be read. Of what is no file, as a pipe, nothing is
    /// read.
    pub(crate) fn is_database<'p>(&self, path: &'p str) -> Result<bool, Failure<'p>> {
        if !fs::metadata(self.rt, path).is_ok_and(|metadata| metadata.is_file()) {
            return Ok(false);
        }
        let mut beginning = [0u8; 16];
        let read = match fs::open(self.rt, path) {
            Ok(mut file) => file.read_exact(&mut beginning),
            Err(reason) => Err(reason),
        };
        match read {
            Ok(()) => Ok(beginning == *DATABASE),
            Err(reason) if reason.kind() == ErrorKind::UnexpectedEof => Ok(false),
            Err(reason) => Err(Failure::Unreadable { path, reason }),
        }
    }

    /// Opens a store that is there. 31 if it isn't, [1003,9] if the file is no database; then what opening it says.
    pub(crate) fn open_epochs<'p, E, X>(&self, path: &'p str, opens: X) -> Result<E, Failure<'p>>
    where
        E: Epochs + Drop,
        X: Fn(&str) -> Result<E, FileFault> + Drop,
        requires { X.IsAlwaysCallable opens }
    {
        let is_file = match fs::metadata(self.rt, path) {
            Ok(metadata) => metadata.is_file(),
            Err(reason) => return Err(Failure::Unreadable { path, reason }),
        };
        if is_file && !self.is_database(path)? {
            return Err(Failure::from(FileFault::NotStore));
        }
        match opens(path) {
            Ok(epochs) => Ok(epochs),
            Err(fault) => Err(Failure::from(fault)),
        }
    }

    /// What `export` prints, once all trails are written.
    pub(crate) fn export<'p, E, X>(
        &self,
        store: &'p str,
        folder: &'p str,
        opens: X,
    ) -> Result<String, Failure<'p>>
    where
        E: Epochs + Drop,
        X: Fn(&str) -> Result<E, FileFault> + Drop,
        requires { X.IsAlwaysCallable opens }
    {
        self.check_folder(folder)?;
        let volumes = self.volumes_of(store)?;
        if !volumes.is_empty() {
            return self.export_volumes(store, volumes.as_slice(), folder, &opens);
        }
        let mut opened = self.open_epochs(store, opens)?;
        let alloc = self.rt.alloc();
        let Written { epochs, files } = match write_trails(self.rt, alloc, &mut opened, folder) {
            Ok(written) => written,
            Err(fault) => return Err(Failure::Unexported(fault)),
        };
        Ok(format!(in alloc; "{{\"epochs\":{epochs},\"files\":{files}}}\n")?)
    }

    /// What `audit` prints of a store: a line for each file that `export` would write, which is printed as it comes.
    pub(crate) fn audit_store<'p, E, X>(
        &self,
        store: &'p str,
        opens: X,
    ) -> Result<String, Failure<'p>>
    where
        E: Epochs + Drop,
        X: Fn(&str) -> Result<E, FileFault> + Drop,
        requires { X.IsAlwaysCallable opens }
    {
        let mut opened = self.open_epochs(store, opens)?;
        let alloc = self.rt.alloc();
        match opened.export(alloc, PrintedOrders::new(self.rt, alloc)) {
            Ok(_) => Ok(String::new(alloc)),
            Err(fault) => Err(Failure::Unexported(fault)),
        }
    }
}
