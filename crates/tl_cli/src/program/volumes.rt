// The commands `export` and `audit` of a store in volumes.

ghost use Rattle.std.specs.Prelude.{◌≡◌, []};

use crate::CliFault;
use crate::failure::Failure;
use crate::program::Program;
use crate::seams::{Seamed, VolumeEnd};
use crate::store_files::{FolderFiles, PrintedOrders};
use std::alloc::AllocError;
use std::rt::Files;
use std::{fs, io};
use tl_file_export::{Epochs, TrailFiles};
use tl_file_journal::StoreRefusal;
use tl_store_file::FileFault;
use tl_volume_files::{SUMS, has_log, list_of, listed, sum_of, volumes_in};

/// A volume of a folder.
#[derive(Clone, Copy, Debug)]
struct Volume<'v> {
    path: &'v str,
    number: u64,
    /// The list of the folder's sums.
    list: &'v str,
    is_highest: bool,
}

impl<'v> Volume<'v> {
    // The volume of that number among these, which rise.
    fn of(path: &'v str, number: u64, list: &'v str, numbers: &[u64]) -> Volume<'v>
        ensures { result.number ≡ number }
    {
        Volume {
            path,
            number,
            list,
            is_highest: numbers.last() == Some(&number),
        }
    }
}

/// What the next volume goes on from.
#[derive(Drop)]
struct Passage {
    /// How the one before ended; none before the first.
    end: Option<VolumeEnd>,
    /// Its number.
    next: Option<u64>,
}

impl Passage {
    // Before the first volume.
    fn new() -> Passage {
        Passage {
            end: None,
            next: None,
        }
    }
}

impl<'a, R: Files + Print + Eprint + AllocGlobal + Clone + Drop> Program<'a, R> {
    /// The numbers of the volumes of a folder, rising; none of what is no folder, or can't be read.
    pub(crate) fn volumes_of(&self, folder: &str) -> Result<Vec<u64>, Failure<'static>> {
        if !fs::metadata(self.rt, folder).is_ok_and(|metadata| metadata.is_dir()) {
            return Ok(Vec::new(self.rt.alloc()));
        }
        match volumes_in(self.rt, folder) {
            Ok(numbers) => Ok(numbers),
            Err(error) if error.kind() == io::ErrorKind::OutOfMemory => {
                Err(Failure::Refused(CliFault::Memory))
            }
            Err(_) => Ok(Vec::new(self.rt.alloc())),
        }
    }

    /// Where the volume of that number is.
    pub(crate) fn volume_path(&self, folder: &str, number: u64) -> Result<String, AllocError> {
        format!(in self.rt.alloc(); "{}/{number}.db", folder.trim_end_matches('/'))
    }

    // Opens a volume. `None` of the highest one, if a server has it, or if it wasn't begun.
    fn open_volume<E, X>(
        &self,
        path: &str,
        is_highest: bool,
        opens: &X,
    ) -> Result<Option<E>, Failure<'static>>
    where
        E: Epochs + Drop,
        X: Fn(&str) -> Result<E, FileFault>,
        requires { X.IsAlwaysCallable opens.now }
    {
        match opens(path) {
            Ok(epochs) => Ok(Some(epochs)),
            Err(FileFault::Busy | FileFault::NotStore) if is_highest => {
                let _shown = eprintln!(self.rt;
                    "treedb: {path} is open in a server, or not begun, and passed over"
                );
                Ok(None)
            }
            Err(fault) => {
                let _shown = eprintln!(self.rt; "treedb: {path}");
                Err(Failure::from(fault))
            }
        }
    }

    // Checks that a volume is the file that the folder's list has, if it is listed. 1020 if it isn't; 1019 if a log lies beside it.
    pub(crate) fn check_sum(
        &self,
        path: &str,
        list: &str,
        number: u64,
    ) -> Result<(), Failure<'static>> {
        let Some(wanted) = listed(list, number) else {
            return Ok(());
        };
        match has_log(self.rt, path) {
            Ok(false) => {}
            Ok(true) => return Err(Failure::Unstored(StoreRefusal::StrayLog)),
            Err(_) => return Err(Failure::Refused(CliFault::Unreadable)),
        }
        match sum_of(self.rt, path) {
            Ok(sum) if sum.as_str() == wanted => Ok(()),
            Ok(_) => Err(Failure::Unjoined { volume: number }),
            Err(_) => Err(Failure::Refused(CliFault::Unreadable)),
        }
    }

    // Takes a volume again, which has to go on from where the one before it ends, and puts its trails into these files. `None` if it is passed over. 1020
    // and its number if it doesn't go on so.
    fn pass_volume<'p, E, X, F>(
        &self,
        volume: &Volume<'_>,
        passage: Passage,
        opens: &X,
        files: F,
    ) -> Result<Option<(F, Passage)>, Failure<'p>>
    where
        E: Epochs + Drop,
        X: Fn(&str) -> Result<E, FileFault>,
        F: TrailFiles + Drop,
        requires none { F.files files [] }
        requires opens { X.IsAlwaysCallable opens.now }
    {
        let (alloc, number) = (self.rt.alloc(), volume.number);
        self.check_sum(volume.path, volume.list, number)?;
        let Some(mut opened) = self.open_volume(volume.path, volume.is_highest, opens)? else {
            return Ok(None);
        };
        if passage.next.is_some_and(|next| next != number) {
            return Err(Failure::Unjoined { volume: number });
        }
        let seamed = match opened.export(alloc, Seamed::new(files, passage.end)) {
            Ok(seamed) => seamed,
            Err(fault) => {
                let _shown = eprintln!(self.rt; "treedb: {}", volume.path);
                return Err(Failure::Unexported(fault));
            }
        };
        if !seamed.is_joined {
            return Err(Failure::Unjoined { volume: number });
        }
        let next = number.checked_add(seamed.sealed());
        let (files, end) = seamed.into_end();
        Ok(Some((files, Passage { end, next })))
    }

    // The list of a folder's sums. 31 if it can't be read.
    pub(crate) fn sums_of(&self, folder: &str) -> Result<String, Failure<'static>> {
        match list_of(self.rt, folder) {
            Ok(list) => Ok(list),
            Err(reason) => {
                let _shown = eprintln!(self.rt; "treedb: {folder}/{SUMS} can't be read: {reason}");
                Err(Failure::Refused(CliFault::Unreadable))
            }
        }
    }

    /// Prints what `audit` does of the volumes of a folder, of which these are there: a line for each file that `export` would write, and in the end the SHA-256 of the
    /// folder's list, and with which volume the audit began.
    pub(crate) fn audit_volumes<E, X>(
        &self,
        folder: &str,
        numbers: &[u64],
        opens: &X,
    ) -> Result<(), Failure<'static>>
    where
        E: Epochs + Drop,
        X: Fn(&str) -> Result<E, FileFault>,
        requires { X.IsAlwaysCallable opens.now }
    {
        let (alloc, list) = (self.rt.alloc(), self.sums_of(folder)?);
        let mut passage = Passage::new();
        for number in numbers.iter().copied() {
            let path = self.volume_path(folder, number)?;
            let volume = Volume::of(path.as_str(), number, list.as_str(), numbers);
            let files = PrintedOrders::new(self.rt, alloc);
            let Some((_files, next)) = self.pass_volume(&volume, passage, opens, files)? else {
                break;
            };
            passage = next;
        }
        self.print_sum(folder, numbers)
    }

    // Prints the SHA-256 of the folder's list, and the first volume that is there.
    fn print_sum(&self, folder: &str, numbers: &[u64]) -> Result<(), Failure<'static>> {
        let path = format!(in self.rt.alloc(); "{folder}/{SUMS}")?;
        let (Ok(sum), Some(first)) = (sum_of(self.rt, path.as_str()), numbers.first()) else {
            // No volume is closed yet.
            return Ok(());
        };
        match println!(self.rt; "{{\"first\":{first},\"sha256\":\"{sum}\"}}") {
            Ok(()) => Ok(()),
            Err(_) => Err(Failure::Refused(CliFault::Unwritable)),
        }
    }

    /// What `export` prints of the volumes of a folder, once all trails are written into the other one.
    pub(crate) fn export_volumes<E, X>(
        &self,
        folder: &str,
        numbers: &[u64],
        trails: &str,
        opens: &X,
    ) -> Result<String, Failure<'static>>
    where
        E: Epochs + Drop,
        X: Fn(&str) -> Result<E, FileFault>,
        requires { X.IsAlwaysCallable opens.now }
    {
        let (alloc, list) = (self.rt.alloc(), self.sums_of(folder)?);
        let (mut passage, mut epochs, mut count) = (Passage::new(), 0u64, 0u64);
        for number in numbers.iter().copied() {
            let path = self.volume_path(folder, number)?;
            let volume = Volume::of(path.as_str(), number, list.as_str(), numbers);
            let files = FolderFiles::after(self.rt, trails, count);
            let Some((files, next)) = self.pass_volume(&volume, passage, opens, files)? else {
                break;
            };
            let written = files.written();
            epochs = epochs.saturating_add(written.epochs);
            count = count.saturating_add(written.files);
            passage = next;
        }
        Ok(format!(in alloc; "{{\"epochs\":{epochs},\"files\":{count}}}\n")?)
    }
}
