// What comes of the trails of a store: files of a folder, or lines.

ghost use Rattle.std.specs.Prelude.{◌≡◌, ◌+◌, IfOk, OnOk};
ghost use Rattle.tl_file_export.specs.Filed.{AreSoMany, HasExported};

use serde_json::Value;
use std::alloc::Global;
use std::io::Write;
use std::rt::Files;
use std::{fs, io, mem};
use tl_export::ExportFault;
use tl_file_export::{Epochs, TrailFiles};
use tl_json::{calls_to_value, orders_to_value};
use tl_lines::line_of;
use tl_serial_order::Order;
use tl_store::StoreFault;
use tl_trail::{Trail, write_trail};

/// Writes trails into the files 0.json, 1.json and so on of a folder, each a chain. Until a file is whole its name ends with `.part`.
#[derive(Drop)]
pub struct FolderFiles<'a, R: Files> {
    rt: &'a R,
    folder: &'a str,
    // The file that was begun last, until it is whole.
    open: Option<R::File>,
    // How many files there were before its first.
    before: u64,
    files: u64,
    epochs: u64,
}

impl<'a, R: Files + Eprint> FolderFiles<'a, R> {
    pub fn new(rt: &'a R, folder: &'a str) -> FolderFiles<'a, R>
        ensures { (result.files ≡ 0) × (result.epochs ≡ 0) }
    {
        FolderFiles::after(rt, folder, 0)
    }

    /// The same, where so many files are in the folder already.
    pub fn after(rt: &'a R, folder: &'a str, before: u64) -> FolderFiles<'a, R>
        ensures { (result.files ≡ 0) × (result.epochs ≡ 0) }
    {
        FolderFiles {
            rt,
            folder,
            before,
            open: None,
            files: 0,
            epochs: 0,
        }
    }

    /// How much was written.
    pub fn written(&self) -> Written
        ensures { (result.files ≡ self.now.files) × (result.epochs ≡ self.now.epochs) }
    {
        Written {
            epochs: self.epochs,
            files: self.files,
        }
    }

    // The name of the last file, once it is whole.
    fn path(&self, alloc: Global) -> Result<String, ExportFault> {
        let number = self.before.saturating_add(self.files.saturating_sub(1));
        Ok(format!(in alloc; "{}/{number}.json", self.folder)?)
    }

    // Says to people why something wasn't written.
    fn unwritten(&self, path: &str, reason: &io::Error) -> ExportFault {
        let _shown = eprintln!(self.rt; "treedb: {path} can't be written: {reason}");
        ExportFault::Untaken
    }

    // Makes the next file.
    fn make(&mut self, alloc: Global) -> Result<(), ExportFault>
        ensures files { OnOk result (self.new.files ≡ self.old.files + 1) }
        ensures epochs { self.new.epochs ≡ self.old.epochs }
    {
        // No run counts this far.
        let Some(files) = self.files.checked_add(1) else {
            return Err(ExportFault::Untaken);
        };
        self.files = files;
        let path = self.path(alloc)?;
        let part = format!(in alloc; "{path}.part")?;
        match fs::create(self.rt, part.as_str()) {
            Ok(file) => {
                self.open = Some(file);
                Ok(())
            }
            Err(reason) => Err(self.unwritten(part.as_str(), &reason)),
        }
    }

    // Writes a piece after those before it.
    fn put(&mut self, alloc: Global, piece: &str) -> Result<(), ExportFault>
        ensures files { self.new.files ≡ self.old.files }
        ensures epochs { self.new.epochs ≡ self.old.epochs }
    {
        let Some(file) = &mut self.open else {
            return Err(ExportFault::Untaken);
        };
        match file.write_all(piece.as_bytes()) {
            Ok(()) => Ok(()),
            Err(reason) => {
                let path = self.path(alloc)?;
                Err(self.unwritten(path.as_str(), &reason))
            }
        }
    }

    // Writes a trail behind that.
    fn put_trail(&mut self, alloc: Global, before: &str, trail: &Trail) -> Result<(), ExportFault>
        ensures files { self.new.files ≡ self.old.files }
        ensures epochs { OnOk result (self.new.epochs ≡ self.old.epochs + 1) }
    {
        let Ok(text) = write_trail(alloc, trail) else {
            return Err(ExportFault::Store(StoreFault::Memory));
        };
        self.put(alloc, before)?;
        self.put(alloc, text.as_str())?;
        // No run counts this far.
        let Some(epochs) = self.epochs.checked_add(1) else {
            return Err(ExportFault::Untaken);
        };
        self.epochs = epochs;
        Ok(())
    }
}

impl<R: Files + Eprint> TrailFiles for FolderFiles<'_, R> {
    ghost use Rattle.tl_file_export.specs.Filed.{AreSoMany};

    // No contract can say what is in a file: only how many files there are, and how many trails in all.
    ghost files = { λ s. AreSoMany s.files s.epochs };

    fn begin(&mut self, alloc: Global, trail: &Trail, _order: &Order) -> Result<(), ExportFault> {
        self.end(alloc)?;
        self.make(alloc)?;
        self.put_trail(alloc, "[", trail)
    }

    fn add(&mut self, alloc: Global, trail: &Trail, _order: &Order) -> Result<(), ExportFault> {
        self.put_trail(alloc, ",", trail)
    }

    fn end(&mut self, alloc: Global) -> Result<(), ExportFault> {
        if self.open.is_none() {
            return Ok(());
        }
        self.put(alloc, "]\n")?;
        self.open = None;
        let path = self.path(alloc)?;
        let part = format!(in alloc; "{path}.part")?;
        match fs::rename(self.rt, part.as_str(), path.as_str()) {
            Ok(()) => Ok(()),
            Err(reason) => Err(self.unwritten(path.as_str(), &reason)),
        }
    }
}

/// How much an export has written: how many trails, one for each epoch, and how many files.
#[derive(Clone, Copy, Debug)]
pub struct Written {
    pub epochs: u64,
    pub files: u64,
}

/// Takes all epochs again, and writes their trails into the folder.
pub fn write_trails<R: Files + Eprint + Drop, E: Epochs>(
    rt: &R,
    alloc: Global,
    epochs: &mut E,
    folder: &str,
) -> Result<Written, ExportFault>
    ensures { IfOk result (λ w. HasExported (AreSoMany w.files w.epochs) (E.is_clean epochs.new) (E.holds epochs.old)) }
{
    let files = epochs.export(alloc, FolderFiles::new(rt, folder))?;
    Ok(files.written())
}

/// Prints a line for the trails that would be in one file: the orders of their calls, as `audit` does.
#[derive(Drop)]
pub struct PrintedOrders<'a, R> {
    rt: &'a R,
    // The orders of the file that was begun last.
    orders: Vec<Value>,
}

impl<'a, R: Print> PrintedOrders<'a, R> {
    pub fn new(rt: &'a R, alloc: Global) -> PrintedOrders<'a, R> {
        PrintedOrders {
            rt,
            orders: Vec::new(alloc),
        }
    }

    fn push(&mut self, alloc: Global, order: &Order) -> Result<(), ExportFault> {
        let calls = calls_to_value(alloc, order.calls())?;
        Ok(self.orders.push(calls)?)
    }
}

impl<R: Print> TrailFiles for PrintedOrders<'_, R> {
    // Trails are printed by their orders alone.
    ghost files = { λ _ _. Unit {0} };

    fn begin(&mut self, alloc: Global, _trail: &Trail, order: &Order) -> Result<(), ExportFault> {
        self.end(alloc)?;
        self.push(alloc, order)
    }

    fn add(&mut self, alloc: Global, _trail: &Trail, order: &Order) -> Result<(), ExportFault> {
        self.push(alloc, order)
    }

    fn end(&mut self, alloc: Global) -> Result<(), ExportFault> {
        if self.orders.is_empty() {
            return Ok(());
        }
        let orders = mem::replace(&mut self.orders, Vec::new(alloc));
        let line = line_of(alloc, &orders_to_value(alloc, orders)?)?;
        match self.rt.print(line.as_str()) {
            Ok(()) => Ok(()),
            Err(_) => Err(ExportFault::Untaken),
        }
    }
}
