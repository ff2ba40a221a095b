// A store's file, opened or made.

ghost use Rattle.std.specs.Prelude.{◌≡◌, ◌<◌, ◌≤◌, [], ℕ, IsTrue, IfOk};
ghost use Rattle.sqlite_store.specs.FileStore.{view};
ghost use Rattle.sqlite_store.specs.Unopened.{AreUsable, wanted_by};
ghost use Rattle.sqlite_trees.specs.Objects.{with_version};
ghost use Rattle.sqlite_trees.specs.View.{IsClean, doubt};
ghost use Rattle.tl_ledger.specs.Contents.{IsAtRest, Holds};
ghost use Rattle.tl_store_file.specs.Form.{HasForm};
ghost use Rattle.tl_store_file.specs.Listed.{ListsTables};
ghost use Rattle.tl_store_file.specs.declared.form.TheConstants.{FORM};

use crate::fault::FileFault;
use crate::form::set_form;
use sqlite_disk::{Disk, Files, Tally};
use sqlite_pager::{Options, Pager};
use sqlite_store::{FileStore, OpenError, Unopened, name_fault};
use sqlite_wal::PageSize;
use std::alloc::Global;
use tl_ledger::tables;

/// How many bytes a page has.
pub(crate) const PAGE: usize = 4096;

/// A file and its log that hold no database.
#[derive(Drop)]
pub struct Blank<D: Disk> {
    pub(crate) unopened: Unopened<D>,
    ghost usable: { AreUsable unopened },
    ghost lists: { ListsTables (wanted_by unopened) },
}

/// A store that is open, with nothing written that isn't committed.
#[derive(Drop)]
pub struct Rested<D: Disk> {
    pub store: FileStore<D>,
    ghost rests: { IsClean (view store) → IsAtRest (view store) },
}

/// What files hold.
#[derive(Drop)]
pub enum Found<D: Disk> {
    /// No database, or one without tables: one can be made.
    Blank(Blank<D>),
    /// A store.
    Store(Rested<D>),
}

// The files, with the tables that a store has, of which nothing is known yet. They are given back if memory is refused.
pub(crate) fn unopened<D: Disk + Drop>(
    alloc: Global,
    files: Files<D>,
    seed: u64,
) -> Result<Unopened<D>, FileFault>
    requires log { IsTrue (D.Disk.is_usable files.log) }
    requires db { IsTrue (D.Disk.is_usable files.db) }
    ensures usable { IfOk result AreUsable }
    ensures lists { IfOk result (λ it. ListsTables (wanted_by it)) }
{
    let Some(size) = PageSize::new(PAGE) else {
        unreachable!()
    };
    let Ok(pager) = Pager::new(alloc, files, size, Options::new(seed)) else {
        return Err(FileFault::Memory);
    };
    match Unopened::new(alloc, pager, &tables()) {
        Ok(unopened) => Ok(unopened),
        Err(_) => Err(FileFault::Memory),
    }
}

// Why the files aren't opened, where the tally of the disk's failures was that before.
pub(crate) fn fault_of(error: OpenError, before: Tally, now: Tally) -> FileFault {
    match error {
        OpenError::OutOfMemory => FileFault::Memory,
        OpenError::Io => FileFault::of_disk(name_fault(before, now)),
        OpenError::Full => FileFault::DiskFull,
        OpenError::Refused => FileFault::NotStore,
    }
}

// The same store, which says the form that this program makes.
fn with_form<D: Disk + Drop>(store: FileStore<D>) -> Result<FileStore<D>, FileFault>
    requires { IsClean (view store) → IsAtRest (view store) }
    ensures clean { IfOk result (λ made. doubt (view store).is_clean ≤ doubt (view made).is_clean) }
    ensures rest { IfOk result (λ made. IsClean (view made) → IsAtRest (view made)) }
    ensures form { IfOk result (λ made. IsClean (view made) → (view made).committed ≡ with_version (view store).committed FORM) }
{
    let mut store = store;
    match set_form(&mut store) {
        Ok(()) => Ok(store),
        Err(error) => Err(FileFault::of_disk(error)),
    }
}

// The same store, with its log copied into its file.
fn in_its_file<D: Disk + Drop>(store: FileStore<D>) -> Result<FileStore<D>, FileFault>
    ensures { IfOk result (λ same. IsClean (view same) → view same ≡ view store) }
{
    let mut store = store;
    match store.checkpoint() {
        Ok(()) => Ok(store),
        Err(error) => Err(FileFault::of_disk(error)),
    }
}

impl<D: Disk + Drop> Blank<D> {
    /// Makes a store without rows, of the form that this program makes. A crash leaves no database, one that can be made in its place, or that store,
    /// whose file may say no form yet.
    pub fn make(self) -> Result<Rested<D>, FileFault>
        ensures empty { IfOk result (λ r. IsClean (view r.store) → Holds (view r.store).committed (λ _. [])) }
        ensures form { IfOk result (λ r. IsClean (view r.store) → HasForm (view r.store).committed FORM) }
    {
        let formed = with_form(self.create()?)?;
        let store = in_its_file(formed)?;
        Ok(Rested { store })
    }

    // Makes a store without rows, whose file says no form.
    fn create(self) -> Result<FileStore<D>, FileFault>
        ensures rest { IfOk result (λ made. IsClean (view made) → IsAtRest (view made)) }
        ensures empty { IfOk result (λ made. IsClean (view made) → Holds (view made).committed (λ _. [])) }
    {
        let before = self.unopened.tally();
        match self.unopened.create() {
            Ok(store) => Ok(store),
            Err((error, unopened)) => Err(fault_of(error, before, unopened.tally())),
        }
    }
}
