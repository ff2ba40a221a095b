// What files hold.

ghost use Rattle.std.specs.Prelude.{◌≡◌, IsTrue, IfOk, OnOk};
ghost use Rattle.sqlite_store.specs.Unopened.{AreUsable, wanted_by};
ghost use Rattle.tl_store_file.specs.Known.{IsOfKnownForm};

use crate::fault::FileFault;
use crate::form::{check_form, fault_of_tables};
use crate::opening::{Blank, Found, PAGE, Rested, fault_of, unopened};
use sqlite_disk::{Disk, Files, Tally};
use sqlite_pool::probe_blank;
use sqlite_store::{OpenError, Unopened, name_fault};
use sqlite_value::row::Row;
use sqlite_value::value::ValueRef;
use sqlite_wal::PageSize;
use std::alloc::Global;
use tl_ledger::tables;

// What tables files have.
#[derive(Clone, Copy)]
enum Tables {
    // No database, or one without tables: its first page was made, and then a crash came, or the disk was full.
    None,
    // The first one is that of a store.
    OfStore,
    Others,
}

// What tables these rows of sqlite_schema list.
fn tables_of(rows: &[Row]) -> Tables {
    let Some(first) = rows.first() else {
        return Tables::None;
    };
    // Before the name stand the row's number and the kind.
    match first.get(2) {
        ValueRef::Text(name) if name == tables()[0].name.as_bytes() => Tables::OfStore,
        _ => Tables::Others,
    }
}

fn read_tables<D: Disk>(
    unopened: &mut Unopened<D>,
    is_blank: bool,
    before: Tally,
) -> Result<Tables, FileFault>
    requires { AreUsable unopened.old }
    ensures usable { OnOk result (AreUsable unopened.new) }
    ensures schema { wanted_by unopened.new ≡ wanted_by unopened.old }
{
    if is_blank {
        return Ok(Tables::None);
    }
    match unopened.read_catalog() {
        Ok(rows) => Ok(tables_of(&rows)),
        Err(error) => Err(fault_of(error, before, unopened.tally())),
    }
}

// Why files with these tables aren't opened.
fn refusal<D: Disk + Drop>(
    error: OpenError,
    unopened: Unopened<D>,
    found: Tables,
    before: Tally,
) -> FileFault {
    match (error, found) {
        (OpenError::Refused, Tables::OfStore) => fault_of_tables(unopened.close()),
        _ => fault_of(error, before, unopened.tally()),
    }
}

/// What these files hold, a database and its log. `seed` is a random number. 1018 if a newer program made the store.
pub fn find<D: Disk + Drop>(
    alloc: Global,
    files: Files<D>,
    seed: u64,
) -> Result<Found<D>, FileFault>
    requires log { IsTrue (D.Disk.is_usable files.log) }
    requires db { IsTrue (D.Disk.is_usable files.db) }
    ensures { IfOk result IsOfKnownForm }
{
    let mut files = files;
    let Some(size) = PageSize::new(PAGE) else {
        unreachable!()
    };
    let before = files.tally();
    let is_blank = match probe_blank(alloc, &mut files, size, false) {
        Ok(is_blank) => is_blank,
        Err(sqlite_wal::Error::OutOfMemory) => return Err(FileFault::Memory),
        Err(_) => return Err(FileFault::of_disk(name_fault(before, files.tally()))),
    };
    let mut unopened = unopened(alloc, files, seed)?;
    let found = read_tables(&mut unopened, is_blank, before)?;
    if let Tables::None = found {
        return Ok(Found::Blank(Blank { unopened }));
    }
    match unopened.open() {
        Ok(store) => {
            check_form(&store)?;
            Ok(Found::Store(Rested { store }))
        }
        Err((error, unopened)) => Err(refusal(error, unopened, found, before)),
    }
}
