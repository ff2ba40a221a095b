// The form of a store's file: the user version of an SQLite database.

ghost use Rattle.std.specs.Prelude.{◌≡◌, ◌≤◌, IsTrue, IfErr, OnOk};
ghost use Rattle.sqlite_trees.specs.Objects.{with_version};
ghost use Rattle.sqlite_trees.specs.View.{IsClean, doubt};
ghost use Rattle.tl_ledger.specs.Contents.{IsAtRest};
ghost use Rattle.tl_store_file.specs.Form.{HasKnownForm};
ghost use Rattle.tl_store_file.specs.Known.{IsNewer};

use crate::fault::FileFault;
use sqlite_disk::{Disk, Files};
use sqlite_trees::error::StoreError;
use sqlite_trees::store::Alter;

/// The form of the stores that this program makes. A store that says 0 is of the time before forms, and has the first one, which is this.
pub const FORM: u32 = 1;

/// Where the user version stands in a database's first page.
const USER_VERSION: usize = 60;

/// Has a store's file say the form that this program makes.
pub fn set_form<S: Alter>(store: &mut S) -> Result<(), StoreError>
    requires { IsClean (S.Store.view store.old) → IsAtRest (S.Store.view store.old) }
    ensures clean { doubt (S.Store.view store.old).is_clean ≤ doubt (S.Store.view store.new).is_clean }
    ensures rest { OnOk result (IsClean (S.Store.view store.new) → IsAtRest (S.Store.view store.new)) }
    ensures form { OnOk result (IsClean (S.Store.view store.new) → (S.Store.view store.new).committed ≡ with_version (S.Store.view store.old).committed FORM) }
{
    store.set_version(FORM)?;
    store.commit()?;
    Ok(())
}

/// Checks that a store has a form that this program knows. 1018 otherwise.
pub fn check_form<S: Alter>(store: &S) -> Result<(), FileFault>
    ensures known { OnOk result (IsClean (S.Store.view store.now) → IsTrue (S.Store.view store.now).is_open → HasKnownForm (S.Store.view store.now).trees) }
    ensures newer { IfErr result IsNewer }
{
    let form = store.version();
    if form > FORM {
        return Err(FileFault::Newer(form));
    }
    Ok(())
}

// The form that a database's first page says. A store's page says it once the store is made, since its log is moved into the file then.
fn stated_form<D: Disk + Drop>(files: Files<D>) -> Option<u32> {
    let mut db = files.db;
    if !db.may_be_used() {
        return None;
    }
    let mut form = [0; 4];
    db.read_at(USER_VERSION, &mut form).ok()?;
    Some(u32::from_be_bytes(form))
}

/// Why files aren't opened whose first table is a store's, and whose others aren't: a newer program may have made them.
pub fn fault_of_tables<D: Disk + Drop>(files: Files<D>) -> FileFault
    ensures { IsNewer result }
{
    match stated_form(files) {
        Some(form) if form > FORM => FileFault::Newer(form),
        _ => FileFault::NotStore,
    }
}
