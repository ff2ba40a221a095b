// What a ledger has stored, in blank files.

ghost use Rattle.std.specs.Prelude.{◌≡◌, ◌≤◌, false, true, Err, IfOk};
ghost use Rattle.sqlite_store.specs.FileStore.{view};
ghost use Rattle.sqlite_trees.specs.View.{IsClean, IsQuiet, doubt};
ghost use Rattle.sqlite_trees.specs.declared.error.StoreError.{StoreError as Failure};
ghost use Rattle.tl_ledger.specs.Contents.{Contents, Holds, IsAtRest, no_contents};
ghost use Rattle.tl_ledger.specs.News.{IsMarked};
ghost use Rattle.tl_snapshot.specs.Copies.{IsCopy};
ghost use Rattle.tl_file_snapshot.specs.declared.fault.SnapshotFault.TheVariants.{Source};

use crate::fault::SnapshotFault;
use sqlite_disk::Disk;
use sqlite_store::FileStore;
use sqlite_trees::store::Store;
use std::alloc::Global;
use tl_ledger::Ledger;
use tl_snapshot::{copy_ledger, has_counts};
use tl_store_file::Blank;

// The store with all that a ledger has stored, if it had no rows before.
fn filled<S: Store, T: Store + Drop>(
    alloc: Global,
    ledger: &mut Ledger<S>,
    blank: T,
) -> Result<T, SnapshotFault>
    requires open { ledger.old.is_shut ≡ false }
    requires rest { IsClean (T.Store.view blank) → IsAtRest (T.Store.view blank) }
    ensures copied { IfOk result (λ copy. IsClean (S.Store.view ledger.new.store) → IsClean (T.Store.view copy) → Holds (T.Store.view blank).committed no_contents
        → IsCopy (S.Store.view ledger.old.store).committed (T.Store.view copy).committed) }
    ensures counted { IfOk result (λ copy. IsClean (T.Store.view copy) → (c : Contents) → Holds (T.Store.view copy).committed c → IsMarked c ledger.old.marks) }
    ensures clean { IfOk result (λ copy. doubt (T.Store.view blank).is_clean ≤ doubt (T.Store.view copy).is_clean) }
    ensures shut { ledger.new.is_shut ≡ true → (error : Failure) × (result ≡ Err (Source error)) }
    ensures stored { ledger.new.is_shut ≡ false → IsClean (S.Store.view ledger.new.store) → (S.Store.view ledger.new.store).committed ≡ (S.Store.view ledger.old.store).committed }
    ensures marks { ledger.new.marks ≡ ledger.old.marks }
    ensures quiet { IsQuiet S.Store.view S.Store.faults S.Store.recovers S.Store.is_shielded ledger.old.store ledger.new.store }
{
    let mut copy = blank;
    if let Err(fault) = copy_ledger(alloc, ledger, &mut copy) {
        return Err(SnapshotFault::from(fault));
    }
    match has_counts(alloc, &mut copy, &ledger.marks) {
        Ok(true) => Ok(copy),
        Ok(false) => Err(SnapshotFault::Counts),
        Err(error) => Err(SnapshotFault::of_copy(error)),
    }
}

// The same store, with its log copied into its file.
fn in_one_file<D: Disk + Drop>(store: FileStore<D>) -> Result<FileStore<D>, SnapshotFault>
    ensures { IfOk result (λ same. IsClean (view same) → view same ≡ view store) }
{
    let mut store = store;
    match store.checkpoint() {
        Ok(()) => Ok(store),
        Err(error) => Err(SnapshotFault::of_copy(error)),
    }
}

/// Copies all that a ledger has stored into blank files, compares how many rows the copy has with how many the ledger counts, and copies the copy's log
/// into its file. The ledger stays as it is; only if its own store fails, it is shut.
pub fn fill<S: Store, D: Disk + Drop>(
    alloc: Global,
    ledger: &mut Ledger<S>,
    blank: Blank<D>,
) -> Result<FileStore<D>, SnapshotFault>
    requires open { ledger.old.is_shut ≡ false }
    ensures copied { IfOk result (λ copy. IsClean (S.Store.view ledger.new.store) → IsClean (view copy) → IsCopy (S.Store.view ledger.old.store).committed (view copy).committed) }
    ensures counted { IfOk result (λ copy. IsClean (view copy) → (c : Contents) → Holds (view copy).committed c → IsMarked c ledger.old.marks) }
    ensures shut { ledger.new.is_shut ≡ true → (error : Failure) × (result ≡ Err (Source error)) }
    ensures stored { ledger.new.is_shut ≡ false → IsClean (S.Store.view ledger.new.store) → (S.Store.view ledger.new.store).committed ≡ (S.Store.view ledger.old.store).committed }
    ensures marks { ledger.new.marks ≡ ledger.old.marks }
    ensures quiet { IsQuiet S.Store.view S.Store.faults S.Store.recovers S.Store.is_shielded ledger.old.store ledger.new.store }
{
    in_one_file(filled(alloc, ledger, blank.make()?.store)?)
}
