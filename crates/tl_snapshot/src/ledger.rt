// All that a ledger has stored, copied.

ghost use Rattle.std.specs.Prelude.{◌≡◌, ◌⊎◌, ◌≤◌, false, true, Err, IsTrue, IfOk, OnOk};
ghost use Rattle.sqlite_trees.specs.Tree.{Trees};
ghost use Rattle.sqlite_trees.specs.View.{IsClean, IsQuiet, KeepsSchema, doubt};
ghost use Rattle.sqlite_trees.specs.declared.error.StoreError.{StoreError as Failure};
ghost use Rattle.tl_ledger.specs.Contents.{Contents, OnlyReads, IsAtRest, AreTables, Holds, no_contents};
ghost use Rattle.tl_ledger.specs.News.{IsMarked};
ghost use Rattle.tl_snapshot.specs.Copies.{IsCopy};
ghost use Rattle.tl_snapshot.specs.declared.fault.CopyFault.TheVariants.{Source};

use crate::copying::copy_store;
use crate::fault::CopyFault;
use sqlite_trees::error::StoreError;
use sqlite_trees::store::Store;
use std::alloc::Global;
use tl_ledger::{Ledger, Marks, ReadFault, marks_of};

/// Whether a store has so many rows of each table that is counted.
pub fn has_counts<T: Store>(alloc: Global, store: &mut T, marks: &Marks) -> Result<bool, StoreError>
    requires { IsClean (T.Store.view store.old) → AreTables (T.Store.view store.old) }
    ensures counted { IfOk result (λ same. IsTrue same → IsClean (T.Store.view store.new) → (c : Contents) → Holds (T.Store.view store.old).trees c → IsMarked c marks.now) }
    ensures reads { OnOk result (IsClean (T.Store.view store.new) → OnlyReads (T.Store.view store.old) (T.Store.view store.new)) }
    ensures schema { KeepsSchema (T.Store.view store.old) (T.Store.view store.new) }
    ensures quiet { IsQuiet T.Store.view T.Store.faults T.Store.recovers T.Store.is_shielded store.old store.new }
{
    match marks_of(alloc, store) {
        Ok(found) => Ok(found == *marks),
        // A row of another form is as wrong as one too many.
        Err(ReadFault::NotRows { .. }) => Err(StoreError::Corrupt),
        Err(ReadFault::Store(error)) => Err(error),
    }
}

/// Copies all that a ledger has stored into a store that has no rows yet, as `copy_store` does. The ledger stays as it is, and stores what comes; only if its
/// own store fails, it is shut.
pub fn copy_ledger<S: Store, T: Store>(
    alloc: Global,
    ledger: &mut Ledger<S>,
    to: &mut T,
) -> Result<(), CopyFault>
    requires open { ledger.old.is_shut ≡ false }
    requires to { IsClean (T.Store.view to.old) → IsAtRest (T.Store.view to.old) }
    ensures copied { OnOk result (IsClean (S.Store.view ledger.new.store) → IsClean (T.Store.view to.new) → Holds (T.Store.view to.old).committed no_contents
        → IsCopy (S.Store.view ledger.old.store).committed (T.Store.view to.new).committed) }
    ensures durable { OnOk result (IsClean (S.Store.view ledger.new.store) → IsClean (T.Store.view to.new) → Holds (T.Store.view to.old).committed no_contents
        → (db : Trees) → T.Store.recovers to.new db → IsCopy (S.Store.view ledger.old.store).committed db) }
    ensures crash { IsClean (S.Store.view ledger.new.store) → IsClean (T.Store.view to.new) → Holds (T.Store.view to.old).committed no_contents
        → (db : Trees) → T.Store.recovers to.new db → Holds db no_contents ⊎ IsCopy (S.Store.view ledger.old.store).committed db }
    ensures rest { OnOk result (IsClean (T.Store.view to.new) → IsAtRest (T.Store.view to.new)) }
    ensures open { OnOk result (ledger.new.is_shut ≡ false) }
    ensures shut { ledger.new.is_shut ≡ true → (error : Failure) × (result ≡ Err (Source error)) }
    ensures stored { ledger.new.is_shut ≡ false → IsClean (S.Store.view ledger.new.store) → (S.Store.view ledger.new.store).committed ≡ (S.Store.view ledger.old.store).committed }
    ensures marks { ledger.new.marks ≡ ledger.old.marks }
    ensures quiet { IsQuiet S.Store.view S.Store.faults S.Store.recovers S.Store.is_shielded ledger.old.store ledger.new.store }
    ensures clean { doubt (T.Store.view to.old).is_clean ≤ doubt (T.Store.view to.new).is_clean }
{
    ledger.is_shut = true;
    match copy_store(alloc, &mut ledger.store, to) {
        Ok(()) => {
            ledger.is_shut = false;
            Ok(())
        }
        Err(CopyFault::Target(error)) => {
            ledger.is_shut = false;
            Err(CopyFault::Target(error))
        }
        Err(CopyFault::Source(error)) => Err(CopyFault::Source(error)),
    }
}
