// All rows of a store, copied into another in one transaction.

ghost use Rattle.std.specs.Prelude.{◌≡◌, ◌⊎◌, ◌≤◌, Err, OnOk};
ghost use Rattle.sqlite_trees.specs.Tree.{Trees};
ghost use Rattle.sqlite_trees.specs.View.{IsClean, IsQuiet, KeepsSchema, doubt};
ghost use Rattle.sqlite_trees.specs.declared.error.StoreError.{StoreError as Failure};
ghost use Rattle.tl_ledger.specs.Contents.{OnlyReads, IsAtRest, Holds, no_contents};
ghost use Rattle.tl_snapshot.specs.Copies.{IsCopy};
ghost use Rattle.tl_snapshot.specs.declared.fault.CopyFault.TheVariants.{Target};

use crate::fault::CopyFault;
use crate::tables::copy_tables;
use sqlite_trees::store::Store;
use std::alloc::Global;

/// Copies all that a store has committed into another, which has no rows yet, and commits it there, all in one transaction: each row of each table, under
/// its number. A crash at any moment leaves a copy without rows, or the whole copy; once this has returned `Ok`, it leaves the whole copy. What is copied is
/// only read. If it fails itself, use it no more; after any error use the copy no more.
pub fn copy_store<F: Store, T: Store>(
    alloc: Global,
    from: &mut F,
    to: &mut T,
) -> Result<(), CopyFault>
    requires from { IsClean (F.Store.view from.old) → IsAtRest (F.Store.view from.old) }
    requires to { IsClean (T.Store.view to.old) → IsAtRest (T.Store.view to.old) }
    ensures copied { OnOk result (IsClean (F.Store.view from.new) → IsClean (T.Store.view to.new) → Holds (T.Store.view to.old).committed no_contents
        → IsCopy (F.Store.view from.old).committed (T.Store.view to.new).committed) }
    ensures durable { OnOk result (IsClean (F.Store.view from.new) → IsClean (T.Store.view to.new) → Holds (T.Store.view to.old).committed no_contents
        → (db : Trees) → T.Store.recovers to.new db → IsCopy (F.Store.view from.old).committed db) }
    ensures crash { IsClean (F.Store.view from.new) → IsClean (T.Store.view to.new) → Holds (T.Store.view to.old).committed no_contents
        → (db : Trees) → T.Store.recovers to.new db → Holds db no_contents ⊎ IsCopy (F.Store.view from.old).committed db }
    ensures rest { OnOk result (IsClean (T.Store.view to.new) → IsAtRest (T.Store.view to.new)) }
    ensures reads { OnOk result (IsClean (F.Store.view from.new) → OnlyReads (F.Store.view from.old) (F.Store.view from.new)) }
    ensures still { (error : Failure) → result ≡ Err (Target error) → IsClean (F.Store.view from.new) → OnlyReads (F.Store.view from.old) (F.Store.view from.new) }
    ensures schema { KeepsSchema (F.Store.view from.old) (F.Store.view from.new) }
    ensures quiet { IsQuiet F.Store.view F.Store.faults F.Store.recovers F.Store.is_shielded from.old from.new }
    ensures clean { doubt (T.Store.view to.old).is_clean ≤ doubt (T.Store.view to.new).is_clean }
{
    if let Err(error) = copy_tables(alloc, from, to) {
        to.rollback();
        return Err(error);
    }
    match to.commit() {
        Ok(()) => Ok(()),
        Err(error) => Err(CopyFault::Target(error)),
    }
}
