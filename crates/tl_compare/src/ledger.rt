// The rows of an epoch, read of a ledger.

ghost use Rattle.std.specs.Prelude.{◌≡◌, false, IfOk, OnOk};
ghost use Rattle.sqlite_trees.specs.View.{IsClean, IsQuiet};
ghost use Rattle.tl_ledger.specs.Contents.{Contents, Holds};
ghost use Rattle.tl_ledger.specs.News.{IsMarked};
ghost use Rattle.tl_compare.specs.Epochs.{AreEpochRows};

use crate::reading::{EpochRows, read_epoch};
use sqlite_trees::store::Store;
use std::alloc::Global;
use tl_ledger::Ledger;
use tl_store::StoreFault;

/// Reads what a ledger has stored of an epoch that is sealed, as `read_epoch` does. The ledger stays as it is, and stores what comes; only if the rows can't
/// be read, it is shut.
pub fn read_stored_epoch<S: Store>(
    alloc: Global,
    ledger: &mut Ledger<S>,
    epoch: u64,
) -> Result<EpochRows, StoreFault>
    requires { ledger.old.is_shut ≡ false }
    ensures rows { IfOk result (λ r. IsClean (S.Store.view ledger.new.store) → (c : Contents) → Holds (S.Store.view ledger.old.store).committed c → IsMarked c ledger.old.marks
        → AreEpochRows c epoch r) }
    ensures open { OnOk result (ledger.new.is_shut ≡ false) }
    ensures stored { OnOk result (IsClean (S.Store.view ledger.new.store) → (S.Store.view ledger.new.store).committed ≡ (S.Store.view ledger.old.store).committed) }
    ensures marks { ledger.new.marks ≡ ledger.old.marks }
    ensures quiet { IsQuiet S.Store.view S.Store.faults S.Store.recovers S.Store.is_shielded ledger.old.store ledger.new.store }
{
    ledger.is_shut = true;
    let rows = read_epoch(alloc, &mut ledger.store, &ledger.marks, epoch)?;
    ledger.is_shut = false;
    Ok(rows)
}
