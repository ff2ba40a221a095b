// What a ledger has stored behind a position.

ghost use Rattle.std.specs.Prelude.{◌≡◌, false, true, IfOk, OnOk};
ghost use Rattle.sqlite_trees.specs.View.{IsClean, IsQuiet};
ghost use Rattle.tl_ledger.specs.Contents.{Contents, Holds};
ghost use Rattle.tl_ledger.specs.News.{IsMarked};
ghost use Rattle.tl_follow.specs.Positions.{IsUpTo, IsNext, AreBetween};

use crate::fault::FollowFault;
use crate::found::{Found, find_behind};
use sqlite_trees::store::Store;
use std::alloc::Global;
use tl_ledger::{Ledger, Marks};

/// What a ledger has stored behind a position, as `find_behind` says. The ledger stays as it is, and stores what comes; only if its own store
/// fails, it is shut.
pub fn follow_ledger<S: Store>(
    alloc: Global,
    ledger: &mut Ledger<S>,
    from: &Marks,
    records: Option<u64>,
) -> Result<Found, FollowFault>
    requires open { ledger.old.is_shut ≡ false }
    ensures order { IfOk result (λ r. IsUpTo from.now r.rows.to × IsUpTo r.rows.to ledger.old.marks) }
    ensures next { IfOk result (λ r. IsClean (S.Store.view ledger.new.store) → (c : Contents) → Holds (S.Store.view ledger.old.store).committed c
        → IsMarked c ledger.old.marks → IsNext c ledger.old.marks from.now r.rows.to) }
    ensures rows { IfOk result (λ r. IsClean (S.Store.view ledger.new.store) → (c : Contents) → Holds (S.Store.view ledger.old.store).committed c
        → IsMarked c ledger.old.marks → AreBetween c from.now r.rows.to r.rows) }
    ensures open { OnOk result (ledger.new.is_shut ≡ false) }
    ensures stored { ledger.new.is_shut ≡ false → IsClean (S.Store.view ledger.new.store)
        → (S.Store.view ledger.new.store).committed ≡ (S.Store.view ledger.old.store).committed }
    ensures marks { ledger.new.marks ≡ ledger.old.marks }
    ensures quiet { IsQuiet S.Store.view S.Store.faults S.Store.recovers S.Store.is_shielded ledger.old.store ledger.new.store }
{
    let stored = ledger.marks;
    ledger.is_shut = true;
    let found = find_behind(alloc, &mut ledger.store, &stored, from, records);
    match found {
        Ok(found) => {
            ledger.is_shut = false;
            Ok(found)
        }
        // Nothing was read.
        Err(FollowFault::NotThere) => {
            ledger.is_shut = false;
            Err(FollowFault::NotThere)
        }
        Err(FollowFault::Unread(fault)) => Err(FollowFault::Unread(fault)),
    }
}
