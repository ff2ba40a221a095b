// How a server ends on a store.

ghost use Rattle.std.specs.Prelude.{IfOk};
ghost use Rattle.sqlite_trees.specs.View.{IsClean};
ghost use Rattle.tl_ledger.specs.Contents.{Contents, Holds};
ghost use Rattle.tl_store.specs.Left.{HasLeft};

use sqlite_trees::store::Store;
use std::alloc::Global;
use tl_ledger::Ledger;
use tl_procedures::Procedures;
use tl_store::{StoreFault, check_left};
use tl_tree::Tree;

/// The same ledger, once its store has what the last engine left: all calls are sealed, and the next start takes up this tree and these
/// procedures. 1014 if it hasn't; otherwise faults as of `read_stored`, and 1011 if the ledger is shut.
pub fn end_store<S: Store + Drop>(
    alloc: Global,
    ledger: Ledger<S>,
    tree: &Tree,
    procedures: &Procedures,
) -> Result<Ledger<S>, StoreFault>
    ensures { IfOk result (λ now. IsClean (S.Store.view now.store) → (c : Contents) → Holds (S.Store.view ledger.store).trees c → HasLeft c tree.now procedures.now) }
{
    if ledger.is_shut {
        return Err(StoreFault::DiskFailed);
    }
    let marks = ledger.marks;
    let mut store = ledger.store;
    check_left(alloc, &mut store, tree, procedures)?;
    Ok(Ledger::new(alloc, store, marks))
}
