// How a server begins on a store that is there.

ghost use Rattle.std.specs.Prelude.{◌≡◌, ◌≤◌, false, IfOk, IfErr};
ghost use Rattle.sqlite_trees.specs.View.{IsClean, IsQuiet, doubt};
ghost use Rattle.tl_core.specs.Cores.{CoreValue};
ghost use Rattle.tl_core.specs.Reached.{IsReached};
ghost use Rattle.tl_ledger.specs.Contents.{Contents, Holds, IsAtRest};
ghost use Rattle.tl_ledger.specs.News.{IsMarked};
ghost use Rattle.tl_store.specs.Faults.{IsDiskOrMemory};
ghost use Rattle.tl_store.specs.Recovered.{IsRebuilt};
ghost use Rattle.tl_store.specs.Stored.{AreFewRows};
ghost use Rattle.tl_store_laws.specs.Growing.{IsLedgerOf};
ghost use Rattle.tl_store_commands.specs.Beginning.{IsClosed, IsOfSize, Resumes, TakesUp};

use crate::beginning::Beginning;
use sqlite_trees::store::Store;
use std::alloc::Global;
use tl_core::Core;
use tl_ledger::Ledger;
use tl_store::{StoreFault, Stored, closing_news, read_stored, rebuild};

/// What was taken again of the epoch that wasn't sealed: its number, how many calls there are, and how many of them ended only now.
#[derive(Clone, Copy, Debug, PartialEq, Eq)]
pub struct Retaken {
    pub epoch: u64,
    pub calls: usize,
    pub ended: usize,
}

// Stores what came when the calls were taken again, with the seal of their epoch. Where there are no calls nothing is stored.
fn close<S: Store + Drop>(
    alloc: Global,
    ledger: Ledger<S>,
    stored: &Stored,
    core: &Core,
) -> Result<Ledger<S>, StoreFault>
    requires rebuilt { IsRebuilt stored.now core.now.seen }
    requires open { ledger.is_shut ≡ false }
    ensures open { IfOk result (λ now. now.is_shut ≡ false) }
    ensures stored { IfOk result (λ now. IsClean (S.Store.view now.store) → (c : Contents) → IsMarked c ledger.marks → Holds (S.Store.view ledger.store).committed c
        → (after : Contents) × IsClosed stored.now core.now.seen c after × Holds (S.Store.view now.store).committed after × IsMarked after now.marks) }
    ensures clean { IfOk result (λ now. doubt (S.Store.view ledger.store).is_clean ≤ doubt (S.Store.view now.store).is_clean) }
    ensures again { AreFewRows stored.now.marks → IfErr result IsDiskOrMemory }
{
    if stored.calls.is_empty() {
        return Ok(ledger);
    }
    let mut ledger = ledger;
    let news = closing_news(alloc, stored, core)?;
    match ledger.commit(&news) {
        Ok(()) => Ok(ledger),
        Err(name) => Err(StoreFault::of_disk(name)),
    }
}

// What was taken again of these rows.
fn count_retaken(stored: &Stored) -> Retaken {
    Retaken {
        epoch: stored.marks.seals,
        calls: stored.calls.len(),
        ended: stored.calls.len().saturating_sub(stored.replies.len()),
    }
}

/// Takes up what a store holds: the calls behind its last seal are taken again and end, and what that adds is stored, with the seal of
/// their epoch. The core is the one that takes over from theirs. If the rows were those of a core, that one is taken up, and the store has the rows of the
/// core that takes over, so the next start takes it up in turn. Faults as of `read_stored` and `rebuild`; 1011 to 1013 if the disk fails. Of rows of a core only
/// the disk can fail, or memory be refused: `last` is the store as it was left, of which no page was read as other than it is.
pub fn reopen_store<S: Store + Drop>(
    alloc: Global,
    store: S,
) -> Result<(Beginning<S>, Retaken), StoreFault>
    requires { IsClean (S.Store.view store) → IsAtRest (S.Store.view store) }
    ensures taken_up { IfOk result (λ r. IsClean (S.Store.view r.0.ledger.store) → (c : Contents) → Holds (S.Store.view store).committed c
        → TakesUp c r.0.core (S.Store.view r.0.ledger.store).committed r.0.ledger.marks) }
    ensures resumes { IfOk result (λ r. IsClean (S.Store.view r.0.ledger.store) → (c : Contents) (v : CoreValue) → Holds (S.Store.view store).committed c → IsReached v → IsLedgerOf c v
        → Resumes v r.0.core (S.Store.view r.0.ledger.store).committed r.0.ledger.marks) }
    ensures clean { IfOk result (λ r. doubt (S.Store.view store).is_clean ≤ doubt (S.Store.view r.0.ledger.store).is_clean) }
    ensures again { IfErr result (λ e. (last : S) × IsQuiet S.Store.view S.Store.faults S.Store.recovers S.Store.is_shielded store last
        × (IsClean (S.Store.view last) → (c : Contents) (v : CoreValue) → Holds (S.Store.view store).committed c → IsReached v → IsLedgerOf c v → IsOfSize c v → IsDiskOrMemory e)) }
{
    let mut store = store;
    let stored = read_stored(alloc, &mut store)?;
    let core = rebuild(alloc, &stored)?.core;
    // The store has the rows of a core that was reached, as each is.
    core.lemma_is_reached();
    let Ok(next) = core.successor(alloc) else {
        return Err(StoreFault::Memory);
    };
    let ledger = Ledger::new(alloc, store, stored.marks);
    let ledger = close(alloc, ledger, &stored, &core)?;
    Ok((Beginning { ledger, core: next }, count_retaken(&stored)))
}
