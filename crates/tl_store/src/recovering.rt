// A core that is made again.

ghost use Rattle.std.specs.Prelude.{◌≡◌, ◌⊎◌, ◌++◌, ℕ, List, pos, map, reverse, All, IfOk, OnOk, IfErr, MatchResult};
ghost use Rattle.tl_tree_locking.specs.History.{caller, AllDone};
ghost use Rattle.tl_history.specs.declared.history.TheConstants.{MAX_EVENTS};
ghost use Rattle.tl_core.specs.Cores.{CoreValue};
ghost use Rattle.tl_core.specs.Reached.{IsReached};
ghost use Rattle.tl_recover.specs.Redriven.{Fits, GoesOn, AreTurnsTo};
ghost use Rattle.sqlite_trees.specs.View.{IsClean};
ghost use Rattle.tl_ledger.specs.Contents.{Contents, Holds, AreTables};
ghost use Rattle.tl_store.specs.declared.fault.StoreFault.TheVariants.{Memory};
ghost use Rattle.tl_store.specs.Faults.{IsOutOfMemory, IsReadFault, IsDiskOrMemory};
ghost use Rattle.tl_store.specs.Stored.{IsReadable};
ghost use Rattle.tl_store.specs.Recovered.{IsOpened, IsReplyOf, IsRebuilt, IsRecovered, IsMadeAgain, AreOfCore, IsStoreOf};

use crate::calls::requests_of;
use crate::fault::StoreFault;
use crate::procedures::procedures_of;
use crate::replies::check_replies;
use crate::stored::{Stored, read_stored};
use crate::tree::tree_of;
use crate::turns::turns_of;
use sqlite_trees::store::Store;
use std::alloc::Global;
use tl_core::Core;
use tl_history::MAX_EVENTS;
use tl_ledger::Marks;
use tl_procedures::Request;
use tl_recover::{finish, redrive};

/// A core that was made again, at rest.
#[derive(Debug, Drop)]
pub struct Recovered {
    pub core: Core,
    /// How many rows the store's tables have.
    pub marks: Marks,
    /// How many of the core's turns are stored.
    pub turns: usize,
}

// The core of the stored tree and procedures, before any call.
fn opened(alloc: Global, stored: &Stored) -> Result<Core, StoreFault>
    ensures opened { IfOk result (λ core. IsOpened stored.now core.seen) }
    ensures limit { IfOk result (λ core. core.seen.limit ≡ MAX_EVENTS) }
    ensures again { (v : CoreValue) → IsReached v → AreOfCore stored.now v
        → MatchResult result (λ core. (core.seen.parents ≡ v.parents) × (core.seen.procedures ≡ v.procedures)) (λ e. e ≡ Memory) }
{
    let procedures = procedures_of(alloc, stored.procedures.as_slice())?;
    let tree = tree_of(alloc, stored.nodes.as_slice(), stored.records.as_slice())?;
    match Core::with_procedures(alloc, tree, procedures, MAX_EVENTS) {
        Ok(core) => Ok(core),
        Err(_) => Err(StoreFault::Memory),
    }
}

// Lets the calls of these requests take these turns, lets them end, and compares the stored replies with theirs.
fn drive(
    alloc: Global,
    core: &mut Core,
    stored: &Stored,
    requests: &[Request],
    turns: &[u32],
) -> Result<(), StoreFault>
    ensures later { OnOk result ((later : List ℕ) × (map caller core.new.seen.past ≡ later ++ (reverse turns.now ++ map caller core.old.seen.past))) }
    ensures fits { Fits core.old.seen requests.now → OnOk result (Fits core.new.seen requests.now) }
    ensures goes_on { OnOk result (GoesOn core.old.seen core.new.seen) }
    ensures done { OnOk result (AllDone core.new.seen.past) }
    ensures replies { OnOk result (All (IsReplyOf core.new.seen (pos stored.now.marks.seals)) stored.now.replies.items) }
    ensures again { (v : CoreValue) → AreTurnsTo v core.old.seen requests.now turns.now → All (IsReplyOf v (pos stored.now.marks.seals)) stored.now.replies.items
        → IfErr result IsOutOfMemory }
    ensures same { (v : CoreValue) → AreTurnsTo v core.old.seen requests.now turns.now → OnOk result (IsMadeAgain v core.new.seen) }
{
    redrive(alloc, core, requests, turns)?;
    finish(core);
    // Nothing came to the calls that had ended before.
    core.lemma_is_reached();
    check_replies(alloc, core, stored.marks.seals, stored.replies.as_slice())?;
    Ok(())
}

/// Makes the core again that the rows are of, and lets its calls end. Its calls are those that are stored, in the order of their turns; each stored
/// reply is that of its call. 1003 and the table if a row has another form; 1004 or 1005 and the turn, or the core's refusal of a call, if the calls
/// can't take the stored turns; 1006 and the call if a stored reply isn't that of the call; 1090 if memory is refused. If the rows are those of a core,
/// only memory can be refused, and the core is that one, at the end of its calls.
pub fn rebuild(alloc: Global, stored: &Stored) -> Result<Recovered, StoreFault>
    ensures rebuilt { IfOk result (λ r. IsRebuilt stored.now r.core.seen) }
    ensures again { (v : CoreValue) → IsReached v → AreOfCore stored.now v → IfErr result IsOutOfMemory }
    ensures same { (v : CoreValue) → IsReached v → AreOfCore stored.now v → IfOk result (λ r. IsMadeAgain v r.core.seen) }
{
    let requests = requests_of(alloc, stored.marks.seals, stored.calls.as_slice())?;
    let turns = turns_of(alloc, stored.marks.seals, stored.turns.as_slice())?;
    let mut core = opened(alloc, stored)?;
    match drive(
        alloc,
        &mut core,
        stored,
        requests.as_slice(),
        turns.as_slice(),
    ) {
        Ok(()) => Ok(Recovered {
            core,
            marks: stored.marks,
            turns: turns.len(),
        }),
        Err(fault) => Err(fault),
    }
}

/// Makes the core again that a store holds behind its last seal, and lets its calls end. Faults as of `read_stored` and `rebuild`. If the rows there are
/// those of a core, only the disk can fail, memory be refused, or a row have another form, which none has of contents that can be read; and the core is that
/// one, at the end of its calls.
pub fn recover<S: Store>(alloc: Global, store: &mut S) -> Result<Recovered, StoreFault>
    requires { IsClean (S.Store.view store.old) → AreTables (S.Store.view store.old) }
    ensures recovered { IfOk result (λ r. IsClean (S.Store.view store.new) → (c : Contents) → Holds (S.Store.view store.old).trees c → IsRecovered c r.core.seen) }
    ensures again { IfErr result (λ e. IsClean (S.Store.view store.new) → (c : Contents) (v : CoreValue) → Holds (S.Store.view store.old).trees c → IsReached v → IsStoreOf c v
        → IsReadFault e ⊎ IsOutOfMemory e) }
    ensures readable { IfErr result (λ e. IsClean (S.Store.view store.new) → (c : Contents) (v : CoreValue) → Holds (S.Store.view store.old).trees c → IsReadable c → IsReached v → IsStoreOf c v
        → IsDiskOrMemory e) }
    ensures same { IfOk result (λ r. IsClean (S.Store.view store.new) → (c : Contents) (v : CoreValue) → Holds (S.Store.view store.old).trees c → IsReached v → IsStoreOf c v
        → IsMadeAgain v r.core.seen) }
{
    let stored = read_stored(alloc, store)?;
    rebuild(alloc, &stored)
}
