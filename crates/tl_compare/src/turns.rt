// The turns of an epoch.

ghost use Rattle.std.specs.Prelude.{◌≡◌, map, pos, All, IfOk, OnOk, IfErr};
ghost use Rattle.tl_tree_locking.specs.History.{caller};
ghost use Rattle.tl_rows.specs.Rows.{IsTurnRow};
ghost use Rattle.tl_store.specs.declared.fault.StoreFault.TheVariants.{Memory};
ghost use Rattle.tl_compare.specs.Epochs.{AreTurnsOf};

use crate::numbers::are_same_calls;
use std::alloc::{AllocError, Global};
use tl_core::Core;
use tl_ledger::{TURN, TurnRow};
use tl_store::{StoreFault, turns_of};
use tl_tree_locking::Event;

// The call that took the turn.
fn caller(event: &Event) -> u32
    ensures { result ≡ caller event.now }
{
    match *event {
        Event::Admit { call }
        | Event::Lock { call, .. }
        | Event::Free { call, .. }
        | Event::Done { call } => call,
    }
}

// The calls that took the turns, in their order.
fn callers(alloc: Global, events: &[Event]) -> Result<Vec<u32>, AllocError>
    ensures { IfOk result (λ v. v.items ≡ map caller events.now) }
{
    events.iter().map(|event| caller(event)).collect(alloc)
}

/// Checks that the rows are those of the turns that the calls took. 1003 and the table if they aren't.
pub(crate) fn check_turns(
    alloc: Global,
    core: &Core,
    epoch: u64,
    rows: &[TurnRow],
) -> Result<(), StoreFault>
    ensures same { OnOk result (AreTurnsOf core.now.seen epoch rows.now) }
    ensures again { AreTurnsOf core.now.seen epoch rows.now → All (IsTurnRow (pos epoch)) rows.now → IfErr result (λ e. e ≡ Memory) }
{
    // Each turn is of a call that was admitted.
    core.lemma_is_reached();
    let turns = turns_of(alloc, epoch, rows)?;
    let callers = callers(alloc, core.history().events())?;
    if are_same_calls(turns.as_slice(), callers.as_slice()) {
        Ok(())
    } else {
        Err(StoreFault::BadRow { table: TURN })
    }
}
