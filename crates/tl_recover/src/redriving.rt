// The turns of a core, taken again.

ghost use Rattle.std.specs.Prelude.{◌≡◌, ℕ, ◌∷◌, ◌++◌, List, map, reverse, OnOk, IfErr};
ghost use Rattle.tl_tree_locking.specs.declared.event.Event.{Event};
ghost use Rattle.tl_tree_locking.specs.History.{caller, AllDone};
ghost use Rattle.tl_procedures.specs.declared.request.Request.{Request as Asked};
ghost use Rattle.tl_core.specs.Cores.{CoreValue};
ghost use Rattle.tl_recover.specs.Faults.{out_of_memory};
ghost use Rattle.tl_recover.specs.Redriven.{Fits, GoesOn, AreTurnsTo};

use crate::fault::RecoverFault;
use std::alloc::Global;
use tl_core::{Core, Stepped};
use tl_procedures::Request;

// Lets a call take its next turn: its admission, or its instructions up to and including a lock, a free or its end.
fn take_turn(
    alloc: Global,
    core: &mut Core,
    requests: &[Request],
    turn: u32,
    call: u32,
) -> Result<(), RecoverFault>
    ensures turn { OnOk result (map caller core.new.seen.past ≡ call ∷ map caller core.old.seen.past) }
    ensures fits { Fits core.old.seen requests.now → OnOk result (Fits core.new.seen requests.now) }
    ensures goes_on { GoesOn core.old.seen core.new.seen }
    ensures again { (v : CoreValue) (later : List ℕ) → AreTurnsTo v core.old.seen requests.now (call ∷ later) → IfErr result (λ e. e ≡ out_of_memory) }
{
    // How every core came to its value: a call that took this turn in another core may take it here.
    core.lemma_is_reached();
    if call as usize == core.calls() {
        if call as usize >= requests.len() {
            return Err(RecoverFault::NoRequest { turn });
        }
        let request = &requests[call as usize];
        return match core.admit(alloc, &request.name, &request.args) {
            Ok(_) => Ok(()),
            Err(fault) => Err(RecoverFault::Core(fault)),
        };
    }
    match core.proceed(call) {
        Ok(Stepped::Moved { .. }) => Ok(()),
        Ok(Stepped::Blocked { .. }) => {
            core.lemma_is_reached();
            Err(RecoverFault::OutOfTurn { turn })
        }
        Ok(Stepped::Over) => {
            core.lemma_is_reached();
            Err(RecoverFault::OutOfTurn { turn })
        }
        // It wasn't admitted.
        Err(_) => Err(RecoverFault::OutOfTurn { turn }),
    }
}

/// Lets calls take turns, one after another. A call that wasn't admitted is admitted, by its request. Errors name the turn, counted
/// from 0: 1004 if the call's request isn't there, 1005 if the call can't take the turn or wasn't admitted; otherwise the core's refusal of an admission.
/// If requests and turns are those of a core, its calls take these turns again, and come to the same history, unless memory is refused.
pub fn redrive(
    alloc: Global,
    core: &mut Core,
    requests: &[Request],
    turns: &[u32],
) -> Result<(), RecoverFault>
    ensures turns { OnOk result (map caller core.new.seen.past ≡ reverse turns.now ++ map caller core.old.seen.past) }
    ensures fits { Fits core.old.seen requests.now → OnOk result (Fits core.new.seen requests.now) }
    ensures goes_on { GoesOn core.old.seen core.new.seen }
    ensures again { (v : CoreValue) → AreTurnsTo v core.old.seen requests.now turns.now → IfErr result (λ e. e ≡ out_of_memory) }
    ensures same { (v : CoreValue) → AreTurnsTo v core.old.seen requests.now turns.now → OnOk result (core.new.seen.past ≡ v.past) }
{
    let mut turn = 0u32;
    for call in turns {
        take_turn(alloc, core, requests, turn, *call)?;
        turn = turn.saturating_add(1);
    }
    core.lemma_is_reached();
    Ok(())
}

/// Runs the calls that are open to their ends.
pub fn finish(core: &mut Core)
    ensures done { AllDone core.new.seen.past }
    ensures begins { (more : List Event) × (core.new.seen.past ≡ more ++ core.old.seen.past) }
    ensures fits { (requests : List Asked) → Fits core.old.seen requests → Fits core.new.seen requests }
    ensures goes_on { GoesOn core.old.seen core.new.seen }
{
    for _ in 0..u64::MAX {
        let Some(call) = core.some_enabled() else {
            return;
        };
        core.lemma_is_reached();
        let Ok(_) = core.proceed(call) else {
            // It was admitted.
            unreachable!()
        };
    }
    // Each turn executes an instruction, and all budgets together are less than that.
    core.lemma_is_reached();
    core.lemma_is_sound();
    unreachable!()
}
