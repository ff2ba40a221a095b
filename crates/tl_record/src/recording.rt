// The trail of a core.

ghost use Rattle.std.specs.Prelude.{◌≡◌, ℕ, ◌<◌, ◌≤◌, ◌↔◌, length, map, option_map, IfOk, IfErr};
ghost use Rattle.tl_tree_locking.specs.History.{AllDone};
ghost use Rattle.tl_trail.specs.Trails.{call_value};
ghost use Rattle.tl_trail.specs.Clean.{Clean};
ghost use Rattle.tl_record.specs.Recording.{told_call, trail_value, IsCoreCall};
ghost use Rattle.tl_trail.specs.declared.fault.TrailFault.{TrailFault};

use arrayvec::ArrayVec;
use std::alloc::Global;
use tl_budget::MAX_EMITS;
use tl_core::Core;
use tl_history::{History, MAX_CALLS, MAX_EVENTS};
use tl_machine::copied;
use tl_trail::{Trail, TrailCall, TrailFault};

/// What the calls of a core have done so far. An unfinished call has no reply, and the trail isn't clean; once all are
/// done, the trail is clean. 790 if memory is refused.
pub fn trail_of(alloc: Global, core: &Core) -> Result<Trail, TrailFault>
    ensures trail { IfOk result (λ t. t ≡ trail_value core.now.seen) }
    ensures clean { IfOk result (λ t. Clean t ↔ AllDone core.now.seen.past) }
    ensures err { IfErr result (λ e. e ≡ TrailFault.Memory) }
{
    // The core's world is sound, and it has at most 4,096 calls.
    core.lemma_is_sound();
    let calls = calls_of(alloc, core)?;
    let Ok(opening) = core.opening().copy(alloc) else {
        return Err(TrailFault::Memory);
    };
    let procedures = core.procedures().copy(alloc)?;
    let history = history_of(alloc, core.history())?;
    let ends = Vec::from_slice(alloc, core.tree().records())?;
    Ok(Trail::new(opening, procedures, calls, history, ends))
}

// The calls, by number.
fn calls_of(alloc: Global, core: &Core) -> Result<Vec<TrailCall>, TrailFault>
    ensures calls { IfOk result (λ calls. map call_value calls.items ≡ (trail_value core.now.seen).calls) }
    ensures each { IfOk result (λ _. (c : ℕ) → c < length core.now.seen.calls → IsCoreCall core.now.seen c) }
    ensures few { length core.now.seen.calls ≤ MAX_CALLS }
    ensures err { IfErr result (λ e. e ≡ TrailFault.Memory) }
{
    let count = core.calls();
    let mut calls = Vec::with_capacity(alloc, count)?;
    for call in 0..count as u32 {
        calls.push_reserved(call_of(core, call));
    }
    Ok(calls)
}

// The request and the reply of a call.
fn call_of(core: &Core, call: u32) -> TrailCall
    requires { call < length core.now.seen.calls }
    ensures told { call_value result ≡ told_call core.now.seen call }
    ensures of_core { IsCoreCall core.now.seen call }
{
    let (procedure, args) = core.request(call);
    // The code was accepted.
    let _fact = core.proc(procedure).code().arity();
    TrailCall {
        procedure,
        args: copied(args),
        reply: reply_of(core, call),
    }
}

// The reply of a call, once it is done.
fn reply_of(core: &Core, call: u32) -> Option<ArrayVec<i64, MAX_EMITS>>
    requires { call < length core.now.seen.calls }
    ensures { option_map (λ r. r.items) result ≡ (told_call core.now.seen call).reply }
{
    let reply = core.reply(call)?;
    Some(copied(reply.values()))
}

// The same events. There is room for them, since no history has more.
fn history_of(alloc: Global, history: &History) -> Result<History, TrailFault>
    ensures past { IfOk result (λ copy. copy.past ≡ history.now.past) }
    ensures err { IfErr result (λ e. e ≡ TrailFault.Memory) }
{
    let events = history.events();
    let mut copy = History::new(alloc, MAX_EVENTS);
    let Ok(()) = copy.reserve(alloc, events.len()) else {
        return Err(TrailFault::Memory);
    };
    for event in events {
        copy.append(*event);
    }
    Ok(copy)
}
