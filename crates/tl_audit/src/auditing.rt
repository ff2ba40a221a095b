// Whether a trail is clean.

ghost use Rattle.std.specs.Prelude.{◌≡◌, ◌≢◌, ℕ, ◌<◌, [], length, IfOk, IfErr, OnOk};
ghost use Rattle.tl_tree_locking.specs.History.{records_now};
ghost use Rattle.tl_tree_locking.specs.Order.{placed};
ghost use Rattle.tl_trail.specs.Trails.{IsTrail};
ghost use Rattle.tl_trail.specs.Clean.{Clean, AreRight, AreDone, EndsSo};
ghost use Rattle.tl_audit.specs.Findings.{AreSo, IsFirstFault, IsFirstEventFault};
ghost use Rattle.tl_audit.specs.Replaying.{IsFollowed};
ghost use Rattle.tl_audit.specs.Verdict.{IsVerdict};
ghost use Rattle.tl_audit.specs.Watching.{Shows};

use crate::fault::AuditFault;
use crate::progress::{EVENTS_BETWEEN, Progress, Silent};
use crate::replays::Replays;
use crate::watch::Watch;
use std::alloc::Global;
use tl_serial_order::Order;
use tl_trail::Trail;
use tl_tree::Record;

/// Whether a trail is clean: the order that its events give, or the first fault.
///
/// The faults, in order: 711, 712 or 713 at the first event with a fault; then 715 at the least call without an end; then
/// call by call 714 and 717; then 716 at the least node. One pass along the events checks all of that: each open call is
/// run alone along its own events, and the least call that differs is remembered until its turn comes. The work grows with
/// the events and with the calls' steps. 790 if memory is refused.
pub fn audit(alloc: Global, trail: &Trail) -> Result<Order, AuditFault>
    ensures { IsVerdict trail.now result }
{
    audit_with(alloc, trail, &mut Silent)
}

/// The same, reporting how far it is.
pub fn audit_with<P: Progress>(
    alloc: Global,
    trail: &Trail,
    progress: &mut P,
) -> Result<Order, AuditFault>
    ensures { IsVerdict trail.now result }
{
    // What holds for every trail.
    let _fact = trail.opening();
    judge(alloc, trail, progress)
}

// Whether a trail is clean, without the consequences.
fn judge<P: Progress>(alloc: Global, trail: &Trail, progress: &mut P) -> Result<Order, AuditFault>
    ensures clean { IfOk result (λ _. Clean trail.now) }
    ensures order { IfOk result (λ o. o.calls ≡ placed trail.now.parents trail.now.past) }
    ensures fault { IfErr result (λ f. f ≢ AuditFault.Memory → IsFirstFault trail.now f) }
{
    let mut watch = Watch::new(alloc, trail.calls() as u32, trail.opening())?;
    let mut replays = Replays::new(alloc, trail.calls())?;
    see_all(alloc, &mut watch, &mut replays, trail, progress)?;
    check_done(&watch, trail)?;
    replays.check(trail)?;
    check_ends(trail, watch.records())?;
    Ok(watch.into_order())
}

// Checks all events, up to the first with a fault.
fn see_all<P: Progress>(
    alloc: Global,
    watch: &mut Watch,
    replays: &mut Replays,
    trail: &Trail,
    progress: &mut P,
) -> Result<(), AuditFault>
    requires shows { Shows trail.now.parents trail.now.opening (length trail.now.calls) watch.old [] }
    requires followed { IsFollowed trail.now [] replays.old }
    ensures shows { OnOk result (Shows trail.now.parents trail.now.opening (length trail.now.calls) watch.new trail.now.past) }
    ensures followed { OnOk result (IsFollowed trail.now trail.now.past replays.new) }
    ensures right { OnOk result (AreRight trail.now.parents trail.now.opening trail.now.past) }
    ensures fault { IfErr result (λ f. f ≢ AuditFault.Memory → IsFirstEventFault trail.now f) }
{
    let shape = trail.opening().shape();
    let events = trail.history().events();
    for (number, event) in events.iter().enumerate() {
        if number % EVENTS_BETWEEN == 0 {
            progress.seen(number, events.len());
        }
        watch.judge(shape, event, number as u32)?;
        replays.follow(alloc, trail, event)?;
        watch.note(shape, event);
    }
    Ok(())
}

// Whether each call is done, if the events are right: 715 at the least that isn't.
fn check_done(watch: &Watch, trail: &Trail) -> Result<(), AuditFault>
    requires shows { Shows trail.now.parents trail.now.opening (length trail.now.calls) watch.now trail.now.past }
    requires right { AreRight trail.now.parents trail.now.opening trail.now.past }
    ensures done { OnOk result (AreDone trail.now) }
    ensures fault { IfErr result (λ f. IsFirstFault trail.now f) }
{
    for call in 0..trail.calls() as u32 {
        if !watch.is_done(call) {
            return Err(AuditFault::Unfinished { call });
        }
    }
    Ok(())
}

// Whether the records in the end are these: 716 at the first that isn't.
fn check_ends(trail: &Trail, records: &[Record]) -> Result<(), AuditFault>
    requires records { records.now ≡ records_now trail.now.past trail.now.opening }
    requires so { AreSo trail.now (length trail.now.calls) }
    ensures ends { OnOk result ((x : ℕ) → x < length trail.now.parents → EndsSo trail.now x) }
    ensures fault { IfErr result (λ f. IsFirstFault trail.now f) }
{
    let ends = trail.ends();
    for node in 0..trail.opening().shape().node_count() {
        if ends[node as usize] != records[node as usize] {
            return Err(AuditFault::WrongEnd { node });
        }
    }
    Ok(())
}
