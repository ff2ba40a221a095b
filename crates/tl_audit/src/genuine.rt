// Checks each call against its run alone, along its own events.

ghost use Rattle.std.specs.Prelude.{◌≡◌, ◌≢◌, ◌↔◌, ◌<◌, List, ◌∷◌, ◌++◌, [], length, IsTrue, IfOk, IfSome, None, Some, true, false};
ghost use Rattle.std.specs.Arc.{arc_value};
ghost use Rattle.tl_tree.specs.Records.{Records};
ghost use Rattle.tl_tree_locking.specs.declared.action.Action.{Action};
ghost use Rattle.tl_tree_locking.specs.declared.action.Action.TheVariants as did;
ghost use Rattle.tl_tree_locking.specs.Actions.{locks_and_frees};
ghost use Rattle.tl_tree_locking.specs.Alone.{all_taken};
ghost use Rattle.tl_machine.specs.Call.{reply_so_far};
ghost use Rattle.tl_machine.specs.Runs.{Run, actions, emits_of};
ghost use Rattle.tl_machine.specs.Turns.{Stops, left_of};
ghost use Rattle.tl_machine.specs.Alone.{alone as run_alone};
ghost use Rattle.tl_trail.specs.Trails.{IsTrail, call_at, code_of};
ghost use Rattle.tl_audit.specs.Genuine.{AreFit, IsOn};

use std::alloc::AllocError;
use std::sync::Arc;
use tl_machine::{Advance, Reply, Stop, Turn};
use tl_trail::Trail;
use tl_tree::Record;

/// The call at its start.
pub(crate) fn start(trail: &Trail, call: u32) -> Result<Turn, AllocError>
    requires { call < length trail.now.calls }
    ensures trail { IsTrail trail.now }
    ensures parents { IfOk result (λ t. t.parents ≡ trail.now.parents) }
    ensures left { IfOk result (λ t. (records : Records) → left_of t records
        ≡ run_alone (code_of trail.now.procedures (call_at trail.now call)) trail.now.parents (call_at trail.now call).args records) }
    ensures reply { IfOk result (λ t. reply_so_far t.call ≡ []) }
{
    let (procedure, args) = trail.request(call);
    let procedure = Arc::try_clone(trail.procedures().get(procedure))?;
    let shape = Arc::try_clone(trail.opening().shape())?;
    match Turn::start(procedure, shape, args) {
        Ok(turn) => Ok(turn),
        Err(_) => unreachable!(),
    }
}

// Goes on until the call can't go on by itself.
fn wait(turn: &mut Turn) -> Stop
    ensures parents { turn.new.parents ≡ turn.old.parents }
    ensures stops { Stops turn.new result }
    ensures on { (t : Records) (whole : Run) (so_far : List Action) → IsOn t whole so_far turn.old → IsOn t whole so_far turn.new }
{
    loop {
        match turn.advance() {
            Advance::Did(_) => {}
            Advance::Stopped(stop) => return stop,
        }
    }
}

/// Goes on to the call's next lock or free. Whether it is a lock of the node; if so, the lock is done and finds this
/// record.
pub(crate) fn locks(turn: &mut Turn, node: u32, found: Record) -> bool
    ensures parents { turn.new.parents ≡ turn.old.parents }
    ensures on { IsTrue result → (t : Records) (whole : Run) (so_far : List Action) → AreFit t (did.Lock node found ∷ so_far)
        → IsOn t whole so_far turn.old → IsOn t whole (did.Lock node found ∷ so_far) turn.new }
    ensures other { result ≡ false → (t : Records) (whole : Run) (later so_far : List Action) → IsOn t whole so_far turn.old
        → later ++ did.Lock node found ∷ so_far ≢ locks_and_frees (all_taken (actions whole)) }
{
    let Stop::Lock(wanted) = wait(turn) else {
        return false;
    };
    if wanted != node {
        return false;
    }
    turn.lock_node(node, found);
    true
}

/// Goes on to the call's next lock or free. Whether it is a free of the node that leaves this record.
pub(crate) fn frees(turn: &mut Turn, node: u32, left: &Record) -> bool
    ensures parents { turn.new.parents ≡ turn.old.parents }
    ensures on { IsTrue result → (t : Records) (whole : Run) (so_far : List Action)
        → IsOn t whole so_far turn.old → IsOn t whole (did.Free node left.now ∷ so_far) turn.new }
    ensures other { result ≡ false → (t : Records) (whole : Run) (later so_far : List Action) → IsOn t whole so_far turn.old
        → later ++ did.Free node left.now ∷ so_far ≢ locks_and_frees (all_taken (actions whole)) }
{
    let Stop::Free(wanted) = wait(turn) else {
        return false;
    };
    wanted == node && turn.free() == *left
}

/// Goes on to the call's end: its reply, or `None` if a lock or a free comes first.
pub(crate) fn ends(turn: &mut Turn) -> Option<Reply>
    ensures so { IfSome result (λ r. (t : Records) (whole : Run) (so_far : List Action) → IsOn t whole so_far turn.old
        → (so_far ≡ locks_and_frees (all_taken (actions whole))) × (r ≡ emits_of (actions whole))) }
    ensures other { result ≡ None → (t : Records) (whole : Run) (so_far : List Action) → IsOn t whole so_far turn.old
        → so_far ≢ locks_and_frees (all_taken (actions whole)) }
{
    match wait(turn) {
        Stop::Return => Some(turn.finish()),
        _ => None,
    }
}

/// Whether the trail records this reply for the call.
pub(crate) fn replies(trail: &Trail, call: u32, reply: &Reply) -> bool
    requires { call < length trail.now.calls }
    ensures { IsTrue result ↔ ((call_at trail.now call).reply ≡ Some reply.now) }
{
    match trail.reply(call) {
        Some(answered) => answered == reply.values(),
        None => false,
    }
}
