// One call, alone on a tree.

ghost use Rattle.std.specs.Prelude.{◌≡◌, ◌↔◌, length, IsOk, IfOk, OnErr, ◌≤◌};
ghost use Rattle.std.specs.Arc.{arc_value};
ghost use Rattle.tl_budget.specs.Loops.{budget, lock_bound, emit_bound};
ghost use Rattle.tl_tree_locking.specs.Actions.{lock_count};
ghost use Rattle.tl_tree_locking.specs.Alone.{all_taken};
ghost use Rattle.tl_tree_locking.specs.Obeys.{Obeys};
ghost use Rattle.tl_machine.specs.BetweenSteps.{IsBetweenSteps, run_left};
ghost use Rattle.tl_machine.specs.Outcomes.{IsAnswer, outcome_of, meaning};
ghost use Rattle.tl_machine.specs.Alone.{alone as run_alone};

use crate::call::CallState;
use crate::fault::WrongArgs;
use crate::reply::Reply;
use crate::start::start;
use crate::want::Stop;
use std::sync::Arc;
use tl_tree::Tree;
use tl_verify::Proc;

/// The reply of a call run alone, and how many instructions it did.
#[derive(Debug, Drop)]
pub struct Answer {
    pub reply: Reply,
    pub steps: u32,
}

// Runs a call to its end, from its start.
fn run(procedure: &Proc, mut call: CallState, tree: &mut Tree) -> Answer
    requires stands { IsBetweenSteps procedure.now.instrs tree.old.parents call }
    requires steps { call.steps ≡ 0 }
    requires emits { call.emit_count ≡ 0 }
    ensures answer { IsAnswer (outcome_of (run_left procedure.now.instrs tree.old.parents call tree.old.records)) result.reply result.steps }
    ensures within { result.steps ≤ budget procedure.now.instrs }
    ensures tree { tree.new ≡ record tree.old { records = (outcome_of (run_left procedure.now.instrs tree.old.parents call tree.old.records)).tree } }
{
    loop {
        let pending = call.run_local(procedure);
        match call.stop_at(procedure, tree.shape(), pending) {
            Stop::Lock(node) => {
                let found = tree.record_at(node);
                call.lock(procedure, tree.shape(), node, found);
            }
            Stop::Free(node) => {
                let left = call.free(procedure, tree.shape());
                tree.put_at(node, left);
            }
            Stop::Return => call.finish(procedure, tree.shape()),
            Stop::Over => {
                return Answer {
                    reply: Reply::of(&call),
                    steps: call.steps,
                };
            }
        }
    }
}

/// Runs a procedure alone on a tree, from its start to its end. Takes no memory.
///
/// What it does obeys the tree protocol, and stays within the procedure's three bounds: instructions, locks, emitted
/// values.
///
/// 501 if the number of arguments isn't what the procedure takes; the tree is then unchanged.
pub fn alone(procedure: &Arc<Proc>, args: &[i64], tree: &mut Tree) -> Result<Answer, WrongArgs>
    ensures wrong { IsOk result ↔ (length args.now ≡ (arc_value procedure.now).arity) }
    ensures unchanged { OnErr result (tree.new ≡ tree.old) }
    ensures answer { IfOk result (λ a. IsAnswer (outcome_of (run_alone (arc_value procedure.now).instrs tree.old.parents args.now tree.old.records)) a.reply a.steps) }
    ensures obeys { IfOk result (λ _. Obeys tree.old.parents (meaning (arc_value procedure.now).instrs tree.old.parents args.now tree.old.records).actions) }
    ensures within { IfOk result (λ a. a.steps ≤ budget (arc_value procedure.now).instrs) }
    ensures locks { IfOk result (λ _. lock_count (all_taken (meaning (arc_value procedure.now).instrs tree.old.parents args.now tree.old.records).actions) ≤ lock_bound (arc_value procedure.now).instrs) }
    ensures emits { IfOk result (λ a. length a.reply ≤ emit_bound (arc_value procedure.now).instrs) }
    ensures tree { IfOk result (λ _. tree.new ≡ record tree.old { records = (outcome_of (run_alone (arc_value procedure.now).instrs tree.old.parents args.now tree.old.records)).tree }) }
{
    let call = start(procedure, tree.shape(), args)?;
    // The code was accepted, and the shape is a tree's.
    let _fact = procedure.code();
    let _fact = tree.shape().node_count();
    Ok(run(procedure, call, tree))
}
