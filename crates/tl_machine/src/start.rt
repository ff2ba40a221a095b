// The start of a call.

ghost use Rattle.std.specs.Prelude.{◌≡◌, ◌↔◌, length, IsOk, IfOk};
ghost use Rattle.tl_machine.specs.BetweenSteps.{IsBetweenSteps};
ghost use Rattle.tl_machine.specs.Outcomes.{IsStart};

use crate::call::CallState;
use crate::fault::WrongArgs;
use tl_budget::{MAX_DEPTH, MAX_EMITS};
use tl_instr::{NODE_REGISTERS, VALUE_REGISTERS};
use tl_tree::Shape;
use tl_verify::Proc;

/// The state of a call at its start: the arguments are in the first registers, and everything else is 0 or empty.
#[inline(always)]
pub fn at_start(procedure: &Proc, shape: &Shape, args: &[i64]) -> CallState
    requires { length args.now ≡ procedure.now.arity }
    ensures start { IsStart args.now result }
    ensures stands { IsBetweenSteps procedure.now.instrs shape.now result }
{
    // The code was accepted.
    let _fact = procedure.code();
    let mut values = [0; VALUE_REGISTERS];
    values[..args.len()].copy_from_slice(args);
    CallState {
        position: 0,
        is_over: false,
        emit_count: 0,
        steps: 0,
        node_count: shape.node_count(),
        counters: [0; MAX_DEPTH],
        values,
        nodes: [None; NODE_REGISTERS],
        emitted: [0; MAX_EMITS],
    }
}

/// The same for any arguments; 501 if their number isn't what the procedure takes.
pub fn start(procedure: &Proc, shape: &Shape, args: &[i64]) -> Result<CallState, WrongArgs>
    ensures wrong { IsOk result ↔ (length args.now ≡ procedure.now.arity) }
    ensures start { IfOk result (IsStart args.now) }
    ensures stands { IfOk result (IsBetweenSteps procedure.now.instrs shape.now) }
{
    if !procedure.takes(args) {
        return Err(WrongArgs);
    }
    Ok(at_start(procedure, shape, args))
}
