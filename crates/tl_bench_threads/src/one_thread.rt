// Calls that this thread runs one after another, without an engine.

use crate::asked::Asked;
use crate::measured::Measured;
use crate::trees::{chains, head, procedure_of};
use std::alloc::Global;
use std::rt::Clock;
use std::time::Instant;
use tl_core::{Core, Stepped};
use tl_history::MAX_CALLS;
use tl_serial::Running;
use tl_tree_locking::Action;

// The name of the procedure.
const NAME: &str = "call";

// A core on the tree, with the container's procedure, that keeps its order up to date.
fn running(alloc: Global, container: &[u8], asked: &Asked) -> Option<Running> {
    let procedure = procedure_of(alloc, container)?;
    let core = Core::new(alloc, chains(alloc, asked.nodes, asked.chain)?).ok()?;
    let mut running = Running::new(alloc, core).ok()?;
    match running.add_proc(alloc, NAME, procedure) {
        Ok(_) => Some(running),
        Err(_) => None,
    }
}

// The arguments of the calls.
fn args(alloc: Global, asked: &Asked) -> Option<Vec<i64>> {
    let mut args = Vec::with_capacity(alloc, MAX_CALLS).ok()?;
    for call in 0..MAX_CALLS {
        args.push(head(call, asked)?).ok()?;
    }
    Some(args)
}

// Runs a call to its end. None if it was refused.
fn run_call(alloc: Global, running: &mut Running, arg: i64) -> Option<()> {
    let call = running.admit(alloc, NAME, &[arg]).ok()?;
    for _part in 0..u64::MAX {
        match running.proceed(call).ok()? {
            Stepped::Moved {
                action: Action::End,
            }
            | Stepped::Over => return Some(()),
            _ => {}
        }
    }
    None
}

// Runs the calls, and returns how long that took.
fn run_calls(rt: &impl Clock, alloc: Global, running: &mut Running, args: &[i64]) -> Option<u64> {
    let begin = Instant::now(rt).ok()?;
    for arg in args {
        run_call(alloc, running, *arg)?;
    }
    let passed = begin.elapsed(rt).ok()?;
    u64::try_from(passed.as_nanos()).ok()
}

/// The measurements of the calls of all cores. None if memory or a call was refused.
pub fn measure(
    rt: &impl Clock,
    alloc: Global,
    container: &[u8],
    asked: &Asked,
) -> Option<Measured> {
    let args = args(alloc, asked)?;
    let mut measured = Measured::none();
    for _ in 0..asked.engines {
        let mut running = running(alloc, container, asked)?;
        let nanos = run_calls(rt, alloc, &mut running, &args)?;
        measured.add(nanos, running.core());
    }
    Some(measured)
}
