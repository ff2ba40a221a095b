// Calls that take turns on a core that keeps its order.

use crate::halt::Halt;
use crate::judging::{conclude, judge, print_order, print_records};
use crate::making::{procedure_of, tree_of};
use crate::seen::Seen;
use std::alloc::Global;
use tl_core::{Core, CoreFault, Stepped};
use tl_procedures::NamingFault;
use tl_serial::Running;
use tl_test_data::{ADD, BOTH, FORK, LOOK, QUO, STORE, SWEEP, TURN, WALK};

/// How often all calls are asked for, each time on the records that the earlier calls left.
const ROUNDS: u32 = 3;

/// How often each call may step: more often than any call needs.
const TURNS: u32 = 2_000;

/// The procedures, including some that aren't taken up.
const PROCEDURES: [(&str, &str); 12] = [
    ("add", ADD),
    ("both", BOTH),
    ("look", LOOK),
    ("look", ADD),
    ("quo", QUO),
    ("store", STORE),
    ("no name", STORE),
    ("sweep", SWEEP),
    ("turn", TURN),
    ("walk", WALK),
    ("look_too", LOOK),
    ("store_too", STORE),
];

/// The calls of a round, including some that aren't admitted.
const CALLS: [(&str, &[i64]); 14] = [
    ("both", &[11]),
    ("look", &[1]),
    ("store", &[2, 22]),
    ("sweep", &[3]),
    ("none", &[]),
    ("turn", &[]),
    ("walk", &[0]),
    ("add", &[1, 5]),
    ("add", &[1]),
    ("quo", &[7, 2]),
    ("look_too", &[2]),
    ("store_too", &[0, 4]),
    ("add", &[0, -1]),
    ("walk", &[2]),
];

/// Runs calls in turns, and prints each result.
pub fn run(rt: &impl Print, alloc: Global) -> Result<(), Halt> {
    let mut running = new_running(alloc)?;
    run_on(rt, alloc, &mut running)
}

fn run_on(rt: &impl Print, alloc: Global, running: &mut Running) -> Result<(), Halt> {
    register_all(rt, alloc, running)?;
    for _ in 0..ROUNDS {
        leave_unfinished(rt, alloc, running)?;
        admit_all(rt, alloc, running)?;
        step_all(rt, running)?;
        tell(rt, running)?;
        conclude(rt, alloc, running)?;
        judge(rt, alloc, running.core())?;
    }
    Ok(())
}

// Admits a call, and asks for results that exist only once it is done.
fn leave_unfinished(rt: &impl Print, alloc: Global, running: &mut Running) -> Result<(), Halt> {
    let answer = admit(alloc, running, "turn", &[])?;
    println!(rt; "turn: {answer:?}")?;
    conclude(rt, alloc, running)?;
    judge(rt, alloc, running.core())
}

fn new_running(alloc: Global) -> Result<Running, Halt> {
    if let Ok(running) = running_at_once(alloc) {
        return Ok(running);
    }
    running_at_once(alloc)
}

fn running_at_once(alloc: Global) -> Result<Running, Halt> {
    let tree = tree_of(alloc, FORK)?;
    let core = Core::new(alloc, tree).map_err(|_| Halt::Refused)?;
    Running::new(alloc, core).map_err(|_| Halt::Refused)
}

fn register_all(rt: &impl Print, alloc: Global, running: &mut Running) -> Result<(), Halt> {
    for (name, text) in PROCEDURES {
        let answer = register(alloc, running, name, text)?;
        println!(rt; "{name}: {answer:?}")?;
    }
    Ok(())
}

// If memory is refused, the core is unchanged and is asked again.
fn register(
    alloc: Global,
    running: &mut Running,
    name: &str,
    text: &str,
) -> Result<Result<u32, NamingFault>, Halt> {
    let procedure = procedure_of(alloc, text)?;
    let before = Seen::of(running.core());
    let answer = running.add_proc(alloc, name, procedure);
    if answer != Err(NamingFault::Memory) {
        return Ok(answer);
    }
    before.stands(running.core())?;
    let procedure = procedure_of(alloc, text)?;
    let answer = running.add_proc(alloc, name, procedure);
    if answer == Err(NamingFault::Memory) {
        return Err(Halt::Refused);
    }
    Ok(answer)
}

fn admit_all(rt: &impl Print, alloc: Global, running: &mut Running) -> Result<(), Halt> {
    for (name, args) in CALLS {
        let answer = admit(alloc, running, name, args)?;
        println!(rt; "{name} {args:?}: {answer:?}")?;
    }
    Ok(())
}

// If memory is refused, the core is unchanged and is asked again.
fn admit(
    alloc: Global,
    running: &mut Running,
    name: &str,
    args: &[i64],
) -> Result<Result<u32, CoreFault>, Halt> {
    let before = Seen::of(running.core());
    let answer = running.admit(alloc, name, args);
    if answer != Err(CoreFault::Memory) {
        return Ok(answer);
    }
    before.stands(running.core())?;
    let answer = running.admit(alloc, name, args);
    if answer == Err(CoreFault::Memory) {
        return Err(Halt::Refused);
    }
    Ok(answer)
}

// Lets the calls step in turn until all are done. After the last admission nothing takes memory: if the first of these lines is
// printed, so is the second.
fn step_all(rt: &impl Print, running: &mut Running) -> Result<(), Halt> {
    rt.println("all calls are admitted")?;
    let mut moved = 0u64;
    for _ in 0..TURNS {
        if running.core().some_enabled().is_none() {
            break;
        }
        moved = moved.saturating_add(step_each(running)?);
    }
    if running.core().least_unfinished().is_some() {
        return Err(Halt::Changed);
    }
    println!(rt; "all steps are done: {moved}")?;
    Ok(())
}

fn step_each(running: &mut Running) -> Result<u64, Halt> {
    let mut moved = 0u64;
    for call in 0..running.core().calls() as u32 {
        match running.step(call) {
            Ok(Stepped::Moved { action: _ }) => moved = moved.saturating_add(1),
            Ok(_) => {}
            Err(_) => return Err(Halt::Changed),
        }
    }
    Ok(moved)
}

fn tell(rt: &impl Print, running: &Running) -> Result<(), Halt> {
    Seen::of(running.core()).print(rt)?;
    print_order(rt, "kept", running.order().calls())?;
    print_records(rt, running.core().tree().records())
}
