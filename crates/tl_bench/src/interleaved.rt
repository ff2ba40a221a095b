// Many calls, stepped in turn.

ghost use Rattle.std.specs.Prelude.{◌≡◌, ◌<◌, ◌≤◌, All, length};

use crate::clock::now;
use crate::digest::{mix_core, mix_order, mix_records};
use crate::measured::Measured;
use crate::trees::{procedure_of, tree_of};
use std::alloc::Global;
use tl_core::{Core, Stepped};
use tl_record::trail_of;
use tl_serial::{Running, replay};
use tl_serial_order::Order;
use tl_trail::{Trail, write_trail};

// How many calls are open at a time.
const OPEN: usize = 64;

// The procedure's name, which is part of the trail.
const NAME: &str = "call";

// A call that may still have a step.
#[derive(Clone, Copy, Drop)]
struct Open {
    call: u32,
    is_over: bool,
}

// Admits calls and steps them.
trait Steps {
    fn admit_call(&mut self, alloc: Global, arg: i64) -> Option<u32>;

    fn step_call(&mut self, call: u32) -> Option<Stepped>;
}

impl Steps for Core {
    fn admit_call(&mut self, alloc: Global, arg: i64) -> Option<u32> {
        self.admit(alloc, NAME, &[arg]).ok()
    }

    #[inline(always)]
    fn step_call(&mut self, call: u32) -> Option<Stepped> {
        self.step(call).ok()
    }
}

impl Steps for Running {
    fn admit_call(&mut self, alloc: Global, arg: i64) -> Option<u32> {
        self.admit(alloc, NAME, &[arg]).ok()
    }

    #[inline(always)]
    fn step_call(&mut self, call: u32) -> Option<Stepped> {
        self.step(call).ok()
    }
}

// Asks each call that isn't over for a step, in rising order. Returns how many were asked.
fn step_round<S: Steps>(stepper: &mut S, open: &mut [Open]) -> Option<u64> {
    let mut asked = 0u64;
    for one in open.iter_mut() {
        if !one.is_over {
            asked = asked.wrapping_add(1);
            let stepped = stepper.step_call(one.call)?;
            one.is_over = matches!(stepped, Stepped::Over);
        }
    }
    Some(asked)
}

// Runs rounds until all calls are over. Returns how many steps were asked for.
fn step_all<S: Steps>(stepper: &mut S, open: &mut [Open]) -> Option<u64> {
    let mut all = 0u64;
    for _round in 0..u64::MAX {
        let asked = step_round(stepper, open)?;
        if asked == 0 {
            return Some(all);
        }
        all = all.wrapping_add(asked);
    }
    None
}

// How long the admissions and the steps took.
#[derive(Clone, Copy, Drop)]
struct Took {
    admitting: u64,
    stepping: u64,
}

// Admits a call for each argument.
fn admit_group<S: Steps>(
    alloc: Global,
    stepper: &mut S,
    args: &[i64],
    open: &mut Vec<Open>,
) -> Option<()> {
    for arg in args {
        let call = stepper.admit_call(alloc, *arg)?;
        open.push(Open {
            call,
            is_over: false,
        })
        .ok()?;
    }
    Some(())
}

// Calls of the procedure, one for each argument, `OPEN` at a time.
fn run_groups<S: Steps>(
    alloc: Global,
    stepper: &mut S,
    args: &[i64],
    nanos: &mut [u64],
    steps: &mut [u64],
) -> Option<Took> {
    let mut took = Took {
        admitting: 0,
        stepping: 0,
    };
    let mut open = Vec::with_capacity(alloc, OPEN).ok()?;
    for (group, some) in args.chunks(OPEN).enumerate() {
        open.clear();
        let begin = now();
        admit_group(alloc, stepper, some, &mut open)?;
        let between = now();
        let asked = step_all(stepper, &mut open)?;
        let passed = now().wrapping_sub(between);
        took.admitting = took.admitting.wrapping_add(between.wrapping_sub(begin));
        took.stepping = took.stepping.wrapping_add(passed);
        if group < nanos.len() && group < steps.len() {
            nanos[group] = passed;
            steps[group] = asked;
        }
    }
    Some(took)
}

fn core_of(alloc: Global, code: &[u8], parents: &[u32]) -> Option<Core> {
    let procedure = procedure_of(alloc, code)?;
    let mut core = Core::new(alloc, tree_of(alloc, parents)?).ok()?;
    core.add_proc(alloc, NAME, procedure).ok()?;
    Some(core)
}

// The measured time and count, and a number that depends on all results of the core.
fn measured_of(nanos: u64, count: usize, core: &Core) -> Measured {
    let mut measured = Measured::none();
    measured.nanos = nanos;
    measured.count = count as u64;
    mix_core(core, &mut measured);
    measured
}

fn interleaved(
    alloc: Global,
    code: &[u8],
    parents: &[u32],
    args: &[i64],
    nanos: &mut [u64],
    steps: &mut [u64],
) -> Option<Measured> {
    let mut core = core_of(alloc, code, parents)?;
    interleave(alloc, &mut core, args, nanos, steps)
}

// A function that owns a core has one way out: each is another place where it is proved how the core is dropped.
fn interleave(
    alloc: Global,
    core: &mut Core,
    args: &[i64],
    nanos: &mut [u64],
    steps: &mut [u64],
) -> Option<Measured> {
    let took = run_groups(alloc, core, args, nanos, steps)?;
    Some(measured_of(took.stepping, core.history().len(), core))
}

/// Calls of the container's procedure, one for each argument, on the tree with these parents, 64 at a time in turn. For each group
/// of 64 calls, `nanos` gets the time of its steps and `steps` their number. The count is the number of events. The events, the
/// replies and the records at the end are mixed.
#[unsafe(no_mangle)]
pub extern "C" fn treedb_interleave(
    alloc: Global,
    code: &[u8],
    parents: &[u32],
    args: &[i64],
    nanos: &mut [u64],
    steps: &mut [u64],
) -> Measured {
    Measured::or_refused(interleaved(alloc, code, parents, args, nanos, steps))
}

fn admitted(alloc: Global, code: &[u8], parents: &[u32], args: &[i64]) -> Option<Measured> {
    let mut core = core_of(alloc, code, parents)?;
    admit_all(alloc, &mut core, args)
}

fn admit_all(alloc: Global, core: &mut Core, args: &[i64]) -> Option<Measured> {
    let took = run_groups(alloc, core, args, &mut [], &mut [])?;
    Some(measured_of(took.admitting, core.calls(), core))
}

/// The same calls. The time is that of the admissions, and the count is the number of calls.
#[unsafe(no_mangle)]
pub extern "C" fn treedb_admit(
    alloc: Global,
    code: &[u8],
    parents: &[u32],
    args: &[i64],
) -> Measured {
    Measured::or_refused(admitted(alloc, code, parents, args))
}

// A core that keeps its order up to date, after these calls.
fn running_of(
    alloc: Global,
    code: &[u8],
    parents: &[u32],
    args: &[i64],
) -> Option<(Running, Took)> {
    let mut running = Running::new(alloc, core_of(alloc, code, parents)?).ok()?;
    match run_groups(alloc, &mut running, args, &mut [], &mut []) {
        Some(took) => Some((running, took)),
        None => None,
    }
}

fn kept(alloc: Global, code: &[u8], parents: &[u32], args: &[i64]) -> Option<Measured> {
    let (running, took) = running_of(alloc, code, parents, args)?;
    let mut measured = Measured::none();
    mix_order(running.order(), &mut measured);
    measured.nanos = took.stepping;
    measured.count = running.core().history().len() as u64;
    mix_core(running.core(), &mut measured);
    Some(measured)
}

/// The same calls, with the order kept up to date. The count is the number of events, and the calls of the order are mixed too.
#[unsafe(no_mangle)]
pub extern "C" fn treedb_keep(
    alloc: Global,
    code: &[u8],
    parents: &[u32],
    args: &[i64],
) -> Measured {
    Measured::or_refused(kept(alloc, code, parents, args))
}

fn replayed(alloc: Global, code: &[u8], parents: &[u32], args: &[i64]) -> Option<Measured> {
    let (running, _) = running_of(alloc, code, parents, args)?;
    replay_all(alloc, &running)
}

fn replay_all(alloc: Global, running: &Running) -> Option<Measured> {
    let order = running.conclude(alloc).ok()?;
    replay_along(alloc, running.core(), &order)
}

// The order is one of calls of that core.
fn replay_along(alloc: Global, core: &Core, order: &Order) -> Option<Measured>
    requires { All (λ c. c < length core.now.seen.calls) order.now.calls }
{
    let mut measured = Measured::none();
    measured.add_count(core.calls() as u64);
    let begin = now();
    let (tree, replies) = replay(alloc, order, core).ok()?;
    measured.add_since(begin);
    for reply in &replies {
        measured.mix_all(reply.values());
    }
    mix_records(tree.records(), &mut measured);
    Some(measured)
}

/// The same calls, which then run again alone along their order. The time is that of the second run. The count is the number of
/// calls, and the replies and the records at the end are mixed.
#[unsafe(no_mangle)]
pub extern "C" fn treedb_replay(
    alloc: Global,
    code: &[u8],
    parents: &[u32],
    args: &[i64],
) -> Measured {
    Measured::or_refused(replayed(alloc, code, parents, args))
}

fn sealed(alloc: Global, code: &[u8], parents: &[u32], args: &[i64]) -> Option<Measured> {
    let (mut running, _) = running_of(alloc, code, parents, args)?;
    seal(alloc, &mut running)
}

fn seal(alloc: Global, running: &mut Running) -> Option<Measured> {
    let mut measured = Measured::none();
    measured.add_count(1);
    let begin = now();
    let next = running.successor(alloc).ok()?;
    running.cut_history();
    measured.add_since(begin);
    mix_core(running.core(), &mut measured);
    mix_core(next.core(), &mut measured);
    Some(measured)
}

/// The same calls, and then what a table does at a seal. The time is that of the seal, and the count is 1. The results of the calls
/// and of the core that takes over are mixed.
#[unsafe(no_mangle)]
pub extern "C" fn treedb_seal(
    alloc: Global,
    code: &[u8],
    parents: &[u32],
    args: &[i64],
) -> Measured {
    Measured::or_refused(sealed(alloc, code, parents, args))
}

fn blocked(alloc: Global, code: &[u8], times: u32) -> Option<Measured> {
    let mut core = core_of(alloc, code, &[0])?;
    block(alloc, &mut core, times)
}

fn block(alloc: Global, core: &mut Core, times: u32) -> Option<Measured> {
    let first = core.admit(alloc, NAME, &[0]).ok()?;
    let second = core.admit(alloc, NAME, &[0]).ok()?;
    core.step(first).ok()?;
    let mut measured = Measured::none();
    let begin = now();
    for _time in 0..times {
        if let Ok(Stepped::Blocked { node, holder }) = core.step(second) {
            measured.mix(u64::from(node));
            measured.mix(u64::from(holder));
        }
    }
    measured.add_since(begin);
    measured.add_count(u64::from(times));
    Some(measured)
}

/// Two calls of the container's procedure, whose first instruction locks a node. The second call is asked for its lock `times`
/// times while the first one holds the node. The node and its holder are mixed.
#[unsafe(no_mangle)]
pub extern "C" fn treedb_block(alloc: Global, code: &[u8], times: u32) -> Measured {
    Measured::or_refused(blocked(alloc, code, times))
}

fn told(
    alloc: Global,
    code: &[u8],
    parents: &[u32],
    args: &[i64],
    text: &mut [u8],
) -> Option<Measured> {
    let mut core = core_of(alloc, code, parents)?;
    tell(alloc, &mut core, args, text)
}

fn tell(alloc: Global, core: &mut Core, args: &[i64], text: &mut [u8]) -> Option<Measured> {
    run_groups(alloc, core, args, &mut [], &mut [])?;
    let trail = trail_of(alloc, core).ok()?;
    put_trail(alloc, &trail, text)
}

fn put_trail(alloc: Global, trail: &Trail, text: &mut [u8]) -> Option<Measured> {
    let written = write_trail(alloc, trail).ok()?;
    let bytes = written.as_bytes();
    text.get_mut(..bytes.len())?.copy_from_slice(bytes);
    let mut measured = Measured::none();
    measured.add_count(bytes.len() as u64);
    Some(measured)
}

/// The same calls, and then the text of their trail, which is written at the head of `text`. The count is the number of its bytes.
/// The work is refused if the text is longer than `text`.
#[unsafe(no_mangle)]
pub extern "C" fn treedb_tell(
    alloc: Global,
    code: &[u8],
    parents: &[u32],
    args: &[i64],
    text: &mut [u8],
) -> Measured {
    Measured::or_refused(told(alloc, code, parents, args, text))
}
