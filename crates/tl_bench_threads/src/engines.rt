// Engines whose batches are timed.

use crate::asked::Asked;
use crate::measured::Measured;
use crate::trees::{chains, head, procedure_of};
use std::alloc::Global;
use std::rt::Clock;
use std::sync::Wait;
use std::thread::Threads;
use std::time::Instant;
use tl_history::MAX_CALLS;
use tl_workers::{Engine, MAX_REQUESTS, MAX_WORKERS, NoGate, Request, Session};

// The requests of the calls from number `first` on.
fn requests(alloc: Global, first: usize, asked: &Asked) -> Option<Vec<Request>> {
    let mut requests = Vec::with_capacity(alloc, MAX_REQUESTS).ok()?;
    for place in 0..MAX_REQUESTS {
        let node = head(first.saturating_add(place), asked)?;
        let name = String::from_str(alloc, "call").ok()?;
        let args = Vec::from_slice(alloc, &[node]).ok()?;
        requests.push(Request { name, args }).ok()?;
    }
    Some(requests)
}

// Runs a batch. Returns how long it took, or None if a call was refused.
fn run_batch<R: Threads + Wait + Clock + Sync>(
    rt: &R,
    alloc: Global,
    engine: &Engine,
    session: &mut Session,
    requests: &[Request],
    workers: usize,
) -> Option<u64> {
    let count = requests.len();
    if count == 0 || count > MAX_REQUESTS || workers == 0 || workers > MAX_WORKERS {
        return None;
    }
    let begin = Instant::now(rt).ok()?;
    let answers = engine
        .batch(rt, alloc, session, requests, workers, &NoGate)
        .ok()?;
    let passed = begin.elapsed(rt).ok()?;
    if answers.iter().any(|answer| answer.is_err()) {
        return None;
    }
    u64::try_from(passed.as_nanos()).ok()
}

// Runs 4,096 calls of the engine in batches, and returns how long these took.
fn run_batches<R: Threads + Wait + Clock + Sync>(
    rt: &R,
    alloc: Global,
    engine: &Engine,
    session: &mut Session,
    asked: &Asked,
) -> Option<u64> {
    let mut nanos = 0u64;
    for batch in 0..MAX_CALLS / MAX_REQUESTS {
        let requests = requests(alloc, batch * MAX_REQUESTS, asked)?;
        let passed = run_batch(rt, alloc, engine, session, &requests, asked.workers)?;
        nanos = nanos.saturating_add(passed);
    }
    Some(nanos)
}

// An engine on the tree, with the container's procedure alone.
fn engine(rt: &impl Wait, alloc: Global, container: &[u8], asked: &Asked) -> Option<Engine> {
    let tree = chains(alloc, asked.nodes, asked.chain)?;
    let procedure = procedure_of(alloc, container)?;
    let engine = Engine::new(alloc, tree).ok()?;
    match engine.register(rt, alloc, "call", procedure) {
        Ok(_) => Some(engine),
        Err(_) => None,
    }
}

// Runs the batches of a new session while threads stay to help with them, and returns it alone, with the time that they took.
fn run<R: Threads + Wait + Clock + Sync>(
    rt: &R,
    alloc: Global,
    engine: &Engine,
    asked: &Asked,
) -> Option<(Vec<Session>, u64)> {
    let mut session = engine.session(rt, alloc).ok()?;
    let assists = || engine.assist(rt, &NoGate);
    let helpers = asked.workers.saturating_sub(1);
    let nanos = engine.crew().with_members(rt, helpers, &assists, || {
        run_batches(rt, alloc, engine, &mut session, asked)
    })?;
    let mut sessions = Vec::new(alloc);
    sessions.push(session).ok()?;
    Some((sessions, nanos))
}

// Closes the engine, and adds the time and the results of its calls.
fn close(
    engine: Engine,
    sessions: Vec<Session>,
    nanos: u64,
    measured: &mut Measured,
) -> Option<()> {
    match engine.close(sessions) {
        Ok((chain, _)) => {
            for closed in &chain {
                measured.add(nanos, closed.core());
            }
            Some(())
        }
        Err(_) => None,
    }
}

// Adds the measurements of the batches of an engine.
fn measure_one<R: Threads + Wait + Clock + Sync>(
    rt: &R,
    alloc: Global,
    container: &[u8],
    asked: &Asked,
    measured: &mut Measured,
) -> Option<()> {
    let engine = engine(rt, alloc, container, asked)?;
    match run(rt, alloc, &engine, asked) {
        Some((sessions, nanos)) => close(engine, sessions, nanos, measured),
        None => None,
    }
}

/// The measurements of the batches of all engines. None if memory or a call was refused.
pub fn measure<R: Threads + Wait + Clock + Sync>(
    rt: &R,
    alloc: Global,
    container: &[u8],
    asked: &Asked,
) -> Option<Measured> {
    let mut measured = Measured::none();
    for _ in 0..asked.engines {
        measure_one(rt, alloc, container, asked, &mut measured)?;
    }
    Some(measured)
}
