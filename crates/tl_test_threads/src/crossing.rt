//! Two calls that a gate makes cross: each is held in the middle of its turns until the other one has gone on.

use std::alloc::Global;
use std::process::Abort;
use std::sync::Wait;
use std::test::Fail;
use std::thread::Threads;
use tl_table::Receipt;
use tl_test_data::{FORK, LOOK};
use tl_test_engines::{
    Asked, Crossing, Ended, Point, batch, with_engine_on_threads, with_one_session,
};
use tl_tree_locking::Event;
use tl_workers::{Engine, Refusal, Session};

/// How often two calls cross.
const RUNS: u32 = 20;

/// Locks, frees and ends, each with its call: call 1 locks, frees and ends while call 0 holds its node.
const CROSSED: [(char, u32); 6] = [('l', 0), ('l', 1), ('f', 1), ('d', 1), ('f', 0), ('d', 0)];

/// A lock, a free or an end, with its call; None for any other event.
fn told(event: &Event) -> Option<(char, u32)> {
    match *event {
        Event::Admit { .. } => None,
        Event::Lock { call, .. } => Some(('l', call)),
        Event::Free { call, .. } => Some(('f', call)),
        Event::Done { call } => Some(('d', call)),
    }
}

/// Checks that the calls have crossed.
fn crossed(rt: &impl Abort, ended: &Ended) {
    let mut left = CROSSED.as_slice();
    for event in ended.events() {
        if let Some(step) = told(event) {
            let Some((next, later)) = left.split_first() else {
                assert!(rt; false, "a step more");
                return;
            };
            assert_eq!(rt; step, *next);
            left = later;
        }
    }
    assert!(rt; left.is_empty());
}

/// Checks that a look at that node of the fork finds ten times its number.
fn found(rt: &impl Abort, node: i64, answer: &Result<Receipt, Refusal>) {
    let Ok(receipt) = answer else {
        assert!(rt; false, "a look is refused");
        return;
    };
    assert_eq!(rt; receipt.args.as_slice(), [node].as_slice());
    assert_eq!(rt;
        receipt.reply.as_slice(),
        [node.saturating_mul(10)].as_slice()
    );
}

/// Looks at nodes 1 and 2.
const LOOKED: [Asked<'static>; 2] = [(1, "look", &[1]), (1, "look", &[2])];

/// Makes two looks cross at the gate in a batch of this session.
fn cross_in_a_batch<R: Threads + Wait + Abort + Sync>(
    rt: &R,
    alloc: Global,
    engine: &Engine,
    session: &mut Session,
    gate: &Crossing,
) -> Result<(), Fail> {
    let answers = batch(rt, alloc, engine, session, &LOOKED, 2, gate)?;
    assert!(rt; gate.came_in_time());
    assert_eq!(rt; answers.len(), 2);
    found(rt, 1, &answers[0]);
    found(rt, 2, &answers[1]);
    Ok(())
}

/// The same, and so many threads stay to help. With none the batch starts one.
fn cross_with_members<R: Threads + Wait + Abort + Sync>(
    rt: &R,
    alloc: Global,
    engine: &Engine,
    session: &mut Session,
    point: Point,
    members: usize,
) -> Result<(), Fail> {
    let gate = Crossing::new(point);
    let assists = || engine.assist(rt, &gate);
    engine.crew().with_members(rt, members, &assists, || {
        cross_in_a_batch(rt, alloc, engine, session, &gate)
    })
}

/// Two workers of a new engine run one look each. So many threads stay to help.
fn two_workers_cross<R: Threads + Wait + Abort + Sync>(
    rt: &R,
    alloc: Global,
    point: Point,
    members: usize,
) -> Result<(), Fail> {
    with_one_session(
        rt,
        alloc,
        FORK,
        &[("look", LOOK)],
        |engine, session| cross_with_members(rt, alloc, engine, session, point, members),
        |_, ended| {
            crossed(rt, ended);
            Ok(())
        },
    )
}

#[test]
fn a_gate_shows_two_workers(rt: HostRuntime) -> Result<(), Fail> {
    for _ in 0..RUNS {
        two_workers_cross(&rt, rt.alloc(), Point::Pass, 0)?;
    }
    Ok(())
}

#[test]
fn a_gate_shows_local_parts_of_two_workers(rt: HostRuntime) -> Result<(), Fail> {
    for _ in 0..RUNS {
        two_workers_cross(&rt, rt.alloc(), Point::Ready, 0)?;
    }
    Ok(())
}

#[test]
fn a_gate_shows_local_parts_of_a_batch_and_a_thread_that_stays(
    rt: HostRuntime,
) -> Result<(), Fail> {
    for _ in 0..RUNS {
        two_workers_cross(&rt, rt.alloc(), Point::Ready, 1)?;
    }
    Ok(())
}

/// Looks at the node on this thread.
fn look(
    rt: &(impl Wait + Abort),
    alloc: Global,
    engine: &Engine,
    session: &mut Session,
    node: i64,
    gate: &Crossing,
) {
    let answer = engine.call(rt, alloc, session, "look", &[node], gate);
    found(rt, node, &answer);
}

/// Two threads ask a new engine for one look each.
fn two_calls_cross<R: Threads + Wait + Abort + Sync>(
    rt: &R,
    alloc: Global,
    point: Point,
) -> Result<(), Fail> {
    let gate = Crossing::new(point);
    with_engine_on_threads(
        rt,
        alloc,
        FORK,
        &[("look", LOOK)],
        |engine, session| look(rt, alloc, engine, session, 1, &gate),
        |engine, session| look(rt, alloc, engine, session, 2, &gate),
        |_, _, ended| {
            assert!(rt; gate.came_in_time());
            crossed(rt, ended);
            Ok(())
        },
    )
}

#[test]
fn a_gate_shows_two_calls_on_threads(rt: HostRuntime) -> Result<(), Fail> {
    for _ in 0..RUNS {
        two_calls_cross(&rt, rt.alloc(), Point::Pass)?;
    }
    Ok(())
}

#[test]
fn a_gate_shows_local_parts_of_two_calls(rt: HostRuntime) -> Result<(), Fail> {
    for _ in 0..RUNS {
        two_calls_cross(&rt, rt.alloc(), Point::Ready)?;
    }
    Ok(())
}
