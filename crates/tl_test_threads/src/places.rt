//! A batch that waits for a place among the open calls, although the latest of its calls has ended.

use std::alloc::Global;
use std::process::Abort;
use std::sync::Wait;
use std::test::Fail;
use std::thread;
use std::thread::Threads;
use tl_test_data::{FORK, LOOK};
use tl_test_engines::{Asked, Signal, batch, done, with_engine};
use tl_workers::{Engine, Gate, Session};

/// All places but two.
const FIRST: [Asked<'static>; 1] = [(62, "look", &[1])];

/// The two places that are left, and a request for which there is no place. Its calls are 62 and 63.
const WAITING: [Asked<'static>; 1] = [(3, "look", &[1])];

/// All places but one. Its first calls are 64 and 65.
const LATER: [Asked<'static>; 1] = [(63, "look", &[1])];

/// The signals between three batches, in this order. Each batch has one worker, which runs whichever call is ready first.
#[derive(Drop)]
struct Places {
    /// The calls of the first batch are open. It is held before it runs any of them.
    are_open: Signal,
    /// The waiting batch has its two calls, and found no place for its last request. Meanwhile it has run call 1.
    is_waiting: Signal,
    /// The first batch has run its other calls, and is held before it runs call 62: two calls are open.
    is_held: Signal,
    /// The later batch has found no place, has run call 63, and has taken its place: 64 calls are open again.
    are_full: Signal,
    /// The waiting batch has found no place again, and goes on with the calls that are ready.
    has_asked: Signal,
}

impl Places {
    fn new() -> Places {
        Places {
            are_open: Signal::new(),
            is_waiting: Signal::new(),
            is_held: Signal::new(),
            are_full: Signal::new(),
            has_asked: Signal::new(),
        }
    }

    fn came_in_time(&self) -> bool {
        self.are_open.came_in_time()
            && self.is_waiting.came_in_time()
            && self.is_held.came_in_time()
            && self.are_full.came_in_time()
            && self.has_asked.came_in_time()
    }
}

impl Gate for Places {
    fn pass(&self, call: u32, turn: u64) {
        match (call, turn) {
            (0, 1) => hold(&self.are_open, &self.is_waiting),
            (62, 1) => hold(&self.is_held, &self.has_asked),
            (64, 1) => hold(&self.are_full, &self.has_asked),
            (65, 1) => self.has_asked.tell(),
            _ => {}
        }
    }

    fn answered(&self, call: u32) {
        if call == 1 {
            hold(&self.is_waiting, &self.are_full);
        }
    }
}

/// Tells one signal, and waits for the other.
fn hold(told: &Signal, awaited: &Signal) {
    told.tell();
    awaited.wait();
}

/// Checks that all requests of a batch of one worker are done.
fn all_done<R: Threads + Wait + Abort + Sync>(
    rt: &R,
    alloc: Global,
    engine: &Engine,
    session: &mut Session,
    asked: &[Asked<'_>],
    gate: &Places,
    count: i64,
) {
    let Ok(answers) = batch(rt, alloc, engine, session, asked, 1, gate) else {
        assert!(rt; false, "a batch is refused");
        return;
    };
    assert_eq!(rt; done(&answers), count);
}

/// The three batches, each on a thread of its own.
fn at_once<R: Threads + Wait + Abort + Sync>(
    rt: &R,
    alloc: Global,
    engine: &Engine,
    one: &mut Session,
    other: &mut Session,
    third: &mut Session,
    gate: &Places,
) {
    thread::join(
        rt,
        || all_done(rt, alloc, engine, one, &FIRST, gate, 62),
        || {
            thread::join(
                rt,
                || {
                    gate.are_open.wait();
                    all_done(rt, alloc, engine, other, &WAITING, gate, 3);
                },
                || {
                    gate.is_held.wait();
                    all_done(rt, alloc, engine, third, &LATER, gate, 63);
                },
            )
        },
    );
}

fn three_batches<R: Threads + Wait + Abort + Sync>(
    rt: &R,
    alloc: Global,
    engine: &Engine,
    sessions: &mut [Session],
    gate: &Places,
) -> Result<(), Fail> {
    let [one, other, third] = sessions else {
        return Err("not three sessions".into());
    };
    at_once(rt, alloc, engine, one, other, third, gate);
    Ok(())
}

#[test]
fn a_batch_waits_for_a_place_while_any_call_of_it_is_open(rt: HostRuntime) -> Result<(), Fail> {
    let gate = Places::new();
    with_engine(
        &rt,
        rt.alloc(),
        FORK,
        &[("look", LOOK)],
        3,
        |engine, sessions| three_batches(&rt, rt.alloc(), engine, sessions, &gate),
        |(), ended| {
            assert!(rt; gate.came_in_time());
            assert_eq!(rt; ended.order().len(), 128);
            Ok(())
        },
    )
}
