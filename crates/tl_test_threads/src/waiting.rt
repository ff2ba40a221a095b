//! Calls that wait: for a node that another call holds, and for a place among the open calls.

use std::alloc::Global;
use std::process::Abort;
use std::sync::Wait;
use std::sync::atomic::{AtomicU64, Ordering};
use std::test::Fail;
use std::thread;
use std::thread::Threads;
use tl_core::CoreFault;
use tl_table::TableFault;
use tl_test_data::{FORK, LOOK};
use tl_test_engines::{
    Asked, Ended, Signal, batch, done, with_engine_on_threads, with_one_session,
};
use tl_workers::{Engine, Gate, NoGate, Refusal, Session};

const PROCEDURES: [(&str, &str); 1] = [("look", LOOK)];

// ---- for a node

/// How often two calls meet at most, until one of them is seen to wait.
const MEETINGS: u32 = 500;

/// How often call 0 yields while call 1 asks for its node.
const YIELDS: u32 = 1_000;

/// How many turns a look has: one up to its lock, one up to its free, and the rest.
const TURNS: u64 = 3;

/// Holds call 1 before its first turn until call 0 has its node, and holds call 0 there until call 1 is about to ask for the node.
/// Counts the turns of call 1.
#[derive(Drop)]
struct Meeting {
    has_locked: Signal,
    is_asking: Signal,
    turns: AtomicU64,
}

impl Meeting {
    fn new() -> Meeting {
        Meeting {
            has_locked: Signal::new(),
            is_asking: Signal::new(),
            turns: AtomicU64::new(0),
        }
    }

    // Call 0 has its node. No gate is told that call 1 has asked in vain, so call 1 is given some time.
    fn keep_node(&self) {
        self.has_locked.tell();
        self.is_asking.wait();
        for _ in 0..YIELDS {
            thread::yield_now();
        }
    }
}

impl Gate for Meeting {
    fn pass(&self, call: u32, turn: u64) {
        match (call, turn) {
            (1, 1) => self.has_locked.wait(),
            (0, 2) => self.keep_node(),
            _ => {}
        }
        if call == 1 {
            self.turns.fetch_add(1, Ordering::SeqCst);
        }
    }

    fn ready(&self, call: u32, turn: u64) {
        if (call, turn) == (1, 1) {
            self.is_asking.tell();
        }
    }

    fn answered(&self, _call: u32) {}
}

/// Two looks at one node.
const MET: [Asked<'static>; 1] = [(2, "look", &[1])];

/// Two looks at one node in a batch of this session. Returns how many turns call 1 had.
fn meet<R: Threads + Wait + Abort + Sync>(
    rt: &R,
    alloc: Global,
    engine: &Engine,
    session: &mut Session,
) -> Result<u64, Fail> {
    let gate = Meeting::new();
    let answers = batch(rt, alloc, engine, session, &MET, 2, &gate)?;
    assert_eq!(rt; done(&answers), 2);
    assert!(rt; gate.has_locked.came_in_time() && gate.is_asking.came_in_time());
    Ok(gate.turns.load(Ordering::SeqCst))
}

#[test]
fn a_turn_that_was_blocked_counts(rt: HostRuntime) -> Result<(), Fail> {
    let mut turns = TURNS;
    for _ in 0..MEETINGS {
        turns = with_one_session(
            &rt,
            rt.alloc(),
            FORK,
            &PROCEDURES,
            |engine, session| meet(&rt, rt.alloc(), engine, session),
            |turns, _| Ok(turns),
        )?;
        if turns != TURNS {
            break;
        }
    }
    assert_eq!(rt; turns, TURNS + 1);
    Ok(())
}

// ---- for a place

/// As many calls as may be open.
const OPEN: [Asked<'static>; 1] = [(64, "look", &[1])];

/// One call more.
const MORE: [Asked<'static>; 1] = [(1, "look", &[2])];

/// Holds call 0 before its first turn until it may go on.
#[derive(Drop)]
struct Holding {
    are_open: Signal,
    may_go_on: Signal,
}

impl Gate for Holding {
    fn pass(&self, call: u32, turn: u64) {
        if (call, turn) == (0, 1) {
            self.are_open.tell();
            self.may_go_on.wait();
        }
    }

    fn answered(&self, _call: u32) {}
}

/// A batch of one worker. Its first call is held while all its other calls are open too.
fn hold_all<R: Threads + Wait + Abort + Sync>(
    rt: &R,
    alloc: Global,
    engine: &Engine,
    session: &mut Session,
    gate: &Holding,
) {
    let Ok(answers) = batch(rt, alloc, engine, session, &OPEN, 1, gate) else {
        assert!(rt; false, "a batch is refused");
        return;
    };
    assert_eq!(rt; done(&answers), 64);
}

/// A request of another session, which has no unfinished call and for whose call there is no place.
fn ask_for_more<R: Threads + Wait + Abort + Sync>(
    rt: &R,
    alloc: Global,
    engine: &Engine,
    session: &mut Session,
    gate: &Holding,
) {
    gate.are_open.wait();
    let Ok(answers) = batch(rt, alloc, engine, session, &MORE, 1, &NoGate) else {
        assert!(rt; false, "a batch is refused");
        return;
    };
    let [answer] = answers.as_slice() else {
        assert!(rt; false, "not one answer");
        return;
    };
    let full = Refusal::Table(TableFault::Core(CoreFault::TooManyOpen));
    assert!(rt; matches!(answer, Err(refusal) if *refusal == full));
    gate.may_go_on.tell();
}

/// Checks that all calls are of the first session.
fn are_all_of_the_first(rt: &impl Abort, ended: &Ended) -> Result<(), Fail> {
    assert_eq!(rt; ended.order().len(), 64);
    let [one, other] = ended.sessions() else {
        return Err("not two sessions".into());
    };
    assert_eq!(rt; one.len(), 128);
    assert!(rt; other.is_empty());
    Ok(())
}

#[test]
fn a_batch_without_open_calls_does_not_wait_for_a_place(rt: HostRuntime) -> Result<(), Fail> {
    let gate = Holding {
        are_open: Signal::new(),
        may_go_on: Signal::new(),
    };
    with_engine_on_threads(
        &rt,
        rt.alloc(),
        FORK,
        &PROCEDURES,
        |engine, session| hold_all(&rt, rt.alloc(), engine, session, &gate),
        |engine, session| ask_for_more(&rt, rt.alloc(), engine, session, &gate),
        |_, _, ended| {
            assert!(rt; gate.are_open.came_in_time() && gate.may_go_on.came_in_time());
            are_all_of_the_first(&rt, ended)
        },
    )
}
