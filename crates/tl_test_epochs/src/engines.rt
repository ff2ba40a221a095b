//! Engines that are sealed: by their only session, by two sessions at once, and in the middle of a batch.

use std::alloc::Global;
use std::process::Abort;
use std::sync::Wait;
use std::test::Fail;
use std::thread::Threads;
use tl_core::CoreFault;
use tl_history::MAX_CALLS;
use tl_table::{Receipt, TableFault};
use tl_test_data::{FORK, LOOK, ONE_NODE, QUO};
use tl_test_engines::{
    Asked, Ended, Signal, batch, done, with_engine_on_threads, with_one_session,
};
use tl_workers::{Engine, Gate, NoGate, Refusal, Session};

/// The refusal of a call.
fn refused(rt: &impl Abort, answer: &Result<Receipt, Refusal>, fault: CoreFault) {
    let Err(refusal) = answer else {
        assert!(rt; false, "a call was admitted");
        return;
    };
    assert_eq!(rt; *refusal, Refusal::Table(TableFault::Core(fault)));
}

/// The receipt is of call `call` of epoch `epoch`, and its reply has one value.
fn is_of(rt: &impl Abort, answer: &Result<Receipt, Refusal>, epoch: u32, call: u32, value: i64) {
    let Ok(receipt) = answer else {
        assert!(rt; false, "a call is refused");
        return;
    };
    assert_eq!(rt; (receipt.epoch, receipt.call), (epoch, call));
    assert_eq!(rt; receipt.reply.as_slice(), [value].as_slice());
}

// ---- a full epoch

/// As many calls as an epoch may have, one that is refused, a seal, and the next call.
fn fill<R: Wait + Abort>(
    rt: &R,
    alloc: Global,
    engine: &Engine,
    session: &mut Session,
) -> Result<(), Fail> {
    for call in 0..MAX_CALLS as u32 {
        let answer = engine.call(rt, alloc, session, "quo", &[6, 3], &NoGate);
        is_of(rt, &answer, 0, call, 2);
    }
    let answer = engine.call(rt, alloc, session, "quo", &[6, 3], &NoGate);
    refused(rt, &answer, CoreFault::TooManyCalls);
    assert_eq!(rt; engine.seal(rt, alloc), Ok(0));
    let answer = engine.call(rt, alloc, session, "quo", &[6, 3], &NoGate);
    is_of(rt, &answer, 1, 0, 2);
    Ok(())
}

#[test]
fn a_full_epoch_is_sealed(rt: HostRuntime) -> Result<(), Fail> {
    with_one_session(
        &rt,
        rt.alloc(),
        ONE_NODE,
        &[("quo", QUO)],
        |engine, session| fill(&rt, rt.alloc(), engine, session),
        |(), ended| {
            assert_eq!(rt; ended.epochs(), 2);
            assert_eq!(rt; ended.order_in(0).len(), MAX_CALLS);
            assert_eq!(rt; ended.order_in(1), [0].as_slice());
            Ok(())
        },
    )
}

// ---- a batch over two epochs

/// Looks at node 1: one more than may be open.
const LOOKS: [Asked<'static>; 1] = [(65, "look", &[1])];

/// One more look, by another session.
const ONE: [Asked<'static>; 1] = [(1, "look", &[2])];

/// Holds the first call of a batch, which the batch's own thread runs because too many are open, until the other session's thread
/// has run all others. Then it holds the batch's thread until the other one has sealed the epoch.
#[derive(Drop)]
struct Holding {
    is_full: Signal,
    others_are_done: Signal,
    is_at_rest: Signal,
    was_sealed: Signal,
}

impl Holding {
    fn new() -> Holding {
        Holding {
            is_full: Signal::new(),
            others_are_done: Signal::new(),
            is_at_rest: Signal::new(),
            was_sealed: Signal::new(),
        }
    }

    fn came_in_time(&self) -> bool {
        self.is_full.came_in_time()
            && self.others_are_done.came_in_time()
            && self.is_at_rest.came_in_time()
            && self.was_sealed.came_in_time()
    }
}

impl Gate for Holding {
    fn pass(&self, call: u32, turn: u64) {
        if (call, turn) == (0, 1) {
            self.is_full.tell();
            self.others_are_done.wait();
        }
    }

    fn answered(&self, call: u32) {
        if call == 0 {
            self.is_at_rest.tell();
            self.was_sealed.wait();
        }
    }
}

/// The last call of the batch is the first call of the second epoch.
fn look_often<R: Threads + Wait + Abort + Sync>(
    rt: &R,
    alloc: Global,
    engine: &Engine,
    session: &mut Session,
    gate: &Holding,
) {
    let Ok(answers) = batch(rt, alloc, engine, session, &LOOKS, 1, gate) else {
        assert!(rt; false, "a batch is refused");
        return;
    };
    assert_eq!(rt; done(&answers), 65);
    assert_eq!(rt; answers.len(), 65);
    is_of(rt, &answers[63], 0, 63, 10);
    is_of(rt, &answers[64], 1, 0, 10);
}

/// Asks while too many calls are open, and so runs these calls. Seals once they are done.
fn seal_between<R: Threads + Wait + Abort + Sync>(
    rt: &R,
    alloc: Global,
    engine: &Engine,
    session: &mut Session,
    gate: &Holding,
) {
    gate.is_full.wait();
    let Ok(answers) = batch(rt, alloc, engine, session, &ONE, 1, &NoGate) else {
        assert!(rt; false, "a batch is refused");
        return;
    };
    assert_eq!(rt; answers.len(), 1);
    refused(rt, &answers[0], CoreFault::TooManyOpen);
    assert_eq!(rt;
        engine.seal(rt, alloc),
        Err(Refusal::Table(TableFault::Core(CoreFault::NotAtRest { call: 0 })))
    );
    gate.others_are_done.tell();
    gate.is_at_rest.wait();
    assert_eq!(rt; engine.seal(rt, alloc), Ok(0));
    gate.was_sealed.tell();
}

fn has_looked_in_both(rt: &impl Abort, ended: &Ended) {
    assert_eq!(rt; ended.epochs(), 2);
    assert_eq!(rt; ended.order_in(0).len(), 64);
    assert_eq!(rt; ended.order_in(1), [0].as_slice());
}

#[test]
fn a_batch_is_admitted_over_two_epochs(rt: HostRuntime) -> Result<(), Fail> {
    let gate = Holding::new();
    with_engine_on_threads(
        &rt,
        rt.alloc(),
        FORK,
        &[("look", LOOK)],
        |engine, session| look_often(&rt, rt.alloc(), engine, session, &gate),
        |engine, session| seal_between(&rt, rt.alloc(), engine, session, &gate),
        |_, _, ended| {
            assert!(rt; gate.came_in_time());
            has_looked_in_both(&rt, ended);
            Ok(())
        },
    )
}

// ---- a batch that finds the next epoch full

/// As many as may be open.
const ALL: [Asked<'static>; 1] = [(64, "look", &[2])];

/// Holds the first call of the batch that fills the second epoch, until the batch that came from the first one has been answered.
#[derive(Drop)]
struct Filling {
    holding: Holding,
    has_asked: Signal,
}

impl Gate for Filling {
    fn pass(&self, call: u32, turn: u64) {
        if (call, turn) == (0, 1) {
            self.holding.was_sealed.tell();
            self.has_asked.wait();
        }
    }

    fn answered(&self, _: u32) {}
}

/// The last request of the batch finds no place, and none of the batch's calls is open: they are those of the first epoch.
fn look_too_often<R: Threads + Wait + Abort + Sync>(
    rt: &R,
    alloc: Global,
    engine: &Engine,
    session: &mut Session,
    filling: &Filling,
) {
    let Ok(answers) = batch(rt, alloc, engine, session, &LOOKS, 1, &filling.holding) else {
        assert!(rt; false, "a batch is refused");
        return;
    };
    filling.has_asked.tell();
    assert_eq!(rt; answers.len(), 65);
    assert_eq!(rt; done(&answers), 64);
    refused(rt, &answers[64], CoreFault::TooManyOpen);
}

/// Runs the calls of the first epoch, seals it, and opens as many calls in the second as may be open.
fn fill_after_a_seal<R: Threads + Wait + Abort + Sync>(
    rt: &R,
    alloc: Global,
    engine: &Engine,
    session: &mut Session,
    gate: &Filling,
) {
    gate.holding.is_full.wait();
    let Ok(answers) = batch(rt, alloc, engine, session, &ONE, 1, &NoGate) else {
        assert!(rt; false, "a batch is refused");
        return;
    };
    assert_eq!(rt; done(&answers), 0);
    gate.holding.others_are_done.tell();
    gate.holding.is_at_rest.wait();
    assert_eq!(rt; engine.seal(rt, alloc), Ok(0));
    let Ok(answers) = batch(rt, alloc, engine, session, &ALL, 1, gate) else {
        assert!(rt; false, "a batch is refused");
        return;
    };
    assert_eq!(rt; done(&answers), 64);
}

#[test]
fn a_batch_over_a_seal_finds_the_next_epoch_full(rt: HostRuntime) -> Result<(), Fail> {
    let filling = Filling {
        holding: Holding::new(),
        has_asked: Signal::new(),
    };
    with_engine_on_threads(
        &rt,
        rt.alloc(),
        FORK,
        &[("look", LOOK)],
        |engine, session| look_too_often(&rt, rt.alloc(), engine, session, &filling),
        |engine, session| fill_after_a_seal(&rt, rt.alloc(), engine, session, &filling),
        |_, _, ended| {
            assert!(rt; filling.holding.came_in_time());
            assert!(rt; filling.has_asked.came_in_time());
            assert_eq!(rt; ended.epochs(), 2);
            Ok(())
        },
    )
}

// ---- two sessions that seal at once

/// How often each session seals.
const SEALS: usize = 100;

/// Seals repeatedly: each number is higher than the one before.
fn seal_often(rt: &(impl Wait + Abort), alloc: Global, engine: &Engine) {
    let mut least = 0;
    for _ in 0..SEALS {
        let Ok(number) = engine.seal(rt, alloc) else {
            assert!(rt; false, "a seal is refused");
            return;
        };
        assert!(rt; number >= least);
        least = number.saturating_add(1);
    }
}

#[test]
fn two_sessions_seal_at_once(rt: HostRuntime) -> Result<(), Fail> {
    with_engine_on_threads(
        &rt,
        rt.alloc(),
        ONE_NODE,
        &[],
        |engine, _| seal_often(&rt, rt.alloc(), engine),
        |engine, _| seal_often(&rt, rt.alloc(), engine),
        |_, _, ended| {
            assert_eq!(rt; ended.epochs(), SEALS + SEALS + 1);
            Ok(())
        },
    )
}
