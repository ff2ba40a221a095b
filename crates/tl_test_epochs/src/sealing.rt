//! Engines that seal their epochs by themselves: for a full epoch, for a history without room, and for a seal that was asked for while a call
//! was open.

use std::alloc::Global;
use std::process::Abort;
use std::sync::Wait;
use std::test::Fail;
use std::thread;
use std::thread::Threads;
use tl_core::CoreFault;
use tl_history::{MAX_CALLS, MAX_EVENTS};
use tl_table::{Receipt, TableFault};
use tl_test_data::{ADD, ONE_NODE, QUO};
use tl_test_engines::{Asked, Ended, batch, done, with_engine_that_seals, with_two_generations};
use tl_workers::{Engine, NoGate, Refusal, Session};

/// The receipt is of that call of that epoch.
fn is_of(rt: &impl Abort, answer: &Result<Receipt, Refusal>, epoch: u32, call: u32) {
    let Ok(receipt) = answer else {
        assert!(rt; false, "a call is refused");
        return;
    };
    assert_eq!(rt; (receipt.epoch, receipt.call), (epoch, call));
}

// ---- many sessions

/// More sessions than calls may be open.
const SESSIONS: usize = 70;

/// How many calls each session asks for.
const CALLS: usize = 200;

/// No call is refused.
fn ask_often(rt: &(impl Wait + Abort), alloc: Global, engine: &Engine, session: &mut Session) {
    for _ in 0..CALLS {
        let answer = engine.call(rt, alloc, session, "quo", &[6, 3], &NoGate);
        assert!(rt; answer.is_ok());
    }
}

/// Each epoch but the last is full.
fn are_full(rt: &impl Abort, ended: &Ended) {
    let all = SESSIONS * CALLS;
    let epochs = all / MAX_CALLS + 1;
    assert_eq!(rt; ended.epochs(), epochs);
    for epoch in 0..epochs - 1 {
        assert_eq!(rt; ended.order_in(epoch).len(), MAX_CALLS);
    }
    assert_eq!(rt; ended.order_in(epochs - 1).len(), all % MAX_CALLS);
}

#[test]
fn many_sessions_fill_epochs(rt: HostRuntime) -> Result<(), Fail> {
    with_engine_that_seals(
        &rt,
        rt.alloc(),
        ONE_NODE,
        &[("quo", QUO)],
        MAX_EVENTS,
        SESSIONS,
        |engine, sessions| {
            thread::for_each_mut(
                &rt,
                sessions,
                SESSIONS,
                &|_, session: &mut Session| { ask_often(&rt, rt.alloc(), engine, session) },
            );
            Ok(())
        },
        |(), ended| {
            are_full(&rt, ended);
            Ok(())
        },
    )
}

// ---- a batch

/// The rest of an epoch, and some calls more.
const MANY: [Asked<'static>; 1] = [(256, "quo", &[6, 3])];

/// How many calls stand in the epoch before the batch.
const BEFORE: u32 = 4_000;

/// A batch goes on in the next epoch.
fn cross<R: Threads + Wait + Abort + Sync>(
    rt: &R,
    alloc: Global,
    engine: &Engine,
    session: &mut Session,
) {
    for call in 0..BEFORE {
        let answer = engine.call(rt, alloc, session, "quo", &[6, 3], &NoGate);
        is_of(rt, &answer, 0, call);
    }
    let Ok(answers) = batch(rt, alloc, engine, session, &MANY, 2, &NoGate) else {
        assert!(rt; false, "a batch is refused");
        return;
    };
    assert_eq!(rt; done(&answers), 256);
    assert_eq!(rt; answers.len(), 256);
    is_of(rt, &answers[95], 0, 4_095);
    is_of(rt, &answers[96], 1, 0);
    is_of(rt, &answers[255], 1, 159);
    assert_eq!(rt; engine.seal(rt, alloc), Ok(1));
}

#[test]
fn a_batch_goes_on_in_the_next_epoch(rt: HostRuntime) -> Result<(), Fail> {
    with_engine_that_seals(
        &rt,
        rt.alloc(),
        ONE_NODE,
        &[("quo", QUO)],
        MAX_EVENTS,
        1,
        |engine, sessions| {
            for session in sessions {
                cross(&rt, rt.alloc(), engine, session);
            }
            Ok(())
        },
        |(), ended| {
            assert_eq!(rt; ended.epochs(), 3);
            Ok(())
        },
    )
}

// ---- a history without room

/// Each call of `add` may need four events, so that two have room; then the epoch is sealed.
fn two_an_epoch(rt: &(impl Wait + Abort), alloc: Global, engine: &Engine, session: &mut Session) {
    for (epoch, call) in [(0, 0), (0, 1), (1, 0), (1, 1), (2, 0)] {
        let answer = engine.call(rt, alloc, session, "add", &[0, 1], &NoGate);
        is_of(rt, &answer, epoch, call);
    }
}

#[test]
fn a_history_without_room_is_sealed(rt: HostRuntime) -> Result<(), Fail> {
    with_engine_that_seals(
        &rt,
        rt.alloc(),
        ONE_NODE,
        &[("add", ADD)],
        8,
        1,
        |engine, sessions| {
            for session in sessions {
                two_an_epoch(&rt, rt.alloc(), engine, session);
            }
            Ok(())
        },
        |(), ended| {
            assert_eq!(rt; ended.epochs(), 3);
            Ok(())
        },
    )
}

/// A call that no epoch has room for is refused each time, and nothing is sealed for it.
fn never(rt: &(impl Wait + Abort), alloc: Global, engine: &Engine, session: &mut Session) {
    for _ in 0..300 {
        let answer = engine.call(rt, alloc, session, "add", &[0, 1], &NoGate);
        let Err(refusal) = answer else {
            assert!(rt; false, "a call was admitted");
            return;
        };
        assert_eq!(rt;
            refusal,
            Refusal::Table(TableFault::Core(CoreFault::HistoryFull))
        );
    }
}

#[test]
fn no_epoch_has_room(rt: HostRuntime) -> Result<(), Fail> {
    with_engine_that_seals(
        &rt,
        rt.alloc(),
        ONE_NODE,
        &[("add", ADD)],
        3,
        1,
        |engine, sessions| {
            for session in sessions {
                never(&rt, rt.alloc(), engine, session);
            }
            Ok(())
        },
        |(), ended| {
            assert_eq!(rt; ended.epochs(), 1);
            Ok(())
        },
    )
}

// ---- one engine after another

/// Adds 1, and seals.
fn add_and_seal(rt: &(impl Wait + Abort), alloc: Global, engine: &Engine, session: &mut Session) {
    let answer = engine.call(rt, alloc, session, "add", &[0, 1], &NoGate);
    is_of(rt, &answer, 0, 0);
    assert_eq!(rt; engine.seal(rt, alloc), Ok(0));
    let answer = engine.call(rt, alloc, session, "add", &[0, 1], &NoGate);
    is_of(rt, &answer, 1, 0);
}

#[test]
fn the_next_engine_takes_up_what_was_left(rt: HostRuntime) -> Result<(), Fail> {
    with_two_generations(
        &rt,
        rt.alloc(),
        ONE_NODE,
        &[("add", ADD)],
        |engine, session| add_and_seal(&rt, rt.alloc(), engine, session),
        |first, second, ended| {
            assert_eq!(rt; first, (true, false));
            assert_eq!(rt; second, (true, false));
            assert_eq!(rt; ended.records(), [[9, 0, 0, 0, 0, 0, 0, 0]].as_slice());
            Ok(())
        },
    )
}
