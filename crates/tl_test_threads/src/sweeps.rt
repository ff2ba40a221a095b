//! Calls that go down the same path. Each adds to every record on the way.

use std::alloc::Global;
use std::process::Abort;
use std::sync::Wait;
use std::test::Fail;
use std::thread::Threads;
use tl_core::CoreFault;
use tl_table::{Receipt, TableFault};
use tl_test_data::SWEEP;
use tl_test_engines::{Asked, Ended, batch, done, with_engine_on_threads, with_one_session};
use tl_workers::{Engine, NoGate, Refusal, Session};

/// How often two calls sweep at once.
const RUNS: u32 = 20;

/// A root with a child that has a child.
const PATH: &str =
    "{\"parents\":[0,0,1],\"records\":[[0,0,0,0,0,0,0,0],[0,0,0,0,0,0,0,0],[0,0,0,0,0,0,0,0]]}";

const PROCEDURES: [(&str, &str); 1] = [("sweep", SWEEP)];

/// Checks that field 0 of each of the three records is `sum`.
fn swept(rt: &impl Abort, ended: &Ended, sum: i64) {
    assert_eq!(rt; ended.records(), [[sum, 0, 0, 0, 0, 0, 0, 0]; 3].as_slice());
    assert_eq!(rt; ended.order(), ended.audited());
}

// ---- two calls

/// Sweeps that add 1 and 10.
const TWO: [Asked<'static>; 2] = [(1, "sweep", &[1]), (1, "sweep", &[10])];

/// Checks that the answer is a receipt with an empty reply.
fn says_nothing(rt: &impl Abort, answer: &Result<Receipt, Refusal>) {
    let Ok(receipt) = answer else {
        assert!(rt; false, "a sweep is refused");
        return;
    };
    assert!(rt; receipt.reply.is_empty());
}

fn sweep_twice<R: Threads + Wait + Abort + Sync>(
    rt: &R,
    alloc: Global,
    engine: &Engine,
    session: &mut Session,
) -> Result<(), Fail> {
    let answers = batch(rt, alloc, engine, session, &TWO, 2, &NoGate)?;
    assert_eq!(rt; answers.len(), 2);
    for answer in &answers {
        says_nothing(rt, answer);
    }
    Ok(())
}

fn swept_twice(rt: &impl Abort, ended: &Ended) {
    swept(rt, ended, 11);
    let order = ended.order();
    assert!(rt; order == [0, 1].as_slice() || order == [1, 0].as_slice());
}

#[test]
fn two_calls_sweep_at_once(rt: HostRuntime) -> Result<(), Fail> {
    for _ in 0..RUNS {
        with_one_session(
            &rt,
            rt.alloc(),
            PATH,
            &PROCEDURES,
            |engine, session| sweep_twice(&rt, rt.alloc(), engine, session),
            |_, ended| {
                swept_twice(&rt, ended);
                Ok(())
            },
        )?;
    }
    Ok(())
}

// ---- many calls and workers

/// More sweeps than may be open. The last two requests are refused.
const MANY: [Asked<'static>; 3] = [
    (250, "sweep", &[1]),
    (1, "none", &[1]),
    (1, "sweep", &[1, 2]),
];

fn refused(rt: &impl Abort, answer: &Result<Receipt, Refusal>, fault: CoreFault) {
    let Err(refusal) = answer else {
        assert!(rt; false, "a call was admitted");
        return;
    };
    assert_eq!(rt; *refusal, Refusal::Table(TableFault::Core(fault)));
}

fn sweep_often<R: Threads + Wait + Abort + Sync>(
    rt: &R,
    alloc: Global,
    engine: &Engine,
    session: &mut Session,
    workers: usize,
) -> Result<(), Fail> {
    let answers = batch(rt, alloc, engine, session, &MANY, workers, &NoGate)?;
    assert_eq!(rt; answers.len(), 252);
    assert_eq!(rt; done(&answers), 250);
    refused(rt, &answers[250], CoreFault::NoProcedure);
    refused(rt, &answers[251], CoreFault::WrongArgs);
    assert_eq!(rt; session.len(), 500);
    Ok(())
}

#[test]
fn many_workers_sweep(rt: HostRuntime) -> Result<(), Fail> {
    for workers in 1..17 {
        with_one_session(
            &rt,
            rt.alloc(),
            PATH,
            &PROCEDURES,
            |engine, session| sweep_often(&rt, rt.alloc(), engine, session, workers),
            |_, ended| {
                swept(&rt, ended, 250);
                Ok(())
            },
        )?;
    }
    Ok(())
}

// ---- two batches

/// A hundred sweeps.
const HUNDRED: [Asked<'static>; 1] = [(100, "sweep", &[1])];

/// Runs a batch of sweeps, and returns how many were done.
fn sweep_in_turn<R: Threads + Wait + Abort + Sync>(
    rt: &R,
    alloc: Global,
    engine: &Engine,
    session: &mut Session,
) -> i64 {
    let Ok(answers) = batch(rt, alloc, engine, session, &HUNDRED, 3, &NoGate) else {
        assert!(rt; false, "a batch is refused");
        return 0;
    };
    done(&answers)
}

/// Checks that the records show the sweeps of two batches at once: `first` and `second`. At least those of one batch were done,
/// since a request is refused only while 64 calls of the other batch are open.
fn swept_in_two_batches(rt: &impl Abort, ended: &Ended, first: i64, second: i64) {
    let sum = first.saturating_add(second);
    assert!(rt; sum >= 100);
    swept(rt, ended, sum);
}

#[test]
fn two_batches_sweep_at_once(rt: HostRuntime) -> Result<(), Fail> {
    for _ in 0..RUNS {
        with_engine_on_threads(
            &rt,
            rt.alloc(),
            PATH,
            &PROCEDURES,
            |engine, session| sweep_in_turn(&rt, rt.alloc(), engine, session),
            |engine, session| sweep_in_turn(&rt, rt.alloc(), engine, session),
            |first, second, ended| {
                swept_in_two_batches(&rt, ended, first, second);
                Ok(())
            },
        )?;
    }
    Ok(())
}
