//! Engines on one node: what sessions keep, and which sessions an engine closes with.

use std::alloc::Global;
use std::process::Abort;
use std::sync::Wait;
use std::test::Fail;
use std::thread::Threads;
use tl_procedures::{NamedProcedure, NamingFault};
use tl_table::{Receipt, Table};
use tl_test_data::{ADD, ONE_NODE, procedure_of};
use tl_test_engines::{
    Ended, batch, with_engine_on_threads, with_exchanged_sessions, with_one_session,
};
use tl_workers::{Did, Engine, NoGate, Refusal, Session};

/// The procedure `add`, on a node whose field 0 is 5.
const PROCEDURES: [(&str, &str); 1] = [("add", ADD)];

/// Checks that field 0 of the node's record is `sum`, and that its other fields are 0.
fn ends_at(rt: &impl Abort, ended: &Ended, sum: i64) {
    assert_eq!(rt; ended.records(), [[sum, 0, 0, 0, 0, 0, 0, 0]].as_slice());
}

// ---- one session

/// The sum of the values in the receipts: each call of a batch found what another one left.
fn sum(answers: &[Result<Receipt, Refusal>]) -> i64 {
    let mut sum: i64 = 0;
    for answer in answers {
        if let Ok(receipt) = answer {
            for value in &receipt.reply {
                sum = sum.saturating_add(*value);
            }
        }
    }
    sum
}

/// A call, and then a batch of four.
fn five_calls<R: Threads + Wait + Abort + Sync>(
    rt: &R,
    alloc: Global,
    engine: &Engine,
    session: &mut Session,
) -> Result<(), Fail> {
    let first = engine.call(rt, alloc, session, "add", &[0, 1], &NoGate)?;
    assert_eq!(rt; first.reply.as_slice(), [6].as_slice());
    let answers = batch(
        rt,
        alloc,
        engine,
        session,
        &[(4, "add", &[0, 1])],
        2,
        &NoGate,
    )?;
    assert_eq!(rt; sum(&answers), 34);
    assert_eq!(rt; session.len(), 10);
    Ok(())
}

#[test]
fn calls_and_a_batch_are_kept_by_their_session(rt: HostRuntime) -> Result<(), Fail> {
    with_one_session(
        &rt,
        rt.alloc(),
        ONE_NODE,
        &PROCEDURES,
        |engine, session| five_calls(&rt, rt.alloc(), engine, session),
        |_, ended| {
            ends_at(&rt, ended, 10);
            Ok(())
        },
    )
}

// ---- several procedures at once

/// Procedures with these names, each of which adds to a node.
fn named(alloc: Global, names: &[&str]) -> Result<Vec<NamedProcedure>, Fail> {
    let mut all = Vec::new(alloc);
    for name in names {
        let procedure = procedure_of(alloc, ADD)?;
        all.push(NamedProcedure::new(String::from_str(alloc, name)?, procedure))?;
    }
    Ok(all)
}

/// The second of two names is taken, so neither procedure is there; then two names are free.
fn all_or_none<R: Threads + Wait + Abort + Sync>(
    rt: &R,
    alloc: Global,
    engine: &Engine,
    session: &mut Session,
) -> Result<(), Fail> {
    let refused = engine.register_all(rt, alloc, named(alloc, &["first", "add"])?);
    assert_eq!(rt; refused, Err(NamingFault::NameTaken));
    let unknown = engine.call(rt, alloc, session, "first", &[0, 1], &NoGate);
    assert!(rt; unknown.is_err());
    engine.register_all(rt, alloc, named(alloc, &["first", "second"])?)?;
    let call = engine.call(rt, alloc, session, "first", &[0, 1], &NoGate)?;
    assert_eq!(rt; call.reply.as_slice(), [6].as_slice());
    let call = engine.call(rt, alloc, session, "second", &[0, 2], &NoGate)?;
    assert_eq!(rt; call.reply.as_slice(), [8].as_slice());
    Ok(())
}

#[test]
fn several_procedures_are_registered_or_none(rt: HostRuntime) -> Result<(), Fail> {
    with_one_session(
        &rt,
        rt.alloc(),
        ONE_NODE,
        &PROCEDURES,
        |engine, session| all_or_none(&rt, rt.alloc(), engine, session),
        |_, ended| {
            ends_at(&rt, ended, 8);
            Ok(())
        },
    )
}

// ---- a session of another engine

/// Checks that the table has one call, with these arguments.
fn has_one_call(rt: &impl Abort, table: &Table, given: &[i64]) {
    assert_eq!(rt; table.core().calls(), 1);
    let (_, args) = table.core().request(0);
    assert_eq!(rt; args, given);
}

#[test]
fn an_engine_closes_with_its_own_sessions_alone(rt: HostRuntime) -> Result<(), Fail> {
    with_exchanged_sessions(
        &rt,
        rt.alloc(),
        ONE_NODE,
        &PROCEDURES,
        |own, session, other, other_session| {
            own.call(&rt, rt.alloc(), session, "add", &[0, 1], &NoGate)?;
            other.call(&rt, rt.alloc(), other_session, "add", &[0, 2], &NoGate)?;
            Ok(())
        },
        |own, other| {
            has_one_call(&rt, own, &[0, 1]);
            has_one_call(&rt, other, &[0, 2]);
            Ok(())
        },
    )
}

// ---- two sessions on threads of their own

/// Asks for a hundred calls, one after another. Each finds more than the one before.
fn a_hundred_calls(
    rt: &(impl Wait + Abort),
    alloc: Global,
    engine: &Engine,
    session: &mut Session,
) {
    let mut last = 5;
    for _ in 0..100 {
        let answer = engine.call(rt, alloc, session, "add", &[0, 1], &NoGate);
        last = found_more(rt, last, &answer);
    }
}

/// The sum that the call left, which must be more than `last`.
fn found_more(rt: &impl Abort, last: i64, answer: &Result<Receipt, Refusal>) -> i64 {
    let Ok(receipt) = answer else {
        assert!(rt; false, "a call is refused");
        return last;
    };
    let [found] = receipt.reply.as_slice() else {
        assert!(rt; false, "not one value");
        return last;
    };
    assert!(rt; *found > last);
    *found
}

/// Checks that the session asked for a hundred calls, and that each of its receipts stands.
fn stand(rt: &impl Abort, ended: &Ended, session: &Session) {
    assert_eq!(rt; session.len(), 200);
    for i in 0..session.len() {
        if let Did::Got(receipt) = session.entry(i) {
            assert!(rt; ended.stands(&receipt));
        }
    }
}

fn all_stand(rt: &impl Abort, ended: &Ended) {
    assert_eq!(rt; ended.sessions().len(), 2);
    for session in ended.sessions() {
        stand(rt, ended, session);
    }
    ends_at(rt, ended, 205);
}

#[test]
fn two_sessions_ask_on_threads_of_their_own(rt: HostRuntime) -> Result<(), Fail> {
    with_engine_on_threads(
        &rt,
        rt.alloc(),
        ONE_NODE,
        &PROCEDURES,
        |engine, session| a_hundred_calls(&rt, rt.alloc(), engine, session),
        |engine, session| a_hundred_calls(&rt, rt.alloc(), engine, session),
        |_, _, ended| {
            all_stand(&rt, ended);
            Ok(())
        },
    )
}
