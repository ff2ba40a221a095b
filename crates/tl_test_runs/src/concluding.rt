//! What commands print of an engine that is closed.

use std::alloc::Global;
use std::process::Abort;
use std::sync::Wait;
use std::test::Fail;
use tl_audit::Silent;
use tl_commands::{
    CliFault, Generation, audit_cmd, close_generation, end_generation, keep_generation, open_engine,
};
use tl_generations::Succession;
use tl_test_data::{ADD, ONE_NODE};
use tl_test_engines::{end_exchanged, end_opened};
use tl_tree::USUAL_NODES;
use tl_workers::{Engine, NoGate};

/// The procedure `add`, on a node whose field 0 is 5.
const PROCEDURES: [(&str, &str); 1] = [("add", ADD)];

/// Checks that the fault is 831 with the exit status of a refusal.
fn is_not_closed(rt: &impl Abort, concluded: &Result<Generation, CliFault>) {
    let Err(fault) = concluded else {
        assert!(rt; false, "closed with another engine's session");
        return;
    };
    assert_eq!(rt; fault.numbers().as_slice(), [831].as_slice());
    assert_eq!(rt; fault.status(), 1);
}

// One engine has a call, and the other one has none.
#[test]
fn nothing_is_concluded_with_another_session(rt: HostRuntime) -> Result<(), Fail> {
    let (busy, quiet) = end_exchanged(
        &rt,
        rt.alloc(),
        ONE_NODE,
        &PROCEDURES,
        |own, session, _, _| {
            own.call(&rt, rt.alloc(), session, "add", &[0, 1], &NoGate)?;
            Ok(())
        },
        |engine, sessions| close_generation(engine, sessions),
    )?;
    is_not_closed(&rt, &busy);
    is_not_closed(&rt, &quiet);
    Ok(())
}

// ---- an engine on the tree of a file

/// The order of one call, and the tree that it leaves.
const CONCLUSION: &str = "{\"order\":[0]}\n{\"parents\":[0],\"records\":[[6,0,0,0,0,0,0,0]]}\n";

/// Another tree of one node.
const OTHER_NODE: &str = "{\"parents\":[0],\"records\":[[4,0,0,0,0,0,0,0]]}";

/// What an engine on one node did, after a call, if it is ended as one of this succession.
fn ended<R: Wait + Abort + AllocGlobal>(
    rt: &R,
    engine: Engine,
    succession: &mut Succession,
) -> Result<Result<Generation, CliFault>, Fail> {
    let alloc = rt.alloc();
    end_opened(
        rt,
        alloc,
        || Ok(engine),
        &PROCEDURES,
        |engine, session| {
            let receipt = engine.call(rt, alloc, session, "add", &[0, 1], &NoGate)?;
            assert_eq!(rt; receipt.reply.as_slice(), [6].as_slice());
            Ok(())
        },
        |engine, sessions| end_generation(alloc, engine, sessions, succession),
    )
}

#[test]
fn an_engine_is_concluded_with_its_trail(rt: HostRuntime) -> Result<(), Fail> {
    let alloc = rt.alloc();
    let (engine, mut succession) = open_engine(alloc, ONE_NODE.as_bytes(), USUAL_NODES)?;
    let generation = ended(&rt, engine, &mut succession)??;
    assert_eq!(rt; generation.lines(alloc)?.as_str(), CONCLUSION);
    let mut trail = String::new(alloc);
    keep_generation(alloc, &generation, &mut trail)?;
    let order = audit_cmd(alloc, trail.as_bytes(), &mut Silent, USUAL_NODES)?;
    assert_eq!(rt; order.as_str(), "{\"order\":[0]}\n");
    Ok(())
}

#[test]
fn an_engine_on_another_tree_is_not_concluded(rt: HostRuntime) -> Result<(), Fail> {
    let alloc = rt.alloc();
    let (engine, _own) = open_engine(alloc, ONE_NODE.as_bytes(), USUAL_NODES)?;
    let (_other, mut succession) = open_engine(alloc, OTHER_NODE.as_bytes(), USUAL_NODES)?;
    is_not_closed(&rt, &ended(&rt, engine, &mut succession)?);
    Ok(())
}

// A session that nobody hands in may have been told anything.
#[test]
fn an_engine_is_not_concluded_without_one_of_its_sessions(rt: HostRuntime) -> Result<(), Fail> {
    let alloc = rt.alloc();
    let (engine, mut succession) = open_engine(alloc, ONE_NODE.as_bytes(), USUAL_NODES)?;
    let concluded = end_opened(
        &rt,
        alloc,
        || Ok(engine),
        &PROCEDURES,
        |engine, _| {
            let _lost = engine.session(&rt, alloc)?;
            Ok(())
        },
        |engine, sessions| end_generation(alloc, engine, sessions, &mut succession),
    )?;
    is_not_closed(&rt, &concluded);
    Ok(())
}
