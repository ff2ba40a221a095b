//! Engines that take over from one another, from the file of their tree to the audit of the files of their trails.

use std::alloc::Global;
use std::process::Abort;
use std::sync::Wait;
use std::test::Fail;
use tl_audit::{Silent, Trail};
use tl_commands::{
    CliFault, audit_next_cmd, end_generation, keep_generation, next_engine, open_generations,
};
use tl_generations::{GrowthFault, Succession};
use tl_test_data::{ADD, ONE_NODE};
use tl_test_engines::end_opened;
use tl_tree::USUAL_NODES;
use tl_workers::{Engine, NoGate, Session};

/// Adds 1 to field 0 of the node, which has `sum` then.
fn add_one(
    rt: &(impl Wait + Abort),
    alloc: Global,
    engine: &Engine,
    session: &mut Session,
    sum: i64,
) -> Result<(), Fail> {
    let receipt = engine.call(rt, alloc, session, "add", &[0, 1], &NoGate)?;
    assert_eq!(rt; receipt.reply.as_slice(), [sum].as_slice());
    Ok(())
}

/// The file of an engine that has two epochs, with a call in each.
fn first_file<R: Wait + Abort + AllocGlobal>(
    rt: &R,
    engine: Engine,
    succession: &mut Succession,
) -> Result<String, Fail> {
    let alloc = rt.alloc();
    let generation = end_opened(
        rt,
        alloc,
        || Ok(engine),
        &[("add", ADD)],
        |engine, session| {
            add_one(rt, alloc, engine, session, 6)?;
            assert_eq!(rt; engine.seal(rt, alloc)?, 0);
            add_one(rt, alloc, engine, session, 7)
        },
        |engine, sessions| end_generation(alloc, engine, sessions, succession),
    )??;
    let mut file = String::new(alloc);
    keep_generation(alloc, &generation, &mut file)?;
    Ok(file)
}

/// The file of the next engine, which has the procedure already.
fn next_file<R: Wait + Abort + AllocGlobal>(
    rt: &R,
    engine: Engine,
    succession: &mut Succession,
) -> Result<String, Fail> {
    let alloc = rt.alloc();
    let generation = end_opened(
        rt,
        alloc,
        || Ok(engine),
        &[],
        |engine, session| add_one(rt, alloc, engine, session, 8),
        |engine, sessions| end_generation(alloc, engine, sessions, succession),
    )??;
    let mut file = String::new(alloc);
    keep_generation(alloc, &generation, &mut file)?;
    Ok(file)
}

/// Checks the line of a file, and returns its last trail.
fn audited(
    rt: &(impl Abort + AllocGlobal),
    file: &str,
    before: Option<&Trail>,
    line: &str,
) -> Result<Trail, CliFault> {
    let audited = audit_next_cmd(
        rt.alloc(),
        file.as_bytes(),
        before,
        &mut Silent,
        USUAL_NODES,
    )?;
    assert_eq!(rt; audited.line.as_str(), line);
    assert!(rt; audited.replaced.is_empty());
    audited.check_procedures()?;
    Ok(audited.last)
}

/// Checks that the file doesn't take over from the trail.
fn is_broken(rt: &(impl Abort + AllocGlobal), file: &str, before: &Trail) {
    match audit_next_cmd(
        rt.alloc(),
        file.as_bytes(),
        Some(before),
        &mut Silent,
        USUAL_NODES,
    ) {
        Ok(_) => assert!(rt; false, "a file in the wrong place is clean"),
        Err(fault) => assert_eq!(rt; fault.numbers().as_slice(), [718, 0].as_slice()),
    }
}

#[test]
fn engines_take_over_from_one_another(rt: HostRuntime) -> Result<(), Fail> {
    let alloc = rt.alloc();
    let (engine, mut succession) = open_generations(alloc, ONE_NODE.as_bytes(), USUAL_NODES)?;
    let first = first_file(&rt, engine, &mut succession)?;
    let engine = next_engine(alloc, &succession)?;
    let next = next_file(&rt, engine, &mut succession)?;
    let last = audited(&rt, &first, None, "{\"orders\":[[0],[0]]}\n")?;
    let last = audited(&rt, &next, Some(&last), "{\"orders\":[[0]]}\n")?;
    is_broken(&rt, &first, &last);
    Ok(())
}

#[test]
fn nodes_are_appended_between_engines(rt: HostRuntime) -> Result<(), Fail> {
    let alloc = rt.alloc();
    let (engine, mut succession) = open_generations(alloc, ONE_NODE.as_bytes(), USUAL_NODES)?;
    let first = first_file(&rt, engine, &mut succession)?;
    assert_eq!(rt;
        succession.check_growth(&[0, 3], USUAL_NODES),
        Err(GrowthFault::BadParent(1))
    );
    assert_eq!(rt; succession.grow(alloc, &[0, 1], USUAL_NODES)?, 1);
    assert_eq!(rt;
        succession.grow(alloc, &[4], USUAL_NODES),
        Err(GrowthFault::BadParent(0))
    );
    let engine = next_engine(alloc, &succession)?;
    let next = next_file(&rt, engine, &mut succession)?;
    assert_eq!(rt; succession.last().tree().records().len(), 3);
    let last = audited(&rt, &first, None, "{\"orders\":[[0],[0]]}\n")?;
    let last = audited(&rt, &next, Some(&last), "{\"orders\":[[0]]}\n")?;
    is_broken(&rt, &first, &last);
    Ok(())
}
