//! Cores that are sealed, and the text of a chain.

use std::alloc::Global;
use std::process::Abort;
use std::test::Fail;
use tl_core::Core;
use tl_machine::local;
use tl_serial::Running;
use tl_table::{Sent, Table};
use tl_test_data::{FORK, LOOK, ONE_NODE, STORE};
use tl_test_engines::{with_sealed_core, with_sealed_running, with_table};

/// The procedure `store`.
const PROCEDURES: [(&str, &str); 1] = [("store", STORE)];

const OPENING: [[i64; 8]; 3] = [
    [0, 0, 0, 0, 0, 0, 0, 0],
    [10, 0, 0, 0, 0, 0, 0, 0],
    [20, 0, 0, 0, 0, 0, 0, 0],
];

/// The records after the call.
const LEFT: [[i64; 8]; 3] = [
    [0, 0, 0, 0, 0, 0, 0, 0],
    [7, 0, 0, 0, 0, 0, 0, 0],
    [20, 0, 0, 0, 0, 0, 0, 0],
];

/// How many instructions `store` has.
const STEPS: u32 = 4;

/// The sealed core has done its call. The next one begins with the records that the call left, and with the same procedure.
fn goes_on(rt: &impl Abort, sealed: &Core, next: &Core) {
    assert_eq!(rt; sealed.calls(), 1);
    assert_eq!(rt; sealed.least_unfinished(), None);
    assert_eq!(rt; sealed.opening().records(), OPENING.as_slice());
    assert_eq!(rt; next.calls(), 0);
    assert!(rt; next.history().is_empty());
    assert_eq!(rt; sealed.tree().records(), LEFT.as_slice());
    assert_eq!(rt; next.opening().records(), LEFT.as_slice());
    assert_eq!(rt; next.tree().records(), LEFT.as_slice());
    assert_eq!(rt; next.procedures().number_of("store"), Some(0));
}

#[test]
fn a_core_is_sealed(rt: HostRuntime) -> Result<(), Fail> {
    with_sealed_core(
        rt.alloc(),
        FORK,
        &PROCEDURES,
        |core| {
            core.admit(rt.alloc(), "store", &[1, 7])?;
            for _ in 0..STEPS {
                core.step(0)?;
            }
            Ok(())
        },
        |sealed, next| {
            goes_on(&rt, sealed, next);
            Ok(())
        },
    )
}

#[test]
fn a_core_with_its_order_is_sealed(rt: HostRuntime) -> Result<(), Fail> {
    with_sealed_running(
        rt.alloc(),
        FORK,
        &PROCEDURES,
        |running| {
            running.admit(rt.alloc(), "store", &[1, 7])?;
            for _ in 0..STEPS {
                running.step(0)?;
            }
            Ok(())
        },
        |sealed, next| {
            goes_on(&rt, sealed.core(), next.core());
            assert_eq!(rt; sealed.order().calls(), [0].as_slice());
            assert!(rt; next.order().calls().is_empty());
            Ok(())
        },
    )
}

// ---- the text of a chain

/// A look at a node, and then an epoch in which nothing is done.
const CHAIN: &str =
    "[{\"calls\":[[\"look\",[0],[5]]],\"end\":[[5,0,0,0,0,0,0,0]],\"events\":[[\"a\",0],[\"l\",0,0,[5,0,0,0,0,0,0,0]],[\"f\",0,0,[5,0,0,0,0,0,0,0]],[\"d\",0]],\"procs\":[[\"look\",\"arity 1\\nfirst n0 v0 else L4\\nget v1 n0 0\\nemit v1\\nrel n0\\nL4:\\nret\\n\"]],\"tree\":{\"parents\":[0],\"records\":[[5,0,0,0,0,0,0,0]]}},{\"calls\":[],\"end\":[[5,0,0,0,0,0,0,0]],\"events\":[],\"procs\":[[\"look\",\"arity 1\\nfirst n0 v0 else L4\\nget v1 n0 0\\nemit v1\\nrel n0\\nL4:\\nret\\n\"]],\"tree\":{\"parents\":[0],\"records\":[[5,0,0,0,0,0,0,0]]}}]";

fn look_and_seal(alloc: Global, table: &mut Table) -> Result<(), Fail> {
    table.admit(alloc, 0, "look", &[0])?;
    for _ in 0..3 {
        let segment = local(table.state(0)?);
        if let Sent::Finished(_) = table.submit(0, segment)? {
            break;
        }
    }
    table.seal(alloc)?;
    Ok(())
}

#[test]
fn a_chain_is_written(rt: HostRuntime) -> Result<(), Fail> {
    with_table(
        rt.alloc(),
        ONE_NODE,
        &[("look", LOOK)],
        1,
        |table| look_and_seal(rt.alloc(), table),
        |(), ended| {
            assert_eq!(rt; ended.chain_text(rt.alloc())?.as_str(), CHAIN);
            Ok(())
        },
    )
}
