//! A run of a script whose two calls a gate makes cross: it has two workers.

use std::alloc::Global;
use std::process::Abort;
use std::sync::Wait;
use std::test::Fail;
use std::thread::Threads;
use tl_commands::{Inputs, run_cmd};
use tl_test_data::FORK;
use tl_test_engines::{Crossing, Point};
use tl_tree::USUAL_NODES;

/// How often two calls cross.
const RUNS: u32 = 20;

/// The two looks as a script.
const SCRIPT: &[u8] =
    b"{\"calls\":[[\"look\",[1]],[\"look\",[2]]],\"procs\":[[\"look\",\"arity 1\\nfirst n0 v0 else L4\\nget v1 n0 0\\nemit v1\\nrel n0\\nL4:\\nret\"]]}";

/// What its run prints.
const PRINTED: &str =
    "{\"batch\":[{\"call\":0,\"reply\":[10]},{\"call\":1,\"reply\":[20]}]}\n{\"order\":[0,1]}\n{\"parents\":[0,0,0],\"records\":[[0,0,0,0,0,0,0,0],[10,0,0,0,0,0,0,0],[20,0,0,0,0,0,0,0]]}\n";

/// Two workers run one look each of the script.
fn two_workers_of_a_run_cross<R: Threads + Wait + Abort + Sync>(
    rt: &R,
    alloc: Global,
    point: Point,
) -> Result<(), Fail> {
    let gate = Crossing::new(point);
    let inputs = Inputs {
        tree: FORK.as_bytes(),
        script: SCRIPT,
        sources: &[],
        limit: USUAL_NODES,
    };
    let printed = run_cmd(rt, alloc, inputs, 2, &gate)?.lines(alloc)?;
    assert_eq!(rt; printed.as_str(), PRINTED);
    assert!(rt; gate.came_in_time());
    Ok(())
}

#[test]
fn a_gate_shows_two_workers_of_a_run(rt: HostRuntime) -> Result<(), Fail> {
    for _ in 0..RUNS {
        two_workers_of_a_run_cross(&rt, rt.alloc(), Point::Pass)?;
    }
    Ok(())
}
