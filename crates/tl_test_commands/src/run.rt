//! What the command `run` prints.

use crate::commands::Command::Run;
use crate::commands::{Row, inputs};
use crate::texts::{ONE_NODE, SWEEP_ALONE, ZEROS};
use std::test::Fail;
use tl_audit::Silent;
use tl_commands::{audit_cmd, keep_generation, run_cmd};
use tl_tree::USUAL_NODES;
use tl_workers::NoGate;

/// The beginning of a script.
const CALLS: &str = "{\"calls\":[";

/// The part of a script after its calls: a procedure that replies with its argument.
const ECHO: &str = "],\"procs\":[[\"echo\",\"arity 1\\nemit v0\\nret\"]]}";

/// The answers, the order and the tree, or the first fault.
const ROWS: &[Row] = &[
    (
        Run(
            ONE_NODE,
            &[
                CALLS,
                "[\"echo\",[7]],[\"echo\",[]],[\"none\",[]],[\"echo\",[-9223372036854775808]]",
                ECHO,
            ],
        ),
        &[
            "{\"batch\":[{\"call\":0,\"reply\":[7]},{\"error\":[501]},{\"error\":[601]},{\"call\":1,\"reply\":[-9223372036854775808]}]}\n{\"order\":[0,1]}\n{\"parents\":[0],\"records\":[[5,0,0,0,0,0,0,0]]}\n",
        ],
    ),
    (Run(ONE_NODE, &[CALLS, "", ECHO]), &["[731] 1"]),
    (Run(ONE_NODE, &[CALLS, "0", ECHO]), &["[731] 1"]),
    (Run(ONE_NODE, &[CALLS, "[\"echo\"]", ECHO]), &["[731] 1"]),
    (
        Run(ONE_NODE, &[CALLS, "[\"echo\",[9223372036854775808]]", ECHO]),
        &["[731] 1"],
    ),
    (
        Run(ONE_NODE, &[CALLS, "[\"echo\",[0]],null", ECHO]),
        &["[731] 1"],
    ),
    (Run("[]", &["{\"calls\":[],\"procs\":[0]}"]), &["[106] 1"]),
    (Run(ONE_NODE, &["[]"]), &["[731] 1"]),
    (
        Run(ONE_NODE, &["{\"moves\":[[\"a\",[]]],\"procs\":[]}"]),
        &["[731] 1"],
    ),
    (
        Run(
            ONE_NODE,
            &["{\"calls\":[[\"a\",[]]],\"op\":true,\"procs\":[]}"],
        ),
        &["[731] 1"],
    ),
    (
        Run(ONE_NODE, &["{\"calls\":[],\"procs\":[[\"a b\",\"\"]]}"]),
        &["[731] 1"],
    ),
    (
        Run(
            ONE_NODE,
            &["{\"calls\":[[\"a\",[]]],\"procs\":[[\"a b\",\"arity 0\\nret\"],[\"\",\"\"]]}"],
        ),
        &["[612] 1"],
    ),
    (
        Run(
            ONE_NODE,
            &[
                "{\"calls\":[[\"a\",[]]],\"procs\":[[\"a\",\"arity 0\\nret\"],[\"a\",\"arity 1\\nset v0 1\"]]}",
            ],
        ),
        &["[403, 0] 1"],
    ),
];

// Two calls go down one after the other, on threads of their own. Whichever is first, the batch and the tree are the same, and the
// trail is clean.
#[test]
fn two_sweeps_run_at_once(rt: HostRuntime) -> Result<(), Fail> {
    let alloc = rt.alloc();
    let calls = "[\"sweep\",[1]],[\"sweep\",[10]]],\"procs\":[";
    let script = [CALLS, calls, SWEEP_ALONE, "]}"].concat(alloc)?;
    let ran = run_cmd(&rt, alloc, inputs(ZEROS, script.as_bytes()), 2, &NoGate)?;
    let lines = ran.lines(alloc)?;
    let mut trail = String::new(alloc);
    keep_generation(alloc, ran.epochs(), &mut trail)?;
    let order = audit_cmd(alloc, trail.as_bytes(), &mut Silent, USUAL_NODES)?;
    let is_first = order.as_str() == "{\"order\":[0,1]}\n";
    assert!(rt; is_first || order.as_str() == "{\"order\":[1,0]}\n");
    let batch = "{\"batch\":[{\"call\":0,\"reply\":[]},{\"call\":1,\"reply\":[]}]}\n";
    let tree =
        "{\"parents\":[0,0,1],\"records\":[[11,0,0,0,0,0,0,0],[11,0,0,0,0,0,0,0],[11,0,0,0,0,0,0,0]]}\n";
    let expected = [batch, order.as_str(), tree].concat(alloc)?;
    assert_eq!(rt; lines.as_str(), expected.as_str());
    Ok(())
}

/// The rows of this table.
pub fn rows() -> &'static [Row] {
    ROWS
}
