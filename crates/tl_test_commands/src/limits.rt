//! The limits.

use std::test::Fail;
use tl_asm::MAX_LABEL;
use tl_audit::MAX_TRAILS;
use tl_budget::{MAX_DEPTH, MAX_EMITS, MAX_LOCKS, MAX_STEPS};
use tl_core::MAX_OPEN;
use tl_history::{MAX_CALLS, MAX_EVENTS};
use tl_instr::{MAX_ARGS, MAX_COUNT, NODE_REGISTERS, VALUE_REGISTERS};
use tl_procedures::{MAX_NAME, MAX_PROCEDURES};
use tl_tree::{FIELD_COUNT, MAX_NODES, USUAL_NODES};

/// Each limit's constant, and its number in the documents.
const LIMITS: [(&str, usize, usize); 18] = [
    ("trails of a chain", MAX_TRAILS, 256),
    ("nodes of a tree", USUAL_NODES as usize, 4_096),
    ("nodes of a shape", MAX_NODES, 4_294_967_295),
    ("fields of a record", FIELD_COUNT, 8),
    ("instructions of a code", MAX_COUNT, 1_024),
    ("arguments of a call", MAX_ARGS, 8),
    ("value registers", VALUE_REGISTERS, 16),
    ("node registers", NODE_REGISTERS, 8),
    ("loops in one another", MAX_DEPTH, 4),
    ("characters of a label", MAX_LABEL, 32),
    ("steps of a procedure", MAX_STEPS as usize, 1_000_000),
    ("locks of a procedure", MAX_LOCKS as usize, 4_096),
    ("values that a procedure emits", MAX_EMITS, 32),
    ("characters of a name", MAX_NAME, 32),
    ("procedures", MAX_PROCEDURES, 256),
    ("calls of an epoch", MAX_CALLS, 4_096),
    ("open calls of a core", MAX_OPEN, 64),
    ("stored events of an epoch", MAX_EVENTS, 1_048_576),
];

#[test]
fn limits_are_as_documented(rt: HostRuntime) -> Result<(), Fail> {
    for (limit, constant, number) in LIMITS {
        assert_eq!(rt; constant, number, "{limit}");
    }
    Ok(())
}
