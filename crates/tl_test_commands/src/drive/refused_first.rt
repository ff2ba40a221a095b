//! Which fault is reported first: that of the tree, of the script or of a procedure.

use crate::commands::Command::Drive;
use crate::commands::Row;
use crate::texts::ONE_NODE;

const ROWS: &[Row] = &[
    (Drive("[]", &["{\"moves\":[],\"procs\":[0]}"]), &["[106] 1"]),
    (
        Drive(ONE_NODE, &["{\"moves\":[],\"procs\":[0]}"]),
        &["[731] 1"],
    ),
    (
        Drive(
            ONE_NODE,
            &["{\"moves\":[],\"procs\":[[\"a b\",\"arity 0\"]]}"],
        ),
        &["[251, 1] 1"],
    ),
    (
        Drive(
            ONE_NODE,
            &["{\"moves\":[],\"procs\":[[\"a b\",\"arity 0\\nset v0 1\"]]}"],
        ),
        &["[403, 0] 1"],
    ),
    (
        Drive(
            ONE_NODE,
            &["{\"moves\":[],\"procs\":[[\"a b\",\"arity 0\\nret\"]]}"],
        ),
        &["[612] 1"],
    ),
    (
        Drive(
            ONE_NODE,
            &[
                "{\"moves\":[],\"procs\":[[\"a\",\"arity 0\\nret\"],[\"a\",\"arity 1\\nret\"],[\"\",\"\"]]}",
            ],
        ),
        &["[611] 1"],
    ),
    (
        Drive(
            ONE_NODE,
            &[
                "{\"moves\":[],\"procs\":[[\"a\",\"arity 0\\nret\"],[\"\",\"\"],[\"a\",\"arity 0\\nret\"]]}",
            ],
        ),
        &["[251, 1] 1"],
    ),
];

/// The rows of this table.
pub fn rows() -> &'static [Row] {
    ROWS
}
