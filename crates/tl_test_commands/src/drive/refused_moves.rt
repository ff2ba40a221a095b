//! Scripts with an invalid move or procedure.

use crate::commands::Command::Drive;
use crate::commands::Row;
use crate::texts::ONE_NODE;

const ROWS: &[Row] = &[
    (
        Drive(ONE_NODE, &["{\"moves\":[-1],\"procs\":[]}"]),
        &["[731] 1"],
    ),
    (
        Drive(ONE_NODE, &["{\"moves\":[4294967296],\"procs\":[]}"]),
        &["[731] 1"],
    ),
    (
        Drive(ONE_NODE, &["{\"moves\":[0.0],\"procs\":[]}"]),
        &["[731] 1"],
    ),
    (
        Drive(
            ONE_NODE,
            &["{\"moves\":[[\"look\",[9223372036854775808]]],\"procs\":[]}"],
        ),
        &["[731] 1"],
    ),
    (
        Drive(ONE_NODE, &["{\"moves\":[[\"look\"]],\"procs\":[]}"]),
        &["[731] 1"],
    ),
    (
        Drive(ONE_NODE, &["{\"moves\":[[\"look\",[],0]],\"procs\":[]}"]),
        &["[731] 1"],
    ),
    (
        Drive(ONE_NODE, &["{\"moves\":[],\"procs\":[[\"look\"]]}"]),
        &["[731] 1"],
    ),
    (
        Drive(ONE_NODE, &["{\"moves\":[],\"procs\":[[\"look\",[]]]}"]),
        &["[731] 1"],
    ),
];

/// The rows of this table.
pub fn rows() -> &'static [Row] {
    ROWS
}
