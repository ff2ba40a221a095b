//! Bytes that aren't a script, and another spelling of a script.

use crate::commands::Command::Drive;
use crate::commands::Row;
use crate::texts::ONE_NODE;

const ROWS: &[Row] = &[
    (Drive(ONE_NODE, &[""]), &["[731] 1"]),
    (Drive(ONE_NODE, &["[]"]), &["[731] 1"]),
    (Drive(ONE_NODE, &["{\"moves\":[]}"]), &["[731] 1"]),
    (
        Drive(ONE_NODE, &["{\"moves\":null,\"procs\":[]}"]),
        &["[731] 1"],
    ),
    (
        Drive(ONE_NODE, &["{\"moves\":[],\"op \":true,\"procs\":[]}"]),
        &["[731] 1"],
    ),
    (
        Drive(ONE_NODE, &[" { \"procs\" : [ ] , \"moves\" : [ ] } "]),
        &["{\"trace\":[]}\n{\"order\":[]}\n{\"parents\":[0],\"records\":[[5,0,0,0,0,0,0,0]]}\n"],
    ),
];

/// The rows of this table.
pub fn rows() -> &'static [Row] {
    ROWS
}
