//! Nodes that exist, nodes that don't, and how many children they have.

use crate::commands::Command::Alone;
use crate::commands::Row;
use crate::texts::{FORK, LOOK};

/// Emits how many children the node `v0` has.
const COUNT: &str = "arity 1\nfirst n0 v0 else a\nkids v1 n0\nemit v1\nrel n0\na:\nret\n";

/// A root with two children, of which the first has one.
const FOUR: &str =
    "{\"parents\":[0,0,0,1],\"records\":[[5,6,7,8,0,0,0,0],[5,6,7,8,0,0,0,0],[5,6,7,8,0,0,0,0],[5,6,7,8,0,0,0,0]]}";

const ROWS: &[Row] = &[
    (
        Alone(FORK, LOOK, "[-1]"),
        &["{\"reply\":[],\"steps\":2}\n", FORK, "\n"],
    ),
    (
        Alone(FORK, LOOK, " [ 2 ] "),
        &["{\"reply\":[20],\"steps\":5}\n", FORK, "\n"],
    ),
    (
        Alone(FORK, LOOK, "[3]"),
        &["{\"reply\":[],\"steps\":2}\n", FORK, "\n"],
    ),
    (
        Alone(FORK, LOOK, "[0]"),
        &["{\"reply\":[0],\"steps\":5}\n", FORK, "\n"],
    ),
    (
        Alone(FORK, LOOK, "[2]"),
        &["{\"reply\":[20],\"steps\":5}\n", FORK, "\n"],
    ),
    (
        Alone(FOUR, COUNT, "[0]"),
        &["{\"reply\":[2],\"steps\":5}\n", FOUR, "\n"],
    ),
    (
        Alone(FOUR, COUNT, "[1]"),
        &["{\"reply\":[1],\"steps\":5}\n", FOUR, "\n"],
    ),
    (
        Alone(FOUR, COUNT, "[2]"),
        &["{\"reply\":[0],\"steps\":5}\n", FOUR, "\n"],
    ),
];

/// The rows of this table.
pub fn rows() -> &'static [Row] {
    ROWS
}
