//! Paths over several nodes.

use crate::commands::Command::Alone;
use crate::commands::Row;
use crate::texts::{BOTH, CHAIN, FORK, SWEEP, TURN, WALK};

/// Locks the root's first child, moves the root to another register, and asks for that child again.
const ASK_AGAIN: &str = "arity 0
first n0 v0 else c
child n1 n0 v0 else b
rel n1
move n2 n0
child n1 n2 v0 else a
emit v0
rel n1
a:
rel n2
ret
b:
rel n0
c:
ret
";

const ROWS: &[Row] = &[
    (
        Alone(CHAIN, WALK, "[0]"),
        &["{\"reply\":[7],\"steps\":15}\n", CHAIN, "\n"],
    ),
    (
        Alone(CHAIN, SWEEP, "[1]"),
        &[
            "{\"reply\":[],\"steps\":22}\n",
            "{\"parents\":[0,0,1],\"records\":[[1,0,0,0,0,0,0,0],[1,0,0,0,0,0,0,0],[8,0,0,0,0,0,0,0]]}",
            "\n",
        ],
    ),
    (
        Alone(FORK, TURN, "[]"),
        &["{\"reply\":[0],\"steps\":8}\n", FORK, "\n"],
    ),
    (
        Alone(FORK, BOTH, "[11]"),
        &[
            "{\"reply\":[20],\"steps\":11}\n",
            "{\"parents\":[0,0,0],\"records\":[[0,0,0,0,0,0,0,0],[11,0,0,0,0,0,0,0],[20,0,0,0,0,0,0,0]]}",
            "\n",
        ],
    ),
    (
        Alone(FORK, ASK_AGAIN, "[]"),
        &["{\"reply\":[],\"steps\":7}\n", FORK, "\n"],
    ),
];

/// The rows of this table.
pub fn rows() -> &'static [Row] {
    ROWS
}
