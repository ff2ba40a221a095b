//! Loops have their turns, and a loop that was left starts again from its first turn.

use crate::commands::Command::Alone;
use crate::commands::Row;
use crate::texts::ONE_NODE;

/// Adds to `v1` the ten numbers after `v0`, and emits it.
const SUM_UP: &str =
    "arity 2\nset v2 1\nrep 10\nadd v0 v0 v2 else a\na:\nadd v1 v1 v0 else b\nb:\nend\nemit v1\nret\n";

/// Emits `v0` and counts it up, three times, twice over. If it reaches `v1`, control goes to the end of the outer loop.
const LEAVE_INNER: &str =
    "arity 2\nset v2 1\nrep 2\nrep 3\nemit v0\nadd v0 v0 v2 else a\na:\njeq v0 v1 b\nend\nb:\nend\nret\n";

/// The same, but control leaves both loops.
const LEAVE_BOTH: &str =
    "arity 2\nset v2 1\nrep 2\nrep 3\nemit v0\nadd v0 v0 v2 else a\na:\njeq v0 v1 b\nend\nend\nb:\nret\n";

const ROWS: &[Row] = &[
    (
        Alone(
            ONE_NODE,
            "arity 0\nrep 1\nrep 1\nset v0 1\nend\nend\nret\n",
            "[]",
        ),
        &["{\"reply\":[],\"steps\":6}\n", ONE_NODE, "\n"],
    ),
    (
        Alone(
            ONE_NODE,
            "arity 0\nrep 3\nrep 4\nset v0 1\nend\nend\nret\n",
            "[]",
        ),
        &["{\"reply\":[],\"steps\":32}\n", ONE_NODE, "\n"],
    ),
    (
        Alone(
            ONE_NODE,
            "arity 0\nrep 127\nrep 3936\nset v0 1\nend\nend\nret\n",
            "[]",
        ),
        &["{\"reply\":[],\"steps\":1000000}\n", ONE_NODE, "\n"],
    ),
    (
        Alone(ONE_NODE, SUM_UP, "[0,0]"),
        &["{\"reply\":[55],\"steps\":34}\n", ONE_NODE, "\n"],
    ),
    (
        Alone(ONE_NODE, SUM_UP, "[100,1000]"),
        &["{\"reply\":[2055],\"steps\":34}\n", ONE_NODE, "\n"],
    ),
    (
        Alone(ONE_NODE, "arity 1\nrep 32\nemit v0\nend\nret\n", "[9]"),
        &[
            "{\"reply\":[9,9,9,9,9,9,9,9,9,9,9,9,9,9,9,9,9,9,9,9,9,9,9,9,9,9,9,9,9,9,9,9],\"steps\":66}\n",
            ONE_NODE,
            "\n",
        ],
    ),
    (
        Alone(ONE_NODE, LEAVE_INNER, "[0,1]"),
        &["{\"reply\":[0,1,2,3],\"steps\":22}\n", ONE_NODE, "\n"],
    ),
    (
        Alone(ONE_NODE, LEAVE_INNER, "[0,5]"),
        &["{\"reply\":[0,1,2,3,4],\"steps\":26}\n", ONE_NODE, "\n"],
    ),
    (
        Alone(ONE_NODE, LEAVE_BOTH, "[0,1]"),
        &["{\"reply\":[0],\"steps\":7}\n", ONE_NODE, "\n"],
    ),
    (
        Alone(ONE_NODE, LEAVE_BOTH, "[0,4]"),
        &["{\"reply\":[0,1,2,3],\"steps\":21}\n", ONE_NODE, "\n"],
    ),
];

/// The rows of this table.
pub fn rows() -> &'static [Row] {
    ROWS
}
