//! Where control goes.

use crate::commands::Command::Alone;
use crate::commands::Row;
use crate::texts::ONE_NODE;

const LESS: &str = "arity 2\njlt v0 v1 a\nemit v0\na:\nemit v1\nret\n";

const EQUAL: &str = "arity 2\njeq v0 v1 a\nemit v0\na:\nemit v1\nret\n";

const ROWS: &[Row] = &[
    (
        Alone(ONE_NODE, "arity 0\nret\nret\n", "[]"),
        &["{\"reply\":[],\"steps\":1}\n", ONE_NODE, "\n"],
    ),
    (
        Alone(
            ONE_NODE,
            "arity 2\njmp a\nemit v0\na:\nemit v1\nret\n",
            "[1,2]",
        ),
        &["{\"reply\":[2],\"steps\":3}\n", ONE_NODE, "\n"],
    ),
    (
        Alone(ONE_NODE, LESS, "[-1,0]"),
        &["{\"reply\":[0],\"steps\":3}\n", ONE_NODE, "\n"],
    ),
    (
        Alone(ONE_NODE, LESS, "[-9223372036854775808,9223372036854775807]"),
        &[
            "{\"reply\":[9223372036854775807],\"steps\":3}\n",
            ONE_NODE,
            "\n",
        ],
    ),
    (
        Alone(ONE_NODE, LESS, "[2,2]"),
        &["{\"reply\":[2,2],\"steps\":4}\n", ONE_NODE, "\n"],
    ),
    (
        Alone(ONE_NODE, LESS, "[3,2]"),
        &["{\"reply\":[3,2],\"steps\":4}\n", ONE_NODE, "\n"],
    ),
    (
        Alone(ONE_NODE, EQUAL, "[-2,-2]"),
        &["{\"reply\":[-2],\"steps\":3}\n", ONE_NODE, "\n"],
    ),
    (
        Alone(ONE_NODE, EQUAL, "[-2,2]"),
        &["{\"reply\":[-2,2],\"steps\":4}\n", ONE_NODE, "\n"],
    ),
    (
        Alone(ONE_NODE, EQUAL, "[1,2]"),
        &["{\"reply\":[1,2],\"steps\":4}\n", ONE_NODE, "\n"],
    ),
];

/// The rows of this table.
pub fn rows() -> &'static [Row] {
    ROWS
}
