//! Quotients. If there is none, or if it doesn't fit, control goes to the end.

use crate::commands::Command::Alone;
use crate::commands::Row;
use crate::texts::{ONE_NODE, QUO};

const QUOTIENT: &str = "arity 2\ndiv v2 v0 v1 else a\nemit v2\na:\nret\n";

const ROWS: &[Row] = &[
    (
        Alone(ONE_NODE, QUO, "[-9223372036854775808,-1]"),
        &["{\"reply\":[],\"steps\":2}\n", ONE_NODE, "\n"],
    ),
    (
        Alone(ONE_NODE, QUO, "[-9223372036854775808,0]"),
        &["{\"reply\":[],\"steps\":2}\n", ONE_NODE, "\n"],
    ),
    (
        Alone(ONE_NODE, QUO, "[-7,2]"),
        &["{\"reply\":[-3],\"steps\":3}\n", ONE_NODE, "\n"],
    ),
    (
        Alone(ONE_NODE, QUOTIENT, "[-7,2]"),
        &["{\"reply\":[-3],\"steps\":3}\n", ONE_NODE, "\n"],
    ),
    (
        Alone(ONE_NODE, QUOTIENT, "[7,-2]"),
        &["{\"reply\":[-3],\"steps\":3}\n", ONE_NODE, "\n"],
    ),
    (
        Alone(ONE_NODE, QUOTIENT, "[-9223372036854775808,-1]"),
        &["{\"reply\":[],\"steps\":2}\n", ONE_NODE, "\n"],
    ),
    (
        Alone(ONE_NODE, QUOTIENT, "[-9223372036854775808,0]"),
        &["{\"reply\":[],\"steps\":2}\n", ONE_NODE, "\n"],
    ),
];

/// The rows of this table.
pub fn rows() -> &'static [Row] {
    ROWS
}
