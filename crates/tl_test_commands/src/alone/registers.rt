//! The values in registers. If a result doesn't fit, the register keeps its value.

use crate::commands::Command::Alone;
use crate::commands::Row;
use crate::texts::ONE_NODE;

const SWAP: &str =
    "arity 2\ncopy v15 v0\ncopy v0 v1\ncopy v1 v15\nset v2 -2147483648\nemit v0\nemit v1\nemit v2\nret\n";

const ROWS: &[Row] = &[
    (
        Alone(
            ONE_NODE,
            "arity 2\nsub v0 v0 v1 else a\na:\nemit v0\nret\n",
            "[5,3]",
        ),
        &["{\"reply\":[2],\"steps\":3}\n", ONE_NODE, "\n"],
    ),
    (
        Alone(
            ONE_NODE,
            "arity 2\nadd v0 v0 v1 else a\na:\nemit v0\nret\n",
            "[9223372036854775807,1]",
        ),
        &[
            "{\"reply\":[9223372036854775807],\"steps\":3}\n",
            ONE_NODE,
            "\n",
        ],
    ),
    (
        Alone(
            ONE_NODE,
            "arity 2\nsub v0 v0 v1 else a\na:\nemit v0\nret\n",
            "[-9223372036854775808,1]",
        ),
        &[
            "{\"reply\":[-9223372036854775808],\"steps\":3}\n",
            ONE_NODE,
            "\n",
        ],
    ),
    (
        Alone(
            ONE_NODE,
            "arity 2\nmul v0 v0 v1 else a\na:\nemit v0\nret\n",
            "[9223372036854775807,2]",
        ),
        &[
            "{\"reply\":[9223372036854775807],\"steps\":3}\n",
            ONE_NODE,
            "\n",
        ],
    ),
    (
        Alone(
            ONE_NODE,
            "arity 2\ndiv v0 v0 v1 else a\na:\nemit v0\nret\n",
            "[8,0]",
        ),
        &["{\"reply\":[8],\"steps\":3}\n", ONE_NODE, "\n"],
    ),
    (
        Alone(ONE_NODE, SWAP, "[3,4]"),
        &[
            "{\"reply\":[4,3,-2147483648],\"steps\":8}\n",
            ONE_NODE,
            "\n",
        ],
    ),
];

/// The rows of this table.
pub fn rows() -> &'static [Row] {
    ROWS
}
