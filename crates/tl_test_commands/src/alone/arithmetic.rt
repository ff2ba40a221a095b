//! Sums, differences and products. If the result doesn't fit, control goes to the end.

use crate::commands::Command::Alone;
use crate::commands::Row;
use crate::texts::ONE_NODE;

const SUM: &str = "arity 2\nadd v2 v0 v1 else a\nemit v2\na:\nret\n";

const DIFFERENCE: &str = "arity 2\nsub v2 v0 v1 else a\nemit v2\na:\nret\n";

const PRODUCT: &str = "arity 2\nmul v2 v0 v1 else a\nemit v2\na:\nret\n";

const ROWS: &[Row] = &[
    (
        Alone(ONE_NODE, SUM, "[9223372036854775807,-1]"),
        &[
            "{\"reply\":[9223372036854775806],\"steps\":3}\n",
            ONE_NODE,
            "\n",
        ],
    ),
    (
        Alone(ONE_NODE, SUM, "[-9223372036854775808,-1]"),
        &["{\"reply\":[],\"steps\":2}\n", ONE_NODE, "\n"],
    ),
    (
        Alone(ONE_NODE, DIFFERENCE, "[3,5]"),
        &["{\"reply\":[-2],\"steps\":3}\n", ONE_NODE, "\n"],
    ),
    (
        Alone(ONE_NODE, DIFFERENCE, "[-1,-9223372036854775808]"),
        &[
            "{\"reply\":[9223372036854775807],\"steps\":3}\n",
            ONE_NODE,
            "\n",
        ],
    ),
    (
        Alone(ONE_NODE, DIFFERENCE, "[0,-9223372036854775808]"),
        &["{\"reply\":[],\"steps\":2}\n", ONE_NODE, "\n"],
    ),
    (
        Alone(ONE_NODE, DIFFERENCE, "[-9223372036854775808,1]"),
        &["{\"reply\":[],\"steps\":2}\n", ONE_NODE, "\n"],
    ),
    (
        Alone(ONE_NODE, PRODUCT, "[-3,4]"),
        &["{\"reply\":[-12],\"steps\":3}\n", ONE_NODE, "\n"],
    ),
    (
        Alone(ONE_NODE, PRODUCT, "[-4294967296,2147483648]"),
        &[
            "{\"reply\":[-9223372036854775808],\"steps\":3}\n",
            ONE_NODE,
            "\n",
        ],
    ),
    (
        Alone(ONE_NODE, PRODUCT, "[4294967296,2147483648]"),
        &["{\"reply\":[],\"steps\":2}\n", ONE_NODE, "\n"],
    ),
    (
        Alone(ONE_NODE, PRODUCT, "[-9223372036854775808,-1]"),
        &["{\"reply\":[],\"steps\":2}\n", ONE_NODE, "\n"],
    ),
];

/// The rows of this table.
pub fn rows() -> &'static [Row] {
    ROWS
}
