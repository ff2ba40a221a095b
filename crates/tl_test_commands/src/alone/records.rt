//! Reads and writes of a node's record.

use crate::commands::Command::Alone;
use crate::commands::Row;
use crate::texts::{ADD, FORK, ONE_NODE, STORE};

/// A tree with the greatest number in field 0.
const GREATEST: &str = "{\"parents\":[0],\"records\":[[9223372036854775807,0,0,0,0,0,0,0]]}";

/// A root with a child.
const PAIR: &str = "{\"parents\":[0,0],\"records\":[[0,0,0,0,0,0,0,0],[1,2,3,4,0,0,0,0]]}";

/// Emits field 3 of the node `v0`, and stores `v1` there.
const EXCHANGE: &str =
    "arity 2\nfirst n0 v0 else a\nget v2 n0 3\nput n0 3 v1\nemit v2\nrel n0\na:\nret\n";

/// The same with field 1.
const EXCHANGE_1: &str =
    "arity 2\nfirst n0 v0 else a\nget v2 n0 1\nput n0 1 v1\nemit v2\nrel n0\na:\nret\n";

/// The same with field 2.
const EXCHANGE_2: &str =
    "arity 2\nfirst n0 v0 else a\nget v2 n0 2\nput n0 2 v1\nemit v2\nrel n0\na:\nret\n";

const ROWS: &[Row] = &[
    (
        Alone(ONE_NODE, ADD, "[0,3]"),
        &[
            "{\"reply\":[8],\"steps\":7}\n",
            "{\"parents\":[0],\"records\":[[8,0,0,0,0,0,0,0]]}",
            "\n",
        ],
    ),
    (
        Alone(GREATEST, ADD, "[0,1]"),
        &[
            "{\"reply\":[9223372036854775807],\"steps\":6}\n",
            GREATEST,
            "\n",
        ],
    ),
    (
        Alone(FORK, STORE, "[2,-1]"),
        &[
            "{\"reply\":[],\"steps\":4}\n",
            "{\"parents\":[0,0,0],\"records\":[[0,0,0,0,0,0,0,0],[10,0,0,0,0,0,0,0],[-1,0,0,0,0,0,0,0]]}",
            "\n",
        ],
    ),
    (
        Alone(PAIR, STORE, "[1,9]"),
        &[
            "{\"reply\":[],\"steps\":4}\n",
            "{\"parents\":[0,0],\"records\":[[0,0,0,0,0,0,0,0],[9,2,3,4,0,0,0,0]]}",
            "\n",
        ],
    ),
    (
        Alone(PAIR, EXCHANGE_1, "[1,9]"),
        &[
            "{\"reply\":[2],\"steps\":6}\n",
            "{\"parents\":[0,0],\"records\":[[0,0,0,0,0,0,0,0],[1,9,3,4,0,0,0,0]]}",
            "\n",
        ],
    ),
    (
        Alone(PAIR, EXCHANGE_2, "[1,9]"),
        &[
            "{\"reply\":[3],\"steps\":6}\n",
            "{\"parents\":[0,0],\"records\":[[0,0,0,0,0,0,0,0],[1,2,9,4,0,0,0,0]]}",
            "\n",
        ],
    ),
    (
        Alone(PAIR, EXCHANGE, "[1,9]"),
        &[
            "{\"reply\":[4],\"steps\":6}\n",
            "{\"parents\":[0,0],\"records\":[[0,0,0,0,0,0,0,0],[1,2,3,9,0,0,0,0]]}",
            "\n",
        ],
    ),
];

/// The rows of this table.
pub fn rows() -> &'static [Row] {
    ROWS
}
