//! The number of instructions, and the text that is written for the code.

use crate::commands::Command::Listed;
use crate::commands::Row;
use crate::procedures::{ODD, SPACED};
use crate::texts::{ADD, BOTH, LOOK, QUO, STORE, SWEEP, TURN, WALK};

const ROWS: &[Row] = &[
    (Listed(ADD), &["{\"count\":7}\n", ADD]),
    (Listed(QUO), &["{\"count\":3}\n", QUO]),
    (Listed(LOOK), &["{\"count\":5}\n", LOOK]),
    (Listed(STORE), &["{\"count\":4}\n", STORE]),
    (Listed(BOTH), &["{\"count\":11}\n", BOTH]),
    (Listed(WALK), &["{\"count\":10}\n", WALK]),
    (Listed(SWEEP), &["{\"count\":11}\n", SWEEP]),
    (Listed(TURN), &["{\"count\":10}\n", TURN]),
    (
        Listed(SPACED),
        &["{\"count\":2}\n", "arity 1\njmp L1\nL1:\nret\n"],
    ),
    (
        Listed(ODD),
        &[
            "{\"count\":10}\n",
            "arity 8\nset v3 -2147483648\njeq v0 v15 L10\nL2:\njmp L10\nkids v1 n7\ncopy v0 v1\nmul v0 v1 v2 else L10\nsub v0 v1 v2 else L2\nrep 65535\nend\njlt v1 v2 L2\nL10:\n",
        ],
    ),
];

/// The rows of this table.
pub fn rows() -> &'static [Row] {
    ROWS
}
