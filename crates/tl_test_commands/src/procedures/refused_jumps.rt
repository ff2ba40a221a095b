//! Jumps back, into a loop or past the end.

use crate::commands::Command::Verify;
use crate::commands::Row;
use crate::procedures::ODD;

const ROWS: &[Row] = &[
    (
        Verify("arity 0\njmp L2\nrep 3\nL2:\nset v0 1\nend\nret\n"),
        &["[402, 0] 1"],
    ),
    (
        Verify("arity 0\nL0:\nset v0 1\njmp L0\nret\n"),
        &["[401, 1] 1"],
    ),
    (Verify("arity 0\nset v0 1\n"), &["[403, 0] 1"]),
    (
        Verify("arity 0\na:\nfirst n0 v0 else a\nrel n0\nret\n"),
        &["[401, 0] 1"],
    ),
    (
        Verify("arity 0\na:\nset v0 1\njmp a\nret\n"),
        &["[401, 1] 1"],
    ),
    (Verify("arity 0\njmp a\nret\na:\n"), &["[403, 0] 1"]),
    (
        Verify("arity 0\njmp a\nrep 3\na:\nset v0 1\nend\nret\n"),
        &["[402, 0] 1"],
    ),
    (Verify(ODD), &["[403, 1] 1"]),
];

/// The rows of this table.
pub fn rows() -> &'static [Row] {
    ROWS
}
