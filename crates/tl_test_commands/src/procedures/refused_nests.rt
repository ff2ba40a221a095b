//! Loops and ends that don't match, and which of two faults is reported first.

use crate::commands::Command::Verify;
use crate::commands::Row;

const ROWS: &[Row] = &[
    (Verify("arity 0\nrep 0\nend\nret\n"), &["[304, 0] 1"]),
    (Verify("arity 0\nend\nret\n"), &["[302, 0] 1"]),
    (Verify("arity 0\nrep 2\nret\n"), &["[301, 0] 1"]),
    (
        Verify("arity 0\nrep 1\nrep 1\nrep 1\nrep 1\nrep 1\nend\nend\nend\nend\nend\nret\n"),
        &["[303, 4] 1"],
    ),
    (Verify("arity 0\nrep 2\nrep 2\nend\n"), &["[301, 0] 1"]),
    (Verify("arity 0\nrep 2\nend\nrep 2\n"), &["[301, 2] 1"]),
    (Verify("arity 0\nrep 2\nend\nend\n"), &["[302, 2] 1"]),
    (Verify("arity 0\nend\nrep 0\nend\n"), &["[302, 0] 1"]),
    (
        Verify("arity 0\nrep 2\nrep 2\nrep 2\nrep 2\nrep 2\nret\n"),
        &["[303, 4] 1"],
    ),
    (Verify("arity 0\nrep 2\nret\nrep 0\n"), &["[304, 2] 1"]),
    (
        Verify("arity 0\nrep 2\nrep 2\nrep 2\nrep 2\nrep 0\nret\n"),
        &["[304, 4] 1"],
    ),
];

/// The rows of this table.
pub fn rows() -> &'static [Row] {
    ROWS
}
