//! Loops whose turns end with other registers held, and loops that exceed a bound.

use crate::commands::Command::Verify;
use crate::commands::Row;

const ROWS: &[Row] = &[
    (
        Verify("arity 0\nrep 2\nfirst n0 v0 else L3\nrel n0\nL3:\nend\nret\n"),
        &["[409, 3] 1"],
    ),
    (
        Verify("arity 0\nrep 1\nfirst n0 v0 else L3\nrel n0\nL3:\nend\nret\n"),
        &["[409, 3] 1"],
    ),
    (
        Verify("arity 0\nrep 2\nfirst n0 v0 else a\nrel n0\na:\nend\nret\n"),
        &["[409, 3] 1"],
    ),
    (
        Verify("arity 0\nrep 1\nfirst n0 v0 else a\nrel n0\na:\nend\nret\n"),
        &["[409, 3] 1"],
    ),
    (
        Verify("arity 0\nfirst n0 v0 else a\nrep 2\nrel n0\nend\na:\nret\n"),
        &["[409, 3] 1"],
    ),
    // Steps, values that are emitted, and locks.
    (
        Verify("arity 0\nrep 127\nrep 3936\nset v0 1\nend\nend\nset v0 1\nret\n"),
        &["[305] 1"],
    ),
    (
        Verify("arity 0\nrep 1000\nrep 499\nset v0 1\nend\nend\nret\n"),
        &["[305] 1"],
    ),
    (
        Verify("arity 0\nrep 1000\nrep 1000\nend\nend\nret\n"),
        &["[305] 1"],
    ),
    (Verify("arity 0\nrep 33\nemit v0\nend\nret\n"), &["[307] 1"]),
    (
        Verify(
            "arity 0\nfirst n0 v0 else c\nrep 4096\nchild n1 n0 v1 else b\nrel n0\nmove n0 n1\nend\nb:\nrel n0\nc:\nret\n",
        ),
        &["[306] 1"],
    ),
];

/// The rows of this table.
pub fn rows() -> &'static [Row] {
    ROWS
}
