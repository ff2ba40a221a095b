//! Registers that hold a node but must not, or hold none but must.

use crate::commands::Command::Verify;
use crate::commands::Row;

const ROWS: &[Row] = &[
    (
        Verify("arity 0\nfirst n0 v0 else L3\nrel n0\nget v0 n0 0\nL3:\nret\n"),
        &["[405, 2, 0] 1"],
    ),
    (
        Verify("arity 0\nfirst n0 v0 else L2\nret\nL2:\nret\n"),
        &["[407, 1, 0] 1"],
    ),
    (
        Verify("arity 0\nfirst n0 v0 else L1\nL1:\nret\n"),
        &["[408, 1] 1"],
    ),
    (
        Verify("arity 0\nfirst n0 v0 else a\nrel n0\nget v0 n0 0\na:\nret\n"),
        &["[405, 2, 0] 1"],
    ),
    (
        Verify("arity 0\nfirst n0 v0 else a\nret\na:\nret\n"),
        &["[407, 1, 0] 1"],
    ),
    (
        Verify("arity 0\nfirst n0 v0 else a\na:\nret\n"),
        &["[408, 1] 1"],
    ),
    (
        Verify("arity 0\nfirst n0 v0 else a\nfirst n1 v0 else a\na:\nret\n"),
        &["[404, 1] 1"],
    ),
    (
        Verify("arity 0\nfirst n0 v0 else a\nchild n0 n0 v0 else b\nb:\nrel n0\na:\nret\n"),
        &["[406, 1, 0] 1"],
    ),
    (
        Verify("arity 0\nchild n0 n1 v0 else a\na:\nret\n"),
        &["[405, 0, 1] 1"],
    ),
    (
        Verify("arity 0\nfirst n0 v0 else a\nmove n0 n0\nrel n0\na:\nret\n"),
        &["[406, 1, 0] 1"],
    ),
];

/// The rows of this table.
pub fn rows() -> &'static [Row] {
    ROWS
}
