//! Codes at the limits.

use crate::commands::Command::{Asm, Verify};
use crate::commands::Row;

/// 64 instructions.
const RETS_64: &str =
    "ret\nret\nret\nret\nret\nret\nret\nret\nret\nret\nret\nret\nret\nret\nret\nret\nret\nret\nret\nret\nret\nret\nret\nret\nret\nret\nret\nret\nret\nret\nret\nret\nret\nret\nret\nret\nret\nret\nret\nret\nret\nret\nret\nret\nret\nret\nret\nret\nret\nret\nret\nret\nret\nret\nret\nret\nret\nret\nret\nret\nret\nret\nret\nret\n";

const ROWS: &[Row] = &[
    (
        Verify("arity 0\nfirst n0 v0 else L2\nrel n0\nL2:\nret\n"),
        &["{\"bounds\":{\"emits\":0,\"locks\":1,\"steps\":3}}\n"],
    ),
    (
        Verify("arity 0\nrep 127\nrep 3936\nset v0 1\nend\nend\nret\n"),
        &["{\"bounds\":{\"emits\":0,\"locks\":0,\"steps\":1000000}}\n"],
    ),
    (
        Verify("arity 0\nrep 1000\nrep 498\nset v0 1\nend\nend\nret\n"),
        &["{\"bounds\":{\"emits\":0,\"locks\":0,\"steps\":998002}}\n"],
    ),
    (
        Verify("arity 0\nrep 32\nemit v0\nend\nret\n"),
        &["{\"bounds\":{\"emits\":32,\"locks\":0,\"steps\":66}}\n"],
    ),
    (
        Verify(
            "arity 1\nfirst n0 v0 else L9\nrep 4095\nchild n1 n0 v1 else L6\nrel n0\nmove n0 n1\nend\nL6:\nget v2 n0 0\nemit v2\nrel n0\nL9:\nret\n",
        ),
        &["{\"bounds\":{\"emits\":1,\"locks\":4096,\"steps\":16386}}\n"],
    ),
    (
        Verify("arity 0\njmp a\na:\nrep 3\nset v0 1\nend\nret\n"),
        &["{\"bounds\":{\"emits\":0,\"locks\":0,\"steps\":9}}\n"],
    ),
    (
        Verify("arity 0\nrep 3\njmp a\nend\na:\nret\n"),
        &["{\"bounds\":{\"emits\":0,\"locks\":0,\"steps\":8}}\n"],
    ),
    (
        Verify("arity 0\nrep 3\njmp a\na:\nend\nret\n"),
        &["{\"bounds\":{\"emits\":0,\"locks\":0,\"steps\":8}}\n"],
    ),
    (
        Verify("arity 0\nrep 2\nrep 3\nset v0 1\nend\nend\nret\n"),
        &["{\"bounds\":{\"emits\":0,\"locks\":0,\"steps\":18}}\n"],
    ),
    // As many instructions as a code may have, and one more.
    (
        Asm(&[
            "arity 0\n",
            RETS_64,
            RETS_64,
            RETS_64,
            RETS_64,
            RETS_64,
            RETS_64,
            RETS_64,
            RETS_64,
            RETS_64,
            RETS_64,
            RETS_64,
            RETS_64,
            RETS_64,
            RETS_64,
            RETS_64,
            RETS_64,
        ]),
        &["{\"count\":1024}\n"],
    ),
    (
        Asm(&[
            "arity 0\n",
            RETS_64,
            RETS_64,
            RETS_64,
            RETS_64,
            RETS_64,
            RETS_64,
            RETS_64,
            RETS_64,
            RETS_64,
            RETS_64,
            RETS_64,
            RETS_64,
            RETS_64,
            RETS_64,
            RETS_64,
            RETS_64,
            "ret\n",
        ]),
        &["[254] 1"],
    ),
];

/// The rows of this table.
pub fn rows() -> &'static [Row] {
    ROWS
}
