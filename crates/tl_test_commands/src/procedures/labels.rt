//! Labels that are missing, that occur twice, or that aren't labels.

use crate::commands::Command::Asm;
use crate::commands::Row;

const ROWS: &[Row] = &[
    (Asm(&["arity 0\njmp x\nret\n"]), &["[252, 2] 1"]),
    (Asm(&["arity 0\na:\na:\nret\n"]), &["[253, 3] 1"]),
    (Asm(&["arity 0\njmp x\nret"]), &["[252, 2] 1"]),
    (Asm(&["arity 0\na:\na:\nret"]), &["[253, 3] 1"]),
    (Asm(&["arity 0\na :\nret"]), &["[251, 2] 1"]),
    (Asm(&["arity 0\njmp 1a\nret"]), &["[251, 2] 1"]),
    // As many characters as a label may have, and one more.
    (
        Asm(&["arity 0\na123456789012345678901234567890_:\nret"]),
        &["{\"count\":1}\n"],
    ),
    (
        Asm(&["arity 0\na123456789012345678901234567890__:\nret"]),
        &["[251, 2] 1"],
    ),
];

/// The rows of this table.
pub fn rows() -> &'static [Row] {
    ROWS
}
