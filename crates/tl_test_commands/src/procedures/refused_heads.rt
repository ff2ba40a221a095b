//! Texts without a head, or without code.

use crate::commands::Command::Asm;
use crate::commands::Row;

const ROWS: &[Row] = &[
    (Asm(&[""]), &["[251, 1] 1"]),
    (Asm(&["\n\n"]), &["[251, 3] 1"]),
    (Asm(&["arity 0\n"]), &["[251, 2] 1"]),
    (Asm(&["arity 0\na:\n"]), &["[251, 3] 1"]),
    (Asm(&["arity 9\nret"]), &["[251, 1] 1"]),
    (Asm(&["arity 0\narity 0\nret"]), &["[251, 2] 1"]),
    (Asm(&["ret"]), &["[251, 1] 1"]),
];

/// The rows of this table.
pub fn rows() -> &'static [Row] {
    ROWS
}
