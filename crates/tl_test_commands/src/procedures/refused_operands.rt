//! Lines that aren't instructions.

use crate::commands::Command::Asm;
use crate::commands::Row;

const ROWS: &[Row] = &[
    (Asm(&["arity 0\nset v16 1\n"]), &["[251, 2] 1"]),
    (Asm(&["arity 0\nset v16 1"]), &["[251, 2] 1"]),
    (Asm(&["arity 0\nset v1 -0"]), &["[251, 2] 1"]),
    (Asm(&["arity 0\nset v1 +1"]), &["[251, 2] 1"]),
    (Asm(&["arity 0\nset v01 1"]), &["[251, 2] 1"]),
    (Asm(&["arity 0\nset v1 2147483648"]), &["[251, 2] 1"]),
    (Asm(&["arity 0\nrep 65536"]), &["[251, 2] 1"]),
    (Asm(&["arity 0\nadd v0 v0 v0 or a\na:"]), &["[251, 2] 1"]),
    (Asm(&["arity 0\nret ret"]), &["[251, 2] 1"]),
    (Asm(&["arity 0\n\x0Cret"]), &["[251, 2] 1"]),
];

/// The rows of this table.
pub fn rows() -> &'static [Row] {
    ROWS
}
