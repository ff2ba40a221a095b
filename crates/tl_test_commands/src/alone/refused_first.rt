//! Which fault is reported first: that of the tree, of the code or of the arguments.

use crate::alone::ENDLESS;
use crate::commands::Command::Alone;
use crate::commands::Row;
use crate::texts::{LOOK, ONE_NODE, QUO};

const ROWS: &[Row] = &[
    (Alone("[]", ENDLESS, ""), &["[106] 1"]),
    (
        Alone("{\"parents\":[0,2],\"records\":[]}", ENDLESS, ""),
        &["[104, 1] 1"],
    ),
    (Alone(ONE_NODE, ENDLESS, ""), &["[403, 0] 1"]),
    (Alone(ONE_NODE, QUO, ""), &["[732] 1"]),
    (Alone(ONE_NODE, QUO, "[1.5,2]"), &["[732] 1"]),
    (Alone(ONE_NODE, QUO, "[1]"), &["[501] 1"]),
    (Alone(ONE_NODE, LOOK, "[0,0]"), &["[501] 1"]),
];

/// The rows of this table.
pub fn rows() -> &'static [Row] {
    ROWS
}
