//! Texts in which a number isn't a whole number of 64 bits, or a record has a wrong number of fields.

use crate::alone::ENDLESS;
use crate::commands::Command::Alone;
use crate::commands::Row;

const ROWS: &[Row] = &[
    (
        Alone(
            "{\"parents\":[0.0],\"records\":[[1,2,3,4,0,0,0,0]]}",
            ENDLESS,
            "",
        ),
        &["[106] 1"],
    ),
    (
        Alone("{\"parents\":[0],\"records\":[[1,2,3,4.5]]}", ENDLESS, ""),
        &["[106] 1"],
    ),
    (
        Alone(
            "{\"parents\":[0],\"records\":[[1,2,3,9223372036854775808,0,0,0,0]]}",
            ENDLESS,
            "",
        ),
        &["[106] 1"],
    ),
    (
        Alone(
            "{\"parents\":[0],\"records\":[[1,2,3,-9223372036854775809,0,0,0,0]]}",
            ENDLESS,
            "",
        ),
        &["[106] 1"],
    ),
    (
        Alone("{\"parents\":[0],\"records\":[[1,2,3]]}", ENDLESS, ""),
        &["[106] 1"],
    ),
    (
        Alone("{\"parents\":[0],\"records\":[[1,2,3,4,5]]}", ENDLESS, ""),
        &["[106] 1"],
    ),
    (
        Alone("{\"parents\":[],\"records\":[[1,2,3]]}", ENDLESS, ""),
        &["[106] 1"],
    ),
];

/// The rows of this table.
pub fn rows() -> &'static [Row] {
    ROWS
}
