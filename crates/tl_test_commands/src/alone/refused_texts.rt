//! Texts that don't have the form of a tree.

use crate::alone::ENDLESS;
use crate::commands::Command::Alone;
use crate::commands::Row;

const ROWS: &[Row] = &[
    (Alone("", ENDLESS, ""), &["[106] 1"]),
    (Alone("[]", ENDLESS, ""), &["[106] 1"]),
    (
        Alone(
            "{\"parents\":[0],\"records\":[[1,2,3,4,0,0,0,0]]",
            ENDLESS,
            "",
        ),
        &["[106] 1"],
    ),
    (
        Alone(
            "{\"parents\":[0],\"records\":[[1,2,3,4,0,0,0,0]]} 1",
            ENDLESS,
            "",
        ),
        &["[106] 1"],
    ),
    (
        Alone("{\"parents\":[],\"records\":[],\"more\":0}", ENDLESS, ""),
        &["[106] 1"],
    ),
    (Alone("{\"parents\":[]}", ENDLESS, ""), &["[106] 1"]),
    (Alone("{\"records\":[]}", ENDLESS, ""), &["[106] 1"]),
    (
        Alone("{\"parents\":[],\"Records\":[]}", ENDLESS, ""),
        &["[106] 1"],
    ),
    (
        Alone("{\"parents\":0,\"records\":[]}", ENDLESS, ""),
        &["[106] 1"],
    ),
];

/// The rows of this table.
pub fn rows() -> &'static [Row] {
    ROWS
}
