//! Parents that don't form a tree, and a number of records that differs from the number of nodes.

use crate::alone::ENDLESS;
use crate::commands::Command::Alone;
use crate::commands::Row;

const ROWS: &[Row] = &[
    (
        Alone("{\"parents\":[],\"records\":[]}", ENDLESS, ""),
        &["[101] 1"],
    ),
    (
        Alone("{\"parents\":[1],\"records\":[]}", ENDLESS, ""),
        &["[103] 1"],
    ),
    (
        Alone("{\"parents\":[-1,1],\"records\":[]}", ENDLESS, ""),
        &["[103] 1"],
    ),
    (
        Alone("{\"parents\":[0,0,2,-1],\"records\":[]}", ENDLESS, ""),
        &["[104, 2] 1"],
    ),
    (
        Alone("{\"parents\":[0,0,1,-1],\"records\":[]}", ENDLESS, ""),
        &["[104, 3] 1"],
    ),
    (
        Alone("{\"parents\":[0],\"records\":[]}", ENDLESS, ""),
        &["[105] 1"],
    ),
    (
        Alone(
            "{\"parents\":[0],\"records\":[[1,2,3,4,0,0,0,0],[1,2,3,4,0,0,0,0]]}",
            ENDLESS,
            "",
        ),
        &["[105] 1"],
    ),
];

/// The rows of this table.
pub fn rows() -> &'static [Row] {
    ROWS
}
