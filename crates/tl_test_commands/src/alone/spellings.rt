//! Other spellings of one tree. A record of four numbers is filled up with zeros.

use crate::commands::Command::Alone;
use crate::commands::Row;
use crate::texts::{FORK, LOOK, ONE_NODE, QUO};

const ROWS: &[Row] = &[
    (
        Alone(
            " {\"records\" : [[5,0,0,0]], \"parents\" : [0]}\n",
            LOOK,
            "[0]",
        ),
        &["{\"reply\":[5],\"steps\":5}\n", ONE_NODE, "\n"],
    ),
    (
        Alone(
            " {\n\t\"parents\" : [ 0, 0 ,0 ] ,\r\n \"records\":[[0,0,0,0], [10,0,0,0],[20,0,0,0]] } ",
            QUO,
            "[7,-2]",
        ),
        &["{\"reply\":[-3],\"steps\":3}\n", FORK, "\n"],
    ),
    (
        Alone(
            "{\"records\":[[0,0,0,0,0,0,0,0],[10,0,0,0,0,0,0,0],[20,0,0,0,0,0,0,0]],\"parents\":[0,0,0]}",
            QUO,
            "[7,-2]",
        ),
        &["{\"reply\":[-3],\"steps\":3}\n", FORK, "\n"],
    ),
    (
        Alone(
            "{\"\\u0070arents\":[0,0,0],\"rec\\u006frds\":[[0,0,0,0],[10,0,0,0],[20,0,0,0]]}",
            QUO,
            "[7,-2]",
        ),
        &["{\"reply\":[-3],\"steps\":3}\n", FORK, "\n"],
    ),
    (
        Alone(
            "{\"parents\":7,\"records\":[[0,0,0,0,0,0,0,0],[10,0,0,0,0,0,0,0],[20,0,0,0,0,0,0,0]],\"parents\":[0,0,0]}",
            QUO,
            "[7,-2]",
        ),
        &["{\"reply\":[-3],\"steps\":3}\n", FORK, "\n"],
    ),
];

/// The rows of this table.
pub fn rows() -> &'static [Row] {
    ROWS
}
