//! The trail of calls that are done, and the order that the auditor finds in it.

use crate::commands::Command::{DriveAudit, Trail};
use crate::commands::Row;
use crate::drive::{END, MOVES, ONE_WAITS, PROCS, THREE_CALLS, TWO_SWEEPS};
use crate::texts::{FORK, LOOK_ALONE, SWEEP_ALONE, THREE, ZEROS};

/// A tree with the least number, the numbers around 0 and the greatest number.
const WIDE: &str =
    "{\"parents\":[0,0],\"records\":[[0,0,0,0,0,0,0,0],[-9223372036854775808,-1,0,9223372036854775807,0,0,0,0]]}";

const ROWS: &[Row] = &[
    (
        Trail(FORK, &[MOVES, THREE_CALLS, PROCS, THREE, END]),
        &[
            "{\"calls\":[[\"both\",[11],[22]],[\"look\",[1],[11]],[\"store\",[2,22],[]]],\"end\":[[0,0,0,0,0,0,0,0],[11,0,0,0,0,0,0,0],[22,0,0,0,0,0,0,0]],\"events\":[[\"a\",0],[\"l\",0,0,[0,0,0,0,0,0,0,0]],[\"l\",0,1,[10,0,0,0,0,0,0,0]],[\"f\",0,1,[11,0,0,0,0,0,0,0]],[\"a\",1],[\"l\",1,1,[11,0,0,0,0,0,0,0]],[\"f\",1,1,[11,0,0,0,0,0,0,0]],[\"d\",1],[\"a\",2],[\"l\",2,2,[20,0,0,0,0,0,0,0]],[\"f\",2,2,[22,0,0,0,0,0,0,0]],[\"d\",2],[\"l\",0,2,[22,0,0,0,0,0,0,0]],[\"f\",0,2,[22,0,0,0,0,0,0,0]],[\"f\",0,0,[0,0,0,0,0,0,0,0]],[\"d\",0]],\"procs\":[",
            THREE,
            "],\"tree\":",
            FORK,
            "}\n",
        ],
    ),
    (
        DriveAudit(FORK, &[MOVES, THREE_CALLS, PROCS, THREE, END]),
        &["{\"order\":[2,0,1]}\n"],
    ),
    // No call at all.
    (
        DriveAudit(FORK, &[MOVES, "", PROCS, THREE, ",", SWEEP_ALONE, END]),
        &["{\"order\":[]}\n"],
    ),
    (
        DriveAudit(
            FORK,
            &[MOVES, ONE_WAITS, PROCS, THREE, ",", SWEEP_ALONE, END],
        ),
        &["{\"order\":[1,0]}\n"],
    ),
    (
        DriveAudit(
            ZEROS,
            &[MOVES, TWO_SWEEPS, PROCS, THREE, ",", SWEEP_ALONE, END],
        ),
        &["{\"order\":[0,1]}\n"],
    ),
    // Without a call there is no event, and a record's numbers stay as they are.
    (
        Trail(WIDE, &[MOVES, PROCS, END]),
        &[
            "{\"calls\":[],\"end\":[[0,0,0,0,0,0,0,0],[-9223372036854775808,-1,0,9223372036854775807,0,0,0,0]],\"events\":[],\"procs\":[],\"tree\":",
            WIDE,
            "}\n",
        ],
    ),
    (
        Trail(
            WIDE,
            &[MOVES, "[\"look\",[1]],0,0,0,0,0", PROCS, LOOK_ALONE, END],
        ),
        &[
            "{\"calls\":[[\"look\",[1],[-9223372036854775808]]],\"end\":[[0,0,0,0,0,0,0,0],[-9223372036854775808,-1,0,9223372036854775807,0,0,0,0]],\"events\":[[\"a\",0],[\"l\",0,1,[-9223372036854775808,-1,0,9223372036854775807,0,0,0,0]],[\"f\",0,1,[-9223372036854775808,-1,0,9223372036854775807,0,0,0,0]],[\"d\",0]],\"procs\":[",
            LOOK_ALONE,
            "],\"tree\":",
            WIDE,
            "}\n",
        ],
    ),
    (
        DriveAudit(
            WIDE,
            &[MOVES, "[\"look\",[1]],0,0,0,0,0", PROCS, LOOK_ALONE, END],
        ),
        &["{\"order\":[0]}\n"],
    ),
];

/// The rows of this table.
pub fn rows() -> &'static [Row] {
    ROWS
}
