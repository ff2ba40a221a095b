//! What the command `audit` prints of three calls that took turns.

use crate::commands::Command::Audit;
use crate::commands::{Parts, Row};
use crate::texts::THREE;

/// A root with two children. The records of one text all have four fields, or all have eight.
const FORK: &str = "{\"parents\":[0,0,0],\"records\":[[0,0,0,0],[10,0,0,0],[20,0,0,0]]}";

/// The part of the trail before its events: the calls with their replies, and the records at the end.
const CALLS: &str =
    "{\"calls\":[[\"both\",[11],[22]],[\"look\",[1],[11]],[\"store\",[2,22],[]]],\"end\":[[0,0,0,0],[11,0,0,0],[22,0,0,0]],\"events\":[";

/// The same with another reply of call 1, or without one; with another record of node 2 at the end; with another argument of call
/// 0; and with 13 in place of the number that call 0 writes.
const REPLY_12: &str =
    "{\"calls\":[[\"both\",[11],[22]],[\"look\",[1],[12]],[\"store\",[2,22],[]]],\"end\":[[0,0,0,0],[11,0,0,0],[22,0,0,0]],\"events\":[";

const NO_REPLY: &str =
    "{\"calls\":[[\"both\",[11],[22]],[\"look\",[1],null],[\"store\",[2,22],[]]],\"end\":[[0,0,0,0],[11,0,0,0],[22,0,0,0]],\"events\":[";

const END_23: &str =
    "{\"calls\":[[\"both\",[11],[22]],[\"look\",[1],[11]],[\"store\",[2,22],[]]],\"end\":[[0,0,0,0],[11,0,0,0],[23,0,0,0]],\"events\":[";

const ARGS_12: &str =
    "{\"calls\":[[\"both\",[12],[22]],[\"look\",[1],[11]],[\"store\",[2,22],[]]],\"end\":[[0,0,0,0],[11,0,0,0],[22,0,0,0]],\"events\":[";

const ALL_13: &str =
    "{\"calls\":[[\"both\",[11],[22]],[\"look\",[1],[13]],[\"store\",[2,22],[]]],\"end\":[[0,0,0,0],[13,0,0,0],[22,0,0,0]],\"events\":[";

/// The parts after the events, before the procedures and before the tree, and one with another member in place of the tree.
const PROCS: &str = "],\"procs\":[";

const TREE: &str = "],\"tree\":";

const TREES: &str = "],\"trees\":";

// The events.

const E0: &str = "[\"a\",0]";

const E1: &str = ",[\"l\",0,0,[0,0,0,0]]";

const E2: &str = ",[\"l\",0,1,[10,0,0,0]]";

const E3: &str = ",[\"f\",0,1,[11,0,0,0]]";

const E4: &str = ",[\"a\",1]";

const E5: &str = ",[\"l\",1,1,[11,0,0,0]]";

const E6: &str = ",[\"f\",1,1,[11,0,0,0]]";

const E7: &str = ",[\"d\",1]";

const E8: &str = ",[\"a\",2]";

const E9: &str = ",[\"l\",2,2,[20,0,0,0]]";

const E10: &str = ",[\"f\",2,2,[22,0,0,0]]";

const E11: &str = ",[\"d\",2]";

const E12: &str = ",[\"l\",0,2,[22,0,0,0]]";

const E13: &str = ",[\"f\",0,2,[22,0,0,0]]";

const E14: &str = ",[\"f\",0,0,[0,0,0,0]]";

const E15: &str = ",[\"d\",0]";

// Events with other records.

const E5_12: &str = ",[\"l\",1,1,[12,0,0,0]]";

const E3_13: &str = ",[\"f\",0,1,[13,0,0,0]]";

const E5_13: &str = ",[\"l\",1,1,[13,0,0,0]]";

const E6_13: &str = ",[\"f\",1,1,[13,0,0,0]]";

/// The trail.
pub const WHOLE: Parts = &[
    CALLS, E0, E1, E2, E3, E4, E5, E6, E7, E8, E9, E10, E11, E12, E13, E14, E15, PROCS, THREE,
    TREE, FORK, "}",
];

/// The order, or the first fault.
const ROWS: &[Row] = &[
    // The unchanged trail.
    (Audit(WHOLE), &["{\"order\":[2,0,1]}\n"]),
    // Event 3 is taken out.
    (
        Audit(&[
            CALLS, E0, E1, E2, E4, E5, E6, E7, E8, E9, E10, E11, E12, E13, E14, E15, PROCS, THREE,
            TREE, FORK, "}",
        ]),
        &["[712, 4] 1"],
    ),
    // Event 6 is taken out.
    (
        Audit(&[
            CALLS, E0, E1, E2, E3, E4, E5, E7, E8, E9, E10, E11, E12, E13, E14, E15, PROCS, THREE,
            TREE, FORK, "}",
        ]),
        &["[711, 6] 1"],
    ),
    // Event 14 comes before event 12.
    (
        Audit(&[
            CALLS, E0, E1, E2, E3, E4, E5, E6, E7, E8, E9, E10, E11, E14, E12, E13, E15, PROCS,
            THREE, TREE, FORK, "}",
        ]),
        &["[711, 13] 1"],
    ),
    // Events 4 and 8 are swapped.
    (
        Audit(&[
            CALLS, E0, E1, E2, E3, E8, E5, E6, E7, E4, E9, E10, E11, E12, E13, E14, E15, PROCS,
            THREE, TREE, FORK, "}",
        ]),
        &["[711, 4] 1"],
    ),
    // Event 15 is taken out.
    (
        Audit(&[
            CALLS, E0, E1, E2, E3, E4, E5, E6, E7, E8, E9, E10, E11, E12, E13, E14, PROCS, THREE,
            TREE, FORK, "}",
        ]),
        &["[715, 0] 1"],
    ),
    // Event 5 has found another record.
    (
        Audit(&[
            CALLS, E0, E1, E2, E3, E4, E5_12, E6, E7, E8, E9, E10, E11, E12, E13, E14, E15, PROCS,
            THREE, TREE, FORK, "}",
        ]),
        &["[713, 5] 1"],
    ),
    // Call 1 has another reply.
    (
        Audit(&[
            REPLY_12, E0, E1, E2, E3, E4, E5, E6, E7, E8, E9, E10, E11, E12, E13, E14, E15, PROCS,
            THREE, TREE, FORK, "}",
        ]),
        &["[717, 1] 1"],
    ),
    // Call 1 has no reply.
    (
        Audit(&[
            NO_REPLY, E0, E1, E2, E3, E4, E5, E6, E7, E8, E9, E10, E11, E12, E13, E14, E15, PROCS,
            THREE, TREE, FORK, "}",
        ]),
        &["[717, 1] 1"],
    ),
    // Node 2 has another record at the end.
    (
        Audit(&[
            END_23, E0, E1, E2, E3, E4, E5, E6, E7, E8, E9, E10, E11, E12, E13, E14, E15, PROCS,
            THREE, TREE, FORK, "}",
        ]),
        &["[716, 2] 1"],
    ),
    // The events fit together, but call 0 doesn't do them: it would write another number.
    (
        Audit(&[
            ARGS_12, E0, E1, E2, E3, E4, E5, E6, E7, E8, E9, E10, E11, E12, E13, E14, E15, PROCS,
            THREE, TREE, FORK, "}",
        ]),
        &["[714, 0] 1"],
    ),
    // The same, with 13 in place of the number that call 0 writes, wherever it stands.
    (
        Audit(&[
            ALL_13, E0, E1, E2, E3_13, E4, E5_13, E6_13, E7, E8, E9, E10, E11, E12, E13, E14, E15,
            PROCS, THREE, TREE, FORK, "}",
        ]),
        &["[714, 0] 1"],
    ),
    // Another member.
    (
        Audit(&[
            CALLS, E0, E1, E2, E3, E4, E5, E6, E7, E8, E9, E10, E11, E12, E13, E14, E15, PROCS,
            THREE, TREES, FORK, "}",
        ]),
        &["[701] 1"],
    ),
];

/// The rows of this table.
pub fn rows() -> &'static [Row] {
    ROWS
}
