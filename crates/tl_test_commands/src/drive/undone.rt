//! Calls that aren't done, so that there is no order.

use crate::commands::Command::{Drive, DriveAudit, Trail};
use crate::commands::Row;
use crate::drive::{END, MOVES, PROCS};
use crate::texts::{FORK, LOOK_ALONE, ONE_NODE, SWEEP_ALONE, THREE};

/// Sixteen looks at no node.
const LOOKS_16: &str =
    "[\"look\",[-1]],[\"look\",[-1]],[\"look\",[-1]],[\"look\",[-1]],[\"look\",[-1]],[\"look\",[-1]],[\"look\",[-1]],[\"look\",[-1]],[\"look\",[-1]],[\"look\",[-1]],[\"look\",[-1]],[\"look\",[-1]],[\"look\",[-1]],[\"look\",[-1]],[\"look\",[-1]],[\"look\",[-1]],";

/// Call 0 isn't done.
const HALF_DONE: &str = "[\"look\",[1]],0";

const ROWS: &[Row] = &[
    // A call that has done nothing.
    (
        Drive(
            ONE_NODE,
            &[MOVES, "[\"look\",[0]]", PROCS, THREE, ",", SWEEP_ALONE, END],
        ),
        &[
            "{\"trace\":[[\"a\",0]]}\n",
            "{\"error\":[651,0]}\n",
            ONE_NODE,
            "\n",
        ],
    ),
    // Call 0 holds the node while call 1 asks for it, and isn't done. What it has written isn't visible.
    (
        Drive(
            ONE_NODE,
            &[
                MOVES,
                "[\"store\",[0,9]],[\"look\",[0]],[\"look\",[]],[\"none\",[]],7,0,0,1",
                PROCS,
                THREE,
                ",",
                SWEEP_ALONE,
                END,
            ],
        ),
        &[
            "{\"trace\":[[\"a\",0],[\"a\",1],[\"x\",501],[\"x\",601],[\"x\",602],[\"l\",0,0,[5,0,0,0,0,0,0,0]],[\"w\",0,0,0,9],[\"b\",1,0,0]]}\n",
            "{\"error\":[651,0]}\n",
            ONE_NODE,
            "\n",
        ],
    ),
    // 64 calls are admitted, and a 65th isn't. So there is a call 63, but no call 64.
    (
        Drive(
            FORK,
            &[
                MOVES,
                LOOKS_16,
                LOOKS_16,
                LOOKS_16,
                LOOKS_16,
                "[\"look\",[-1]],63,64",
                PROCS,
                LOOK_ALONE,
                END,
            ],
        ),
        &[
            "{\"trace\":[[\"a\",0],[\"a\",1],[\"a\",2],[\"a\",3],[\"a\",4],[\"a\",5],[\"a\",6],[\"a\",7],[\"a\",8],[\"a\",9],[\"a\",10],[\"a\",11],[\"a\",12],[\"a\",13],[\"a\",14],[\"a\",15],[\"a\",16],[\"a\",17],[\"a\",18],[\"a\",19],[\"a\",20],[\"a\",21],[\"a\",22],[\"a\",23],[\"a\",24],[\"a\",25],[\"a\",26],[\"a\",27],[\"a\",28],[\"a\",29],[\"a\",30],[\"a\",31],[\"a\",32],[\"a\",33],[\"a\",34],[\"a\",35],[\"a\",36],[\"a\",37],[\"a\",38],[\"a\",39],[\"a\",40],[\"a\",41],[\"a\",42],[\"a\",43],[\"a\",44],[\"a\",45],[\"a\",46],[\"a\",47],[\"a\",48],[\"a\",49],[\"a\",50],[\"a\",51],[\"a\",52],[\"a\",53],[\"a\",54],[\"a\",55],[\"a\",56],[\"a\",57],[\"a\",58],[\"a\",59],[\"a\",60],[\"a\",61],[\"a\",62],[\"a\",63],[\"x\",604],[\"s\",63],[\"x\",602]]}\n{\"error\":[651,0]}\n",
            FORK,
            "\n",
        ],
    ),
    // Its reply is null in the trail, and the auditor says so.
    (
        Drive(FORK, &[MOVES, HALF_DONE, PROCS, LOOK_ALONE, END]),
        &[
            "{\"trace\":[[\"a\",0],[\"l\",0,1,[10,0,0,0,0,0,0,0]]]}\n{\"error\":[651,0]}\n",
            FORK,
            "\n",
        ],
    ),
    (
        Trail(FORK, &[MOVES, HALF_DONE, PROCS, LOOK_ALONE, END]),
        &[
            "{\"calls\":[[\"look\",[1],null]],\"end\":[[0,0,0,0,0,0,0,0],[10,0,0,0,0,0,0,0],[20,0,0,0,0,0,0,0]],\"events\":[[\"a\",0],[\"l\",0,1,[10,0,0,0,0,0,0,0]]],\"procs\":[",
            LOOK_ALONE,
            "],\"tree\":",
            FORK,
            "}\n",
        ],
    ),
    (
        DriveAudit(FORK, &[MOVES, HALF_DONE, PROCS, LOOK_ALONE, END]),
        &["[715, 0] 1"],
    ),
];

/// The rows of this table.
pub fn rows() -> &'static [Row] {
    ROWS
}
