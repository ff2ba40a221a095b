//! What the commands print of several epochs: `run` of a script with epochs, and `audit` of a chain of trails.

use crate::commands::Command::{Audit, Run, RunAudit, RunTrail};
use crate::commands::{Parts, Row};
use crate::texts::ONE_NODE;

/// The part of a script after its lists of calls: a procedure that adds to a node's field.
const ADDS: &str =
    "],\"procs\":[[\"add\",\"arity 2\\nfirst n0 v0 else L6\\nget v2 n0 0\\nadd v2 v2 v1 else L4\\nput n0 0 v2\\nL4:\\nemit v2\\nrel n0\\nL6:\\nret\\n\"]]}";

/// Two epochs with one call each.
const TWO: Parts = &["{\"epochs\":[[[\"add\",[0,3]]],[[\"add\",[0,1]]]", ADDS];

/// The trail of the first epoch, in parts.
const CALLS_0: &str = "{\"calls\":[[\"add\",[0,3],[8]]],";

const REPLY_7: &str = "{\"calls\":[[\"add\",[0,3],[7]]],";

const EVENTS_0: &str =
    "\"end\":[[8,0,0,0,0,0,0,0]],\"events\":[[\"a\",0],[\"l\",0,0,[5,0,0,0,0,0,0,0]],[\"f\",0,0,[8,0,0,0,0,0,0,0]],[\"d\",0]";

const TREE_5: &str = ",\"tree\":{\"parents\":[0],\"records\":[[5,0,0,0,0,0,0,0]]}}";

/// The trail of the second epoch.
const CALLS_1: &str = "{\"calls\":[[\"add\",[0,1],[9]]],";

const EVENTS_1: &str =
    "\"end\":[[9,0,0,0,0,0,0,0]],\"events\":[[\"a\",0],[\"l\",0,0,[8,0,0,0,0,0,0,0]],[\"f\",0,0,[9,0,0,0,0,0,0,0]],[\"d\",0]";

const TREE_8: &str = ",\"tree\":{\"parents\":[0],\"records\":[[8,0,0,0,0,0,0,0]]}}";

const TREE_7: &str = ",\"tree\":{\"parents\":[0],\"records\":[[7,0,0,0,0,0,0,0]]}}";

/// The second trail with records of four fields, and the first trail with another name of its procedure.
const EVENTS_1_OF_FOUR: &str =
    "\"end\":[[9,0,0,0]],\"events\":[[\"a\",0],[\"l\",0,0,[8,0,0,0]],[\"f\",0,0,[9,0,0,0]],[\"d\",0]";

const TREE_8_OF_FOUR: &str = ",\"tree\":{\"parents\":[0],\"records\":[[8,0,0,0]]}}";

const PROCS: &str =
    "],\"procs\":[[\"add\",\"arity 2\\nfirst n0 v0 else L6\\nget v2 n0 0\\nadd v2 v2 v1 else L4\\nput n0 0 v2\\nL4:\\nemit v2\\nrel n0\\nL6:\\nret\\n\"]]";

const MORE_PROCS: &str =
    "],\"procs\":[[\"add\",\"arity 2\\nfirst n0 v0 else L6\\nget v2 n0 0\\nadd v2 v2 v1 else L4\\nput n0 0 v2\\nL4:\\nemit v2\\nrel n0\\nL6:\\nret\\n\"],[\"more\",\"arity 0\\nret\"]]";

/// An empty trail on the same node.
const EMPTY: &str = "{\"calls\":[],\"end\":[[9,0,0,0,0,0,0,0]],\"events\":[";

const TREE_9: &str = ",\"tree\":{\"parents\":[0],\"records\":[[9,0,0,0,0,0,0,0]]}}";

const NO_PROCS: &str = "],\"procs\":[]";

static ROWS: [Row; 25] = [
    (
        Run(ONE_NODE, TWO),
        &[
            "{\"batch\":[{\"call\":0,\"reply\":[8]}]}\n{\"batch\":[{\"call\":0,\"epoch\":1,\"reply\":[9]}]}\n{\"orders\":[[0],[0]]}\n{\"parents\":[0],\"records\":[[9,0,0,0,0,0,0,0]]}\n",
        ],
    ),
    // Its file is the list of the two trails.
    (
        RunTrail(ONE_NODE, TWO),
        &[
            "[", CALLS_0, EVENTS_0, PROCS, TREE_5, ",", CALLS_1, EVENTS_1, PROCS, TREE_8, "]\n",
        ],
    ),
    (RunAudit(ONE_NODE, TWO), &["{\"orders\":[[0],[0]]}\n"]),
    // With one list of calls, the orders are printed, and the file is the trail alone.
    (
        Run(
            ONE_NODE,
            &["{\"epochs\":[[[\"add\",[0,3]],[\"none\",[]]]", ADDS],
        ),
        &[
            "{\"batch\":[{\"call\":0,\"reply\":[8]},{\"error\":[601]}]}\n{\"orders\":[[0]]}\n{\"parents\":[0],\"records\":[[8,0,0,0,0,0,0,0]]}\n",
        ],
    ),
    (
        RunTrail(ONE_NODE, &["{\"epochs\":[[[\"add\",[0,3]]]", ADDS]),
        &[CALLS_0, EVENTS_0, PROCS, TREE_5, "\n"],
    ),
    (
        RunAudit(ONE_NODE, &["{\"epochs\":[[[\"add\",[0,3]]]", ADDS]),
        &["{\"order\":[0]}\n"],
    ),
    // An epoch in which every request is refused is an epoch too.
    (
        Run(
            ONE_NODE,
            &[
                "{\"epochs\":[[[\"none\",[]]],[[\"add\",[0]]],[[\"add\",[0,1]]]",
                ADDS,
            ],
        ),
        &[
            "{\"batch\":[{\"error\":[601]}]}\n{\"batch\":[{\"error\":[501]}]}\n{\"batch\":[{\"call\":0,\"epoch\":2,\"reply\":[6]}]}\n{\"orders\":[[],[],[0]]}\n{\"parents\":[0],\"records\":[[6,0,0,0,0,0,0,0]]}\n",
        ],
    ),
    (Run(ONE_NODE, &["{\"epochs\":[", ADDS]), &["[731] 1"]),
    (Run(ONE_NODE, &["{\"epochs\":[[]", ADDS]), &["[731] 1"]),
    (
        Run(ONE_NODE, &["{\"epochs\":[[[\"add\",[0,3]]],[]", ADDS]),
        &["[731] 1"],
    ),
    (
        Run(ONE_NODE, &["{\"epochs\":[[\"add\",[0,3]]", ADDS]),
        &["[731] 1"],
    ),
    // The whole chain, with white space before it, and as a chain of one.
    (
        Audit(&[
            " \n\t\r[", CALLS_0, EVENTS_0, PROCS, TREE_5, " , ", CALLS_1, EVENTS_1, PROCS, TREE_8,
            "]",
        ]),
        &["{\"orders\":[[0],[0]]}\n"],
    ),
    (
        Audit(&["[", CALLS_0, EVENTS_0, PROCS, TREE_5, "]"]),
        &["{\"orders\":[[0]]}\n"],
    ),
    // Records of eight fields in one trail, and of four in the next one.
    (
        Audit(&[
            "[",
            CALLS_0,
            EVENTS_0,
            PROCS,
            TREE_5,
            ",",
            CALLS_1,
            EVENTS_1_OF_FOUR,
            PROCS,
            TREE_8_OF_FOUR,
            "]",
        ]),
        &["{\"orders\":[[0],[0]]}\n"],
    ),
    // The second trail opens with another record.
    (
        Audit(&[
            "[", CALLS_0, EVENTS_0, PROCS, TREE_5, ",", CALLS_1, EVENTS_1, PROCS, TREE_7, "]",
        ]),
        &["[718, 1] 1"],
    ),
    // The first trail's call has another reply. That is reported before the fault of the second trail.
    (
        Audit(&[
            "[", REPLY_7, EVENTS_0, PROCS, TREE_5, ",", CALLS_1, EVENTS_1, PROCS, TREE_7, "]",
        ]),
        &["[719, 0, 717, 0] 1"],
    ),
    // Procedures may be added, but none may disappear.
    (
        Audit(&[
            "[", CALLS_0, EVENTS_0, PROCS, TREE_5, ",", CALLS_1, EVENTS_1, MORE_PROCS, TREE_8, ",",
            EMPTY, MORE_PROCS, TREE_9, "]",
        ]),
        &["{\"orders\":[[0],[0],[]]}\n"],
    ),
    (
        Audit(&[
            "[", CALLS_0, EVENTS_0, PROCS, TREE_5, ",", CALLS_1, EVENTS_1, MORE_PROCS, TREE_8, ",",
            EMPTY, PROCS, TREE_9, "]",
        ]),
        &["[718, 2] 1"],
    ),
    (
        Audit(&[
            "[", CALLS_0, EVENTS_0, PROCS, TREE_5, ",", CALLS_1, EVENTS_1, PROCS, TREE_8, ",",
            EMPTY, NO_PROCS, TREE_9, "]",
        ]),
        &["[718, 2] 1"],
    ),
    // Texts that aren't a list of trails.
    (Audit(&["[]"]), &["[701] 1"]),
    (Audit(&["[0]"]), &["[701] 1"]),
    (
        Audit(&["[", CALLS_0, EVENTS_0, PROCS, TREE_5]),
        &["[701] 1"],
    ),
    (
        Audit(&["[", CALLS_0, EVENTS_0, PROCS, TREE_5, ",]"]),
        &["[701] 1"],
    ),
    // All trails are read before the audit: the second one has no procedure of that name.
    (
        Audit(&[
            "[", REPLY_7, EVENTS_0, PROCS, TREE_5, ",", CALLS_1, EVENTS_1, NO_PROCS, TREE_8, "]",
        ]),
        &["[601] 1"],
    ),
    // A fault of the first trail isn't reported if what follows isn't JSON.
    (
        Audit(&[
            "[", CALLS_0, EVENTS_0, NO_PROCS, TREE_5, ",", CALLS_1, EVENTS_1, NO_PROCS, TREE_8, "}",
        ]),
        &["[701] 1"],
    ),
];

/// The rows of this table.
pub fn rows() -> &'static [Row] {
    &ROWS
}
