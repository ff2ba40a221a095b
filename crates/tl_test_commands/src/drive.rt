//! What the command `drive` prints, the trails that it leaves, and what `audit` finds in them.

mod refused_first;
mod refused_moves;
mod refused_scripts;
mod trails;
mod turns;
mod undone;

use crate::commands::Table;

/// The beginning of a script, the part between its moves and its procedures, and its end.
const MOVES: &str = "{\"moves\":[";

const PROCS: &str = "],\"procs\":[";

const END: &str = "]}";

/// Call 2 reaches node 2 before call 0, which began first.
const THREE_CALLS: &str =
    "[\"both\",[11]],0,0,0,0,[\"look\",[1]],1,1,1,1,1,[\"store\",[2,22]],2,2,2,2,0,0,0,0,0,0,0";

/// Call 1 holds node 2 when call 0 asks for it, and call 0 goes on once the node is free.
const ONE_WAITS: &str = "[\"both\",[11]],[\"look\",[2]],1,0,0,0,0,0,0,1,1,1,1,0,0,0,0,0,0";

/// Two calls go down one after the other.
const TWO_SWEEPS: &str =
    "[\"sweep\",[1]],[\"sweep\",[10]],0,1,0,1,0,1,0,1,0,1,0,1,0,1,0,1,0,1,0,1,0,1,0,1,0,1,0,1,0,1,0,1,0,1,0,1,0,1,0,1,0,1,0,1,0,1,0,1,0,1,0,1,0,1,0,1,0,1,0,1";

/// The tables of this command.
pub fn tables() -> [Table; 6] {
    [
        ("drive, turns", turns::rows()),
        ("drive, undone", undone::rows()),
        ("drive, trails", trails::rows()),
        ("drive, refused first", refused_first::rows()),
        ("drive, refused scripts", refused_scripts::rows()),
        ("drive, refused moves", refused_moves::rows()),
    ]
}
