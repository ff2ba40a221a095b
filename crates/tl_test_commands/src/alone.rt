//! What the command `alone` prints of procedures that run alone on a tree: the reply, the steps and the resulting tree, or the
//! first fault of its inputs.

mod arithmetic;
mod division;
mod jumps;
mod loops;
mod nodes;
mod paths;
mod records;
mod refused_first;
mod refused_numbers;
mod refused_shapes;
mod refused_texts;
mod registers;
mod spellings;

use crate::commands::Table;

/// Code that isn't accepted, because it ends without `ret`.
const ENDLESS: &str = "arity 0\nset v0 1\n";

/// The tables of this command.
pub fn tables() -> [Table; 13] {
    [
        ("alone, arithmetic", arithmetic::rows()),
        ("alone, division", division::rows()),
        ("alone, registers", registers::rows()),
        ("alone, jumps", jumps::rows()),
        ("alone, loops", loops::rows()),
        ("alone, records", records::rows()),
        ("alone, nodes", nodes::rows()),
        ("alone, paths", paths::rows()),
        ("alone, spellings", spellings::rows()),
        ("alone, refused first", refused_first::rows()),
        ("alone, refused shapes", refused_shapes::rows()),
        ("alone, refused texts", refused_texts::rows()),
        ("alone, refused numbers", refused_numbers::rows()),
    ]
}
