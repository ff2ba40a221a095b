// Trees and procedures. Each is made once more if memory is refused.

use crate::halt::Halt;
use std::alloc::Global;
use tl_json::procedure_of_text;
use tl_tree::{Tree, USUAL_NODES, read_tree};
use tl_verify::Proc;

/// The tree of a text.
pub fn tree_of(alloc: Global, text: &str) -> Result<Tree, Halt> {
    if let Ok(tree) = read_tree(alloc, text, USUAL_NODES) {
        return Ok(tree);
    }
    read_tree(alloc, text, USUAL_NODES).map_err(|_| Halt::Refused)
}

/// The procedure of a text.
pub fn procedure_of(alloc: Global, text: &str) -> Result<Proc, Halt> {
    if let Ok(procedure) = procedure_of_text(alloc, text) {
        return Ok(procedure);
    }
    procedure_of_text(alloc, text).map_err(|_| Halt::Refused)
}
