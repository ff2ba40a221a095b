// The command `widen`.

ghost use Rattle.std.specs.Prelude.{◌≡◌, length, codes, string_bytes, IfOk, IfErr};
ghost use Rattle.serde_json.specs.Data.{object, member, no_members};
ghost use Rattle.serde_json.specs.View.{view};
ghost use Rattle.tl_commands.specs.Widening.{nodes_text, WidensTree, IsFirstWideningFault};

use crate::fault::CliFault;
use crate::inputs::tree_of_file;
use crate::outputs::tree_file;
use serde_json::{Value, json};
use std::alloc::{AllocError, Global};
use tl_lines::line_of;
use tl_tree::Tree;

fn nodes_to_value(alloc: Global, nodes: Value) -> Result<Value, AllocError>
    ensures { IfOk result (λ v. view v ≡ object (member (codes "nodes") (view nodes) no_members)) }
{
    json!(in alloc; {"nodes": nodes})
}

// The line that says how many nodes a tree has.
fn nodes_line(alloc: Global, tree: &Tree) -> Result<String, AllocError>
    ensures { IfOk result (λ s. string_bytes s ≡ nodes_text (length tree.now.parents)) }
{
    let value = nodes_to_value(alloc, Value::from(tree.shape().node_count()))?;
    line_of(alloc, &value)
}

/// The line that says how many nodes a tree has, and the text of the tree, whose records have eight fields. Takes the bytes
/// of the tree's file. If its records all have four fields, the others are 0.
///
/// Otherwise the tree's first fault, 101 to 106. If memory was refused, 190 or 990.
pub fn widen_cmd(alloc: Global, tree: &[u8], limit: u32) -> Result<(String, String), CliFault>
    ensures printed { IfOk result (λ r. WidensTree limit tree.now (string_bytes r.0) (string_bytes r.1)) }
    ensures fault { IfErr result (λ e. IsFirstWideningFault limit tree.now e) }
{
    let tree = tree_of_file(alloc, tree, limit).map_err(CliFault::Tree)?;
    let text = tree_file(alloc, &tree)?;
    let line = nodes_line(alloc, &tree)?;
    Ok((line, text))
}
