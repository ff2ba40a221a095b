// The text of a tree.

ghost use Rattle.std.specs.Prelude.{◌≡◌, ◌≢◌, ◌≤◌, ℕ, Err, Ok, IfOk, IfErr, length, string_bytes};
ghost use Rattle.serde_json.specs.View.{view};
ghost use Rattle.tl_tree.specs.Reading.{tree_of, tree_of_text};
ghost use Rattle.tl_tree.specs.Writing.{tree_text};

use crate::fault::TreeFault;
use crate::record::Width;
use crate::tree::Tree;
use crate::value;
use serde_json::Value;
use std::alloc::Global;

// The tree of at most `limit` nodes that a value stands for, whose records are all wide or all narrow.
fn tree_of_value(alloc: Global, value: &Value, limit: u32) -> Result<Tree, TreeFault>
    ensures ok { IfOk result (λ t. tree_of limit (view value.now) ≡ Ok t) }
    ensures fault { IfErr result (λ e. e ≢ TreeFault.Memory → tree_of limit (view value.now) ≡ Err e) }
{
    match value::tree_from_value(alloc, Width::Wide, value, limit) {
        Err(TreeFault::NotTree) => value::tree_from_value(alloc, Width::Narrow, value, limit),
        answer => answer,
    }
}

/// The tree of at most `limit` nodes of a JSON text: `{"parents":[..],"records":[record,..]}`, an object with exactly these two members. The parents
/// are integers, and a record is a list of eight integers. If each record is a list of four, as in texts of the first
/// version, the other fields are 0.
///
/// The first fault: 106 for a text of another form, then 101 to 105 in their order. 190 if memory is refused.
pub fn read_tree(alloc: Global, text: &str, limit: u32) -> Result<Tree, TreeFault>
    ensures ok { IfOk result (λ t. tree_of_text limit text.now ≡ Ok t) }
    ensures fault { IfErr result (λ e. e ≢ TreeFault.Memory → tree_of_text limit text.now ≡ Err e) }
{
    match Value::from_str(alloc, text) {
        Ok(value) => tree_of_value(alloc, &value, limit),
        Err(e) => if e.is_memory() {
            Err(TreeFault::Memory)
        } else {
            Err(TreeFault::NotTree)
        },
    }
}

/// The text of a tree, with no spaces. 190 if memory is refused.
pub fn write_tree(alloc: Global, tree: &Tree) -> Result<String, TreeFault>
    ensures text { IfOk result (λ s. string_bytes s ≡ tree_text tree.now) }
    ensures reads_back { IfOk result (λ s. (limit : ℕ) → length tree.now.parents ≤ limit → tree_of_text limit (string_bytes s) ≡ Ok tree.now) }
    ensures err { IfErr result (λ e. e ≡ TreeFault.Memory) }
{
    let value = value::tree_to_value(alloc, tree)?;
    Ok(value.to_string(alloc)?)
}
