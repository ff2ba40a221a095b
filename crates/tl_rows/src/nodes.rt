// The rows of nodes.

ghost use Rattle.std.specs.Prelude.{◌≡◌, All, pos, map, IfOk};
ghost use Rattle.tl_rows.specs.Rows.{parent_in};

use std::alloc::{AllocError, Global};
use tl_ledger::NodeRow;
use tl_tree::Shape;

/// The rows of a shape's nodes, which were there first at the beginning of that epoch.
pub fn node_rows(alloc: Global, shape: &Shape, epoch: i64) -> Result<Vec<NodeRow>, AllocError>
    ensures parents { IfOk result (λ v. map parent_in v.items ≡ map pos shape.now) }
    ensures epoch { IfOk result (λ v. All (λ r. r.epoch ≡ epoch) v.items) }
{
    let mut rows = Vec::new(alloc);
    for node in 0..shape.node_count() {
        rows.push(NodeRow {
            parent: i64::from(shape.parent(node)),
            epoch,
        })?;
    }
    Ok(rows)
}
