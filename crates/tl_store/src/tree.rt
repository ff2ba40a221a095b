// The nodes and their records.

ghost use Rattle.std.specs.Prelude.{◌≡◌, ℕ, List, pos, map, length, IfOk, MatchResult};
ghost use Rattle.tl_tree.specs.Shape.{IsTree};
ghost use Rattle.tl_store.specs.declared.fault.StoreFault.TheVariants.{Memory};
ghost use Rattle.tl_rows.specs.Rows.{parent_in, fields_in};

use crate::fault::StoreFault;
use std::alloc::{AllocError, Global};
use std::sync::Arc;
use tl_ledger::{NODE, NodeRow, RECORD, RecordRow};
use tl_tree::{Record, Shape, Tree, TreeFault};

fn parents_of(alloc: Global, nodes: &[NodeRow]) -> Result<Vec<i64>, AllocError>
    ensures { IfOk result (λ v. v.items ≡ map parent_in nodes.now) }
{
    let mut parents = Vec::new(alloc);
    for node in nodes {
        parents.push(node.parent)?;
    }
    Ok(parents)
}

fn records_of(alloc: Global, rows: &[RecordRow]) -> Result<Vec<Record>, AllocError>
    ensures { IfOk result (λ v. v.items ≡ map fields_in rows.now) }
{
    let mut records = Vec::new(alloc);
    for row in rows {
        records.push(row.fields)?;
    }
    Ok(records)
}

/// The tree of these nodes with these records. 1003 and the table of the nodes if they make no tree of 1 to 4,294,967,295 nodes, and that of the records
/// if there aren't as many.
pub fn tree_of(alloc: Global, nodes: &[NodeRow], records: &[RecordRow]) -> Result<Tree, StoreFault>
    ensures parents { IfOk result (λ t. map pos t.parents ≡ map parent_in nodes.now) }
    ensures records { IfOk result (λ t. t.records ≡ map fields_in records.now) }
    ensures again { (parents : List ℕ) → IsTree parents → map parent_in nodes.now ≡ map pos parents → length records.now ≡ length parents
        → MatchResult result (λ t. t.parents ≡ parents) (λ e. e ≡ Memory) }
{
    let parents = parents_of(alloc, nodes)?;
    let shape = match Shape::new(alloc, &parents, u32::MAX) {
        Ok(shape) => Arc::new(alloc, shape)?,
        Err(TreeFault::Memory) => return Err(StoreFault::Memory),
        Err(_) => return Err(StoreFault::BadRow { table: NODE }),
    };
    let records = records_of(alloc, records)?;
    match Tree::new(shape, records) {
        Ok(tree) => Ok(tree),
        Err(_) => Err(StoreFault::BadRow { table: RECORD }),
    }
}
