// The trees and the procedures of the measured work.

use std::alloc::Global;
use std::sync::Arc;
use tl_instr::decode;
use tl_tree::{Record, Shape, Tree, USUAL_NODES};
use tl_verify::{Proc, verify};

// The opening record of a node: one to eight times the node's number.
fn record_of(node: u32) -> Record {
    let n = i64::from(node);
    [n, 2 * n, 3 * n, 4 * n, 5 * n, 6 * n, 7 * n, 8 * n]
}

/// The parents of a chain of `nodes` nodes.
pub fn chain(alloc: Global, nodes: u32) -> Option<Vec<u32>> {
    let mut parents = Vec::with_capacity(alloc, nodes as usize).ok()?;
    for node in 0..nodes {
        parents.push(node.saturating_sub(1)).ok()?;
    }
    Some(parents)
}

/// The tree with these parents, if they form a tree.
pub fn tree_of(alloc: Global, parents: &[u32]) -> Option<Tree> {
    let mut numbers = Vec::with_capacity(alloc, parents.len()).ok()?;
    for parent in parents {
        numbers.push(i64::from(*parent)).ok()?;
    }
    let shape = Shape::new(alloc, &numbers, USUAL_NODES).ok()?;
    let nodes = shape.node_count();
    let mut records = Vec::with_capacity(alloc, nodes as usize).ok()?;
    for node in 0..nodes {
        records.push(record_of(node)).ok()?;
    }
    Tree::new(Arc::new(alloc, shape).ok()?, records).ok()
}

/// The procedure of a container, if the verifier accepts it.
pub fn procedure_of(alloc: Global, code: &[u8]) -> Option<Proc> {
    let code = decode(alloc, code).ok()?;
    verify(alloc, code).ok()
}
