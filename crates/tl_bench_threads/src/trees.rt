// The measured trees and procedures.

use crate::asked::Asked;
use std::alloc::Global;
use std::sync::Arc;
use tl_instr::decode;
use tl_tree::{Record, Shape, Tree, USUAL_NODES};
use tl_verify::{Proc, verify};

// The opening record of a node: one to eight times the node's number.
fn record_of(node: u32) -> Record {
    let n = i64::from(node);
    [n, 2 * n, 3 * n, 4 * n, 5 * n, 6 * n, 7 * n, 8 * n]
}

// The parent of a node in chains of `chain` nodes below the root.
fn parent_of(node: u32, chain: u32) -> i64 {
    if node == 0 || chain == 0 || (node - 1) % chain == 0 {
        return 0;
    }
    i64::from(node - 1)
}

/// A tree of `nodes` nodes in chains of `chain` nodes below the root.
pub fn chains(alloc: Global, nodes: u32, chain: u32) -> Option<Tree> {
    let mut parents = Vec::with_capacity(alloc, nodes as usize).ok()?;
    for node in 0..nodes {
        parents.push(parent_of(node, chain)).ok()?;
    }
    let shape = Shape::new(alloc, &parents, USUAL_NODES).ok()?;
    let count = shape.node_count();
    let mut records = Vec::with_capacity(alloc, count as usize).ok()?;
    for node in 0..count {
        records.push(record_of(node)).ok()?;
    }
    Tree::new(Arc::new(alloc, shape).ok()?, records).ok()
}

/// The first node of the chain for call `call`: the chains take turns.
pub fn head(call: usize, asked: &Asked) -> Option<i64> {
    let count = asked.nodes.checked_div(asked.chain)?;
    let chain = call.checked_rem(count as usize)?;
    let node = chain.checked_mul(asked.chain as usize)?.checked_add(1)?;
    i64::try_from(node).ok()
}

/// The procedure of a container, if the verifier accepts it.
pub fn procedure_of(alloc: Global, container: &[u8]) -> Option<Proc> {
    verify(alloc, decode(alloc, container).ok()?).ok()
}
