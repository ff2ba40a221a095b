//! The trees and procedures of the examples, which the tests of several crates run.
#![tactic(auto)]

use std::alloc::Global;
use std::test::Fail;
use tl_asm::assemble;
use tl_tree::{Tree, USUAL_NODES, read_tree};
use tl_verify::{Proc, verify};

/// A node whose field 0 is 5.
pub const ONE_NODE: &str = "{\"parents\":[0],\"records\":[[5,0,0,0,0,0,0,0]]}";

/// A root with two children.
pub const FORK: &str =
    "{\"parents\":[0,0,0],\"records\":[[0,0,0,0,0,0,0,0],[10,0,0,0,0,0,0,0],[20,0,0,0,0,0,0,0]]}";

/// A root with a child that has a child.
pub const CHAIN: &str =
    "{\"parents\":[0,0,1],\"records\":[[0,0,0,0,0,0,0,0],[0,0,0,0,0,0,0,0],[7,0,0,0,0,0,0,0]]}";

/// Locks the node `v0`, adds `v1` to its field 0, and emits the sum.
pub const ADD: &str = "arity 2
first n0 v0 else L6
get v2 n0 0
add v2 v2 v1 else L4
put n0 0 v2
L4:
emit v2
rel n0
L6:
ret
";

/// Emits the quotient of `v0` and `v1`.
pub const QUO: &str = "arity 2
div v2 v0 v1 else L2
emit v2
L2:
ret
";

/// Emits field 0 of the node `v0`.
pub const LOOK: &str = "arity 1
first n0 v0 else L4
get v1 n0 0
emit v1
rel n0
L4:
ret
";

/// Puts `v1` into field 0 of the node `v0`.
pub const STORE: &str = "arity 2
first n0 v0 else L3
put n0 0 v1
rel n0
L3:
ret
";

/// Writes field 0 of the root's first child, and emits that of the second.
pub const BOTH: &str = "arity 1
first n0 v1 else L10
child n1 n0 v1 else L9
put n1 0 v0
rel n1
set v2 1
child n1 n0 v2 else L9
get v3 n1 0
emit v3
rel n1
L9:
rel n0
L10:
ret
";

/// Descends from the node `v0` by first children, at most twelve times, and emits field 0 of the last node.
pub const WALK: &str = "arity 1
first n0 v0 else L9
rep 12
child n1 n0 v1 else L6
rel n0
move n0 n1
end
L6:
get v2 n0 0
emit v2
rel n0
L9:
ret
";

/// Adds `v0` to field 0 of each node on the path down from the root by first children.
pub const SWEEP: &str = "arity 1
first n0 v1 else L10
rep 12
get v2 n0 0
add v2 v2 v0 else L4
L4:
put n0 0 v2
child n1 n0 v1 else L9
rel n0
move n0 n1
end
L9:
rel n0
L10:
ret
";

/// Locks the root's second child, and then asks for the first one.
pub const TURN: &str = "arity 0
first n0 v0 else L9
set v1 1
child n1 n0 v1 else L8
rel n1
child n1 n0 v0 else L7
emit v1
rel n1
L7:
emit v0
L8:
rel n0
L9:
ret
";

/// The procedure of a text.
pub fn procedure_of(alloc: Global, text: &str) -> Result<Proc, Fail> {
    Ok(verify(alloc, assemble(alloc, text)?).ok().ok_or("refused")?)
}

/// The tree of a text.
pub fn tree_of(alloc: Global, text: &str) -> Result<Tree, Fail> {
    Ok(read_tree(alloc, text, USUAL_NODES)?)
}
