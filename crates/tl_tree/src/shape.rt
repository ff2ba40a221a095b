// The shape of a tree.

ghost use Rattle.std.specs.Prelude.{◌≡◌, ◌≢◌, ◌<◌, ◌≤◌, ◌↔◌, ℕ, List, ◌∷◌, Some, None, map, option_map, length, drop, pos, unsigned_abs, slice_index, slice_index_or, IsTrue, IfOk, IfErr, MatchResult};
ghost use Rattle.tl_tree.specs.Shape.{parent, kids, Above, IsTree, IsKid, IsIndex, lists_of, shape_of, first_astray, IsFirstAstray};

use crate::fault::TreeFault;
use std::alloc::{AllocError, Global};
use std::marker::Model;

/// The most nodes that a tree may have.
pub const MAX_NODES: usize = 4_294_967_295;

/// How many nodes a tree has at most where nobody asks for more.
pub const USUAL_NODES: u32 = 4_096;

/// The shape of a tree of 1 to 4,294,967,295 nodes, numbered from 0. Node 0 is the root. Each other node has a parent with a lower
/// number. A contract sees a shape as the list of the nodes' parents, where the root is its own parent.
#[derive(Debug, Drop)]
pub struct Shape {
    parents: Vec<u32>,
    // The children of each node, by rising number.
    kid_lists: Vec<Vec<u32>>,
}

impl Model for Shape {
    ghost use Rattle.std.specs.Prelude.{List, ℕ};
    ghost use Rattle.tl_tree.specs.Shape.{IsTree, IsIndex, lists_of};

    ghost Value = { List ℕ };

    ghost view = { λ s. s.parents.items };

    ghost invariant = { λ s. IsTree s.parents.items
        × IsIndex s.parents.items (lists_of s.kid_lists.items) };
}

impl Shape {
    /// The shape of at most `limit` nodes with these parents: 0 for node 0, and for each other node one with a lower number.
    ///
    /// The first fault, in this order: 101 for no nodes, 102 for more than `limit`, 103 if the root's parent isn't 0, and 104
    /// at the first other node whose parent isn't a node before it. 190 if memory is refused.
    pub fn new(alloc: Global, parents: &[i64], limit: u32) -> Result<Shape, TreeFault>
        ensures ok { IfOk result (λ s. shape_of limit parents.now ≡ Ok s) }
        ensures fault { IfErr result (λ e. e ≢ TreeFault.Memory → shape_of limit parents.now ≡ Err e) }

        // What is accepted is a tree's parents, a tree's parents are accepted, and the node of 104 is the least.
        ensures tree { IfOk result (λ s. IsTree s × (map pos s ≡ parents.now)) }
        ensures taken { (s : List ℕ) → IsTree s → length s ≤ limit → map pos s ≡ parents.now
            → MatchResult result (λ r. r ≡ s) (λ e. e ≡ TreeFault.Memory) }
        ensures astray { IfErr result
            (λ e. (x : ℕ) → e ≡ TreeFault.BadParent x → IsFirstAstray parents.now x) }
    {
        let parents = node_parents(alloc, parents, limit)?;
        let kid_lists = kid_lists(alloc, &parents)?;
        Ok(Shape { parents, kid_lists })
    }

    /// How many nodes there are: 1 to 4,294,967,295.
    pub fn node_count(&self) -> u32
        ensures count { result ≡ length self.now }
        ensures tree { IsTree self.now }
    {
        self.parents.len() as u32
    }

    /// The parent of a node; the root is its own.
    pub fn parent(&self, node: u32) -> u32
        requires { node < length self.now }
        ensures parent { result ≡ parent self.now node }
        ensures inside { result < length self.now }
    {
        self.parents[node as usize]
    }

    /// How many children a node has.
    pub fn kids(&self, node: u32) -> u32
        requires { node < length self.now }
        ensures count { result ≡ length (kids self.now node) }
        ensures tree { IsTree self.now }
    {
        self.kid_lists[node as usize].len() as u32
    }

    /// The node's child with that number, counted from 0. Children are numbered by rising node number.
    pub fn kid(&self, node: u32, number: u32) -> u32
        requires node { node < length self.now }
        requires number { number < length (kids self.now node) }
        ensures kid { result ≡ slice_index (kids self.now node) number }
        ensures child { IsKid self.now node result }
    {
        self.kid_lists[node as usize][number as usize]
    }

    /// Whether zero or more steps from a node to its parent lead from `lower` to `upper`.
    pub fn is_above(&self, upper: u32, lower: u32) -> bool
        requires upper { upper < length self.now }
        requires lower { lower < length self.now }
        ensures { IsTrue result ↔ Above self.now upper lower }
    {
        let mut step = lower;
        while step > upper {
            step = self.parents[step as usize];
        }
        step == upper
    }

    /// Whether both are the shape of the same trees: the same nodes with the same parents.
    pub fn is(&self, other: &Shape) -> bool
        ensures { IsTrue result ↔ (self.now ≡ other.now) }
    {
        self.parents == other.parents
    }
}

// The parents as node numbers, if they make a tree of at most `limit` nodes.
fn node_parents(alloc: Global, parents: &[i64], limit: u32) -> Result<Vec<u32>, TreeFault>
    ensures ok { IfOk result (λ v. shape_of limit parents.now ≡ Ok v.items) }
    ensures fault { IfErr result (λ e. e ≢ TreeFault.Memory → shape_of limit parents.now ≡ Err e) }
{
    if parents.is_empty() {
        return Err(TreeFault::Empty);
    }
    if parents.len() > limit as usize {
        return Err(TreeFault::TooMany);
    }
    if parents[0] != 0 {
        return Err(TreeFault::BadRoot);
    }
    lower_parents(alloc, parents)
}

// The same, once all that is left to check is whether each node but the root has a parent before it.
fn lower_parents(alloc: Global, parents: &[i64]) -> Result<Vec<u32>, TreeFault>
    requires some { 0 < length parents.now }
    requires few { length parents.now ≤ MAX_NODES }
    requires root { slice_index_or parents.now 0 (pos 0) ≡ pos 0 }
    ensures none { IfOk result (λ v. first_astray 1 (drop 1 parents.now) ≡ None) }
    ensures same { IfOk result (λ v. v.items ≡ map unsigned_abs parents.now) }
    ensures fault { IfErr result (λ e. e ≢ TreeFault.Memory
        → option_map TreeFault.BadParent (first_astray 1 (drop 1 parents.now)) ≡ Some e) }
{
    let mut lower = Vec::with_capacity(alloc, parents.len())?;
    lower.push(0)?;
    for node in 1..parents.len() {
        let parent = parents[node];
        if parent < 0 || parent >= node as i64 {
            return Err(TreeFault::BadParent(node as u32));
        }
        lower.push(parent as u32)?;
    }
    Ok(lower)
}

// The children of each node.
fn kid_lists(alloc: Global, parents: &[u32]) -> Result<Vec<Vec<u32>>, AllocError>
    requires { IsTree parents.now }
    ensures { IfOk result (λ v. IsIndex parents.now (lists_of v.items)) }
{
    let mut lists = Vec::with_capacity(alloc, parents.len())?;
    for _node in 0..parents.len() {
        lists.push(Vec::new(alloc))?;
    }
    for node in 1..parents.len() {
        let parent = parents[node] as usize;
        lists[parent].push(node as u32)?;
    }
    Ok(lists)
}
