// Nodes that are appended to a tree.

ghost use Rattle.std.specs.Prelude.{◌≡◌, ◌≢◌, ◌+◌, ◌≤◌, ℕ, List, ◌++◌, length, map, pos, unsigned_abs, IfOk, OnOk, IfErr};
ghost use Rattle.tl_generations.specs.Growth.{AreLower, CanGrow, IsFirstBad, IsGrowthFault, numbers_of, with_zeros};

use arrayvec::ArrayVec;
use std::alloc::{AllocError, AllocFailed, Global};
use std::sync::Arc;
use thiserror::Error;
use tl_tree::{FIELD_COUNT, MAX_NODES, Record, Shape, Tree, TreeFault};

/// Why no nodes were appended to a tree.
#[derive(Clone, Copy, Debug, PartialEq, Eq, Error)]
pub enum GrowthFault {
    /// 102: there would be more nodes than a tree may have here, 4,096 where nobody asks for more.
    #[error("the tree would have too many nodes")]
    TooMany,
    /// 104 and which new node it is, counted from 0: the first whose parent isn't a node with a lower number.
    #[error("the parent of new node {0} must have a lower number")]
    BadParent(u32),
    /// 190: memory was refused.
    #[error("out of memory")]
    Memory,
}

impl GrowthFault {
    /// The fault's number, then its part.
    pub fn numbers(&self) -> ArrayVec<u64, 2>
        ensures { result.items ≡ numbers_of self.now }
    {
        let (number, part) = match self {
            GrowthFault::TooMany => (102, None),
            GrowthFault::BadParent(index) => (104, Some(u64::from(*index))),
            GrowthFault::Memory => (190, None),
        };
        let mut numbers = ArrayVec::new();
        numbers.push(number);
        if let Some(part) = part {
            numbers.push(part);
        }
        numbers
    }
}

impl From<AllocError> for GrowthFault {
    ghost use Rattle.tl_generations.specs.declared.growth.GrowthFault.TheVariants.{Memory};

    ghost from_gives = { λ _ e. e ≡ Memory };

    fn from(_refused: AllocError) -> GrowthFault {
        GrowthFault::Memory
    }
}

impl<T: Drop> From<AllocFailed<T>> for GrowthFault {
    ghost use Rattle.tl_generations.specs.declared.growth.GrowthFault.TheVariants.{Memory};

    ghost from_gives = { λ _ e. e ≡ Memory };

    fn from(_refused: AllocFailed<T>) -> GrowthFault {
        GrowthFault::Memory
    }
}

/// Whether nodes of these parents can be appended to the tree of a shape, which has at most `limit` nodes then. The first fault: 102,
/// then 104.
pub(crate) fn check_growth(shape: &Shape, parents: &[i64], limit: u32) -> Result<(), GrowthFault>
    ensures ok { OnOk result (CanGrow shape.now parents.now (map unsigned_abs parents.now)) }
    ensures few { OnOk result (length shape.now + length parents.now ≤ limit) }
    ensures fault { IfErr result (λ e. IsGrowthFault limit (length shape.now) parents.now e) }
    ensures known { IfErr result (λ e. e ≢ GrowthFault.Memory) }
{
    let first = shape.node_count() as usize;
    let limit = limit as usize;
    if first > limit || parents.len() > limit - first {
        return Err(GrowthFault::TooMany);
    }
    check_parents(parents, first)
}

/// A copy of the tree with nodes of these parents appended, at most `limit` in all, and zeros as their records.
pub(crate) fn grown_tree(
    alloc: Global,
    tree: &Tree,
    parents: &[i64],
    limit: u32,
) -> Result<Tree, GrowthFault>
    ensures ok { IfOk result (λ t. (added : List ℕ) × CanGrow tree.now.parents parents.now added
        × (t ≡ record { parents = tree.now.parents ++ added; records = with_zeros (length added) tree.now.records })) }
    ensures few { IfOk result (λ t. length t.parents ≤ limit) }
    ensures fault { IfErr result (λ e. IsGrowthFault limit (length tree.now.parents) parents.now e) }
{
    check_growth(tree.shape(), parents, limit)?;
    let shape = grown_shape(alloc, tree.shape(), parents)?;
    let records = with_zero_records(alloc, tree.records(), parents.len())?;
    let Ok(grown) = Tree::new(Arc::new(alloc, shape)?, records) else {
        // There are as many records as nodes.
        unreachable!()
    };
    Ok(grown)
}

// Whether each of these nodes has a parent before it, where the first has that number; else the first that hasn't.
fn check_parents(parents: &[i64], first: usize) -> Result<(), GrowthFault>
    requires { first + length parents.now ≤ MAX_NODES }
    ensures ok { OnOk result (AreLower first parents.now (length parents.now)) }
    ensures fault { IfErr result (λ e. (i : ℕ) × (e ≡ GrowthFault.BadParent i) × IsFirstBad first parents.now i) }
{
    for index in 0..parents.len() {
        let parent = parents[index];
        if parent < 0 || parent >= (first + index) as i64 {
            return Err(GrowthFault::BadParent(index as u32));
        }
    }
    Ok(())
}

// The shape with nodes of these parents appended.
fn grown_shape(alloc: Global, shape: &Shape, added: &[i64]) -> Result<Shape, AllocError>
    requires { CanGrow shape.now added.now (map unsigned_abs added.now) }
    ensures { IfOk result (λ s. s ≡ shape.now ++ map unsigned_abs added.now) }
{
    let parents = all_parents(alloc, shape, added)?;
    match Shape::new(alloc, &parents, MAX_NODES as u32) {
        Ok(grown) => Ok(grown),
        Err(TreeFault::Memory) => Err(AllocError),
        // The parents are those of a tree.
        Err(_) => unreachable!(),
    }
}

// The parents of the nodes that there are, and behind them these.
fn all_parents(alloc: Global, shape: &Shape, added: &[i64]) -> Result<Vec<i64>, AllocError>
    ensures { IfOk result (λ v. v.items ≡ map pos shape.now ++ added.now) }
{
    let mut parents = Vec::new(alloc);
    for node in 0..shape.node_count() {
        parents.push(i64::from(shape.parent(node)))?;
    }
    parents.extend_from_slice(added)?;
    Ok(parents)
}

// These records, and behind them as many of zeros.
fn with_zero_records(
    alloc: Global,
    records: &[Record],
    count: usize,
) -> Result<Vec<Record>, AllocError>
    ensures { IfOk result (λ v. v.items ≡ with_zeros count records.now) }
{
    let mut all = Vec::from_slice(alloc, records)?;
    for _node in 0..count {
        all.push([0; FIELD_COUNT])?;
    }
    Ok(all)
}
