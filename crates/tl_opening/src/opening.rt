// The tree with which an epoch opens.

ghost use Rattle.std.specs.Prelude.{◌≡◌, ◌<◌, length, unwrap_or, IfOk};
ghost use Rattle.std.specs.Arc.{arc_value};
ghost use Rattle.tl_tree.specs.Records.{Records, record_at as record_of_node};
ghost use Rattle.tl_tree.specs.Trees.{IsWhole};
ghost use Rattle.tl_tree_locking.specs.History.{records_now};
ghost use Rattle.tl_opening.specs.Opening.{records_behind, epochs_of};

use crate::frees::Frees;
use std::alloc::{AllocError, Global};
use std::marker::Model;
use std::sync::Arc;
use tl_history::History;
use tl_tree::{Record, Shape, Tree};

/// A tree that isn't stored as such: an earlier tree, and what each epoch since left. A contract sees the tree.
#[derive(Debug, Drop)]
pub struct Opening {
    base: Arc<Tree>,
    // The earliest epoch first.
    left: Vec<Arc<Frees>>,
}

impl Model for Opening {
    ghost use Rattle.std.specs.Arc.{arc_value};
    ghost use Rattle.tl_tree.specs.Trees.{TreeValue};
    ghost use Rattle.tl_opening.specs.Opening.{records_behind, epochs_of};

    ghost Value = { TreeValue };

    ghost view = { λ o. record { parents = (arc_value o.base).parents; records = records_behind (arc_value o.base).records (epochs_of o.left.items) } };
}

impl Opening {
    /// A tree that is stored. Takes no memory.
    pub fn new(alloc: Global, tree: Arc<Tree>) -> Opening
        ensures { result ≡ arc_value tree }
    {
        Opening {
            base: tree,
            left: Vec::new(alloc),
        }
    }

    /// The shape.
    pub fn shape(&self) -> &Arc<Shape>
        ensures shape { arc_value result.now ≡ self.now.parents }
        ensures whole { IsWhole self.now }
    {
        self.base.shape()
    }

    /// A node's record. Searches what epochs left from the latest back, so it takes longer the more epochs there are.
    pub fn record_at(&self, node: u32) -> Record
        requires { node < length self.now.records }
        ensures { result ≡ record_of_node self.now.records node }
    {
        match last_left(&self.left, node) {
            Some(record) => record,
            None => self.base.record_at(node),
        }
    }

    /// The tree that a history leaves which begins with this one. Neither this tree nor what earlier epochs left is copied, and of the history its
    /// frees alone.
    pub fn after(&self, alloc: Global, history: &History) -> Result<Opening, AllocError>
        ensures { IfOk result (λ o. o ≡ record { parents = self.now.parents; records = records_now history.now.past self.now.records }) }
    {
        let base = Arc::try_clone(&self.base)?;
        let mut left = shared(alloc, &self.left)?;
        let frees = Frees::new(alloc, history)?;
        left.push(Arc::new(alloc, frees)?)?;
        Ok(Opening { base, left })
    }

    /// The tree, stored. It has its records for itself, and shares the shape.
    pub fn tree(&self, alloc: Global) -> Result<Tree, AllocError>
        ensures { IfOk result (λ t. t ≡ self.now) }
    {
        let Ok(mut tree) = self.base.copy(alloc) else {
            return Err(AllocError);
        };
        put_each(&mut tree, &self.left);
        Ok(tree)
    }

    /// The same tree, known by itself alone: what epochs left can be let go of.
    pub fn settled(&self, alloc: Global) -> Result<Opening, AllocError>
        ensures { IfOk result (λ o. o ≡ self.now) }
    {
        let tree = self.tree(alloc)?;
        Ok(Opening::new(alloc, Arc::new(alloc, tree)?))
    }
}

// The same, shared.
fn shared(alloc: Global, left: &[Arc<Frees>]) -> Result<Vec<Arc<Frees>>, AllocError>
    ensures { IfOk result (λ v. epochs_of v.items ≡ epochs_of left.now) }
{
    let mut all = Vec::new(alloc);
    for frees in left {
        all.push(Arc::try_clone(frees)?)?;
    }
    Ok(all)
}

// Puts what each epoch left into a tree.
fn put_each(tree: &mut Tree, left: &[Arc<Frees>])
    ensures { tree.new ≡ record tree.old { records = records_behind tree.old.records (epochs_of left.now) } }
{
    for frees in left {
        frees.put_into(tree);
    }
}

// The record that the node was last left with; `None` if no epoch freed it.
fn last_left(left: &[Arc<Frees>], node: u32) -> Option<Record>
    ensures { (records : Records) → node < length records
        → record_of_node (records_behind records (epochs_of left.now)) node ≡ unwrap_or result (record_of_node records node) }
{
    for frees in left.iter().rev() {
        if let Some(record) = frees.record_of(node) {
            return Some(record);
        }
    }
    None
}
