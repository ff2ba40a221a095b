// What an epoch left.

ghost use Rattle.std.specs.Prelude.{◌≡◌, ◌<◌, length, unwrap_or, IfOk};
ghost use Rattle.tl_tree.specs.Records.{Records, record_at, put_record};
ghost use Rattle.tl_tree_locking.specs.History.{past_of, records_now};
ghost use Rattle.tl_opening.specs.Opening.{records_left};

use std::alloc::{AllocError, Global};
use std::marker::Model;
use tl_history::History;
use tl_tree::{Record, Tree};
use tl_tree_locking::Event;

/// A node that was freed, and the record that it was left with.
#[derive(Clone, Copy, Debug)]
pub struct Left {
    pub(crate) node: u32,
    pub(crate) fields: Record,
}

/// The frees of an epoch, the earliest first. A node stands there as often as it was freed.
#[derive(Debug, Drop)]
pub struct Frees {
    lefts: Vec<Left>,
}

impl Model for Frees {
    ghost use Rattle.std.specs.Prelude.{List};
    ghost use Rattle.tl_opening.specs.declared.frees.Left.{Left};

    ghost Value = { List Left };

    ghost view = { λ f. f.lefts.items };
}

impl Frees {
    /// The frees of a history.
    pub fn new(alloc: Global, history: &History) -> Result<Frees, AllocError>
        ensures { IfOk result (λ f. (records : Records) → records_left records f ≡ records_now history.now.past records) }
    {
        let lefts = lefts_of(alloc, history.events())?;
        Ok(Frees { lefts })
    }

    /// Puts the records that nodes were left with into a tree.
    pub fn put_into(&self, tree: &mut Tree)
        ensures { tree.new ≡ record tree.old { records = records_left tree.old.records self.now } }
    {
        for left in &self.lefts {
            put(tree, *left);
        }
    }

    /// The record that the node was last left with; `None` if it wasn't freed.
    pub fn record_of(&self, node: u32) -> Option<Record>
        ensures { (records : Records) → node < length records
            → record_at (records_left records self.now) node ≡ unwrap_or result (record_at records node) }
    {
        for left in self.lefts.iter().rev() {
            if left.node == node {
                return Some(left.fields);
            }
        }
        None
    }
}

// What these events left.
fn lefts_of(alloc: Global, events: &[Event]) -> Result<Vec<Left>, AllocError>
    ensures { IfOk result (λ v. (records : Records) → records_left records v.items ≡ records_now (past_of events.now) records) }
{
    let mut lefts = Vec::new(alloc);
    for event in events {
        if let Event::Free { node, left, .. } = *event {
            lefts.push(Left { node, fields: left })?;
        }
    }
    lefts.shrink_to_fit();
    Ok(lefts)
}

// Puts a record into a tree. A node that the tree doesn't have has none.
fn put(tree: &mut Tree, left: Left)
    ensures { tree.new ≡ record tree.old { records = put_record tree.old.records left.node left.fields } }
{
    if left.node < tree.shape().node_count() {
        tree.put_at(left.node, left.fields);
    }
}
