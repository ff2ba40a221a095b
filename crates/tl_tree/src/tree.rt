// Trees.

ghost use Rattle.std.specs.Prelude.{◌≡◌, ◌<◌, length, OkIff, IfOk, IfErr};
ghost use Rattle.std.specs.Arc.{arc_value};
ghost use Rattle.tl_tree.specs.Records.{record_at as record_of_node, put_record};
ghost use Rattle.tl_tree.specs.Trees.{IsWhole};

use crate::fault::TreeFault;
use crate::record::Record;
use crate::shape::Shape;
use std::alloc::Global;
use std::marker::Model;
use std::sync::Arc;

/// A shape, and a record for each of its nodes.
#[derive(Debug, Drop)]
pub struct Tree {
    shape: Arc<Shape>,
    records: Vec<Record>,
}

impl Model for Tree {
    ghost use Rattle.std.specs.Arc.{arc_value};
    ghost use Rattle.tl_tree.specs.Trees.{TreeValue, IsWhole};

    ghost Value = { TreeValue };

    ghost view = { λ t. record { parents = arc_value t.shape; records = t.records.items } };

    ghost invariant = { λ t. IsWhole
        (record { parents = arc_value t.shape; records = t.records.items }) };
}

impl Tree {
    /// The tree of that shape with these records, the first for node 0. 105 if there aren't as many records as nodes.
    pub fn new(shape: Arc<Shape>, records: Vec<Record>) -> Result<Tree, TreeFault>
        ensures ok { OkIff result (length records.items ≡ length (arc_value shape))
            (record { parents = arc_value shape; records = records.items }) }
        ensures err { IfErr result (λ e. e ≡ TreeFault.WrongCount) }
    {
        if records.len() != shape.node_count() as usize {
            return Err(TreeFault::WrongCount);
        }
        Ok(Tree { shape, records })
    }

    pub fn shape(&self) -> &Arc<Shape>
        ensures shape { arc_value result.now ≡ self.now.parents }
        ensures whole { IsWhole self.now }
    {
        &self.shape
    }

    /// The records; the first is node 0's.
    pub fn records(&self) -> &[Record]
        ensures records { result.now ≡ self.now.records }
        ensures whole { IsWhole self.now }
    {
        &self.records
    }

    /// A node's record.
    pub fn record_at(&self, node: u32) -> Record
        requires { node < length self.now.records }
        ensures { result ≡ record_of_node self.now.records node }
    {
        self.records[node as usize]
    }

    /// Replaces a node's record.
    pub fn put_at(&mut self, node: u32, fields: Record)
        requires { node < length self.old.records }
        ensures { self.new ≡ record self.old { records = put_record self.old.records node fields } }
    {
        self.records[node as usize] = fields;
    }

    /// A separate copy of the tree. 190 if memory is refused.
    pub fn copy(&self, alloc: Global) -> Result<Tree, TreeFault>
        ensures ok { IfOk result (λ t. t ≡ self.now) }
        ensures err { IfErr result (λ e. e ≡ TreeFault.Memory) }
    {
        let shape = Arc::try_clone(&self.shape)?;
        let records = Vec::from_slice(alloc, &self.records)?;
        Ok(Tree { shape, records })
    }
}
