// What each call did to the nodes.

ghost use Rattle.std.specs.Prelude.{◌≡◌, ℕ, ◌+◌, ◌<◌, List, [], ◌∷◌, length, set, OnOk};
ghost use Rattle.tl_tree.specs.Records.{Record as RecordValue};
ghost use Rattle.tl_tree.specs.Shape.{IsTree};
ghost use Rattle.tl_tree_locking.specs.declared.action.Action.{Action};
ghost use Rattle.tl_tree_locking.specs.declared.event.Event.{Event as EventValue};
ghost use Rattle.tl_tree_locking.specs.Actions.{may_come};
ghost use Rattle.tl_tree_locking.specs.History.{caller, part_of};
ghost use Rattle.tl_serial_order.specs.Part.{IsPart, node_count};
ghost use Rattle.tl_tree_locking.specs.Nodes.{IsOfNodes};
ghost use Rattle.tl_serial_order.specs.Parts.{AreOfNodes, Show, ShowAll, marks_of};

use crate::part::Part;
use std::alloc::{AllocError, Global};
use std::marker::Model;
use tl_tree::Shape;
use tl_tree_locking::Event;

/// What each call did to the nodes. A contract sees what each call's part shows.
#[derive(Drop)]
pub struct Parts {
    parts: Vec<Part>,
}

impl Model for Parts {
    ghost use Rattle.std.specs.Prelude.{List};
    ghost use Rattle.tl_serial_order.specs.Part.{Marks};

    ghost Value = { List Marks };

    ghost view = { λ p. p.parts.items };
}

impl Parts {
    /// No calls.
    pub fn new(alloc: Global) -> Parts
        ensures { result ≡ [] }
    {
        Parts {
            parts: Vec::new(alloc),
        }
    }

    /// How many calls there are.
    pub fn len(&self) -> usize
        ensures { result ≡ length self.now }
    {
        self.parts.len()
    }

    /// Adds one more call, which did nothing.
    pub fn add(&mut self, alloc: Global, nodes: usize) -> Result<(), AllocError>
        ensures calls { OnOk result (length self.new ≡ length self.old + 1) }
        ensures nodes { OnOk result (AreOfNodes nodes self.old → AreOfNodes nodes self.new) }
        ensures more { OnOk result ((past : List EventValue) → ShowAll self.old past → ShowAll self.new past) }
    {
        self.parts.push(Part::new(alloc, nodes)?)?;
        Ok(())
    }

    /// Adds the event to its call's part.
    pub fn note(&mut self, event: &Event)
        requires caller { caller event.now < length self.old }
        requires node { (nodes : ℕ) × AreOfNodes nodes self.old × IsOfNodes nodes event.now }
        ensures calls { length self.new ≡ length self.old }
        ensures nodes { (nodes : ℕ) → AreOfNodes nodes self.old → AreOfNodes nodes self.new }
        ensures more { (past : List EventValue) → ShowAll self.old past → ShowAll self.new (event.now ∷ past) }
    {
        match *event {
            Event::Lock { call, node, .. } => self.lock(call, node),
            Event::Free { call, node, .. } => self.free(call, node),
            Event::Admit { .. } | Event::Done { .. } => {}
        }
    }

    // The call locks the node.
    fn lock(&mut self, call: u32, node: u32)
        requires call { call < length self.old }
        requires node { node < node_count (marks_of self.old call) }
        ensures others { self.new ≡ set self.old call (marks_of self.new call) }
        ensures nodes { node_count (marks_of self.new call) ≡ node_count (marks_of self.old call) }
        ensures lock { (done : List Action) (found : RecordValue) → IsPart (marks_of self.old call) done
            → IsPart (marks_of self.new call) (Action.Lock node found ∷ done) }
    {
        self.parts[call as usize].lock(node);
    }

    // The call frees the node.
    fn free(&mut self, call: u32, node: u32)
        requires call { call < length self.old }
        requires node { node < node_count (marks_of self.old call) }
        ensures others { self.new ≡ set self.old call (marks_of self.new call) }
        ensures nodes { node_count (marks_of self.new call) ≡ node_count (marks_of self.old call) }
        ensures free { (done : List Action) (left : RecordValue) → IsPart (marks_of self.old call) done
            → IsPart (marks_of self.new call) (Action.Free node left ∷ done) }
    {
        self.parts[call as usize].free(node);
    }

    /// Whether the call may still come to the node.
    pub fn may_come(&self, call: u32, shape: &Shape, node: u32) -> bool
        requires call { call < length self.now }
        requires tree { IsTree shape.now }
        requires nodes { AreOfNodes (length shape.now) self.now }
        requires node { node < length shape.now }
        ensures { (past : List EventValue) → Show self.now past → result ≡ may_come shape.now (part_of call past) node }
    {
        self.parts[call as usize].may_come(shape, node)
    }
}
