// What one call did to the nodes.

ghost use Rattle.std.specs.Prelude.{◌≡◌, ◌<◌, List, [], ◌∷◌, length, IfOk};
ghost use Rattle.tl_tree.specs.Records.{Record as RecordValue};
ghost use Rattle.tl_tree.specs.Shape.{IsTree};
ghost use Rattle.tl_tree_locking.specs.declared.action.Action.{Action};
ghost use Rattle.tl_tree_locking.specs.Actions.{may_come};
ghost use Rattle.tl_serial_order.specs.Part.{IsPart, node_count, was_locked, is_held};

use std::alloc::{AllocError, Global};
use std::marker::Model;
use tl_tree::Shape;

/// What one call did to a node.
#[derive(Clone, Copy, Debug, PartialEq, Eq)]
enum Mark {
    /// The call never locked the node.
    Untouched,
    /// The call holds the node.
    Held,
    /// The call held the node, and has freed it since.
    Freed,
}

impl Mark {
    // Whether the call locked the node.
    fn was_locked(self) -> bool
        ensures { result ≡ was_locked self }
    {
        self != Mark::Untouched
    }

    // Whether the call holds the node.
    fn is_held(self) -> bool
        ensures { result ≡ is_held self }
    {
        self == Mark::Held
    }
}

/// What one call did to the nodes. A contract sees, for each node, whether the call locked it, and whether it holds it.
#[derive(Drop)]
pub struct Part {
    marks: Vec<Mark>,
    // How many nodes the call holds.
    held_count: usize,
}

impl Model for Part {
    ghost use Rattle.std.specs.Prelude.{◌≡◌, map};
    ghost use Rattle.tl_serial_order.specs.Part.{Marks, was_locked, is_held, trues};

    ghost Value = { Marks };

    ghost view = { λ p. record { locked = map was_locked p.marks.items; held = map is_held p.marks.items } };

    ghost invariant = { λ p. p.held_count ≡ trues (map is_held p.marks.items) };
}

impl Part {
    /// The part of a call that did nothing.
    pub fn new(alloc: Global, nodes: usize) -> Result<Part, AllocError>
        ensures nodes { IfOk result (λ p. node_count p ≡ nodes) }
        ensures none { IfOk result (λ p. IsPart p []) }
    {
        Ok(Part {
            marks: vec![in alloc; Mark::Untouched; nodes]?,
            held_count: 0,
        })
    }

    /// The call locks the node.
    pub fn lock(&mut self, node: u32)
        requires { node < node_count self.old }
        ensures nodes { node_count self.new ≡ node_count self.old }
        ensures lock { (done : List Action) (found : RecordValue) → IsPart self.old done
            → IsPart self.new (Action.Lock node found ∷ done) }
    {
        let index = node as usize;
        if !self.marks[index].is_held() {
            self.marks[index] = Mark::Held;
            self.held_count += 1;
        }
    }

    /// The call frees the node.
    pub fn free(&mut self, node: u32)
        requires { node < node_count self.old }
        ensures nodes { node_count self.new ≡ node_count self.old }
        ensures free { (done : List Action) (left : RecordValue) → IsPart self.old done
            → IsPart self.new (Action.Free node left ∷ done) }
    {
        let index = node as usize;
        if self.marks[index].is_held() {
            self.marks[index] = Mark::Freed;
            self.held_count -= 1;
        }
    }

    /// Whether the call may still come to the node. A call that holds nothing comes nowhere. Otherwise the first node above
    /// that the call locked decides.
    pub fn may_come(&self, shape: &Shape, node: u32) -> bool
        requires tree { IsTree shape.now }
        requires nodes { node_count self.now ≡ length shape.now }
        requires node { node < length shape.now }
        ensures { (done : List Action) → IsPart self.now done → result ≡ may_come shape.now done node }
    {
        if self.held_count == 0 || self.marks[node as usize].was_locked() {
            return false;
        }
        let mut step = node;
        while step > 0 {
            step = shape.parent(step);
            if self.marks[step as usize].was_locked() {
                return self.marks[step as usize].is_held();
            }
        }
        false
    }
}
