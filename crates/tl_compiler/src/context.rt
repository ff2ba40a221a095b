// Where a statement stands.

ghost use Rattle.std.specs.Prelude.{◌≡◌, ◌+◌, Some};
ghost use Rattle.tl_compiler.specs.Contexts.{Describes, exit_of};
ghost use Rattle.tl_compiler.specs.NodeSets.{nodes_of};
ghost use Rattle.tl_lowering.specs.Sound.{nodes_behind};

use crate::draft::Label;
use crate::node_set::{NodeSet, SETS};
use crate::outcomes::locked;
use crate::values::Site;
use tl_instr::ValueRegister;
use tl_lowering::Place;

/// Where a failure leads, by what is held when it happens.
#[derive(Clone, Copy)]
pub struct Pads {
    labels: [Label; SETS],
}

impl Pads {
    ghost use Rattle.std.specs.Prelude.{ℕ};
    ghost use Rattle.tl_compiler.specs.Contexts.{LeadsTo};
    ghost use Rattle.tl_compiler.specs.Statements.{pad_at};
    ghost use Rattle.tl_lowering.specs.Sets.{Nodes};

    /// Each failure leads to the label.
    pub fn all(label: Label) -> Pads
        ensures { LeadsTo (λ held. label.0) result }
    {
        Pads {
            labels: [label; SETS],
        }
    }

    #[tactic(auto, unfolding(crate::specs::NodeSets::nodes_of))]
    pub fn label(&self, held: NodeSet) -> Label
        ensures { (pad : Nodes → ℕ) → LeadsTo pad self.now → result.0 ≡ pad (nodes_of held) }
    {
        self.labels[held.index()]
    }

    pub fn set(&mut self, held: NodeSet, label: Label)
        ensures { (pad : Nodes → ℕ) → LeadsTo pad self.old → LeadsTo (pad_at (nodes_of held) label.0 pad) self.new }
    {
        self.labels[held.index()] = label;
    }
}

/// The way out of a loop, and what is held there.
#[derive(Clone, Copy)]
pub struct Exit {
    pub label: Label,
    pub held: NodeSet,
}

/// Where a statement stands.
#[derive(Clone, Copy)]
pub struct Context<'a> {
    /// What is held.
    pub held: NodeSet,
    /// How many values and nodes have registers.
    pub values: usize,
    pub nodes: usize,
    /// Where failures lead.
    pub pads: &'a Pads,
    /// The way out of the loop around, if there is one.
    pub exit: Option<Exit>,
    /// The offset of the statement in the text that the instructions belong to.
    pub origin: usize,
}

impl<'a> Context<'a> {
    ghost use Rattle.tl_lowering.specs.Outcomes.{locked};

    pub fn with_held(self, held: NodeSet) -> Context<'a>
        ensures held { result.held ≡ held }
        ensures same { (x : _) → Describes x self.entry → Describes x result }
        ensures values { result.values ≡ self.entry.values }
        ensures nodes { result.nodes ≡ self.entry.nodes }
    {
        Context { held, ..self }
    }

    pub fn with_origin(self, origin: usize) -> Context<'a>
        ensures held { result.held ≡ self.entry.held }
        ensures same { (x : _) → Describes x self.entry → Describes x result }
        ensures values { result.values ≡ self.entry.values }
        ensures nodes { result.nodes ≡ self.entry.nodes }
    {
        Context { origin, ..self }
    }

    pub fn with_exit(self, exit: Exit) -> Context<'a>
        ensures held { result.held ≡ self.entry.held }
        ensures same { (x : _) → Describes x self.entry → Describes (record x { exit = Some (exit_of exit) }) result }
        ensures values { result.values ≡ self.entry.values }
        ensures nodes { result.nodes ≡ self.entry.nodes }
    {
        Context {
            exit: Some(exit),
            ..self
        }
    }

    /// The context in which the value has the register, and the registers after it are free.
    pub fn with_value(self, register: ValueRegister) -> Context<'a>
        ensures held { result.held ≡ self.entry.held }
        ensures same { (x : _) → Describes x self.entry → Describes (record x { values = register + 1 }) result }
        ensures values { result.values ≡ register + 1 }
        ensures nodes { result.nodes ≡ self.entry.nodes }
    {
        Context {
            values: register.index() + 1,
            ..self
        }
    }

    /// The context in which the place is locked.
    pub fn with_place(self, place: &Place) -> Context<'a>
        ensures held { nodes_of result.held ≡ locked place.now (nodes_of self.entry.held) }
        ensures same { (x : _) → Describes x self.entry → Describes (record x { nodes = nodes_behind place.now }) result }
        ensures values { result.values ≡ self.entry.values }
        ensures nodes { result.nodes ≡ nodes_behind place.now }
    {
        Context {
            held: locked(place, self.held),
            nodes: nodes_behind(place),
            ..self
        }
    }

    /// The label that the statement's failure leads to.
    pub fn failure(&self) -> Label
        ensures { (x : _) → Describes x self.now → result.0 ≡ x.pad (nodes_of self.now.held) }
    {
        self.pads.label(self.held)
    }

    /// The site of the statement's numbers; their failure leads to the label.
    pub fn site(&self, failure: Label) -> Site
        ensures free { result.free ≡ self.now.values }
        ensures failure { result.failure ≡ failure }
    {
        Site {
            free: self.values,
            failure,
            origin: self.origin,
        }
    }

    /// The site of the number for the register; its failure leads to the label.
    pub fn binding(&self, to: ValueRegister, failure: Label) -> Site
        ensures free { result.free ≡ to }
        ensures failure { result.failure ≡ failure }
    {
        Site {
            free: to.index(),
            failure,
            origin: self.origin,
        }
    }
}

// How many nodes have registers once the place is locked.
fn nodes_behind(place: &Place) -> usize
    ensures { result ≡ nodes_behind place.now }
{
    let last = match *place {
        Place::Node(register, _) | Place::Child(register, _, _) => register.index(),
        Place::Pair { first, second, .. } => first.index().max(second.index()),
    };
    last + 1
}
