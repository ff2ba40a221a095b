// Sets of node registers, and sets of these.

ghost use Rattle.std.specs.Prelude.{◌≡◌, ◌<◌, List, ◌∷◌, ◌++◌};
ghost use Rattle.tl_compiler.specs.NodeSets.{nodes_of, nodes_at, AreThose};
ghost use Rattle.tl_lowering.specs.Sets.{both_of};

use tl_instr::{NODE_REGISTERS, NodeRegister};

/// A set of node registers: one bit each, the lowest for register 0.
#[derive(Clone, Copy)]
pub struct NodeSet {
    bits: u8,
}

impl NodeSet {
    ghost use Rattle.tl_verify.specs.Bits.{bits_of};
    ghost use Rattle.tl_lowering.specs.Sets.{holds, with_node, without_node, minus, both, same};

    pub const EMPTY: NodeSet = NodeSet { bits: 0 };

    #[tactic(auto, unfolding(crate::specs::NodeSets::nodes_of))]
    pub fn of_bits(bits: u8) -> NodeSet
        ensures { nodes_of result ≡ bits_of NODE_REGISTERS bits }
    {
        NodeSet { bits }
    }

    pub fn contains(self, register: NodeRegister) -> bool
        ensures { result ≡ holds (nodes_of self) register }
    {
        self.bits & (1 << register.number()) != 0
    }

    pub fn with(self, register: NodeRegister) -> NodeSet
        ensures { nodes_of result ≡ with_node (nodes_of self) register }
    {
        NodeSet {
            bits: self.bits | 1 << register.number(),
        }
    }

    pub fn without(self, register: NodeRegister) -> NodeSet
        ensures { nodes_of result ≡ without_node (nodes_of self) register }
    {
        NodeSet {
            bits: self.bits & !(1 << register.number()),
        }
    }

    /// What is only in the first.
    pub fn minus(self, other: NodeSet) -> NodeSet
        ensures { nodes_of result ≡ minus (nodes_of self) (nodes_of other) }
    {
        NodeSet {
            bits: self.bits & !other.bits,
        }
    }

    pub fn and(self, other: NodeSet) -> NodeSet
        ensures { nodes_of result ≡ both (nodes_of self) (nodes_of other) }
    {
        NodeSet {
            bits: self.bits & other.bits,
        }
    }

    pub fn is_same(self, other: NodeSet) -> bool
        ensures { result ≡ same (nodes_of self) (nodes_of other) }
    {
        self.bits == other.bits
    }

    /// The number of the set among all sets, 0 to 255.
    pub fn index(self) -> usize
        ensures same { result ≡ self.bits }
        ensures in_range { result < 256 }
    {
        usize::from(self.bits)
    }
}

/// What is in both, or in the only one given.
pub fn common(first: Option<NodeSet>, second: Option<NodeSet>) -> Option<NodeSet>
    ensures { nodes_at result ≡ both_of (nodes_at first) (nodes_at second) }
{
    match (first, second) {
        (None, other) | (other, None) => other,
        (Some(first), Some(second)) => Some(first.and(second)),
    }
}

/// How many sets of node registers there are.
pub const SETS: usize = 1 << NODE_REGISTERS;

/// Some sets of node registers: a bit for each set, by its number, 64 in a word.
#[derive(Clone, Copy)]
pub struct NodeSets {
    words: [u64; 4],
}

impl NodeSets {
    ghost use Rattle.tl_lowering.specs.Sets.{Nodes, is_among};

    pub const NONE: NodeSets = NodeSets { words: [0; 4] };

    pub fn with(mut self, set: NodeSet) -> NodeSets
        ensures { (list : List Nodes) → AreThose self list → AreThose result (nodes_of set ∷ list) }
    {
        let index = set.index();
        self.words[index / 64] |= 1 << (index % 64);
        self
    }

    #[tactic(auto, unfolding(crate::specs::NodeSets::nodes_of))]
    pub fn contains(&self, set: NodeSet) -> bool
        ensures { (list : List Nodes) → AreThose self.now list → result ≡ is_among (nodes_of set) list }
    {
        let index = set.index();
        self.words[index / 64] >> (index % 64) & 1 == 1
    }

    pub fn or(&self, other: &NodeSets) -> NodeSets
        ensures { (list more : List Nodes) → AreThose self.now list → AreThose other.now more → AreThose result (list ++ more) }
    {
        let (first, second) = (self.words, other.words);
        NodeSets {
            words: [
                first[0] | second[0],
                first[1] | second[1],
                first[2] | second[2],
                first[3] | second[3],
            ],
        }
    }
}
