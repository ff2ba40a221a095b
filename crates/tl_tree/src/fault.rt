// Why a tree wasn't made.

ghost use Rattle.std.specs.Prelude.{◌≡◌};
ghost use Rattle.tl_tree.specs.declared.fault.TreeFault.TheVariants.{Memory};

use arrayvec::ArrayVec;
use std::alloc::{AllocError, AllocFailed};
use thiserror::Error;

/// The first fault, if a tree could not be made.
#[derive(Clone, Copy, Debug, PartialEq, Eq, Error)]
pub enum TreeFault {
    /// 101: there is no node.
    #[error("the tree has no node")]
    Empty,
    /// 102: there are more nodes than a tree may have here, 4,096 where nobody asks for more.
    #[error("the tree has too many nodes")]
    TooMany,
    /// 103: the root's parent is not the root.
    #[error("the first parent must be 0, for the root has no other")]
    BadRoot,
    /// 104 and the node: the least node from 1 on whose parent isn't a node with a lower number.
    #[error("the parent of node {0} must have a lower number")]
    BadParent(u32),
    /// 105: there are more or fewer records than nodes.
    #[error("there are not as many records as nodes")]
    WrongCount,
    /// 106: a text or a value doesn't have the form of a tree.
    #[error("not the text of a tree")]
    NotTree,
    /// 190: memory was refused.
    #[error("out of memory")]
    Memory,
}

impl TreeFault {
    ghost use Rattle.tl_tree.specs.Faults.{numbers_of};

    /// The fault's number, then its parts.
    pub fn numbers(&self) -> ArrayVec<u64, 3>
        ensures { result.items ≡ numbers_of self.now }
    {
        let (number, part) = match self {
            TreeFault::Empty => (101, None),
            TreeFault::TooMany => (102, None),
            TreeFault::BadRoot => (103, None),
            TreeFault::BadParent(node) => (104, Some(u64::from(*node))),
            TreeFault::WrongCount => (105, None),
            TreeFault::NotTree => (106, None),
            TreeFault::Memory => (190, None),
        };
        let mut numbers = ArrayVec::new();
        numbers.push(number);
        if let Some(part) = part {
            numbers.push(part);
        }
        numbers
    }
}

impl From<AllocError> for TreeFault {
    ghost from_gives = { λ _ e. e ≡ Memory };

    fn from(_refused: AllocError) -> TreeFault {
        TreeFault::Memory
    }
}

impl<T: Drop> From<AllocFailed<T>> for TreeFault {
    ghost from_gives = { λ _ e. e ≡ Memory };

    fn from(_refused: AllocFailed<T>) -> TreeFault {
        TreeFault::Memory
    }
}
