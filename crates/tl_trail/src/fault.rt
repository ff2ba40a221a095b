// Why no trail was read, or none was made.

ghost use Rattle.std.specs.Prelude.{◌≡◌};
ghost use Rattle.tl_trail.specs.declared.fault.TrailFault.TheVariants.{Memory};
ghost use Rattle.tl_trail.specs.Faults.{numbers_of, of_tree, of_register};

use arrayvec::ArrayVec;
use std::alloc::{AllocError, AllocFailed};
use thiserror::Error;
use tl_json::RegisterFault;
use tl_tree::TreeFault;

/// Why no trail was read, or none was made.
#[derive(Clone, Copy, Debug, PartialEq, Eq, Error)]
pub enum TrailFault {
    /// 701: the text has another form, or an event is of no call or no node of the trail, or there aren't as many records
    /// in the end as nodes, or there are more than 1,048,576 events.
    #[error("not a trail")]
    NotTrail,
    /// 101 to 105: the opening tree has a fault.
    #[error("the tree: {0}")]
    Tree(TreeFault),
    /// 251 to 254, 301 to 307, 401 to 409, 611 to 613: a procedure or its name has a fault.
    #[error("a procedure: {0}")]
    Procedure(RegisterFault),
    /// 601: a call is of a procedure that the trail doesn't have.
    #[error("no procedure of that name")]
    NoProcedure,
    /// 501: the number of a call's arguments isn't what its procedure takes.
    #[error("another number of arguments than the procedure takes")]
    WrongArgs,
    /// 603: there are more than 4,096 calls.
    #[error("too many calls")]
    TooManyCalls,
    /// 790: memory was refused.
    #[error("out of memory")]
    Memory,
}

impl TrailFault {
    /// The fault's number, then its parts.
    pub fn numbers(&self) -> ArrayVec<u64, 3>
        ensures { result.items ≡ numbers_of self.now }
    {
        let mut numbers = ArrayVec::new();
        match self {
            TrailFault::NotTrail => numbers.push(701),
            TrailFault::Tree(fault) => return fault.numbers(),
            TrailFault::Procedure(fault) => return fault.numbers(),
            TrailFault::NoProcedure => numbers.push(601),
            TrailFault::WrongArgs => numbers.push(501),
            TrailFault::TooManyCalls => numbers.push(603),
            TrailFault::Memory => numbers.push(790),
        }
        numbers
    }
}

// A value that doesn't have a tree's form isn't a trail.
impl From<TreeFault> for TrailFault {
    ghost from_gives = { λ f e. e ≡ of_tree f };

    fn from(fault: TreeFault) -> TrailFault {
        match fault {
            TreeFault::NotTree => TrailFault::NotTrail,
            TreeFault::Memory => TrailFault::Memory,
            fault => TrailFault::Tree(fault),
        }
    }
}

impl From<RegisterFault> for TrailFault {
    ghost from_gives = { λ f e. e ≡ of_register f };

    fn from(fault: RegisterFault) -> TrailFault {
        if fault.is_memory() {
            TrailFault::Memory
        } else {
            TrailFault::Procedure(fault)
        }
    }
}

impl From<AllocError> for TrailFault {
    ghost from_gives = { λ _ e. e ≡ Memory };

    fn from(_refused: AllocError) -> TrailFault {
        TrailFault::Memory
    }
}

impl<T: Drop> From<AllocFailed<T>> for TrailFault {
    ghost from_gives = { λ _ e. e ≡ Memory };

    fn from(_refused: AllocFailed<T>) -> TrailFault {
        TrailFault::Memory
    }
}
