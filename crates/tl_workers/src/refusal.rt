// Why an engine refuses.

ghost use Rattle.std.specs.Prelude.{◌≡◌};
ghost use Rattle.tl_workers.specs.declared.refusal.Refusal.TheVariants.{Memory};

use arrayvec::ArrayVec;
use std::alloc::AllocError;
use thiserror::Error;
use tl_table::TableFault;

/// Why an engine refuses. A refusal changes nothing.
#[derive(Clone, Copy, Debug, PartialEq, Eq, Error)]
pub enum Refusal {
    /// 501, 601 to 605, 690, 803, 821, 890: the table refuses.
    #[error("{0}")]
    Table(TableFault),
    /// 990: memory was refused.
    #[error("out of memory")]
    Memory,
}

impl Refusal {
    ghost use Rattle.tl_workers.specs.Refusals.{numbers_of};

    /// The refusal's number.
    pub fn numbers(&self) -> ArrayVec<u64, 3>
        ensures { result.items ≡ numbers_of self.now }
    {
        match self {
            Refusal::Table(fault) => fault.numbers(),
            Refusal::Memory => {
                let mut numbers = ArrayVec::new();
                numbers.push(990);
                numbers
            }
        }
    }
}

impl From<AllocError> for Refusal {
    ghost from_gives = { λ _ e. e ≡ Memory };

    fn from(_refused: AllocError) -> Refusal {
        Refusal::Memory
    }
}
