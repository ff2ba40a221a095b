// Why a name isn't taken up.

ghost use Rattle.std.specs.Prelude.{◌≡◌};
ghost use Rattle.tl_procedures.specs.declared.fault.NamingFault.TheVariants.{Memory};

use arrayvec::ArrayVec;
use std::alloc::{AllocError, AllocFailed};
use thiserror::Error;

/// Why a procedure isn't added under a name.
#[derive(Clone, Copy, Debug, PartialEq, Eq, Error)]
pub enum NamingFault {
    /// 611: a procedure already has that name.
    #[error("a procedure of that name is there already")]
    NameTaken,
    /// 612: a name has to be 1 to 32 ASCII letters, digits or `_`.
    #[error("not a name")]
    BadName,
    /// 613: there are already 256 procedures.
    #[error("too many procedures")]
    TooManyProcedures,
    /// 690: memory was refused.
    #[error("out of memory")]
    Memory,
}

impl NamingFault {
    ghost use Rattle.tl_procedures.specs.Faults.{numbers_of};

    /// The fault's number.
    pub fn numbers(&self) -> ArrayVec<u64, 3>
        ensures { result.items ≡ numbers_of self.now }
    {
        let mut numbers = ArrayVec::new();
        numbers.push(match self {
            NamingFault::NameTaken => 611,
            NamingFault::BadName => 612,
            NamingFault::TooManyProcedures => 613,
            NamingFault::Memory => 690,
        });
        numbers
    }
}

impl From<AllocError> for NamingFault {
    ghost from_gives = { λ _ e. e ≡ Memory };

    fn from(_refused: AllocError) -> NamingFault {
        NamingFault::Memory
    }
}

/// Why no procedure is put in the place of another.
#[derive(Clone, Copy, Debug, PartialEq, Eq, Error)]
pub enum ReplacingFault {
    /// 601: no procedure has that name.
    #[error("no procedure has that name")]
    NoProcedure,
    /// 690: memory was refused.
    #[error("out of memory")]
    Memory,
}

impl ReplacingFault {
    ghost use Rattle.tl_procedures.specs.Faults.{replacing_numbers_of};

    /// The fault's number.
    pub fn numbers(&self) -> ArrayVec<u64, 1>
        ensures { result.items ≡ replacing_numbers_of self.now }
    {
        let mut numbers = ArrayVec::new();
        numbers.push(match self {
            ReplacingFault::NoProcedure => 601,
            ReplacingFault::Memory => 690,
        });
        numbers
    }
}

impl From<AllocError> for ReplacingFault {
    ghost use Rattle.tl_procedures.specs.declared.fault.ReplacingFault.TheVariants as replacing;

    ghost from_gives = { λ _ e. e ≡ replacing.Memory };

    fn from(_refused: AllocError) -> ReplacingFault {
        ReplacingFault::Memory
    }
}

impl<T: Drop> From<AllocFailed<T>> for ReplacingFault {
    ghost use Rattle.tl_procedures.specs.declared.fault.ReplacingFault.TheVariants as replacing;

    ghost from_gives = { λ _ e. e ≡ replacing.Memory };

    fn from(_refused: AllocFailed<T>) -> ReplacingFault {
        ReplacingFault::Memory
    }
}
