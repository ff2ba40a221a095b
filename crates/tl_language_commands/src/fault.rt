// What the commands answer instead of a result.

ghost use Rattle.std.specs.Prelude.{◌≡◌, [], ◌∷◌};
ghost use Rattle.tl_language_commands.specs.declared.fault.LanguageFault.TheVariants.{Source, Memory};
ghost use Rattle.tl_language_commands.specs.Faults.{numbers_of, status_of};

use arrayvec::ArrayVec;
use std::alloc::AllocError;
use thiserror::Error;
use tl_instr::CodeFault;
use tl_sources::SourceFault;

/// Why there is nothing to print for a text of the procedure language.
#[derive(Clone, Copy, Debug, PartialEq, Eq, Error)]
pub enum LanguageFault {
    /// 255, 270 to 297 and 299: the text; 290 if memory was refused.
    #[error("{0}")]
    Source(SourceFault),
    /// 290: the container.
    #[error("the procedure: {0}")]
    Code(CodeFault),
    /// 990: memory was refused.
    #[error("out of memory")]
    Memory,
}

impl LanguageFault {
    /// The fault's number, followed by its parts.
    pub fn numbers(&self) -> ArrayVec<u64, 3>
        ensures { result.items ≡ numbers_of self.now }
    {
        match self {
            LanguageFault::Source(fault) => fault.numbers(),
            LanguageFault::Code(fault) => fault.numbers(),
            LanguageFault::Memory => {
                let mut numbers = ArrayVec::new();
                numbers.push(990);
                numbers
            }
        }
    }

    /// The program's exit status: 4 if memory was refused, otherwise 1.
    pub fn status(&self) -> u8
        ensures { result ≡ status_of self.now }
    {
        match self {
            LanguageFault::Source(fault) if fault.is_memory() => 4,
            LanguageFault::Code(CodeFault::Memory) | LanguageFault::Memory => 4,
            _ => 1,
        }
    }
}

impl From<AllocError> for LanguageFault {
    ghost from_gives = { λ _ e. e ≡ Memory };

    fn from(_refused: AllocError) -> LanguageFault {
        LanguageFault::Memory
    }
}

impl From<SourceFault> for LanguageFault {
    ghost from_gives = { λ f e. e ≡ Source f };

    fn from(fault: SourceFault) -> LanguageFault {
        LanguageFault::Source(fault)
    }
}
