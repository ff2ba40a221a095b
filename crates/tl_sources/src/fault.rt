// Why a file stands for no procedure.

ghost use Rattle.std.specs.Prelude.{◌≡◌};
ghost use Rattle.tl_sources.specs.Faults.{numbers_of, is_memory};

use arrayvec::ArrayVec;
use thiserror::Error;
use tl_asm::AsmFault;
use tl_compiler::CompileFault;
use tl_instr::CodeFault;
use tl_verify::VerifyFault;

/// Why a file stands for no procedure, or for none of that name.
#[derive(Clone, Copy, Debug, PartialEq, Eq, Error)]
pub enum SourceFault {
    /// 255, 270 to 297 and 299: the text of the procedure language; 290 if memory was refused.
    #[error("the text: {0}")]
    Compile(CompileFault),
    /// 255: the assembler text isn't UTF-8.
    #[error("the text is not UTF-8")]
    NotUtf8,
    /// 251 to 254, 290: the assembler text.
    #[error("the text: {0}")]
    Asm(AsmFault),
    /// 201 to 206, 290: the container.
    #[error("the procedure: {0}")]
    Code(CodeFault),
    /// 301 to 307, 401 to 409, 490: the code isn't accepted.
    #[error("the procedure: {0}")]
    Verify(VerifyFault),
}

impl SourceFault {
    /// The fault's number, followed by its parts.
    pub fn numbers(&self) -> ArrayVec<u64, 3>
        ensures { result.items ≡ numbers_of self.now }
    {
        match self {
            SourceFault::Compile(fault) => fault.numbers(),
            SourceFault::NotUtf8 => {
                let mut numbers = ArrayVec::new();
                numbers.push(255);
                numbers
            }
            SourceFault::Asm(fault) => fault.numbers(),
            SourceFault::Code(fault) => fault.numbers(),
            SourceFault::Verify(fault) => fault.numbers(),
        }
    }

    /// Whether memory was refused.
    pub fn is_memory(&self) -> bool
        ensures { result ≡ is_memory self.now }
    {
        matches!(
            self,
            SourceFault::Compile(CompileFault::Memory)
                | SourceFault::Asm(AsmFault::Memory)
                | SourceFault::Code(CodeFault::Memory)
                | SourceFault::Verify(VerifyFault::Memory)
        )
    }
}

/// The first file of several that is refused: its number, counted from 0, and why.
#[derive(Clone, Copy, Debug, PartialEq, Eq, Error)]
#[error("{fault}")]
pub struct RefusedFile {
    pub number: usize,
    pub fault: SourceFault,
}
