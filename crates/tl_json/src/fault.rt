// Why a procedure isn't registered.

ghost use Rattle.std.specs.Prelude.{◌≡◌};
ghost use Rattle.tl_json.specs.declared.fault.ProcedureFault.TheVariants.{Asm};
ghost use Rattle.tl_json.specs.declared.fault.RegisterFault.TheVariants.{Text, Name};
ghost use Rattle.tl_json.specs.Faults.{text_numbers_of, is_text_memory, numbers_of, is_memory};

use arrayvec::ArrayVec;
use thiserror::Error;
use tl_asm::AsmFault;
use tl_procedures::NamingFault;
use tl_verify::VerifyFault;

/// Why a text doesn't stand for a procedure.
#[derive(Clone, Copy, Debug, PartialEq, Eq, Error)]
pub enum ProcedureFault {
    /// 251 to 254, 290: the fault is in the assembler text.
    #[error("the text: {0}")]
    Asm(AsmFault),
    /// 301 to 307, 401 to 409, 490: the code isn't accepted, or memory was refused.
    #[error("{0}")]
    Verify(VerifyFault),
}

impl ProcedureFault {
    /// The fault's number, then its parts.
    pub fn numbers(&self) -> ArrayVec<u64, 3>
        ensures { result.items ≡ text_numbers_of self.now }
    {
        match self {
            ProcedureFault::Asm(fault) => fault.numbers(),
            ProcedureFault::Verify(fault) => fault.numbers(),
        }
    }

    /// Whether memory was refused.
    pub fn is_memory(&self) -> bool
        ensures { result ≡ is_text_memory self.now }
    {
        matches!(
            self,
            ProcedureFault::Asm(AsmFault::Memory) | ProcedureFault::Verify(VerifyFault::Memory)
        )
    }
}

impl From<AsmFault> for ProcedureFault {
    ghost from_gives = { λ f e. e ≡ Asm f };

    fn from(fault: AsmFault) -> ProcedureFault {
        ProcedureFault::Asm(fault)
    }
}

/// Why a procedure's text isn't registered under a name.
#[derive(Clone, Copy, Debug, PartialEq, Eq, Error)]
pub enum RegisterFault {
    /// 251 to 254, 290, 301 to 307, 401 to 409, 490: the fault is in the text.
    #[error("{0}")]
    Text(ProcedureFault),
    /// 611 to 613, 690: the name isn't taken up.
    #[error("the name: {0}")]
    Name(NamingFault),
}

impl RegisterFault {
    /// The fault's number, then its parts.
    pub fn numbers(&self) -> ArrayVec<u64, 3>
        ensures { result.items ≡ numbers_of self.now }
    {
        match self {
            RegisterFault::Text(fault) => fault.numbers(),
            RegisterFault::Name(fault) => fault.numbers(),
        }
    }

    /// Whether memory was refused.
    pub fn is_memory(&self) -> bool
        ensures { result ≡ is_memory self.now }
    {
        match self {
            RegisterFault::Text(fault) => fault.is_memory(),
            RegisterFault::Name(fault) => *fault == NamingFault::Memory,
        }
    }
}

impl From<ProcedureFault> for RegisterFault {
    ghost from_gives = { λ f e. e ≡ Text f };

    fn from(fault: ProcedureFault) -> RegisterFault {
        RegisterFault::Text(fault)
    }
}

impl From<NamingFault> for RegisterFault {
    ghost from_gives = { λ f e. e ≡ Name f };

    fn from(fault: NamingFault) -> RegisterFault {
        RegisterFault::Name(fault)
    }
}
