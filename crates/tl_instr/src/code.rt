//! A code: an arity and instructions, valid by its type.

ghost use Rattle.std.specs.Prelude.{◌≡◌, ◌≢◌, ◌↔◌, length, slice_get, IsTrue, IsOk, IfOk, IfErr, IfSome};
ghost use Rattle.tl_instr.specs.Codes.{CodeValue, IsCode, migrated};
ghost use Rattle.tl_instr.specs.Faults.{IsFaultOf};
ghost use Rattle.tl_instr.specs.Instructions.{IsInstr};
ghost use Rattle.tl_instr.specs.Spelling.{Spelled};
ghost use Rattle.tl_instr.specs.declared.version.Version.TheVariants.{One, Two};

use crate::container::{one_spelling, spell};
use crate::fault::CodeFault;
use crate::instr::Instr;
use crate::operand::Arity;
use crate::version::Version;
use std::alloc::Global;
use std::marker::Model;

/// The most instructions that a code has.
pub const MAX_COUNT: usize = 1024;

/// The number of arguments that a procedure takes, and its 1 to 1,024 instructions. A target is a position of the code or
/// its end.
#[derive(Debug, Drop)]
pub struct Code {
    version: Version,
    arity: Arity,
    instrs: Vec<Instr>,
    // The container of the code. Two codes are the same if and only if these bytes are, and bytes compare fast.
    container: Vec<u8>,
}

impl Model for Code {
    ghost Value = { CodeValue };

    ghost view = { λ c. record { version = c.version; arity = c.arity; instrs = c.instrs.items } };

    ghost invariant = { λ c. Spelled c.container.items (record { version = c.version; arity = c.arity; instrs = c.instrs.items }) };
}

impl Code {
    /// The code of the first version with these instructions. Takes memory for its container.
    ///
    /// 206 if the arity is above 8; otherwise 205 if there aren't 1 to 1,024 instructions. Otherwise, at the first
    /// instruction that the version doesn't have or whose target is above the number of instructions, 203 if the version
    /// has no such opcode, and 204 if it has. 290 if memory is refused.
    pub fn new(alloc: Global, arity: u8, instrs: Vec<Instr>) -> Result<Code, CodeFault>
        ensures value { IfOk result (λ c. c ≡ record { version = One; arity = arity; instrs = instrs.items }) }
        ensures valid { IfOk result (λ _. IsCode (record { version = One; arity = arity; instrs = instrs.items })) }
        ensures accepts { IsCode (record { version = One; arity = arity; instrs = instrs.items }) → IfErr result (λ f. f ≡ CodeFault.Memory) }
        ensures fault { IfErr result (λ f. f ≢ CodeFault.Memory → IsFaultOf (record { version = One; arity = arity; instrs = instrs.items }) f) }
    {
        Code::of_version(alloc, Version::One, arity, instrs)
    }

    /// Like `new`, but of the second version.
    pub fn new2(alloc: Global, arity: u8, instrs: Vec<Instr>) -> Result<Code, CodeFault>
        ensures value { IfOk result (λ c. c ≡ record { version = Two; arity = arity; instrs = instrs.items }) }
        ensures valid { IfOk result (λ _. IsCode (record { version = Two; arity = arity; instrs = instrs.items })) }
        ensures accepts { IsCode (record { version = Two; arity = arity; instrs = instrs.items }) → IfErr result (λ f. f ≡ CodeFault.Memory) }
        ensures fault { IfErr result (λ f. f ≢ CodeFault.Memory → IsFaultOf (record { version = Two; arity = arity; instrs = instrs.items }) f) }
    {
        Code::of_version(alloc, Version::Two, arity, instrs)
    }

    /// Like `new`, but of that version.
    pub fn of_version(
        alloc: Global,
        version: Version,
        arity: u8,
        instrs: Vec<Instr>,
    ) -> Result<Code, CodeFault>
        ensures value { IfOk result (λ c. c ≡ record { version = version; arity = arity; instrs = instrs.items }) }
        ensures valid { IfOk result (λ _. IsCode (record { version = version; arity = arity; instrs = instrs.items })) }
        ensures accepts { IsCode (record { version = version; arity = arity; instrs = instrs.items }) → IfErr result (λ f. f ≡ CodeFault.Memory) }
        ensures fault { IfErr result (λ f. f ≢ CodeFault.Memory → IsFaultOf (record { version = version; arity = arity; instrs = instrs.items }) f) }
    {
        let arity = Arity::new(arity).ok_or(CodeFault::BadArity)?;
        if instrs.is_empty() || instrs.len() > MAX_COUNT {
            return Err(CodeFault::BadCount);
        }
        let count = instrs.len() as u16;
        for position in 0..count {
            let instr = instrs[usize::from(position)];
            // The types of its operands keep them in range: this call tells the prover.
            let _cell = instr.cell();
            if !instr.has_opcode_in(version) {
                return Err(CodeFault::BadOpcode(position));
            }
            if !instr.is_in(version) || instr.target().is_some_and(|target| target > count) {
                return Err(CodeFault::BadOperand(position));
            }
        }
        let container = spell(alloc, version, arity, &instrs)?;
        Ok(Code {
            version,
            arity,
            instrs,
            container,
        })
    }

    /// The same code in the second version. Takes no memory. 207 if it isn't of the first.
    pub(crate) fn into_version_2(self) -> Result<Code, (Code, CodeFault)>
        ensures first { IsOk result ↔ (self.version ≡ One) }
        ensures same { IfOk result (λ c. c ≡ migrated self) }
        ensures handed_back { IfErr result (λ e. (e.0 ≡ self) × (e.1 ≡ CodeFault.NotVersion1)) }
    {
        if self.version != Version::One {
            return Err((self, CodeFault::NotVersion1));
        }
        let mut container = self.container;
        container[3] = b'2';
        Ok(Code {
            version: Version::Two,
            arity: self.arity,
            instrs: self.instrs,
            container,
        })
    }

    pub(crate) fn from_parts(
        version: Version,
        arity: Arity,
        instrs: Vec<Instr>,
        container: Vec<u8>,
    ) -> Code
        requires { Spelled container.items (record { version = version; arity = arity; instrs = instrs.items }) }
        ensures { result ≡ record { version = version; arity = arity; instrs = instrs.items } }
    {
        Code {
            version,
            arity,
            instrs,
            container,
        }
    }

    /// The version of the language that its container names.
    pub fn version(&self) -> Version
        ensures value { result ≡ self.now.version }
        ensures valid { IsCode self.now }
    {
        self.version
    }

    /// How many arguments a call passes, 0 to 8.
    pub fn arity(&self) -> Arity
        ensures value { result ≡ self.now.arity }
        ensures valid { IsCode self.now }
    {
        self.arity
    }

    pub fn instrs(&self) -> &[Instr]
        ensures value { result.now ≡ self.now.instrs }
        ensures valid { IsCode self.now }
    {
        self.instrs.as_slice()
    }

    /// How many instructions there are, 1 to 1,024.
    pub fn count(&self) -> u16
        ensures value { result ≡ length self.now.instrs }
        ensures valid { IsCode self.now }
    {
        self.instrs.len() as u16
    }

    /// The instruction at a position, or `None` from the code's end on.
    pub fn instr_at(&self, position: u16) -> Option<Instr>
        ensures value { result ≡ slice_get self.now.instrs position }
        ensures within { IfSome result (IsInstr self.now.version (length self.now.instrs)) }
        ensures valid { IsCode self.now }
    {
        self.instrs.get(usize::from(position)).copied()
    }

    /// The bytes of the code's container.
    pub fn container(&self) -> &[u8]
        ensures { Spelled result.now self.now }
    {
        self.container.as_slice()
    }

    /// Whether both are the same code: the same version, arity and instructions.
    pub fn is(&self, other: &Code) -> bool
        ensures { IsTrue result ↔ (self.now ≡ other.now) }
    {
        // Each code has one container, and no two codes share one: this call tells the prover.
        one_spelling();
        self.container == other.container
    }
}
