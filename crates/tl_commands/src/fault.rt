// What the program answers instead of a result.

ghost use Rattle.std.specs.Prelude.{◌≡◌};
ghost use Rattle.tl_commands.specs.declared.fault.CliFault.TheVariants.{Memory, Engine};
ghost use Rattle.tl_commands.specs.Faults.{numbers_of, status_of};

use arrayvec::ArrayVec;
use std::alloc::AllocError;
use thiserror::Error;
use tl_asm::AsmFault;
use tl_audit::{AuditFault, ChainFault};
use tl_core::CoreFault;
use tl_instr::CodeFault;
use tl_json::RegisterFault;
use tl_sources::{RefusedFile, SourceFault};
use tl_table::TableFault;
use tl_trail::TrailFault;
use tl_tree::TreeFault;
use tl_verify::VerifyFault;
use tl_workers::Refusal;

/// Why the program has no result to print.
#[derive(Clone, Copy, Debug, PartialEq, Eq, Error)]
pub enum CliFault {
    /// 31: a file can't be read.
    #[error("a file can't be read")]
    Unreadable,
    /// 32: a file can't be written.
    #[error("a file can't be written")]
    Unwritable,
    /// 33: a port can't be opened.
    #[error("a port can't be opened")]
    NoPort,
    /// 255: the assembler text isn't UTF-8.
    #[error("the text is not UTF-8")]
    NotUtf8,
    /// 251 to 254, 290: the assembler text.
    #[error("the text: {0}")]
    Asm(AsmFault),
    /// 101 to 106, 190: the tree.
    #[error("the tree: {0}")]
    Tree(TreeFault),
    /// 201 to 207, 290: the container.
    #[error("the procedure: {0}")]
    Code(CodeFault),
    /// 301 to 307, 401 to 409, 490: the code isn't accepted.
    #[error("the procedure: {0}")]
    Verify(VerifyFault),
    /// 255, 270 to 297, 299, 251 to 254, 201 to 206, 290, 301 to 307, 401 to 409, 490: a file of procedures.
    #[error("{0}")]
    Source(SourceFault),
    /// The same of one of several files.
    #[error("{0}")]
    Sources(RefusedFile),
    /// 251 to 254, 290, 301 to 307, 401 to 409, 490, 611 to 613, 690: a procedure that is registered.
    #[error("a procedure: {0}")]
    Register(RegisterFault),
    /// 501 to 605, 690: many calls in turns.
    #[error("the calls: {0}")]
    Core(CoreFault),
    /// 701, 101 to 613 for what the trail says, 790: the trail.
    #[error("the trail: {0}")]
    Trail(TrailFault),
    /// 711 to 717, 790: what is wrong with the trail.
    #[error("the trail: {0}")]
    Audit(AuditFault),
    /// 718, 719 with what is wrong with a trail, 790: what is wrong with a chain of trails.
    #[error("the chain: {0}")]
    Chain(ChainFault),
    /// 720: a procedure of a file has another code than in the file before, which was to be refused.
    #[error("a procedure has another code than in the file before")]
    Replaced,
    /// 606, 690, 808, 821, 890, 990: the engine that runs many calls at once refuses.
    #[error("the calls: {0}")]
    Engine(Refusal),
    /// 831: a call is unfinished, or the calls aren't those that were asked for, or a session isn't there.
    #[error("the calls are not those that were asked for")]
    NotClosed,
    /// 731: the text isn't a script.
    #[error("the text is not a script")]
    NotScript,
    /// 732: the arguments aren't a JSON list of 64-bit integers.
    #[error("the arguments are not a list of numbers")]
    NotArgs,
    /// 501: another number of arguments than the procedure takes.
    #[error("another number of arguments than the procedure takes")]
    WrongArgs,
    /// 990: memory was refused.
    #[error("out of memory")]
    Memory,
}

impl CliFault {
    /// The fault's number, followed by its parts.
    pub fn numbers(&self) -> ArrayVec<u64, 5>
        ensures { result.items ≡ numbers_of self.now }
    {
        let mut numbers = ArrayVec::new();
        match self {
            CliFault::Unreadable => numbers.push(31),
            CliFault::Unwritable => numbers.push(32),
            CliFault::NoPort => numbers.push(33),
            CliFault::NotUtf8 => numbers.push(255),
            CliFault::Asm(fault) => return as_many(&fault.numbers()),
            CliFault::Tree(fault) => return as_many(&fault.numbers()),
            CliFault::Code(fault) => return as_many(&fault.numbers()),
            CliFault::Verify(fault) => return as_many(&fault.numbers()),
            CliFault::Source(fault) => return as_many(&fault.numbers()),
            CliFault::Sources(refused) => return as_many(&refused.fault.numbers()),
            CliFault::Register(fault) => return as_many(&fault.numbers()),
            CliFault::Core(fault) => return as_many(&fault.numbers()),
            CliFault::Trail(fault) => return as_many(&fault.numbers()),
            CliFault::Audit(fault) => return as_many(&fault.numbers()),
            CliFault::Chain(fault) => return fault.numbers(),
            CliFault::Engine(refusal) => return as_many(&refusal.numbers()),
            CliFault::Replaced => numbers.push(720),
            CliFault::NotClosed => numbers.push(831),
            CliFault::NotScript => numbers.push(731),
            CliFault::NotArgs => numbers.push(732),
            CliFault::WrongArgs => numbers.push(501),
            CliFault::Memory => numbers.push(990),
        }
        numbers
    }

    /// The program's exit status: 3 for a device, 4 if memory was refused, otherwise 1.
    pub fn status(&self) -> u8
        ensures { result ≡ status_of self.now }
    {
        match self {
            CliFault::Unreadable | CliFault::Unwritable | CliFault::NoPort => 3,
            CliFault::Source(fault) if fault.is_memory() => 4,
            CliFault::Sources(refused) if refused.fault.is_memory() => 4,
            CliFault::Register(fault) if fault.is_memory() => 4,
            CliFault::Tree(TreeFault::Memory)
            | CliFault::Asm(AsmFault::Memory)
            | CliFault::Code(CodeFault::Memory)
            | CliFault::Verify(VerifyFault::Memory)
            | CliFault::Core(CoreFault::Memory)
            | CliFault::Trail(TrailFault::Memory)
            | CliFault::Audit(AuditFault::Memory)
            | CliFault::Chain(ChainFault::Memory)
            | CliFault::Engine(
                Refusal::Memory
                | Refusal::Table(TableFault::Memory | TableFault::Core(CoreFault::Memory)),
            )
            | CliFault::Memory => 4,
            _ => 1,
        }
    }
}

// The same numbers, with room for more.
fn as_many(numbers: &ArrayVec<u64, 3>) -> ArrayVec<u64, 5>
    ensures { result.items ≡ numbers.now.items }
{
    let mut all = ArrayVec::new();
    // There are at most three.
    let _fact = numbers.len();
    let Ok(()) = all.try_extend_from_slice(numbers.as_slice()) else {
        unreachable!()
    };
    all
}

impl From<AllocError> for CliFault {
    ghost from_gives = { λ _ e. e ≡ Memory };

    fn from(_refused: AllocError) -> CliFault {
        CliFault::Memory
    }
}

impl From<Refusal> for CliFault {
    ghost from_gives = { λ r e. e ≡ Engine r };

    fn from(refusal: Refusal) -> CliFault {
        CliFault::Engine(refusal)
    }
}
