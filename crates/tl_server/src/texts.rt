// Texts of procedures that lines bring.

ghost use Rattle.std.specs.Prelude.{◌≡◌, ◌≢◌, ℕ, List, IfOk, IfErr, IfSome};
ghost use Rattle.tl_procedures.specs.Names.{Named};
ghost use Rattle.tl_server.specs.Served.{AreBoundsOf, TextOutcome, IsUnreadable};
ghost use Rattle.tl_server.specs.Replacing.{HasRead};
ghost use Rattle.tl_procedures.specs.declared.fault.NamingFault.TheVariants as naming;
ghost use Rattle.tl_server.specs.declared.texts.TextFault.TheVariants as fault;

use arrayvec::ArrayVec;
use std::alloc::{AllocError, Global};
use std::sync::Wait;
use tl_budget::Bounds;
use tl_procedures::{NamedProcedure, NamingFault, Procedures};
use tl_workers::Engine;

/// The name of a procedure, and the most that its calls do.
#[derive(Debug, Drop)]
pub struct NamedBounds {
    pub name: String,
    pub bounds: Bounds,
}

/// Why the procedures of a text aren't registered.
#[derive(Debug, Drop)]
pub enum TextFault {
    /// The text has a fault, whose numbers end with its line and its column.
    Text(ArrayVec<u64, 3>),
    /// 611 to 613: the name of a procedure is refused.
    Name(NamingFault),
    /// 990: memory was refused.
    Memory,
}

impl TextFault {
    ghost use Rattle.tl_server.specs.Faults.{text_numbers_of};

    /// The fault's numbers.
    pub fn numbers(&self) -> ArrayVec<u64, 3>
        ensures { result.items ≡ text_numbers_of self.now }
    {
        match self {
            TextFault::Text(numbers) => copied(numbers),
            TextFault::Name(fault) => fault.numbers(),
            TextFault::Memory => {
                let mut numbers = ArrayVec::new();
                numbers.push(990);
                numbers
            }
        }
    }
}

/// Why the procedures of a text aren't put in the place of others.
#[derive(Debug, Drop)]
pub enum ReplaceFault {
    /// The text has a fault, whose numbers end with its line and its column.
    Text(ArrayVec<u64, 3>),
    /// 613: the text has more procedures than there may be.
    Name(NamingFault),
    /// 601: there is no procedure with the name of one.
    NoProcedure,
}

impl ReplaceFault {
    ghost use Rattle.tl_server.specs.Faults.{replace_numbers_of};

    /// The fault's numbers.
    pub fn numbers(&self) -> ArrayVec<u64, 3>
        ensures { result.items ≡ replace_numbers_of self.now }
    {
        match self {
            ReplaceFault::Text(numbers) => copied(numbers),
            ReplaceFault::Name(fault) => fault.numbers(),
            ReplaceFault::NoProcedure => {
                let mut numbers = ArrayVec::new();
                numbers.push(601);
                numbers
            }
        }
    }
}

// The same numbers.
fn copied(numbers: &ArrayVec<u64, 3>) -> ArrayVec<u64, 3>
    ensures { result.items ≡ numbers.now.items }
{
    let mut copy = ArrayVec::new();
    // They fit here as they fit there.
    let _fits = copy.try_extend_from_slice(numbers.as_slice());
    copy
}

impl From<AllocError> for TextFault {
    ghost from_gives = { λ _ e. e ≡ fault.Memory };

    fn from(_refused: AllocError) -> TextFault {
        TextFault::Memory
    }
}

impl From<NamingFault> for TextFault {
    ghost from_gives = { λ f e. e ≡ fault.Name f };

    fn from(fault: NamingFault) -> TextFault {
        TextFault::Name(fault)
    }
}

/// Who reads the texts of procedures that lines bring.
pub trait Texts {
    // Which procedures a text has, and the numbers of the first fault of a text that has none.
    ghost has: { List ℕ → List Named → Type 0 };

    ghost lacks: { List ℕ → List ℕ → Type 0 };

    /// The procedures of a text, in its order, or its first fault.
    fn procedures_of(alloc: Global, text: &str) -> Result<Vec<NamedProcedure>, TextFault>
        ensures has { IfOk result (λ all. has text.now all.items) }
        ensures lacks { IfErr result (IsUnreadable lacks text.now) };
}

// The name and the bounds of each procedure.
fn bounds_of(alloc: Global, procedures: &[NamedProcedure]) -> Result<Vec<NamedBounds>, AllocError>
    ensures { IfOk result (λ all. AreBoundsOf procedures.now all.items) }
{
    let mut all = Vec::new(alloc);
    for named in procedures {
        all.push(NamedBounds {
            name: String::from_str(alloc, named.name())?,
            bounds: named.procedure().bounds(),
        })?;
    }
    Ok(all)
}

/// Registers all procedures of a text, in its order, or none of them. The name and the bounds of each. The text's fault; otherwise the
/// fault of the first name that is refused.
pub(crate) fn register_text<T: Texts>(
    rt: &impl Wait,
    alloc: Global,
    engine: &Engine,
    text: &str,
) -> Result<Vec<NamedBounds>, TextFault>
    ensures { TextOutcome (record { has = T.has; lacks = T.lacks }) text.now result }
{
    let procedures = T::procedures_of(alloc, text)?;
    let bounds = bounds_of(alloc, procedures.as_slice())?;
    engine.register_all(rt, alloc, procedures)?;
    Ok(bounds)
}

/// The procedures of a text under their names, and the name and the bounds of each.
#[derive(Debug, Drop)]
pub(crate) struct TextProcedures {
    pub(crate) procedures: Procedures,
    pub(crate) bounds: Vec<NamedBounds>,
}

/// The procedures of a text; the text's fault, or 613. `None` if memory is refused.
pub(crate) fn read_procedures<T: Texts>(
    alloc: Global,
    text: &str,
) -> Option<Result<TextProcedures, ReplaceFault>>
    ensures { IfSome result (HasRead (record { has = T.has; lacks = T.lacks }) text.now) }
{
    let named = match T::procedures_of(alloc, text) {
        Ok(named) => named,
        Err(TextFault::Text(numbers)) => return Some(Err(ReplaceFault::Text(numbers))),
        Err(TextFault::Name(_)) => unreachable!(),
        Err(TextFault::Memory) => return None,
    };
    let bounds = bounds_of(alloc, named.as_slice()).ok()?;
    match Procedures::new(alloc).and_all(alloc, named) {
        Ok(procedures) => Some(Ok(TextProcedures { procedures, bounds })),
        Err(fault) => Some(Err(name_fault(fault)?)),
    }
}

// Why the procedures of a text aren't taken under their names. `None` if memory was refused.
fn name_fault(fault: NamingFault) -> Option<ReplaceFault>
    ensures { IfSome result (λ f. (f ≡ ReplaceFault.Name fault) × (fault ≢ naming.Memory)) }
{
    match fault {
        NamingFault::Memory => None,
        fault => Some(ReplaceFault::Name(fault)),
    }
}
