// Why a text isn't compiled.

ghost use Rattle.std.specs.Prelude.{◌≡◌, [], ◌∷◌};
ghost use Rattle.tl_compiler.specs.Faults.{IsTextFault, numbers_at};
ghost use Rattle.tl_compiler.specs.declared.fault.CompileFault.TheVariants.{Memory};

use arrayvec::ArrayVec;
use std::alloc::{AllocError, AllocFailed};
use thiserror::Error;
use tl_syntax::{Position, SyntaxFault, Wrong};

/// What a procedure has too many of.
#[derive(Clone, Copy, Debug, PartialEq, Eq, Error)]
pub enum Excess {
    /// 294.
    #[error("more than 1,024 instructions")]
    Instructions,
    /// 295.
    #[error("more than 1,000,000 steps, each counted as often as the loops around it may turn")]
    Steps,
    /// 296.
    #[error("more than 4,096 locks, each counted as often as the loops around it may turn")]
    Locks,
    /// 297.
    #[error("more than 32 emitted values, each counted as often as the loops around it may turn (remember what was found, and emit it behind the loop)")]
    Emits,
}

impl Excess {
    ghost use Rattle.tl_compiler.specs.Faults.{excess_number};

    fn number(&self) -> u64
        ensures { result ≡ excess_number self.now }
    {
        match *self {
            Excess::Instructions => 294,
            Excess::Steps => 295,
            Excess::Locks => 296,
            Excess::Emits => 297,
        }
    }
}

/// Why a text isn't compiled.
#[derive(Clone, Copy, Debug, PartialEq, Eq, Error)]
pub enum CompileFault {
    /// 255: the text isn't UTF-8.
    #[error("the text is not UTF-8")]
    NotUtf8,
    /// 270 to 293 and 299: the first fault of the text, and where it is.
    #[error("{1}: {0}")]
    Wrong(Wrong, Position),
    /// 294 to 297: too much of something, how much in all, and the statement that most of it is for.
    #[error("{2}: {0}: {1} in all, most of them for this")]
    Over(Excess, u64, Position),
    /// 289: there isn't one procedure to be compiled.
    #[error("the text has not one procedure, or none of that name")]
    NotOne,
    /// 290: memory was refused.
    #[error("out of memory")]
    Memory,
}

impl From<AllocError> for CompileFault {
    ghost from_gives = { λ _ e. e ≡ Memory };

    fn from(_error: AllocError) -> CompileFault {
        CompileFault::Memory
    }
}

impl<T: Drop> From<AllocFailed<T>> for CompileFault {
    ghost from_gives = { λ _ e. e ≡ Memory };

    fn from(_error: AllocFailed<T>) -> CompileFault {
        CompileFault::Memory
    }
}

impl CompileFault {
    ghost use Rattle.tl_compiler.specs.Faults.{numbers_of};

    /// The first fault of a text.
    pub fn of_syntax(text: &[u8], fault: SyntaxFault) -> CompileFault
        ensures { IsTextFault result }
    {
        match fault {
            SyntaxFault::At { wrong, offset } => {
                CompileFault::Wrong(wrong, Position::of(text, offset))
            }
            SyntaxFault::Memory => CompileFault::Memory,
        }
    }

    /// Where in the text, if the fault has a place.
    pub fn position(&self) -> Option<Position> {
        match *self {
            CompileFault::Wrong(_, position) | CompileFault::Over(_, _, position) => Some(position),
            CompileFault::NotUtf8 | CompileFault::NotOne | CompileFault::Memory => None,
        }
    }

    /// The fault's number, followed by its line and column if it has a place.
    pub fn numbers(&self) -> ArrayVec<u64, 3>
        ensures { result.items ≡ numbers_of self.now }
    {
        match *self {
            CompileFault::NotUtf8 => alone(255),
            CompileFault::Wrong(wrong, position) => numbers_at(wrong.number(), position),
            CompileFault::Over(excess, _, position) => numbers_at(excess.number(), position),
            CompileFault::NotOne => alone(289),
            CompileFault::Memory => alone(290),
        }
    }
}

fn alone(number: u64) -> ArrayVec<u64, 3>
    ensures { result.items ≡ number ∷ [] }
{
    let mut numbers = ArrayVec::new();
    numbers.push(number);
    numbers
}

fn numbers_at(number: u64, position: Position) -> ArrayVec<u64, 3>
    ensures { result.items ≡ numbers_at number position }
{
    let mut numbers = ArrayVec::new();
    numbers.push(number);
    numbers.push(position.line);
    numbers.push(position.column);
    numbers
}
