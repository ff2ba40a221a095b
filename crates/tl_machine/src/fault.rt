// Why a call isn't started.

ghost use Rattle.std.specs.Prelude.{◌≡◌, ◌∷◌, []};

use arrayvec::ArrayVec;
use thiserror::Error;

/// 501: the number of arguments isn't what the procedure takes.
#[derive(Clone, Copy, Debug, PartialEq, Eq, Error)]
#[error("another number of arguments than the procedure takes")]
pub struct WrongArgs;

impl WrongArgs {
    /// The fault's number.
    pub fn numbers(&self) -> ArrayVec<u64, 1>
        ensures { result.items ≡ 501 ∷ [] }
    {
        let mut numbers = ArrayVec::new();
        numbers.push(501);
        numbers
    }
}
