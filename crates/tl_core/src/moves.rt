// What a driver asks of a core, and the results.

use crate::fault::CoreFault;
use crate::stepped::Stepped;

/// One move of a driver.
#[derive(Debug, Drop)]
pub enum Move {
    /// The admission of a call of the procedure of that name, with these arguments.
    Admit { name: String, args: Vec<i64> },
    /// A step of a call.
    Step { call: u32 },
}

/// The result of a move.
#[derive(Clone, Copy, Debug, PartialEq, Eq)]
pub enum Entry {
    /// The call of this number was admitted.
    Admitted { call: u32 },
    /// The call was asked for a step, with this result.
    Stepped { call: u32, stepped: Stepped },
    /// The move was refused, and changed nothing.
    Refused { fault: CoreFault },
}
