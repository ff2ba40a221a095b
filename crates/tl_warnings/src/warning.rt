// Warnings.

use thiserror::Error;

/// What isn't needed, or may not do what it seems to.
#[derive(Clone, Copy, Debug, PartialEq, Eq, Error)]
pub enum Needless {
    /// An argument, a number that a part is given, the value of a `let` or the index of a loop.
    #[error("nothing reads this value")]
    Value,
    /// An `else` of a statement, a declaration or a procedure.
    #[error("nothing leads to this `else`: what stands before it can't fail")]
    Else,
    #[error("this `try` isn't needed: nothing in its block can fail")]
    Try,
    /// A loop over the children of a node, one of which may be locked before its turn.
    #[error("a child of this node may have been locked before its turn: the loop may not go through all")]
    Passed,
}

/// What is warned of, and the offset at which it stands in the text.
#[derive(Clone, Copy, Debug, PartialEq, Eq)]
pub struct Warning {
    pub needless: Needless,
    pub offset: usize,
}
