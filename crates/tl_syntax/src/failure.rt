// What fails of itself, and the number that stands for it where a failure has a code.

ghost use Rattle.std.specs.Prelude.{◌≡◌};
ghost use Rattle.tl_syntax.specs.Codes.{code_of};

/// A failure to which the text gives no code.
#[derive(Clone, Copy, Debug, PartialEq, Eq)]
pub enum Failure {
    /// A number that can't be computed.
    Number,
    /// A node of the tree that can't be locked.
    Node,
    /// A child that can't be locked.
    Child,
    /// A loop that would need more turns than its bound.
    Bound,
    /// A loop over children of which one can't be locked, or that are more than its bound.
    Children,
}

impl Failure {
    /// The number that an `else` is given. Below 0, so that a text's own codes are others.
    pub fn code(self) -> i32
        ensures { result ≡ code_of self }
    {
        match self {
            Failure::Number => -1,
            Failure::Node => -2,
            Failure::Child => -3,
            Failure::Bound => -4,
            Failure::Children => -5,
        }
    }
}
