// What a call needs before its next instruction, and the result of going on.

ghost use Rattle.std.specs.Prelude.{◌≡◌};
ghost use Rattle.tl_machine.specs.BetweenSteps.{stop_on, IsThere};

use tl_tree::Shape;
use tl_tree_locking::Action;

/// An instruction that a call can't do by itself, and why it stops there.
#[derive(Clone, Copy, Debug, PartialEq, Eq)]
pub enum Stop {
    /// The next instruction locks the node.
    Lock(u32),
    /// The next instruction frees the node.
    Free(u32),
    /// The next instruction is the return.
    Return,
    /// There is no next instruction: the call is done.
    Over,
}

/// Where a call stops, as far as that is known without the tree's shape.
#[derive(Clone, Copy, Debug)]
pub(crate) enum Pending {
    /// At this stop, on each shape.
    Known(Stop),
    /// At the lock of the child with that number.
    Child { parent: u32, number: u32 },
}

impl Pending {
    // Where the call stops on trees of the shape.
    #[inline(always)]
    pub(crate) fn on(self, shape: &Shape) -> Stop
        requires { IsThere shape.now self }
        ensures { result ≡ stop_on shape.now self }
    {
        match self {
            Pending::Known(stop) => stop,
            Pending::Child { parent, number } => Stop::Lock(shape.kid(parent, number)),
        }
    }
}

/// What must happen before a call's next instruction.
#[derive(Clone, Copy, Debug, PartialEq, Eq)]
pub enum Want {
    /// Nothing: it is local.
    Local,
    /// The call can't go on by itself, or it is done.
    Stop(Stop),
}

/// The result of a call's next instruction.
#[derive(Clone, Copy, Debug, PartialEq, Eq)]
pub enum Advance {
    /// It was local, and is done.
    Did(Action),
    /// It isn't local, and the call is unchanged.
    Stopped(Stop),
}
