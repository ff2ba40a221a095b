// The result of a step of a call.

use tl_tree_locking::Action;

/// The result of a step of a call.
#[derive(Clone, Copy, Debug, PartialEq, Eq)]
pub enum Stepped {
    /// The call did its next instruction.
    Moved { action: Action },
    /// The next instruction locks a node that another call holds. Nothing changed.
    Blocked { node: u32, holder: u32 },
    /// The call is done. Nothing changed.
    Over,
}
