// What is known about the node registers at a position.

use crate::register_set::RegisterSet;

/// Which node registers are held, and whether `first` is still open: it is spent once a call may have locked a node.
#[derive(Clone, Copy, Debug, PartialEq, Eq)]
pub struct Marks {
    pub held: RegisterSet,
    pub is_open: bool,
}
