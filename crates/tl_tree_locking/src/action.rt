// What one instruction of a call did.

use tl_tree::Record;

/// One action of a call. Each instruction that a call does is one action.
#[derive(Clone, Copy, Debug, PartialEq, Eq)]
pub enum Action {
    /// Neither a lock, nor a free, a field access, an emit or the end: also a `first` or `child` that took its else branch.
    Plain,
    /// The node was locked, and had this record.
    Lock { node: u32, found: Record },
    /// The field of a held node was read.
    Read { node: u32, field: u8, value: i64 },
    /// The field of a held node was written.
    Write { node: u32, field: u8, value: i64 },
    /// The node was freed, and has this record from then on.
    Free { node: u32, left: Record },
    /// The value was appended to the reply.
    Emit { value: i64 },
    /// The call ended.
    End,
}
