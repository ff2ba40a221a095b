// What a history of many calls stores.

use tl_tree::Record;

/// One event of a history. The node comes before the call, next to the byte that tells the variants apart: so an event
/// takes 40 bytes, not 48.
#[derive(Clone, Copy, Debug, PartialEq, Eq)]
pub enum Event {
    /// The call was admitted. Calls are numbered 0, 1, .. in the order of their admissions.
    Admit { call: u32 },
    /// The call locked the node, which had this record.
    Lock { node: u32, call: u32, found: Record },
    /// The call freed the node, which has this record from then on.
    Free { node: u32, call: u32, left: Record },
    /// The call ended.
    Done { call: u32 },
}
