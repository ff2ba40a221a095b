// What came since the last commit.

use crate::rows::{CallRow, ChangedRecord, NodeRow, ProcedureRow, ReplyRow, SealRow, TurnRow};

/// What came since the last commit. Of a record that changed only the last state needs to be there.
#[derive(Debug, Drop)]
pub struct News {
    /// The nodes that were appended, each with a record of zeros.
    pub nodes: Vec<NodeRow>,
    pub procedures: Vec<ProcedureRow>,
    pub calls: Vec<CallRow>,
    pub turns: Vec<TurnRow>,
    pub replies: Vec<ReplyRow>,
    pub seals: Vec<SealRow>,
    /// The records at the last of these seals, as far as they aren't those that are stored.
    pub records: Vec<ChangedRecord>,
}
