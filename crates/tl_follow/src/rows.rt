// The rows between two positions.

ghost use Rattle.std.specs.Prelude.{◌≡◌};
ghost use Rattle.tl_follow.specs.Positions.{beginning};

use tl_ledger::{CallRow, Marks, NodeRow, ProcedureRow, ReplyRow, SealRow, TurnRow};

/// The rows of each table that grows, from a position on up to another.
#[derive(Debug, Drop)]
pub struct Rows {
    pub nodes: Vec<NodeRow>,
    pub procedures: Vec<ProcedureRow>,
    pub calls: Vec<CallRow>,
    pub turns: Vec<TurnRow>,
    pub replies: Vec<ReplyRow>,
    pub seals: Vec<SealRow>,
    /// The position behind them: how many rows each table has up to there.
    pub to: Marks,
}

/// The position before all rows.
pub fn beginning() -> Marks
    ensures { result ≡ beginning }
{
    Marks {
        nodes: 0,
        procedures: 0,
        calls: 0,
        turns: 0,
        replies: 0,
        seals: 0,
    }
}
