// What came since a table was read last.

use crate::mark::Mark;
use std::sync::Arc;
use tl_machine::Reply;
use tl_procedures::Request;
use tl_tree::Record;
use tl_verify::Proc;

/// A procedure that was registered under this name.
#[derive(Debug, Drop)]
pub struct NewProcedure {
    pub name: String,
    pub procedure: Arc<Proc>,
}

/// A call that was admitted: the session that asked for it, and its request.
#[derive(Debug, Drop)]
pub struct NewCall {
    pub session: u32,
    pub request: Request,
}

/// A call that is done, by its number in its epoch: the session that asked for it, and its reply.
#[derive(Debug, Drop)]
pub struct Answer {
    pub call: u32,
    pub session: u32,
    pub reply: Reply,
}

/// What came of one epoch.
#[derive(Debug, Drop)]
pub struct EpochNews {
    /// Its number in its table.
    pub epoch: u32,
    pub procedures: Vec<NewProcedure>,
    /// The number of the first of these calls.
    pub first_call: usize,
    /// The calls that were admitted, in the order of their numbers.
    pub calls: Vec<NewCall>,
    /// By event, the earliest first: the call that took that turn.
    pub turns: Vec<u32>,
    /// In the order of their ends.
    pub answers: Vec<Answer>,
    /// The records at its end, if it is over.
    pub records: Option<Vec<Record>>,
}

/// What came of a table, epoch by epoch, and how far it is read then.
#[derive(Debug, Drop)]
pub struct TableNews {
    pub epochs: Vec<EpochNews>,
    pub mark: Mark,
}
