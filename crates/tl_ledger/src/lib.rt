//! What a server stores: its tree, its procedures, and what its calls did, as the tables of an SQLite file.
#![tactic(auto)]

mod appending;
mod changing;
mod committing;
mod counting;
mod entry;
mod founding;
mod ledger;
mod news;
mod read_rows;
mod reading;
mod reading_some;
mod rows;
mod schema;
mod surviving;

pub use appending::{append_all, append_zeros};
pub use changing::put_changes;
pub use committing::{Marks, commit_news};
pub use counting::{count_rows, marks_of, read_last};
pub use entry::Entry;
pub use founding::{Founding, found};
pub use ledger::Ledger;
pub use news::News;
pub use reading::{ReadEntry, ReadFault, read_all, read_from};
pub use reading_some::read_some;
pub use rows::{
    CallRow, ChangedRecord, FIELDS, NodeRow, ProcedureRow, RecordRow, ReplyRow, SealRow, TurnRow,
};
pub use schema::{CALL, NAME, NODE, OPENING, PROCEDURE, RECORD, REPLY, SEAL, TABLES, TURN, tables};
pub use surviving::commit_and_crash;
