//! A journal beside the threads of a server: what its engines did is stored, in one commit for all that came meanwhile, before anybody is
//! told of it.
#![tactic(auto)]

mod desk;
mod journal;

pub use journal::{JournalParts, LedgerJournal, follow_refusal_of, marks_at};
