//! What a store has of epochs that are sealed, beside what was run.
#![tactic(auto)]

mod calls;
mod comparing;
mod ledger;
mod numbers;
mod procedures;
mod reading;
mod replies;
mod turns;

pub use comparing::check_epoch;
pub use ledger::read_stored_epoch;
pub use reading::{EpochRows, read_epoch};
