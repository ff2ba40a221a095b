//! What a store got behind a position: its rows, in their order, and the position behind them.
#![tactic(auto)]

mod behind;
mod fault;
mod found;
pub mod laws;
mod ledger;
mod lines;
mod rows;

pub use behind::rows_behind;
pub use fault::FollowFault;
pub use found::{Found, find_behind};
pub use ledger::follow_ledger;
pub use lines::line_of;
pub use rows::{Rows, beginning};
