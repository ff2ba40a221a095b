//! A core with sessions.
//!
//! A `Table` has a core, and knows the session that asked for each call. Whoever runs a call takes its state, lets it go on
//! by itself, and submits what it did. Once every call is done, the table can be closed; then it says whether a receipt
//! stands.
#![tactic(auto)]

mod chain;
mod closed;
mod epoch;
mod fault;
pub mod laws;
mod receipt;
mod table;

pub use chain::conclude_all;
pub use closed::Closed;
pub use epoch::{MAX_EPOCHS, MAX_SESSIONS};
pub use fault::TableFault;
pub use receipt::{Receipt, Sent};
pub use table::Table;
