//! The stored events of many calls, and the places reserved for events to come.
//!
//! Admitting a call reserves a place for each event that it may still have. So storing an event takes no memory and can't
//! fail.
#![tactic(auto)]

mod fault;
mod history;

pub use fault::HistoryFault;
pub use history::{History, MAX_CALLS, MAX_EVENTS};
