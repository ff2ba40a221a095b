//! A copy of a store: all its rows, in a store of its own.
#![tactic(auto)]

mod copying;
mod fault;
mod ledger;
mod tables;

pub use copying::copy_store;
pub use fault::CopyFault;
pub use ledger::{copy_ledger, has_counts};
