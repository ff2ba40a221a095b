//! A copy of a store in a file of its own, written while a server has the store.
#![tactic(auto)]

mod fault;
mod filling;
mod name;
mod writing;

pub use fault::SnapshotFault;
pub use name::{MAX_STEM, is_snapshot_name};
pub use writing::{check_name, write_copy, write_snapshot};
