//! What came of calls that had a client's key, by their keys: of the latest ones, in memory that has an end.
#![tactic(auto)]

mod index;
mod kept;
pub mod laws;

pub use index::{CAPACITY, KeyIndex};
pub use kept::Kept;
