//! What came of engines and isn't stored yet, as rows.
#![tactic(auto)]

mod claims;
mod pending;

pub use claims::Claimed;
pub use pending::Pending;
