//! Closed tables one after another.
//!
//! A table has at most 256 epochs. A server that goes on closes it then, and opens the next one with the tree and the procedures that it
//! left: its legacy. Nodes may be appended to that tree in between, and procedures replaced. Whether the next one really took that up is asked when it is closed in
//! its turn, since nothing is known of a table behind a lock but what its type says.
#![tactic(auto)]

mod growth;
pub mod laws;
mod legacy;
mod succession;

pub use growth::GrowthFault;
pub use legacy::Legacy;
pub use succession::Succession;
