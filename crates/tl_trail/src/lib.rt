//! Trails: what the calls of a core did to a tree, as data and as text.
//!
//! A trail says all that calls did: the tree before them, the procedures, the requests and replies, the events in order,
//! and the records in the end. Anybody may write one. What makes a trail clean is defined here; whoever makes trails and
//! whoever judges them use this definition.
#![tactic(auto)]

mod chain;
mod fault;
mod raw;
mod reading;
mod tokens;
mod trail;
mod writing;

pub use chain::{MAX_TRAILS, read_chain, write_chain};
pub use fault::TrailFault;
pub use reading::read_trail;
pub use trail::{Trail, TrailCall};
pub use writing::write_trail;
