//! Many calls at once, one step at a time.
//!
//! A `Core` has a tree, procedures, and calls of them that take turns: its driver says which call does its next
//! instruction. If that instruction locks a node that another call holds, the core reports it, and nothing changes. What
//! the calls do to the tree is stored as a history. The core's world is legal, whatever the driver asks of it.
#![tactic(auto)]

mod admission;
mod call;
mod fault;
mod followed;
mod interleaving;
mod moves;
mod readers;
mod scheduler;
mod stepped;
mod submission;

pub use fault::CoreFault;
pub use followed::{Followed, TurnOutcome};
pub use interleaving::{Core, MAX_OPEN};
pub use moves::{Entry, Move};
pub use stepped::Stepped;
