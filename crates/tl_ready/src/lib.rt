//! The queue of the calls that are ready to run.
//!
//! Threads push and pop numbers, each through a pass of its own. Whatever the threads do and in whatever order, the queue
//! keeps a rule: each number was pushed exactly as often as it was popped, plus as often as it is in the queue. So no
//! number is lost, and none is handed out twice.
#![tactic(auto)]

mod ready;
mod rule;

pub use ready::{MAX_READY, Ready, ReadyPass};
pub use rule::Handed;
