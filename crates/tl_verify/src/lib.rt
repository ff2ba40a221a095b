//! Decides which codes are accepted. A procedure is an accepted code: it can't fail when it runs.
#![tactic(auto)]

mod arrivals;
mod fault;
mod jumps;
pub mod laws;
mod marks;
mod objection;
mod procedure;
mod register_set;
mod registers;

pub use fault::VerifyFault;
pub use procedure::{Proc, verify};
