//! A core that is driven again, by the calls that took turns in another.
#![tactic(auto)]

mod fault;
pub mod laws;
mod redriving;

pub use fault::RecoverFault;
pub use redriving::{finish, redrive};
