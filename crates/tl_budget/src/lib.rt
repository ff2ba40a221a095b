//! Loops, and what a procedure costs at most.
#![tactic(auto)]

mod fault;
pub mod laws;
mod limits;
mod nested;
mod nesting;
mod sums;

pub use fault::NestFault;
pub use limits::{Bounds, MAX_DEPTH, MAX_EMITS, MAX_LOCKS, MAX_STEPS};
pub use nested::{Nest, Place};
pub use nesting::nest;
pub use sums::bounds;
