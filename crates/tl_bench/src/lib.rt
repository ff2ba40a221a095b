//! The work that the benchmark measures, as C functions over numbers and slices.
//!
//! A harness that isn't Rattle calls them next to a twin's version of the same work, and compares their results with the twin's
//! (`bench/README.md`). Their contracts promise only that each call is safe and ends.
#![tactic(auto)]

pub mod calling;
pub mod clock;
pub mod digest;
pub mod interleaved;
pub mod measured;
pub mod trails;
pub mod trees;
