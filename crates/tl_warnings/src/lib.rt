//! What a text of the procedure language has that it doesn't need: values that nothing reads, and blocks for failures that can't happen;
//! and loops over children that may not go through all, since one may be locked before its turn.
#![tactic(auto)]

mod failing;
mod finding;
mod locking;
mod passing;
mod reading;
mod walking;
mod warning;

pub use finding::warnings;
pub use warning::{Needless, Warning};
