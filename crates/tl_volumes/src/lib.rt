//! A store in volumes: each begins with what the one before left.
#![tactic(auto)]

mod carrying;
mod live;

pub use carrying::{CarryFault, carry_over, opening_rows};
pub use live::live_volume;
