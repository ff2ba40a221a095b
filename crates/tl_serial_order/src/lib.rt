//! The serial order that a history gives.
//!
//! The order follows from the events alone: each call is put in at its first lock, before the calls that may still come to
//! that node. Nothing here depends on a procedure, or on who made the history.
#![tactic(auto)]

mod checked;
mod climb;
mod column;
mod event;
mod fault;
mod kept;
mod line;
mod order;
mod part;
mod parts;
mod placing;

pub use checked::CheckedOrder;
pub use fault::SerialFault;
pub use kept::KeptOrder;
pub use order::Order;
pub use placing::{is_of_shape, order_of};
