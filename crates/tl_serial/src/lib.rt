//! What the serial order of a core's history promises, and the calls run again in that order.
//!
//! Once the calls of a core are done, the records and the replies are those of the calls run alone, one after another in
//! this order.
#![tactic(auto)]

mod concluding;
mod replaying;
mod running;

pub use concluding::conclude;
pub use replaying::replay;
pub use running::Running;
pub use tl_serial_order::{Order, SerialFault, is_of_shape, order_of};
