//! One call: its state, its steps, and what it does alone.
#![tactic(auto)]

mod alone_run;
mod call;
mod copies;
mod fault;
pub mod laws;
mod lent;
mod loops;
mod nodes;
mod reply;
mod segment;
mod start;
mod step;
mod turn;
mod values;
mod want;

pub use alone_run::{Answer, alone};
pub use call::{CallState, HeldNode};
pub use copies::copied;
pub use fault::WrongArgs;
pub use lent::LentTurn;
pub use reply::Reply;
pub use segment::{Segment, local};
pub use turn::Turn;
pub use want::{Advance, Stop, Want};
