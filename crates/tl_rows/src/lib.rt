//! The rows of a store: what is written of a tree, of procedures, calls, turns and replies, and what such rows mean.
#![tactic(auto)]

mod calls;
mod changes;
mod nodes;
mod numbers;
mod procedures;
mod records;
mod replies;
mod turns;

pub use calls::call_row;
pub use changes::changed;
pub use nodes::node_rows;
pub use numbers::{is_epoch, numbers_of_text, text_of_numbers};
pub use procedures::procedure_row;
pub use records::{record_row, record_rows};
pub use replies::reply_row;
pub use turns::turn_row;
