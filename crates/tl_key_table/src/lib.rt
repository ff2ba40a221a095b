//! What came of calls, in a table that is looked through by the numbers of their keys.
#![tactic(auto)]

mod row;
mod table;

pub use row::KeyRow;
pub use table::{KEY, find_key, put_key};
