//! Procedures under their names.
//!
//! A name is 1 to 32 ASCII letters, digits or `_`, and no two procedures have the same name. They are numbered in the order
//! in which they were added. A call's code is looked up here, both to run calls and to check what calls did.
#![tactic(auto)]

mod fault;
mod named;
mod procedures;
mod request;

pub use fault::{NamingFault, ReplacingFault};
pub use named::NamedProcedure;
pub use procedures::{MAX_NAME, MAX_PROCEDURES, Procedures};
pub use request::Request;
