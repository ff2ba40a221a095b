//! The file of a store: found, made, opened.
//!
//! A store is an SQLite database in a file and a log beside it, as the kit's `FileStore` has them.
#![tactic(auto)]

mod fault;
mod finding;
mod form;
mod opening;
mod paths;
mod reader;
mod reading;
mod record;

pub use fault::{FileFault, Hindrance};
pub use finding::find;
pub use form::FORM;
pub use opening::{Blank, Found, Rested};
pub use paths::{ReadFile, open, open_to_read, open_with_mode};
pub use reader::{Content, Reader};
pub use reading::ReadFrom;
