//! How a server begins on a store, and how it ends.
#![tactic(auto)]

mod beginning;
mod emptiness;
mod ending;
mod remembering;
mod reopening;

pub use beginning::{Beginning, make_store};
pub use emptiness::has_no_rows;
pub use ending::end_store;
pub use remembering::{RECALLED, remember_closed, remember_keys};
pub use reopening::{Retaken, reopen_store};
