//! A journal on a store in a file: what opens it, what it stores and how it ends.
#![tactic(auto)]

mod comparing;
mod following;
mod journal;
mod opening;
mod refusal;
mod volumes;

pub use comparing::{Comparer, Difference};
pub use journal::{End, FileJournal};
pub use opening::{Opening, StoreOptions, Stored, open_stored};
pub use refusal::StoreRefusal;
