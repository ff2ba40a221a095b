//! The tree with which an epoch opens, known by an earlier tree and by what each epoch since left.
#![tactic(auto)]

mod frees;
mod opening;

pub use opening::Opening;
