//! What the numbers of faults mean, in words for people.
#![tactic(auto)]

mod meanings;

pub use meanings::{Meaning, meaning_of};
