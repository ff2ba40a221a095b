//! How many fields a record has: stated once, for records and for instructions that name a field.
#![tactic(auto)]

mod count;

pub use count::{FIELD_COUNT, NARROW_FIELD_COUNT};

pub mod laws;
