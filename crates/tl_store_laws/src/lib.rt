//! What a store holds while its calls go on: what follows of the rows that are added.
#![tactic(auto)]

pub mod laws;
