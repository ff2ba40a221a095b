//! What a store has of all its epochs: what follows of rows that are those of calls, epoch after epoch.
#![tactic(auto)]

pub mod laws;
