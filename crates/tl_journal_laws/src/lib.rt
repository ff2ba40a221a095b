//! What a journal has pending, as news of a core.
#![tactic(auto)]

pub mod laws;
