//! What texts of the procedure language mean.
#![tactic(auto)]

pub mod laws;
