//! The trail of a core.
//!
//! A core becomes a trail only here: an auditor of trails needs nothing of a core.
#![tactic(auto)]

mod recording;

pub use recording::trail_of;
