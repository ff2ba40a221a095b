//! The owners of what tests run.
//!
//! A table, an engine or its sessions are made here, lent to the test, and closed; then the results of the closed table are lent to
//! the test. How a value is dropped is proved once for each crate that drops one, and at each exit of a function that owns one. So
//! a test owns none of these, and its `?` stand where it owns nothing.
//!
//! Each function here that closes a table audits what the table's calls have done.
#![tactic(auto)]

mod asking;
mod crossing;
mod ended;
mod engine;
mod exchange;
mod generations;
mod opened;
mod ready;
mod sealed;
mod signal;
mod table;

pub use asking::{Answers, Asked, batch, done};
pub use crossing::{Crossing, Point};
pub use ended::Ended;
pub use engine::{
    use_up_sessions, with_callers, with_engine, with_engine_on_threads, with_engine_that_seals,
    with_one_session,
};
pub use exchange::{end_exchanged, with_exchanged_sessions};
pub use generations::{Taken, with_two_generations};
pub use opened::end_opened;
pub use ready::with_ready;
pub use sealed::{with_sealed_core, with_sealed_running};
pub use signal::Signal;
pub use table::{receipt_of, with_table};
