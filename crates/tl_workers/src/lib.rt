//! Threads that run calls.
//!
//! An `Engine` has a table behind a lock. The holder of a session asks for calls, one at a time or many at once, from any
//! thread. A session keeps a list of its requests and receipts. When the engine is closed, each session's list is compared with
//! the table.
#![tactic(auto)]

mod asking;
mod batch;
mod crew;
mod engine;
mod gate;
mod genuine;
mod help;
pub mod laws;
mod matching;
mod notes;
mod refusal;
mod running;
mod sealing;
mod session;
mod turnstile;

pub use asking::{Asking, Name};
pub use batch::{MAX_REQUESTS, MAX_WORKERS};
pub use crew::Crew;
pub use engine::Engine;
pub use gate::{Gate, NoGate};
pub use matching::matches;
pub use refusal::Refusal;
pub use session::{Did, Session};
pub use tl_procedures::Request;
pub use tl_ready::{MAX_READY, Ready, ReadyPass};
