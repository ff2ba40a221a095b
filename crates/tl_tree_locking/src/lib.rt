//! The tree protocol: what calls do, what a history of many calls is, and what holds for it.
//!
//! The crate has the plain data that the layers above share, `Action` and `Event`, and the theory of the protocol. Its
//! definitions are in `specs/`: one call's actions and the rules that they obey, histories of many calls, the order that a
//! history gives, what a call does alone on a tree, and worlds in which many calls go on together. `laws` states the
//! theorems, each as the contract of a function with an empty body. Nothing here knows an instruction, or how many fields a
//! record has.
#![tactic(auto)]

mod action;
mod event;
pub mod laws;

pub use action::Action;
pub use event::Event;
