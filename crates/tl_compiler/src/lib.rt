//! The compiler: from the text of procedures to codes that the verifier accepts.
//!
//! Each construct is translated by itself, without an optimiser. Code is written from its end to its start. All jumps go
//! forward, so each label is known when a jump to it is written.
#![tactic(auto)]

mod aiming;
mod compiler;
mod context;
mod costs;
mod draft;
mod fault;
mod node_set;
mod outcomes;
mod places;
mod statements;
mod values;

pub use compiler::{Compiled, compile, one_of};
pub use fault::{CompileFault, Excess};
pub use tl_syntax::{Position, Wrong};
