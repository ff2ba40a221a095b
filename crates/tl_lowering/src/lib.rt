//! The rules of the procedure language: from a text to the core forms of its procedures, or to the first fault of the text.
#![tactic(auto)]

mod atomic;
mod choosing;
mod descents;
mod failing;
mod handling;
pub mod laws;
mod loops;
mod lowering;
mod naming;
mod parts;
mod paths;
mod program;
mod reader;
mod readers;
mod scope;
mod search;
mod sequences;
mod values;
mod walks;

pub use program::{Condition, Expression, Place, Procedure, Program, Statement};
pub use reader::read;
