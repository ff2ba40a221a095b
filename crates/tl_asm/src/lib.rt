//! The assembler: a procedure as text, and back.
#![tactic(auto)]

mod assembling;
mod draft;
mod fault;
mod listing;
mod reading;
mod resolving;
mod sketch;
mod statement;
mod token;
mod word;

pub use assembling::{assemble, instruction_lines, one_line, one_reading};
pub use fault::AsmFault;
pub use listing::disassemble;
pub use token::MAX_LABEL;
