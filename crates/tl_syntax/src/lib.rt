//! The grammar of the procedure language: from a text to its declarations as they are written, or to the first token that is wrong.
#![tactic(auto)]

mod actions;
mod declarations;
mod expressions;
mod failure;
mod fault;
pub mod laws;
mod lexer;
mod loops;
mod operator;
pub mod parsed;
mod parser;
mod position;
mod statements;
mod syntax;
mod token;
mod words;

pub use failure::Failure;
pub use fault::{SyntaxFault, Wrong};
pub use operator::Operator;
pub use position::Position;
pub use syntax::{Syntax, parse};
pub use token::Symbol;
