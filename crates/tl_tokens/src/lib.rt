//! JSON values out of the tokens of a text.
//!
//! `serde_json` makes and clears 16 kilobytes for each text that it reads. Here the caller lends them, so that whoever reads many texts
//! makes them once.
#![tactic(auto)]

mod tokens;

pub use json::Scratch;
pub use tokens::{parse_with, value};
