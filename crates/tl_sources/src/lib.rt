//! Procedures as people give them: from the bytes of a file to procedures that the verifier has accepted.
#![tactic(auto)]

mod fault;
mod given;
mod source;

pub use fault::{RefusedFile, SourceFault};
pub use given::{Given, all_given};
pub use source::{Source, procedure_of, procedures_of};
