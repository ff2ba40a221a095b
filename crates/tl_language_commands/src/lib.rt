//! The commands of the program `treedb` on texts of the procedure language, as functions from the bytes of a file to the bytes to
//! print.
//!
//! A command returns what is to be printed and, if it writes a file, what is to be written there. Or it returns its first
//! fault. Reading and writing the files is left to the program.
#![tactic(auto)]

mod compiling;
mod fault;

pub use compiling::{check_procs_cmd, compile_cmd, procs_cmd};
pub use fault::LanguageFault;
