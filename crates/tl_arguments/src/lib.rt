//! The command line of the program `treedb`: what its words ask for.
#![tactic(auto)]

mod arguments;
mod asking;
mod command_line;
mod help;
mod rows;
mod serving;
mod store_files;

pub use command_line::{
    Asked, CallCommand, FileCommand, LastingOptions, Outputs, Request, Ruling, ScriptFiles,
    Sealing, ServeOptions, parse, status,
};
pub use store_files::StoreFiles;
