//! The commands of the program `treedb`, as functions over the bytes of files.
//!
//! A command that runs calls returns what they came to, as a value; what is printed and what is written to files, the lines, the
//! tree and the trails, is made of that value. The others return what is to be printed and, if they write a file, what is to be
//! written there. Or a command returns its first fault. Reading and writing the files is left to the program.
#![tactic(auto)]

mod alone;
mod answers;
mod auditing;
mod checking;
mod closing;
mod driving;
mod explaining;
mod fault;
mod generations;
mod inputs;
mod outputs;
mod procedures;
mod running;
mod script;
mod serving;
mod sink;
mod trace;
mod widening;

pub use alone::{RanAlone, alone_cmd};
pub use auditing::{AuditedFile, audit_cmd, audit_next_cmd};
pub use checking::check_cmd;
pub use driving::{Driven, drive_cmd};
pub use explaining::explain_audit_fault;
pub use fault::CliFault;
pub use generations::{
    Generation, close_generation, end_generation, generations_lines, keep_generation, next_engine,
    open_generations, take_generation,
};
pub use inputs::{Inputs, tree_of_file};
pub use outputs::tree_file;
pub use procedures::{asm_cmd, dis_cmd, migrate_cmd, verify_cmd};
pub use running::{Ran, run_cmd};
pub use script::{RunScript, Script, read_calls, read_moves};
pub use serving::open_engine;
pub use sink::TrailSink;
pub use widening::widen_cmd;
