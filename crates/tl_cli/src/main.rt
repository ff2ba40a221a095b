//! The program `treedb`.
#![tactic(auto)]

mod archive;
mod explain;
mod failure;
mod output;
mod program;
mod progress;
mod refused;
mod seams;
mod store_files;
mod texts;
mod trail_file;
mod tree_after;

use archive::{Archive, Finish, Trails};
use clap::Error;
use program::Program;
use std::io::{ErrorKind, IsTerminal};
use std::net::{Net, TcpListener, TcpStream};
use std::process::ExitCode;
use std::rt::Files;
use std::sync::Wait;
use std::thread::Threads;
use std::time::Clock;
use tl_arguments::Asked;
pub use tl_commands::{
    CliFault, Generation, Inputs, alone_cmd, asm_cmd, audit_cmd, audit_next_cmd, check_cmd,
    close_generation, dis_cmd, drive_cmd, end_generation, explain_audit_fault, generations_lines,
    keep_generation, migrate_cmd, next_engine, open_engine, open_generations, run_cmd,
    take_generation, tree_file, tree_of_file, verify_cmd, widen_cmd,
};
use tl_file_export::{Epochs, open_epochs};
use tl_file_journal::{End, StoreOptions, StoreRefusal, Stored, open_stored};
use tl_generations::Succession;
pub use tl_language_commands::{LanguageFault, check_procs_cmd, compile_cmd, procs_cmd};
use tl_server::{Keeper, Storage, Texts};
use tl_store_file::FileFault;
use tl_tree::Tree;

/// The exit status if memory is refused before a command is known. Nothing is printed then.
const NO_MEMORY: u8 = 4;

/// The exit status of a mistake on the command line.
const MISTAKE: u8 = 2;

// The words of the command line, the program's name first. Otherwise the exit status.
fn words(rt: &HostRuntime) -> Result<Vec<String>, u8> {
    match std::env::args(rt) {
        Ok(words) => words.collect(rt.alloc()).map_err(|_| NO_MEMORY),
        Err(error) if error.kind() == ErrorKind::OutOfMemory => Err(NO_MEMORY),
        Err(_) => {
            let _shown = eprintln!(rt; "treedb: a word of the command line is not UTF-8");
            Err(MISTAKE)
        }
    }
}

// Prints what the command line itself answers, help or a mistake, and returns the exit status.
fn tell<R: Print + Eprint>(rt: &R, error: &Error) -> u8 {
    let status = tl_arguments::status(error);
    if status == NO_MEMORY {
        return status;
    }
    let printed = error.print(rt);
    if error.use_stderr() {
        return status;
    }
    output::status_after(rt, printed, status)
}

// Does what the words of the command line ask for, and returns the exit status.
fn answer<R, K, F, J, O, E, X>(
    rt: &R,
    words: &[String],
    is_terminal: bool,
    archive: F,
    opens: O,
    epochs: X,
) -> u8
where
    R: Files
        + Print
        + Eprint
        + AllocGlobal
        + Net<Listener = TcpListener, Stream = TcpStream>
        + Threads
        + Wait
        + Clock
        + Clone
        + Drop
        + Sync,
    K: Keeper + Texts + Finish + Send + Drop,
    F: FnOnce(Trails, Succession, u32) -> K + Drop,
    J: Storage + End + Sync + Drop,
    O: FnOnce(StoreOptions<'_>, Option<Tree>) -> Result<Stored<J>, StoreRefusal> + Drop,
    E: Epochs + Drop,
    X: Fn(&str) -> Result<E, FileFault> + Drop,
    requires archive { F.IsAlwaysCallable archive }
    requires opens { O.IsAlwaysCallable opens }
    requires epochs { X.IsAlwaysCallable epochs }
{
    match tl_arguments::parse(rt.alloc(), words) {
        Ok(Asked::Request { request, nodes }) => {
            Program::new(rt, is_terminal, nodes).execute(&request, archive, opens, epochs)
        }
        Ok(Asked::Explanation { number }) => explain::explain(rt, number),
        Ok(Asked::Told(error)) => tell(rt, &error),
        Ok(Asked::Mistaken(reason)) => {
            let _shown = eprintln!(rt;
                "error: {reason}\n\nFor more information, try 'treedb --help'."
            );
            MISTAKE
        }
        Err(_) => NO_MEMORY,
    }
}

fn main(rt: HostRuntime) -> ExitCode {
    let status = match words(&rt) {
        Ok(words) => answer(
            &rt,
            &words,
            rt.stderr().is_terminal(),
            |trails, succession, nodes| Archive::new(rt, trails, succession, nodes),
            |options, tree| open_stored(&rt, options, tree),
            |path| open_epochs(&rt, path),
        ),
        Err(status) => status,
    };
    ExitCode::from(status)
}
