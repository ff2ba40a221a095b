//! Makes each request that takes memory, one after another, and repeats it once if memory is refused.
//!
//! It prints a line for each answer that depends on what earlier requests have left. So a run to which memory is refused once, at
//! any place, prints the same as a run with ample memory, and its exit status is 0. The status is 4 if a request was refused twice,
//! 3 if standard output can't be written, and 1 if a refusal has changed something. `tests/test_refusals.py` runs it.
#![tactic(auto)]

mod engines;
mod halt;
mod judging;
mod making;
mod seen;
mod tables;
mod turns;

use halt::Halt;
use std::process::ExitCode;
use std::sync::Wait;
use std::thread::Threads;

fn run<R: Print + AllocGlobal + Threads + Wait + Sync>(rt: &R) -> Result<(), Halt> {
    rt.println("a core")?;
    turns::run(rt, rt.alloc())?;
    rt.println("a table")?;
    tables::run(rt, rt.alloc())?;
    rt.println("an engine")?;
    engines::run(rt, rt.alloc())?;
    rt.println("all is done")?;
    Ok(())
}

fn main(rt: HostRuntime) -> ExitCode {
    match run(&rt) {
        Ok(()) => ExitCode::SUCCESS,
        Err(halt) => ExitCode::from(halt.status()),
    }
}
