//! Times batches of calls that engines run on threads. `bench/run` starts it in turn with a twin's version of the same work.
//!
//! `tl_bench_threads CONTAINER WORKERS NODES CHAIN ENGINES` makes ENGINES engines, one after another, each on a tree of NODES nodes
//! in chains of CHAIN nodes below the root. Each engine runs 4,096 calls of the container's procedure in batches on WORKERS
//! workers. Each call's argument is the first node of a chain; the chains take turns. It prints how many nanoseconds the batches
//! took, how many calls were done, and a number that depends on all results. With 0 workers there is no engine: this thread drives
//! a core with its order, one call after another. Without arguments it prints its usage.
#![tactic(auto)]

mod asked;
mod engines;
mod measured;
mod one_thread;
mod trees;

use asked::Asked;
use std::io;
use std::process::ExitCode;

const USAGE: &str = "usage: tl_bench_threads CONTAINER WORKERS NODES CHAIN ENGINES";

// The command line's arguments, after the program's name.
fn words(rt: &HostRuntime) -> Option<Vec<String>> {
    std::env::args(rt).ok()?.skip(1).collect(rt.alloc()).ok()
}

fn main(rt: HostRuntime) -> io::Result<ExitCode> {
    let Some(words) = words(&rt) else {
        return Ok(ExitCode::FAILURE);
    };
    let Some(asked) = Asked::new(&words) else {
        println!(rt; "{USAGE}")?;
        return Ok(ExitCode::SUCCESS);
    };
    let container = std::fs::read(&rt, asked.container)?;
    let measured = if asked.workers == 0 {
        one_thread::measure(&rt, rt.alloc(), &container, &asked)
    } else {
        engines::measure(&rt, rt.alloc(), &container, &asked)
    };
    match measured {
        Some(measured) => {
            println!(rt; "{} {} {}", measured.nanos, measured.calls, measured.sum)?;
            Ok(ExitCode::SUCCESS)
        }
        None => Ok(ExitCode::FAILURE),
    }
}
