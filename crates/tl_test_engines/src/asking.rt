// Batches that a test asks for.

use std::alloc::{AllocError, Global};
use std::sync::Wait;
use std::thread::Threads;
use tl_table::Receipt;
use tl_workers::{Engine, Gate, MAX_REQUESTS, MAX_WORKERS, Refusal, Request, Session};

/// The result of each request of a batch.
pub type Answers = Vec<Result<Receipt, Refusal>>;

/// How often a call is asked for, the name of its procedure, and its arguments.
pub type Asked<'a> = (usize, &'a str, &'a [i64]);

fn request(alloc: Global, name: &str, args: &[i64]) -> Result<Request, AllocError> {
    let name = String::from_str(alloc, name)?;
    let args = Vec::from_slice(alloc, args)?;
    Ok(Request { name, args })
}

fn requests(alloc: Global, asked: &[Asked<'_>]) -> Result<Vec<Request>, AllocError> {
    let mut requests = Vec::new(alloc);
    for (count, name, args) in asked {
        for _ in 0..*count {
            requests.push(request(alloc, name, args)?)?;
        }
    }
    Ok(requests)
}

/// Runs the requests as a batch of `session`. 990 also if there is no request or no worker, or if there are too many of either.
pub fn batch<R: Threads + Wait + Sync, G: Gate + Sync>(
    rt: &R,
    alloc: Global,
    engine: &Engine,
    session: &mut Session,
    asked: &[Asked<'_>],
    workers: usize,
    gate: &G,
) -> Result<Answers, Refusal> {
    let requests = requests(alloc, asked)?;
    let count = requests.len();
    if count == 0 || count > MAX_REQUESTS || workers == 0 || workers > MAX_WORKERS {
        return Err(Refusal::Memory);
    }
    engine.batch(rt, alloc, session, &requests, workers, gate)
}

/// How many requests of a batch were answered with a receipt.
pub fn done(answers: &[Result<Receipt, Refusal>]) -> i64 {
    let mut done: i64 = 0;
    for answer in answers {
        if answer.is_ok() {
            done = done.saturating_add(1);
        }
    }
    done
}
