// Calls of an engine's sessions, one at a time and many at once, and a seal.

ghost use Rattle.tl_table.specs.Tables.{IsChain};

use crate::halt::Halt;
use crate::judging::{judge_all, print_order, print_records};
use crate::making::{procedure_of, tree_of};
use crate::seen::Seen;
use std::alloc::{AllocError, Global};
use std::sync::Wait;
use std::thread::Threads;
use tl_table::{Closed, Receipt};
use tl_test_data::{ADD, LOOK, ONE_NODE, STORE};
use tl_workers::{Engine, MAX_REQUESTS, NoGate, Refusal, Request, Session};

/// The procedures.
const PROCEDURES: [(&str, &str); 3] = [("add", ADD), ("look", LOOK), ("store", STORE)];

/// How many calls are asked for one at a time.
const CALLS: u32 = 20;

/// How many calls are asked for at once: more than may be open. All are the same call, so it doesn't matter which of them is asked
/// for again.
const REQUESTS: usize = 70;

/// The result of each request of a batch.
type Answers = Vec<Result<Receipt, Refusal>>;

/// Runs calls of an engine, and prints each result.
pub fn run<R: Print + Threads + Wait + Sync>(rt: &R, alloc: Global) -> Result<(), Halt> {
    let sessions = room_for_one(alloc)?;
    let engine = new_engine(alloc)?;
    let session = run_on(rt, alloc, &engine)?;
    close(rt, alloc, engine, sessions, session)
}

fn room_for_one(alloc: Global) -> Result<Vec<Session>, Halt> {
    if let Ok(room) = Vec::with_capacity(alloc, 1) {
        return Ok(room);
    }
    Vec::with_capacity(alloc, 1).map_err(|_| Halt::Refused)
}

fn new_engine(alloc: Global) -> Result<Engine, Halt> {
    if let Ok(engine) = engine_at_once(alloc) {
        return Ok(engine);
    }
    engine_at_once(alloc)
}

fn engine_at_once(alloc: Global) -> Result<Engine, Halt> {
    let tree = tree_of(alloc, ONE_NODE)?;
    Engine::new(alloc, tree).map_err(|_| Halt::Refused)
}

fn run_on<R: Print + Threads + Wait + Sync>(
    rt: &R,
    alloc: Global,
    engine: &Engine,
) -> Result<Session, Halt> {
    for (name, text) in PROCEDURES {
        let number = register(rt, alloc, engine, name, text)?;
        println!(rt; "{name}: {number}")?;
    }
    let mut session = new_session(rt, alloc, engine)?;
    use_session(rt, alloc, engine, &mut session)?;
    Ok(session)
}

fn register(
    rt: &impl Wait,
    alloc: Global,
    engine: &Engine,
    name: &str,
    text: &str,
) -> Result<u32, Halt> {
    let procedure = procedure_of(alloc, text)?;
    if let Ok(number) = engine.register(rt, alloc, name, procedure) {
        return Ok(number);
    }
    let procedure = procedure_of(alloc, text)?;
    engine
        .register(rt, alloc, name, procedure)
        .map_err(|_| Halt::Refused)
}

fn new_session(rt: &impl Wait, alloc: Global, engine: &Engine) -> Result<Session, Halt> {
    if let Ok(session) = engine.session(rt, alloc) {
        return Ok(session);
    }
    engine.session(rt, alloc).map_err(|_| Halt::Refused)
}

fn use_session<R: Print + Threads + Wait + Sync>(
    rt: &R,
    alloc: Global,
    engine: &Engine,
    session: &mut Session,
) -> Result<(), Halt> {
    let number = session.number();
    println!(rt; "session {number}")?;
    for value in 0..CALLS {
        let receipt = call(rt, alloc, engine, session, &[0, i64::from(value)])?;
        print_receipt(rt, &receipt)?;
    }
    let requests = requests(alloc)?;
    run_batch(rt, alloc, engine, session, &requests)?;
    let sealed = seal(rt, alloc, engine)?;
    println!(rt; "sealed {sealed}")?;
    let receipt = call(rt, alloc, engine, session, &[0, 1])?;
    print_receipt(rt, &receipt)?;
    let kept = session.len();
    println!(rt; "kept {kept}")?;
    Ok(())
}

fn print_receipt(rt: &impl Print, receipt: &Receipt) -> Result<(), Halt> {
    let (epoch, call) = (receipt.epoch, receipt.call);
    let args = receipt.args.as_slice();
    let reply = receipt.reply.as_slice();
    println!(rt; "epoch {epoch}, call {call} {args:?} replies {reply:?}")?;
    Ok(())
}

// If memory is refused, the engine is asked again.
fn seal(rt: &impl Wait, alloc: Global, engine: &Engine) -> Result<u32, Halt> {
    if let Ok(sealed) = engine.seal(rt, alloc) {
        return Ok(sealed);
    }
    engine.seal(rt, alloc).map_err(|_| Halt::Refused)
}

// ---- one call

// If memory is refused, the session has kept nothing, and the engine is asked again.
fn call(
    rt: &impl Wait,
    alloc: Global,
    engine: &Engine,
    session: &mut Session,
    args: &[i64],
) -> Result<Receipt, Halt> {
    let before = session.len();
    if let Ok(receipt) = engine.call(rt, alloc, session, "add", args, &NoGate) {
        return Ok(receipt);
    }
    if session.len() != before {
        return Err(Halt::Changed);
    }
    engine
        .call(rt, alloc, session, "add", args, &NoGate)
        .map_err(|_| Halt::Refused)
}

// ---- many at once

fn requests(alloc: Global) -> Result<Vec<Request>, Halt> {
    if let Ok(requests) = requests_at_once(alloc) {
        return Ok(requests);
    }
    requests_at_once(alloc).map_err(|_| Halt::Refused)
}

fn requests_at_once(alloc: Global) -> Result<Vec<Request>, AllocError> {
    let mut requests = Vec::with_capacity(alloc, REQUESTS)?;
    for _ in 0..REQUESTS {
        let name = String::from_str(alloc, "add")?;
        let args = Vec::from_slice(alloc, &[0, 1])?;
        requests.push(Request { name, args })?;
    }
    Ok(requests)
}

// If memory is refused to the batch, the session has kept nothing, and the engine is asked again. If it is refused to a call of the
// batch, only that call is asked for again.
fn run_batch<R: Print + Threads + Wait + Sync>(
    rt: &R,
    alloc: Global,
    engine: &Engine,
    session: &mut Session,
    requests: &[Request],
) -> Result<(), Halt> {
    let answers = batch_twice(rt, alloc, engine, session, requests)?;
    let refused = print_answers(rt, &answers)?;
    if refused == 0 {
        return Ok(());
    }
    let Some(again) = requests.get(..refused) else {
        return Err(Halt::Changed);
    };
    let answers = batch(rt, alloc, engine, session, again)?;
    if print_answers(rt, &answers)? != 0 {
        return Err(Halt::Refused);
    }
    Ok(())
}

fn batch_twice<R: Threads + Wait + Sync>(
    rt: &R,
    alloc: Global,
    engine: &Engine,
    session: &mut Session,
    requests: &[Request],
) -> Result<Answers, Halt> {
    let before = session.len();
    if let Ok(answers) = batch(rt, alloc, engine, session, requests) {
        return Ok(answers);
    }
    if session.len() != before {
        return Err(Halt::Changed);
    }
    batch(rt, alloc, engine, session, requests)
}

// A batch of one worker: with more threads, the order of allocations would vary.
fn batch<R: Threads + Wait + Sync>(
    rt: &R,
    alloc: Global,
    engine: &Engine,
    session: &mut Session,
    requests: &[Request],
) -> Result<Answers, Halt> {
    let count = requests.len();
    if count == 0 || count > MAX_REQUESTS {
        return Err(Halt::Changed);
    }
    engine
        .batch(rt, alloc, session, requests, 1, &NoGate)
        .map_err(|_| Halt::Refused)
}

// Prints the receipts, and returns how many requests were refused.
fn print_answers(rt: &impl Print, answers: &[Result<Receipt, Refusal>]) -> Result<usize, Halt> {
    let mut refused = 0usize;
    for answer in answers {
        match answer {
            Ok(receipt) => print_receipt(rt, receipt)?,
            Err(_) => refused = refused.saturating_add(1),
        }
    }
    Ok(refused)
}

// ---- the end

fn close(
    rt: &impl Print,
    alloc: Global,
    engine: Engine,
    sessions: Vec<Session>,
    session: Session,
) -> Result<(), Halt> {
    let mut sessions = sessions;
    if sessions.push(session).is_err() {
        return Err(Halt::Refused);
    }
    match engine.close(sessions) {
        Ok((chain, _)) => tell(rt, alloc, &chain),
        Err(_) => Err(Halt::Changed),
    }
}

fn tell(rt: &impl Print, alloc: Global, chain: &[Closed]) -> Result<(), Halt>
    requires { IsChain chain.now }
{
    for closed in chain {
        Seen::of(closed.core()).print(rt)?;
        print_order(rt, "closed", closed.order().calls())?;
        print_records(rt, closed.core().tree().records())?;
    }
    judge_all(rt, alloc, chain)
}
