// Engines, and the sessions with which they are closed.

ghost use Rattle.std.specs.Prelude.{◌≤◌};
ghost use Rattle.tl_history.specs.declared.history.TheConstants.{MAX_EVENTS};

use crate::ended::Ended;
use std::alloc::Global;
use std::sync::Wait;
use std::test::Fail;
use std::thread;
use std::thread::Threads;
use tl_core::Core;
use tl_table::MAX_SESSIONS;
use tl_test_data::{procedure_of, tree_of};
use tl_workers::{Engine, Session};

// An engine on the tree of a text, with procedures.
pub(crate) fn engine_of(
    rt: &impl Wait,
    alloc: Global,
    tree: &str,
    procedures: &[(&str, &str)],
) -> Result<Engine, Fail> {
    let engine = Engine::new(alloc, tree_of(alloc, tree)?)?;
    register_all(rt, alloc, &engine, procedures)?;
    Ok(engine)
}

// An engine that seals its epochs by itself, on the tree of a text, with procedures. The history of an epoch has at most `events`
// events.
fn sealing_engine_of(
    rt: &impl Wait,
    alloc: Global,
    tree: &str,
    procedures: &[(&str, &str)],
    events: usize,
) -> Result<Engine, Fail>
    requires { events ≤ MAX_EVENTS }
{
    let core = Core::with_limit(alloc, tree_of(alloc, tree)?, events)?;
    let engine = Engine::of_core(alloc, core)?.that_seals();
    register_all(rt, alloc, &engine, procedures)?;
    Ok(engine)
}

pub(crate) fn register_all(
    rt: &impl Wait,
    alloc: Global,
    engine: &Engine,
    procedures: &[(&str, &str)],
) -> Result<(), Fail> {
    for (name, text) in procedures {
        engine.register(rt, alloc, name, procedure_of(alloc, text)?)?;
    }
    Ok(())
}

// `count` new sessions of the engine.
fn sessions_of(
    rt: &impl Wait,
    alloc: Global,
    engine: &Engine,
    count: usize,
) -> Result<Vec<Session>, Fail> {
    let mut sessions = Vec::new(alloc);
    for _ in 0..count {
        sessions.push(engine.session(rt, alloc)?)?;
    }
    Ok(sessions)
}

// This session alone.
pub(crate) fn alone(alloc: Global, session: Session) -> Result<Vec<Session>, Fail> {
    let mut sessions = Vec::new(alloc);
    sessions.push(session)?;
    Ok(sessions)
}

// Lends a new session of the engine to `body`, and answers it with the answer of `body`.
pub(crate) fn ask_alone<T, F>(
    rt: &impl Wait,
    alloc: Global,
    engine: &Engine,
    body: F,
) -> Result<(Vec<Session>, T), Fail>
where
    T: Drop,
    F: FnOnce(&Engine, &mut Session) -> Result<T, Fail>,
    requires { F.IsAlwaysCallable body }
{
    let mut session = engine.session(rt, alloc)?;
    let answer = body(engine, &mut session)?;
    Ok((alone(alloc, session)?, answer))
}

// The same with so many sessions.
fn ask_all<T, F>(
    rt: &impl Wait,
    alloc: Global,
    engine: &Engine,
    count: usize,
    body: F,
) -> Result<(Vec<Session>, T), Fail>
where
    T: Drop,
    F: FnOnce(&Engine, &mut [Session]) -> Result<T, Fail>,
    requires { F.IsAlwaysCallable body }
{
    let mut sessions = sessions_of(rt, alloc, engine, count)?;
    let answer = body(engine, sessions.as_mut_slice())?;
    Ok((sessions, answer))
}

// Lends the session to `body`, and gives it back.
fn lent<A, F: FnOnce(&Engine, &mut Session) -> A>(
    engine: &Engine,
    session: Session,
    body: F,
) -> (Session, A)
    requires { F.IsAlwaysCallable body }
{
    let mut session = session;
    let answer = body(engine, &mut session);
    (session, answer)
}

// The same with two sessions, each on a thread of its own.
fn ask_both<R, A, B, F, G>(
    rt: &R,
    alloc: Global,
    engine: &Engine,
    one: F,
    other: G,
) -> Result<(Vec<Session>, (A, B)), Fail>
where
    R: Threads + Wait + Sync,
    A: Drop + Send,
    B: Drop,
    F: FnOnce(&Engine, &mut Session) -> A + Send,
    G: FnOnce(&Engine, &mut Session) -> B,
    requires one { F.IsAlwaysCallable one }
    requires other { G.IsAlwaysCallable other }
{
    let first = engine.session(rt, alloc)?;
    let second = engine.session(rt, alloc)?;
    let mut sessions = Vec::new(alloc);
    let ((first, answer), (second, other_answer)) = thread::join(
        rt,
        || lent(engine, first, one),
        || lent(engine, second, other),
    );
    sessions.push(first)?;
    sessions.push(second)?;
    Ok((sessions, (answer, other_answer)))
}

// Lends the engine to `ask`, closes it with the sessions that `ask` answers, and lends its results to `judge`. Here and where its
// results are judged, an engine has one way out: each is another place to prove.
fn with<T, U, F, G>(alloc: Global, engine: Engine, ask: F, judge: G) -> Result<U, Fail>
where
    T: Drop,
    F: FnOnce(&Engine) -> Result<(Vec<Session>, T), Fail>,
    G: FnOnce(T, &Ended) -> Result<U, Fail>,
    requires ask { F.IsAlwaysCallable ask }
    requires judge { G.IsAlwaysCallable judge }
{
    match ask(&engine) {
        Ok((sessions, answer)) => judged(alloc, engine, sessions, answer, judge),
        Err(fail) => Err(fail),
    }
}

fn judged<T, U, G>(
    alloc: Global,
    engine: Engine,
    sessions: Vec<Session>,
    answer: T,
    judge: G,
) -> Result<U, Fail>
where
    T: Drop,
    G: FnOnce(T, &Ended) -> Result<U, Fail>,
    requires { G.IsAlwaysCallable judge }
{
    match closed(alloc, engine, sessions) {
        Ok(ended) => judge(answer, &ended),
        Err(fail) => Err(fail),
    }
}

// The results of the engine, once it is closed with these sessions.
fn closed(alloc: Global, engine: Engine, sessions: Vec<Session>) -> Result<Ended, Fail> {
    match engine.close(sessions) {
        Ok((chain, sessions)) => Ended::of(alloc, chain, sessions),
        Err(_) => Err("not closed".into()),
    }
}

/// Lends an engine on the tree of a text, with procedures, and `sessions` sessions to `body`. Then it closes the engine with these
/// sessions, and lends its results to `judge`, with the answer of `body`. It is an `Err` if the engine doesn't close, or if an
/// audit of what its calls have done isn't clean.
pub fn with_engine<R, T, U, F, G>(
    rt: &R,
    alloc: Global,
    tree: &str,
    procedures: &[(&str, &str)],
    sessions: usize,
    body: F,
    judge: G,
) -> Result<U, Fail>
where
    R: Wait,
    T: Drop,
    F: FnOnce(&Engine, &mut [Session]) -> Result<T, Fail>,
    G: FnOnce(T, &Ended) -> Result<U, Fail>,
    requires body { F.IsAlwaysCallable body }
    requires judge { G.IsAlwaysCallable judge }
{
    let engine = engine_of(rt, alloc, tree, procedures)?;
    with(
        alloc,
        engine,
        |engine| ask_all(rt, alloc, engine, sessions, body),
        judge,
    )
}

/// The same with an engine that seals its epochs by itself. The history of an epoch has at most `events` events.
pub fn with_engine_that_seals<R, T, U, F, G>(
    rt: &R,
    alloc: Global,
    tree: &str,
    procedures: &[(&str, &str)],
    events: usize,
    sessions: usize,
    body: F,
    judge: G,
) -> Result<U, Fail>
where
    R: Wait,
    T: Drop,
    F: FnOnce(&Engine, &mut [Session]) -> Result<T, Fail>,
    G: FnOnce(T, &Ended) -> Result<U, Fail>,
    requires events { events ≤ MAX_EVENTS }
    requires body { F.IsAlwaysCallable body }
    requires judge { G.IsAlwaysCallable judge }
{
    let engine = sealing_engine_of(rt, alloc, tree, procedures, events)?;
    with(
        alloc,
        engine,
        |engine| ask_all(rt, alloc, engine, sessions, body),
        judge,
    )
}

/// Lends an engine on the tree of a text, with procedures, and one session to `body`. Then it closes the engine with this session,
/// and lends its results to `judge`, as `with_engine` does.
pub fn with_one_session<R, T, U, F, G>(
    rt: &R,
    alloc: Global,
    tree: &str,
    procedures: &[(&str, &str)],
    body: F,
    judge: G,
) -> Result<U, Fail>
where
    R: Wait,
    T: Drop,
    F: FnOnce(&Engine, &mut Session) -> Result<T, Fail>,
    G: FnOnce(T, &Ended) -> Result<U, Fail>,
    requires body { F.IsAlwaysCallable body }
    requires judge { G.IsAlwaysCallable judge }
{
    let engine = engine_of(rt, alloc, tree, procedures)?;
    with(
        alloc,
        engine,
        |engine| ask_alone(rt, alloc, engine, body),
        judge,
    )
}

/// Lends an engine on the tree of a text, with procedures, to `one` and to `other`, each on a thread of its own with a session of
/// its own. Then it closes the engine with both sessions, and lends its results to `judge`, as `with_engine` does.
pub fn with_engine_on_threads<R, A, B, U, F, G, H>(
    rt: &R,
    alloc: Global,
    tree: &str,
    procedures: &[(&str, &str)],
    one: F,
    other: G,
    judge: H,
) -> Result<U, Fail>
where
    R: Threads + Wait + Sync,
    A: Drop + Send,
    B: Drop,
    F: FnOnce(&Engine, &mut Session) -> A + Send,
    G: FnOnce(&Engine, &mut Session) -> B,
    H: FnOnce(A, B, &Ended) -> Result<U, Fail>,
    requires one { F.IsAlwaysCallable one }
    requires other { G.IsAlwaysCallable other }
    requires judge { H.IsAlwaysCallable judge }
{
    let engine = engine_of(rt, alloc, tree, procedures)?;
    match ask_both(rt, alloc, &engine, one, other) {
        Ok((sessions, (answer, other_answer))) => match closed(alloc, engine, sessions) {
            Ok(ended) => judge(answer, other_answer, &ended),
            Err(fail) => Err(fail),
        },
        Err(fail) => Err(fail),
    }
}

/// Lends an engine on the tree of a text, with procedures, to `body`, which returns all sessions that it had. Then it closes the
/// engine with these sessions, and lends its results to `judge`, as `with_engine` does.
pub fn with_callers<R, U, F, G>(
    rt: &R,
    alloc: Global,
    tree: &str,
    procedures: &[(&str, &str)],
    body: F,
    judge: G,
) -> Result<U, Fail>
where
    R: Wait,
    F: FnOnce(&Engine) -> Result<Vec<Session>, Fail>,
    G: FnOnce(&Ended) -> Result<U, Fail>,
    requires body { F.IsAlwaysCallable body }
    requires judge { G.IsAlwaysCallable judge }
{
    let engine = engine_of(rt, alloc, tree, procedures)?;
    with(
        alloc,
        engine,
        |engine| Ok((body(engine)?, ())),
        |(), ended| judge(ended),
    )
}

/// Makes all the sessions that the engine may still give, and drops them.
pub fn use_up_sessions(rt: &impl Wait, alloc: Global, engine: &Engine) {
    for _ in 0..MAX_SESSIONS {
        if engine.session(rt, alloc).is_err() {
            return;
        }
    }
}
