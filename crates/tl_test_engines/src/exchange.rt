// Engines that are closed with sessions of another engine.

use crate::engine::{alone, engine_of};
use std::alloc::Global;
use std::sync::Wait;
use std::test::Fail;
use tl_table::{Closed, Table};
use tl_workers::{Engine, Session};

// Lends both engines to `body`, each with a session. Answers the session of the second, and then that of the first.
fn ask<F>(
    rt: &impl Wait,
    alloc: Global,
    one: &Engine,
    other: &Engine,
    body: F,
) -> Result<(Vec<Session>, Vec<Session>), Fail>
where
    F: FnOnce(&Engine, &mut Session, &Engine, &mut Session) -> Result<(), Fail>,
    requires { F.IsAlwaysCallable body }
{
    let mut of_one = one.session(rt, alloc)?;
    let mut of_other = other.session(rt, alloc)?;
    body(one, &mut of_one, other, &mut of_other)?;
    Ok((alone(alloc, of_other)?, alone(alloc, of_one)?))
}

// What closing an engine comes to.
type Outcome = Result<(Vec<Closed>, Vec<Session>), (Table, Vec<Session>)>;

// Lends the tables of two engines that didn't close to `judge`. An `Err` if one closed.
fn judge_tables<U, G>(one: Outcome, other: Outcome, judge: G) -> Result<U, Fail>
where
    G: FnOnce(&Table, &Table) -> Result<U, Fail>,
    requires { G.IsAlwaysCallable judge }
{
    match (one, other) {
        (Err((one, _)), Err((other, _))) => judge(&one, &other),
        _ => Err("closed with another engine's session".into()),
    }
}

/// Lends two engines on the tree of a text, each with procedures and a session, to `body`. Then it tries to close each engine with
/// the other one's session, and lends the tables that are handed back to `judge`. It is an `Err` if an engine closes.
pub fn with_exchanged_sessions<R, U, F, G>(
    rt: &R,
    alloc: Global,
    tree: &str,
    procedures: &[(&str, &str)],
    body: F,
    judge: G,
) -> Result<U, Fail>
where
    R: Wait,
    F: FnOnce(&Engine, &mut Session, &Engine, &mut Session) -> Result<(), Fail>,
    G: FnOnce(&Table, &Table) -> Result<U, Fail>,
    requires body { F.IsAlwaysCallable body }
    requires judge { G.IsAlwaysCallable judge }
{
    let one = engine_of(rt, alloc, tree, procedures)?;
    let other = engine_of(rt, alloc, tree, procedures)?;
    match ask(rt, alloc, &one, &other, body) {
        Ok((first, second)) => judge_tables(one.close(first), other.close(second), judge),
        Err(fail) => Err(fail),
    }
}

/// The same, but each engine is handed to `end`, with the session of the other engine.
pub fn end_exchanged<R, U, F, E>(
    rt: &R,
    alloc: Global,
    tree: &str,
    procedures: &[(&str, &str)],
    body: F,
    end: E,
) -> Result<(U, U), Fail>
where
    R: Wait,
    U: Drop,
    F: FnOnce(&Engine, &mut Session, &Engine, &mut Session) -> Result<(), Fail>,
    E: Fn(Engine, Vec<Session>) -> U,
    requires body { F.IsAlwaysCallable body }
    requires end { E.IsAlwaysCallable end }
{
    let one = engine_of(rt, alloc, tree, procedures)?;
    let other = engine_of(rt, alloc, tree, procedures)?;
    match ask(rt, alloc, &one, &other, body) {
        Ok((first, second)) => Ok((end(one, first), end(other, second))),
        Err(fail) => Err(fail),
    }
}
