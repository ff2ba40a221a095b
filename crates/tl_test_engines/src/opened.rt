// Engines that a test opens and concludes with the calls that it tests.

use crate::engine::{ask_alone, register_all};
use std::alloc::Global;
use std::sync::Wait;
use std::test::Fail;
use tl_workers::{Engine, Session};

/// Lends the engine that `begin` makes, with procedures and a session, to `body`. Then it hands the engine and the session to
/// `end`.
pub fn end_opened<R, U, B, F, E>(
    rt: &R,
    alloc: Global,
    begin: B,
    procedures: &[(&str, &str)],
    body: F,
    end: E,
) -> Result<U, Fail>
where
    R: Wait,
    B: FnOnce() -> Result<Engine, Fail>,
    F: FnOnce(&Engine, &mut Session) -> Result<(), Fail>,
    E: FnOnce(Engine, Vec<Session>) -> U,
    requires begin { B.IsAlwaysCallable begin }
    requires body { F.IsAlwaysCallable body }
    requires end { E.IsAlwaysCallable end }
{
    let engine = begin()?;
    match ask(rt, alloc, &engine, procedures, body) {
        Ok(sessions) => Ok(end(engine, sessions)),
        Err(fail) => Err(fail),
    }
}

// Registers the procedures, and lends the engine to `body` with a session, which it answers.
fn ask<F>(
    rt: &impl Wait,
    alloc: Global,
    engine: &Engine,
    procedures: &[(&str, &str)],
    body: F,
) -> Result<Vec<Session>, Fail>
where
    F: FnOnce(&Engine, &mut Session) -> Result<(), Fail>,
    requires { F.IsAlwaysCallable body }
{
    register_all(rt, alloc, engine, procedures)?;
    let (sessions, ()) = ask_alone(rt, alloc, engine, body)?;
    Ok(sessions)
}
