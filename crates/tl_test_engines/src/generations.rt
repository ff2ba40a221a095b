// One engine after another.

ghost use Rattle.std.specs.Prelude.{IfOk};
ghost use Rattle.tl_table.specs.Tables.{IsChain};

use crate::ended::Ended;
use crate::engine::{alone, register_all};
use std::alloc::Global;
use std::sync::Wait;
use std::test::Fail;
use tl_core::Core;
use tl_generations::Succession;
use tl_table::Closed;
use tl_test_data::tree_of;
use tl_workers::{Engine, Session};

/// Whether a succession took a table, and whether it took it once more.
pub type Taken = (bool, bool);

// Lends a new session of the engine to `body`, and answers it alone.
fn ask<F: Fn(&Engine, &mut Session)>(
    rt: &impl Wait,
    alloc: Global,
    engine: &Engine,
    body: &F,
) -> Result<Vec<Session>, Fail>
    requires { F.IsAlwaysCallable body.now }
{
    let mut session = engine.session(rt, alloc)?;
    body(engine, &mut session);
    alone(alloc, session)
}

// Lends the engine and a session to `body`, and closes it.
fn generation<R: Wait, F: Fn(&Engine, &mut Session)>(
    rt: &R,
    alloc: Global,
    engine: Engine,
    body: &F,
) -> Result<(Vec<Closed>, Vec<Session>), Fail>
    requires { F.IsAlwaysCallable body.now }
    ensures { IfOk result (λ r. IsChain r.0.items) }
{
    match ask(rt, alloc, &engine, body) {
        Ok(sessions) => match engine.close(sessions) {
            Ok(closed) => Ok(closed),
            Err(_) => Err("not closed".into()),
        },
        Err(fail) => Err(fail),
    }
}

// Lends the engine to `body`, and offers its table to the succession, twice.
fn offered<R: Wait, F: Fn(&Engine, &mut Session)>(
    rt: &R,
    alloc: Global,
    succession: &mut Succession,
    engine: Engine,
    body: &F,
) -> Result<(Taken, Ended), Fail>
    requires { F.IsAlwaysCallable body.now }
{
    match generation(rt, alloc, engine, body) {
        Ok((chain, sessions)) => {
            let first = succession.take(alloc, &chain);
            let again = succession.take(alloc, &chain);
            let ended = Ended::of(alloc, chain, sessions)?;
            match (first, again) {
                (Ok(first), Ok(again)) => Ok(((first, again), ended)),
                _ => Err("no memory".into()),
            }
        }
        Err(fail) => Err(fail),
    }
}

/// Lends an engine on the tree of a text, with procedures, and a session to `body`, closes it, and does the same with an engine on what the
/// first one left. Then it lends the results of the second to `judge`, with what a succession took of the two.
pub fn with_two_generations<R, U, F, G>(
    rt: &R,
    alloc: Global,
    tree: &str,
    procedures: &[(&str, &str)],
    body: F,
    judge: G,
) -> Result<U, Fail>
where
    R: Wait,
    F: Fn(&Engine, &mut Session) + Drop,
    G: FnOnce(Taken, Taken, &Ended) -> Result<U, Fail>,
    requires body { F.IsAlwaysCallable body }
    requires judge { G.IsAlwaysCallable judge }
{
    let core = Core::new(alloc, tree_of(alloc, tree)?)?;
    let mut succession = Succession::new(alloc, &core)?;
    let engine = Engine::of_core(alloc, core)?;
    register_all(rt, alloc, &engine, procedures)?;
    let (first, _) = offered(rt, alloc, &mut succession, engine, &body)?;
    let engine = Engine::of_core(alloc, succession.last().open(alloc)?)?;
    let (second, ended) = offered(rt, alloc, &mut succession, engine, &body)?;
    judge(first, second, &ended)
}
