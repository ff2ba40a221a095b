// The command `serve`: what is done before connections are accepted, and after all have ended.

ghost use Rattle.std.specs.Prelude.{◌≡◌, [], vec_len, Ok, IfOk, IfErr, All};
ghost use Rattle.tl_tree.specs.Trees.{TreeValue};
ghost use Rattle.tl_tree.specs.Reading.{tree_of_text};
ghost use Rattle.tl_table.specs.Tables.{IsChain};
ghost use Rattle.tl_workers.specs.Matching.{Matches};
ghost use Rattle.tl_workers.specs.Sessions.{AreAllOf, AskForEachOnce, FindsItsWrites};
ghost use Rattle.tl_commands.specs.Closing.{sessions_given};
ghost use Rattle.tl_commands.specs.declared.fault.CliFault.TheVariants.{NotClosed};
ghost use Rattle.tl_commands.specs.Faults.{status_of};
ghost use Rattle.tl_commands.specs.Generations.{BeginsWithFile};
ghost use Rattle.tl_commands.specs.Scripted.{core_with};
ghost use Rattle.tl_commands.specs.Serve.{IsOpeningFault};

use crate::closing::sessions_given;
use crate::fault::CliFault;
use crate::inputs::tree_of_file;
use std::alloc::Global;
use tl_core::Core;
use tl_generations::Succession;
use tl_table::Closed;
use tl_workers::{Engine, Session};

// A core of the tree of a file, without procedures and calls.
fn core_of_file(alloc: Global, tree: &[u8], limit: u32) -> Result<Core, CliFault>
    ensures ok { IfOk result (λ core. (t : TreeValue) × (tree_of_text limit tree.now ≡ Ok t) × (core.seen ≡ core_with t [])) }
    ensures fault { IfErr result (λ e. IsOpeningFault limit tree.now e) }
{
    let tree = tree_of_file(alloc, tree, limit).map_err(CliFault::Tree)?;
    Core::new(alloc, tree).map_err(CliFault::Core)
}

/// An engine for a core that has no calls yet. 690, 890 or 990 if memory was refused.
pub fn engine_of(alloc: Global, core: Core) -> Result<Engine, CliFault>
    requires { core.seen.calls ≡ [] }
    ensures fault { IfErr result (λ e. status_of e ≡ 4) }
{
    Ok(Engine::of_core(alloc, core)?)
}

/// An engine for calls on the tree of a file, without procedures; and the succession, which begins with that tree. Takes the bytes
/// of the file.
///
/// 106 (also if the tree isn't UTF-8), 101 to 105, where the tree may have `limit` nodes. If memory was refused, 190, 690, 890 or 990.
pub fn open_engine(alloc: Global, tree: &[u8], limit: u32) -> Result<(Engine, Succession), CliFault>
    ensures opened { IfOk result (λ r. BeginsWithFile limit tree.now r.1) }
    ensures fault { IfErr result (λ e. IsOpeningFault limit tree.now e) }
{
    let core = core_of_file(alloc, tree, limit)?;
    let succession = Succession::new(alloc, &core)?;
    match engine_of(alloc, core) {
        Ok(engine) => Ok((engine, succession)),
        Err(fault) => Err(fault),
    }
}

/// Closes an engine with the sessions of its connections. 831 if it doesn't close, or if they are more or fewer than it had given. Takes no memory.
pub fn close_engine(engine: Engine, sessions: Vec<Session>) -> Result<Vec<Closed>, CliFault>
    ensures chain { IfOk result (λ r. IsChain r.items) }
    ensures ok { IfOk result (λ r. All (Matches r.items) sessions.items) }
    ensures once { IfOk result (λ r. AreAllOf r.items sessions.items → AskForEachOnce r.items sessions.items) }
    ensures writes { IfOk result (λ r. All (FindsItsWrites r.items) sessions.items) }
    ensures given { IfOk result (λ r. vec_len sessions ≡ sessions_given r.items) }
    ensures fault { IfErr result (λ e. e ≡ NotClosed) }
{
    let count = sessions.len();
    let Ok((chain, _)) = engine.close(sessions) else {
        return Err(CliFault::NotClosed);
    };
    // A session that isn't here may have been told anything.
    if sessions_given(&chain) as usize != count {
        return Err(CliFault::NotClosed);
    }
    Ok(chain)
}
