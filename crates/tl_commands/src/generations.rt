// The command `serve` where engines take over from one another: what is done when one has used up its epochs.

ghost use Rattle.std.specs.Prelude.{◌≡◌, [], true, vec_len, string_bytes, IfOk, OnOk, IfErr, OnErr, All};
ghost use Rattle.serde_json.specs.View.{view};
ghost use Rattle.tl_table.specs.Tables.{IsChain};
ghost use Rattle.tl_workers.specs.Matching.{Matches};
ghost use Rattle.tl_workers.specs.Sessions.{AreAllOf, AskForEachOnce, FindsItsWrites};
ghost use Rattle.tl_generations.specs.Generations.{TakesTurn};
ghost use Rattle.tl_commands.specs.Closing.{IsClosing, sessions_given, tree_after};
ghost use Rattle.tl_commands.specs.declared.fault.CliFault.TheVariants.{NotClosed};
ghost use Rattle.tl_commands.specs.Faults.{status_of};
ghost use Rattle.tl_commands.specs.Generations.{BeginsWithFile, IsTurnFault, generations_data};
ghost use Rattle.tl_commands.specs.Scripted.{two_lines_text};
ghost use Rattle.tl_commands.specs.Serve.{IsConclusionFault, IsOpeningFault, are_many};
ghost use Rattle.tl_commands.specs.Sinks.{FilesTrails, IsSinkFault};

use crate::closing::{closing_lines, last_tree};
use crate::fault::CliFault;
use crate::outputs::{put_trails, two_lines};
use crate::serving::{close_engine, engine_of, open_engine};
use crate::sink::TrailSink;
use serde_json::{Value, json};
use std::alloc::{AllocError, Global};
use std::marker::Model;
use tl_core::Core;
use tl_generations::Succession;
use tl_table::Closed;
use tl_tree::Tree;
use tl_workers::{Engine, Session};

/// The epochs of an engine that was closed. By its type they follow on one another.
#[derive(Debug, Drop)]
pub struct Generation {
    chain: Vec<Closed>,
}

impl Model for Generation {
    ghost use Rattle.std.specs.Prelude.{List};
    ghost use Rattle.tl_table.specs.Epochs.{EpochValue};
    ghost use Rattle.tl_table.specs.Tables.{IsChain};

    ghost Value = { List EpochValue };

    ghost view = { λ g. g.chain.items };

    ghost invariant = { λ g. IsChain g.chain.items };
}

impl Generation {
    // These epochs.
    pub(crate) fn new(chain: Vec<Closed>) -> Generation
        requires { IsChain chain.items }
        ensures { result ≡ chain.items }
    {
        Generation { chain }
    }

    /// The tree that the calls left.
    pub fn tree(&self) -> &Tree
        ensures { result.now ≡ tree_after self.now }
    {
        last_tree(&self.chain)
    }

    /// The lines to print: the order of the calls, or, if there are several epochs, the order in each; and the tree that they
    /// left. 190, 690 or 990 if memory is refused.
    pub fn lines(&self, alloc: Global) -> Result<String, CliFault>
        ensures printed { IfOk result (λ s. IsClosing (are_many self.now) self.now (string_bytes s)) }
        ensures err { IfErr result (λ e. status_of e ≡ 4) }
    {
        closing_lines(alloc, &self.chain, self.chain.len() > 1)
    }

    /// The epochs, in their order.
    pub fn chain(&self) -> &[Closed]
        ensures same { result.now ≡ self.now }
        ensures chain { IsChain self.now }
    {
        self.chain.as_slice()
    }
}

/// The first engine of a line of engines, for calls on the tree of a file, without procedures; and the succession, which begins with that
/// tree. The engine seals its epochs by itself. Takes the bytes of the file.
///
/// 106 (also if the tree isn't UTF-8), 101 to 105, where the tree may have `limit` nodes. If memory was refused, 190, 690, 890 or 990.
pub fn open_generations(
    alloc: Global,
    tree: &[u8],
    limit: u32,
) -> Result<(Engine, Succession), CliFault>
    ensures seals { IfOk result (λ r. r.0.seals ≡ true) }
    ensures opened { IfOk result (λ r. BeginsWithFile limit tree.now r.1) }
    ensures fault { IfErr result (λ e. IsOpeningFault limit tree.now e) }
{
    let (engine, succession) = open_engine(alloc, tree, limit)?;
    Ok((engine.that_seals(), succession))
}

// An engine for a core that has no calls yet, which seals its epochs by itself.
fn sealing_engine(alloc: Global, core: Core) -> Result<Engine, CliFault>
    requires { core.seen.calls ≡ [] }
    ensures seals { IfOk result (λ e. e.seals ≡ true) }
    ensures fault { IfErr result (λ e. status_of e ≡ 4) }
{
    Ok(engine_of(alloc, core)?.that_seals())
}

/// Closes an engine with all its sessions. 831 if it doesn't close: a call is unfinished, or a session's list isn't what the table says, or the sessions
/// are more or fewer than the table had given.
/// Takes no memory.
pub fn close_generation(engine: Engine, sessions: Vec<Session>) -> Result<Generation, CliFault>
    ensures chain { IfOk result (λ g. IsChain g) }
    ensures matches { IfOk result (λ g. All (Matches g) sessions.items) }
    ensures once { IfOk result (λ g. AreAllOf g sessions.items → AskForEachOnce g sessions.items) }
    ensures writes { IfOk result (λ g. All (FindsItsWrites g) sessions.items) }
    ensures given { IfOk result (λ g. vec_len sessions ≡ sessions_given g) }
    ensures fault { IfErr result (λ e. e ≡ NotClosed) }
{
    match close_engine(engine, sessions) {
        Ok(chain) => Ok(Generation { chain }),
        Err(fault) => Err(fault),
    }
}

/// Takes an engine's epochs as the next generation. 831 if they didn't begin with what the one before left. 990 if memory was refused; it
/// may be tried again.
pub fn take_generation(
    alloc: Global,
    generation: &Generation,
    succession: &mut Succession,
) -> Result<(), CliFault>
    ensures turn { OnOk result (TakesTurn succession.old generation.now succession.new) }
    ensures err { OnErr result (succession.new ≡ succession.old) }
    ensures fault { IfErr result (λ e. IsTurnFault succession.old generation.now e) }
{
    match succession.take(alloc, generation.chain()) {
        Ok(true) => Ok(()),
        Ok(false) => Err(CliFault::NotClosed),
        Err(_) => Err(CliFault::Memory),
    }
}

/// Closes an engine with all its sessions, and takes its epochs as the next generation. 831 if the engine doesn't close, since a call is
/// unfinished, a session's list isn't what the table says, or there are more or fewer sessions than the table had given; or if it didn't begin with what the one before left. 990 if memory was
/// refused: the epochs are lost then, so whoever wants to try again calls `close_generation` and `take_generation`.
pub fn end_generation(
    alloc: Global,
    engine: Engine,
    sessions: Vec<Session>,
    succession: &mut Succession,
) -> Result<Generation, CliFault>
    ensures chain { IfOk result (λ g. IsChain g) }
    ensures matches { IfOk result (λ g. All (Matches g) sessions.items) }
    ensures once { IfOk result (λ g. AreAllOf g sessions.items → AskForEachOnce g sessions.items) }
    ensures writes { IfOk result (λ g. All (FindsItsWrites g) sessions.items) }
    ensures given { IfOk result (λ g. vec_len sessions ≡ sessions_given g) }
    ensures turn { IfOk result (λ g. TakesTurn succession.old g succession.new) }
    ensures err { OnErr result (succession.new ≡ succession.old) }
    ensures fault { IfErr result (λ e. IsConclusionFault e) }
{
    let generation = close_generation(engine, sessions)?;
    match take_generation(alloc, &generation, succession) {
        Ok(()) => Ok(generation),
        Err(fault) => Err(fault),
    }
}

/// An engine that takes over: it has the tree and the procedures that were left, and no calls. It seals its epochs by itself. 690, 890 or
/// 990 if memory was refused.
pub fn next_engine(alloc: Global, succession: &Succession) -> Result<Engine, CliFault>
    ensures seals { IfOk result (λ e. e.seals ≡ true) }
    ensures fault { IfErr result (λ e. status_of e ≡ 4) }
{
    let core = succession.last().open(alloc).map_err(CliFault::Core)?;
    sealing_engine(alloc, core)
}

fn count_to_value(alloc: Global, generations: u64) -> Result<Value, AllocError>
    ensures { IfOk result (λ v. view v ≡ generations_data generations) }
{
    json!(in alloc; {"generations": generations})
}

/// The lines to print of engines that followed one another: how many there were, and the tree that the last one left. 190 or 990 if
/// memory is refused.
pub fn generations_lines(alloc: Global, generations: u64, tree: &Tree) -> Result<String, CliFault>
    ensures printed { IfOk result (λ s. string_bytes s ≡ two_lines_text (generations_data generations) tree.now) }
    ensures err { IfErr result (λ e. status_of e ≡ 4) }
{
    let value = count_to_value(alloc, generations)?;
    two_lines(alloc, &value, tree)
}

/// Puts into the sink the file of a generation's trails: the trail of its calls, or, if there are several epochs, the list of the trails
/// of all, and a line feed. The text of only one trail is in memory at a time. 32 if that can't be written; if memory was refused, 790
/// or 990.
pub fn keep_generation<S: TrailSink>(
    alloc: Global,
    generation: &Generation,
    sink: &mut S,
) -> Result<(), CliFault>
    ensures put { OnOk result (FilesTrails generation.now (S.text sink.old) (S.text sink.new)) }
    ensures fine { OnOk result (S.failures sink.new ≡ S.failures sink.old) }
    ensures fault { IfErr result (λ e. IsSinkFault (S.failures sink.old) (S.failures sink.new) (status_of e ≡ 4) e) }
{
    put_trails(alloc, generation.chain(), sink)
}
