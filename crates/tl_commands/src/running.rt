// The command `run`.

ghost use Rattle.std.specs.Prelude.{◌≡◌, ◌≢◌, ◌≤◌, ◌↔◌, ℕ, List, [], false, length, All, map, string_bytes, IsTrue, IfOk, IfErr};
ghost use Rattle.tl_table.specs.Epochs.{seen};
ghost use Rattle.tl_table.specs.Tables.{IsChain};
ghost use Rattle.tl_workers.specs.declared.batch.TheConstants.{MAX_REQUESTS, MAX_WORKERS};
ghost use Rattle.tl_workers.specs.Kept.{SessionValue, Gains};
ghost use Rattle.tl_workers.specs.Matching.{Matches};
ghost use Rattle.tl_workers.specs.Refusals.{AreCallRefusals};
ghost use Rattle.tl_commands.specs.Faults.{status_of};
ghost use Rattle.tl_commands.specs.Run.{AnswersBatches, AreAnswered, AreInEpochs, IsInEpoch, kept_of, IsLeftOpen, IsRun, IsBrokenOff, IsFirstRunFault, RunsOn, begun_by, batches_of, answers_of, batch_lines, PrintsRun};

use crate::answers::batch_to_value;
use crate::closing::closing_lines;
use crate::fault::CliFault;
use crate::generations::Generation;
use crate::inputs::{Inputs, core_of, procedures_of_files, tree_of_file};
use crate::script::read_calls;
use std::alloc::Global;
use std::marker::Model;
use std::sync::Wait;
use std::thread::Threads;
use tl_core::Core;
use tl_generations::Legacy;
use tl_json::Request;
use tl_table::{Closed, Receipt};
use tl_workers::{Engine, Gate, MAX_WORKERS, Refusal, Session};

// The results of the requests of a batch.
type Answers = Vec<Result<Receipt, Refusal>>;

/// What a script of calls came to: the answers to each batch, the epochs of the closed engine, and whether the script names epochs.
#[derive(Debug, Drop)]
pub struct Ran {
    answers: Vec<Answers>,
    epochs: Generation,
    has_epochs: bool,
}

impl Model for Ran {
    ghost use Rattle.tl_commands.specs.Run.{RunValue, answers_of};

    ghost Value = { RunValue };

    ghost view = { λ r. record { answers = answers_of r.answers.items; epochs = r.epochs; has_epochs = r.has_epochs } };
}

impl Ran {
    /// The epochs of the closed engine: with the tree that the calls left, and their trails.
    pub fn epochs(&self) -> &Generation
        ensures { result.now ≡ self.now.epochs }
    {
        &self.epochs
    }

    /// The lines to print: for each batch the answer to each request; the order of the calls, or, for a script of epochs, the order in
    /// each; and the tree that they left. 190, 690 or 990 if memory is refused.
    pub fn lines(&self, alloc: Global) -> Result<String, CliFault>
        ensures printed { IfOk result (λ s. PrintsRun self.now (string_bytes s)) }
        ensures err { IfErr result (λ e. status_of e ≡ 4) }
    {
        let closing = closing_lines(alloc, self.epochs.chain(), self.has_epochs)?;
        let mut text = String::new(alloc);
        for answers in &self.answers {
            let line = batch_to_value(alloc, answers)?.to_string(alloc)?;
            text.push_str(&line)?;
            text.push_str("\n")?;
        }
        text.push_str(&closing)?;
        Ok(text)
    }
}

// Whether each receipt is of the epoch of that number.
fn are_in_epoch(answers: &[Result<Receipt, Refusal>], epoch: usize) -> bool
    ensures { IsTrue result ↔ All (IsInEpoch epoch) answers.now }
{
    for answer in answers {
        if let Ok(receipt) = answer {
            if receipt.epoch as usize != epoch {
                return false;
            }
        }
    }
    true
}

// Asks for one batch after another, and seals the table between two. 831 if a call isn't in the epoch of its batch.
fn ask_each<R: Threads + Wait + Sync, G: Gate + Sync>(
    rt: &R,
    alloc: Global,
    engine: &Engine,
    session: &mut Session,
    batches: &[Vec<Request>],
    workers: usize,
    gate: &G,
) -> Result<Vec<Answers>, CliFault>
    requires each { All (λ b. (1 ≤ length b.items) × (length b.items ≤ MAX_REQUESTS)) batches.now }
    requires one { 1 ≤ workers }
    requires workers { workers ≤ MAX_WORKERS }
    ensures each { IfOk result (λ answers. AnswersBatches (batches_of batches.now) (answers_of answers.items)) }
    ensures refused { IfOk result (λ answers. All (AreCallRefusals engine.now.seals) (answers_of answers.items)) }
    ensures epochs { IfOk result (λ answers. AreInEpochs (answers_of answers.items)) }
    ensures kept { IfOk result (λ answers. Gains session.old session.new (kept_of (batches_of batches.now) (answers_of answers.items))) }
    ensures fault { IfErr result (λ e. status_of e ≢ 4 → IsBrokenOff (batches_of batches.now) e) }
{
    let mut all = Vec::with_capacity(alloc, batches.len())?;
    for (number, requests) in batches.iter().enumerate() {
        if number > 0 {
            engine.seal(rt, alloc)?;
        }
        let answers = engine.batch(rt, alloc, session, requests, workers, gate)?;
        if !are_in_epoch(&answers, number) {
            return Err(CliFault::NotClosed);
        }
        all.push_reserved(answers);
    }
    Ok(all)
}

// The same for a session that comes back, while so many threads less one stay and help with the batches.
fn ask_with_helpers<R: Threads + Wait + Sync, G: Gate + Sync>(
    rt: &R,
    alloc: Global,
    engine: &Engine,
    session: Session,
    batches: &[Vec<Request>],
    workers: usize,
    gate: &G,
) -> Result<(Vec<Answers>, Session), CliFault>
    requires each { All (λ b. (1 ≤ length b.items) × (length b.items ≤ MAX_REQUESTS)) batches.now }
    requires one { 1 ≤ workers }
    requires workers { workers ≤ MAX_WORKERS }
    ensures each { IfOk result (λ r. AnswersBatches (batches_of batches.now) (answers_of r.0.items)) }
    ensures refused { IfOk result (λ r. All (AreCallRefusals engine.now.seals) (answers_of r.0.items)) }
    ensures epochs { IfOk result (λ r. AreInEpochs (answers_of r.0.items)) }
    ensures kept { IfOk result (λ r. Gains session r.1 (kept_of (batches_of batches.now) (answers_of r.0.items))) }
    ensures fault { IfErr result (λ e. status_of e ≢ 4 → IsBrokenOff (batches_of batches.now) e) }
{
    let assists = || engine.assist(rt, gate);
    engine.crew().with_members(
        rt,
        workers - 1,
        &assists,
        || -> Result<(Vec<Answers>, Session), CliFault>
            requires each { All (λ b. (1 ≤ length b.items) × (length b.items ≤ MAX_REQUESTS)) batches.now }
            requires one { 1 ≤ workers }
            requires workers { workers ≤ MAX_WORKERS }
            ensures each { IfOk result (λ r. AnswersBatches (batches_of batches.entry.now) (answers_of r.0.items)) }
            ensures refused { IfOk result (λ r. All (AreCallRefusals engine.entry.now.seals) (answers_of r.0.items)) }
            ensures epochs { IfOk result (λ r. AreInEpochs (answers_of r.0.items)) }
            ensures kept { IfOk result (λ r. Gains session r.1 (kept_of (batches_of batches.entry.now) (answers_of r.0.items))) }
            ensures fault { IfErr result (λ e. status_of e ≢ 4 → IsBrokenOff (batches_of batches.entry.now) e) }
        {
            let mut session = session;
            let answers = ask_each(rt, alloc, engine, &mut session, batches, workers, gate)?;
            Ok((answers, session))
        },
    )
}

// Whether each epoch has so many procedures.
fn have_as_many(chain: &[Closed], count: usize) -> bool
    ensures { IsTrue result ↔ All (λ e. length (seen e).procedures ≡ count) chain.now }
{
    for closed in chain {
        if closed.core().procedures().len() != count {
            return false;
        }
    }
    true
}

// Whether the first epoch opens with this tree, and each has these procedures, which are so many, and no others.
fn runs_on(begun: &Legacy, count: usize, chain: &[Closed]) -> bool
    requires chain { IsChain chain.now }
    requires count { count ≡ length begun.now.procedures }
    ensures { IsTrue result ↔ RunsOn begun.now chain.now }
{
    begun.is_taken_up(chain) && have_as_many(chain, count)
}

// Asks the engine for the batches in one session, and closes it. 831 if it has more or fewer epochs than there are batches.
fn run_batches<R: Threads + Wait + Sync, G: Gate + Sync>(
    rt: &R,
    alloc: Global,
    engine: Engine,
    batches: &[Vec<Request>],
    workers: usize,
    gate: &G,
) -> Result<(Vec<Answers>, Vec<Closed>), CliFault>
    requires seals { engine.seals ≡ false }
    requires each { All (λ b. (1 ≤ length b.items) × (length b.items ≤ MAX_REQUESTS)) batches.now }
    requires one { 1 ≤ workers }
    requires workers { workers ≤ MAX_WORKERS }
    ensures chain { IfOk result (λ r. IsChain r.1.items) }
    ensures ok { IfOk result (λ r. (session : SessionValue) × AreAnswered (batches_of batches.now) (answers_of r.0.items) session × Matches r.1.items session) }
    ensures epochs { IfOk result (λ r. (length r.1.items ≡ length (batches_of batches.now)) × AreInEpochs (answers_of r.0.items)) }
    ensures fault { IfErr result (λ e. status_of e ≢ 4 → IsLeftOpen (batches_of batches.now) e) }
{
    let session = engine.session(rt, alloc)?;
    let mut sessions = Vec::with_capacity(alloc, 1)?;
    let asked = ask_with_helpers(rt, alloc, &engine, session, batches, workers, gate)?;
    let (answers, session) = asked;
    sessions.push_reserved(session);
    match engine.close(sessions) {
        Ok((chain, _)) => {
            if chain.len() != batches.len() {
                return Err(CliFault::NotClosed);
            }
            Ok((answers, chain))
        }
        Err(_) => Err(CliFault::NotClosed),
    }
}

// The same for an engine that is made of the core. 831 also if it didn't run on the core's tree and procedures.
fn run_on_core<R: Threads + Wait + Sync, G: Gate + Sync>(
    rt: &R,
    alloc: Global,
    core: Core,
    batches: &[Vec<Request>],
    workers: usize,
    gate: &G,
) -> Result<(Vec<Answers>, Vec<Closed>), CliFault>
    requires empty { core.seen.calls ≡ [] }
    requires each { All (λ b. (1 ≤ length b.items) × (length b.items ≤ MAX_REQUESTS)) batches.now }
    requires one { 1 ≤ workers }
    requires workers { workers ≤ MAX_WORKERS }
    ensures chain { IfOk result (λ r. IsChain r.1.items) }
    ensures ok { IfOk result (λ r. (session : SessionValue) × AreAnswered (batches_of batches.now) (answers_of r.0.items) session × Matches r.1.items session) }
    ensures epochs { IfOk result (λ r. (length r.1.items ≡ length (batches_of batches.now)) × AreInEpochs (answers_of r.0.items)) }
    ensures based { IfOk result (λ r. RunsOn (begun_by core.seen) r.1.items) }
    ensures fault { IfErr result (λ e. status_of e ≢ 4 → IsLeftOpen (batches_of batches.now) e) }
{
    let begun = Legacy::before(alloc, &core)?;
    let count = core.procedures().len();
    let engine = Engine::of_core(alloc, core)?;
    let (answers, chain) = run_batches(rt, alloc, engine, batches, workers, gate)?;
    if !runs_on(&begun, count, &chain) {
        return Err(CliFault::NotClosed);
    }
    Ok((answers, chain))
}

/// Runs the calls of a script on its tree, with its own procedures and those of other files, on up to `workers` threads. If the script
/// has several lists of calls, the table is sealed between two.
///
/// The first fault, in this order: those of the files of procedures, as from `all_given`; 106 (also if the tree isn't UTF-8), 101 to 105, where the tree may have `limit` nodes; 731; then for each procedure of the script the
/// assembler's 251 to 254, the verifier's 301 to 307 and 401 to 409, and 612, 611, 613; then for each other procedure 612, 611, 613; 606
/// or 808 if the table isn't sealed between two lists; 821; 831 if the engine that ran the calls doesn't close, has a call in another epoch than that of
/// its list, or didn't run on this tree and these procedures. If memory was refused, 190, 290, 490, 690, 890 or 990.
pub fn run_cmd<R: Threads + Wait + Sync, G: Gate + Sync>(
    rt: &R,
    alloc: Global,
    inputs: Inputs<'_>,
    workers: usize,
    gate: &G,
) -> Result<Ran, CliFault>
    requires one { 1 ≤ workers }
    requires workers { workers ≤ MAX_WORKERS }
    ensures ran { IfOk result (IsRun inputs.entry.limit inputs.entry.tree.now inputs.entry.script.now inputs.entry.sources.now) }
    ensures fault { IfErr result (IsFirstRunFault inputs.entry.limit inputs.entry.tree.now inputs.entry.script.now inputs.entry.sources.now) }
{
    let Inputs {
        tree,
        script,
        sources,
        limit,
    } = inputs;
    let procedures = procedures_of_files(alloc, sources)?;
    let tree = match tree_of_file(alloc, tree, limit) {
        Ok(tree) => tree,
        Err(fault) => return Err(CliFault::Tree(fault)),
    };
    let asked = read_calls(alloc, script, &procedures)?;
    let core = core_of(alloc, tree, &asked.script.procedures, procedures)?;
    let (answers, chain) = run_on_core(rt, alloc, core, &asked.script.tasks, workers, gate)?;
    Ok(Ran {
        answers,
        epochs: Generation::new(chain),
        has_epochs: asked.has_epochs,
    })
}
