// The command `drive`.

ghost use Rattle.std.specs.Prelude.{◌≡◌, ◌∷◌, ◌++◌, [], string_bytes, IfOk, IfErr};
ghost use Rattle.serde_json.specs.View.{view};
ghost use Rattle.tl_commands.specs.Faults.{status_of};
ghost use Rattle.tl_record.specs.Recording.{trail_value};
ghost use Rattle.tl_trail.specs.Writing.{trail_text};
ghost use Rattle.tl_commands.specs.Scripted.{tree_now};
ghost use Rattle.tl_commands.specs.Drive.{IsConclusion, IsDriven, PrintsDriven, IsFirstDriveFault};

use crate::fault::CliFault;
use crate::inputs::{Inputs, core_of, procedures_of_files, tree_of_file};
use crate::outputs::{three_lines, trail_file};
use crate::script::read_moves;
use crate::trace::{trace_to_value, unfinished_to_value};
use serde_json::Value;
use std::alloc::Global;
use std::marker::Model;
use tl_core::{Core, CoreFault, Entry};
use tl_json::order_to_value;
use tl_serial::conclude;
use tl_serial_order::SerialFault;
use tl_tree::Tree;

// The value of the second line.
fn conclusion(alloc: Global, core: &Core) -> Result<Value, CliFault>
    ensures ok { IfOk result (λ v. IsConclusion core.now.seen (view v)) }
    ensures err { IfErr result (λ e. status_of e ≡ 4) }
{
    match conclude(alloc, core) {
        Ok(order) => Ok(order_to_value(alloc, order.calls())?),
        Err(SerialFault::Unfinished { call }) => Ok(unfinished_to_value(alloc, call)?),
        Err(SerialFault::Memory) => Err(CliFault::Core(CoreFault::Memory)),
    }
}

/// What a script of moves came to: the result of each move, and the core after them.
#[derive(Debug, Drop)]
pub struct Driven {
    trace: Vec<Entry>,
    core: Core,
}

impl Model for Driven {
    ghost use Rattle.tl_commands.specs.Drive.{DrivenValue};

    ghost Value = { DrivenValue };

    ghost view = { λ d. record { entries = d.trace.items; core = d.core.seen } };
}

impl Driven {
    /// The tree after the moves.
    pub fn tree(&self) -> &Tree
        ensures { result.now ≡ tree_now self.now.core }
    {
        self.core.tree()
    }

    /// The lines to print: the result of each move; the order of the calls, or 651 and the least unfinished call; and the
    /// tree. 190, 690 or 990 if memory is refused.
    pub fn lines(&self, alloc: Global) -> Result<String, CliFault>
        ensures printed { IfOk result (λ s. PrintsDriven self.now (string_bytes s)) }
        ensures err { IfErr result (λ e. status_of e ≡ 4) }
    {
        let trace = trace_to_value(alloc, &self.trace)?;
        let conclusion = conclusion(alloc, &self.core)?;
        three_lines(alloc, &trace, &conclusion, self.core.tree())
    }

    /// The text of a file: the trail of the calls, and a line feed. 790 or 990 if memory is refused.
    pub fn trail_file(&self, alloc: Global) -> Result<String, CliFault>
        ensures ok { IfOk result (λ s. string_bytes s ≡ trail_text (trail_value self.now.core) ++ 10 ∷ []) }
        ensures err { IfErr result (λ e. status_of e ≡ 4) }
    {
        trail_file(alloc, &self.core)
    }
}

/// Carries out a script on a tree, with its own procedures and those of other files.
///
/// The first fault, in this order: those of the files of procedures, as from `all_given`; 106 (also if the tree isn't UTF-8), 101 to 105, where the tree may have `limit` nodes; 731; then for each procedure of the script the
/// assembler's 251 to 254, the verifier's 301 to 307 and 401 to 409, and 612, 611, 613; then for each other procedure 612, 611, 613. If
/// memory was refused, 190, 290, 490, 690 or 990.
pub fn drive_cmd(alloc: Global, inputs: Inputs<'_>) -> Result<Driven, CliFault>
    ensures driven { IfOk result (IsDriven inputs.entry.limit inputs.entry.tree.now inputs.entry.script.now inputs.entry.sources.now) }
    ensures fault { IfErr result (IsFirstDriveFault inputs.entry.limit inputs.entry.tree.now inputs.entry.script.now inputs.entry.sources.now) }
{
    let Inputs {
        tree,
        script,
        sources,
        limit,
    } = inputs;
    let procedures = procedures_of_files(alloc, sources)?;
    let tree = match tree_of_file(alloc, tree, limit) {
        Ok(tree) => tree,
        Err(fault) => return Err(CliFault::Tree(fault)),
    };
    let script = read_moves(alloc, script, &procedures)?;
    let mut core = core_of(alloc, tree, &script.procedures, procedures)?;
    match core.drive(alloc, &script.tasks) {
        Ok(trace) => Ok(Driven { trace, core }),
        Err(fault) => Err(CliFault::Core(fault)),
    }
}
