// The command `alone`.

ghost use Rattle.std.specs.Prelude.{◌≡◌, IfOk, IfErr, option_map, string_bytes, codes, pos, List, [], ◌∷◌, ◌++◌, ℕ, ◌⊎◌, None, Some};
ghost use Rattle.serde_json.specs.Data.{object, member, no_members};
ghost use Rattle.serde_json.specs.View.{view};
ghost use Rattle.tl_tree.specs.Writing.{integer_data, integers_data, tree_text};
ghost use Rattle.tl_commands.specs.Alone.{answer_text, args_of_text, printed, IsRunAlone, IsFirstAloneFault};
ghost use Rattle.tl_commands.specs.Faults.{status_of};

use crate::fault::CliFault;
use crate::inputs::tree_of_file;
use serde_json::{Value, json};
use std::alloc::{AllocError, Global};
use std::marker::Model;
use std::sync::Arc;
use tl_machine::{Answer, alone};
use tl_sources::{Source, procedure_of};
use tl_tree::{Tree, integers_from_value, integers_to_value, write_tree};

// The arguments in a text: a JSON list of signed 64-bit integers.
fn args_of(alloc: Global, text: &str) -> Result<Vec<i64>, CliFault>
    ensures ok { IfOk result (λ v. args_of_text text.now ≡ Some v.items) }
    ensures fault { IfErr result (λ e. (e ≡ CliFault.Memory) ⊎ (e ≡ CliFault.NotArgs) × (args_of_text text.now ≡ None)) }
{
    let value = match Value::from_str(alloc, text) {
        Ok(value) => value,
        Err(error) => return Err(if error.is_memory() {
            CliFault::Memory
        } else {
            CliFault::NotArgs
        }),
    };
    match integers_from_value(alloc, &value) {
        Ok(Some(args)) => Ok(args),
        Ok(None) => Err(CliFault::NotArgs),
        Err(_) => Err(CliFault::Memory),
    }
}

fn parts_to_value(alloc: Global, reply: Value, steps: Value) -> Result<Value, AllocError>
    ensures { IfOk result (λ v. view v ≡ object (member (codes "reply") (view reply) (member (codes "steps") (view steps) no_members))) }
{
    json!(in alloc; {"reply": reply, "steps": steps})
}

// The first line.
fn answer_line(alloc: Global, answer: &Answer) -> Result<String, AllocError>
    ensures { IfOk result (λ s. string_bytes s ≡ answer_text answer.now.reply answer.now.steps) }
{
    let reply = integers_to_value(alloc, answer.reply.values())?;
    let value = parts_to_value(alloc, reply, Value::from(answer.steps))?;
    Ok(value.to_string(alloc)?)
}

/// A call that ran alone: its reply, the number of instructions done, and the tree that it left.
#[derive(Debug, Drop)]
pub struct RanAlone {
    answer: Answer,
    tree: Tree,
}

impl Model for RanAlone {
    ghost use Rattle.tl_commands.specs.Alone.{AloneValue};

    ghost Value = { AloneValue };

    ghost view = { λ r. record { reply = r.answer.reply; steps = r.answer.steps; tree = r.tree } };
}

impl RanAlone {
    /// The tree that the call left.
    pub fn tree(&self) -> &Tree
        ensures { result.now ≡ self.now.tree }
    {
        &self.tree
    }

    /// The lines to print: the reply and the number of instructions done, and the tree. 190 or 990 if memory is refused.
    pub fn lines(&self, alloc: Global) -> Result<String, CliFault>
        ensures printed { IfOk result (λ s. string_bytes s ≡ printed self.now) }
        ensures err { IfErr result (λ e. status_of e ≡ 4) }
    {
        let mut text = answer_line(alloc, &self.answer)?;
        let tree = write_tree(alloc, &self.tree).map_err(CliFault::Tree)?;
        append_lines(&mut text, &tree)?;
        Ok(text)
    }
}

/// Runs a procedure alone on a tree. Takes the bytes of the tree's file, the procedure's file and its name there, and the
/// arguments as text.
///
/// The first fault, in this order: 106 (also if the tree isn't UTF-8), 101 to 105, where the tree may have `limit` nodes; that of the procedure's file, as from
/// `procedure_of`; 732; 501. If memory was refused, 190, 290, 490 or 990.
pub fn alone_cmd(
    alloc: Global,
    tree: &[u8],
    source: Source<'_>,
    name: Option<&str>,
    args: &str,
    limit: u32,
) -> Result<RanAlone, CliFault>
    ensures ran { IfOk result (IsRunAlone limit tree.now source.entry (option_map (λ n. n.now) name.entry) args.now) }
    ensures fault { IfErr result (IsFirstAloneFault limit tree.now source.entry (option_map (λ n. n.now) name.entry) args.now) }
{
    let mut tree = match tree_of_file(alloc, tree, limit) {
        Ok(tree) => tree,
        Err(fault) => return Err(CliFault::Tree(fault)),
    };
    let procedure = match procedure_of(alloc, source, name) {
        Ok(procedure) => procedure,
        Err(fault) => return Err(CliFault::Source(fault)),
    };
    let args = args_of(alloc, args)?;
    let Ok(procedure) = Arc::new(alloc, procedure) else {
        return Err(CliFault::Memory);
    };
    let Ok(answer) = alone(&procedure, &args, &mut tree) else {
        return Err(CliFault::WrongArgs);
    };
    Ok(RanAlone { answer, tree })
}

// Ends the first line, and adds a second.
fn append_lines(text: &mut String, line: &str) -> Result<(), AllocError>
    ensures { IfOk result (λ _. string_bytes text.new ≡ string_bytes text.old ++ 10 ∷ line.now ++ 10 ∷ []) }
{
    text.push_str("\n")?;
    text.push_str(line)?;
    text.push_str("\n")
}
