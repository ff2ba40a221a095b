// The text of a trail.

ghost use Rattle.std.specs.Prelude.{ℕ, ◌≡◌, ◌<◌, ◌≤◌, ◌++◌, [], false, map, length, string_bytes, All, Ok, IfOk, OnOk, IfErr};
ghost use Rattle.serde_json.specs.Data.{depth};
ghost use Rattle.serde_json.specs.Read.{max_depth};
ghost use Rattle.serde_json.specs.View.{view};
ghost use Rattle.serde_json.specs.Written.{has_float};
ghost use Rattle.tl_tree.specs.declared.record.Width.TheVariants.{Wide};
ghost use Rattle.tl_tree.specs.Reading.{tree_at};
ghost use Rattle.tl_tree.specs.Writing.{tree_data};
ghost use Rattle.tl_procedures.specs.Names.{AreFreeAfter};
ghost use Rattle.tl_json.specs.Lists.{list_data};
ghost use Rattle.tl_json.specs.Procedures.{procedure_data, AreAccepted};
ghost use Rattle.tl_trail.specs.Trails.{call_at};
ghost use Rattle.tl_trail.specs.ReadsBack.{Adds};
ghost use Rattle.tl_trail.specs.Reading.{IsTrailText};
ghost use Rattle.tl_trail.specs.Writing.{call_data, trail_text, FitsText, IsWritable};

use crate::fault::TrailFault;
use crate::trail::Trail;
use serde_json::{Value, json};
use std::alloc::{AllocError, Global};
use tl_json::{procedures_to_value, push_list, reply_to_value};
use tl_procedures::Procedures;
use tl_tree::{Tree, integers_to_value, tree_to_value};

fn call_to_value(alloc: Global, trail: &Trail, call: u32) -> Result<Value, AllocError>
    requires { call < length trail.now.calls }
    ensures value { IfOk result (λ v. view v ≡ call_data trail.now.procedures (call_at trail.now call)) }
    ensures told { OnOk result (FitsText (call_at trail.now call)) }
{
    let (procedure, args) = trail.request(call);
    let name = trail.procedures().name(procedure);
    let args = integers_to_value(alloc, args)?;
    let reply = reply_to_value(alloc, trail.reply(call))?;
    json!(in alloc; [name, args, reply])
}

fn calls_to_value(alloc: Global, trail: &Trail) -> Result<Value, AllocError>
    ensures value { IfOk result (λ v. view v ≡ list_data (map (call_data trail.now.procedures) trail.now.calls)) }
    ensures told { OnOk result (All FitsText trail.now.calls) }
{
    let mut items = Vec::with_capacity(alloc, trail.calls())?;
    for call in 0..trail.calls() {
        items.push(call_to_value(alloc, trail, call as u32)?)?;
    }
    Ok(Value::Array(items))
}

fn push_value(alloc: Global, text: &mut String, value: &Value) -> Result<(), AllocError>
    ensures { OnOk result (has_float (view value.now) ≡ false → depth (view value.now) ≤ max_depth
        → Adds (string_bytes text.old) (string_bytes text.new) (view value.now)) }
{
    let written = value.to_string(alloc)?;
    text.push_str(&written)
}

fn push_calls(alloc: Global, text: &mut String, trail: &Trail) -> Result<(), AllocError>
    ensures added { OnOk result (Adds (string_bytes text.old) (string_bytes text.new)
        (list_data (map (call_data trail.now.procedures) trail.now.calls))) }
    ensures told { OnOk result (All FitsText trail.now.calls) }
{
    let calls = calls_to_value(alloc, trail)?;
    push_value(alloc, text, &calls)
}

fn push_procedures(
    alloc: Global,
    text: &mut String,
    procedures: &Procedures,
) -> Result<(), AllocError>
    ensures added { OnOk result (Adds (string_bytes text.old) (string_bytes text.new)
        (list_data (map procedure_data procedures.now))) }
    ensures accepted { OnOk result (AreAccepted procedures.now) }
    ensures free { OnOk result (AreFreeAfter [] procedures.now) }
{
    let value = procedures_to_value(alloc, procedures)?;
    push_value(alloc, text, &value)
}

fn push_tree(alloc: Global, text: &mut String, tree: &Tree) -> Result<(), AllocError>
    ensures added { OnOk result (Adds (string_bytes text.old) (string_bytes text.new) (tree_data tree.now)) }
    ensures reads_back { OnOk result ((limit : ℕ) → length tree.now.parents ≤ limit → tree_at limit Wide (tree_data tree.now) ≡ Ok tree.now) }
{
    let Ok(value) = tree_to_value(alloc, tree) else {
        return Err(AllocError);
    };
    push_value(alloc, text, &value)
}

/// Appends the text of a trail to a text. The events are most of a trail, and are written to the text one after another.
pub(crate) fn push_trail(alloc: Global, text: &mut String, trail: &Trail) -> Result<(), AllocError>
    ensures text { OnOk result (string_bytes text.new ≡ string_bytes text.old ++ trail_text trail.now) }
    ensures writable { OnOk result (IsWritable trail.now) }
{
    // There are at most 1,048,576 events.
    let _fact = trail.history().len();
    text.push_str("{\"calls\":")?;
    push_calls(alloc, text, trail)?;
    text.push_str(",\"end\":")?;
    push_list(text, trail.ends())?;
    text.push_str(",\"events\":")?;
    push_list(text, trail.events())?;
    text.push_str(",\"procs\":")?;
    push_procedures(alloc, text, trail.procedures())?;
    text.push_str(",\"tree\":")?;
    push_tree(alloc, text, trail.opening())?;
    text.push_str("}")
}

/// The text of a trail, with no spaces: an object with the members `calls`, `end`, `events`, `procs` and `tree`, in this
/// order. The procedures come by number, each with its canonical assembler text. 790 if memory is refused.
pub fn write_trail(alloc: Global, trail: &Trail) -> Result<String, TrailFault>
    ensures text { IfOk result (λ s. string_bytes s ≡ trail_text trail.now) }
    ensures reads_back { IfOk result (λ s. (limit : ℕ) → length trail.now.parents ≤ limit → IsTrailText limit (string_bytes s) trail.now) }
    ensures err { IfErr result (λ e. e ≡ TrailFault.Memory) }
{
    let mut text = String::new(alloc);
    push_trail(alloc, &mut text, trail)?;
    Ok(text)
}
