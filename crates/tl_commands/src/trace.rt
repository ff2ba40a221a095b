// The results of a script's moves, as JSON values.

ghost use Rattle.std.specs.Prelude.{◌≡◌, ◌∷◌, ◌++◌, [], codes, map, IfOk, OnOk};
ghost use Rattle.serde_json.specs.Data.{array, object, member, no_members};
ghost use Rattle.serde_json.specs.View.{view, items_of};
ghost use Rattle.tl_json.specs.Lists.{natural};
ghost use Rattle.tl_json.specs.Letters.{lettered};
ghost use Rattle.tl_json.specs.declared.letter.Letter.TheVariants as letter;
ghost use Rattle.tl_commands.specs.Trace.{action_data, stepped_data, entry_data, trace_data, error_data, unfinished_data};

use serde_json::{Value, json};
use std::alloc::{AllocError, Global};
use tl_core::{Entry, Stepped};
use tl_json::{Letter, call_to_value, node_to_value};
use tl_tree_locking::Action;

// A call, a node, a field, and its value.
fn field_to_value(
    alloc: Global,
    letter: Letter,
    call: u32,
    node: u32,
    field: u8,
    value: Value,
) -> Result<Value, AllocError>
    ensures { IfOk result (λ v. view v ≡ lettered letter (natural call ∷ natural node ∷ natural field ∷ view value ∷ [])) }
{
    json!(in alloc; [letter.as_str(), call, node, field, value])
}

fn emitted_to_value(alloc: Global, call: u32, value: Value) -> Result<Value, AllocError>
    ensures { IfOk result (λ v. view v ≡ lettered letter.Emitted (natural call ∷ view value ∷ [])) }
{
    json!(in alloc; [Letter::Emitted.as_str(), call, value])
}

fn blocked_to_value(alloc: Global, call: u32, node: u32, holder: u32) -> Result<Value, AllocError>
    ensures { IfOk result (λ v. view v ≡ lettered letter.Blocked (natural call ∷ natural node ∷ natural holder ∷ [])) }
{
    json!(in alloc; [Letter::Blocked.as_str(), call, node, holder])
}

// Appends numbers.
fn push_numbers(items: &mut Vec<Value>, numbers: &[u64]) -> Result<(), AllocError>
    ensures { OnOk result (map view items.new.items ≡ map view items.old.items ++ map natural numbers.now) }
{
    for number in numbers {
        items.push(Value::from(*number))?;
    }
    Ok(())
}

fn numbers_to_value(alloc: Global, letter: Letter, numbers: &[u64]) -> Result<Value, AllocError>
    ensures { IfOk result (λ v. view v ≡ lettered letter (map natural numbers.now)) }
{
    let mut items = Vec::with_capacity(alloc, numbers.len())?;
    items.push(Value::try_from_str(alloc, letter.as_str())?)?;
    push_numbers(&mut items, numbers)?;
    Ok(Value::Array(items))
}

// An instruction that a call did.
fn action_to_value(alloc: Global, call: u32, action: &Action) -> Result<Value, AllocError>
    ensures { IfOk result (λ v. view v ≡ action_data call action.now) }
{
    match action {
        Action::Plain => call_to_value(alloc, Letter::Plain, call),
        Action::Lock { node, found } => node_to_value(alloc, Letter::Locked, call, *node, found),
        Action::Read { node, field, value } => {
            field_to_value(
                alloc,
                Letter::Read,
                call,
                *node,
                *field,
                Value::from(*value),
            )
        }
        Action::Write { node, field, value } => {
            field_to_value(
                alloc,
                Letter::Written,
                call,
                *node,
                *field,
                Value::from(*value),
            )
        }
        Action::Free { node, left } => node_to_value(alloc, Letter::Freed, call, *node, left),
        Action::Emit { value } => emitted_to_value(alloc, call, Value::from(*value)),
        Action::End => call_to_value(alloc, Letter::Done, call),
    }
}

// The result of a step of a call.
fn stepped_to_value(alloc: Global, call: u32, stepped: &Stepped) -> Result<Value, AllocError>
    ensures { IfOk result (λ v. view v ≡ stepped_data call stepped.now) }
{
    match stepped {
        Stepped::Moved { action } => action_to_value(alloc, call, action),
        Stepped::Blocked { node, holder } => blocked_to_value(alloc, call, *node, *holder),
        Stepped::Over => call_to_value(alloc, Letter::Over, call),
    }
}

// The result of a move.
fn entry_to_value(alloc: Global, entry: &Entry) -> Result<Value, AllocError>
    ensures { IfOk result (λ v. view v ≡ entry_data entry.now) }
{
    match entry {
        Entry::Admitted { call } => call_to_value(alloc, Letter::Admitted, *call),
        Entry::Stepped { call, stepped } => stepped_to_value(alloc, *call, stepped),
        Entry::Refused { fault } => numbers_to_value(
            alloc,
            Letter::Refused,
            fault.numbers().as_slice(),
        ),
    }
}

fn entries_to_value(alloc: Global, entries: &[Entry]) -> Result<Value, AllocError>
    ensures { IfOk result (λ v. view v ≡ array (items_of (map entry_data entries.now))) }
{
    let mut items = Vec::with_capacity(alloc, entries.len())?;
    for entry in entries {
        items.push(entry_to_value(alloc, entry)?)?;
    }
    Ok(Value::Array(items))
}

/// `{"trace":[..]}`, with the result of each move.
pub fn trace_to_value(alloc: Global, entries: &[Entry]) -> Result<Value, AllocError>
    ensures { IfOk result (λ v. view v ≡ trace_data entries.now) }
{
    let trace = entries_to_value(alloc, entries)?;
    json!(in alloc; {"trace": trace})
}

fn member_to_value(alloc: Global, numbers: Value) -> Result<Value, AllocError>
    ensures { IfOk result (λ v. view v ≡ object (member (codes "error") (view numbers) no_members)) }
{
    json!(in alloc; {"error": numbers})
}

/// `{"error":[number,..]}`: a fault by its numbers.
pub fn error_to_value(alloc: Global, numbers: &[u64]) -> Result<Value, AllocError>
    ensures { IfOk result (λ v. view v ≡ error_data numbers.now) }
{
    let mut items = Vec::with_capacity(alloc, numbers.len())?;
    push_numbers(&mut items, numbers)?;
    member_to_value(alloc, Value::Array(items))
}

/// `{"error":[651,c]}`: call c isn't done.
pub fn unfinished_to_value(alloc: Global, call: u32) -> Result<Value, AllocError>
    ensures { IfOk result (λ v. view v ≡ unfinished_data call) }
{
    error_to_value(alloc, &[651, u64::from(call)])
}
