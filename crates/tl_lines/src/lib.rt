//! What commands of more than one crate print: the line for a value, and what a procedure does at most as a value.
#![tactic(auto)]

ghost use Rattle.std.specs.Prelude.{◌≡◌, [], ◌∷◌, ◌++◌, false, codes, string_bytes, IfOk};
ghost use Rattle.serde_json.specs.Data.{object, member, no_members};
ghost use Rattle.serde_json.specs.View.{view};
ghost use Rattle.serde_json.specs.Written.{has_float, compact_text};

use serde_json::{Value, json};
use std::alloc::{AllocError, Global};

/// The line for a value: its compact text and a line feed. A value with a float may be written otherwise.
pub fn line_of(alloc: Global, value: &Value) -> Result<String, AllocError>
    ensures { IfOk result (λ s. has_float (view value.now) ≡ false → string_bytes s ≡ compact_text (view value.now) ++ 10 ∷ []) }
{
    let mut line = value.to_string(alloc)?;
    line.push_str("\n")?;
    Ok(line)
}

/// `{"bounds":{..}}`: how many values are emitted, nodes locked and steps done at most.
pub fn bounds_to_value(
    alloc: Global,
    emits: Value,
    locks: Value,
    steps: Value,
) -> Result<Value, AllocError>
    ensures { IfOk result (λ v. view v ≡ object (member (codes "bounds") (object
        (member (codes "emits") (view emits) (member (codes "locks") (view locks) (member (codes "steps") (view steps) no_members)))) no_members)) }
{
    json!(in alloc; {"bounds": {"emits": emits, "locks": locks, "steps": steps}})
}
