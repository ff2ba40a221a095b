// Replies.

ghost use Rattle.std.specs.Prelude.{◌≡◌, option_map, option_copied, All, FitsSigned, IfOk, OnOk, IfSome};
ghost use Rattle.std.specs.Int.{w64};
ghost use Rattle.serde_json.specs.View.{view};
ghost use Rattle.tl_json.specs.Replies.{reply_of, reply_data};

use arrayvec::ArrayVec;
use serde_json::Value;
use std::alloc::{AllocError, Global};
use tl_budget::MAX_EMITS;
use tl_tree::{integers_from_value, integers_to_value};

/// The reply of a call, which may be none: null, or a list of at most 32 numbers. `None` for any other value.
pub fn reply_from_value(
    alloc: Global,
    value: &Value,
) -> Result<Option<Option<ArrayVec<i64, MAX_EMITS>>>, AllocError>
    ensures { IfOk result (λ found. option_map (λ reply. option_map (λ r. r.items) reply) found ≡ reply_of (view value.now)) }
{
    if value.is_null() {
        return Ok(Some(None));
    }
    let Some(numbers) = integers_from_value(alloc, value)? else {
        return Ok(None);
    };
    let mut reply = ArrayVec::new();
    match reply.try_extend_from_slice(&numbers) {
        Ok(()) => Ok(Some(Some(reply))),
        Err(_) => Ok(None),
    }
}

/// The list of the reply's numbers, or null if there is no reply.
pub fn reply_to_value(alloc: Global, reply: Option<&[i64]>) -> Result<Value, AllocError>
    ensures value { IfOk result (λ v. view v ≡ reply_data (option_copied reply.entry)) }
    ensures fit { OnOk result (IfSome (option_copied reply.entry) (λ values. All (FitsSigned w64) values)) }
{
    match reply {
        Some(values) => integers_to_value(alloc, values),
        None => Ok(Value::Null),
    }
}
