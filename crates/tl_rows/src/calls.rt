// The row of a call.

ghost use Rattle.std.specs.Prelude.{◌≡◌, Some, option_map, option_copied, string_bytes, IfOk};
ghost use Rattle.tl_rows.specs.Rows.{call_form};

use crate::numbers::text_of_numbers;
use std::alloc::{AllocError, Global};
use tl_ledger::CallRow;

/// The row of a call: its epoch, its number there, its procedure's name, its arguments as JSON text, and its client's key for it.
pub fn call_row(
    alloc: Global,
    epoch: i64,
    number: i64,
    procedure: &str,
    args: &[i64],
    key: Option<&str>,
) -> Result<CallRow, AllocError>
    ensures place { IfOk result (λ row. (row.epoch ≡ epoch) × (row.number ≡ number)) }
    ensures form { IfOk result (λ row. call_form row ≡ (procedure.now, Some args.now)) }
    ensures key { IfOk result (λ row. option_map string_bytes row.key ≡ option_copied key.entry) }
{
    let procedure = String::from_str(alloc, procedure)?;
    let arguments = text_of_numbers(alloc, args)?;
    let key = match key {
        Some(key) => Some(String::from_str(alloc, key)?),
        None => None,
    };
    Ok(CallRow {
        epoch,
        number,
        procedure,
        arguments,
        key,
    })
}
