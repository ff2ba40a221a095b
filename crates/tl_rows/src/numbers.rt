// Numbers as JSON text, and numbers of epochs.

ghost use Rattle.std.specs.Prelude.{◌≡◌, pos, Some, option_map, string_bytes, IsTrue, IfOk};
ghost use Rattle.serde_json.specs.Written.{compact_text};
ghost use Rattle.tl_tree.specs.Writing.{integers_data};
ghost use Rattle.tl_rows.specs.Rows.{numbers_in};

use std::alloc::{AllocError, Global};
use tl_json::parse_text;
use tl_tree::{integers_from_value, integers_to_value};

/// The text of the list of these numbers, as `[12,17,3]`.
pub fn text_of_numbers(alloc: Global, numbers: &[i64]) -> Result<String, AllocError>
    ensures text { IfOk result (λ s. string_bytes s ≡ compact_text (integers_data numbers.now)) }
    ensures reads_back { IfOk result (λ s. numbers_in (string_bytes s) ≡ Some numbers.now) }
{
    let value = integers_to_value(alloc, numbers)?;
    Ok(value.to_string(alloc)?)
}

/// The numbers of a text that is such a list.
pub fn numbers_of_text(alloc: Global, text: &str) -> Result<Option<Vec<i64>>, AllocError>
    ensures { IfOk result (λ found. option_map (λ v. v.items) found ≡ numbers_in text.now) }
{
    match parse_text(alloc, text)? {
        Some(value) => integers_from_value(alloc, &value),
        None => Ok(None),
    }
}

/// Whether a row's epoch is that one. A row holds it as a number with a sign.
pub fn is_epoch(stored: i64, epoch: u64) -> bool
    ensures same { IsTrue result → stored ≡ pos epoch }
    ensures told { stored ≡ pos epoch → IsTrue result }
{
    match u64::try_from(stored) {
        Ok(stored) => stored == epoch,
        Err(_) => false,
    }
}
