// JSON values: reading texts and lists, and what items stand for.

ghost use Rattle.std.specs.Prelude.{◌≡◌, ◌≢◌, ◌∷◌, [], Option, Some, None, length, map, option_map, IfOk, IfSome, IsUtf8, MatchOption};
ghost use Rattle.serde_json.specs.Data.{Data};
ghost use Rattle.serde_json.specs.Read.{read};
ghost use Rattle.serde_json.specs.View.{view, items_view};
ghost use Rattle.tl_tree.specs.Reading.{each_item};
ghost use Rattle.tl_json.specs.Lists.{each_of};

use serde_json::Value;
use std::alloc::{AllocError, Global};

// ---- texts

/// The value of a JSON text, or `None` if the text isn't JSON.
pub fn parse_text(alloc: Global, text: &str) -> Result<Option<Value>, AllocError>
    ensures { IfOk result (λ found. option_map view found ≡ read text.now) }
{
    match Value::from_str(alloc, text) {
        Ok(value) => Ok(Some(value)),
        Err(error) if error.is_memory() => Err(AllocError),
        Err(_) => Ok(None),
    }
}

/// The value of the bytes of a JSON text, or `None` if they aren't UTF-8 or aren't JSON.
pub fn parse(alloc: Global, bytes: &[u8]) -> Result<Option<Value>, AllocError>
    ensures some { IfOk result (λ found. IfSome found (λ v. IsUtf8 bytes.now × (read bytes.now ≡ Some (view v)))) }
    ensures none { IfOk result (λ found. found ≡ None → IsUtf8 bytes.now → read bytes.now ≡ None) }
{
    match std::str::from_utf8(bytes) {
        Ok(text) => parse_text(alloc, text),
        Err(_) => Ok(None),
    }
}

// ---- reading

/// A form of JSON values. A type of the crate that reads the form implements it itself; for a type from elsewhere, an empty
/// struct stands for the form.
pub trait FromValue {
    /// What a value of the form stands for.
    type Item: Drop;

    // What a contract sees of such an item.
    ghost Form: { Type 0 };

    ghost form: { Self.Item → Self.Form };

    // What a value stands for, if it has the form.
    ghost form_of: { Data → Option Self.Form };

    /// What the value stands for, or `None` if it has another form.
    fn from_value(alloc: Global, value: &Value) -> Result<Option<Self::Item>, AllocError>
        ensures { IfOk result (λ found. option_map Self.form found ≡ Self.form_of (view value.now)) };
}

/// What the items of a list stand for, or `None` if the value isn't a list or an item has another form.
pub fn each_of<T: FromValue>(
    alloc: Global,
    value: &Value,
) -> Result<Option<Vec<T::Item>>, AllocError>
    ensures { IfOk result (λ found. option_map (λ v. map T.form v.items) found ≡ each_of T.form_of (view value.now)) }
{
    match value.as_array() {
        Some(items) => each_item::<T>(alloc, items),
        None => Ok(None),
    }
}

fn each_item<T: FromValue>(
    alloc: Global,
    items: &[Value],
) -> Result<Option<Vec<T::Item>>, AllocError>
    ensures { IfOk result (λ found. option_map (λ v. map T.form v.items) found ≡ each_item T.form_of (items_view items.now)) }
{
    let mut found = Vec::with_capacity(alloc, items.len())?;
    for item in items {
        let Some(one) = T::from_value(alloc, item)? else {
            return Ok(None);
        };
        found.push(one)?;
    }
    Ok(Some(found))
}

/// The items, if there are exactly two.
pub fn two_of(items: &[Value]) -> Option<(&Value, &Value)>
    ensures { MatchOption result (length items.now ≢ 2) (λ found. items.now ≡ found.0.now ∷ found.1.now ∷ []) }
{
    if items.len() != 2 {
        return None;
    }
    Some((&items[0], &items[1]))
}

/// The items, if there are exactly three.
pub fn three_of(items: &[Value]) -> Option<(&Value, &Value, &Value)>
    ensures { MatchOption result (length items.now ≢ 3) (λ found. items.now ≡ found.0.now ∷ found.1.now ∷ found.2.now ∷ []) }
{
    if items.len() != 3 {
        return None;
    }
    Some((&items[0], &items[1], &items[2]))
}

/// The items, if there are exactly four.
pub fn four_of(items: &[Value]) -> Option<(&Value, &Value, &Value, &Value)>
    ensures { MatchOption result (length items.now ≢ 4) (λ found. items.now ≡ found.0.now ∷ found.1.now ∷ found.2.now ∷ found.3.now ∷ []) }
{
    if items.len() != 4 {
        return None;
    }
    Some((&items[0], &items[1], &items[2], &items[3]))
}
