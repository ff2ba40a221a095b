// The table.

ghost use Rattle.std.specs.Prelude.{◌≡◌, ◌↔◌, ℤ, string_bytes, IsTrue, IfOk, IfSome, IfNone, OnOk};
ghost use Rattle.sqlite_trees.specs.View.{IsClean, IsQuiet, KeepsSchema, OnlyWrites};
ghost use Rattle.tl_key_table.specs.declared.row.KeyRow.{KeyRow as Kept};
ghost use Rattle.tl_key_table.specs.KeyTable.{HasUnder};

use crate::row::{KeyRow, is_row, write_row};
use sqlite_trees::error::StoreError;
use sqlite_trees::store::{Shape, Store};
use sqlite_value::row::Row;
use sqlite_value::value::ValueRef;
use std::alloc::Global;

/// The table of keys, the only one of its store.
pub const KEY: u32 = 0;

/// Puts what came of a call under its key's number. False, with nothing written, if the number is taken: by this key, or by another one with its number.
pub fn put_key<S: Store>(
    store: &mut S,
    row: &mut Row,
    number: i64,
    entry: &KeyRow,
) -> Result<bool, StoreError>
    requires { IsClean (S.Store.view store.old) → (S.Store.view store.old).shape KEY ≡ Shape.Table }
    ensures has { IfOk result (λ done. IsTrue done → IsClean (S.Store.view store.new) → HasUnder ((S.Store.view store.new).trees KEY) number entry.now) }
    ensures stay { IfOk result (λ done. IsTrue done → IsClean (S.Store.view store.new) → (n : ℤ) (k : Kept) → HasUnder ((S.Store.view store.old).trees KEY) n k
        → HasUnder ((S.Store.view store.new).trees KEY) n k) }
    ensures schema { KeepsSchema (S.Store.view store.old) (S.Store.view store.new) }
    ensures quiet { IsQuiet S.Store.view S.Store.faults S.Store.recovers S.Store.is_shielded store.old store.new }
{
    if store.get(KEY, number, row)? {
        return Ok(false);
    }
    write_row(row, number, entry)?;
    store.put(KEY, row)?;
    Ok(true)
}

// Whether two texts have the same bytes.
fn are_same(found: &[u8], key: &[u8]) -> bool
    ensures { IsTrue result ↔ (found.now ≡ key.now) }
{
    found == key
}

// The row's columns, whatever they are.
fn entry_of(alloc: Global, row: &Row, key: &str) -> Result<Option<KeyRow>, StoreError>
    ensures { IfOk result (λ o. IfSome o (λ e. string_bytes e.key ≡ key.now)) }
{
    let (ValueRef::Int(epoch), ValueRef::Int(call), ValueRef::Text(reply)) = (
        row.get(3),
        row.get(4),
        row.get(5),
    ) else {
        return Ok(None);
    };
    let Ok(reply) = str::from_utf8(reply) else {
        return Ok(None);
    };
    Ok(Some(KeyRow {
        key: String::from_str(alloc, key)?,
        epoch,
        call,
        reply: String::from_str(alloc, reply)?,
    }))
}

/// What came of the call that had the key with that number; none if no call in the table had it. One row is looked at, in as many steps as the tree is
/// high. `Corrupt` if the row has another form.
pub fn find_key<S: Store>(
    alloc: Global,
    store: &mut S,
    row: &mut Row,
    number: i64,
    key: &str,
) -> Result<Option<KeyRow>, StoreError>
    requires { IsClean (S.Store.view store.old) → (S.Store.view store.old).shape KEY ≡ Shape.Table }
    ensures some { IfOk result (λ o. IfSome o (λ e. (string_bytes e.key ≡ key.now) × (IsClean (S.Store.view store.new) → HasUnder ((S.Store.view store.old).trees KEY) number e))) }
    ensures none { IfOk result (λ o. IfNone o (IsClean (S.Store.view store.new) → (k : Kept) → string_bytes k.key ≡ key.now → HasUnder ((S.Store.view store.old).trees KEY) number k → ⊥)) }
    ensures same { OnOk result (IsClean (S.Store.view store.new) → S.Store.view store.new ≡ S.Store.view store.old) }
    ensures schema { KeepsSchema (S.Store.view store.old) (S.Store.view store.new) }
    ensures quiet { IsQuiet S.Store.view S.Store.faults S.Store.recovers S.Store.is_shielded store.old store.new }
{
    if !store.get(KEY, number, row)? {
        return Ok(None);
    }
    let ValueRef::Text(found) = row.get(2) else {
        return Err(StoreError::Corrupt);
    };
    if !are_same(found, key.as_bytes()) {
        return Ok(None);
    }
    let Some(entry) = entry_of(alloc, row, key)? else {
        return Err(StoreError::Corrupt);
    };
    if is_row(alloc, row, number, &entry)? {
        Ok(Some(entry))
    } else {
        Err(StoreError::Corrupt)
    }
}
