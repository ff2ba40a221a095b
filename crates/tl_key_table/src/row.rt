// The rows.

ghost use Rattle.std.specs.Prelude.{◌≡◌, ◌++◌, ◌∷◌, [], OnOk, IfOk, IsTrue};
ghost use Rattle.sqlite_value.specs.declared.value.Value.TheVariants.{Int};
ghost use Rattle.tl_key_table.specs.KeyTable.{key_columns};

use sqlite_value::row::Row;
use sqlite_value::value::ValueRef;
use std::alloc::{AllocError, Global};

/// What came of a call: its key, its epoch and its number there, and its reply as JSON.
#[derive(Debug, Drop)]
pub struct KeyRow {
    pub key: String,
    pub epoch: i64,
    pub call: i64,
    pub reply: String,
}

/// Writes the row with that number over another.
pub(crate) fn write_row(row: &mut Row, number: i64, entry: &KeyRow) -> Result<(), AllocError>
    ensures { OnOk result (row.new ≡ Int number ∷ key_columns entry.now) }
{
    row.clear();
    row.push(ValueRef::Int(number))?;
    row.push(ValueRef::Null)?;
    row.push(ValueRef::Text(entry.key.as_bytes()))?;
    row.push(ValueRef::Int(entry.epoch))?;
    row.push(ValueRef::Int(entry.call))?;
    row.push(ValueRef::Text(entry.reply.as_bytes()))
}

/// Whether it is the row of that number for the entry.
pub(crate) fn is_row(
    alloc: Global,
    row: &Row,
    number: i64,
    entry: &KeyRow,
) -> Result<bool, AllocError>
    ensures { IfOk result (λ same. IsTrue same → row.now ≡ Int number ∷ key_columns entry.now) }
{
    let mut written = Row::new(alloc);
    write_row(&mut written, number, entry)?;
    Ok(written.is_same(row))
}
