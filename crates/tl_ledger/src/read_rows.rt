// The kinds of rows, read. Of each row an item is made, with zeros and empty texts where the row has none; it is the item's row if it is what the item is written as.

ghost use Rattle.std.specs.Prelude.{◌≡◌, ℤ, String as Words, List, ℕ, IfOk, string_bytes, Option};
ghost use Rattle.std.specs.declared.alloc.Global.{Global as Heap};
ghost use Rattle.sqlite_value.specs.Order.{column};
ghost use Rattle.sqlite_value.specs.declared.value.Value.TheVariants.{Int, Text, Blob};
ghost use Rattle.tl_ledger.specs.News.{key_column};

use crate::reading::{ReadEntry, if_row_of};
use crate::rows::{CallRow, FIELDS, NodeRow, ProcedureRow, RecordRow, ReplyRow, SealRow, TurnRow};
use sqlite_value::row::Row;
use sqlite_value::value::ValueRef;
use std::alloc::{AllocError, Global};

// The integer of a column; 0 if it is none.
fn integer_at(row: &Row, at: usize) -> i64
    ensures { (number : ℤ) → column row.now at ≡ Int number → result ≡ number }
{
    match row.get(at) {
        ValueRef::Int(number) => number,
        _ => 0,
    }
}

// The text of a column; an empty one if it is none.
fn text_at(alloc: Global, row: &Row, at: usize) -> Result<String, AllocError>
    ensures { (text : Words Heap) → column row.now at ≡ Text (string_bytes text) → IfOk result (λ t. string_bytes t ≡ string_bytes text) }
{
    match row.get(at) {
        ValueRef::Text(bytes) => String::from_str(alloc, str::from_utf8(bytes).unwrap_or("")),
        _ => Ok(String::new(alloc)),
    }
}

// The bytes of a column; none if it has none.
fn bytes_at(alloc: Global, row: &Row, at: usize) -> Result<Vec<u8>, AllocError>
    ensures { (bytes : List ℕ) → column row.now at ≡ Blob bytes → IfOk result (λ v. v.items ≡ bytes) }
{
    match row.get(at) {
        ValueRef::Blob(bytes) => Vec::from_slice(alloc, bytes),
        _ => Ok(Vec::new(alloc)),
    }
}

// The key of a column, if it has one.
fn key_at(alloc: Global, row: &Row, at: usize) -> Result<Option<String>, AllocError>
    ensures { (key : Option (Words Heap)) → column row.now at ≡ key_column key → IfOk result (λ k. key_column k ≡ key_column key) }
{
    match row.get(at) {
        ValueRef::Text(_) => Ok(Some(text_at(alloc, row, at)?)),
        _ => Ok(None),
    }
}

impl ReadEntry for ProcedureRow {
    ghost is_whole = { λ _. Unit {0} };

    fn read(alloc: Global, row: &Row) -> Result<Option<ProcedureRow>, AllocError> {
        let procedure = ProcedureRow {
            name: text_at(alloc, row, 2)?,
            container: bytes_at(alloc, row, 3)?,
        };
        if_row_of(alloc, procedure, row)
    }
}

impl ReadEntry for CallRow {
    ghost is_whole = { λ _. Unit {0} };

    fn read(alloc: Global, row: &Row) -> Result<Option<CallRow>, AllocError> {
        let call = CallRow {
            epoch: integer_at(row, 2),
            number: integer_at(row, 3),
            procedure: text_at(alloc, row, 4)?,
            arguments: text_at(alloc, row, 5)?,
            key: key_at(alloc, row, 6)?,
        };
        if_row_of(alloc, call, row)
    }
}

impl ReadEntry for TurnRow {
    ghost is_whole = { λ _. Unit {0} };

    fn read(alloc: Global, row: &Row) -> Result<Option<TurnRow>, AllocError> {
        let turns = TurnRow {
            epoch: integer_at(row, 2),
            calls: bytes_at(alloc, row, 3)?,
        };
        if_row_of(alloc, turns, row)
    }
}

impl ReadEntry for ReplyRow {
    ghost is_whole = { λ _. Unit {0} };

    fn read(alloc: Global, row: &Row) -> Result<Option<ReplyRow>, AllocError> {
        let reply = ReplyRow {
            epoch: integer_at(row, 2),
            call: integer_at(row, 3),
            reply: text_at(alloc, row, 4)?,
        };
        if_row_of(alloc, reply, row)
    }
}

impl ReadEntry for NodeRow {
    ghost is_whole = { λ _. Unit {0} };

    fn read(alloc: Global, row: &Row) -> Result<Option<NodeRow>, AllocError> {
        let node = NodeRow {
            parent: integer_at(row, 2),
            epoch: integer_at(row, 3),
        };
        if_row_of(alloc, node, row)
    }
}

impl ReadEntry for RecordRow {
    ghost use Rattle.std.specs.Prelude.{length};
    ghost use Rattle.tl_ledger.specs.declared.rows.TheConstants.{FIELDS};

    ghost is_whole = { λ r. length r.fields ≡ FIELDS };

    fn read(alloc: Global, row: &Row) -> Result<Option<RecordRow>, AllocError> {
        let mut fields = [0; FIELDS];
        for number in 0..FIELDS {
            fields[number] = integer_at(row, number + 2);
        }
        if_row_of(alloc, RecordRow { fields }, row)
    }
}

impl ReadEntry for SealRow {
    ghost is_whole = { λ _. Unit {0} };

    fn read(alloc: Global, row: &Row) -> Result<Option<SealRow>, AllocError> {
        let seal = SealRow {
            procedures: integer_at(row, 2),
            calls: integer_at(row, 3),
            turns: integer_at(row, 4),
            replies: integer_at(row, 5),
        };
        if_row_of(alloc, seal, row)
    }
}
