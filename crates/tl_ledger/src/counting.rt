// The last row of a table, and how many rows there are.

ghost use Rattle.std.specs.Prelude.{◌≡◌, ◌<◌, ◌^◌, ℕ, List, [], pos, length, IsTrue, IsSome, IfOk, IfErr, IfSome, IfNone, OnOk};
ghost use Rattle.sqlite_trees.specs.View.{IsClean, IsQuiet, KeepsSchema};
ghost use Rattle.sqlite_value.specs.Order.{column, Row as Columns};
ghost use Rattle.sqlite_value.specs.declared.value.Value.TheVariants.{Int};
ghost use Rattle.tl_ledger.specs.Contents.{OnlyReads, Contents, Holds, AreTables};
ghost use Rattle.tl_ledger.specs.declared.committing.Marks.{Marks as Marked};
ghost use Rattle.tl_ledger.specs.Entries.{IsOfStore, EndsWithEntry};
ghost use Rattle.tl_ledger.specs.News.{IsMarked};
ghost use Rattle.tl_ledger.specs.Rows.{rows_from, IsLast, IsLastRow};

use crate::committing::Marks;
use crate::reading::{ReadEntry, ReadFault};
use crate::schema::{CALL, NODE, PROCEDURE, RECORD, REPLY, SEAL, TURN};
use sqlite_trees::error::StoreError;
use sqlite_trees::store::{Direction, Shape, Store};
use sqlite_value::row::Row;
use sqlite_value::value::ValueRef;
use std::alloc::Global;

// Reads the last row of a table. False if it has none.
fn last_row<S: Store>(store: &mut S, row: &mut Row, table: u32) -> Result<bool, StoreError>
    requires { IsClean (S.Store.view store.old) → (S.Store.view store.old).shape table ≡ Shape.Table }
    ensures last { IfOk result (λ found. IsClean (S.Store.view store.new) → (columns : List Columns) → (S.Store.view store.old).trees table ≡ rows_from 0 columns
        → IsLastRow columns row.new found) }
    ensures reads { OnOk result (IsClean (S.Store.view store.new) → OnlyReads (S.Store.view store.old) (S.Store.view store.new)) }
    ensures schema { KeepsSchema (S.Store.view store.old) (S.Store.view store.new) }
    ensures quiet { IsQuiet S.Store.view S.Store.faults S.Store.recovers S.Store.is_shielded store.old store.new }
{
    row.clear();
    store.seek(0, table, row, Direction::Backward)?;
    store.next(0, row)
}

// The number of a row.
fn number_of(row: &Row) -> Option<u64>
    ensures number { IfSome result (λ n. column row.now 0 ≡ Int (pos n)) }
    ensures small { IfSome result (λ n. n < 2 ^ 63) }
    ensures again { (n : ℕ) → column row.now 0 ≡ Int (pos n) → IsSome result }
{
    match row.get(0) {
        ValueRef::Int(id) if id >= 0 => Some(id as u64),
        _ => None,
    }
}

/// The last row of a table whose rows are numbered from 0 on, with its number; none if the table has no row. The rows before are not read.
pub fn read_last<S: Store, T: ReadEntry + Drop>(
    alloc: Global,
    store: &mut S,
    table: u32,
) -> Result<Option<(u64, T)>, ReadFault>
    requires { IsClean (S.Store.view store.old) → (S.Store.view store.old).shape table ≡ Shape.Table }
    ensures none { IfOk result (λ o. IfNone o (IsClean (S.Store.view store.new) → (columns : List Columns) → (S.Store.view store.old).trees table ≡ rows_from 0 columns
        → columns ≡ [])) }
    ensures last { IfOk result (λ o. IfSome o (λ l. IsClean (S.Store.view store.new) → (columns : List Columns) → (S.Store.view store.old).trees table ≡ rows_from 0 columns
        → IsLast columns l.0 (T.Entry.columns l.1))) }
    ensures again { IfErr result (λ e. IsClean (S.Store.view store.new) → (columns : List Columns) → (S.Store.view store.old).trees table ≡ rows_from 0 columns
        → EndsWithEntry T.ReadEntry.is_whole T.Entry.columns columns → IsOfStore e) }
    ensures reads { OnOk result (IsClean (S.Store.view store.new) → OnlyReads (S.Store.view store.old) (S.Store.view store.new)) }
    ensures schema { KeepsSchema (S.Store.view store.old) (S.Store.view store.new) }
    ensures quiet { IsQuiet S.Store.view S.Store.faults S.Store.recovers S.Store.is_shielded store.old store.new }
{
    let mut row = Row::new(alloc);
    if !last_row(store, &mut row, table)? {
        return Ok(None);
    }
    let Some(number) = number_of(&row) else {
        return Err(ReadFault::NotRows { table });
    };
    match T::read(alloc, &row)? {
        Some(item) => Ok(Some((number, item))),
        None => Err(ReadFault::NotRows { table }),
    }
}

/// How many rows a table has whose rows are numbered from 0 on: the number of the last one, and one.
pub fn count_rows<S: Store>(store: &mut S, row: &mut Row, table: u32) -> Result<u64, ReadFault>
    requires { IsClean (S.Store.view store.old) → (S.Store.view store.old).shape table ≡ Shape.Table }
    ensures count { IfOk result (λ n. IsClean (S.Store.view store.new) → (columns : List Columns) → (S.Store.view store.old).trees table ≡ rows_from 0 columns
        → length columns ≡ n) }
    ensures again { IfErr result (λ e. IsClean (S.Store.view store.new) → (columns : List Columns) → (S.Store.view store.old).trees table ≡ rows_from 0 columns → IsOfStore e) }
    ensures reads { OnOk result (IsClean (S.Store.view store.new) → OnlyReads (S.Store.view store.old) (S.Store.view store.new)) }
    ensures schema { KeepsSchema (S.Store.view store.old) (S.Store.view store.new) }
    ensures quiet { IsQuiet S.Store.view S.Store.faults S.Store.recovers S.Store.is_shielded store.old store.new }
{
    if !last_row(store, row, table)? {
        return Ok(0);
    }
    match number_of(row) {
        Some(number) => Ok(number + 1),
        None => Err(ReadFault::NotRows { table }),
    }
}

/// How many nodes there are in a store, and how many rows its other tables have that grow.
pub fn marks_of<S: Store>(alloc: Global, store: &mut S) -> Result<Marks, ReadFault>
    requires { IsClean (S.Store.view store.old) → AreTables (S.Store.view store.old) }
    ensures marks { IfOk result (λ marks. IsClean (S.Store.view store.new) → (c : Contents) → Holds (S.Store.view store.old).trees c → IsMarked c marks) }
    ensures again { IfErr result (λ e. IsClean (S.Store.view store.new) → (c : Contents) (marks : Marked) → Holds (S.Store.view store.old).trees c → IsMarked c marks → IsOfStore e) }
    ensures reads { OnOk result (IsClean (S.Store.view store.new) → OnlyReads (S.Store.view store.old) (S.Store.view store.new)) }
    ensures schema { KeepsSchema (S.Store.view store.old) (S.Store.view store.new) }
    ensures quiet { IsQuiet S.Store.view S.Store.faults S.Store.recovers S.Store.is_shielded store.old store.new }
{
    let mut row = Row::new(alloc);
    let nodes = count_rows(store, &mut row, NODE)?;
    if nodes != count_rows(store, &mut row, RECORD)? {
        return Err(ReadFault::NotRows { table: RECORD });
    }
    Ok(Marks {
        nodes,
        procedures: count_rows(store, &mut row, PROCEDURE)?,
        calls: count_rows(store, &mut row, CALL)?,
        turns: count_rows(store, &mut row, TURN)?,
        replies: count_rows(store, &mut row, REPLY)?,
        seals: count_rows(store, &mut row, SEAL)?,
    })
}
