// So many rows of a table, from any of them on.

ghost use Rattle.std.specs.Prelude.{All, ◌≡◌, ◌+◌, ◌≤◌, ◌<◌, List, map, length, take, drop, Some, IsSome, IfOk, IfErr, OnOk};
ghost use Rattle.sqlite_trees.specs.View.{IsClean, IsQuiet, KeepsSchema};
ghost use Rattle.sqlite_value.specs.Order.{Row as Columns};
ghost use Rattle.tl_ledger.specs.Contents.{OnlyReads};
ghost use Rattle.tl_ledger.specs.Entries.{IsOfStore};
ghost use Rattle.tl_ledger.specs.Rows.{rows_from};

use crate::reading::{MAX_ROWS, ReadEntry, ReadFault, next_item};
use sqlite_trees::error::StoreError;
use sqlite_trees::store::{Direction, Shape, Store};
use sqlite_value::row::Row;
use sqlite_value::value::ValueRef;
use std::alloc::Global;

// The next rows that the cursor has to give, which have to be so many, numbered from `first` on.
fn read_next<S: Store, T: ReadEntry + Drop>(
    alloc: Global,
    store: &mut S,
    table: u32,
    first: u64,
    last: u64,
) -> Result<Vec<T>, ReadFault>
    requires live { IsSome ((S.Store.view store.old).cursors 0) }
    requires order { first ≤ last }
    requires small { last ≤ MAX_ROWS }
    ensures rows { IfOk result (λ items. IsClean (S.Store.view store.new) → (columns : List Columns) → (S.Store.view store.old).cursors 0 ≡ Some (rows_from first columns)
        → map T.Entry.columns items.items ≡ take (length items.items) columns) }
    ensures again { IfErr result (λ e. IsClean (S.Store.view store.new) → (xs : List T) → All T.ReadEntry.is_whole xs → last ≤ first + length xs
        → (S.Store.view store.old).cursors 0 ≡ Some (rows_from first (map T.Entry.columns xs)) → IsOfStore e) }
    ensures count { IfOk result (λ items. first + length items.items ≡ last) }
    ensures reads { OnOk result (IsClean (S.Store.view store.new) → OnlyReads (S.Store.view store.old) (S.Store.view store.new)) }
    ensures schema { KeepsSchema (S.Store.view store.old) (S.Store.view store.new) }
    ensures quiet { IsQuiet S.Store.view S.Store.faults S.Store.recovers S.Store.is_shielded store.old store.new }
{
    let mut row = Row::new(alloc);
    let mut items = Vec::new(alloc);
    for number in first..last {
        let Some(item) = next_item(alloc, store, &mut row, table, number)? else {
            return Err(ReadFault::NotRows { table });
        };
        let Ok(()) = items.push(item) else {
            return Err(ReadFault::Store(StoreError::OutOfMemory));
        };
    }
    Ok(items)
}

/// The rows from number `first` on and below `last`, of a table whose rows are numbered from 0 on. No other rows are read. If there are so many rows, at most 2^62,
/// and those from `first` on are of entries, only the disk or memory can fail.
pub fn read_some<S: Store, T: ReadEntry + Drop>(
    alloc: Global,
    store: &mut S,
    table: u32,
    first: u64,
    last: u64,
) -> Result<Vec<T>, ReadFault>
    requires table { IsClean (S.Store.view store.old) → (S.Store.view store.old).shape table ≡ Shape.Table }
    requires order { first ≤ last }
    ensures rows { IfOk result (λ items. IsClean (S.Store.view store.new) → (columns : List Columns) → (S.Store.view store.old).trees table ≡ rows_from 0 columns
        → first ≤ length columns → map T.Entry.columns items.items ≡ take (length items.items) (drop first columns)) }
    ensures again { IfErr result (λ e. IsClean (S.Store.view store.new) → (columns : List Columns) → (S.Store.view store.old).trees table ≡ rows_from 0 columns
        → last ≤ length columns → length columns ≤ MAX_ROWS → (xs : List T) → All T.ReadEntry.is_whole xs → map T.Entry.columns xs ≡ drop first columns → IsOfStore e) }
    ensures count { IfOk result (λ items. first + length items.items ≡ last) }
    ensures reads { OnOk result (IsClean (S.Store.view store.new) → OnlyReads (S.Store.view store.old) (S.Store.view store.new)) }
    ensures schema { KeepsSchema (S.Store.view store.old) (S.Store.view store.new) }
    ensures quiet { IsQuiet S.Store.view S.Store.faults S.Store.recovers S.Store.is_shielded store.old store.new }
{
    if last > MAX_ROWS {
        return Err(ReadFault::NotRows { table });
    }
    let mut row = Row::new(alloc);
    row.push(ValueRef::Int(first as i64))?;
    store.seek(0, table, &row, Direction::Forward)?;
    read_next(alloc, store, table, first, last)
}
