// The rows of a table, read in their order.

ghost use Rattle.std.specs.Prelude.{All, ◌≡◌, ◌<◌, ◌≤◌, ◌^◌, List, [], ◌∷◌, pos, ◌+◌, map, length, drop, true, false, Some, IsSome, IsTrue, IfOk, IfErr, IfSome, IfNone, OnOk};
ghost use Rattle.sqlite_trees.specs.View.{IsClean, IsQuiet, KeepsSchema, Advances};
ghost use Rattle.sqlite_value.specs.Order.{column, Row as Columns};
ghost use Rattle.sqlite_value.specs.declared.value.Value.{Value};
ghost use Rattle.sqlite_value.specs.declared.value.Value.TheVariants.{Int};
ghost use Rattle.tl_ledger.specs.Contents.{OnlyReads};
ghost use Rattle.tl_ledger.specs.Entries.{IsOfStore, BeginsWithEntry};
ghost use Rattle.tl_ledger.specs.Rows.{rows_from, IsNumbered};
ghost use Rattle.tl_ledger.specs.declared.reading.ReadFault.TheVariants.{Store as Failed};
ghost use Rattle.sqlite_trees.specs.declared.error.StoreError.TheVariants.{OutOfMemory};

use crate::entry::Entry;
use sqlite_trees::error::StoreError;
use sqlite_trees::store::{Direction, Shape, Store};
use sqlite_value::row::Row;
use sqlite_value::value::ValueRef;
use std::alloc::{AllocError, Global};

/// What can be read from a table's row.
pub trait ReadEntry: Entry {
    /// What its parts fulfil, as far as their types don't say it.
    ghost is_whole: { Self → Type 0 };

    /// Reads the columns behind the row's number. None if they are no such columns.
    fn read(alloc: Global, row: &Row) -> Result<Option<Self>, AllocError>
        ensures same { IfOk result (λ o. IfSome o (λ x. (number : _) → column row.now 0 ≡ number → IsNumbered row.now number (Self.Entry.columns x))) }
        ensures again { (x : Self) (number : Value) → is_whole x → IsNumbered row.now number (Self.Entry.columns x) → IfOk result IsSome };
}

// Whether the row is the one that the item is written as, whatever its number.
fn is_row_of<T: Entry>(alloc: Global, item: &T, row: &Row) -> Result<bool, AllocError>
    ensures same { IfOk result (λ same. IsTrue same → IsNumbered row.now (column row.now 0) (T.Entry.columns item.now)) }
    ensures again { IsNumbered row.now (column row.now 0) (T.Entry.columns item.now) → IfOk result IsTrue }
{
    let mut written = Row::new(alloc);
    written.push(row.get(0))?;
    item.push_to(&mut written)?;
    Ok(written.is_same(row))
}

// The item, if the row is the one that it is written as.
pub(crate) fn if_row_of<T: Entry + Drop>(
    alloc: Global,
    item: T,
    row: &Row,
) -> Result<Option<T>, AllocError>
    ensures same { IfOk result (λ o. IfSome o (λ x. (number : Value) → column row.now 0 ≡ number → IsNumbered row.now number (T.Entry.columns x))) }
    ensures again { IsNumbered row.now (column row.now 0) (T.Entry.columns item) → IfOk result IsSome }
{
    if is_row_of(alloc, &item, row)? {
        Ok(Some(item))
    } else {
        Ok(None)
    }
}

/// How many rows a table has at most.
pub(crate) const MAX_ROWS: u64 = 1 << 62;

/// Why a table isn't read.
#[derive(Clone, Copy, Debug, PartialEq, Eq)]
pub enum ReadFault {
    /// The store fails.
    Store(StoreError),
    /// A row of that table isn't one that this program writes.
    NotRows { table: u32 },
}

impl From<AllocError> for ReadFault {
    ghost from_gives = { λ _ e. e ≡ Failed OutOfMemory };

    fn from(_: AllocError) -> ReadFault {
        ReadFault::Store(StoreError::OutOfMemory)
    }
}

impl From<StoreError> for ReadFault {
    ghost from_gives = { λ error e. e ≡ Failed error };

    fn from(error: StoreError) -> ReadFault {
        ReadFault::Store(error)
    }
}

// The item of the cursor's next row, which has to have that number; none at the end.
pub(crate) fn next_item<S: Store, T: ReadEntry + Drop>(
    alloc: Global,
    store: &mut S,
    row: &mut Row,
    table: u32,
    number: u64,
) -> Result<Option<T>, ReadFault>
    requires live { IsSome ((S.Store.view store.old).cursors 0) }
    requires small { number ≤ 2 ^ 62 }
    ensures some { IfOk result (λ o. IfSome o (λ x. IsClean (S.Store.view store.new)
        → Advances (S.Store.view store.old) (S.Store.view store.new) 0 (Int (pos number) ∷ T.Entry.columns x) true)) }
    ensures none { IfOk result (λ o. IfNone o (IsClean (S.Store.view store.new)
        → Advances (S.Store.view store.old) (S.Store.view store.new) 0 [] false)) }
    ensures again { IfErr result (λ e. IsClean (S.Store.view store.new) → (left : List Columns) → (S.Store.view store.old).cursors 0 ≡ Some left
        → BeginsWithEntry T.ReadEntry.is_whole T.Entry.columns number left → IsOfStore e) }
    ensures live { OnOk result (IsSome ((S.Store.view store.new).cursors 0)) }
    ensures schema { KeepsSchema (S.Store.view store.old) (S.Store.view store.new) }
    ensures quiet { IsQuiet S.Store.view S.Store.faults S.Store.recovers S.Store.is_shielded store.old store.new }
{
    if !store.next(0, row)? {
        return Ok(None);
    }
    let ValueRef::Int(id) = row.get(0) else {
        return Err(ReadFault::NotRows { table });
    };
    if id != number as i64 {
        return Err(ReadFault::NotRows { table });
    }
    match T::read(alloc, row)? {
        Some(item) => Ok(Some(item)),
        None => Err(ReadFault::NotRows { table }),
    }
}

// The rows that the cursor has still to give, which have to be numbered from `first` on.
fn read_rest<S: Store, T: ReadEntry + Drop>(
    alloc: Global,
    store: &mut S,
    row: &mut Row,
    table: u32,
    first: u64,
) -> Result<Vec<T>, ReadFault>
    requires live { IsSome ((S.Store.view store.old).cursors 0) }
    ensures rows { IfOk result (λ items. IsClean (S.Store.view store.new) → (left : List Columns) → (S.Store.view store.old).cursors 0 ≡ Some left
        → left ≡ rows_from first (map T.Entry.columns items.items)) }
    ensures again { IfErr result (λ e. IsClean (S.Store.view store.new) → (xs : List T) → All T.ReadEntry.is_whole xs → first + length xs ≤ MAX_ROWS
        → (S.Store.view store.old).cursors 0 ≡ Some (rows_from first (map T.Entry.columns xs)) → IsOfStore e) }
    ensures reads { OnOk result (IsClean (S.Store.view store.new) → OnlyReads (S.Store.view store.old) (S.Store.view store.new)) }
    ensures schema { KeepsSchema (S.Store.view store.old) (S.Store.view store.new) }
    ensures quiet { IsQuiet S.Store.view S.Store.faults S.Store.recovers S.Store.is_shielded store.old store.new }
{
    let mut items = Vec::new(alloc);
    for number in first..MAX_ROWS + 1 {
        let Some(item) = next_item(alloc, store, row, table, number)? else {
            return Ok(items);
        };
        let Ok(()) = items.push(item) else {
            return Err(ReadFault::Store(StoreError::OutOfMemory));
        };
    }
    Err(ReadFault::NotRows { table })
}

/// All rows of a table whose rows are numbered from 0 on. If they are at most 2^62, and those of entries, only the disk or memory can fail.
pub fn read_all<S: Store, T: ReadEntry + Drop>(
    alloc: Global,
    store: &mut S,
    table: u32,
) -> Result<Vec<T>, ReadFault>
    requires { IsClean (S.Store.view store.old) → (S.Store.view store.old).shape table ≡ Shape.Table }
    ensures rows { IfOk result (λ items. IsClean (S.Store.view store.new) → (S.Store.view store.old).trees table ≡ rows_from 0 (map T.Entry.columns items.items)) }
    ensures again { IfErr result (λ e. IsClean (S.Store.view store.new) → (xs : List T) → All T.ReadEntry.is_whole xs → length xs ≤ MAX_ROWS
        → (S.Store.view store.old).trees table ≡ rows_from 0 (map T.Entry.columns xs) → IsOfStore e) }
    ensures reads { OnOk result (IsClean (S.Store.view store.new) → OnlyReads (S.Store.view store.old) (S.Store.view store.new)) }
    ensures schema { KeepsSchema (S.Store.view store.old) (S.Store.view store.new) }
    ensures quiet { IsQuiet S.Store.view S.Store.faults S.Store.recovers S.Store.is_shielded store.old store.new }
{
    let mut row = Row::new(alloc);
    store.seek(0, table, &row, Direction::Forward)?;
    read_rest(alloc, store, &mut row, table, 0)
}

/// The rows from number `first` on, of a table whose rows are numbered from 0 on. The rows before are not read. If there are at most 2^62 rows, and those
/// from there on are of entries, only the disk or memory can fail.
pub fn read_from<S: Store, T: ReadEntry + Drop>(
    alloc: Global,
    store: &mut S,
    table: u32,
    first: u64,
) -> Result<Vec<T>, ReadFault>
    requires { IsClean (S.Store.view store.old) → (S.Store.view store.old).shape table ≡ Shape.Table }
    ensures rows { IfOk result (λ items. IsClean (S.Store.view store.new) → (columns : List Columns) → (S.Store.view store.old).trees table ≡ rows_from 0 columns
        → first ≤ length columns → map T.Entry.columns items.items ≡ drop first columns) }
    ensures again { IfErr result (λ e. IsClean (S.Store.view store.new) → (columns : List Columns) → (S.Store.view store.old).trees table ≡ rows_from 0 columns
        → first ≤ length columns → length columns ≤ MAX_ROWS → (xs : List T) → All T.ReadEntry.is_whole xs → map T.Entry.columns xs ≡ drop first columns → IsOfStore e) }
    ensures reads { OnOk result (IsClean (S.Store.view store.new) → OnlyReads (S.Store.view store.old) (S.Store.view store.new)) }
    ensures schema { KeepsSchema (S.Store.view store.old) (S.Store.view store.new) }
    ensures quiet { IsQuiet S.Store.view S.Store.faults S.Store.recovers S.Store.is_shielded store.old store.new }
{
    if first > MAX_ROWS {
        return Err(ReadFault::NotRows { table });
    }
    let mut row = Row::new(alloc);
    row.push(ValueRef::Int(first as i64))?;
    store.seek(0, table, &row, Direction::Forward)?;
    read_rest(alloc, store, &mut row, table, first)
}
