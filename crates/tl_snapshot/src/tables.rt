// The rows of tables, copied one after another.

ghost use Rattle.std.specs.Prelude.{◌≡◌, List, [], Some, IsSome, Err, IfOk, OnOk};
ghost use Rattle.sqlite_trees.specs.Tree.{IsTable};
ghost use Rattle.sqlite_trees.specs.View.{IsClean, IsQuiet, KeepsSchema, OnlyWrites};
ghost use Rattle.sqlite_trees.specs.declared.error.StoreError.{StoreError as Failure};
ghost use Rattle.sqlite_value.specs.Order.{Row as Columns};
ghost use Rattle.tl_ledger.specs.Contents.{OnlyReads, AreTables, Holds, no_contents};
ghost use Rattle.tl_snapshot.specs.Copies.{PutsNext, Fills, IsCopy};
ghost use Rattle.tl_snapshot.specs.declared.fault.CopyFault.TheVariants.{Target};

use crate::fault::CopyFault;
use sqlite_trees::error::StoreError;
use sqlite_trees::store::{Direction, Shape, Store};
use sqlite_value::row::Row;
use sqlite_value::value::ValueRef;
use std::alloc::Global;
use tl_ledger::TABLES;

// Puts the row that the cursor gives next into the table of the other store. False at the cursor's end.
fn copy_next<F: Store, T: Store>(
    from: &mut F,
    to: &mut T,
    row: &mut Row,
    table: u32,
) -> Result<bool, CopyFault>
    requires live { IsSome ((F.Store.view from.old).cursors 0) }
    requires shape { IsClean (T.Store.view to.old) → (T.Store.view to.old).shape table ≡ Shape.Table }
    ensures copied { IfOk result (λ more. IsClean (F.Store.view from.new) → IsClean (T.Store.view to.new)
        → PutsNext (F.Store.view from.old) (F.Store.view from.new) (T.Store.view to.old) (T.Store.view to.new) table more) }
    ensures live { OnOk result (IsSome ((F.Store.view from.new).cursors 0)) }
    ensures reads { OnOk result (IsClean (F.Store.view from.new) → OnlyReads (F.Store.view from.old) (F.Store.view from.new)) }
    ensures still { (error : Failure) → result ≡ Err (Target error) → IsClean (F.Store.view from.new) → OnlyReads (F.Store.view from.old) (F.Store.view from.new) }
    ensures writes { OnOk result (IsClean (T.Store.view to.new) → OnlyWrites (T.Store.view to.old) (T.Store.view to.new)) }
    ensures from_schema { KeepsSchema (F.Store.view from.old) (F.Store.view from.new) }
    ensures to_schema { KeepsSchema (T.Store.view to.old) (T.Store.view to.new) }
    ensures from_quiet { IsQuiet F.Store.view F.Store.faults F.Store.recovers F.Store.is_shielded from.old from.new }
    ensures to_quiet { IsQuiet T.Store.view T.Store.faults T.Store.recovers T.Store.is_shielded to.old to.new }
{
    match from.next(0, row) {
        Ok(true) => {}
        Ok(false) => return Ok(false),
        Err(error) => return Err(CopyFault::Source(error)),
    }
    // Each row of a table has an integer for its number.
    let ValueRef::Int(_) = row.get(0) else {
        return Err(CopyFault::Source(StoreError::Corrupt));
    };
    match to.put(table, row) {
        Ok(()) => Ok(true),
        Err(error) => Err(CopyFault::Target(error)),
    }
}

// Puts the rows that the cursor has still to give into the table of the other store, which has none.
fn copy_rest<F: Store, T: Store>(
    from: &mut F,
    to: &mut T,
    row: &mut Row,
    table: u32,
) -> Result<(), CopyFault>
    requires live { IsSome ((F.Store.view from.old).cursors 0) }
    requires shape { IsClean (T.Store.view to.old) → (T.Store.view to.old).shape table ≡ Shape.Table }
    ensures copied { OnOk result (IsClean (F.Store.view from.new) → IsClean (T.Store.view to.new) → (rows : List Columns) → (F.Store.view from.old).cursors 0 ≡ Some rows
        → IsTable rows → (T.Store.view to.old).trees table ≡ [] → Fills (T.Store.view to.old) (T.Store.view to.new) table rows) }
    ensures reads { OnOk result (IsClean (F.Store.view from.new) → OnlyReads (F.Store.view from.old) (F.Store.view from.new)) }
    ensures still { (error : Failure) → result ≡ Err (Target error) → IsClean (F.Store.view from.new) → OnlyReads (F.Store.view from.old) (F.Store.view from.new) }
    ensures writes { OnOk result (IsClean (T.Store.view to.new) → OnlyWrites (T.Store.view to.old) (T.Store.view to.new)) }
    ensures from_schema { KeepsSchema (F.Store.view from.old) (F.Store.view from.new) }
    ensures to_schema { KeepsSchema (T.Store.view to.old) (T.Store.view to.new) }
    ensures from_quiet { IsQuiet F.Store.view F.Store.faults F.Store.recovers F.Store.is_shielded from.old from.new }
    ensures to_quiet { IsQuiet T.Store.view T.Store.faults T.Store.recovers T.Store.is_shielded to.old to.new }
{
    for _number in 0..u64::MAX {
        if !copy_next(from, to, row, table)? {
            return Ok(());
        }
    }
    Err(CopyFault::Source(StoreError::Full))
}

// Puts the rows of a table into that of the other store, which has none.
fn copy_table<F: Store, T: Store>(
    from: &mut F,
    to: &mut T,
    row: &mut Row,
    table: u32,
) -> Result<(), CopyFault>
    requires from { IsClean (F.Store.view from.old) → (F.Store.view from.old).shape table ≡ Shape.Table }
    requires to { IsClean (T.Store.view to.old) → (T.Store.view to.old).shape table ≡ Shape.Table }
    ensures copied { OnOk result (IsClean (F.Store.view from.new) → IsClean (T.Store.view to.new) → (T.Store.view to.old).trees table ≡ []
        → Fills (T.Store.view to.old) (T.Store.view to.new) table ((F.Store.view from.old).trees table)) }
    ensures reads { OnOk result (IsClean (F.Store.view from.new) → OnlyReads (F.Store.view from.old) (F.Store.view from.new)) }
    ensures still { (error : Failure) → result ≡ Err (Target error) → IsClean (F.Store.view from.new) → OnlyReads (F.Store.view from.old) (F.Store.view from.new) }
    ensures writes { OnOk result (IsClean (T.Store.view to.new) → OnlyWrites (T.Store.view to.old) (T.Store.view to.new)) }
    ensures from_schema { KeepsSchema (F.Store.view from.old) (F.Store.view from.new) }
    ensures to_schema { KeepsSchema (T.Store.view to.old) (T.Store.view to.new) }
    ensures from_quiet { IsQuiet F.Store.view F.Store.faults F.Store.recovers F.Store.is_shielded from.old from.new }
    ensures to_quiet { IsQuiet T.Store.view T.Store.faults T.Store.recovers T.Store.is_shielded to.old to.new }
{
    row.clear();
    if let Err(error) = from.seek(0, table, row, Direction::Forward) {
        return Err(CopyFault::Source(error));
    }
    copy_rest(from, to, row, table)
}

/// Puts the rows of all tables into those of another store, which has none, and commits nothing.
pub(crate) fn copy_tables<F: Store, T: Store>(
    alloc: Global,
    from: &mut F,
    to: &mut T,
) -> Result<(), CopyFault>
    requires from { IsClean (F.Store.view from.old) → AreTables (F.Store.view from.old) }
    requires to { IsClean (T.Store.view to.old) → AreTables (T.Store.view to.old) }
    ensures copied { OnOk result (IsClean (F.Store.view from.new) → IsClean (T.Store.view to.new) → Holds (T.Store.view to.old).trees no_contents
        → IsCopy (F.Store.view from.old).trees (T.Store.view to.new).trees) }
    ensures reads { OnOk result (IsClean (F.Store.view from.new) → OnlyReads (F.Store.view from.old) (F.Store.view from.new)) }
    ensures still { (error : Failure) → result ≡ Err (Target error) → IsClean (F.Store.view from.new) → OnlyReads (F.Store.view from.old) (F.Store.view from.new) }
    ensures writes { OnOk result (IsClean (T.Store.view to.new) → OnlyWrites (T.Store.view to.old) (T.Store.view to.new)) }
    ensures from_schema { KeepsSchema (F.Store.view from.old) (F.Store.view from.new) }
    ensures to_schema { KeepsSchema (T.Store.view to.old) (T.Store.view to.new) }
    ensures from_quiet { IsQuiet F.Store.view F.Store.faults F.Store.recovers F.Store.is_shielded from.old from.new }
    ensures to_quiet { IsQuiet T.Store.view T.Store.faults T.Store.recovers T.Store.is_shielded to.old to.new }
{
    let mut row = Row::new(alloc);
    for table in 0..TABLES {
        copy_table(from, to, &mut row, table as u32)?;
    }
    Ok(())
}
