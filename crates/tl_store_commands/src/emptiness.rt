// Whether a store has no rows.

ghost use Rattle.std.specs.Prelude.{◌≡◌, [], IsTrue, IfOk, OnOk};
ghost use Rattle.sqlite_trees.specs.View.{IsClean, IsQuiet, KeepsSchema};
ghost use Rattle.tl_ledger.specs.Contents.{OnlyReads, Holds, AreTables, no_contents};

use sqlite_trees::error::StoreError;
use sqlite_trees::store::{Direction, Shape, Store};
use sqlite_value::row::Row;
use std::alloc::Global;
use tl_ledger::TABLES;

// Whether a table has no rows.
fn is_empty<S: Store>(store: &mut S, row: &mut Row, table: u32) -> Result<bool, StoreError>
    requires { IsClean (S.Store.view store.old) → (S.Store.view store.old).shape table ≡ Shape.Table }
    ensures none { IfOk result (λ is. IsTrue is → IsClean (S.Store.view store.new) → (S.Store.view store.old).trees table ≡ []) }
    ensures reads { OnOk result (IsClean (S.Store.view store.new) → OnlyReads (S.Store.view store.old) (S.Store.view store.new)) }
    ensures schema { KeepsSchema (S.Store.view store.old) (S.Store.view store.new) }
    ensures quiet { IsQuiet S.Store.view S.Store.faults S.Store.recovers S.Store.is_shielded store.old store.new }
{
    row.clear();
    store.seek(0, table, row, Direction::Forward)?;
    let found = store.next(0, row)?;
    Ok(!found)
}

/// Whether no table of a store has a row: it was made, and its first contents were not written.
pub fn has_no_rows<S: Store>(alloc: Global, store: &mut S) -> Result<bool, StoreError>
    requires { IsClean (S.Store.view store.old) → AreTables (S.Store.view store.old) }
    ensures none { IfOk result (λ is. IsTrue is → IsClean (S.Store.view store.new) → Holds (S.Store.view store.old).trees no_contents) }
    ensures reads { OnOk result (IsClean (S.Store.view store.new) → OnlyReads (S.Store.view store.old) (S.Store.view store.new)) }
    ensures schema { KeepsSchema (S.Store.view store.old) (S.Store.view store.new) }
    ensures quiet { IsQuiet S.Store.view S.Store.faults S.Store.recovers S.Store.is_shielded store.old store.new }
{
    let mut row = Row::new(alloc);
    for table in 0..TABLES {
        if !is_empty(store, &mut row, table as u32)? {
            return Ok(false);
        }
    }
    Ok(true)
}
