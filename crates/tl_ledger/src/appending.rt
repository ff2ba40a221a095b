// Rows behind those of a table.

ghost use Rattle.std.specs.Prelude.{◌≡◌, ◌+◌, ◌<◌, ◌≤◌, ◌^◌, ◌∷◌, pos, map, length, OnOk};
ghost use Rattle.sqlite_trees.specs.Tree.{put_row};
ghost use Rattle.sqlite_trees.specs.View.{IsClean, IsQuiet, KeepsSchema, SetsTree};
ghost use Rattle.sqlite_value.specs.declared.value.Value.TheVariants.{Int};
ghost use Rattle.tl_ledger.specs.News.{new_columns};
ghost use Rattle.tl_ledger.specs.Rows.{Appends};

use crate::entry::Entry;
use crate::rows::{FIELDS, NodeRow, RecordRow};
use crate::schema::RECORD;
use sqlite_trees::error::StoreError;
use sqlite_trees::store::{Shape, Store};
use sqlite_value::row::Row;
use sqlite_value::value::ValueRef;

// Puts a row of this number.
pub(crate) fn put_one<S: Store, T: Entry>(
    store: &mut S,
    row: &mut Row,
    table: u32,
    number: u64,
    item: &T,
) -> Result<(), StoreError>
    requires shape { IsClean (S.Store.view store.old) → (S.Store.view store.old).shape table ≡ Shape.Table }
    requires small { number < 2 ^ 62 }
    ensures ok { OnOk result (IsClean (S.Store.view store.new) → SetsTree (S.Store.view store.old) (S.Store.view store.new) table (put_row (Int (pos number) ∷ T.columns item.now))) }
    ensures schema { KeepsSchema (S.Store.view store.old) (S.Store.view store.new) }
    ensures quiet { IsQuiet S.Store.view S.Store.faults S.Store.recovers S.Store.is_shielded store.old store.new }
{
    row.clear();
    row.push(ValueRef::Int(number as i64))?;
    item.push_to(row)?;
    store.put(table, row)
}

/// Puts rows of the items behind those of the table, which are `first` in number.
pub fn append_all<S: Store, T: Entry>(
    store: &mut S,
    row: &mut Row,
    table: u32,
    first: u64,
    items: &[T],
) -> Result<(), StoreError>
    requires shape { IsClean (S.Store.view store.old) → (S.Store.view store.old).shape table ≡ Shape.Table }
    requires small { first + length items.now ≤ 2 ^ 62 }
    ensures ok { OnOk result (IsClean (S.Store.view store.new) → Appends (S.Store.view store.old) (S.Store.view store.new) table first (map T.columns items.now)) }
    ensures schema { KeepsSchema (S.Store.view store.old) (S.Store.view store.new) }
    ensures quiet { IsQuiet S.Store.view S.Store.faults S.Store.recovers S.Store.is_shielded store.old store.new }
{
    let mut number = first;
    for item in items {
        put_one(store, row, table, number, item)?;
        number += 1;
    }
    Ok(())
}

/// Puts a record of zeros for each of these nodes behind the records, which are `first` in number.
pub fn append_zeros<S: Store>(
    store: &mut S,
    row: &mut Row,
    first: u64,
    nodes: &[NodeRow],
) -> Result<(), StoreError>
    requires shape { IsClean (S.Store.view store.old) → (S.Store.view store.old).shape RECORD ≡ Shape.Table }
    requires small { first + length nodes.now ≤ 2 ^ 62 }
    ensures ok { OnOk result (IsClean (S.Store.view store.new) → Appends (S.Store.view store.old) (S.Store.view store.new) RECORD first (map new_columns nodes.now)) }
    ensures schema { KeepsSchema (S.Store.view store.old) (S.Store.view store.new) }
    ensures quiet { IsQuiet S.Store.view S.Store.faults S.Store.recovers S.Store.is_shielded store.old store.new }
{
    let zeros = RecordRow {
        fields: [0; FIELDS],
    };
    let mut at = first;
    for _node in nodes {
        put_one(store, row, RECORD, at, &zeros)?;
        at += 1;
    }
    Ok(())
}
