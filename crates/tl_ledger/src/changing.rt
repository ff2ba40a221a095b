// Records in the place of those of their nodes.

ghost use Rattle.std.specs.Prelude.{◌≡◌, ◌<◌, ◌≤◌, ◌^◌, All, OnOk};
ghost use Rattle.sqlite_trees.specs.View.{IsClean, IsQuiet, KeepsSchema};
ghost use Rattle.tl_ledger.specs.News.{Changes};

use crate::appending::put_one;
use crate::rows::ChangedRecord;
use crate::schema::RECORD;
use sqlite_trees::error::StoreError;
use sqlite_trees::store::{Shape, Store};
use sqlite_value::row::Row;

/// Puts each of these records in the place of its node's, where there are so many nodes.
pub fn put_changes<S: Store>(
    store: &mut S,
    row: &mut Row,
    nodes: u64,
    changed: &[ChangedRecord],
) -> Result<(), StoreError>
    requires shape { IsClean (S.Store.view store.old) → (S.Store.view store.old).shape RECORD ≡ Shape.Table }
    requires few { nodes ≤ 2 ^ 62 }
    requires inside { All (λ r. r.node < nodes) changed.now }
    ensures ok { OnOk result (IsClean (S.Store.view store.new) → Changes (S.Store.view store.old) (S.Store.view store.new) nodes changed.now) }
    ensures schema { KeepsSchema (S.Store.view store.old) (S.Store.view store.new) }
    ensures quiet { IsQuiet S.Store.view S.Store.faults S.Store.recovers S.Store.is_shielded store.old store.new }
{
    for change in changed {
        put_one(store, row, RECORD, change.node, &change.row)?;
    }
    Ok(())
}
