// What a follower gets.

ghost use Rattle.std.specs.Prelude.{◌≡◌, ◌≢◌, ◌↔◌, [], map, Err, Some, None, IsSome, IsTrue, IfOk, IfSome, OnOk};
ghost use Rattle.sqlite_trees.specs.View.{IsClean, IsQuiet, KeepsSchema};
ghost use Rattle.tl_follow.specs.Positions.{IsUpTo, IsNext, AreBetween};
ghost use Rattle.tl_follow.specs.declared.fault.FollowFault.TheVariants.{NotThere};
ghost use Rattle.tl_ledger.specs.Contents.{OnlyReads, Contents, Holds, AreTables};
ghost use Rattle.tl_ledger.specs.News.{IsMarked, record_columns};
ghost use Rattle.tl_ledger.specs.Rows.{rows_from};
ghost use Rattle.tl_ledger.specs.declared.schema.TheConstants.{RECORD, OPENING};

use crate::behind::rows_behind;
use crate::fault::FollowFault;
use crate::rows::Rows;
use sqlite_trees::store::{Shape, Store};
use std::alloc::Global;
use tl_ledger::{Marks, OPENING, RECORD, RecordRow, read_all};

/// What a store has behind a position.
#[derive(Debug, Drop)]
pub struct Found {
    /// The rows behind the position.
    pub rows: Rows,
    /// The records at the last seal, if that is the last one before the position behind the rows, and the follower has those of another seal.
    pub records: Option<Vec<RecordRow>>,
    /// The records of the first tree, if no node is before the position.
    pub opening: Option<Vec<RecordRow>>,
}

impl Found {
    /// Nothing, up to that place.
    pub fn nothing(alloc: Global, to: Marks) -> Found
        ensures to { result.rows.to ≡ to }
        ensures rows { (result.rows.nodes.items ≡ []) × (result.rows.procedures.items ≡ []) × (result.rows.calls.items ≡ []) × (result.rows.turns.items ≡ [])
            × (result.rows.replies.items ≡ []) × (result.rows.seals.items ≡ []) }
        ensures records { (result.records ≡ None) × (result.opening ≡ None) }
    {
        Found {
            rows: Rows {
                nodes: Vec::new(alloc),
                procedures: Vec::new(alloc),
                calls: Vec::new(alloc),
                turns: Vec::new(alloc),
                replies: Vec::new(alloc),
                seals: Vec::new(alloc),
                to,
            },
            records: None,
            opening: None,
        }
    }
}

// The records of a table, if they are wanted.
fn records_if<S: Store>(
    alloc: Global,
    store: &mut S,
    table: u32,
    are_wanted: bool,
) -> Result<Option<Vec<RecordRow>>, FollowFault>
    requires { IsClean (S.Store.view store.old) → (S.Store.view store.old).shape table ≡ Shape.Table }
    ensures records { IfOk result (λ o. IfSome o (λ v. IsClean (S.Store.view store.new)
        → (S.Store.view store.old).trees table ≡ rows_from 0 (map record_columns v.items))) }
    ensures wanted { IfOk result (λ o. IsSome o ↔ IsTrue are_wanted) }
    ensures reads { OnOk result (IsClean (S.Store.view store.new) → OnlyReads (S.Store.view store.old) (S.Store.view store.new)) }
    ensures schema { KeepsSchema (S.Store.view store.old) (S.Store.view store.new) }
    ensures quiet { IsQuiet S.Store.view S.Store.faults S.Store.recovers S.Store.is_shielded store.old store.new }
    ensures fault { result ≢ Err NotThere }
{
    if are_wanted {
        Ok(Some(read_all(alloc, store, table)?))
    } else {
        Ok(None)
    }
}

/// What a store has behind a position, where it has as many rows as `stored` says, and the follower has the records after so many seals, or none.
pub fn find_behind<S: Store>(
    alloc: Global,
    store: &mut S,
    stored: &Marks,
    from: &Marks,
    records: Option<u64>,
) -> Result<Found, FollowFault>
    requires { IsClean (S.Store.view store.old) → AreTables (S.Store.view store.old) }
    ensures order { IfOk result (λ f. IsUpTo from.now f.rows.to × IsUpTo f.rows.to stored.now) }
    ensures next { IfOk result (λ f. IsClean (S.Store.view store.new) → (c : Contents) → Holds (S.Store.view store.old).trees c → IsMarked c stored.now
        → IsNext c stored.now from.now f.rows.to) }
    ensures rows { IfOk result (λ f. IsClean (S.Store.view store.new) → (c : Contents) → Holds (S.Store.view store.old).trees c → IsMarked c stored.now
        → AreBetween c from.now f.rows.to f.rows) }
    ensures records { IfOk result (λ f. IfSome f.records (λ v. IsClean (S.Store.view store.new)
        → (S.Store.view store.old).trees RECORD ≡ rows_from 0 (map record_columns v.items))) }
    ensures told { IfOk result (λ f. IsSome f.records ↔ (f.rows.to.seals ≡ stored.now.seals) × (records ≢ Some stored.now.seals)) }
    ensures opening { IfOk result (λ f. IfSome f.opening (λ v. IsClean (S.Store.view store.new)
        → (S.Store.view store.old).trees OPENING ≡ rows_from 0 (map record_columns v.items))) }
    ensures begins { IfOk result (λ f. IsSome f.opening ↔ from.now.nodes ≡ 0) }
    ensures reads { OnOk result (IsClean (S.Store.view store.new) → OnlyReads (S.Store.view store.old) (S.Store.view store.new)) }
    ensures still { result ≡ Err NotThere → IsClean (S.Store.view store.new) → OnlyReads (S.Store.view store.old) (S.Store.view store.new) }
    ensures schema { KeepsSchema (S.Store.view store.old) (S.Store.view store.new) }
    ensures quiet { IsQuiet S.Store.view S.Store.faults S.Store.recovers S.Store.is_shielded store.old store.new }
{
    let rows = rows_behind(alloc, store, stored, from)?;
    let is_last = rows.to.seals == stored.seals;
    let records = records_if(
        alloc,
        store,
        RECORD,
        is_last && records != Some(stored.seals),
    )?;
    let opening = records_if(alloc, store, OPENING, from.nodes == 0)?;
    Ok(Found {
        rows,
        records,
        opening,
    })
}
