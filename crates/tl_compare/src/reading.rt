// The rows of an epoch that is sealed.

ghost use Rattle.std.specs.Prelude.{◌≡◌, List, length, get_or, pos, IfOk, OnOk};
ghost use Rattle.sqlite_trees.specs.View.{IsClean, IsQuiet, KeepsSchema};
ghost use Rattle.sqlite_value.specs.Order.{Row as Columns};
ghost use Rattle.tl_ledger.specs.Contents.{OnlyReads, Contents, Holds, AreTables};
ghost use Rattle.tl_ledger.specs.News.{IsMarked};
ghost use Rattle.tl_ledger.specs.Rows.{rows_from};
ghost use Rattle.tl_compare.specs.Epochs.{IsSealAt, IsSealBefore, AreBetween, AreEpochRows};

use sqlite_trees::store::{Shape, Store};
use std::alloc::Global;
use tl_ledger::{
    CALL, CallRow, Marks, PROCEDURE, ProcedureRow, REPLY, ReadEntry, ReplyRow, SEAL, SealRow, TURN,
    TurnRow, read_some,
};
use tl_store::StoreFault;

/// What a store has of an epoch that is sealed: the calls, turns and replies that its seal counts and the seal before doesn't, and all procedures that its
/// seal counts.
#[derive(Debug, Drop)]
pub struct EpochRows {
    pub epoch: u64,
    pub procedures: Vec<ProcedureRow>,
    pub calls: Vec<CallRow>,
    pub turns: Vec<TurnRow>,
    pub replies: Vec<ReplyRow>,
}

// A count of a seal. 1003 if it is below 0.
fn count_of(number: i64) -> Result<u64, StoreFault>
    ensures { IfOk result (λ n. number ≡ pos n) }
{
    match u64::try_from(number) {
        Ok(count) => Ok(count),
        Err(_) => Err(StoreFault::BadRow { table: SEAL }),
    }
}

// The rows of a table between two counts of a seal, where there are so many rows in all.
fn read_between<S: Store, T: ReadEntry + Drop>(
    alloc: Global,
    store: &mut S,
    table: u32,
    count: u64,
    first: i64,
    last: i64,
) -> Result<Vec<T>, StoreFault>
    requires { IsClean (S.Store.view store.old) → (S.Store.view store.old).shape table ≡ Shape.Table }
    ensures rows { IfOk result (λ items. IsClean (S.Store.view store.new) → (rows : List Columns) → (S.Store.view store.old).trees table ≡ rows_from 0 rows → length rows ≡ count
        → AreBetween T.Entry.columns rows first last items.items) }
    ensures reads { OnOk result (IsClean (S.Store.view store.new) → OnlyReads (S.Store.view store.old) (S.Store.view store.new)) }
    ensures schema { KeepsSchema (S.Store.view store.old) (S.Store.view store.new) }
    ensures quiet { IsQuiet S.Store.view S.Store.faults S.Store.recovers S.Store.is_shielded store.old store.new }
{
    let from = count_of(first)?;
    let to = count_of(last)?;
    if from > to || to > count {
        return Err(StoreFault::BadRow { table: SEAL });
    }
    Ok(read_some(alloc, store, table, from, to)?)
}

// The only one of these seals.
fn only_seal(seals: &[SealRow]) -> SealRow
    requires { length seals.now ≡ 1 }
    ensures { result ≡ get_or seals.now 0 result }
{
    seals[0]
}

// The seal of an epoch, where there are so many seals.
fn read_seal<S: Store>(
    alloc: Global,
    store: &mut S,
    count: u64,
    epoch: u64,
) -> Result<SealRow, StoreFault>
    requires { IsClean (S.Store.view store.old) → (S.Store.view store.old).shape SEAL ≡ Shape.Table }
    ensures seal { IfOk result (λ seal. IsClean (S.Store.view store.new) → (c : Contents) → Holds (S.Store.view store.old).trees c → length (c SEAL) ≡ count → IsSealAt c epoch seal) }
    ensures reads { OnOk result (IsClean (S.Store.view store.new) → OnlyReads (S.Store.view store.old) (S.Store.view store.new)) }
    ensures schema { KeepsSchema (S.Store.view store.old) (S.Store.view store.new) }
    ensures quiet { IsQuiet S.Store.view S.Store.faults S.Store.recovers S.Store.is_shielded store.old store.new }
{
    if epoch >= count {
        return Err(StoreFault::BadRow { table: SEAL });
    }
    let seals: Vec<SealRow> = read_some(alloc, store, SEAL, epoch, epoch + 1)?;
    Ok(only_seal(seals.as_slice()))
}

// The seal of the epoch before; before the first epoch nothing was counted.
fn read_seal_before<S: Store>(
    alloc: Global,
    store: &mut S,
    count: u64,
    epoch: u64,
) -> Result<SealRow, StoreFault>
    requires { IsClean (S.Store.view store.old) → (S.Store.view store.old).shape SEAL ≡ Shape.Table }
    ensures seal { IfOk result (λ seal. IsClean (S.Store.view store.new) → (c : Contents) → Holds (S.Store.view store.old).trees c → length (c SEAL) ≡ count → IsSealBefore c epoch seal) }
    ensures reads { OnOk result (IsClean (S.Store.view store.new) → OnlyReads (S.Store.view store.old) (S.Store.view store.new)) }
    ensures schema { KeepsSchema (S.Store.view store.old) (S.Store.view store.new) }
    ensures quiet { IsQuiet S.Store.view S.Store.faults S.Store.recovers S.Store.is_shielded store.old store.new }
{
    if epoch == 0 {
        return Ok(SealRow {
            procedures: 0,
            calls: 0,
            turns: 0,
            replies: 0,
        });
    }
    read_seal(alloc, store, count, epoch - 1)
}

/// Reads what a store with so many rows has of an epoch that is sealed. 1003 and the table if it has no such seal, the seal's counts are less than those of the
/// one before or more than there are rows, or a row has another form; 1011 to 1013 of the disk; 1090 if memory is refused.
pub fn read_epoch<S: Store>(
    alloc: Global,
    store: &mut S,
    marks: &Marks,
    epoch: u64,
) -> Result<EpochRows, StoreFault>
    requires { IsClean (S.Store.view store.old) → AreTables (S.Store.view store.old) }
    ensures rows { IfOk result (λ r. IsClean (S.Store.view store.new) → (c : Contents) → Holds (S.Store.view store.old).trees c → IsMarked c marks.now → AreEpochRows c epoch r) }
    ensures reads { OnOk result (IsClean (S.Store.view store.new) → OnlyReads (S.Store.view store.old) (S.Store.view store.new)) }
    ensures schema { KeepsSchema (S.Store.view store.old) (S.Store.view store.new) }
    ensures quiet { IsQuiet S.Store.view S.Store.faults S.Store.recovers S.Store.is_shielded store.old store.new }
{
    let before = read_seal_before(alloc, store, marks.seals, epoch)?;
    let own = read_seal(alloc, store, marks.seals, epoch)?;
    Ok(EpochRows {
        epoch,
        procedures: read_between(alloc, store, PROCEDURE, marks.procedures, 0, own.procedures)?,
        calls: read_between(alloc, store, CALL, marks.calls, before.calls, own.calls)?,
        turns: read_between(alloc, store, TURN, marks.turns, before.turns, own.turns)?,
        replies: read_between(
            alloc,
            store,
            REPLY,
            marks.replies,
            before.replies,
            own.replies,
        )?,
    })
}
