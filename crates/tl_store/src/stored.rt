// The rows of a store that make a core again.

ghost use Rattle.std.specs.Prelude.{◌≡◌, ◌≤◌, ◌^◌, length, IsTrue, IsSome, IfOk, IfErr, IfSome, OnOk};
ghost use Rattle.sqlite_trees.specs.View.{IsClean, IsQuiet, KeepsSchema};
ghost use Rattle.tl_ledger.specs.Contents.{OnlyReads, Contents, Holds, AreTables};
ghost use Rattle.tl_ledger.specs.News.{call_columns, turn_columns, reply_columns};
ghost use Rattle.tl_store.specs.Faults.{IsReadFault, IsDiskOrMemory};
ghost use Rattle.tl_store.specs.declared.stored.Sealed.{Sealed as Counts};
ghost use Rattle.tl_store.specs.Stored.{AreStored, AreBehind, AreEntries, IsReadable, IsLastSeal, counts};

use crate::fault::StoreFault;
use sqlite_trees::store::{Shape, Store};
use std::alloc::Global;
use tl_ledger::{
    CALL, CallRow, Marks, NODE, NodeRow, PROCEDURE, ProcedureRow, RECORD, REPLY, RecordRow,
    ReplyRow, SEAL, SealRow, TURN, TurnRow, marks_of, read_all, read_from, read_last,
};

/// How many rows of calls, turns and replies there were at the last seal; none before the first.
#[derive(Clone, Copy, Debug, PartialEq, Eq)]
pub struct Sealed {
    pub calls: u64,
    pub turns: u64,
    pub replies: u64,
}

/// The rows that make a core again.
#[derive(Debug, Drop)]
pub struct Stored {
    /// How many rows the tables have.
    pub marks: Marks,
    pub nodes: Vec<NodeRow>,
    /// The records at the last seal.
    pub records: Vec<RecordRow>,
    pub procedures: Vec<ProcedureRow>,
    /// The calls behind the last seal.
    pub calls: Vec<CallRow>,
    /// The turns behind the last seal.
    pub turns: Vec<TurnRow>,
    /// The replies behind the last seal.
    pub replies: Vec<ReplyRow>,
}

// The counts of a seal.
fn counts_of(seal: &SealRow) -> Option<Sealed>
    ensures counts { IfSome result (λ s. counts seal.now s) }
    ensures again { (s : Counts) → counts seal.now s → IsSome result }
{
    Some(Sealed {
        calls: u64::try_from(seal.calls).ok()?,
        turns: u64::try_from(seal.turns).ok()?,
        replies: u64::try_from(seal.replies).ok()?,
    })
}

// The counts at the last seal.
fn last_seal<S: Store>(alloc: Global, store: &mut S) -> Result<Sealed, StoreFault>
    requires { IsClean (S.Store.view store.old) → (S.Store.view store.old).shape SEAL ≡ Shape.Table }
    ensures again { IfErr result (λ e. IsClean (S.Store.view store.new) → (c : Contents) (s : Counts) → Holds (S.Store.view store.old).trees c → IsLastSeal c s → IsDiskOrMemory e) }
    ensures sealed { IfOk result (λ s. IsClean (S.Store.view store.new) → (c : Contents) → Holds (S.Store.view store.old).trees c → IsLastSeal c s) }
    ensures reads { OnOk result (IsClean (S.Store.view store.new) → OnlyReads (S.Store.view store.old) (S.Store.view store.new)) }
    ensures schema { KeepsSchema (S.Store.view store.old) (S.Store.view store.new) }
    ensures quiet { IsQuiet S.Store.view S.Store.faults S.Store.recovers S.Store.is_shielded store.old store.new }
    ensures fault { IfErr result IsReadFault }
{
    let last: Option<(u64, SealRow)> = read_last(alloc, store, SEAL)?;
    let Some((_, seal)) = last else {
        return Ok(Sealed {
            calls: 0,
            turns: 0,
            replies: 0,
        });
    };
    match counts_of(&seal) {
        Some(sealed) => Ok(sealed),
        None => Err(StoreFault::BadRow { table: SEAL }),
    }
}

// Whether there are as many rows as at the seal.
fn are_counted(sealed: &Sealed, marks: &Marks) -> bool
    ensures calls { IsTrue result → sealed.now.calls ≤ marks.now.calls }
    ensures turns { IsTrue result → sealed.now.turns ≤ marks.now.turns }
    ensures replies { IsTrue result → sealed.now.replies ≤ marks.now.replies }
    ensures again { sealed.now.calls ≤ marks.now.calls → sealed.now.turns ≤ marks.now.turns → sealed.now.replies ≤ marks.now.replies → IsTrue result }
{
    sealed.calls <= marks.calls && sealed.turns <= marks.turns && sealed.replies <= marks.replies
}

// The rows of calls, turns and replies behind a seal.
#[derive(Debug, Drop)]
struct Behind {
    calls: Vec<CallRow>,
    turns: Vec<TurnRow>,
    replies: Vec<ReplyRow>,
}

// Reads the calls, turns and replies behind those that were sealed. Those before are not read.
fn read_behind<S: Store>(
    alloc: Global,
    store: &mut S,
    sealed: &Sealed,
) -> Result<Behind, StoreFault>
    requires { IsClean (S.Store.view store.old) → AreTables (S.Store.view store.old) }
    ensures again { IfErr result (λ e. IsClean (S.Store.view store.new) → (c : Contents) → Holds (S.Store.view store.old).trees c
        → length (c CALL) ≤ 2 ^ 62 → length (c TURN) ≤ 2 ^ 62 → length (c REPLY) ≤ 2 ^ 62
        → AreEntries call_columns (c CALL) sealed.now.calls → AreEntries turn_columns (c TURN) sealed.now.turns → AreEntries reply_columns (c REPLY) sealed.now.replies
        → IsDiskOrMemory e) }
    ensures behind { IfOk result (λ b. IsClean (S.Store.view store.new) → (c : Contents) → Holds (S.Store.view store.old).trees c → AreBehind c sealed.now b) }
    ensures reads { OnOk result (IsClean (S.Store.view store.new) → OnlyReads (S.Store.view store.old) (S.Store.view store.new)) }
    ensures schema { KeepsSchema (S.Store.view store.old) (S.Store.view store.new) }
    ensures quiet { IsQuiet S.Store.view S.Store.faults S.Store.recovers S.Store.is_shielded store.old store.new }
    ensures fault { IfErr result IsReadFault }
{
    Ok(Behind {
        calls: read_from(alloc, store, CALL, sealed.calls)?,
        turns: read_from(alloc, store, TURN, sealed.turns)?,
        replies: read_from(alloc, store, REPLY, sealed.replies)?,
    })
}

/// Reads the rows that make a core again: all nodes, records and procedures, and the calls, turns and replies behind the last seal. Those before
/// are not read. 1003 and the table if a row has another form; 1011 to 1013 of the disk; 1090 if memory is refused. Of contents that can be read there is no
/// 1003.
pub fn read_stored<S: Store>(alloc: Global, store: &mut S) -> Result<Stored, StoreFault>
    requires { IsClean (S.Store.view store.old) → AreTables (S.Store.view store.old) }
    ensures again { IfErr result (λ e. IsClean (S.Store.view store.new) → (c : Contents) → Holds (S.Store.view store.old).trees c → IsReadable c → IsDiskOrMemory e) }
    ensures stored { IfOk result (λ s. IsClean (S.Store.view store.new) → (c : Contents) → Holds (S.Store.view store.old).trees c → AreStored c s) }
    ensures reads { OnOk result (IsClean (S.Store.view store.new) → OnlyReads (S.Store.view store.old) (S.Store.view store.new)) }
    ensures schema { KeepsSchema (S.Store.view store.old) (S.Store.view store.new) }
    ensures quiet { IsQuiet S.Store.view S.Store.faults S.Store.recovers S.Store.is_shielded store.old store.new }
    ensures fault { IfErr result IsReadFault }
{
    let marks = marks_of(alloc, store)?;
    let sealed = last_seal(alloc, store)?;
    if !are_counted(&sealed, &marks) {
        return Err(StoreFault::BadRow { table: SEAL });
    }
    let behind = read_behind(alloc, store, &sealed)?;
    Ok(Stored {
        marks,
        nodes: read_all(alloc, store, NODE)?,
        records: read_all(alloc, store, RECORD)?,
        procedures: read_all(alloc, store, PROCEDURE)?,
        calls: behind.calls,
        turns: behind.turns,
        replies: behind.replies,
    })
}
