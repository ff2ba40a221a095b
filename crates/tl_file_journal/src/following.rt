// What a closed volume has for a follower.

ghost use Rattle.std.specs.Prelude.{IfOk, OnOk};
ghost use Rattle.sqlite_trees.specs.View.{IsClean, IsQuiet, KeepsSchema};
ghost use Rattle.tl_file_journal.specs.Following.{IsBehind};
ghost use Rattle.tl_follow.specs.Positions.{IsUpTo, IsNext, AreBetween};
ghost use Rattle.tl_ledger.specs.Contents.{Contents, Holds, AreTables, OnlyReads};
ghost use Rattle.tl_ledger.specs.News.{IsMarked};

use crate::volumes::open_closed;
use sqlite_disk::Disk;
use sqlite_trees::store::Store;
use std::alloc::Global;
use tl_follow::{FollowFault, Found, beginning, find_behind};
use tl_journal::follow_refusal_of;
use tl_ledger::{Marks, marks_of};
use tl_server::FollowRefusal;
use tl_store_file::Rested;
use tl_volume_files::Volumes;

// What a store has behind a place, and how much it has in all.
fn read_store<S: Store>(
    alloc: Global,
    store: &mut S,
    from: &Marks,
    records: Option<u64>,
) -> Result<(Marks, Found), FollowFault>
    requires { IsClean (S.Store.view store.old) → AreTables (S.Store.view store.old) }
    ensures stored { IfOk result (λ r. IsClean (S.Store.view store.new) → (c : Contents) → Holds (S.Store.view store.old).trees c → IsMarked c r.0) }
    ensures order { IfOk result (λ r. IsUpTo from.now r.1.rows.to × IsUpTo r.1.rows.to r.0) }
    ensures next { IfOk result (λ r. IsClean (S.Store.view store.new) → (c : Contents) → Holds (S.Store.view store.old).trees c → IsMarked c r.0
        → IsNext c r.0 from.now r.1.rows.to) }
    ensures rows { IfOk result (λ r. IsClean (S.Store.view store.new) → (c : Contents) → Holds (S.Store.view store.old).trees c → IsMarked c r.0
        → AreBetween c from.now r.1.rows.to r.1.rows) }
    ensures reads { OnOk result (IsClean (S.Store.view store.new) → OnlyReads (S.Store.view store.old) (S.Store.view store.new)) }
    ensures schema { KeepsSchema (S.Store.view store.old) (S.Store.view store.new) }
    ensures quiet { IsQuiet S.Store.view S.Store.faults S.Store.recovers S.Store.is_shielded store.old store.new }
{
    let stored = marks_of(alloc, store)?;
    let found = find_behind(alloc, store, &stored, from, records)?;
    Ok((stored, found))
}

// The same of a store in a file that is only read.
fn read_rested<D: Disk + Drop>(
    alloc: Global,
    rested: Rested<D>,
    from: &Marks,
    records: Option<u64>,
) -> Result<(Marks, Found), FollowFault>
    ensures { IfOk result (λ r. IsUpTo from.now r.1.rows.to × IsUpTo r.1.rows.to r.0) }
{
    let mut store = rested.store;
    read_store(alloc, &mut store, from, records)
}

/// What a closed volume has behind a place, and its number; or at its end the beginning of the next one, and that one's number.
pub(crate) fn closed_behind(
    rt: &HostRuntime,
    volumes: &Volumes,
    number: u64,
    from: &Marks,
    records: Option<u64>,
) -> Result<(u64, Found), FollowRefusal>
    ensures { IfOk result (λ r. IsBehind number from.now r.0 r.1.rows.to) }
{
    let alloc = rt.alloc();
    if !matches!(volumes.is_there(number), Ok(true)) {
        return Err(FollowRefusal::NotThere);
    }
    // One that isn't closed yet is locked by this process, which would lose the lock if it opened the file once more.
    if !matches!(volumes.is_listed(number), Ok(true)) {
        return Ok((number, Found::nothing(alloc, *from)));
    }
    let Ok((_, rested)) = open_closed(rt, volumes, number) else {
        return Err(FollowRefusal::Broken);
    };
    let (stored, found) = match read_rested(alloc, rested, from, records) {
        Ok(read) => read,
        Err(fault) => return Err(follow_refusal_of(fault)),
    };
    let next = number.saturating_add(stored.seals);
    if *from == stored && next > number {
        return Ok((next, Found::nothing(alloc, beginning())));
    }
    Ok((number, found))
}
