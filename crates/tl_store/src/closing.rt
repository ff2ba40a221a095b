// What a store has still to get after a recovery.

ghost use Rattle.std.specs.Prelude.{◌≡◌, ◌≢◌, ◌↔◌, ◌+◌, ◌<◌, ◌≤◌, ◌^◌, IsSome, IfErr, pos, map, drop, length, Some, All, IsTrue, IsFalse, IfOk, IfSome, OnOk, string_bytes};
ghost use Rattle.tl_tree_locking.specs.History.{caller};
ghost use Rattle.tl_rows.specs.Rows.{numbers_in, turn_bytes, all_turn_bytes};
ghost use Rattle.tl_store.specs.Recovered.{IsRebuilt};
ghost use Rattle.tl_store.specs.Stored.{AreFewRows};
ghost use Rattle.tl_store.specs.declared.fault.StoreFault.TheVariants.{Memory};
ghost use Rattle.tl_store.specs.Closing.{HasReply, AreLateReplies, IsSealOf, IsClosing};

use crate::fault::StoreFault;
use crate::stored::Stored;
use std::alloc::{AllocError, Global};
use tl_core::Core;
use tl_ledger::{Marks, News, ReplyRow, SEAL, SealRow, TurnRow};
use tl_rows::{changed, reply_row, turn_row};
use tl_tree_locking::Event;

// The call of an event.
fn call_of(event: &Event) -> u32
    ensures { result ≡ caller event.now }
{
    match *event {
        Event::Admit { call }
        | Event::Lock { call, .. }
        | Event::Free { call, .. }
        | Event::Done { call } => call,
    }
}

// The calls of these events, in their order.
fn calls_of(alloc: Global, events: &[Event]) -> Result<Vec<u32>, AllocError>
    ensures { IfOk result (λ v. v.items ≡ map caller events.now) }
{
    let mut calls = Vec::new(alloc);
    for event in events {
        calls.push(call_of(event))?;
    }
    Ok(calls)
}

// How many bytes the turns of these rows have. None if they are too many to be counted.
fn count_bytes(rows: &[TurnRow]) -> Option<usize>
    ensures { IfSome result (λ n. n ≡ length (all_turn_bytes rows.now)) }
{
    let mut count = 0usize;
    for row in rows {
        count = count.checked_add(row.calls.len())?;
    }
    Some(count)
}

// The row of turns of that epoch.
fn late_row(alloc: Global, epoch: u64, turns: &[u32]) -> Result<TurnRow, StoreFault>
    ensures epoch { IfOk result (λ row. row.epoch ≡ pos epoch) }
    ensures calls { IfOk result (λ row. row.calls.items ≡ turn_bytes turns.now) }
    ensures again { epoch ≤ 2 ^ 62 → IfErr result (λ e. e ≡ Memory) }
{
    match i64::try_from(epoch) {
        Ok(epoch) => Ok(turn_row(alloc, epoch, turns)?),
        Err(_) => Err(StoreFault::BadRow { table: SEAL }),
    }
}

// The row of the turns behind the first ones; none if there are none.
fn late_turns(
    alloc: Global,
    epoch: u64,
    events: &[Event],
    first: usize,
) -> Result<Vec<TurnRow>, StoreFault>
    ensures epoch { IfOk result (λ v. All (λ r. r.epoch ≡ pos epoch) v.items) }
    ensures turns { IfOk result (λ v. all_turn_bytes v.items ≡ turn_bytes (map caller (drop first events.now))) }
    ensures few { IfOk result (λ v. length v.items ≤ 1) }
    ensures again { epoch ≤ 2 ^ 62 → IfErr result (λ e. e ≡ Memory) }
{
    let mut rows = Vec::new(alloc);
    if events.len() <= first {
        return Ok(rows);
    }
    let calls = calls_of(alloc, &events[first..])?;
    rows.push(late_row(alloc, epoch, calls.as_slice())?)?;
    Ok(rows)
}

// Whether the row has the reply of the call.
fn is_of(row: &ReplyRow, call: u32) -> bool
    ensures { IsTrue result ↔ (row.now.call ≡ pos call) }
{
    row.call == i64::from(call)
}

// Whether one of the rows has a reply of the call.
fn has_reply(rows: &[ReplyRow], call: u32) -> bool
    ensures found { IsTrue result → HasReply rows.now call }
    ensures missing { IsFalse result → All (λ r. r.call ≢ pos call) rows.now }
{
    for row in rows {
        if is_of(row, call) {
            return true;
        }
    }
    false
}

// The row of a reply of that epoch.
fn late_reply(alloc: Global, epoch: u64, call: u32, reply: &[i64]) -> Result<ReplyRow, StoreFault>
    ensures epoch { IfOk result (λ row. row.epoch ≡ pos epoch) }
    ensures call { IfOk result (λ row. row.call ≡ pos call) }
    ensures reply { IfOk result (λ row. numbers_in (string_bytes row.reply) ≡ Some reply.now) }
    ensures again { epoch ≤ 2 ^ 62 → IfErr result (λ e. e ≡ Memory) }
{
    match i64::try_from(epoch) {
        Ok(epoch) => Ok(reply_row(alloc, epoch, i64::from(call), reply)?),
        Err(_) => Err(StoreFault::BadRow { table: SEAL }),
    }
}

// Adds the reply of the next call, if it is done and its reply isn't stored.
fn add_reply(
    alloc: Global,
    stored: &Stored,
    core: &Core,
    call: u32,
    late: &mut Vec<ReplyRow>,
) -> Result<(), StoreFault>
    requires inside { call < length core.now.seen.calls }
    requires so_far { AreLateReplies call core.now.seen (pos stored.now.marks.seals) stored.now.replies.items late.old.items }
    ensures replies { OnOk result (AreLateReplies (call + 1) core.now.seen (pos stored.now.marks.seals) stored.now.replies.items late.new.items) }
    ensures few { OnOk result (length late.new.items ≤ length late.old.items + 1) }
    ensures again { stored.now.marks.seals ≤ 2 ^ 62 → IfErr result (λ e. e ≡ Memory) }
{
    if has_reply(stored.replies.as_slice(), call) {
        return Ok(());
    }
    if let Some(reply) = core.reply(call) {
        late.push(late_reply(alloc, stored.marks.seals, call, reply.values())?)?;
    }
    Ok(())
}

// The replies of the core's calls that aren't stored.
fn late_replies(alloc: Global, stored: &Stored, core: &Core) -> Result<Vec<ReplyRow>, StoreFault>
    ensures replies { IfOk result (λ v. AreLateReplies (length core.now.seen.calls) core.now.seen (pos stored.now.marks.seals) stored.now.replies.items v.items) }
    ensures few { IfOk result (λ v. length v.items ≤ length core.now.seen.calls) }
    ensures again { stored.now.marks.seals ≤ 2 ^ 62 → IfErr result (λ e. e ≡ Memory) }
{
    let mut late = Vec::new(alloc);
    for call in 0..core.calls() as u32 {
        add_reply(alloc, stored, core, call, &mut late)?;
    }
    Ok(late)
}

// The seal with the counts of the marks, and so many turns and replies more. None if a count is too large for a row.
fn seal_of(marks: &Marks, turns: usize, replies: usize) -> Option<SealRow>
    ensures seal { IfSome result (IsSealOf marks.now turns replies) }
    ensures again { AreFewRows marks.now → turns ≤ 2 ^ 60 → replies ≤ 2 ^ 60 → IsSome result }
{
    let turns = marks.turns.checked_add(turns as u64)?;
    let replies = marks.replies.checked_add(replies as u64)?;
    Some(SealRow {
        procedures: i64::try_from(marks.procedures).ok()?,
        calls: i64::try_from(marks.calls).ok()?,
        turns: i64::try_from(turns).ok()?,
        replies: i64::try_from(replies).ok()?,
    })
}

/// What a store has still to get after a recovery: the turns and replies that came when the calls were let to their ends, and the seal of the epoch with
/// the records that differ. 1003 and the table if a count is too large for a row of seals, which none is where no table has more than 2^62 rows; 1090 if memory
/// is refused.
pub fn closing_news(alloc: Global, stored: &Stored, core: &Core) -> Result<News, StoreFault>
    requires { IsRebuilt stored.now core.now.seen }
    ensures closing { IfOk result (λ n. IsClosing stored.now core.now.seen n) }
    ensures again { AreFewRows stored.now.marks → IfErr result (λ e. e ≡ Memory) }
{
    let Some(bytes) = count_bytes(stored.turns.as_slice()) else {
        return Err(StoreFault::Memory);
    };
    let events = core.history().events();
    let turns = late_turns(alloc, stored.marks.seals, events, bytes / 2)?;
    let replies = late_replies(alloc, stored, core)?;
    let records = changed(alloc, core.opening().records(), core.tree().records())?;
    let Some(seal) = seal_of(&stored.marks, turns.len(), replies.len()) else {
        return Err(StoreFault::BadRow { table: SEAL });
    };
    let mut seals = Vec::new(alloc);
    seals.push(seal)?;
    Ok(News {
        nodes: Vec::new(alloc),
        procedures: Vec::new(alloc),
        calls: Vec::new(alloc),
        turns,
        replies,
        seals,
        records,
    })
}
