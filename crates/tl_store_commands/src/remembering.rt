// What came of a store's calls that had a key.

ghost use Rattle.std.specs.Prelude.{◌≡◌, ◌≤◌, ◌<◌, ◌+◌, ◌-◌, ◌+ℤ◌, ◌↔◌, ◌⊎◌, ℕ, suc, pos, List, [], ◌∷◌, All, Contains, None, Some, false, length, map, take, drop, option_map, string_bytes, IsTrue, IfOk, IfSome, IfNone, OnOk};
ghost use Rattle.sqlite_trees.specs.View.{IsClean, KeepsSchema, doubt};
ghost use Rattle.sqlite_value.specs.Order.{Row as Columns};
ghost use Rattle.tl_keys.specs.declared.index.KeyIndex.{KeyIndex as Index};
ghost use Rattle.tl_keys.specs.declared.index.TheConstants.{CAPACITY};
ghost use Rattle.tl_ledger.specs.declared.rows.CallRow.{CallRow as Call};
ghost use Rattle.tl_ledger.specs.declared.rows.ReplyRow.{ReplyRow as Reply};
ghost use Rattle.tl_ledger.specs.declared.schema.TheConstants.{CALL, REPLY, SEAL as SEALS};
ghost use Rattle.tl_ledger.specs.Contents.{Contents, Holds, AreTables, OnlyReads};
ghost use Rattle.tl_ledger.specs.News.{IsMarked, call_columns, reply_columns, seal_columns};
ghost use Rattle.tl_ledger.specs.Rows.{rows_from};
ghost use Rattle.tl_keys.specs.Keys.{recall, AllUnder, Lasts};
ghost use Rattle.tl_store_commands.specs.Remembering.{IsReplyTo, IsKnown, HasKey, keyed, HoldsOn, AreFound, Began, FindsMore, FindsLast};
ghost use Rattle.tl_store_commands.specs.declared.remembering.TheConstants.{RECALLED as LATELY};

use sqlite_trees::store::{Shape, Store};
use std::alloc::Global;
use tl_keys::{Kept, KeyIndex};
use tl_ledger::{
    CALL, CallRow, Ledger, Marks, REPLY, ReadEntry, ReplyRow, SEAL, SealRow, marks_of, read_all,
    read_some,
};
use tl_rows::numbers_of_text;
use tl_store::StoreFault;

/// Among how many of the last calls of a store those that had a key are looked for.
pub const RECALLED: u64 = 1 << 20;

// How many calls are open at once at most, so that a reply stands no more than so many places earlier than its call.
const OPEN: usize = 64;

// Whether it is the reply to that call.
fn is_reply_to(call: &CallRow, reply: &ReplyRow) -> bool
    ensures { IsTrue result ↔ IsReplyTo call.now reply.now }
{
    reply.epoch == call.epoch && reply.call == call.number
}

// The reply to that call.
fn reply_among<'r>(replies: &'r [ReplyRow], call: &CallRow) -> Option<&'r ReplyRow>
    ensures some { IfSome result (λ reply. IsReplyTo call.now reply.now × Contains replies.now reply.now) }
    ensures none { IfNone result ((reply : Reply) → Contains replies.now reply → IsReplyTo call.now reply → ⊥) }
{
    for reply in replies {
        if is_reply_to(call, reply) {
            return Some(reply);
        }
    }
    None
}

// The reply to that call, which probably stands behind that place.
fn reply_to<'r>(replies: &'r [ReplyRow], place: usize, call: &CallRow) -> Option<&'r ReplyRow>
    ensures some { IfSome result (λ reply. IsReplyTo call.now reply.now × Contains replies.now reply.now) }
    ensures none { IfNone result ((reply : Reply) → Contains replies.now reply → IsReplyTo call.now reply → ⊥) }
{
    match reply_among(&replies[place.min(replies.len())..], call) {
        Some(reply) => Some(reply),
        None => reply_among(replies, call),
    }
}

// The number among all volumes of an epoch of the one that has so many epochs before it. `None` if that is no column.
fn number_among(before: u64, epoch: i64) -> Option<i64>
    ensures { IfSome result (λ number. number ≡ pos before +ℤ epoch) }
{
    i64::try_from(before).ok()?.checked_add(epoch)
}

// Remembers what came of a call, if it had a key.
#[tactic(auto, using(crate::proofs::RememberingLemmas::one_more))]
fn remember_call(
    alloc: Global,
    before: u64,
    index: &mut KeyIndex,
    call: &CallRow,
    reply: &ReplyRow,
) -> Result<(), StoreFault>
    requires { IsReplyTo call.now reply.now }
    ensures stored { OnOk result ((c : Contents) → Contains (c CALL) (call_columns call.now) → Contains (c REPLY) (reply_columns reply.now)
        → (start : Index) → AllUnder (IsKnown start before c) index.old → AllUnder (IsKnown start before c) index.new) }
    ensures held { OnOk result (HoldsOn (call.now ∷ []) index.old index.new) }
    ensures here { OnOk result ((key : List ℕ) → HasKey call.now key → Lasts index.new key CAPACITY) }
{
    let Some(key) = &call.key else {
        return Ok(());
    };
    let Some(reply) = numbers_of_text(alloc, &reply.reply)? else {
        return Err(StoreFault::BadRow { table: REPLY });
    };
    let Some(epoch) = number_among(before, call.epoch) else {
        return Err(StoreFault::BadRow { table: CALL });
    };
    let kept = Kept::new(alloc, epoch, call.number, reply.as_slice())?;
    index.remember(alloc, key.clone()?, kept)?;
    Ok(())
}

// Remembers what came of a call, if it had a key and one of these replies is its own, which probably stands behind that place.
fn remember_one(
    alloc: Global,
    before: u64,
    index: &mut KeyIndex,
    call: &CallRow,
    replies: &[ReplyRow],
    place: usize,
) -> Result<(), StoreFault>
    ensures stored { OnOk result ((c : Contents) → Contains (c CALL) (call_columns call.now)
        → All (λ reply. Contains (c REPLY) (reply_columns reply)) replies.now
        → (start : Index) → AllUnder (IsKnown start before c) index.old → AllUnder (IsKnown start before c) index.new) }
    ensures held { OnOk result (HoldsOn (call.now ∷ []) index.old index.new) }
    ensures here { OnOk result ((key : List ℕ) (reply : Reply) → HasKey call.now key → Contains replies.now reply → IsReplyTo call.now reply
        → Lasts index.new key CAPACITY) }
{
    match reply_to(replies, place, call) {
        Some(reply) => remember_call(alloc, before, index, call, reply),
        None => Ok(()),
    }
}

// Remembers what came of these calls, as far as they had a key and one of these replies is theirs.
fn remember_calls(
    alloc: Global,
    before: u64,
    index: &mut KeyIndex,
    calls: &[CallRow],
    replies: &[ReplyRow],
) -> Result<(), StoreFault>
    ensures stored { OnOk result ((c : Contents) → All (λ call. Contains (c CALL) (call_columns call)) calls.now
        → All (λ reply. Contains (c REPLY) (reply_columns reply)) replies.now
        → (start : Index) → AllUnder (IsKnown start before c) index.old → AllUnder (IsKnown start before c) index.new) }
    ensures held { OnOk result (HoldsOn calls.now index.old index.new) }
    ensures here { OnOk result (AreFound calls.now replies.now index.new) }
{
    for number in 0..calls.len() {
        let place = number.saturating_sub(OPEN);
        remember_one(alloc, before, index, &calls[number], replies, place)?;
    }
    Ok(())
}

// Reads so many rows of a table that has at least as many.
fn read_part<S: Store, T: ReadEntry + Drop>(
    alloc: Global,
    store: &mut S,
    table: u32,
    first: u64,
    last: u64,
) -> Result<Vec<T>, StoreFault>
    requires table { IsClean (S.Store.view store.old) → (S.Store.view store.old).shape table ≡ Shape.Table }
    requires order { first ≤ last }
    ensures rows { IfOk result (λ items. IsClean (S.Store.view store.new) → (columns : List Columns) → (S.Store.view store.old).trees table ≡ rows_from 0 columns
        → last ≤ length columns → map T.Entry.columns items.items ≡ take (last - first) (drop first columns)) }
    ensures reads { OnOk result (IsClean (S.Store.view store.new) → OnlyReads (S.Store.view store.old) (S.Store.view store.new)) }
    ensures schema { KeepsSchema (S.Store.view store.old) (S.Store.view store.new) }
    ensures clean { doubt (S.Store.view store.old).is_clean ≤ doubt (S.Store.view store.new).is_clean }
{
    Ok(read_some(alloc, store, table, first, last)?)
}

// How many rows of calls and of replies there were at some time.
#[derive(Clone, Copy, Debug, PartialEq, Eq)]
struct Counts {
    calls: u64,
    replies: u64,
}

// How many there were when this epoch began; none before the first seal. `None` if there is no such epoch, or if the seal before it has no such counts.
fn counts_before(seals: &[SealRow], epoch: usize) -> Option<Counts>
    ensures { IfSome result (λ n. Began (map seal_columns seals.now) epoch n.calls n.replies) }
{
    if epoch == 0 {
        return Some(Counts {
            calls: 0,
            replies: 0,
        });
    }
    let seal = seals.get(epoch - 1)?;
    Some(Counts {
        calls: u64::try_from(seal.calls).ok()?,
        replies: u64::try_from(seal.replies).ok()?,
    })
}

// The counts at both ends of an epoch. `None` if there are no such rows.
fn counts_of(marks: &Marks, seals: &[SealRow], epoch: usize) -> Option<(Counts, Counts)>
    ensures begins { IfSome result (λ r. Began (map seal_columns seals.now) epoch r.0.calls r.0.replies) }
    ensures ends { epoch < length seals.now → IfSome result (λ r. Began (map seal_columns seals.now) (suc epoch) r.1.calls r.1.replies) }
    ensures order { IfSome result (λ r. (r.0.calls ≤ r.1.calls) × (r.0.replies ≤ r.1.replies)
        × (r.1.calls ≤ marks.now.calls) × (r.1.replies ≤ marks.now.replies)) }
{
    let first = counts_before(seals, epoch)?;
    let last = counts_before(seals, epoch.saturating_add(1))?;
    let is_right = first.calls <= last.calls
        && first.replies <= last.replies
        && last.calls <= marks.calls
        && last.replies <= marks.replies;
    if is_right { Some((first, last)) } else { None }
}

// Whether none of these calls had a key.
fn have_no_keys(calls: &[CallRow]) -> bool
    ensures { IsTrue result → keyed calls.now ≡ 0 }
{
    for number in 0..calls.len() {
        if calls[number].key.is_some() {
            return false;
        }
    }
    true
}

// Remembers what came of the calls of an epoch that had a key.
fn remember_epoch<S: Store>(
    alloc: Global,
    store: &mut S,
    marks: &Marks,
    seals: &[SealRow],
    epoch: usize,
    before: u64,
    index: &mut KeyIndex,
) -> Result<(), StoreFault>
    requires tables { IsClean (S.Store.view store.old) → AreTables (S.Store.view store.old) }
    requires epoch { epoch < length seals.now }
    ensures keys { OnOk result (IsClean (S.Store.view store.new) → (c : Contents) → Holds (S.Store.view store.old).trees c → IsMarked c marks.now
        → (start : Index) → AllUnder (IsKnown start before c) index.old → AllUnder (IsKnown start before c) index.new) }
    ensures found { OnOk result (IsClean (S.Store.view store.new) → (c : Contents) → Holds (S.Store.view store.old).trees c → IsMarked c marks.now
        → c SEALS ≡ map seal_columns seals.now → FindsMore c epoch index.old index.new) }
    ensures reads { OnOk result (IsClean (S.Store.view store.new) → OnlyReads (S.Store.view store.old) (S.Store.view store.new)) }
    ensures schema { KeepsSchema (S.Store.view store.old) (S.Store.view store.new) }
    ensures clean { doubt (S.Store.view store.old).is_clean ≤ doubt (S.Store.view store.new).is_clean }
{
    let Some((first, last)) = counts_of(marks, seals, epoch) else {
        return Err(StoreFault::BadRow { table: SEAL });
    };
    let calls: Vec<CallRow> = read_part(alloc, store, CALL, first.calls, last.calls)?;
    if have_no_keys(calls.as_slice()) {
        return Ok(());
    }
    let replies: Vec<ReplyRow> = read_part(alloc, store, REPLY, first.replies, last.replies)?;
    remember_calls(alloc, before, index, calls.as_slice(), replies.as_slice())
}

// The first epoch that has one of the last calls that are looked at, or whose seal has no such counts.
fn first_recalled(marks: &Marks, seals: &[SealRow]) -> usize
    ensures { (epoch calls replies place : ℕ) → Began (map seal_columns seals.now) (suc epoch) calls replies → place < calls
        → marks.now.calls ≤ place + LATELY → result ≤ epoch }
{
    let earliest = marks.calls.saturating_sub(RECALLED);
    for epoch in 0..seals.len() {
        match counts_before(seals, epoch + 1) {
            Some(counts) if counts.calls <= earliest => {}
            _ => return epoch,
        }
    }
    seals.len()
}

// Remembers what came of the calls of sealed epochs that had a key, the earliest first.
fn remember_epochs<S: Store>(
    alloc: Global,
    before: u64,
    store: &mut S,
    marks: &Marks,
    index: KeyIndex,
) -> Result<KeyIndex, StoreFault>
    requires { IsClean (S.Store.view store.old) → AreTables (S.Store.view store.old) }
    ensures keys { IfOk result (λ now. IsClean (S.Store.view store.new) → (c : Contents) → Holds (S.Store.view store.old).trees c → IsMarked c marks.now
        → (start : Index) → AllUnder (IsKnown start before c) index → AllUnder (IsKnown start before c) now) }
    ensures whole { IfOk result (λ now. IsClean (S.Store.view store.new) → (c : Contents) → Holds (S.Store.view store.old).trees c → IsMarked c marks.now
        → FindsLast c now) }
    ensures reads { OnOk result (IsClean (S.Store.view store.new) → OnlyReads (S.Store.view store.old) (S.Store.view store.new)) }
    ensures schema { KeepsSchema (S.Store.view store.old) (S.Store.view store.new) }
    ensures clean { doubt (S.Store.view store.old).is_clean ≤ doubt (S.Store.view store.new).is_clean }
{
    let seals: Vec<SealRow> = read_all(alloc, store, SEAL)?;
    let mut now = index;
    let first = first_recalled(marks, seals.as_slice());
    for epoch in first..seals.len() {
        remember_epoch(
            alloc,
            store,
            marks,
            seals.as_slice(),
            epoch,
            before,
            &mut now,
        )?;
    }
    Ok(now)
}

/// What came of the calls of a closed volume that had a key, as far as these are among its last 1,048,576 calls, and fewer calls with keys came behind
/// them than an index has places for, beside what was remembered before. It has so many epochs before it. Faults as of `remember_keys`.
pub fn remember_closed<S: Store>(
    alloc: Global,
    before: u64,
    store: &mut S,
    index: KeyIndex,
) -> Result<KeyIndex, StoreFault>
    requires { IsClean (S.Store.view store.old) → AreTables (S.Store.view store.old) }
    ensures keys { IfOk result (λ now. IsClean (S.Store.view store.new) → (c : Contents) → Holds (S.Store.view store.old).trees c
        → AllUnder (IsKnown index before c) now) }
    ensures whole { IfOk result (λ now. IsClean (S.Store.view store.new) → (c : Contents) → Holds (S.Store.view store.old).trees c → FindsLast c now) }
{
    let marks = marks_of(alloc, store)?;
    remember_epochs(alloc, before, store, &marks, index)
}

/// The same ledger, over a store all of whose epochs are sealed, and what came of the calls that had a key, as far as these are among the last
/// 1,048,576 calls, and fewer calls with keys came behind them than an index has places for, beside what was remembered before. The store is a volume
/// that has so many epochs before it. 1003 and the table if a row has another form; 1011 to 1013 if the disk fails; 1090 if memory is refused.
pub fn remember_keys<S: Store + Drop>(
    alloc: Global,
    before: u64,
    ledger: Ledger<S>,
    index: KeyIndex,
) -> Result<(Ledger<S>, KeyIndex), StoreFault>
    requires { ledger.is_shut ≡ false }
    ensures keys { IfOk result (λ r. IsClean (S.Store.view r.0.store) → (c : Contents) → Holds (S.Store.view ledger.store).committed c → IsMarked c ledger.marks
        → AllUnder (IsKnown index before c) r.1) }
    ensures whole { IfOk result (λ r. IsClean (S.Store.view r.0.store) → (c : Contents) → Holds (S.Store.view ledger.store).committed c → IsMarked c ledger.marks
        → FindsLast c r.1) }
    ensures ledger { IfOk result (λ r. (r.0.is_shut ≡ false) × (r.0.marks ≡ ledger.marks)) }
    ensures same { IfOk result (λ r. IsClean (S.Store.view r.0.store) → (S.Store.view r.0.store).committed ≡ (S.Store.view ledger.store).committed) }
    ensures clean { IfOk result (λ r. doubt (S.Store.view ledger.store).is_clean ≤ doubt (S.Store.view r.0.store).is_clean) }
{
    let marks = ledger.marks;
    let mut store = ledger.store;
    let now = remember_epochs(alloc, before, &mut store, &marks, index)?;
    Ok((Ledger::new(alloc, store, marks), now))
}
