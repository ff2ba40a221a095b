// The replies of an epoch.

ghost use Rattle.std.specs.Prelude.{◌≡◌, ◌↔◌, IsTrue, IfOk, OnOk, IfErr};
ghost use Rattle.std.specs.List.{filter_map};
ghost use Rattle.tl_store.specs.declared.fault.StoreFault.TheVariants.{Memory};
ghost use Rattle.tl_compare.specs.Epochs.{ended, HasReplied, IsReplyOfCall, AreRepliesTo, AreRepliesOf};

use crate::numbers::are_same;
use std::alloc::{AllocError, Global};
use tl_core::Core;
use tl_ledger::{REPLY, ReplyRow};
use tl_rows::{is_epoch, numbers_of_text};
use tl_store::StoreFault;
use tl_tree_locking::Event;

// The call that ended, if one did.
fn ended(event: &Event) -> Option<u32>
    ensures { result ≡ ended event.now }
{
    match *event {
        Event::Done { call } => Some(call),
        Event::Admit { .. } | Event::Lock { .. } | Event::Free { .. } => None,
    }
}

// The calls in the order of their ends.
fn ends_in(alloc: Global, events: &[Event]) -> Result<Vec<u32>, AllocError>
    ensures { IfOk result (λ v. v.items ≡ filter_map ended events.now) }
{
    let mut ends = Vec::new(alloc);
    for event in events {
        if let Some(call) = ended(event) {
            ends.push(call)?;
        }
    }
    Ok(ends)
}

// Whether the call is done with that reply.
fn has_replied(core: &Core, call: u32, values: &[i64]) -> bool
    ensures { IsTrue result ↔ HasReplied core.now.seen call values.now }
{
    if call as usize >= core.calls() {
        return false;
    }
    match core.reply(call) {
        Some(reply) => are_same(reply.values(), values),
        None => false,
    }
}

// Whether the row has the reply of that call, in that epoch.
fn is_reply(
    alloc: Global,
    core: &Core,
    epoch: u64,
    call: u32,
    row: &ReplyRow,
) -> Result<bool, AllocError>
    ensures { IfOk result (λ is. IsTrue is ↔ IsReplyOfCall core.now.seen epoch call row.now) }
{
    if !is_epoch(row.epoch, epoch) || row.call != i64::from(call) {
        return Ok(false);
    }
    match numbers_of_text(alloc, &row.reply)? {
        Some(values) => Ok(has_replied(core, call, values.as_slice())),
        None => Ok(false),
    }
}

// Whether the rows have the replies of these calls, one after another.
fn are_replies(
    alloc: Global,
    core: &Core,
    epoch: u64,
    calls: &[u32],
    rows: &[ReplyRow],
) -> Result<bool, AllocError>
    ensures { IfOk result (λ is. IsTrue is ↔ AreRepliesTo core.now.seen epoch calls.now rows.now) }
{
    if rows.len() != calls.len() {
        return Ok(false);
    }
    for index in 0..rows.len() {
        if !is_reply(alloc, core, epoch, calls[index], &rows[index])? {
            return Ok(false);
        }
    }
    Ok(true)
}

/// Checks that the rows are those of the replies, in the order in which the calls ended. 1003 and the table if they aren't.
pub(crate) fn check_replies(
    alloc: Global,
    core: &Core,
    epoch: u64,
    rows: &[ReplyRow],
) -> Result<(), StoreFault>
    ensures same { OnOk result (AreRepliesOf core.now.seen epoch rows.now) }
    ensures again { AreRepliesOf core.now.seen epoch rows.now → IfErr result (λ e. e ≡ Memory) }
{
    let ends = ends_in(alloc, core.history().events())?;
    if are_replies(alloc, core, epoch, ends.as_slice(), rows)? {
        Ok(())
    } else {
        Err(StoreFault::BadRow { table: REPLY })
    }
}
