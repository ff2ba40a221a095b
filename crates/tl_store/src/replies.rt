// The replies that were given.

ghost use Rattle.std.specs.Prelude.{◌≡◌, ◌<◌, pos, true, All, length, IsTrue, OnOk, IfErr};
ghost use Rattle.tl_tree_locking.specs.History.{is_done};
ghost use Rattle.tl_tree_locking.specs.World.{reply_of};
ghost use Rattle.tl_core.specs.Cores.{world_of};
ghost use Rattle.tl_store.specs.declared.fault.StoreFault.TheVariants.{Memory};
ghost use Rattle.tl_store.specs.Recovered.{IsReplyOf};

use crate::fault::StoreFault;
use std::alloc::Global;
use tl_core::Core;
use tl_ledger::{REPLY, ReplyRow};
use tl_rows::{is_epoch, numbers_of_text};

// Whether the call is done with that reply.
fn has_replied(core: &Core, call: u32, values: &[i64]) -> bool
    ensures known { IsTrue result → call < length core.now.seen.calls }
    ensures done { IsTrue result → is_done call core.now.seen.past ≡ true }
    ensures reply { IsTrue result → reply_of (world_of core.now.seen) call ≡ values.now }
    ensures told { call < length core.now.seen.calls → is_done call core.now.seen.past ≡ true → reply_of (world_of core.now.seen) call ≡ values.now → IsTrue result }
{
    if call as usize >= core.calls() {
        return false;
    }
    match core.reply(call) {
        Some(reply) => reply.values() == values,
        None => false,
    }
}

// Checks that the row is that of the reply of a call of the core.
fn check_reply(alloc: Global, core: &Core, epoch: u64, row: &ReplyRow) -> Result<(), StoreFault>
    ensures right { OnOk result (IsReplyOf core.now.seen (pos epoch) row.now) }
    ensures again { IsReplyOf core.now.seen (pos epoch) row.now → IfErr result (λ e. e ≡ Memory) }
{
    // There are at most 4,096 calls.
    let _fact = core.calls();
    let Ok(call) = u32::try_from(row.call) else {
        return Err(StoreFault::BadRow { table: REPLY });
    };
    let Some(values) = numbers_of_text(alloc, &row.reply)? else {
        return Err(StoreFault::BadRow { table: REPLY });
    };
    if !is_epoch(row.epoch, epoch) {
        return Err(StoreFault::BadRow { table: REPLY });
    }
    if !has_replied(core, call, values.as_slice()) {
        return Err(StoreFault::WrongReply { call });
    }
    Ok(())
}

/// Checks that each row is that of the reply of a call of the core, which is done. 1006 and the call if one isn't; 1003 and the table if a row has
/// another epoch, or its reply is no list of numbers.
pub(crate) fn check_replies(
    alloc: Global,
    core: &Core,
    epoch: u64,
    rows: &[ReplyRow],
) -> Result<(), StoreFault>
    ensures right { OnOk result (All (IsReplyOf core.now.seen (pos epoch)) rows.now) }
    ensures again { All (IsReplyOf core.now.seen (pos epoch)) rows.now → IfErr result (λ e. e ≡ Memory) }
{
    for row in rows {
        check_reply(alloc, core, epoch, row)?;
    }
    Ok(())
}
