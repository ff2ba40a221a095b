// The row of a reply.

ghost use Rattle.std.specs.Prelude.{◌≡◌, Some, IfOk, string_bytes};
ghost use Rattle.tl_rows.specs.Rows.{numbers_in};

use crate::numbers::text_of_numbers;
use std::alloc::{AllocError, Global};
use tl_ledger::ReplyRow;

/// The row of a reply: the epoch of its call, the call's number there, and the reply as JSON text.
pub fn reply_row(
    alloc: Global,
    epoch: i64,
    call: i64,
    reply: &[i64],
) -> Result<ReplyRow, AllocError>
    ensures place { IfOk result (λ row. (row.epoch ≡ epoch) × (row.call ≡ call)) }
    ensures reply { IfOk result (λ row. numbers_in (string_bytes row.reply) ≡ Some reply.now) }
{
    let reply = text_of_numbers(alloc, reply)?;
    Ok(ReplyRow { epoch, call, reply })
}
