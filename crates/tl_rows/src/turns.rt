// The row of turns.

ghost use Rattle.std.specs.Prelude.{◌≡◌, IfOk};
ghost use Rattle.tl_rows.specs.Rows.{turn_bytes};

use std::alloc::{AllocError, Global};
use tl_ledger::TurnRow;

/// The row of turns of an epoch: of each turn its call's number, in two bytes, the higher first. The numbers are below 65,536.
#[tactic(auto, using(crate::proofs::TurnLemmas::turns_more))]
pub fn turn_row(alloc: Global, epoch: i64, turns: &[u32]) -> Result<TurnRow, AllocError>
    ensures epoch { IfOk result (λ row. row.epoch ≡ epoch) }
    ensures calls { IfOk result (λ row. row.calls.items ≡ turn_bytes turns.now) }
{
    let mut calls = Vec::new(alloc);
    for turn in turns {
        calls.push((*turn / 256 % 256) as u8)?;
        calls.push((*turn % 256) as u8)?;
    }
    Ok(TurnRow { epoch, calls })
}
