// The turns that calls took.

ghost use Rattle.std.specs.Prelude.{◌≡◌, ◌+◌, ◌*◌, ◌<◌, ◌++◌, ℕ, pos, List, [], ◌∷◌, length, get_or, ◌↔◌, IsTrue, IfOk, OnOk, IfErr, All};
ghost use Rattle.tl_store.specs.declared.fault.StoreFault.TheVariants.{Memory};
ghost use Rattle.tl_rows.specs.Rows.{call_bytes, turn_bytes, all_turn_bytes, IsTurnRow};

use crate::fault::StoreFault;
use std::alloc::{AllocError, Global};
use tl_ledger::{TURN, TurnRow};
use tl_rows::is_epoch;

// The call whose number stands in two bytes.
fn call_at(bytes: &[u8], at: usize) -> u32
    requires { 2 * at + 1 < length bytes.now }
    ensures bytes { call_bytes result ≡ get_or bytes.now (2 * at) 0 ∷ get_or bytes.now (2 * at + 1) 0 ∷ [] }
    ensures small { result < 65536 }
{
    u32::from(bytes[2 * at]) * 256 + u32::from(bytes[2 * at + 1])
}

// Adds the turns of a row. False if its bytes are an odd number.
fn push_turns(turns: &mut Vec<u32>, bytes: &[u8]) -> Result<bool, AllocError>
    requires { All (λ t. t < 65536) turns.old.items }
    ensures added { IfOk result (λ whole. IsTrue whole → (more : List ℕ) × (bytes.now ≡ turn_bytes more) × (turns.new.items ≡ turns.old.items ++ more)) }
    ensures small { OnOk result (All (λ t. t < 65536) turns.new.items) }
    ensures even { IfOk result (λ whole. (more : List ℕ) → bytes.now ≡ turn_bytes more → IsTrue whole) }
{
    if bytes.len() % 2 != 0 {
        return Ok(false);
    }
    for at in 0..bytes.len() / 2 {
        turns.push(call_at(bytes, at))?;
    }
    Ok(true)
}

// Whether the rows are of that epoch.
fn are_of_epoch(rows: &[TurnRow], epoch: u64) -> bool
    ensures { IsTrue result ↔ All (λ r. r.epoch ≡ pos epoch) rows.now }
{
    for row in rows {
        if !is_epoch(row.epoch, epoch) {
            return false;
        }
    }
    true
}

/// The turns of these rows, one row after another. 1003 and the table if a row has another epoch or an odd number of bytes.
pub fn turns_of(alloc: Global, epoch: u64, rows: &[TurnRow]) -> Result<Vec<u32>, StoreFault>
    ensures epoch { IfOk result (λ _. All (λ r. r.epoch ≡ pos epoch) rows.now) }
    ensures turns { IfOk result (λ turns. all_turn_bytes rows.now ≡ turn_bytes turns.items) }
    ensures small { IfOk result (λ turns. All (λ t. t < 65536) turns.items) }
    ensures again { All (IsTurnRow (pos epoch)) rows.now → IfErr result (λ e. e ≡ Memory) }
{
    if !are_of_epoch(rows, epoch) {
        return Err(StoreFault::BadRow { table: TURN });
    }
    let mut turns = Vec::new(alloc);
    for row in rows {
        if !push_turns(&mut turns, &row.calls)? {
            return Err(StoreFault::BadRow { table: TURN });
        }
    }
    Ok(turns)
}
