// The records that differ.

ghost use Rattle.std.specs.Prelude.{◌≡◌, ◌↔◌, ◌+◌, ◌<◌, length, IsTrue, IfOk, OnOk};
ghost use Rattle.tl_rows.specs.Changes.{change_to, Stays, LeadsBelow, Leads};

use crate::records::record_row;
use std::alloc::{AllocError, Global};
use tl_ledger::ChangedRecord;
use tl_tree::Record;

// Whether two records are the same.
fn are_same(a: &Record, b: &Record) -> bool
    ensures { IsTrue result ↔ (a.now ≡ b.now) }
{
    *a == *b
}

// Whether the node was there before, and has the record that it had.
fn has_stayed(before: &[Record], now: &[Record], node: usize) -> bool
    requires { node < length now.now }
    ensures { IsTrue result → Stays before.now now.now node }
{
    node < before.len() && are_same(&before[node], &now[node])
}

// The change of a node to its record now.
fn change_of(now: &[Record], node: usize) -> ChangedRecord
    requires { node < length now.now }
    ensures { result ≡ change_to now.now node }
{
    ChangedRecord {
        node: node as u64,
        row: record_row(&now[node]),
    }
}

// Adds the change of the next node, if it has changed.
#[tactic(auto, using(crate::proofs::ChangeLemmas::leads_push, crate::proofs::ChangeLemmas::leads_stay))]
fn add_change(
    before: &[Record],
    now: &[Record],
    node: usize,
    changes: &mut Vec<ChangedRecord>,
) -> Result<(), AllocError>
    requires inside { node < length now.now }
    requires so_far { LeadsBelow node before.now now.now changes.old.items }
    ensures { OnOk result (LeadsBelow (node + 1) before.now now.now changes.new.items) }
{
    if has_stayed(before, now, node) {
        return Ok(());
    }
    changes.push(change_of(now, node))?;
    Ok(())
}

/// The records that aren't those from before, by their nodes. Where there was none before, the record has changed.
#[tactic(auto, using(crate::proofs::ChangeLemmas::leads_none))]
pub fn changed(
    alloc: Global,
    before: &[Record],
    now: &[Record],
) -> Result<Vec<ChangedRecord>, AllocError>
    ensures { IfOk result (λ v. Leads before.now now.now v.items) }
{
    let mut changes = Vec::new(alloc);
    for node in 0..now.len() {
        add_change(before, now, node, &mut changes)?;
    }
    Ok(changes)
}
