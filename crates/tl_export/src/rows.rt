// The rows of an epoch.

ghost use Rattle.std.specs.Prelude.{◌≡◌, ◌≤◌, length, IfOk, IfErr, OnOk};
ghost use Rattle.sqlite_trees.specs.View.{IsClean, IsQuiet, KeepsSchema};
ghost use Rattle.tl_ledger.specs.Contents.{OnlyReads, Contents, Holds, AreTables};
ghost use Rattle.tl_export.specs.Counts.{HasCounts};
ghost use Rattle.tl_export.specs.Faults.{IsDiskOrMemory};
ghost use Rattle.tl_export.specs.Plans.{IsPlanOf, CanBeExported};
ghost use Rattle.tl_export.specs.Epochs.{is_by, nodes_at, nodes_of, AreRowsOf};

use crate::counts::counts_of;
use crate::fault::ExportFault;
use crate::plan::Plan;
use sqlite_trees::store::Store;
use std::alloc::Global;
use tl_ledger::{CALL, Marks, NodeRow, PROCEDURE, REPLY, RecordRow, SEAL, TURN, read_some};
use tl_store::{StoreFault, Stored};

// Whether the node was there at the beginning of the epoch.
fn is_there(node: &NodeRow, epoch: usize) -> bool
    ensures { result ≡ is_by epoch node.now.epoch }
{
    match u64::try_from(node.epoch) {
        Ok(first) => first <= epoch as u64,
        Err(_) => false,
    }
}

/// How many nodes come before the first that wasn't there at the beginning of the epoch.
pub(crate) fn count_nodes(nodes: &[NodeRow], epoch: usize) -> usize
    ensures count { result ≡ nodes_at epoch nodes.now }
    ensures few { result ≤ length nodes.now }
{
    for count in 0..nodes.len() {
        if !is_there(&nodes[count], epoch) {
            return count;
        }
    }
    nodes.len()
}

/// The rows that make an epoch again, whose nodes have these records at its beginning. Faults as of `read_stored`; none but of the disk or memory, where all tables can be
/// read and the seals' counts are in order.
pub fn rows_of<S: Store>(
    alloc: Global,
    store: &mut S,
    plan: &Plan,
    epoch: usize,
    records: Vec<RecordRow>,
) -> Result<Stored, ExportFault>
    requires { IsClean (S.Store.view store.old) → AreTables (S.Store.view store.old) }
    ensures rows { IfOk result (λ s. IsClean (S.Store.view store.new) → (c : Contents) → Holds (S.Store.view store.old).trees c → IsPlanOf c plan.now
        → AreRowsOf c plan.now epoch s) }
    ensures again { IfErr result (λ e. IsClean (S.Store.view store.new) → (c : Contents) → Holds (S.Store.view store.old).trees c → IsPlanOf c plan.now
        → CanBeExported c
        → HasCounts plan.now.seals.items plan.now.marks epoch → IsDiskOrMemory e) }
    ensures nodes { IfOk result (λ s. s.nodes.items ≡ nodes_of plan.now epoch) }
    ensures records { IfOk result (λ s. s.records ≡ records) }
    ensures reads { OnOk result (IsClean (S.Store.view store.new) → OnlyReads (S.Store.view store.old) (S.Store.view store.new)) }
    ensures schema { KeepsSchema (S.Store.view store.old) (S.Store.view store.new) }
    ensures quiet { IsQuiet S.Store.view S.Store.faults S.Store.recovers S.Store.is_shielded store.old store.new }
{
    let Some((first, last)) = counts_of(&plan.seals, &plan.marks, epoch) else {
        return Err(ExportFault::Store(StoreFault::BadRow { table: SEAL }));
    };
    let count = count_nodes(&plan.nodes, epoch);
    let nodes = Vec::from_slice(alloc, &plan.nodes[..count])?;
    let marks = Marks {
        seals: epoch as u64,
        ..plan.marks
    };
    Ok(Stored {
        marks,
        nodes,
        records,
        procedures: read_some(alloc, store, PROCEDURE, 0, last.procedures)?,
        calls: read_some(alloc, store, CALL, first.calls, last.calls)?,
        turns: read_some(alloc, store, TURN, first.turns, last.turns)?,
        replies: read_some(alloc, store, REPLY, first.replies, last.replies)?,
    })
}
