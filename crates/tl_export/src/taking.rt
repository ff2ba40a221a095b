// The trail of an epoch, whose calls are taken again.

ghost use Rattle.std.specs.Prelude.{◌≡◌, ◌∷◌, [], Option, None, length, map, option_copied, IfOk, IfErr, OnOk};
ghost use Rattle.sqlite_trees.specs.View.{IsClean, IsQuiet, KeepsSchema};
ghost use Rattle.tl_audit.specs.Chains.{CleanAfter, after_file, order_of};
ghost use Rattle.tl_core.specs.Cores.{CoreValue};
ghost use Rattle.tl_core.specs.Reached.{IsReached};
ghost use Rattle.tl_ledger.specs.Contents.{OnlyReads, Contents, Holds, AreTables};
ghost use Rattle.tl_rows.specs.Rows.{fields_in};
ghost use Rattle.tl_store.specs.Recovered.{AreOfCore};
ghost use Rattle.tl_trail.specs.Clean.{Clean};
ghost use Rattle.tl_export.specs.Faults.{IsDiskOrMemory};
ghost use Rattle.tl_export.specs.Plans.{IsPlanOf, CanBeExported};
ghost use Rattle.tl_export.specs.Epochs.{nodes_at, records_for, with_new, known_before, IsTrailOf, IsMadeOf, IsCoreOf, IsEndOf};

use crate::fault::ExportFault;
use crate::plan::Plan;
use crate::rows::{count_nodes, rows_of};
use sqlite_trees::store::Store;
use std::alloc::{AllocError, Global};
use std::slice;
use tl_audit::{ChainFault, Silent, audit_chain_after};
use tl_ledger::{FIELDS, RecordRow};
use tl_record::trail_of;
use tl_rows::record_rows;
use tl_serial_order::Order;
use tl_store::{Recovered, StoreFault, Stored, rebuild};
use tl_trail::Trail;

// The records that are known before an epoch.
fn known_records(
    alloc: Global,
    plan: &Plan,
    before: Option<&Trail>,
) -> Result<Vec<RecordRow>, AllocError>
    ensures { IfOk result (λ rows. map fields_in rows.items ≡ known_before plan.now (option_copied before.entry)) }
{
    match before {
        Some(before) => record_rows(alloc, before.ends()),
        None => Vec::from_slice(alloc, &plan.opening),
    }
}

// The records with which an epoch begins on so many nodes: those that the one before left, or before the first epoch those of the store's opening, and zeros for
// the nodes that are new.
fn first_records(
    alloc: Global,
    plan: &Plan,
    before: Option<&Trail>,
    nodes: usize,
) -> Result<Vec<RecordRow>, AllocError>
    ensures { IfOk result (λ rows. map fields_in rows.items ≡ records_for plan.now (option_copied before.entry) nodes) }
{
    let mut rows = known_records(alloc, plan, before)?;
    let zeros = RecordRow {
        fields: [0; FIELDS],
    };
    for _node in rows.len()..nodes {
        rows.push(zeros)?;
    }
    Ok(rows)
}

// The trail of the core that these rows make. Where they are those of a core, it is made again, and only memory can be refused.
fn trail_of_rows(alloc: Global, rows: &Stored) -> Result<Trail, ExportFault>
    ensures made { IfOk result (IsMadeOf rows.now) }
    ensures clean { IfOk result (λ t. Clean t) }
    ensures again { IfErr result (λ e. (v : CoreValue) → IsReached v → AreOfCore rows.now v → IsDiskOrMemory e) }
    ensures same { IfOk result (λ t. (v : CoreValue) → IsReached v → AreOfCore rows.now v → IsEndOf v t) }
{
    let Recovered { core, .. } = rebuild(alloc, rows)?;
    // Nothing comes behind the ends of all calls.
    core.lemma_is_reached();
    match trail_of(alloc, &core) {
        Ok(trail) => Ok(trail),
        Err(_) => Err(ExportFault::Store(StoreFault::Memory)),
    }
}

// The only one of these orders.
fn only_order(orders: Vec<Order>) -> Order
    requires { length orders.items ≡ 1 }
    ensures { orders.items ≡ result ∷ [] }
{
    let mut orders = orders;
    let Some(order) = orders.pop() else {
        unreachable!()
    };
    order
}

// The order of the trail's calls, if the auditor finds it clean. It has to take over from the one before, if there is one.
fn judge(alloc: Global, before: Option<&Trail>, trail: &Trail) -> Result<Order, ExportFault>
    ensures clean { OnOk result (CleanAfter (after_file (option_copied before.entry)) (trail.now ∷ [])) }
    ensures order { IfOk result (λ order. order.calls ≡ order_of trail.now) }
    ensures again { CleanAfter (after_file (option_copied before.entry)) (trail.now ∷ []) → IfErr result IsDiskOrMemory }
{
    match audit_chain_after(alloc, before, slice::from_ref(trail), &mut Silent) {
        Ok(orders) => Ok(only_order(orders)),
        Err(ChainFault::Memory) => Err(ExportFault::Store(StoreFault::Memory)),
        Err(fault) => Err(ExportFault::Unclean(fault)),
    }
}

/// Takes the calls of an epoch again: the trail of the core that its rows make, where all calls are done. It takes over from the trail of the epoch
/// before, or begins with the store's opening; the auditor finds it clean, with that order of its calls. Faults as of `read_stored` and `rebuild`; 718 or
/// 719 of the auditor. Where the rows of the epoch are those of a core that takes over from the trail before, the trail is that of this core, and only the disk or memory can fail.
pub fn take_again<S: Store>(
    alloc: Global,
    store: &mut S,
    plan: &Plan,
    epoch: usize,
    before: Option<&Trail>,
) -> Result<(Trail, Order), ExportFault>
    requires { IsClean (S.Store.view store.old) → AreTables (S.Store.view store.old) }
    ensures epoch { IfOk result (λ r. IsClean (S.Store.view store.new) → (c : Contents) → Holds (S.Store.view store.old).trees c → IsPlanOf c plan.now
        → IsTrailOf c plan.now epoch r.0) }
    ensures again { IfErr result (λ e. IsClean (S.Store.view store.new) → (c : Contents) (v : CoreValue) → Holds (S.Store.view store.old).trees c
        → IsPlanOf c plan.now → CanBeExported c
        → IsCoreOf c plan.now epoch (option_copied before.entry) v → IsDiskOrMemory e) }
    ensures same { IfOk result (λ r. IsClean (S.Store.view store.new) → (c : Contents) (v : CoreValue) → Holds (S.Store.view store.old).trees c
        → IsPlanOf c plan.now
        → IsCoreOf c plan.now epoch (option_copied before.entry) v → IsEndOf v r.0) }
    ensures opening { IfOk result (λ r. r.0.opening ≡ records_for plan.now (option_copied before.entry) (nodes_at epoch plan.now.nodes.items)) }
    ensures clean { IfOk result (λ r. CleanAfter (after_file (option_copied before.entry)) (r.0 ∷ [])) }
    ensures order { IfOk result (λ r. r.1.calls ≡ order_of r.0) }
    ensures reads { OnOk result (IsClean (S.Store.view store.new) → OnlyReads (S.Store.view store.old) (S.Store.view store.new)) }
    ensures schema { KeepsSchema (S.Store.view store.old) (S.Store.view store.new) }
    ensures quiet { IsQuiet S.Store.view S.Store.faults S.Store.recovers S.Store.is_shielded store.old store.new }
{
    let records = first_records(alloc, plan, before, count_nodes(&plan.nodes, epoch))?;
    let rows = rows_of(alloc, store, plan, epoch, records)?;
    let trail = trail_of_rows(alloc, &rows)?;
    let order = judge(alloc, before, &trail)?;
    Ok((trail, order))
}
