// The trails of a store.

ghost use Rattle.std.specs.Prelude.{◌≡◌, ◌∷◌, [], ◌⊎◌, None, ℕ, List, length, map, option_copied, IfOk, IfErr, OnOk};
ghost use Rattle.sqlite_trees.specs.View.{IsClean, IsQuiet, KeepsSchema};
ghost use Rattle.tl_audit.specs.Chains.{CleanAfter, after_file};
ghost use Rattle.tl_core.specs.Cores.{CoreValue};
ghost use Rattle.tl_core.specs.Reached.{IsReached};
ghost use Rattle.tl_store_history.specs.History.{PastEpoch, HasHistory, IsOfSize};
ghost use Rattle.tl_trail.specs.Trails.{TrailValue};
ghost use Rattle.tl_tree.specs.Trees.{TreeValue};
ghost use Rattle.tl_ledger.specs.Contents.{OnlyReads, Contents, Holds, AreTables};
ghost use Rattle.tl_rows.specs.Rows.{fields_in};
ghost use Rattle.tl_export.specs.Faults.{IsDiskOrMemory};
ghost use Rattle.tl_export.specs.Plans.{IsPlanOf, CanBeExported};
ghost use Rattle.tl_export.specs.Differing.{IsFirstOther};
ghost use Rattle.tl_export.specs.Epochs.{nodes_at, records_for, IsTrailOf, IsCoreOf, IsEndOf};
ghost use Rattle.tl_export.specs.Exported.{TookMore, AreClean, IsAlong, EachIsOf, EachIsEnd, AreTrailsOf, AreOfHistory};

use crate::differing::first_other;
use crate::fault::ExportFault;
use crate::plan::{Plan, read_plan};
use crate::rows::count_nodes;
use crate::taker::TrailTaker;
use crate::taking::take_again;
use sqlite_trees::store::Store;
use std::alloc::Global;
use tl_ledger::NODE;
use tl_store::StoreFault;
use tl_trail::Trail;

// Takes an epoch again, and hands its trail over.
fn hand_over<S: Store, K: TrailTaker>(
    alloc: Global,
    store: &mut S,
    plan: &Plan,
    epoch: usize,
    before: Option<&Trail>,
    taker: &mut K,
) -> Result<Trail, ExportFault>
    requires { IsClean (S.Store.view store.old) → AreTables (S.Store.view store.old) }
    ensures epoch { IfOk result (λ t. IsClean (S.Store.view store.new) → (c : Contents) → Holds (S.Store.view store.old).trees c → IsPlanOf c plan.now
        → IsTrailOf c plan.now epoch t) }
    ensures again { IfErr result (λ e. IsClean (S.Store.view store.new) → (c : Contents) (v : CoreValue) → Holds (S.Store.view store.old).trees c
        → IsPlanOf c plan.now → CanBeExported c
        → IsCoreOf c plan.now epoch (option_copied before.entry) v → IsDiskOrMemory e ⊎ K.refuses e) }
    ensures same { IfOk result (λ t. IsClean (S.Store.view store.new) → (c : Contents) (v : CoreValue) → Holds (S.Store.view store.old).trees c
        → IsPlanOf c plan.now
        → IsCoreOf c plan.now epoch (option_copied before.entry) v → IsEndOf v t) }
    ensures opening { IfOk result (λ t. t.opening ≡ records_for plan.now (option_copied before.entry) (nodes_at epoch plan.now.nodes.items)) }
    ensures clean { IfOk result (λ t. CleanAfter (after_file (option_copied before.entry)) (t ∷ [])) }
    ensures taken { IfOk result (λ t. TookMore (K.taken taker.old) (t ∷ []) (K.taken taker.new)) }
    ensures reads { OnOk result (IsClean (S.Store.view store.new) → OnlyReads (S.Store.view store.old) (S.Store.view store.new)) }
    ensures schema { KeepsSchema (S.Store.view store.old) (S.Store.view store.new) }
    ensures quiet { IsQuiet S.Store.view S.Store.faults S.Store.recovers S.Store.is_shielded store.old store.new }
{
    let (trail, order) = take_again(alloc, store, plan, epoch, before)?;
    taker.take(alloc, &trail, &order)?;
    Ok(trail)
}

// Takes all epochs again, one after another, and hands their trails over. The trail of the last one.
fn hand_over_all<S: Store, K: TrailTaker>(
    alloc: Global,
    store: &mut S,
    plan: &Plan,
    taker: &mut K,
) -> Result<Trail, ExportFault>
    requires { IsClean (S.Store.view store.old) → AreTables (S.Store.view store.old) }
    ensures trails { IfOk result (λ last. (trails : List TrailValue) × TookMore (K.taken taker.old) trails (K.taken taker.new)
        × IsAlong plan.now (length plan.now.seals.items) trails last
        × (IsClean (S.Store.view store.new) → (c : Contents) → Holds (S.Store.view store.old).trees c → IsPlanOf c plan.now → EachIsOf c plan.now trails)
        × (IsClean (S.Store.view store.new) → (c : Contents) (t : TreeValue) (es : List PastEpoch) (v : CoreValue)
        → Holds (S.Store.view store.old).trees c → IsPlanOf c plan.now
        → HasHistory c t es v → IsReached v → EachIsEnd es v trails)) }
    ensures again { IfErr result (λ e. IsClean (S.Store.view store.new) → (c : Contents) (t : TreeValue) (es : List PastEpoch) (v : CoreValue)
        → Holds (S.Store.view store.old).trees c
        → IsPlanOf c plan.now → HasHistory c t es v → IsReached v → IsOfSize c t v → IsDiskOrMemory e ⊎ K.refuses e) }
    ensures schema { KeepsSchema (S.Store.view store.old) (S.Store.view store.new) }
    ensures quiet { IsQuiet S.Store.view S.Store.faults S.Store.recovers S.Store.is_shielded store.old store.new }
{
    let mut last = hand_over(alloc, store, plan, 0, None, taker)?;
    for epoch in 0..plan.seals.len() {
        last = hand_over(alloc, store, plan, epoch + 1, Some(&last), taker)?;
    }
    Ok(last)
}

// Checks that the last epoch opens with the records that are stored.
fn check_records(plan: &Plan, last: &Trail) -> Result<(), ExportFault>
    ensures ok { OnOk result (last.now.opening ≡ map fields_in plan.now.records.items) }
    ensures fault { IfErr result (λ e. (node : ℕ) × (e ≡ ExportFault.WrongRecord node) × IsFirstOther last.now.opening plan.now.records.items node) }
{
    match first_other(last.opening().records(), &plan.records) {
        Some(node) => Err(ExportFault::WrongRecord { node: node as u64 }),
        None => Ok(()),
    }
}

/// Takes the epochs of a store again, one after another from its opening, and hands over the trail of each once the auditor has found that it takes over
/// from the one before and is clean. The calls of the last epoch, which isn't sealed, are let to their ends. Only two trails and the rows of one
/// epoch are in memory at a time.
///
/// 1003 to 1006 as `read_stored` and `rebuild`; 718 or 719 of the auditor; 1007 and the first node whose record at the last seal isn't that of the
/// calls taken again; the fault of who takes the trails; 1011 to 1013 of the disk; 1090 if memory is refused. The trails before a fault were handed over.
/// Where the store has a history, each trail is that of its epoch, and nothing but the disk, memory and who takes the trails can fail.
pub fn export<S: Store, K: TrailTaker>(
    alloc: Global,
    store: &mut S,
    taker: &mut K,
) -> Result<(), ExportFault>
    requires { IsClean (S.Store.view store.old) → AreTables (S.Store.view store.old) }
    ensures trails { OnOk result ((trails : List TrailValue) × TookMore (K.taken taker.old) trails (K.taken taker.new) × AreClean trails
        × (IsClean (S.Store.view store.new) → (c : Contents) → Holds (S.Store.view store.old).trees c → AreTrailsOf c trails)
        × (IsClean (S.Store.view store.new) → (c : Contents) (t : TreeValue) (es : List PastEpoch) (v : CoreValue)
        → Holds (S.Store.view store.old).trees c → HasHistory c t es v → IsReached v
        → AreOfHistory es v trails)) }
    ensures again { IfErr result (λ e. IsClean (S.Store.view store.new) → (c : Contents) (t : TreeValue) (es : List PastEpoch) (v : CoreValue)
        → Holds (S.Store.view store.old).trees c
        → HasHistory c t es v → IsReached v → IsOfSize c t v → IsDiskOrMemory e ⊎ K.refuses e) }
    ensures schema { KeepsSchema (S.Store.view store.old) (S.Store.view store.new) }
    ensures quiet { IsQuiet S.Store.view S.Store.faults S.Store.recovers S.Store.is_shielded store.old store.new }
{
    let plan = read_plan(alloc, store)?;
    if count_nodes(&plan.nodes, plan.seals.len()) != plan.nodes.len() {
        return Err(ExportFault::Store(StoreFault::BadRow { table: NODE }));
    }
    let last = hand_over_all(alloc, store, &plan, taker)?;
    check_records(&plan, &last)
}
