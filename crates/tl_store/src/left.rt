// What a server leaves that ends in order.

ghost use Rattle.std.specs.Prelude.{◌≡◌, [], true, IsTrue, IfOk, OnOk};
ghost use Rattle.sqlite_trees.specs.View.{IsClean, IsQuiet, KeepsSchema};
ghost use Rattle.tl_ledger.specs.Contents.{OnlyReads, Contents, Holds, AreTables};
ghost use Rattle.tl_procedures.specs.Names.{Named};
ghost use Rattle.tl_store.specs.Left.{IsLeft, HasLeft};

use crate::fault::StoreFault;
use crate::procedures::procedures_of;
use crate::stored::{Stored, read_stored};
use crate::tree::tree_of;
use sqlite_trees::store::Store;
use std::alloc::Global;
use tl_procedures::Procedures;
use tl_tree::Tree;

// Whether no call, turn or reply is behind the last seal.
fn is_sealed(stored: &Stored) -> bool
    ensures { IsTrue result → (stored.now.calls.items ≡ []) × (stored.now.turns.items ≡ []) × (stored.now.replies.items ≡ []) }
{
    stored.calls.is_empty() && stored.turns.is_empty() && stored.replies.is_empty()
}

// Whether the trees are the same.
fn are_same_trees(one: &Tree, other: &Tree) -> bool
    ensures { IsTrue result → (one.now.parents ≡ other.now.parents) × (one.now.records ≡ other.now.records) }
{
    one.shape().is(other.shape()) && one.records() == other.records()
}

// Whether they are the same procedures under the same names and numbers.
#[tactic(auto, using(crate::proofs::ProcedureLemmas::same_procedures))]
fn are_same_procedures(some: &Procedures, others: &Procedures) -> bool
    ensures { IsTrue result → some.now ≡ others.now }
{
    some.len() == others.len() && some.begin_with(others)
}

// Whether the rows are those that are left where a server has ended in order with this tree and these procedures.
fn is_left(
    alloc: Global,
    stored: &Stored,
    tree: &Tree,
    procedures: &Procedures,
) -> Result<bool, StoreFault>
    ensures { IfOk result (λ is. is ≡ true → IsLeft stored.now tree.now procedures.now) }
{
    if !is_sealed(stored) {
        return Ok(false);
    }
    let own = tree_of(alloc, stored.nodes.as_slice(), stored.records.as_slice())?;
    let known = procedures_of(alloc, stored.procedures.as_slice())?;
    Ok(are_same_trees(&own, tree) && are_same_procedures(&known, procedures))
}

/// Checks that a store has what a server left that ended in order with this tree and these procedures: all calls are sealed, and the next
/// start takes up that tree and those procedures. 1014 if it hasn't; otherwise faults as of `read_stored`.
pub fn check_left<S: Store>(
    alloc: Global,
    store: &mut S,
    tree: &Tree,
    procedures: &Procedures,
) -> Result<(), StoreFault>
    requires { IsClean (S.Store.view store.old) → AreTables (S.Store.view store.old) }
    ensures left { OnOk result (IsClean (S.Store.view store.new) → (c : Contents) → Holds (S.Store.view store.old).trees c → HasLeft c tree.now procedures.now) }
    ensures reads { OnOk result (IsClean (S.Store.view store.new) → OnlyReads (S.Store.view store.old) (S.Store.view store.new)) }
    ensures schema { KeepsSchema (S.Store.view store.old) (S.Store.view store.new) }
    ensures quiet { IsQuiet S.Store.view S.Store.faults S.Store.recovers S.Store.is_shielded store.old store.new }
{
    let stored = read_stored(alloc, store)?;
    if is_left(alloc, &stored, tree, procedures)? {
        Ok(())
    } else {
        Err(StoreFault::Other)
    }
}
