// The procedures of an epoch.

ghost use Rattle.std.specs.Prelude.{◌≡◌, [], List, map, IsTrue, OnOk, IfErr};
ghost use Rattle.tl_procedures.specs.Names.{Named, latest, MayPutAll};
ghost use Rattle.tl_json.specs.Procedures.{AreAccepted};
ghost use Rattle.tl_rows.specs.Rows.{procedure_form, named_form, AreLatest};
ghost use Rattle.tl_store.specs.declared.fault.StoreFault.TheVariants.{Memory};

use std::alloc::Global;
use tl_core::Core;
use tl_ledger::{PROCEDURE, ProcedureRow};
use tl_procedures::Procedures;
use tl_store::{StoreFault, procedures_of};

// Whether they are the same procedures under the same names and numbers.
#[tactic(auto, using(crate::proofs::RowLemmas::same_procedures))]
fn are_same_procedures(some: &Procedures, others: &Procedures) -> bool
    ensures same { IsTrue result → some.now ≡ others.now }
    ensures told { some.now ≡ others.now → IsTrue result }
{
    some.len() == others.len() && some.begin_with(others)
}

/// Checks that the rows are those of the procedures, each in the place of an earlier one with its name. 1003 and the table if they aren't.
pub(crate) fn check_procedures(
    alloc: Global,
    core: &Core,
    rows: &[ProcedureRow],
) -> Result<(), StoreFault>
    ensures same { OnOk result (AreLatest rows.now core.now.seen.procedures) }
    ensures again { (those : List Named) → MayPutAll [] those → AreAccepted those → map procedure_form rows.now ≡ map named_form those
        → core.now.seen.procedures ≡ latest [] those → IfErr result (λ e. e ≡ Memory) }
{
    let stored = procedures_of(alloc, rows)?;
    if are_same_procedures(&stored, core.procedures()) {
        Ok(())
    } else {
        Err(StoreFault::BadRow { table: PROCEDURE })
    }
}
