// The procedures.

ghost use Rattle.std.specs.Prelude.{◌≡◌, List, [], map, IfOk, OnOk, IfErr, MatchResult};
ghost use Rattle.tl_instr.specs.Codes.{CodeValue, IsCode};
ghost use Rattle.tl_instr.specs.Spelling.{Spelled, spelling};
ghost use Rattle.tl_verify.specs.Acceptable.{Acceptable};
ghost use Rattle.tl_procedures.specs.Names.{Named, put, latest, MayPut, MayPutAll};
ghost use Rattle.tl_json.specs.Procedures.{AreAccepted};
ghost use Rattle.tl_store.specs.declared.fault.StoreFault.TheVariants as fault;
ghost use Rattle.tl_rows.specs.Rows.{procedure_form, named_form, AreLatest};

use crate::fault::StoreFault;
use std::alloc::Global;
use tl_instr::{CodeFault, decode};
use tl_ledger::{PROCEDURE, ProcedureRow};
use tl_procedures::{NamingFault, Procedures};
use tl_verify::{Proc, VerifyFault, verify};

// The procedure of a container.
fn procedure_of(alloc: Global, container: &[u8]) -> Result<Proc, StoreFault>
    ensures code { IfOk result (λ p. container.now ≡ spelling p) }
    ensures again { (code : CodeValue) → IsCode code → Acceptable code.instrs → container.now ≡ spelling code → MatchResult result (λ p. p ≡ code) (λ e. e ≡ fault.Memory) }
{
    let code = match decode(alloc, container) {
        Ok(code) => code,
        Err(CodeFault::Memory) => return Err(StoreFault::Memory),
        Err(_) => return Err(StoreFault::BadRow { table: PROCEDURE }),
    };
    match verify(alloc, code) {
        Ok(procedure) => Ok(procedure),
        Err((_, VerifyFault::Memory)) => Err(StoreFault::Memory),
        Err(_) => Err(StoreFault::BadRow { table: PROCEDURE }),
    }
}

// Puts the procedure of a row in the place of the one with its name, or as the last.
fn put(alloc: Global, procedures: &mut Procedures, row: &ProcedureRow) -> Result<(), StoreFault>
    ensures put { OnOk result ((p : Named) × (named_form p ≡ procedure_form row.now) × (procedures.new ≡ put procedures.old p)) }
    ensures again { (p : Named) → IsCode p.code → Acceptable p.code.instrs → procedure_form row.now ≡ named_form p → MayPut procedures.old p → IfErr result (λ e. e ≡ fault.Memory) }
    ensures same { (p : Named) → IsCode p.code → Acceptable p.code.instrs → procedure_form row.now ≡ named_form p → OnOk result (procedures.new ≡ put procedures.old p) }
{
    let procedure = procedure_of(alloc, &row.container)?;
    match procedures.put(alloc, &row.name, procedure) {
        Ok(()) => Ok(()),
        Err(NamingFault::Memory) => Err(StoreFault::Memory),
        Err(_) => Err(StoreFault::BadRow { table: PROCEDURE }),
    }
}

/// The procedures of these rows under their names, numbered from 0 in the order in which their names came first; of several with one name the
/// latest. 1003 and the table if a container isn't that of an accepted code, or a name is none.
pub fn procedures_of(alloc: Global, rows: &[ProcedureRow]) -> Result<Procedures, StoreFault>
    ensures latest { IfOk result (λ procedures. AreLatest rows.now procedures) }
    ensures again { (those : List Named) → MayPutAll [] those → AreAccepted those → map procedure_form rows.now ≡ map named_form those
        → MatchResult result (λ procedures. procedures ≡ latest [] those) (λ e. e ≡ fault.Memory) }
{
    let mut procedures = Procedures::new(alloc);
    for row in rows {
        put(alloc, &mut procedures, row)?;
    }
    Ok(procedures)
}
