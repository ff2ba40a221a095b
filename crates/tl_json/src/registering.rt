// Registers a procedure's text under a number.

ghost use Rattle.std.specs.Prelude.{◌≡◌, [], true, false, length, map, string_bytes, IfOk, IfErr, OnOk, OnErr, MatchResult};
ghost use Rattle.tl_instr.specs.Codes.{CodeValue};
ghost use Rattle.tl_json.specs.Faults.{is_text_memory, is_memory};
ghost use Rattle.tl_json.specs.Procedures.{procedure_form};
ghost use Rattle.tl_json.specs.Registering.{IsCodeText, IsTextFault, IsFit, and_named, TakenUp, IsUnfit, IsFirstUnfit};

use crate::fault::{ProcedureFault, RegisterFault};
use crate::procedure::ProcedureText;
use std::alloc::Global;
use tl_asm::assemble;
use tl_procedures::Procedures;
use tl_verify::{Proc, verify};

/// The procedure of an assembler text. Its first fault: the assembler's 251 to 254, then the verifier's 301 to 307 and 401
/// to 409. 290 or 490 if memory is refused.
pub fn procedure_of_text(alloc: Global, text: &str) -> Result<Proc, ProcedureFault>
    // The procedure is that of the text.
    ensures ok { IfOk result (IsCodeText text.now) }
    // Which fault it is.
    ensures fault { IfErr result (λ e. is_text_memory e ≡ false → IsTextFault text.now e) }
    // If the text has a procedure, it is made, unless memory is refused.
    ensures taken { (c : CodeValue) → IsCodeText text.now c
        → MatchResult result (λ p. p ≡ c) (λ e. is_text_memory e ≡ true) }
{
    let code = assemble(alloc, text)?;
    match verify(alloc, code) {
        Ok(procedure) => Ok(procedure),
        Err((_, fault)) => Err(ProcedureFault::Verify(fault)),
    }
}

/// Registers a procedure's text under a name, and returns its number. The first fault: that of the text, as from
/// `procedure_of_text`, then 612, 611, 613 for the name. 290, 490 or 690 if memory is refused. If it fails, nothing
/// changes.
pub fn register(
    alloc: Global,
    procedures: &mut Procedures,
    written: &ProcedureText,
) -> Result<u32, RegisterFault>
    ensures number { IfOk result (λ n. n ≡ length procedures.old) }
    ensures ok { OnOk result ((code : CodeValue) × IsFit procedures.old (procedure_form written.now) code
        × (procedures.new ≡ and_named procedures.old (string_bytes written.now.name) code)) }
    ensures fault { IfErr result (λ e. is_memory e ≡ false → IsUnfit procedures.old (procedure_form written.now) e) }
    ensures err { OnErr result (procedures.new ≡ procedures.old) }
{
    let procedure = procedure_of_text(alloc, &written.text)?;
    Ok(procedures.add(alloc, &written.name, procedure)?)
}

/// The procedures of these texts under their names, registered one after another, or the fault of the first that has one.
pub fn register_all(alloc: Global, texts: &[ProcedureText]) -> Result<Procedures, RegisterFault>
    ensures ok { IfOk result (TakenUp [] (map procedure_form texts.now)) }
    ensures fault { IfErr result (λ e. is_memory e ≡ false → IsFirstUnfit [] (map procedure_form texts.now) e) }
{
    let mut procedures = Procedures::new(alloc);
    for written in texts {
        register(alloc, &mut procedures, written)?;
    }
    Ok(procedures)
}
