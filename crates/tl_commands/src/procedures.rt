// The commands on procedures alone: `asm`, `dis`, `migrate` and `verify`.

ghost use Rattle.std.specs.Prelude.{◌≡◌, ◌≢◌, [], ◌∷◌, ◌++◌, false, pos, length, codes, string_bytes, IfOk, IfErr, IsUtf8};
ghost use Rattle.serde_json.specs.Data.{object, member, no_members};
ghost use Rattle.serde_json.specs.View.{view};
ghost use Rattle.serde_json.specs.Written.{has_float, compact_text};
ghost use Rattle.tl_tree.specs.Writing.{integer_data};
ghost use Rattle.tl_instr.specs.declared.version.Version.TheVariants.{One};
ghost use Rattle.tl_instr.specs.Codes.{migrated};
ghost use Rattle.tl_instr.specs.Spelling.{Spelled};
ghost use Rattle.tl_asm.specs.Texts.{Written};
ghost use Rattle.tl_commands.specs.Procedures.{count_text, bounds_text, Assembles, IsFirstAssemblingFault, Lists, IsFirstContainerFault, Migrates, IsFirstMigratingFault, Verifies, IsFirstVerifyingFault};

use crate::fault::CliFault;
use serde_json::{Value, json};
use std::alloc::{AllocError, Global};
use tl_asm::{assemble, disassemble};
use tl_budget::Bounds;
use tl_instr::{Code, CodeFault, decode, encode, migrate_code};
use tl_lines::{bounds_to_value, line_of};
use tl_verify::verify;

/// The code of an assembler text.
pub fn code_of_text(alloc: Global, text: &[u8]) -> Result<Code, CliFault>
    ensures utf8 { IfOk result (λ _. IsUtf8 text.now) }
    ensures written { IfOk result (λ code. Written text.now code) }
    ensures fault { IfErr result (λ e. IsFirstAssemblingFault text.now e) }
{
    let Ok(text) = std::str::from_utf8(text) else {
        return Err(CliFault::NotUtf8);
    };
    assemble(alloc, text).map_err(CliFault::Asm)
}

// The code of a container.
fn code_of_container(alloc: Global, container: &[u8]) -> Result<Code, CliFault>
    ensures spelled { IfOk result (λ code. Spelled container.now code) }
    ensures fault { IfErr result (λ e. IsFirstContainerFault container.now e) }
{
    match decode(alloc, container) {
        Ok(code) => Ok(code),
        Err(fault) => Err(CliFault::Code(fault)),
    }
}

fn count_to_value(alloc: Global, count: Value) -> Result<Value, AllocError>
    ensures { IfOk result (λ v. view v ≡ object (member (codes "count") (view count) no_members)) }
{
    json!(in alloc; {"count": count})
}

// The line that says how many instructions a code has.
fn count_line(alloc: Global, code: &Code) -> Result<String, AllocError>
    ensures { IfOk result (λ s. string_bytes s ≡ count_text (length code.now.instrs)) }
{
    let value = count_to_value(alloc, Value::from(code.count()))?;
    line_of(alloc, &value)
}

/// The line that says what a procedure does at most.
pub fn bounds_line(alloc: Global, bounds: Bounds) -> Result<String, AllocError>
    ensures { IfOk result (λ s. string_bytes s ≡ bounds_text bounds.emits bounds.locks bounds.steps) }
{
    let emits = Value::from(bounds.emits);
    let locks = Value::from(bounds.locks);
    let value = bounds_to_value(alloc, emits, locks, Value::from(bounds.steps))?;
    line_of(alloc, &value)
}

/// The line that says how many instructions the code of an assembler text has, and the code's container. Takes the bytes of
/// the text's file.
///
/// The first fault, in this order: 255 if the text isn't UTF-8; line by line 251, 253 and 254; 251 if no line has the arity
/// or an instruction; 252. If memory was refused, 290 or 990.
pub fn asm_cmd(alloc: Global, text: &[u8]) -> Result<(String, Vec<u8>), CliFault>
    ensures printed { IfOk result (λ r. Assembles text.now (string_bytes r.0) r.1.items) }
    ensures fault { IfErr result (λ e. IsFirstAssemblingFault text.now e) }
{
    let code = code_of_text(alloc, text)?;
    let container = encode(alloc, &code).map_err(CliFault::Code)?;
    let line = count_line(alloc, &code)?;
    Ok((line, container))
}

/// The canonical text of a container's code. Takes the bytes of the container's file.
///
/// Otherwise the container's first fault, 201 to 206. If memory was refused, 290.
pub fn dis_cmd(alloc: Global, container: &[u8]) -> Result<String, CliFault>
    ensures printed { IfOk result (λ text. Lists container.now (string_bytes text)) }
    ensures fault { IfErr result (λ e. IsFirstContainerFault container.now e) }
{
    let code = code_of_container(alloc, container)?;
    disassemble(alloc, &code).map_err(CliFault::Asm)
}

// The same code in the second version. 207 if it isn't in the first version.
fn migrated_code(code: Code) -> Result<Code, CliFault>
    ensures migrated { IfOk result (λ c. (code.version ≡ One) × (c ≡ migrated code)) }
    ensures fault { IfErr result (λ e. (e ≡ CliFault.Code CodeFault.NotVersion1) × (code.version ≢ One)) }
{
    match migrate_code(code) {
        Ok(code) => Ok(code),
        Err((_, fault)) => Err(CliFault::Code(fault)),
    }
}

/// The line that says how many instructions a container's code has, and the container of the same code in the second
/// version of the language. Takes the bytes of the container's file.
///
/// Otherwise the container's first fault, 201 to 206, or 207 if it isn't in the first version. If memory was refused, 290
/// or 990.
pub fn migrate_cmd(alloc: Global, container: &[u8]) -> Result<(String, Vec<u8>), CliFault>
    ensures printed { IfOk result (λ r. Migrates container.now (string_bytes r.0) r.1.items) }
    ensures fault { IfErr result (λ e. IsFirstMigratingFault container.now e) }
{
    let code = migrated_code(code_of_container(alloc, container)?)?;
    let container = encode(alloc, &code).map_err(CliFault::Code)?;
    let line = count_line(alloc, &code)?;
    Ok((line, container))
}

/// The line for the bounds of a container's procedure. Takes the bytes of the container's file.
///
/// Otherwise the container's first fault, 201 to 206, or the verifier's, 301 to 307 and 401 to 409. If memory was refused,
/// 290, 490 or 990.
pub fn verify_cmd(alloc: Global, container: &[u8]) -> Result<String, CliFault>
    ensures printed { IfOk result (λ s. Verifies container.now (string_bytes s)) }
    ensures fault { IfErr result (λ e. IsFirstVerifyingFault container.now e) }
{
    let code = code_of_container(alloc, container)?;
    match verify(alloc, code) {
        Ok(procedure) => Ok(bounds_line(alloc, procedure.bounds())?),
        Err((_, fault)) => Err(CliFault::Verify(fault)),
    }
}
