// The commands on texts of the procedure language: `compile`, `procs`, and `check` of such a text.

ghost use Rattle.std.specs.Prelude.{◌≡◌, length, map, codes, option_map, string_bytes, IfOk, IfErr};
ghost use Rattle.serde_json.specs.Data.{object, member, no_members};
ghost use Rattle.serde_json.specs.View.{view};
ghost use Rattle.tl_budget.specs.Loops.{budget, lock_bound, emit_bound};
ghost use Rattle.tl_json.specs.Lists.{list_data};
ghost use Rattle.tl_json.specs.Procedures.{procedure_data};
ghost use Rattle.tl_sources.specs.declared.source.Source.TheVariants.{Language};
ghost use Rattle.tl_language_commands.specs.Compiling.{compiled_text, checked_data, CompilesTo, IsFirstCompilingFault, ListsText, IsFirstTextFault};

use crate::fault::LanguageFault;
use serde_json::{Value, json};
use std::alloc::{AllocError, Global};
use tl_asm::disassemble;
use tl_instr::encode;
use tl_lines::{bounds_to_value, line_of};
use tl_procedures::NamedProcedure;
use tl_sources::{Source, procedure_of, procedures_of};
use tl_verify::Proc;

fn compiled_to_value(
    alloc: Global,
    emits: Value,
    locks: Value,
    steps: Value,
    count: Value,
) -> Result<Value, AllocError>
    ensures { IfOk result (λ v. view v ≡ object (member (codes "bounds") (object
        (member (codes "emits") (view emits) (member (codes "locks") (view locks) (member (codes "steps") (view steps) no_members)))) (member (codes "count") (view count) no_members))) }
{
    json!(in alloc; {
        "bounds": {"emits": emits, "locks": locks, "steps": steps},
        "count": count
    })
}

// The line that says what a procedure does at most and how many instructions it has.
fn compiled_line(alloc: Global, procedure: &Proc) -> Result<String, AllocError>
    ensures { IfOk result (λ s. string_bytes s ≡ compiled_text (emit_bound procedure.now.instrs) (lock_bound procedure.now.instrs) (budget procedure.now.instrs) (length procedure.now.instrs)) }
{
    let bounds = procedure.bounds();
    let emits = Value::from(bounds.emits);
    let locks = Value::from(bounds.locks);
    let steps = Value::from(bounds.steps);
    let count = Value::from(procedure.code().count());
    let value = compiled_to_value(alloc, emits, locks, steps, count)?;
    line_of(alloc, &value)
}

/// The line that says what the procedure of that name does at most and how many instructions it has, and its container.
/// Without a name, it is the only procedure of the text. Takes the bytes of the text's file.
///
/// Otherwise the first fault: 255; 270 to 293 and 299 for the text; 294 to 297, procedure by procedure; 289. If memory was refused,
/// 290 or 990.
#[tactic(auto, using(crate::proofs::CompilingLemmas::compiling_fault))]
pub fn compile_cmd(
    alloc: Global,
    text: &[u8],
    name: Option<&str>,
) -> Result<(String, Vec<u8>), LanguageFault>
    ensures printed { IfOk result (λ r. CompilesTo text.now (option_map (λ n. n.now) name.entry) (string_bytes r.0) r.1.items) }
    ensures fault { IfErr result (IsFirstCompilingFault (Language text.entry) (option_map (λ n. n.now) name.entry)) }
{
    let procedure = procedure_of(alloc, Source::Language(text), name)?;
    let container = match encode(alloc, procedure.code()) {
        Ok(container) => container,
        Err(fault) => return Err(LanguageFault::Code(fault)),
    };
    let line = compiled_line(alloc, &procedure)?;
    Ok((line, container))
}

// `[name,text]`
fn procedure_to_value(alloc: Global, one: NamedProcedure) -> Result<Value, AllocError>
    ensures { IfOk result (λ v. view v ≡ procedure_data one) }
{
    let (name, procedure) = one.into_parts();
    let Ok(text) = disassemble(alloc, procedure.code()) else {
        return Err(AllocError);
    };
    json!(in alloc; [name.as_str(), text.as_str()])
}

// `[name,{"bounds":{..}}]`
fn checked_to_value(alloc: Global, one: NamedProcedure) -> Result<Value, AllocError>
    ensures { IfOk result (λ v. view v ≡ checked_data one) }
{
    let (name, procedure) = one.into_parts();
    let bounds = procedure.bounds();
    let emits = Value::from(bounds.emits);
    let locks = Value::from(bounds.locks);
    let bounds = bounds_to_value(alloc, emits, locks, Value::from(bounds.steps))?;
    json!(in alloc; [name.as_str(), bounds])
}

// `[[name,text],..]`
#[tactic(auto, using(crate::proofs::CompilingLemmas::array_of))]
fn procedures_to_value(alloc: Global, procedures: Vec<NamedProcedure>) -> Result<Value, AllocError>
    ensures { IfOk result (λ v. view v ≡ list_data (map procedure_data procedures.items)) }
{
    let mut items = Vec::with_capacity(alloc, procedures.len())?;
    for one in procedures {
        items.push(procedure_to_value(alloc, one)?)?;
    }
    Ok(Value::Array(items))
}

// `[[name,{"bounds":{..}}],..]`
#[tactic(auto, using(crate::proofs::CompilingLemmas::array_of))]
fn all_checked_to_value(alloc: Global, procedures: Vec<NamedProcedure>) -> Result<Value, AllocError>
    ensures { IfOk result (λ v. view v ≡ list_data (map checked_data procedures.items)) }
{
    let mut items = Vec::with_capacity(alloc, procedures.len())?;
    for one in procedures {
        items.push(checked_to_value(alloc, one)?)?;
    }
    Ok(Value::Array(items))
}

/// The line for the procedures of a text, `[[name,text],..]`, each with its canonical assembler text. Takes the bytes of
/// the text's file.
///
/// Otherwise the first fault: 255; 270 to 293 and 299 for the text; 294 to 297, procedure by procedure. If memory was refused, 290
/// or 990.
#[tactic(auto, using(crate::proofs::CompilingLemmas::text_fault))]
pub fn procs_cmd(alloc: Global, text: &[u8]) -> Result<String, LanguageFault>
    ensures printed { IfOk result (λ s. ListsText procedure_data text.now (string_bytes s)) }
    ensures fault { IfErr result (IsFirstTextFault text.now) }
{
    let procedures = procedures_of(alloc, text)?;
    let list = procedures_to_value(alloc, procedures)?;
    Ok(line_of(alloc, &list)?)
}

/// The line for what the procedures of a text do at most, `[[name,{"bounds":{..}}],..]`. Takes the bytes of the text's file.
///
/// Otherwise the first fault, as for `procs_cmd`.
#[tactic(auto, using(crate::proofs::CompilingLemmas::text_fault))]
pub fn check_procs_cmd(alloc: Global, text: &[u8]) -> Result<String, LanguageFault>
    ensures printed { IfOk result (λ s. ListsText checked_data text.now (string_bytes s)) }
    ensures fault { IfErr result (IsFirstTextFault text.now) }
{
    let procedures = procedures_of(alloc, text)?;
    let list = all_checked_to_value(alloc, procedures)?;
    Ok(line_of(alloc, &list)?)
}
