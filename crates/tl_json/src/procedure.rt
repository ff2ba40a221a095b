// Procedures as texts.

ghost use Rattle.std.specs.Prelude.{◌≡◌, ◌<◌, [], option_map, length, map, IfOk, OnOk, IfErr, get_or};
ghost use Rattle.std.specs.Arc.{arc_value};
ghost use Rattle.serde_json.specs.View.{view};
ghost use Rattle.tl_instr.specs.Codes.{IsCode};
ghost use Rattle.tl_verify.specs.Acceptable.{Acceptable};
ghost use Rattle.tl_procedures.specs.Names.{AreFreeAfter};
ghost use Rattle.tl_json.specs.Lists.{list_data};
ghost use Rattle.tl_json.specs.Procedures.{procedure_data, AreAccepted};

use crate::json::{FromValue, two_of};
use serde_json::{Value, json};
use std::alloc::{AllocError, Global};
use tl_asm::disassemble;
use tl_procedures::Procedures;
use tl_verify::Proc;

/// A procedure as it is written: its name, and its assembler text.
#[derive(Debug, Drop)]
pub struct ProcedureText {
    pub name: String,
    pub text: String,
}

/// `[name,text]`
impl FromValue for ProcedureText {
    type Item = ProcedureText;

    ghost use Rattle.std.specs.Prelude.{ℕ, List};
    ghost use Rattle.tl_json.specs.Procedures.{procedure_form, procedure_of};

    ghost Form = { List ℕ × List ℕ };

    ghost form = { procedure_form };

    ghost form_of = { procedure_of };

    fn from_value(alloc: Global, value: &Value) -> Result<Option<ProcedureText>, AllocError> {
        let Some(items) = value.as_array() else {
            return Ok(None);
        };
        let Some((name, text)) = two_of(items) else {
            return Ok(None);
        };
        let Some(name) = name.as_str() else {
            return Ok(None);
        };
        let Some(text) = text.as_str() else {
            return Ok(None);
        };
        Ok(Some(ProcedureText {
            name: String::from_str(alloc, name)?,
            text: String::from_str(alloc, text)?,
        }))
    }
}

fn procedure_to_value(alloc: Global, name: &str, procedure: &Proc) -> Result<Value, AllocError>
    ensures value { IfOk result (λ v. view v ≡ procedure_data (record { name = name.now; code = procedure.now })) }
    ensures code { IsCode procedure.now }
    ensures accepted { Acceptable procedure.now.instrs }
{
    let Ok(text) = disassemble(alloc, procedure.code()) else {
        return Err(AllocError);
    };
    json!(in alloc; [name, text.as_str()])
}

/// The list of the procedures by number, each as `[name,text]` with its canonical assembler text.
pub fn procedures_to_value(alloc: Global, procedures: &Procedures) -> Result<Value, AllocError>
    ensures value { IfOk result (λ v. view v ≡ list_data (map procedure_data procedures.now)) }
    ensures accepted { OnOk result (AreAccepted procedures.now) }
    ensures free { AreFreeAfter [] procedures.now }
{
    let mut items = Vec::with_capacity(alloc, procedures.len())?;
    for number in 0..procedures.len() {
        let number = number as u32;
        let value = procedure_to_value(alloc, procedures.name(number), procedures.get(number))?;
        items.push(value)?;
    }
    Ok(Value::Array(items))
}
