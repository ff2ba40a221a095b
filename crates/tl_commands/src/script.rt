// The scripts of the commands `drive` and `run`.

ghost use Rattle.std.specs.Prelude.{◌≡◌, ◌⊎◌, ◌≤◌, [], codes, length, option_map, All, IfOk, IfErr, IfSome, MatchOption};
ghost use Rattle.serde_json.specs.View.{view};
ghost use Rattle.tl_json.specs.Lists.{list_data};
ghost use Rattle.tl_table.specs.declared.epoch.TheConstants.{MAX_EPOCHS};
ghost use Rattle.tl_workers.specs.declared.batch.TheConstants.{MAX_REQUESTS};
ghost use Rattle.tl_commands.specs.Script.{ScriptValue, beside, script_view, move_view, batch_form, call_of, both_of, tasks_of, parts_of, script_of, script_of_moves, script_of_calls, script_of_epochs, script_of_run, is_of_epochs, has_epochs, IsScript};

use crate::fault::CliFault;
use serde_json::Value;
use std::alloc::{AllocError, Global};
use tl_core::Move;
use tl_json::{FromValue, ProcedureText, Request, each_of, parse};
use tl_procedures::NamedProcedure;
use tl_table::MAX_EPOCHS;
use tl_workers::MAX_REQUESTS;

/// What a script says: which procedures are registered, and what is then to be done, moves or calls.
#[derive(Debug, Drop)]
pub struct Script<T> {
    pub procedures: Vec<ProcedureText>,
    pub tasks: Vec<T>,
}

// The number of a call, 0 to 4,294,967,295.
fn call_of_value(value: &Value) -> Option<u32>
    ensures { result ≡ call_of (view value.now) }
{
    u32::try_from(value.as_u64()?).ok()
}

/// The form of a move: an admission or a step.
struct MoveForm;

impl FromValue for MoveForm {
    type Item = Move;

    ghost use Rattle.tl_commands.specs.Script.{MoveValue, move_view, move_of};

    ghost Form = { MoveValue };

    ghost form = { move_view };

    ghost form_of = { move_of };

    fn from_value(alloc: Global, value: &Value) -> Result<Option<Move>, AllocError> {
        if let Some(call) = call_of_value(value) {
            return Ok(Some(Move::Step { call }));
        }
        let Some(Request { name, args }) = Request::from_value(alloc, value)? else {
            return Ok(None);
        };
        Ok(Some(Move::Admit { name, args }))
    }
}

// What stands for the procedures of a script that names none, if others are given beside it.
fn stands_in<'a>(none: &'a Value, others: &[NamedProcedure]) -> Option<&'a Value>
    requires { view none.now ≡ list_data [] }
    ensures { option_map (λ v. view v.now) result ≡ beside others.now }
{
    match others {
        [] => None,
        [_, ..] => Some(none),
    }
}

// The procedures and the tasks of an object that has these two members and no others.
fn both_of_value<'a>(value: &'a Value, tasks: &str) -> Option<(&'a Value, &'a Value)>
    ensures { option_map (λ parts. (view parts.0.now, view parts.1.now)) result ≡ both_of tasks.now (view value.now) }
{
    if value.as_object()?.len() != 2 {
        return None;
    }
    Some((value.get("procs")?, value.get(tasks)?))
}

// The tasks of an object that has no other member.
fn tasks_of_value<'a>(value: &'a Value, tasks: &str) -> Option<&'a Value>
    ensures { option_map (λ v. view v.now) result ≡ tasks_of tasks.now (view value.now) }
{
    if value.as_object()?.len() != 1 {
        return None;
    }
    value.get(tasks)
}

// The procedures and the tasks of a script, which may have only the tasks if something stands for the procedures.
fn parts_of_value<'a>(
    value: &'a Value,
    none: Option<&'a Value>,
    tasks: &str,
) -> Option<(&'a Value, &'a Value)>
    ensures { option_map (λ parts. (view parts.0.now, view parts.1.now)) result ≡ parts_of (option_map (λ v. view v.now) none.entry) tasks.now (view value.now) }
{
    match both_of_value(value, tasks) {
        Some(parts) => Some(parts),
        None => Some((none?, tasks_of_value(value, tasks)?)),
    }
}

// The script that a value stands for. Its tasks are the member of that name, and have that form.
fn script_of_value<F: FromValue>(
    alloc: Global,
    value: &Value,
    none: Option<&Value>,
    tasks: &str,
) -> Result<Option<Script<F::Item>>, AllocError>
    ensures { IfOk result (λ found. option_map (script_view F.form) found ≡ script_of (option_map (λ v. view v.now) none.entry) tasks.now F.form_of (view value.now)) }
{
    let Some((procedures, tasks)) = parts_of_value(value, none, tasks) else {
        return Ok(None);
    };
    let Some(procedures) = each_of::<ProcedureText>(alloc, procedures)? else {
        return Ok(None);
    };
    let Some(tasks) = each_of::<F>(alloc, tasks)? else {
        return Ok(None);
    };
    Ok(Some(Script { procedures, tasks }))
}

// The script in a file. Its tasks are the member of that name, and have that form.
fn script_of_file<F: FromValue>(
    alloc: Global,
    bytes: &[u8],
    tasks: &str,
    others: &[NamedProcedure],
) -> Result<Option<Script<F::Item>>, AllocError>
    ensures { IfOk result (λ found. MatchOption found ((s : ScriptValue F.Form) → ¬ IsScript (script_of (beside others.now) tasks.now F.form_of) bytes.now s)
        (λ script. IsScript (script_of (beside others.now) tasks.now F.form_of) bytes.now (script_view F.form script))) }
{
    let none = Value::Array(Vec::new(alloc));
    match parse(alloc, bytes)? {
        Some(value) => script_of_value::<F>(alloc, &value, stands_in(&none, others), tasks),
        None => Ok(None),
    }
}

/// The script of moves in a file: `{"moves":[move,..],"procs":[[name,text],..]}`, an object with these two members and no
/// others. A procedure is a list of its name and its assembler text, two strings. A move is an admission, a list of a
/// procedure's name and a list of arguments, signed 64-bit integers; or a step, the number of a call, 0 to 4,294,967,295.
/// If there are other procedures beside the script's, it may be without `procs`.
///
/// 731 for anything else, also if the file isn't UTF-8; 990 if memory is refused.
pub fn read_moves(
    alloc: Global,
    bytes: &[u8],
    others: &[NamedProcedure],
) -> Result<Script<Move>, CliFault>
    ensures ok { IfOk result (λ s. IsScript (script_of_moves (beside others.now)) bytes.now (script_view move_view s)) }
    ensures fault { IfErr result (λ e. (e ≡ CliFault.Memory) ⊎ (e ≡ CliFault.NotScript) × ((s : ScriptValue _) → ¬ IsScript (script_of_moves (beside others.now)) bytes.now s)) }
{
    match script_of_file::<MoveForm>(alloc, bytes, "moves", others)? {
        Some(script) => Ok(script),
        None => Err(CliFault::NotScript),
    }
}

/// The form of the calls of one batch: 1 to 256 requests.
struct BatchForm;

impl FromValue for BatchForm {
    type Item = Vec<Request>;

    ghost use Rattle.std.specs.Prelude.{ℕ, ℤ, List, map};
    ghost use Rattle.tl_json.specs.Requests.{request_form};
    ghost use Rattle.tl_commands.specs.Script.{batch_of};

    ghost Form = { List (List ℕ × List ℤ) };

    ghost form = { λ requests. map request_form requests.items };

    ghost form_of = { batch_of };

    fn from_value(alloc: Global, value: &Value) -> Result<Option<Vec<Request>>, AllocError> {
        match each_of::<Request>(alloc, value)? {
            Some(requests) if !requests.is_empty() && requests.len() <= MAX_REQUESTS => {
                Ok(Some(requests))
            }
            _ => Ok(None),
        }
    }
}

/// What a script of calls says: the batches, one per epoch, and whether it names epochs.
#[derive(Debug, Drop)]
pub struct RunScript {
    pub script: Script<Vec<Request>>,
    pub has_epochs: bool,
}

// The procedures and the one batch of an object with these two members and no others.
fn calls_of_value(
    alloc: Global,
    value: &Value,
    none: Option<&Value>,
) -> Result<Option<Script<Vec<Request>>>, AllocError>
    ensures { IfOk result (λ found. option_map (script_view batch_form) found ≡ script_of_calls (option_map (λ v. view v.now) none.entry) (view value.now)) }
{
    let Some((procedures, calls)) = parts_of_value(value, none, "calls") else {
        return Ok(None);
    };
    let Some(procedures) = each_of::<ProcedureText>(alloc, procedures)? else {
        return Ok(None);
    };
    let Some(requests) = BatchForm::from_value(alloc, calls)? else {
        return Ok(None);
    };
    let mut tasks = Vec::with_capacity(alloc, 1)?;
    tasks.push_reserved(requests);
    Ok(Some(Script { procedures, tasks }))
}

// The procedures and the batches of an object with these two members and no others: 1 to 256 batches.
fn epochs_of_value(
    alloc: Global,
    value: &Value,
    none: Option<&Value>,
) -> Result<Option<Script<Vec<Request>>>, AllocError>
    ensures { IfOk result (λ found. option_map (script_view batch_form) found ≡ script_of_epochs (option_map (λ v. view v.now) none.entry) (view value.now)) }
{
    match script_of_value::<BatchForm>(alloc, value, none, "epochs")? {
        Some(script) if !script.tasks.is_empty() && script.tasks.len() <= MAX_EPOCHS => {
            Ok(Some(script))
        }
        _ => Ok(None),
    }
}

fn run_script_of_value(
    alloc: Global,
    value: &Value,
    none: Option<&Value>,
) -> Result<Option<RunScript>, AllocError>
    ensures script { IfOk result (λ found. option_map (λ r. script_view batch_form r.script) found ≡ script_of_run (option_map (λ v. view v.now) none.entry) (view value.now)) }
    ensures epochs { IfOk result (λ found. IfSome found (λ r. r.has_epochs ≡ is_of_epochs (option_map (λ v. view v.now) none.entry) (view value.now))) }
{
    if let Some(script) = calls_of_value(alloc, value, none)? {
        return Ok(Some(RunScript {
            script,
            has_epochs: false,
        }));
    }
    match epochs_of_value(alloc, value, none)? {
        Some(script) => Ok(Some(RunScript {
            script,
            has_epochs: true,
        })),
        None => Ok(None),
    }
}

/// The script of calls in a file: `{"calls":[request,..],"procs":[[name,text],..]}`, with 1 to 256 calls, or
/// `{"epochs":[[request,..],..],"procs":[[name,text],..]}`, with 1 to 256 lists of 1 to 256 calls; an object with these two
/// members and no others. A procedure is as in a script of moves, and a request is what an admission is there. If there are other
/// procedures beside the script's, it may be without `procs`.
///
/// 731 for anything else, also if the file isn't UTF-8; 990 if memory is refused.
pub fn read_calls(
    alloc: Global,
    bytes: &[u8],
    others: &[NamedProcedure],
) -> Result<RunScript, CliFault>
    ensures ok { IfOk result (λ r. IsScript (script_of_run (beside others.now)) bytes.now (script_view batch_form r.script)) }
    ensures epochs { IfOk result (λ r. r.has_epochs ≡ has_epochs (beside others.now) bytes.now) }
    ensures some { IfOk result (λ r. 1 ≤ length r.script.tasks.items) }
    ensures few { IfOk result (λ r. length r.script.tasks.items ≤ MAX_EPOCHS) }
    ensures each { IfOk result (λ r. All (λ b. (1 ≤ length b.items) × (length b.items ≤ MAX_REQUESTS)) r.script.tasks.items) }
    ensures fault { IfErr result (λ e. (e ≡ CliFault.Memory) ⊎ (e ≡ CliFault.NotScript) × ((s : ScriptValue _) → ¬ IsScript (script_of_run (beside others.now)) bytes.now s)) }
{
    let Some(value) = parse(alloc, bytes)? else {
        return Err(CliFault::NotScript);
    };
    let none = Value::Array(Vec::new(alloc));
    match run_script_of_value(alloc, &value, stands_in(&none, others))? {
        Some(asked) => Ok(asked),
        None => Err(CliFault::NotScript),
    }
}
