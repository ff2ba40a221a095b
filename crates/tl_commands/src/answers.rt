// The results of calls that were requested together, as JSON values.

ghost use Rattle.std.specs.Prelude.{◌≡◌, codes, map, IfOk};
ghost use Rattle.serde_json.specs.Data.{object, member, no_members};
ghost use Rattle.serde_json.specs.View.{view};
ghost use Rattle.tl_json.specs.Lists.{list_data, natural};
ghost use Rattle.tl_commands.specs.Run.{with_epoch, answer_data, batch_data};

use crate::trace::error_to_value;
use serde_json::{Value, json};
use std::alloc::{AllocError, Global};
use tl_table::Receipt;
use tl_tree::integers_to_value;
use tl_workers::Refusal;

fn first_parts_to_value(alloc: Global, call: u32, reply: Value) -> Result<Value, AllocError>
    ensures { IfOk result (λ v. view v ≡ object (member (codes "call") (natural call) (member (codes "reply") (view reply) no_members))) }
{
    json!(in alloc; {"call": call, "reply": reply})
}

fn later_parts_to_value(
    alloc: Global,
    call: u32,
    epoch: u32,
    reply: Value,
) -> Result<Value, AllocError>
    ensures { IfOk result (λ v. view v ≡ object (member (codes "call") (natural call) (member (codes "epoch") (natural epoch) (member (codes "reply") (view reply) no_members)))) }
{
    json!(in alloc; {"call": call, "epoch": epoch, "reply": reply})
}

// A call of an epoch. The epoch's number is left out if it is the first.
fn parts_to_value(alloc: Global, call: u32, epoch: u32, reply: Value) -> Result<Value, AllocError>
    ensures { IfOk result (λ v. view v ≡ object (member (codes "call") (natural call) (with_epoch epoch (member (codes "reply") (view reply) no_members)))) }
{
    if epoch == 0 {
        return first_parts_to_value(alloc, call, reply);
    }
    later_parts_to_value(alloc, call, epoch, reply)
}

// The call's number and reply, or why the request was refused.
fn answer_to_value(alloc: Global, answer: &Result<Receipt, Refusal>) -> Result<Value, AllocError>
    ensures { IfOk result (λ v. view v ≡ answer_data answer.now) }
{
    match answer {
        Ok(receipt) => {
            let reply = integers_to_value(alloc, receipt.reply.as_slice())?;
            parts_to_value(alloc, receipt.call, receipt.epoch, reply)
        }
        Err(refusal) => error_to_value(alloc, refusal.numbers().as_slice()),
    }
}

fn answers_to_value(
    alloc: Global,
    answers: &[Result<Receipt, Refusal>],
) -> Result<Value, AllocError>
    ensures { IfOk result (λ v. view v ≡ list_data (map answer_data answers.now)) }
{
    let mut items = Vec::with_capacity(alloc, answers.len())?;
    for answer in answers {
        items.push(answer_to_value(alloc, answer)?)?;
    }
    Ok(Value::Array(items))
}

fn member_to_value(alloc: Global, answers: Value) -> Result<Value, AllocError>
    ensures { IfOk result (λ v. view v ≡ object (member (codes "batch") (view answers) no_members)) }
{
    json!(in alloc; {"batch": answers})
}

/// `{"batch":[..]}`, with an answer to each request: `{"call":c,"reply":[..]}`, from the second epoch on
/// `{"call":c,"epoch":e,"reply":[..]}`, or `{"error":[number,..]}` if it was refused.
pub fn batch_to_value(
    alloc: Global,
    answers: &[Result<Receipt, Refusal>],
) -> Result<Value, AllocError>
    ensures { IfOk result (λ v. view v ≡ batch_data answers.now) }
{
    let answers = answers_to_value(alloc, answers)?;
    member_to_value(alloc, answers)
}
