// What came of a request, and its answer.

ghost use Rattle.tl_server.specs.Answers.{line_text};
ghost use Rattle.tl_server.specs.Outcomes.{outcome_text};
ghost use Rattle.tl_server.specs.Sending.{Puts};

use crate::answer::{put_error_line, put_line};
use crate::device::Sink;
use crate::fault::{KeyFault, LineFault};
use crate::outbox::Outbox;
use crate::texts::{NamedBounds, ReplaceFault, TextFault};
use tl_budget::Bounds;
use tl_generations::GrowthFault;
use tl_json::RegisterFault;
use tl_keys::Kept;
use tl_table::Receipt;
use tl_workers::Refusal;

/// What came of a request, before it is written.
#[derive(Drop)]
pub enum RequestOutcome {
    /// Of a registration.
    Registered(Result<Bounds, RegisterFault>),
    /// Of the registration of a text's procedures: the name and the bounds of each, in its order.
    RegisteredAll(Result<Vec<NamedBounds>, TextFault>),
    /// Of procedures in the place of others: the name and the bounds of each, in the order of the text.
    Replaced(Result<Vec<NamedBounds>, ReplaceFault>),
    /// Of a call.
    Called(Result<Receipt, Refusal>),
    /// Of a call whose key another had before: what came of that one.
    Recalled(Kept),
    /// Of a call whose key isn't kept.
    KeyRefused(KeyFault),
    /// Of many calls.
    Batched(Result<Vec<Result<Receipt, Refusal>>, Refusal>),
    /// Of a growth: the number of the first new node.
    Grown(Result<u32, GrowthFault>),
    /// Of a request that the service doesn't know.
    Unknown,
    /// Of a seal.
    Sealed(Result<u32, Refusal>),
}

/// What came of a request, and how many epochs there were before the first of the engine that did it.
#[derive(Drop)]
pub struct Done {
    /// The epochs in it are the engine's own.
    pub outcome: RequestOutcome,
    /// The epochs of the engines before.
    pub base: u32,
}

/// Hands the answer to a request over. Its epochs count those of the engines before.
pub(crate) fn put_outcome<K: Sink>(outbox: &mut Outbox, sink: &mut K, done: &Done)
    ensures { Puts K.output K.failures sink.old outbox.old sink.new outbox.new (line_text (outcome_text done.now.base done.now.outcome)) }
{
    let base = done.base;
    match &done.outcome {
        RequestOutcome::Registered(answer) => put_line(outbox, sink, base, answer),
        RequestOutcome::RegisteredAll(answer) => put_line(outbox, sink, base, answer),
        RequestOutcome::Replaced(answer) => put_line(outbox, sink, base, answer),
        RequestOutcome::Called(answer) => put_line(outbox, sink, base, answer),
        RequestOutcome::Recalled(kept) => put_line(outbox, sink, base, kept),
        RequestOutcome::KeyRefused(fault) => {
            put_error_line(outbox, sink, fault.numbers().as_slice())
        }
        RequestOutcome::Batched(answers) => put_line(outbox, sink, base, answers),
        RequestOutcome::Grown(answer) => put_line(outbox, sink, base, answer),
        RequestOutcome::Unknown => {
            put_error_line(outbox, sink, LineFault::NotRequest.numbers().as_slice())
        }
        RequestOutcome::Sealed(answer) => put_line(outbox, sink, base, answer),
    }
}
