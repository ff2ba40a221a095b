// The texts of answers.

ghost use Rattle.std.specs.Prelude.{◌≡◌, ◌==◌, ℕ, ℤ, List, [], ◌∷◌, ◌+◌, ◌++◌, map, codes, decimal, Result, if◌then◌else◌};
ghost use Rattle.std.specs.Fmt.{signed_decimal};
ghost use Rattle.tl_tree.specs.Writing.{list_text};
ghost use Rattle.tl_server.specs.Sending.{Puts};
ghost use Rattle.tl_server.specs.Outcomes.{later, later_answer};
ghost use Rattle.tl_server.specs.Answers.{comma_before, epoch_text, head_text, stored_text, call_text, error_text, one_text, batch_text, closed_text, line_text};

use crate::device::Sink;
use crate::outbox::Outbox;
use crate::texts::{NamedBounds, ReplaceFault, TextFault};
use itoa::{Buffer, Integer};
use tl_budget::Bounds;
use tl_generations::GrowthFault;
use tl_json::RegisterFault;
use tl_keys::Kept;
use tl_table::Receipt;
use tl_workers::Refusal;

/// What an answer is made of. Its epochs are those of an engine, and so many were before its first, in earlier engines: its text
/// counts these too.
pub(crate) trait Part {
    ghost text: { ℕ → Self → List ℕ };

    fn put<K: Sink>(&self, outbox: &mut Outbox, sink: &mut K, base: u32)
        ensures { Puts K.output K.failures sink.old outbox.old sink.new outbox.new (text base self.now) };
}

impl Part for u64 {
    ghost use Rattle.std.specs.Prelude.{decimal};

    ghost text = { λ _ n. decimal n };

    fn put<K: Sink>(&self, outbox: &mut Outbox, sink: &mut K, _base: u32) {
        put_number(outbox, sink, *self)
    }
}

impl Part for i64 {
    ghost use Rattle.std.specs.Fmt.{signed_decimal};

    ghost text = { λ _ n. signed_decimal n };

    fn put<K: Sink>(&self, outbox: &mut Outbox, sink: &mut K, _base: u32) {
        put_number(outbox, sink, *self)
    }
}

/// `{"emits":e,"locks":l,"steps":s}`
impl Part for Bounds {
    ghost use Rattle.tl_server.specs.Answers.{bounds_text};

    ghost text = { λ _ bounds. bounds_text bounds };

    fn put<K: Sink>(&self, outbox: &mut Outbox, sink: &mut K, _base: u32) {
        outbox.put(sink, b"{\"emits\":");
        put_number(outbox, sink, self.emits);
        outbox.put(sink, b",\"locks\":");
        put_number(outbox, sink, self.locks);
        outbox.put(sink, b",\"steps\":");
        put_number(outbox, sink, self.steps);
        outbox.put(sink, b"}");
    }
}

/// `{"bounds":{"emits":e,"locks":l,"steps":s},"name":name}`
impl Part for NamedBounds {
    ghost use Rattle.tl_server.specs.Answers.{named_bounds_text};

    ghost text = { λ _ named. named_bounds_text named };

    fn put<K: Sink>(&self, outbox: &mut Outbox, sink: &mut K, base: u32) {
        outbox.put(sink, b"{\"bounds\":");
        self.bounds.put(outbox, sink, base);
        outbox.put(sink, b",\"name\":\"");
        // It has letters, digits and `_` alone.
        outbox.put(sink, self.name.as_bytes());
        outbox.put(sink, b"\"}");
    }
}

impl Part for Result<Receipt, Refusal> {
    ghost use Rattle.tl_server.specs.Answers.{one_text};
    ghost use Rattle.tl_server.specs.Outcomes.{later_answer};

    ghost text = { λ base answer. one_text (later_answer base answer) };

    fn put<K: Sink>(&self, outbox: &mut Outbox, sink: &mut K, base: u32) {
        match self {
            Ok(receipt) => put_call(outbox, sink, base, receipt),
            Err(refusal) => put_error(outbox, sink, refusal.numbers().as_slice()),
        }
    }
}

/// `{"call":c,"reply":[..],"stored":e}`
impl Part for Kept {
    ghost use Rattle.tl_server.specs.Answers.{kept_text};

    ghost text = { λ _ kept. kept_text kept };

    fn put<K: Sink>(&self, outbox: &mut Outbox, sink: &mut K, base: u32) {
        put_head(outbox, sink, self.call());
        put_list(outbox, sink, base, self.reply());
        put_stored(outbox, sink, self.epoch());
    }
}

impl Part for Result<Bounds, RegisterFault> {
    ghost use Rattle.tl_server.specs.Answers.{register_text};

    ghost text = { λ _ answer. register_text answer };

    fn put<K: Sink>(&self, outbox: &mut Outbox, sink: &mut K, base: u32) {
        match self {
            Ok(bounds) => {
                outbox.put(sink, b"{\"bounds\":");
                bounds.put(outbox, sink, base);
                outbox.put(sink, b"}");
            }
            Err(fault) => put_error(outbox, sink, fault.numbers().as_slice()),
        }
    }
}

impl Part for Result<Vec<NamedBounds>, TextFault> {
    ghost use Rattle.tl_server.specs.Answers.{text_register_text};

    ghost text = { λ _ answer. text_register_text answer };

    fn put<K: Sink>(&self, outbox: &mut Outbox, sink: &mut K, base: u32) {
        match self {
            Ok(bounds) => {
                outbox.put(sink, b"{\"registered\":");
                put_list(outbox, sink, base, bounds.as_slice());
                outbox.put(sink, b"}");
            }
            Err(fault) => put_error(outbox, sink, fault.numbers().as_slice()),
        }
    }
}

impl Part for Result<Vec<NamedBounds>, ReplaceFault> {
    ghost use Rattle.tl_server.specs.Answers.{replace_text};

    ghost text = { λ _ answer. replace_text answer };

    fn put<K: Sink>(&self, outbox: &mut Outbox, sink: &mut K, base: u32) {
        match self {
            Ok(bounds) => {
                outbox.put(sink, b"{\"replaced\":");
                put_list(outbox, sink, base, bounds.as_slice());
                outbox.put(sink, b"}");
            }
            Err(fault) => put_error(outbox, sink, fault.numbers().as_slice()),
        }
    }
}

impl Part for Result<Vec<Result<Receipt, Refusal>>, Refusal> {
    ghost use Rattle.tl_server.specs.Outcomes.{batch_answer_text};

    ghost text = { λ base answer. batch_answer_text base answer };

    fn put<K: Sink>(&self, outbox: &mut Outbox, sink: &mut K, base: u32) {
        match self {
            Ok(answers) => put_batch(outbox, sink, base, answers.as_slice()),
            Err(refusal) => put_error(outbox, sink, refusal.numbers().as_slice()),
        }
    }
}

impl Part for Result<u32, Refusal> {
    ghost use Rattle.tl_server.specs.Answers.{seal_text};
    ghost use Rattle.tl_server.specs.Outcomes.{later_seal};

    ghost text = { λ base answer. seal_text (later_seal base answer) };

    fn put<K: Sink>(&self, outbox: &mut Outbox, sink: &mut K, base: u32) {
        match self {
            Ok(epoch) => {
                outbox.put(sink, b"{\"sealed\":");
                put_number(outbox, sink, u64::from(base) + u64::from(*epoch));
                outbox.put(sink, b"}");
            }
            Err(refusal) => put_error(outbox, sink, refusal.numbers().as_slice()),
        }
    }
}

impl Part for Result<u32, GrowthFault> {
    ghost use Rattle.tl_server.specs.Answers.{growth_text};

    ghost text = { λ _ answer. growth_text answer };

    fn put<K: Sink>(&self, outbox: &mut Outbox, sink: &mut K, _base: u32) {
        match self {
            Ok(first) => {
                outbox.put(sink, b"{\"grown\":");
                put_number(outbox, sink, *first);
                outbox.put(sink, b"}");
            }
            Err(fault) => put_error(outbox, sink, fault.numbers().as_slice()),
        }
    }
}

/// A number.
pub(crate) fn put_number<I: Integer, K: Sink>(outbox: &mut Outbox, sink: &mut K, number: I)
    ensures { Puts K.output K.failures sink.old outbox.old sink.new outbox.new (I.text number) }
{
    let mut buffer = Buffer::new();
    outbox.put(sink, buffer.format(number).as_bytes());
}

// Puts a comma, except before the first item.
fn put_comma<K: Sink>(outbox: &mut Outbox, sink: &mut K, index: usize)
    ensures { Puts K.output K.failures sink.old outbox.old sink.new outbox.new (comma_before index) }
{
    if index == 0 {
        return;
    }
    outbox.put(sink, b",");
}

fn put_list<T: Part, K: Sink>(outbox: &mut Outbox, sink: &mut K, base: u32, items: &[T])
    ensures { Puts K.output K.failures sink.old outbox.old sink.new outbox.new (list_text (T.text base) items.now) }
{
    outbox.put(sink, b"[");
    for (index, item) in items.iter().enumerate() {
        put_comma(outbox, sink, index);
        item.put(outbox, sink, base);
    }
    outbox.put(sink, b"]");
}

// `,"epoch":e`, except for the first epoch of all
fn put_epoch<K: Sink>(outbox: &mut Outbox, sink: &mut K, epoch: u64)
    ensures { Puts K.output K.failures sink.old outbox.old sink.new outbox.new (epoch_text epoch) }
{
    if epoch == 0 {
        return;
    }
    outbox.put(sink, b",\"epoch\":");
    put_number(outbox, sink, epoch);
}

// `{"call":c,"reply":`
fn put_head<K: Sink>(outbox: &mut Outbox, sink: &mut K, call: i64)
    ensures { Puts K.output K.failures sink.old outbox.old sink.new outbox.new (head_text call) }
{
    outbox.put(sink, b"{\"call\":");
    put_number(outbox, sink, call);
    outbox.put(sink, b",\"reply\":");
}

// `,"stored":e}`
fn put_stored<K: Sink>(outbox: &mut Outbox, sink: &mut K, epoch: i64)
    ensures { Puts K.output K.failures sink.old outbox.old sink.new outbox.new (stored_text epoch) }
{
    outbox.put(sink, b",\"stored\":");
    put_number(outbox, sink, epoch);
    outbox.put(sink, b"}");
}

// `{"call":c,"reply":[..]}`, with the epoch in between from the second one on
fn put_call<K: Sink>(outbox: &mut Outbox, sink: &mut K, base: u32, receipt: &Receipt)
    ensures { Puts K.output K.failures sink.old outbox.old sink.new outbox.new (call_text (later base receipt.now)) }
{
    outbox.put(sink, b"{\"call\":");
    put_number(outbox, sink, receipt.call);
    put_epoch(outbox, sink, u64::from(base) + u64::from(receipt.epoch));
    outbox.put(sink, b",\"reply\":");
    put_list(outbox, sink, base, receipt.reply.as_slice());
    outbox.put(sink, b"}");
}

// `{"error":[numbers]}`
fn put_error<K: Sink>(outbox: &mut Outbox, sink: &mut K, numbers: &[u64])
    ensures { Puts K.output K.failures sink.old outbox.old sink.new outbox.new (error_text numbers.now) }
{
    outbox.put(sink, b"{\"error\":");
    put_list(outbox, sink, 0, numbers);
    outbox.put(sink, b"}");
}

// `{"batch":[..]}`
fn put_batch<K: Sink>(
    outbox: &mut Outbox,
    sink: &mut K,
    base: u32,
    answers: &[Result<Receipt, Refusal>],
)
    ensures { Puts K.output K.failures sink.old outbox.old sink.new outbox.new (batch_text (map (later_answer base) answers.now)) }
{
    outbox.put(sink, b"{\"batch\":");
    put_list(outbox, sink, base, answers);
    outbox.put(sink, b"}");
}

/// The line for the result of a request.
pub(crate) fn put_line<T: Part, K: Sink>(outbox: &mut Outbox, sink: &mut K, base: u32, answer: &T)
    ensures { Puts K.output K.failures sink.old outbox.old sink.new outbox.new (line_text (T.text base answer.now)) }
{
    answer.put(outbox, sink, base);
    outbox.put(sink, b"\n");
}

/// The line for a fault or a refusal.
pub(crate) fn put_error_line<K: Sink>(outbox: &mut Outbox, sink: &mut K, numbers: &[u64])
    ensures { Puts K.output K.failures sink.old outbox.old sink.new outbox.new (line_text (error_text numbers.now)) }
{
    put_error(outbox, sink, numbers);
    outbox.put(sink, b"\n");
}

/// The line that ends a connection.
pub(crate) fn put_closed_line<K: Sink>(outbox: &mut Outbox, sink: &mut K)
    ensures { Puts K.output K.failures sink.old outbox.old sink.new outbox.new (line_text closed_text) }
{
    outbox.put(sink, b"{\"closed\":true}");
    outbox.put(sink, b"\n");
}
