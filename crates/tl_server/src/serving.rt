// Lines in, answers out.

ghost use Rattle.std.specs.Prelude.{◌≡◌, ◌+◌, [], ◌⊎◌, true, Some, None, IfOk, OnOk, IsErrOf};
ghost use Rattle.tl_server.specs.Lines.{HasNoLf};
ghost use Rattle.tl_server.specs.Sending.{Writes, Puts};
ghost use Rattle.tl_server.specs.Runs.{AnswersAll, AnswersWhole, AnswersPart, GainsWholeCalls};
ghost use Rattle.tl_server.specs.declared.fault.ServeFault.TheVariants.{ReadFailed, WriteFailed, Memory};

use crate::answering::answer_line;
use crate::device::{Failure, Sink, Source};
use crate::fault::ServeFault;
use crate::outbox::Outbox;
use crate::reader::{Came, Reader};
use crate::service::Service;
use std::alloc::Global;
use std::sync::Wait;
use std::thread::Threads;
use tl_tokens::Scratch;

// Writes what is gathered, unless there is a line that can be answered first.
fn settle<K: Sink>(reader: &Reader, outbox: &mut Outbox, sink: &mut K)
    ensures writes { Puts K.output K.failures sink.old outbox.old sink.new outbox.new [] }
    ensures none { HasNoLf reader.now.left → outbox.new.kept ≡ [] }
{
    if reader.has_line() {
        return;
    }
    outbox.flush(sink);
}

/// Reads lines from the source up to one that ends the connection, or to the end of input, and writes an answer to each
/// to the sink, in order. Returns how many lines were answered.
///
/// An answer is a line of JSON: `{"bounds":{"emits":e,"locks":l,"steps":s}}` for a procedure that was registered,
/// `{"call":c,"reply":[..]}` for a call, with its epoch from the second one on, `{"batch":[..]}` for many calls, with the
/// result of each, `{"sealed":e}`, `{"grown":n}`, `{"closed":true}`, and `{"error":[numbers]}` for a line that is no
/// request, or for a refusal. The first line that only a browser sends is answered by 901 and ends the connection. If memory is refused while a line is read, its
/// answer is `{"error":[990]}`, nothing was done, and the next line is read. Answers take no memory.
///
/// 911 if the source fails: each line that was read whole was answered. 912 if the sink fails: it has a beginning of the
/// answers, and each call that was admitted was run to its end. 990 if memory is refused before the first line.
pub fn serve<R: Threads + Wait + Sync, S: Source, K: Sink, V: Service>(
    rt: &R,
    alloc: Global,
    source: &mut S,
    sink: &mut K,
    service: &V,
    visitor: &mut V::Visitor,
) -> Result<u64, ServeFault>
    // What was answered.
    ensures ok { IfOk result (λ n. AnswersAll V.gains (V.ways service.now) V.may_seal (record { input = S.input source.old; visitor = visitor.old; output = K.output sink.old }) (record { input = S.input source.new; visitor = visitor.new; output = K.output sink.new }) n) }
    ensures read { IsErrOf result ReadFailed → AnswersWhole V.gains (V.ways service.now) V.may_seal (record { input = S.input source.old; visitor = visitor.old; output = K.output sink.old }) (record { input = S.input source.new; visitor = visitor.new; output = K.output sink.new }) }
    ensures write { IsErrOf result WriteFailed → AnswersPart V.gains (V.ways service.now) V.may_seal (record { input = S.input source.old; visitor = visitor.old; output = K.output sink.old }) (record { input = S.input source.new; visitor = visitor.new; output = K.output sink.new }) }
    // Whatever the devices say about their bytes.
    ensures kept { GainsWholeCalls V.gains visitor.old visitor.new }
    // Which device has failed.
    ensures fine { OnOk result ((S.failures source.new ≡ S.failures source.old) × (K.failures sink.new ≡ K.failures sink.old)) }
    ensures read_fails { IsErrOf result ReadFailed → (S.failures source.new ≡ S.failures source.old + 1) × (K.failures sink.new ≡ K.failures sink.old) }
    ensures write_fails { IsErrOf result WriteFailed → (S.failures source.new ≡ S.failures source.old) × (K.failures sink.new ≡ K.failures sink.old + 1) }
    // Before the first line.
    ensures memory { IsErrOf result Memory → (S.input source.new ≡ S.input source.old) × (S.failures source.new ≡ S.failures source.old) × (visitor.new ≡ visitor.old) × (K.output sink.new ≡ K.output sink.old) × (K.failures sink.new ≡ K.failures sink.old) }
{
    let Ok(mut reader) = Reader::new(alloc) else {
        return Err(ServeFault::Memory);
    };
    let Ok(mut outbox) = Outbox::new(alloc) else {
        return Err(ServeFault::Memory);
    };
    let mut scratch = Scratch::new(alloc);
    let mut count = 0u64;
    for _ in rt.forever() {
        // No run counts this far.
        let Some(more) = count.checked_add(1) else {
            continue;
        };
        settle(&reader, &mut outbox, sink);
        if outbox.has_failed() {
            return Err(ServeFault::WriteFailed);
        }
        match reader.next(rt, source) {
            Err(Failure) => return Err(ServeFault::ReadFailed),
            Ok(Came::End) => return Ok(count),
            Ok(Came::Rest) => {
                answer_line(
                    rt,
                    alloc,
                    service,
                    visitor,
                    &mut outbox,
                    sink,
                    count == 0,
                    reader.line(),
                    &mut scratch,
                );
                outbox.flush(sink);
                if outbox.has_failed() {
                    return Err(ServeFault::WriteFailed);
                }
                return Ok(more);
            }
            Ok(Came::Whole) => {
                if answer_line(
                    rt,
                    alloc,
                    service,
                    visitor,
                    &mut outbox,
                    sink,
                    count == 0,
                    reader.line(),
                    &mut scratch,
                ) {
                    outbox.flush(sink);
                    if outbox.has_failed() {
                        return Err(ServeFault::WriteFailed);
                    }
                    return Ok(more);
                }
                count = more;
            }
        }
    }
    unreachable!()
}
