// One line, answered.

ghost use Rattle.std.specs.Prelude.{◌≡◌, ◌⊎◌, ℕ, List, []};
ghost use Rattle.tl_workers.specs.declared.session.Did.{Did};
ghost use Rattle.tl_server.specs.Requests.{line_view, IsRequest};
ghost use Rattle.tl_server.specs.Outcomes.{IsAsked};
ghost use Rattle.tl_server.specs.Sending.{Puts};
ghost use Rattle.tl_server.specs.Served.{IsRefused, AnswersRequest, IsAnswer};

use crate::answer::{put_closed_line, put_error_line};
use crate::browser::is_of_browser;
use crate::device::Sink;
use crate::fault::{LineFault, RulingFault};
use crate::outbox::Outbox;
use crate::outcome::put_outcome;
use crate::request::{LineRequest, is_barred, read_request_with};
use crate::service::Service;
use std::alloc::Global;
use std::sync::Wait;
use std::thread::Threads;
use tl_tokens::Scratch;

/// Answers a line, which may be the first of its connection. A call is run to its end, and then its answer is handed over: the service holds
/// nothing meanwhile that others wait for. Returns whether the line ends the connection.
pub(crate) fn answer_line<R: Threads + Wait + Sync, K: Sink, V: Service>(
    rt: &R,
    alloc: Global,
    service: &V,
    visitor: &mut V::Visitor,
    outbox: &mut Outbox,
    sink: &mut K,
    first: bool,
    line: &[u8],
    scratch: &mut Scratch,
) -> bool
    ensures { (gained : List Did) × (out : List ℕ) × V.gains visitor.old visitor.new gained
        × Puts K.output K.failures sink.old outbox.old sink.new outbox.new out
        × IsAnswer (V.ways service.now) (V.may_seal visitor.old) first line.now result gained out }
{
    if is_of_browser(first, line) {
        service.meets_browser();
        put_error_line(outbox, sink, LineFault::NotRequest.numbers().as_slice());
        return true;
    }
    match read_request_with(alloc, line, scratch) {
        Err(fault) => {
            put_error_line(outbox, sink, fault.numbers().as_slice());
            false
        }
        Ok(LineRequest::Close) => {
            put_closed_line(outbox, sink);
            true
        }
        Ok(request) => {
            if is_barred(service.is_frozen(), &request) {
                put_error_line(outbox, sink, RulingFault::Frozen.numbers().as_slice());
                return false;
            }
            answer_request(rt, alloc, service, visitor, outbox, sink, &request);
            false
        }
    }
}

// Answers a request that isn't to close.
fn answer_request<R: Threads + Wait + Sync, K: Sink, V: Service>(
    rt: &R,
    alloc: Global,
    service: &V,
    visitor: &mut V::Visitor,
    outbox: &mut Outbox,
    sink: &mut K,
    request: &LineRequest,
)
    requires { IsAsked (line_view request.now) }
    ensures { (gained : List Did) × (out : List ℕ) × V.gains visitor.old visitor.new gained
        × Puts K.output K.failures sink.old outbox.old sink.new outbox.new out
        × (IsRefused gained out ⊎ AnswersRequest (V.ways service.now) (V.may_seal visitor.old) (line_view request.now) gained out) }
{
    match service.perform(rt, alloc, visitor, request) {
        Some(done) => put_outcome(outbox, sink, &done),
        None => put_error_line(outbox, sink, &[990]),
    }
}
