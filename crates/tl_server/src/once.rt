// A call that has a key.

ghost use Rattle.std.specs.Prelude.{List, string_bytes};
ghost use Rattle.tl_workers.specs.declared.session.Did.{Did};
ghost use Rattle.tl_workers.specs.Kept.{Gains};
ghost use Rattle.tl_server.specs.Outcomes.{IsCalledOnce};
ghost use Rattle.tl_server.specs.Served.{keying};

use crate::fault::KeyFault;
use crate::journal::{Claim, Journal};
use crate::outcome::RequestOutcome;
use crate::request::KeyedCall;
use std::alloc::Global;
use std::sync::Wait;
use tl_workers::{Engine, NoGate, Refusal, Session};

/// Runs a call unless one had its key; then it answers what came of that one. Where nothing is stored no key is kept, and the call is refused.
pub(crate) fn call_once<J: Journal>(
    rt: &impl Wait,
    alloc: Global,
    engine: &Engine,
    journal: &J,
    session: &mut Session,
    call: &KeyedCall,
) -> RequestOutcome
    ensures { (own : List Did) × Gains session.old session.new own × IsCalledOnce (keying (J.is_storing journal.now)) engine.now.seals (string_bytes call.now.request.name, call.now.request.args.items) own result }
{
    match journal.claim(rt, alloc, engine, session.number(), &call.key) {
        Claim::Granted => {
            let (name, args) = (&call.request.name, &call.request.args);
            let answer = engine.call(rt, alloc, session, name, args, &NoGate);
            journal.release(rt, alloc, engine, session.number());
            RequestOutcome::Called(answer)
        }
        Claim::Taken(kept) => RequestOutcome::Recalled(kept),
        Claim::NoStore => RequestOutcome::KeyRefused(KeyFault::NoStore),
        Claim::Memory => RequestOutcome::Called(Err(Refusal::Memory)),
    }
}
