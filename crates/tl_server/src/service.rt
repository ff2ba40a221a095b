// Who does what lines ask for.

ghost use Rattle.std.specs.Prelude.{◌≡◌, ◌+◌, ℕ, false, List, map, [], ◌++◌, None, IfSome};
ghost use Rattle.std.specs.Thread.{IsSync};
ghost use Rattle.tl_workers.specs.declared.session.Did.{Did};
ghost use Rattle.tl_json.specs.Procedures.{procedure_form};
ghost use Rattle.tl_workers.specs.Kept.{Gains};
ghost use Rattle.tl_server.specs.Requests.{line_view};
ghost use Rattle.tl_server.specs.Outcomes.{IsAsked, CameOf, later_did};
ghost use Rattle.tl_server.specs.Served.{Ways, RegisterOutcome, IsSealable, NoTexts, KnowsNoKeys};

use crate::outcome::{Done, RequestOutcome};
use crate::request::LineRequest;
use std::alloc::Global;
use std::sync::Wait;
use std::thread::Threads;
use tl_budget::Bounds;
use tl_json::{ProcedureText, RegisterFault, procedure_of_text};
use tl_workers::{Engine, NoGate, Session};

/// Who does what the lines of connections ask for: an engine, or engines that take over from one another.
pub trait Service {
    /// What it knows of a connection.
    type Visitor;

    // What the visitor asked for and got between two moments.
    ghost gains: { Self.Visitor → Self.Visitor → List Did → Type 0 };

    // What it can do: whether its engines seal their epochs by themselves, whether nodes can be appended to its tree and procedures
    // replaced, who reads texts of procedures, what is done about keys, and whether it is frozen.
    ghost ways: { Self → Ways };

    // Which epochs may be sealed from this moment on, by their numbers.
    ghost may_seal: { Self.Visitor → ℕ → Type 0 };

    /// Does what a request asks for, which isn't to close. `None` if memory is refused, and then nothing was done. Nothing is
    /// written.
    fn perform<R: Threads + Wait + Sync>(
        &self,
        rt: &R,
        alloc: Global,
        visitor: &mut Self::Visitor,
        request: &LineRequest,
    ) -> Option<Done>
        requires asked { IsAsked (line_view request.now) }
        requires shared { IsSync R.row }
        ensures done { IfSome result (λ d. (own : List Did) × CameOf (ways self.now) (line_view request.now) own d.outcome × gains visitor.old visitor.new (map (later_did d.base) own)) }
        ensures sealable { IfSome result (λ d. (n : ℕ) → IsSealable n → may_seal visitor.old (d.base + n)) }
        ensures none { result ≡ None → gains visitor.old visitor.new [] };

    /// Whether requests are refused by which a client rules: those that register or replace procedures, append nodes, or seal.
    fn is_frozen(&self) -> bool
        ensures { result ≡ (ways self.now).frozen };

    /// Notes that a browser sent a line.
    fn meets_browser(&self);

    ghost gains_none: { (a : Self.Visitor) → gains a a [] };

    ghost gains_more: { (a b c : Self.Visitor) (xs ys : List Did) → gains a b xs → gains b c ys → gains a c (xs ++ ys) };

    ghost seals_on: { (a b : Self.Visitor) (xs : List Did) (n : ℕ) → gains a b xs → may_seal b n → may_seal a n };
}

/// Registers a procedure. Errors, the first that holds: the assembler's fault, the verifier's, 612, and then 611 or 613.
fn register(
    rt: &impl Wait,
    alloc: Global,
    engine: &Engine,
    written: &ProcedureText,
) -> Result<Bounds, RegisterFault>
    ensures { RegisterOutcome (procedure_form written.now) result }
{
    let procedure = procedure_of_text(alloc, &written.text)?;
    let bounds = procedure.bounds();
    engine.register(rt, alloc, &written.name, procedure)?;
    Ok(bounds)
}

/// Does what a request asks for, in a session of the engine, which reads no texts and knows no keys. Nodes can't be appended to an engine's tree. Nothing is
/// written.
pub(crate) fn act<R: Threads + Wait + Sync>(
    rt: &R,
    alloc: Global,
    engine: &Engine,
    session: &mut Session,
    request: &LineRequest,
) -> RequestOutcome
    requires { IsAsked (line_view request.now) }
    ensures { (own : List Did) × Gains session.old session.new own × CameOf (record { seals = engine.now.seals; grows = false; reads = NoTexts; keys = KnowsNoKeys; frozen = false }) (line_view request.now) own result }
{
    match request {
        LineRequest::Register(written) => {
            RequestOutcome::Registered(register(rt, alloc, engine, written))
        }
        LineRequest::Call(request) => {
            let (name, args) = (&request.name, &request.args);
            RequestOutcome::Called(engine.call(rt, alloc, session, name, args, &NoGate))
        }
        LineRequest::Batch(batch) => {
            let (requests, workers) = (&batch.requests, batch.workers);
            RequestOutcome::Batched(engine.batch(rt, alloc, session, requests, workers, &NoGate))
        }
        LineRequest::RegisterText(_)
        | LineRequest::Replace(_)
        | LineRequest::CallOnce(_)
        | LineRequest::Grow(_) => RequestOutcome::Unknown,
        LineRequest::Seal => RequestOutcome::Sealed(engine.seal(rt, alloc)),
        LineRequest::Close => unreachable!(),
    }
}

/// An engine serves each connection by a session.
impl Service for Engine {
    type Visitor = Session;

    ghost use Rattle.std.specs.Prelude.{false};
    ghost use Rattle.tl_workers.specs.Kept.{Gains};
    ghost use Rattle.tl_server.specs.Served.{IsSealable, NoTexts, KnowsNoKeys};
    ghost use Rattle.tl_server.specs.Gaining.{gains_nothing, gains_both};

    ghost gains = { Gains };

    ghost ways = { λ e. record { seals = e.seals; grows = false; reads = NoTexts; keys = KnowsNoKeys; frozen = false } };

    ghost may_seal = { λ _ n. IsSealable n };

    fn perform<R: Threads + Wait + Sync>(
        &self,
        rt: &R,
        alloc: Global,
        visitor: &mut Session,
        request: &LineRequest,
    ) -> Option<Done> {
        let outcome = act(rt, alloc, self, visitor, request);
        Some(Done { outcome, base: 0 })
    }

    fn is_frozen(&self) -> bool {
        false
    }

    // Who runs the engine isn't told.
    fn meets_browser(&self) {}

    ghost gains_none = { gains_nothing };

    ghost gains_more = { gains_both };

    ghost seals_on = { λ _ _ _ _ _ may. may };
}
