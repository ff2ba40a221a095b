// Many requests at once.

ghost use Rattle.std.specs.Prelude.{◌≡◌, ◌+◌, ◌≤◌, [], ◌++◌, length, take, vec_len, vec_capacity, IfOk, IfErr, IfSome};
ghost use Rattle.tl_workers.specs.declared.refusal.Refusal.TheVariants.{Memory};
ghost use Rattle.tl_workers.specs.declared.batch.Handed.TheVariants.{All};
ghost use Rattle.tl_workers.specs.declared.batch.TheConstants.{MAX_REQUESTS, MAX_WORKERS};
ghost use Rattle.tl_workers.specs.Refusals.{IsCallRefusal, AreCallRefusals};
ghost use Rattle.tl_workers.specs.Kept.{Gains, Answers, AnswersEach, AsksFor, AdmittedEach, ReceiptsEach, asked_of, gots_of};

use crate::asking::Asking;
use crate::engine::Engine;
use crate::gate::Gate;
use crate::help::{Help, expected_pace};
use crate::refusal::Refusal;
use crate::session::Session;
use crate::turnstile::Turnstile;
use std::alloc::Global;
use std::sync::atomic::{AtomicBool, Ordering};
use std::sync::{MutexGuard, Wait};
use std::thread;
use std::thread::{Scope, Threads};
use tl_core::CoreFault;
use tl_procedures::Request;
use tl_ready::ReadyPass;
use tl_table::{Receipt, Table, TableFault};

/// How many requests a batch has at most.
pub const MAX_REQUESTS: usize = 256;

/// How many workers run a batch at most.
pub const MAX_WORKERS: usize = 16;

/// How far a batch has got with handing out its requests.
#[derive(Clone, Copy, Debug, PartialEq, Eq)]
pub enum Handed {
    /// All are handed out.
    All,
    /// Too many calls are open, some of them of this batch.
    Full,
    /// This call found no place among those that are ready.
    NoPlace(u32),
}

// A batch, as its workers share it.
#[derive(Drop)]
struct Batch<'a, R, G> {
    engine: &'a Engine,
    rt: &'a R,
    gate: &'a G,
    // The session that asks, and its requests in their order.
    session: u32,
    requests: &'a [Request],
    // Whether all requests are handed out. It changes under the table's lock only.
    is_handed_out: AtomicBool,
    // When workers other than the caller's thread help.
    help: &'a Help,
}

impl Engine {
    /// Runs the requests on the caller's thread, which asks for `workers` less one to help, and answers each: its receipt, or why it was
    /// refused. They are admitted in their order. If 64 calls are open, a request waits until a call of the batch has
    /// ended, and is refused with 604 only if none of the batch's calls is unfinished. The other threads help only while that pays, or
    /// while the caller's thread is held up: they are of the engine's crew, if that has members, which helps with all batches under way, and are started otherwise. If a thread can't be started, the batch runs with fewer. 990 if there is no memory for the answers and for what the session keeps; then nothing was admitted.
    pub fn batch<R: Threads + Wait + Sync, G: Gate + Sync>(
        &self,
        rt: &R,
        alloc: Global,
        session: &mut Session,
        requests: &[Request],
        workers: usize,
        gate: &G,
    ) -> Result<Vec<Result<Receipt, Refusal>>, Refusal>
        requires some { 1 ≤ length requests.now }
        requires few { length requests.now ≤ MAX_REQUESTS }
        requires one { 1 ≤ workers }
        requires workers { workers ≤ MAX_WORKERS }
        ensures each { IfOk result (λ v. AnswersEach requests.now v.items) }
        ensures refused { IfOk result (λ v. AreCallRefusals self.now.seals v.items) }
        ensures kept { IfOk result (λ v. Gains session.old session.new (asked_of requests.now v.items ++ gots_of v.items)) }
        ensures err { IfErr result (λ e. (e ≡ Memory) × Gains session.old session.new []) }
    {
        let count = requests.len();
        let Ok(answers) = Vec::with_capacity(alloc, count) else {
            return Err(Refusal::Memory);
        };
        let Ok(admitted) = Vec::with_capacity(alloc, count) else {
            return Err(Refusal::Memory);
        };
        let Ok(()) = session.reserve(count) else {
            return Err(Refusal::Memory);
        };
        let others = workers.min(count).saturating_sub(1);
        let own = Help::new();
        let has_crew = others > 0 && self.crew.call(rt, others);
        let batch = Batch {
            engine: self,
            rt,
            gate,
            session: session.number(),
            requests,
            is_handed_out: AtomicBool::new(false),
            help: if has_crew { self.crew.help() } else { &own },
        };
        let started = if has_crew { 0 } else { others };
        let admitted = batch.run(alloc, session.pass(), admitted, started);
        if has_crew {
            self.crew.release(rt, others);
        }
        let answers = batch.collect(admitted.as_slice(), answers);
        session.record_all(admitted.as_slice(), answers.as_slice());
        Ok(answers)
    }
}

impl<R: Threads + Wait + Sync, G: Gate + Sync> Batch<'_, R, G> {
    // Admits the requests and works on them, and starts so many other workers, at most, that do so too.
    fn run(
        &self,
        alloc: Global,
        pass: &mut ReadyPass,
        admitted: Vec<Result<Asking, Refusal>>,
        started: usize,
    ) -> Vec<Result<Asking, Refusal>>
        requires { (admitted.items ≡ []) × (vec_len admitted ≡ 0) × (length self.now.requests.now ≤ vec_capacity admitted) }
        ensures each { AdmittedEach self.now.requests.now result.items }
        ensures refused { AreCallRefusals self.now.engine.now.seals result.items }
    {
        match started {
            0 => self.run_here(alloc, pass, admitted),
            others => self.run_with(alloc, pass, admitted, others),
        }
    }

    // The same with so many others.
    fn run_with(
        &self,
        alloc: Global,
        pass: &mut ReadyPass,
        admitted: Vec<Result<Asking, Refusal>>,
        others: usize,
    ) -> Vec<Result<Asking, Refusal>>
        requires { (admitted.items ≡ []) × (vec_len admitted ≡ 0) × (length self.now.requests.now ≤ vec_capacity admitted) }
        ensures each { AdmittedEach self.now.requests.now result.items }
        ensures refused { AreCallRefusals self.now.engine.now.seals result.items }
    {
        thread::scope(
            thread::scope_env(),
            self.rt,
            |scope| -> Vec<Result<Asking, Refusal>>
                requires { (admitted.items ≡ []) × (vec_len admitted ≡ 0) × (length self.now.requests.now ≤ vec_capacity admitted) }
                ensures each { AdmittedEach self.entry.now.requests.now result.items }
                ensures refused { AreCallRefusals self.entry.now.engine.now.seals result.items }
            {
                // A worker that can't be started is left out.
                let more = others.saturating_sub(1);
                let _ = scope.spawn(move || self.watch(scope, more));
                let admitted = self.run_here(alloc, pass, admitted);
                self.help.end();
                admitted
            },
        )
    }

    // Waits until help is wanted, then starts that many more workers, and helps with a pass of its own. A worker that gets none is
    // left out.
    fn watch<'s, E>(&'s self, scope: &'s Scope<'s, E>, more: usize) {
        let engine = self.engine;
        let Ok(mut pass) = engine.ready.join() else {
            return;
        };
        if !self.help.is_wanted(self.rt) {
            return;
        }
        for _ in 0..more {
            let _ = scope.spawn(move || self.join_in());
        }
        self.assist(&mut pass);
    }
}

impl<R: Wait, G: Gate> Batch<'_, R, G> {
    // Admits the requests and works on them.
    fn run_here(
        &self,
        alloc: Global,
        pass: &mut ReadyPass,
        admitted: Vec<Result<Asking, Refusal>>,
    ) -> Vec<Result<Asking, Refusal>>
        requires { (admitted.items ≡ []) × (vec_len admitted ≡ 0) × (length self.now.requests.now ≤ vec_capacity admitted) }
        ensures each { AdmittedEach self.now.requests.now result.items }
        ensures refused { AreCallRefusals self.now.engine.now.seals result.items }
    {
        let admitted = self.hand_out(alloc, pass, admitted);
        self.end_handing_out();
        self.work(pass);
        admitted
    }

    // Says that no more calls of the batch become ready.
    fn end_handing_out(&self) {
        let engine = self.engine;
        let turnstile = engine.turnstile.lock(self.rt);
        self.is_handed_out.store(true, Ordering::SeqCst);
        drop(turnstile);
        engine.moved.notify_all();
    }

    // Admits the requests in their order. While too many calls are open it runs some that are ready.
    fn hand_out(
        &self,
        alloc: Global,
        pass: &mut ReadyPass,
        admitted: Vec<Result<Asking, Refusal>>,
    ) -> Vec<Result<Asking, Refusal>>
        requires { (admitted.items ≡ []) × (vec_len admitted ≡ 0) × (length self.now.requests.now ≤ vec_capacity admitted) }
        ensures each { AdmittedEach self.now.requests.now result.items }
        ensures refused { AreCallRefusals self.now.engine.now.seals result.items }
    {
        let engine = self.engine;
        let mut admitted = admitted;
        for _ in self.rt.forever() {
            let mut turnstile = engine.turnstile.lock(self.rt);
            let handed = self.admit_some(alloc, &mut turnstile, pass, &mut admitted);
            self.look_ahead(&turnstile.table, admitted.as_slice());
            match handed {
                Handed::Full => self.help(turnstile, pass),
                Handed::NoPlace(call) => {
                    self.announce(turnstile);
                    self.run_taken(call);
                }
                Handed::All => {
                    self.announce(turnstile);
                    return admitted;
                }
            }
        }
        unreachable!()
    }

    // Runs a call that is ready; if none is, waits until something has moved.
    fn help(&self, turnstile: MutexGuard<'_, Turnstile>, pass: &mut ReadyPass) {
        let engine = self.engine;
        match engine.ready.pop(self.rt, pass) {
            Some(call) => {
                self.announce(turnstile);
                self.run_taken(call);
            }
            None => drop(engine.moved.wait(self.rt, turnstile)),
        }
    }

    // Tells other workers that calls became ready.
    fn announce(&self, turnstile: MutexGuard<'_, Turnstile>) {
        let engine = self.engine;
        drop(turnstile);
        engine.moved.notify_all();
        self.help.announce();
    }

    // Admits the next requests, as long as none has to wait, and makes their calls ready. As the table's lock is held, a worker that
    // looks for ready calls under the lock misses none.
    fn admit_some(
        &self,
        alloc: Global,
        turnstile: &mut Turnstile,
        pass: &mut ReadyPass,
        admitted: &mut Vec<Result<Asking, Refusal>>,
    ) -> Handed
        requires room { length self.now.requests.now ≤ vec_capacity admitted.old }
        requires within { length admitted.old.items ≤ length self.now.requests.now }
        requires each { AdmittedEach (take (length admitted.old.items) self.now.requests.now) admitted.old.items }
        requires refused { AreCallRefusals self.now.engine.now.seals admitted.old.items }
        ensures room { vec_capacity admitted.new ≡ vec_capacity admitted.old }
        ensures within { length admitted.new.items ≤ length self.now.requests.now }
        ensures each { AdmittedEach (take (length admitted.new.items) self.now.requests.now) admitted.new.items }
        ensures refused { AreCallRefusals self.now.engine.now.seals admitted.new.items }
        ensures all { result ≡ All → length admitted.new.items ≡ length self.now.requests.now }
    {
        let engine = self.engine;
        let requests = self.requests;
        for i in admitted.len()..requests.len() {
            let Some(one) = self.admit_one(alloc, turnstile, &requests[i]) else {
                return Handed::Full;
            };
            if is_full(&one) && has_unfinished(&turnstile.table, admitted.as_slice()) {
                return Handed::Full;
            }
            let call = call_of(&one);
            admitted.push_reserved(one);
            if let Some(call) = call {
                if engine.ready.push(self.rt, pass, call).is_err() {
                    return Handed::NoPlace(call);
                }
            }
        }
        Handed::All
    }

    // Asks the table for a call. `None` if the request has to wait.
    fn admit_one(
        &self,
        alloc: Global,
        turnstile: &mut Turnstile,
        request: &Request,
    ) -> Option<Result<Asking, Refusal>>
        ensures asks { IfSome result (AsksFor request.now) }
        ensures refused { IfSome result (λ one. IfErr one (IsCallRefusal self.now.engine.now.seals)) }
    {
        match self.engine.try_admit(alloc, turnstile, self.session, &request.name, &request.args)? {
            Ok(call) => Some(Ok(Asking::new(
                turnstile.table.epoch(),
                call,
                &request.name,
                &request.args,
            ))),
            Err(fault) => Some(Err(Refusal::Table(fault))),
        }
    }

    // Helps with a pass of its own. A worker that gets none is left out.
    fn join_in(&self) {
        let engine = self.engine;
        if let Ok(mut pass) = engine.ready.join() {
            self.assist(&mut pass);
        }
    }

    // Runs a call that is ready whenever help is wanted, until none is and the batch is handed out, or the batch is over.
    fn assist(&self, pass: &mut ReadyPass) {
        for _ in self.rt.forever() {
            if !self.help.is_wanted(self.rt) {
                return;
            }
            match self.next_ready(pass) {
                Some(call) => self.run_taken(call),
                None => return,
            }
        }
        unreachable!()
    }

    // Runs a call that was taken.
    fn run_taken(&self, call: u32) {
        self.engine.run_for(self.rt, call, self.gate, self.help);
    }

    // As long as no call was taken, the bounds of the first one say whether help is wanted.
    fn look_ahead(&self, table: &Table, admitted: &[Result<Asking, Refusal>]) {
        if self.help.has_begun() {
            return;
        }
        for one in admitted {
            if let Ok(asked) = one {
                self.help.expect(expected_pace(table, asked.call));
                return;
            }
        }
    }

    // Runs the calls that are ready, until none is and the batch is handed out.
    fn work(&self, pass: &mut ReadyPass) {
        for _ in self.rt.forever() {
            match self.next_ready(pass) {
                Some(call) => self.run_taken(call),
                None => return,
            }
        }
        unreachable!()
    }

    // The next call that is ready, as soon as there is one. None once nothing is and the batch is handed out.
    fn next_ready(&self, pass: &mut ReadyPass) -> Option<u32> {
        let engine = self.engine;
        let first = engine.ready.pop(self.rt, pass);
        if first.is_some() {
            return first;
        }
        let mut turnstile = engine.turnstile.lock(self.rt);
        for _ in self.rt.forever() {
            let is_last = self.is_handed_out.load(Ordering::SeqCst);
            let next = engine.ready.pop(self.rt, pass);
            if is_last || next.is_some() {
                return next;
            }
            turnstile = engine.moved.wait(self.rt, turnstile);
        }
        unreachable!()
    }

    // The receipts of the calls that were admitted. It waits only for calls that workers of other batches run.
    fn collect(
        &self,
        admitted: &[Result<Asking, Refusal>],
        answers: Vec<Result<Receipt, Refusal>>,
    ) -> Vec<Result<Receipt, Refusal>>
        requires { (answers.items ≡ []) × (vec_len answers ≡ 0) × (length admitted.now ≤ vec_capacity answers) }
        ensures each { ReceiptsEach admitted.now result.items }
    {
        let engine = self.engine;
        let mut answers = answers;
        let mut turnstile = engine.turnstile.lock(self.rt);
        for one in admitted {
            let (answer, held) = self.answer(turnstile, one);
            turnstile = held;
            answers.push_reserved(answer);
        }
        answers
    }

    // The answer to a request.
    fn answer<'t>(
        &self,
        held: MutexGuard<'t, Turnstile>,
        one: &Result<Asking, Refusal>,
    ) -> (Result<Receipt, Refusal>, MutexGuard<'t, Turnstile>)
        ensures { Answers one.now result.0 }
    {
        match one {
            Ok(asked) => {
                let (receipt, turnstile) = self.engine.take(self.rt, held, asked);
                (Ok(receipt), turnstile)
            }
            Err(refusal) => (Err(*refusal), held),
        }
    }
}

// The number of a call that was admitted.
fn call_of(one: &Result<Asking, Refusal>) -> Option<u32> {
    match one {
        Ok(asked) => Some(asked.call),
        Err(_) => None,
    }
}

// Whether too many calls are open.
fn is_full(one: &Result<Asking, Refusal>) -> bool {
    match one {
        Err(Refusal::Table(fault)) => *fault == TableFault::Core(CoreFault::TooManyOpen),
        _ => false,
    }
}

// Whether one of the calls is unfinished. The search begins at the latest, since an unfinished call is mostly near the end.
fn has_unfinished(table: &Table, admitted: &[Result<Asking, Refusal>]) -> bool {
    let epoch = table.epoch();
    for one in admitted.iter().rev() {
        if let Ok(asked) = one {
            if asked.epoch == epoch && table.is_unfinished(asked.call) {
                return true;
            }
        }
    }
    false
}
