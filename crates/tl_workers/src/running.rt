// A call that is run to its end.

ghost use Rattle.std.specs.Prelude.{◌≡◌, [], IfOk, IfErr, OnErr};
ghost use Rattle.tl_machine.specs.Turns.{HasRun};
ghost use Rattle.tl_core.specs.Followed.{IfBlocked};
ghost use Rattle.tl_workers.specs.Kept.{Gains, call_of};
ghost use Rattle.tl_workers.specs.Refusals.{IsCallRefusal};

use crate::asking::Asking;
use crate::engine::Engine;
use crate::gate::Gate;
use crate::help::Help;
use crate::refusal::Refusal;
use crate::sealing::Begun;
use crate::session::Session;
use crate::turnstile::Turnstile;
use std::alloc::Global;
use std::sync::{MutexGuard, Wait};
use tl_core::{CoreFault, TurnOutcome};
use tl_machine::{LentTurn, Stop, copied};
use tl_table::{Receipt, TableFault};

impl Engine {
    /// Runs a call on this thread, to its end. 601, 501, 603, 604, 605, 890; 803 if the session isn't this engine's; 990 if there is
    /// no memory for the session's list. An engine that seals its epochs by itself waits instead of 603 and 604, and 605 is then
    /// refused only to a call that no empty epoch has room for; it refuses with 808, 690 or 890 if it can't seal. After a refusal
    /// nothing was admitted.
    pub fn call<G: Gate>(
        &self,
        rt: &impl Wait,
        alloc: Global,
        session: &mut Session,
        name: &str,
        args: &[i64],
        gate: &G,
    ) -> Result<Receipt, Refusal>
        ensures args { IfOk result (λ r. r.args.items ≡ args.now) }
        ensures kept { IfOk result (λ r. Gains session.old session.new (call_of name.now args.now r)) }
        ensures refused { IfErr result (IsCallRefusal self.now.seals) }
        ensures err { OnErr result (Gains session.old session.new []) }
    {
        session.reserve(1)?;
        let begun = match self.begin(rt, alloc, session.number(), name, args) {
            Ok(begun) => begun,
            Err(fault) => return Err(Refusal::Table(fault)),
        };
        let Begun { epoch, call } = begun;
        let _pace = self.run(rt, call, gate);
        let asked = Asking::new(epoch, call, name, args);
        // The call was admitted and has ended, so its receipt is there at once.
        let (receipt, _turnstile) = self.take(rt, self.turnstile.lock(rt), &asked);
        session.record(&asked, &receipt);
        Ok(receipt)
    }

    // Runs a call that was taken from those that are ready.
    pub(crate) fn run_for<G: Gate>(&self, rt: &impl Wait, call: u32, gate: &G, help: &Help) {
        help.take();
        let pace = self.run(rt, call, gate);
        help.learn(pace);
    }

    // Takes the turns of a call to its end, and returns its pace: how many instructions it did a turn, in the mean. None is taken if
    // no call of that number was admitted. The table is asked where the call is, and again if a turn was stale.
    fn run<G: Gate>(&self, rt: &impl Wait, call: u32, gate: &G) -> u64 {
        let mut passed = 0;
        for _ in rt.forever() {
            passed = pass(gate, call, passed);
            let lent = self.turnstile.lock(rt).table.lend(call);
            match lent {
                Ok(Some(lent)) => {
                    if let Some(steps) = self.run_from(rt, call, lent, &mut passed, gate) {
                        gate.answered(call);
                        return u64::from(steps) / passed.max(1);
                    }
                }
                Err(TableFault::Core(CoreFault::NoCall)) => return 0,
                _ => {}
            }
        }
        unreachable!()
    }

    // Takes the turns of a call from there to its end, after one has passed the gate, and returns how many instructions the call did
    // in all. None if the call is elsewhere.
    fn run_from<G: Gate>(
        &self,
        rt: &impl Wait,
        call: u32,
        lent: LentTurn,
        passed: &mut u64,
        gate: &G,
    ) -> Option<u32> {
        let mut lent = lent;
        lent.run_local();
        for _ in rt.forever() {
            gate.ready(call, *passed);
            match self.send(rt, call, &mut lent) {
                Ok(TurnOutcome::Finished) => return Some(lent.to().steps),
                Ok(TurnOutcome::Advanced { .. }) => {
                    *passed = pass(gate, call, *passed);
                    lent.run_local();
                }
                // The instructions up to the lock are done: the lock is tried again.
                Ok(TurnOutcome::Blocked { .. }) => *passed = pass(gate, call, *passed),
                Err(_) => return None,
            }
        }
        unreachable!()
    }

    // The receipt of a call, as soon as it is done. About a table that comes out of the lock no clause says which call was handed in:
    // the receipt names what was asked for. If the engine ran something else, the session's list doesn't match the table, and `close`
    // finds that.
    pub(crate) fn take<'t>(
        &self,
        rt: &impl Wait,
        held: MutexGuard<'t, Turnstile>,
        asked: &Asking,
    ) -> (Receipt, MutexGuard<'t, Turnstile>)
        ensures epoch { result.0.epoch ≡ asked.now.epoch }
        ensures call { result.0.call ≡ asked.now.call }
        ensures args { result.0.args.items ≡ asked.now.args.items }
    {
        let mut turnstile = held;
        for _ in rt.forever() {
            if let Ok(Some(told)) = turnstile.table.receipt(asked.epoch, asked.call) {
                let receipt = Receipt {
                    args: copied(asked.args.as_slice()),
                    ..told
                };
                return (receipt, turnstile);
            }
            turnstile = self.moved.wait(rt, turnstile);
        }
        unreachable!()
    }

    // Submits what the call did by itself. If it is blocked, this waits until its node is free.
    fn send(
        &self,
        rt: &impl Wait,
        call: u32,
        lent: &mut LentTurn,
    ) -> Result<TurnOutcome, TableFault>
        requires { HasRun lent.old }
        ensures { IfOk result (λ o. IfBlocked o (lent.new ≡ lent.old)) }
    {
        let mut turnstile = self.turnstile.lock(rt);
        let sent = turnstile.table.lead(call, lent);
        match &sent {
            Ok(TurnOutcome::Blocked { node, .. }) => self.wait_for(rt, turnstile, *node),
            Ok(
                TurnOutcome::Advanced {
                    stop: Stop::Free(_),
                }
                | TurnOutcome::Finished,
            ) => {
                drop(turnstile);
                self.moved.notify_all();
            }
            _ => {}
        }
        sent
    }

    // Waits until nobody holds the node.
    fn wait_for(&self, rt: &impl Wait, held: MutexGuard<'_, Turnstile>, node: u32) {
        let mut turnstile = held;
        for _ in rt.forever() {
            if !turnstile.table.is_held(node) {
                return;
            }
            turnstile = self.moved.wait(rt, turnstile);
        }
        unreachable!()
    }
}

// Passes the gate once more, and answers how often it was passed.
fn pass<G: Gate>(gate: &G, call: u32, passed: u64) -> u64 {
    let turn = passed.saturating_add(1);
    gate.pass(call, turn);
    turn
}
