// Turns of calls whose local instructions are done elsewhere.

ghost use Rattle.std.specs.Prelude.{◌≡◌, ◌≢◌, ℕ, ◌<◌, ◌≤◌, ◌↔◌, length, true, false, IsTrue, IsOk, IsNone, IfOk, OnErr, IfErr, IfSome, MatchOption, Some};
ghost use Rattle.std.specs.Arc.{arc_value};
ghost use Rattle.tl_tree_locking.specs.History.{admits, is_done};
ghost use Rattle.tl_core.specs.Cores.{kept_turn};
ghost use Rattle.tl_machine.specs.Turns.{TurnValue, SegmentValue, IsTurn, IsSegment, IsFrom, HasRun, Stops, with_call};
ghost use Rattle.tl_machine.specs.declared.want.Stop.TheVariants as stop;
ghost use Rattle.tl_core.specs.Followed.{IsLentOf, Submits, IsLeadFault, IsFollowed, IsFollowFault, IsInTheWay, IsLed};
ghost use Rattle.tl_core.specs.declared.fault.CoreFault.TheVariants as fault;

use crate::fault::CoreFault;
use crate::followed::{Followed, TurnOutcome};
use crate::interleaving::Core;
use crate::stepped::Stepped;
use std::sync::Arc;
use tl_machine::{CallState, LentTurn, Segment, Stop, Turn};
use tl_tree::Shape;

impl Core {
    /// Whether the call is open and the core keeps this turn for it. 602 if no call of that number was admitted. Takes no
    /// memory.
    pub fn is_at(&self, call: u32, turn: &Turn) -> Result<bool, CoreFault>
        ensures known { IsOk result ↔ (call < admits self.now.seen.past) }
        ensures kept { IfOk result (λ b. IsTrue b ↔ (kept_turn self.now call ≡ Some turn.now)) }
        ensures fault { IfErr result (λ e. e ≡ fault.NoCall) }
    {
        let index = call as usize;
        if index >= self.calls.len() {
            return Err(CoreFault::NoCall);
        }
        let Some(slot) = self.calls[index].slot() else {
            return Ok(false);
        };
        Ok(self.slots[slot].turn.is(turn))
    }

    /// The turn at which the call is; if the call is done, its turn wants nothing more. 602 if no call of that number was
    /// admitted; otherwise 690 if memory is refused.
    pub fn turn(&self, call: u32) -> Result<Turn, CoreFault>
        ensures known { IfOk result (λ _. call < admits self.now.seen.past) }
        ensures kept { IfOk result (λ t. is_done call self.now.seen.past ≡ false → kept_turn self.now call ≡ Some t) }
        ensures over { IfOk result (λ t. is_done call self.now.seen.past ≡ true → Stops t stop.Over) }
        ensures fault { IfErr result (λ e. e ≢ fault.Memory → (e ≡ fault.NoCall) × (admits self.now.seen.past ≤ call)) }
        ensures memory { IfErr result (λ e. e ≡ fault.Memory → call < admits self.now.seen.past) }
    {
        let index = call as usize;
        if index >= self.calls.len() {
            return Err(CoreFault::NoCall);
        }
        let current = &self.calls[index];
        let Some(slot) = current.slot() else {
            let procedure = Arc::try_clone(self.procedures.get(current.procedure))?;
            let shape = Arc::try_clone(self.opening.shape())?;
            return Ok(Turn::over(procedure, shape));
        };
        Ok(self.slots[slot].turn.try_clone()?)
    }

    /// The call, lent to whoever does its local instructions; `None` if the call is done. 602 if no call of that number was
    /// admitted; otherwise 690 if memory is refused.
    pub fn lend(&self, call: u32) -> Result<Option<LentTurn>, CoreFault>
        ensures known { IfOk result (λ _. call < admits self.now.seen.past) }
        ensures lent { IfOk result (λ o. MatchOption o (is_done call self.now.seen.past ≡ true) (λ l. IsLentOf self.now call l)) }
        ensures fault { IfErr result (λ e. e ≢ fault.Memory → (e ≡ fault.NoCall) × (admits self.now.seen.past ≤ call)) }
        ensures memory { IfErr result (λ e. e ≡ fault.Memory → call < admits self.now.seen.past) }
    {
        let index = call as usize;
        if index >= self.calls.len() {
            return Err(CoreFault::NoCall);
        }
        let Some(slot) = self.calls[index].slot() else {
            return Ok(None);
        };
        Ok(Some(self.slots[slot].turn.lend()?))
    }

    /// Lets a call do the instructions of a segment, which were done elsewhere, and then the lock, free or return at which
    /// the segment stops. 602 if no call of that number was admitted; 607 if the segment doesn't begin at the call's turn.
    /// Blocked, with nothing changed, if the stop is a lock of a node that another call holds. No local instruction is done
    /// again. Takes no memory.
    pub fn follow(&mut self, call: u32, segment: Segment) -> Result<Followed, CoreFault>
        ensures from { IfOk result (λ _. kept_turn self.old call ≡ Some segment.from) }
        ensures followed { IfOk result (λ f. IsFollowed self.old call segment f self.new) }
        ensures turns { (c : ℕ) → c ≢ call → kept_turn self.new c ≡ kept_turn self.old c }
        ensures fault { IfErr result (λ e. IsFollowFault self.old call segment e) }
        ensures err { OnErr result (self.new ≡ self.old) }
    {
        let (mut lent, shape) = self.taken(call, segment)?;
        match self.lead(call, &mut lent)? {
            TurnOutcome::Advanced { .. } => Ok(Followed::Went(lent.into_turn(shape))),
            TurnOutcome::Blocked { node, holder } => Ok(Followed::Blocked { node, holder }),
            TurnOutcome::Finished => match self.reply(call) {
                Some(reply) => Ok(Followed::Finished(reply.copy())),
                // A call that has ended has replied.
                None => unreachable!(),
            },
        }
    }

    /// The call as it is lent once a segment's instructions are done, and the segment's shape, if the segment begins at the
    /// call's turn. 602 if no call of that number was admitted; 607 if the segment begins elsewhere. Takes no memory.
    pub fn taken(&self, call: u32, segment: Segment) -> Result<(LentTurn, Arc<Shape>), CoreFault>
        ensures from { IfOk result (λ _. kept_turn self.now call ≡ Some segment.from) }
        ensures lent { IfOk result (λ r. r.0 ≡ record { code = segment.from.code; from = segment.from.call; to = segment.to }) }
        ensures shape { IfOk result (λ r. arc_value r.1 ≡ segment.from.parents) }
        ensures run { IfOk result (λ r. HasRun r.0) }
        ensures segment { IsSegment segment }
        ensures fault { IfErr result (λ e. IsFollowFault self.now call segment e) }
    {
        if !self.is_at(call, segment.from())? {
            return Err(CoreFault::NotFrom);
        }
        Ok(segment.into_lent())
    }

    /// Does a turn of a call: the instructions that were done while it was lent, and then the lock, free or return at which
    /// it stops. If the call goes on, the lent state moves past that stop too; otherwise it stays. Only the call's state
    /// and code are compared to find whether the instructions began where the call is; shapes are not. 602 if no call of
    /// that number was admitted; 607 if the instructions didn't begin where the call is. Takes no memory.
    pub fn lead(&mut self, call: u32, lent: &mut LentTurn) -> Result<TurnOutcome, CoreFault>
        requires { HasRun lent.old }
        ensures ok { IfOk result (λ o. Submits self.old call lent.old lent.new o self.new) }
        ensures fault { IfErr result (λ e. IsLeadFault self.old call lent.old e) }
        ensures err { OnErr result ((self.new ≡ self.old) × (lent.new ≡ lent.old)) }
    {
        self.check_lent(call, lent)?;
        let stop = lent.stop(self.opening.shape());
        if let Some((node, holder)) = self.in_the_way(call, stop) {
            return Ok(TurnOutcome::Blocked { node, holder });
        }
        self.take_end(call, lent.to());
        self.lemma_at_stop(call);
        // No other call holds the node, so this is the action of the stop.
        let stepped = self.pass_stop(call, stop);
        // A call that has replied is done.
        if let Some(_reply) = self.reply(call) {
            return Ok(TurnOutcome::Finished);
        }
        if let Stepped::Moved { action } = &stepped {
            lent.repeat(self.opening.shape(), action);
            return Ok(TurnOutcome::Advanced { stop });
        }
        // If no other call is in the way, the call does the action of its stop.
        unreachable!()
    }

    // Checks that the call is open and was lent from where it is: 602, 607.
    fn check_lent(&self, call: u32, lent: &LentTurn) -> Result<(), CoreFault>
        ensures ok { IfOk result (λ _. (t : TurnValue) × (kept_turn self.now call ≡ Some t) × IsFrom lent.now t × IsTurn t.code.instrs t.parents t.call
            × (t.parents ≡ self.now.seen.parents) × (call < length self.now.seen.calls)) }
        ensures fault { IfErr result (λ e. IsLeadFault self.now call lent.now e) }
    {
        let index = call as usize;
        if index >= self.calls.len() {
            return Err(CoreFault::NoCall);
        }
        let Some(slot) = self.calls[index].slot() else {
            return Err(CoreFault::NotFrom);
        };
        if lent.is_from(&self.slots[slot].turn) {
            Ok(())
        } else {
            Err(CoreFault::NotFrom)
        }
    }

    // The node that is locked at the stop of a segment of the call, and the call that holds it.
    fn in_the_way(&self, call: u32, stop: Stop) -> Option<(u32, u32)>
        requires { (s : SegmentValue) × IsSegment s × (s.stop ≡ stop) × (kept_turn self.now call ≡ Some s.from) }
        ensures some { IfSome result (λ r. IsInTheWay self.now.seen stop r.0 r.1) }
        ensures none { IsNone result → (x d : ℕ) → IsInTheWay self.now.seen stop x d → ⊥ }
    {
        let Stop::Lock(node) = stop else {
            return None;
        };
        let holder = self.holders[node as usize]?;
        Some((node, holder))
    }

    // Moves the call's turn to the end of a segment.
    fn take_end(&mut self, call: u32, state: &CallState)
        requires { (s : SegmentValue) × IsSegment s × (s.to ≡ state.now) × (kept_turn self.old call ≡ Some s.from) }
        ensures turn { (t : TurnValue) → kept_turn self.old call ≡ Some t → kept_turn self.new call ≡ Some (with_call t state.now) }
        ensures turns { (c : ℕ) → c ≢ call → kept_turn self.new c ≡ kept_turn self.old c }
        ensures past { self.new.seen.past ≡ self.old.seen.past }
        ensures led { IsLed self.old call self.new }
    {
        let Some(slot) = self.calls[call as usize].slot() else {
            unreachable!()
        };
        self.slots[slot].turn.put_at(state);
    }
}
