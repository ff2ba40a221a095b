// Steps of calls, in turns.

ghost use Rattle.std.specs.Prelude.{◌≡◌, ◌≢◌, ℕ, ◌+◌, ◌<◌, ◌≤◌, ◌↔◌, [], ◌∷◌, ◌++◌, length, IsTrue, IsOk, IsNone, IfOk, OnErr, IfErr, IfSome, Some, Ok};
ghost use Rattle.tl_tree_locking.specs.History.{admits, AllDone};
ghost use Rattle.tl_tree_locking.specs.World.{IsEnabled};
ghost use Rattle.tl_core.specs.Cores.{world_of, kept_turn, all_budgets, done_by};
ghost use Rattle.tl_core.specs.Entries.{step_answer, after_step, IsEntry, after_entry, Traced, after_moves, moved, part_of_run, StepsTo};
ghost use Rattle.tl_machine.specs.Turns.{TurnValue, Stops};
ghost use Rattle.tl_machine.specs.declared.want.Stop.{Stop};
ghost use Rattle.tl_machine.specs.declared.want.Stop.TheVariants as stop;
ghost use Rattle.tl_core.specs.Followed.{HasTurned, NextEndsStop, ReachesStop, Proceeds, IsNoLocal};
ghost use Rattle.tl_core.specs.declared.stepped.Stepped.TheVariants as stepped;
ghost use Rattle.tl_core.specs.declared.fault.CoreFault.TheVariants as fault;

use crate::call::Progress;
use crate::fault::CoreFault;
use crate::interleaving::Core;
use crate::moves::{Entry, Move};
use crate::stepped::Stepped;
use std::alloc::Global;
use tl_machine::{Advance, Stop, Want};
use tl_tree_locking::{Action, Event};

impl Core {
    /// Does the next instruction of a call. 602 if no call of that number was admitted. Takes no memory.
    #[inline(always)]
    pub fn step(&mut self, call: u32) -> Result<Stepped, CoreFault>
        ensures { StepsTo self.old call result self.new }
    {
        self.lemma_is_sound();
        self.do_next(call)
    }

    // The same, without the consequences of the world being sound.
    #[inline(always)]
    fn do_next(&mut self, call: u32) -> Result<Stepped, CoreFault>
        ensures answer { result ≡ step_answer (world_of self.old.seen) call }
        ensures after { self.new.seen ≡ after_step self.old.seen call result }
        ensures turns { (c : ℕ) → c ≢ call → kept_turn self.new c ≡ kept_turn self.old c }
    {
        let index = call as usize;
        if index >= self.calls.len() {
            return Err(CoreFault::NoCall);
        }
        let Some(slot) = self.calls[index].slot() else {
            return Ok(Stepped::Over);
        };
        match self.slots[slot].turn.advance() {
            Advance::Did(action) => Ok(Stepped::Moved { action }),
            Advance::Stopped(stop) => Ok(self.pass_stop(call, stop)),
        }
    }

    /// Does a call's instructions up to and including the first that isn't local, and returns the result of that one: a
    /// lock, a free or the end; blocked; or over, if the call is done. 602 if no call of that number was admitted. Takes no
    /// memory.
    #[inline(always)]
    pub fn proceed(&mut self, call: u32) -> Result<Stepped, CoreFault>
        ensures known { IsOk result ↔ (call < admits self.old.seen.past) }
        ensures proceeds { IfOk result (λ s. Proceeds self.old call s self.new) }
        ensures fault { IfErr result (λ e. e ≡ fault.NoCall) }
        ensures err { OnErr result (self.new ≡ self.old) }
    {
        if call as usize >= self.calls.len() {
            return Err(CoreFault::NoCall);
        }
        let Some(stop) = self.run_local(call) else {
            return Ok(Stepped::Over);
        };
        Ok(self.pass_stop(call, stop))
    }

    // Does the local instructions of a call, and returns where it stops then. `None` if the call is done.
    #[inline(always)]
    fn run_local(&mut self, call: u32) -> Option<Stop>
        requires { call < length self.old.seen.calls }
        ensures some { IfSome result (λ s. ReachesStop self.old call s self.new) }
        ensures none { IsNone result → (step_answer (world_of self.old.seen) call ≡ Ok stepped.Over) × (self.new ≡ self.old) }
        ensures turns { (c : ℕ) → c ≢ call → kept_turn self.new c ≡ kept_turn self.old c }
    {
        let Some(slot) = self.calls[call as usize].slot() else {
            return None;
        };
        Some(self.slots[slot].turn.run_local())
    }

    // Does the action at which an open call stops.
    #[inline(always)]
    pub(crate) fn pass_stop(&mut self, call: u32, stop: Stop) -> Stepped
        requires { (t : TurnValue) × (kept_turn self.old call ≡ Some t) × Stops t stop }
        ensures answer { Ok result ≡ step_answer (world_of self.old.seen) call }
        ensures last { IsNoLocal result }
        ensures after { self.new.seen ≡ after_step self.old.seen call (Ok result) }
        ensures turned { HasTurned self.old call result self.new }
        ensures turns { (c : ℕ) → c ≢ call → kept_turn self.new c ≡ kept_turn self.old c }
    {
        self.lemma_at_stop(call);
        match stop {
            Stop::Lock(node) => self.lock_or_block(call, node),
            Stop::Free(node) => self.free(call, node),
            Stop::Return => self.end(call),
            // An open call isn't over.
            Stop::Over => unreachable!(),
        }
    }

    // Locks the node at which the open call stops, unless another call holds it.
    #[inline(always)]
    fn lock_or_block(&mut self, call: u32, node: u32) -> Stepped
        requires { (t : TurnValue) × (kept_turn self.old call ≡ Some t) × Stops t (stop.Lock node) }
        ensures answer { Ok result ≡ step_answer (world_of self.old.seen) call }
        ensures last { IsNoLocal result }
        ensures after { self.new.seen ≡ after_step self.old.seen call (Ok result) }
        ensures turned { HasTurned self.old call result self.new }
        ensures turns { (c : ℕ) → c ≢ call → kept_turn self.new c ≡ kept_turn self.old c }
    {
        let Some(slot) = self.calls[call as usize].slot() else {
            unreachable!()
        };
        let held_by = self.holders[node as usize];
        if let Some(holder) = held_by {
            return Stepped::Blocked { node, holder };
        }
        let current = &mut self.slots[slot];
        let found = self.latest.record_at(node);
        current.turn.lock_node(node, found);
        current.places -= 1;
        self.holders[node as usize] = Some(call);
        self.history.append(Event::Lock { call, node, found });
        Stepped::Moved {
            action: Action::Lock { node, found },
        }
    }

    // Frees the node at which the open call stops.
    #[inline(always)]
    fn free(&mut self, call: u32, node: u32) -> Stepped
        requires { (t : TurnValue) × (kept_turn self.old call ≡ Some t) × Stops t (stop.Free node) }
        ensures answer { Ok result ≡ step_answer (world_of self.old.seen) call }
        ensures last { IsNoLocal result }
        ensures after { self.new.seen ≡ after_step self.old.seen call (Ok result) }
        ensures turned { HasTurned self.old call result self.new }
        ensures turns { (c : ℕ) → c ≢ call → kept_turn self.new c ≡ kept_turn self.old c }
    {
        let Some(slot) = self.calls[call as usize].slot() else {
            unreachable!()
        };
        let current = &mut self.slots[slot];
        let left = current.turn.free();
        current.places -= 1;
        self.latest.put_at(node, left);
        self.holders[node as usize] = None;
        self.history.append(Event::Free { call, node, left });
        Stepped::Moved {
            action: Action::Free { node, left },
        }
    }

    // Ends the open call, which stops at its return. This is a function of its own because a function first clears the
    // memory for all its values: otherwise each lock and each free would pay for what a return needs.
    fn end(&mut self, call: u32) -> Stepped
        requires { (t : TurnValue) × (kept_turn self.old call ≡ Some t) × Stops t stop.Return }
        ensures answer { Ok result ≡ step_answer (world_of self.old.seen) call }
        ensures last { IsNoLocal result }
        ensures after { self.new.seen ≡ after_step self.old.seen call (Ok result) }
        ensures turned { HasTurned self.old call result self.new }
        ensures turns { (c : ℕ) → c ≢ call → kept_turn self.new c ≡ kept_turn self.old c }
    {
        let index = call as usize;
        let Some(slot) = self.calls[index].slot() else {
            unreachable!()
        };
        let current = &mut self.slots[slot];
        let reply = current.turn.finish();
        let steps = current.turn.call().steps;
        self.history.append(Event::Done { call });
        self.history.give_back(current.places - 1);
        self.calls[index].progress = Progress::Done { reply, steps };
        self.slots.swap_remove(slot);
        // The last of the open calls is in the slot now, unless the slot was itself the last.
        if slot < self.slots.len() {
            let moved = self.slots[slot].call as usize;
            self.calls[moved].progress = Progress::Open { slot };
        }
        Stepped::Moved {
            action: Action::End,
        }
    }

    // When a call's turn is at a stop, the call's next action is the action of that stop.
    pub(crate) fn lemma_at_stop(&self, call: u32)
        ensures { (t : TurnValue) (s : Stop) → kept_turn self.now call ≡ Some t → Stops t s → NextEndsStop self.now.seen call s }
    {
        let _ = &self.history;
    }

    /// Whether the call is open and its next instruction locks no node that another call holds. 602 if no call of that
    /// number was admitted. Takes no memory.
    pub fn enabled(&self, call: u32) -> Result<bool, CoreFault>
        ensures known { IsOk result ↔ (call < admits self.now.seen.past) }
        ensures enabled { IfOk result (λ b. IsTrue b ↔ IsEnabled (world_of self.now.seen) call) }
        ensures fault { IfErr result (λ e. e ≡ fault.NoCall) }
    {
        let index = call as usize;
        if index >= self.calls.len() {
            return Err(CoreFault::NoCall);
        }
        let Some(slot) = self.calls[index].slot() else {
            return Ok(false);
        };
        let Want::Stop(stop) = self.slots[slot].turn.want() else {
            return Ok(true);
        };
        match stop {
            // A call that is over is done, and has no slot.
            Stop::Over => unreachable!(),
            Stop::Lock(node) => {
                let held_by = self.holders[node as usize];
                Ok(held_by.is_none())
            }
            Stop::Free(_) | Stop::Return => Ok(true),
        }
    }

    /// The least call that is enabled. `None` if and only if no call is open. Takes no memory.
    pub fn some_enabled(&self) -> Option<u32>
        ensures enabled { IfSome result (λ c. IsEnabled (world_of self.now.seen) c) }
        ensures least { IfSome result (λ c. (d : ℕ) → IsEnabled (world_of self.now.seen) d → c ≤ d) }
        ensures none { IsNone result ↔ AllDone self.now.seen.past }
    {
        let mut least: Option<u32> = None;
        for current in &self.slots {
            let call = current.call;
            let is_less = match least {
                Some(other) => call < other,
                None => true,
            };
            if is_less && self.enabled(call).unwrap_or(false) {
                least = Some(call);
            }
        }
        least
    }

    /// Makes the moves, one after another, and returns the result of each in order, refusals included. 690 if there is no
    /// memory for the list; then nothing was done. If memory is refused to an admission, that refusal is its entry.
    pub fn drive(&mut self, alloc: Global, moves: &[Move]) -> Result<Vec<Entry>, CoreFault>
        ensures traced { IfOk result (λ t. Traced self.old.seen moves.now t.items) }
        ensures after { IfOk result (λ t. self.new.seen ≡ after_moves self.old.seen moves.now t.items) }
        ensures parts { IfOk result (λ t. (c : ℕ) → done_by self.new.seen c ≡ done_by self.old.seen c ++ part_of_run c t.items) }
        ensures bounded { IfOk result (λ t. moved t.items ≤ all_budgets self.new.seen) }
        ensures fault { IfErr result (λ e. e ≡ fault.Memory) }
        ensures err { OnErr result (self.new ≡ self.old) }
    {
        self.lemma_is_sound();
        let mut trace = Vec::with_capacity(alloc, moves.len())?;
        for one in moves {
            trace.push_reserved(self.make_move(alloc, one));
        }
        // Each call is within its budget.
        self.lemma_is_sound();
        Ok(trace)
    }

    // Makes one move.
    fn make_move(&mut self, alloc: Global, one: &Move) -> Entry
        ensures entry { IsEntry self.old.seen one.now result }
        ensures parts { (c : ℕ) → done_by self.new.seen c ≡ done_by self.old.seen c ++ part_of_run c (result ∷ []) }
        ensures after { self.new.seen ≡ after_entry self.old.seen one.now result }
    {
        match one {
            Move::Admit { name, args } => match self.admit(alloc, name, args) {
                Ok(call) => Entry::Admitted { call },
                Err(fault) => Entry::Refused { fault },
            },
            Move::Step { call } => match self.step(*call) {
                Ok(stepped) => Entry::Stepped {
                    call: *call,
                    stepped,
                },
                Err(fault) => Entry::Refused { fault },
            },
        }
    }
}
