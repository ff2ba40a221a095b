// The queue and its passes.

ghost use Rattle.std.specs.Prelude.{◌≡◌, ◌++◌, ◌∷◌, [], MatchResult, MatchOption, IfOk};
ghost use Rattle.tl_ready.specs.Rule.{handed};

use crate::rule::{Handed, Pops, Pushes, Queue};
use crossbeam_queue::Pass;
use std::alloc::{AllocError, Global};
use std::marker::Model;
use std::sync::{Arc, Wait};

/// The most numbers that a queue has.
pub const MAX_READY: usize = 64;

/// A queue of numbers, for threads that push and pop.
#[derive(Drop)]
pub struct Ready {
    queue: Arc<Queue>,
}

/// A pass of a queue, with which one thread at a time pushes and pops. A contract sees what went through it.
#[derive(Drop)]
pub struct ReadyPass {
    queue: Arc<Queue>,
    pass: Pass<u32, Handed>,
}

impl Model for ReadyPass {
    ghost use Rattle.std.specs.Arc.{arc_value};
    ghost use Rattle.crossbeam_queue.specs.Passes.{view as known, IsPassOf};
    ghost use Rattle.tl_ready.specs.declared.rule.Handed.{Handed};

    ghost Value = { Handed };

    ghost view = { λ p. known p.pass };

    ghost invariant = { λ p. IsPassOf (arc_value p.queue) p.pass };
}

impl Ready {
    /// An empty queue, and a pass of it. All memory that the queue ever needs is taken here.
    pub fn new(alloc: Global) -> Result<(Ready, ReadyPass), AllocError>
        ensures { IfOk result (λ r. r.1 ≡ handed [] []) }
    {
        let (queue, pass) = Queue::ruled(alloc, MAX_READY)?;
        let queue = Arc::new(alloc, queue)?;
        let ready = Ready {
            queue: Arc::try_clone(&queue)?,
        };
        Ok((ready, ReadyPass { queue, pass }))
    }

    /// One more pass, through which nothing has gone yet.
    pub fn join(&self) -> Result<ReadyPass, AllocError>
        ensures { IfOk result (λ p. p ≡ handed [] []) }
    {
        let queue = Arc::try_clone(&self.queue)?;
        let pass = queue.pass();
        Ok(ReadyPass { queue, pass })
    }

    /// Pushes a number into the pass's queue, or hands it back if the queue has 64 already. Takes no memory.
    pub fn push(&self, rt: &impl Wait, pass: &mut ReadyPass, number: u32) -> Result<(), u32>
        ensures { MatchResult result (λ _. pass.new ≡ handed (pass.old.pushed ++ number ∷ []) pass.old.popped)
            (λ back. (back ≡ number) × (pass.new ≡ pass.old)) }
    {
        let queue: &Queue = &pass.queue;
        queue.push_as::<Pushes, _>(rt, &mut pass.pass, number)
    }

    /// Pops the number that has been in the pass's queue the longest; `None` if it is empty. Takes no memory.
    pub fn pop(&self, rt: &impl Wait, pass: &mut ReadyPass) -> Option<u32>
        ensures { MatchOption result (pass.new ≡ pass.old)
            (λ number. pass.new ≡ handed pass.old.pushed (pass.old.popped ++ number ∷ [])) }
    {
        let queue: &Queue = &pass.queue;
        queue.pop_as::<Pops, _>(rt, &mut pass.pass)
    }
}
