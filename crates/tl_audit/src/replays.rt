// The calls, each run along its own events, and the least call with a fault.

ghost use Rattle.std.specs.Prelude.{◌≡◌, ◌<◌, List, [], ◌∷◌, length, IfOk, IfErr, OnOk};
ghost use Rattle.tl_tree_locking.specs.declared.event.Event.{Event as EventValue};
ghost use Rattle.tl_tree_locking.specs.declared.event.Event.TheVariants as event;
ghost use Rattle.tl_tree_locking.specs.History.{caller};
ghost use Rattle.tl_trail.specs.Trails.{TrailValue, IsTrail};
ghost use Rattle.tl_trail.specs.Clean.{AreRight, AreDone};
ghost use Rattle.tl_audit.specs.Findings.{AreSo, IsFirstFault};
ghost use Rattle.tl_audit.specs.Replaying.{IsAt, IsFollowed, IsTaken, fault_of};

use crate::fault::AuditFault;
use crate::genuine::{ends, frees, locks, replies, start};
use std::alloc::{AllocError, Global};
use tl_machine::Turn;
use tl_trail::Trail;
use tl_tree::Record;
use tl_tree_locking::Event;

/// How a call differs from its run alone.
#[derive(Clone, Copy, Debug, PartialEq, Eq)]
pub(crate) enum Difference {
    /// In its locks and frees.
    Actions,
    /// In its reply.
    Reply,
}

/// A call that differs from its run alone.
#[derive(Clone, Copy, Debug, PartialEq, Eq)]
pub(crate) struct WrongCall {
    call: u32,
    difference: Difference,
}

impl WrongCall {
    // The fault of the call.
    fn fault(self) -> AuditFault
        ensures { result ≡ fault_of self.difference self.call }
    {
        match self.difference {
            Difference::Actions => AuditFault::NotGenuine { call: self.call },
            Difference::Reply => AuditFault::WrongReply { call: self.call },
        }
    }
}

/// The calls, each run along its own events.
#[derive(Drop)]
pub(crate) struct Replays {
    // The turn of each open call, as long as the call doesn't differ from its run alone.
    turns: Vec<Option<Box<Turn>>>,
    // The least call that differs.
    least: Option<WrongCall>,
}

impl Replays {
    /// No call has started yet.
    pub(crate) fn new(alloc: Global, calls: usize) -> Result<Replays, AllocError>
        ensures { IfOk result (λ r. (trail : TrailValue) → IsTrail trail → length trail.calls ≡ calls → IsFollowed trail [] r) }
    {
        let mut turns = Vec::with_capacity(alloc, calls)?;
        for _call in 0..calls {
            turns.push(None)?;
        }
        Ok(Replays { turns, least: None })
    }

    /// Runs the event's call on along the event.
    pub(crate) fn follow(
        &mut self,
        alloc: Global,
        trail: &Trail,
        event: &Event,
    ) -> Result<(), AllocError>
        requires size { length self.old.turns.items ≡ length trail.now.calls }
        requires call { caller event.now < length trail.now.calls }
        ensures { OnOk result ((later past : List EventValue) → IsAt trail.now later event.now past
            → IsFollowed trail.now past self.old → IsFollowed trail.now (event.now ∷ past) self.new) }
    {
        match *event {
            Event::Admit { call } => self.admit(alloc, trail, call)?,
            Event::Lock { call, node, found } => self.lock(call, node, found),
            Event::Free { call, node, left } => self.free(call, node, &left),
            Event::Done { call } => self.end(trail, call),
        }
        Ok(())
    }

    // A call starts.
    fn admit(&mut self, alloc: Global, trail: &Trail, call: u32) -> Result<(), AllocError>
        requires size { length self.old.turns.items ≡ length trail.now.calls }
        requires call { call < length trail.now.calls }
        ensures { OnOk result ((later past : List EventValue) → IsAt trail.now later (event.Admit call) past
            → IsFollowed trail.now past self.old → IsFollowed trail.now (event.Admit call ∷ past) self.new) }
    {
        let turn = Box::new(alloc, start(trail, call)?)?;
        self.turns[call as usize] = Some(turn);
        Ok(())
    }

    // A call locks a node.
    fn lock(&mut self, call: u32, node: u32, found: Record)
        requires { call < length self.old.turns.items }
        ensures { (trail : TrailValue) (later past : List EventValue) → IsAt trail later (event.Lock node call found) past
            → IsFollowed trail past self.old → IsFollowed trail (event.Lock node call found ∷ past) self.new }
    {
        let Some(mut turn) = self.turns[call as usize].take() else {
            return;
        };
        if locks(&mut turn, node, found) {
            self.turns[call as usize] = Some(turn);
        } else {
            self.take_wrong(call, Difference::Actions);
        }
    }

    // A call frees a node.
    fn free(&mut self, call: u32, node: u32, left: &Record)
        requires { call < length self.old.turns.items }
        ensures { (trail : TrailValue) (later past : List EventValue) → IsAt trail later (event.Free node call left.now) past
            → IsFollowed trail past self.old → IsFollowed trail (event.Free node call left.now ∷ past) self.new }
    {
        let Some(mut turn) = self.turns[call as usize].take() else {
            return;
        };
        if frees(&mut turn, node, left) {
            self.turns[call as usize] = Some(turn);
        } else {
            self.take_wrong(call, Difference::Actions);
        }
    }

    // A call ends.
    fn end(&mut self, trail: &Trail, call: u32)
        requires size { length self.old.turns.items ≡ length trail.now.calls }
        requires call { call < length trail.now.calls }
        ensures { (later past : List EventValue) → IsAt trail.now later (event.Done call) past
            → IsFollowed trail.now past self.old → IsFollowed trail.now (event.Done call ∷ past) self.new }
    {
        let Some(mut turn) = self.turns[call as usize].take() else {
            return;
        };
        let Some(reply) = ends(&mut turn) else {
            self.take_wrong(call, Difference::Actions);
            return;
        };
        if !replies(trail, call, &reply) {
            self.take_wrong(call, Difference::Reply);
        }
    }

    // One more call differs.
    fn take_wrong(&mut self, call: u32, difference: Difference)
        ensures turns { self.new.turns ≡ self.old.turns }
        ensures taken { IsTaken self.old.least self.new.least (record { call = call; difference = difference }) }
    {
        match self.least {
            Some(least) if least.call <= call => {}
            _ => self.least = Some(WrongCall { call, difference }),
        }
    }

    /// The fault of the least call that differs from its run alone, if all events are right and all calls are done.
    pub(crate) fn check(&self, trail: &Trail) -> Result<(), AuditFault>
        requires followed { IsFollowed trail.now trail.now.past self.now }
        requires right { AreRight trail.now.parents trail.now.opening trail.now.past }
        requires done { AreDone trail.now }
        ensures so { OnOk result (AreSo trail.now (length trail.now.calls)) }
        ensures fault { IfErr result (λ f. IsFirstFault trail.now f) }
    {
        match self.least {
            Some(wrong) => Err(wrong.fault()),
            None => Ok(()),
        }
    }
}
