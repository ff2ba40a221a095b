// A session, and the list of its requests and receipts.

ghost use Rattle.std.specs.Prelude.{◌≡◌, ◌↔◌, ◌≤◌, ◌<◌, [], ◌∷◌, ◌++◌, length, Some, slice_get, IsTrue, OnOk};
ghost use Rattle.std.specs.Borrow.{sem};
ghost use Rattle.tl_workers.specs.Lending.{LendsPass};
ghost use Rattle.tl_workers.specs.declared.batch.TheConstants.{MAX_REQUESTS};
ghost use Rattle.tl_workers.specs.declared.session.Did.TheVariants.{Asked, Got};
ghost use Rattle.tl_workers.specs.Kept.{Gains, AsksAt, askings_of, gots_of};
ghost use Rattle.tl_workers.specs.{WasSession};

use crate::asking::Asking;
use crate::batch::MAX_REQUESTS;
use crate::genuine::{Shown, lemma_was_session};
use crate::notes::Notes;
use crate::refusal::Refusal;
use std::alloc::{AllocError, Global};
use std::marker::Model;
use tl_ready::ReadyPass;
use tl_table::Receipt;

/// One entry of a session's list.
#[derive(Debug, Drop)]
pub enum Did {
    /// A call was asked for, and was admitted.
    Asked(Asking),
    /// A call's receipt was received.
    Got(Receipt),
}

/// A session of an engine. It can't be copied, so there is one list of its requests and receipts.
///
/// A contract sees its number, its requests and receipts in their order, and for how many more calls and receipts there is
/// room.
#[derive(Drop)]
pub struct Session {
    number: u32,
    notes: Notes,
    // Its batches push calls to the queue of ready calls, and pop them, by this pass.
    pass: ReadyPass,
}

impl Model for Session {
    ghost use Rattle.tl_workers.specs.Kept.{SessionValue};

    ghost Value = { SessionValue };

    ghost view = { λ s. record { number = s.number; kept = s.notes.kept; asks = s.notes.asks; gots = s.notes.gots } };
}

impl Session {
    pub(crate) fn new(alloc: Global, number: u32, pass: ReadyPass) -> Session
        ensures { (result.number ≡ number) × (result.kept ≡ []) }
    {
        Session {
            number,
            notes: Notes::new(alloc),
            pass,
        }
    }

    /// Its number.
    pub fn number(&self) -> u32
        ensures { result ≡ self.now.number }
    {
        self.number
    }

    /// That a session had its value, for proofs.
    pub fn lemma_was_session(&self)
        ensures { WasSession self.now }
    {
        lemma_was_session::<Shown>(self);
    }

    /// How many entries its list has.
    pub fn len(&self) -> usize
        ensures { result ≡ length self.now.kept }
    {
        self.notes.len()
    }

    /// Whether its list is empty.
    pub fn is_empty(&self) -> bool
        ensures { IsTrue result ↔ (self.now.kept ≡ []) }
    {
        self.notes.len() == 0
    }

    /// The entry at that place of its list. Takes no memory.
    pub fn entry(&self, i: usize) -> Did
        requires { i < length self.now.kept }
        ensures { slice_get self.now.kept i ≡ Some result }
    {
        self.notes.entry(i)
    }

    // Whether that call was asked for at that place of its list.
    pub(crate) fn asks_at(&self, i: usize, epoch: u32, call: u32) -> bool
        requires { i < length self.now.kept }
        ensures { IsTrue result ↔ AsksAt self.now.kept i epoch call }
    {
        self.notes.asks_at(i, epoch, call)
    }

    // Its pass of the queue of ready calls.
    pub(crate) fn pass(&mut self) -> &mut ReadyPass
        ensures* { sem 𝓛 (LendsPass self.entry result) }
    {
        &mut self.pass
    }

    // Makes room for that many calls and their receipts.
    pub(crate) fn reserve(&mut self, calls: usize) -> Result<(), AllocError>
        requires { calls ≤ MAX_REQUESTS }
        ensures same { Gains self.old self.new [] }
        ensures room { OnOk result ((calls ≤ self.new.asks) × (calls ≤ self.new.gots)) }
    {
        self.notes.reserve(calls)
    }

    // Writes a call down, in room made before.
    pub(crate) fn record(&mut self, asked: &Asking, receipt: &Receipt)
        requires asks { 1 ≤ self.old.asks }
        requires gots { 1 ≤ self.old.gots }
        ensures { Gains self.old self.new (Asked asked.now ∷ Got receipt.now ∷ []) }
    {
        self.notes.asked(asked);
        self.notes.got(receipt);
    }

    // Writes a batch down, in room made before: the requests, and then the receipts.
    pub(crate) fn record_all(
        &mut self,
        admitted: &[Result<Asking, Refusal>],
        answers: &[Result<Receipt, Refusal>],
    )
        requires asks { length admitted.now ≤ self.old.asks }
        requires gots { length answers.now ≤ self.old.gots }
        ensures { Gains self.old self.new (askings_of admitted.now ++ gots_of answers.now) }
    {
        for one in admitted {
            if let Ok(asked) = one {
                self.notes.asked(asked);
            }
        }
        for answer in answers {
            if let Ok(receipt) = answer {
                self.notes.got(receipt);
            }
        }
    }
}
