// Where the ledger lies while nobody stores anything.

ghost use Rattle.std.specs.Prelude.{◌≡◌, ◌≤◌, ◌↔◌, ◌⊎◌, IsTrue, true, false, Some, None, IsSome, IfSome, option_map};
ghost use Rattle.std.specs.Option.{ForSome};
ghost use Rattle.tl_journal.specs.Desks.{HasRows, Covers, IsHeldAfter, nothing};

use sqlite_trees::error::StoreError;
use sqlite_trees::store::Store;
use tl_follow::beginning;
use tl_ledger::{Ledger, Marks};

/// How many rows of the volume that has so many epochs before it.
#[derive(Clone, Copy, Debug, PartialEq, Eq)]
pub(crate) struct Extent {
    pub(crate) before: u64,
    pub(crate) rows: Marks,
}

/// Whether the first has at least as many rows of each table as the second.
fn has_rows(stored: &Marks, wanted: &Marks) -> bool
    ensures { IsTrue result ↔ HasRows stored.now wanted.now }
{
    stored.nodes >= wanted.nodes
        && stored.procedures >= wanted.procedures
        && stored.calls >= wanted.calls
        && stored.turns >= wanted.turns
        && stored.replies >= wanted.replies
        && stored.seals >= wanted.seals
}

/// Whether what is wanted is stored. Who has gone over to the next volume has stored all of the one before.
fn covers(stored: &Extent, wanted: &Extent) -> bool
    ensures { IsTrue result ↔ Covers stored.now wanted.now }
{
    wanted.before < stored.before
        || wanted.before == stored.before && has_rows(&stored.rows, &wanted.rows)
}

// How much a follower holds, after it said that it holds so many rows. It counts where they are stored, and more than before.
fn held_after(stored: &Extent, said: &Extent, before: Extent) -> Extent
    ensures { IsHeldAfter stored.now said.now before result }
{
    if covers(stored, said) && covers(said, &before) {
        *said
    } else {
        before
    }
}

/// A ledger that stores nothing more, and why.
#[derive(Drop)]
pub(crate) struct Broken<S: Store> {
    pub(crate) ledger: Ledger<S>,
    pub(crate) fault: StoreError,
}

/// Where the ledger lies while nobody stores anything. One that isn't shut lies there for whoever comes next; one that is stays.
#[derive(Drop)]
pub(crate) struct Desk<S: Store> {
    // `None` while somebody stores what came, and after a failure.
    ledger: Option<Ledger<S>>,
    // How many rows of its volume were stored when the ledger was put here last.
    stored: Extent,
    broken: Option<Broken<S>>,
    // How many rows a follower holds that answers wait for, if they do.
    held: Option<Extent>,
    // Whether answers wait no longer for a follower: those that it doesn't hold don't leave any more.
    is_ending: bool,
    ghost usable: { ForSome ledger (λ l. l.is_shut ≡ false) },
    ghost counted: { ForSome ledger (λ l. HasRows l.marks stored.rows) },
}

impl<S: Store + Drop> Desk<S> {
    /// A desk with that ledger, of the volume that has so many epochs before it.
    pub(crate) fn new(before: u64, ledger: Ledger<S>) -> Desk<S>
        requires { ledger.is_shut ≡ false }
        ensures ledger { result.ledger ≡ Some ledger }
        ensures stored { result.stored ≡ record { before = before; rows = ledger.marks } }
        ensures working { result.broken ≡ None }
        ensures waits { (result.held ≡ None) × (result.is_ending ≡ false) }
    {
        let stored = Extent {
            before,
            rows: ledger.marks,
        };
        Desk {
            ledger: Some(ledger),
            stored,
            broken: None,
            held: None,
            is_ending: false,
        }
    }

    /// Lets answers wait until a follower holds what they rest on.
    pub(crate) fn wait_for_holder(&mut self)
        ensures held { self.new.held ≡ Some nothing }
        ensures stored { (self.new.stored ≡ self.old.stored) × (self.new.ledger ≡ self.old.ledger) }
    {
        self.held = Some(Extent {
            before: 0,
            rows: beginning(),
        });
    }

    /// A follower says that it holds so many rows.
    pub(crate) fn hold(&mut self, from: &Extent)
        ensures held { IfSome self.old.held (λ old. IfSome self.new.held (λ new. IsHeldAfter self.old.stored from.now old new)) }
        ensures waits { IsSome self.new.held ↔ IsSome self.old.held }
        ensures stored { (self.new.stored ≡ self.old.stored) × (self.new.ledger ≡ self.old.ledger) }
    {
        if let Some(held) = self.held {
            self.held = Some(held_after(&self.stored, from, held));
        }
    }

    /// Whether a follower holds so many rows, or nothing waits for one.
    pub(crate) fn is_held(&self, wanted: &Extent) -> bool
        ensures { IsTrue result ↔ ForSome self.now.held (λ held. Covers held wanted.now) }
    {
        match &self.held {
            Some(held) => covers(held, wanted),
            None => true,
        }
    }

    /// Whether so many rows are stored.
    pub(crate) fn has_stored(&self, wanted: &Extent) -> bool
        ensures { IsTrue result ↔ Covers self.now.stored wanted.now }
    {
        covers(&self.stored, wanted)
    }

    /// Lets no answer wait for a follower any more. Those that it doesn't hold don't leave.
    pub(crate) fn end_waits(&mut self)
        ensures ending { self.new.is_ending ≡ true }
        ensures held { (self.new.held ≡ self.old.held) × (self.new.stored ≡ self.old.stored) × (self.new.ledger ≡ self.old.ledger) }
    {
        self.is_ending = true;
    }

    /// Whether no answer waits for a follower any more.
    pub(crate) fn is_ending(&self) -> bool
        ensures { result ≡ self.now.is_ending }
    {
        self.is_ending
    }

    /// Whether nothing is stored behind a place.
    pub(crate) fn has_only(&self, from: &Extent) -> bool
        ensures { IsTrue result ↔ Covers from.now self.now.stored }
    {
        covers(from, &self.stored)
    }

    /// Whether the live volume has so many epochs before it.
    pub(crate) fn is_of(&self, before: u64) -> bool
        ensures { IsTrue result ↔ self.now.stored.before ≡ before }
    {
        self.stored.before == before
    }

    /// Why nothing more is stored, if that is so.
    pub(crate) fn fault(&self) -> Option<StoreError>
        ensures { result ≡ option_map (λ b. b.fault) self.now.broken }
    {
        match &self.broken {
            Some(broken) => Some(broken.fault),
            None => None,
        }
    }

    /// Takes the ledger, if it lies here.
    pub(crate) fn take(&mut self) -> Option<Ledger<S>>
        ensures taken { result ≡ self.old.ledger }
        ensures left { self.new.ledger ≡ None }
        ensures stored { self.new.stored ≡ self.old.stored }
        ensures held { self.new.held ≡ self.old.held }
    {
        self.ledger.take()
    }

    /// Puts the ledger back after something was stored, or after a failure.
    pub(crate) fn put(&mut self, ledger: Ledger<S>, failure: Option<StoreError>)
        ensures back { failure ≡ None → ledger.is_shut ≡ false
            → (self.new.ledger ≡ Some ledger) × (self.new.stored ≡ record self.old.stored { rows = ledger.marks }) }
        ensures working { failure ≡ None → ledger.is_shut ≡ false → self.new.broken ≡ self.old.broken }
        ensures fault { IsSome failure → option_map (λ b. b.fault) self.new.broken ≡ failure }
        ensures failed { (IsSome failure ⊎ (ledger.is_shut ≡ true)) → (self.new.ledger ≡ self.old.ledger) × (self.new.stored ≡ self.old.stored) }
        ensures held { self.new.held ≡ self.old.held }
    {
        if let Some(fault) = failure {
            self.broken = Some(Broken { ledger, fault });
            return;
        }
        if ledger.is_shut {
            self.broken = Some(Broken {
                ledger,
                fault: StoreError::Broken,
            });
            return;
        }
        self.stored.rows = ledger.marks;
        self.ledger = Some(ledger);
    }

    /// Puts the ledger of the next volume here, which has so many epochs before it, in the place of the last one, which was taken.
    pub(crate) fn turn_over(&mut self, before: u64, next: Ledger<S>)
        requires { next.is_shut ≡ false }
        ensures next { self.new.ledger ≡ Some next }
        ensures stored { self.new.stored ≡ record { before = before; rows = next.marks } }
        ensures working { self.new.broken ≡ self.old.broken }
        ensures held { self.new.held ≡ self.old.held }
    {
        self.stored = Extent {
            before,
            rows: next.marks,
        };
        self.ledger = Some(next);
    }

    /// The ledger, and why it stores nothing more, if that is so.
    pub(crate) fn into_ledger(self) -> Option<(Ledger<S>, Option<StoreError>)> {
        let Desk {
            ledger,
            stored: _,
            broken,
            held: _,
            is_ending: _,
        } = self;
        match (ledger, broken) {
            (Some(ledger), _) => Some((ledger, None)),
            (None, Some(broken)) => {
                let Broken { ledger, fault } = broken;
                Some((ledger, Some(fault)))
            }
            (None, None) => None,
        }
    }
}
