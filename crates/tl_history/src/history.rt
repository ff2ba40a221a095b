// Stored events, and places for more.

ghost use Rattle.std.specs.Prelude.{◌≡◌, ◌+◌, ◌-◌, ◌<◌, ◌≤◌, ◌↔◌, [], ◌∷◌, length, reverse, unwrap_or, vec_len, vec_capacity, IsTrue, IsOk, IsErrOf, OnOk, OnErr};
ghost use Rattle.tl_tree.specs.Records.{Record as RecordValue};
ghost use Rattle.tl_tree_locking.specs.History.{past_of, last_left};
ghost use Rattle.tl_history.specs.Stored.{room_of, IsWithinLimit};

use crate::fault::HistoryFault;
use std::alloc::{AllocError, Global};
use std::marker::Model;
use tl_tree::Record;
use tl_tree_locking::Event;

/// The greatest limit that a history may have.
pub const MAX_EVENTS: usize = 1_048_576;

/// The most calls whose events a history may have.
pub const MAX_CALLS: usize = 4_096;

/// What many calls did, and the places reserved for what they may still do.
///
/// A contract sees the events, the latest first, the limit, and the number of reserved places. The events and the reserved
/// places together are never more than the limit.
#[derive(Debug, Drop)]
pub struct History {
    // The earliest first. There is memory for each reserved place.
    events: Vec<Event>,
    limit: usize,
    reserved: usize,
}

impl Model for History {
    ghost use Rattle.std.specs.Prelude.{◌+◌, ◌≤◌, vec_len, vec_capacity};
    ghost use Rattle.tl_tree_locking.specs.History.{past_of};
    ghost use Rattle.tl_history.specs.Stored.{Stored, IsWithinLimit};

    ghost Value = { Stored };

    ghost view = { λ h. record { past = past_of h.events.items; limit = h.limit; reserved = h.reserved } };

    ghost invariant = { λ h. IsWithinLimit (record { past = past_of h.events.items; limit = h.limit; reserved = h.reserved }) × (vec_len h.events + h.reserved ≤ vec_capacity h.events) };
}

impl History {
    /// An empty history that may have up to `limit` events. Takes no memory.
    pub fn new(alloc: Global, limit: usize) -> History
        requires { limit ≤ MAX_EVENTS }
        ensures { result ≡ record { past = []; limit = limit; reserved = 0 } }
    {
        History {
            events: Vec::new(alloc),
            limit,
            reserved: 0,
        }
    }

    /// The most events that the history may have.
    pub fn limit(&self) -> usize
        ensures value { result ≡ self.now.limit }
        ensures within { IsWithinLimit self.now }
    {
        self.limit
    }

    /// How many events are stored.
    pub fn len(&self) -> usize
        ensures value { result ≡ length self.now.past }
        ensures within { IsWithinLimit self.now }
    {
        self.events.len()
    }

    /// Whether no event is stored.
    pub fn is_empty(&self) -> bool
        ensures { IsTrue result ↔ (self.now.past ≡ []) }
    {
        self.events.is_empty()
    }

    /// How many places are reserved.
    pub fn reserved(&self) -> usize
        ensures value { result ≡ self.now.reserved }
        ensures within { IsWithinLimit self.now }
    {
        self.reserved
    }

    /// How many more places can be reserved: the limit minus the stored events and the reserved places.
    pub fn room(&self) -> usize
        ensures value { result ≡ room_of self.now }
        ensures within { IsWithinLimit self.now }
    {
        self.limit - self.events.len() - self.reserved
    }

    /// Reserves `places` more places.
    ///
    /// 605 if and only if there is no room for them; otherwise 690 if memory is refused. If it fails, nothing changes.
    pub fn reserve(&mut self, _alloc: Global, places: usize) -> Result<(), HistoryFault>
        ensures ok { OnOk result (self.new ≡ record self.old { reserved = self.old.reserved + places }) }
        ensures fits { OnOk result (places ≤ room_of self.old) }
        ensures full { IsErrOf result HistoryFault.HistoryFull ↔ (room_of self.old < places) }
        ensures err { OnErr result (self.new ≡ self.old) }

        // The places already reserved have their memory.
        ensures nothing_wanted { places ≡ 0 → IsOk result }
    {
        if places > self.room() {
            return Err(HistoryFault::HistoryFull);
        }
        make_room(&mut self.events, self.reserved + places)?;
        self.reserved += places;
        Ok(())
    }

    /// Stores an event as the latest, in one of the reserved places. Takes no memory.
    pub fn append(&mut self, event: Event)
        requires { 0 < self.old.reserved }
        ensures { self.new ≡ record self.old { past = event ∷ self.old.past; reserved = self.old.reserved - 1 } }
    {
        self.events.push_reserved(event);
        self.reserved -= 1;
    }

    /// Gives up `places` of the reserved places.
    pub fn give_back(&mut self, places: usize)
        requires { places ≤ self.old.reserved }
        ensures { self.new ≡ record self.old { reserved = self.old.reserved - places } }
    {
        self.reserved -= places;
    }

    /// Gives back the memory of places that are neither stored nor reserved. If a smaller block of memory is refused,
    /// nothing changes.
    pub fn cut(&mut self)
        ensures { self.new ≡ self.old }
    {
        let needed = self.len() + self.reserved();
        self.events.shrink_to(needed);
    }

    /// The events, the earliest first.
    pub fn events(&self) -> &[Event]
        ensures past { past_of result.now ≡ self.now.past }
        ensures events { result.now ≡ reverse self.now.past }
        ensures count { length result.now ≡ length self.now.past }
        ensures within { IsWithinLimit self.now }
    {
        self.events.as_slice()
    }

    /// The record that the node was last left with, from its latest `Free`; `None` if no event frees the node. Searches the
    /// events from the latest back.
    pub fn last_left(&self, node: u32) -> Option<Record>
        // `opening` stands for the node's opening record.
        ensures { (opening : RecordValue) → unwrap_or result opening ≡ last_left self.now.past node opening }
    {
        for event in self.events.iter().rev() {
            match *event {
                Event::Free {
                    node: freed,
                    left,
                    ..
                } if freed == node => return Some(left),
                _ => {}
            }
        }
        None
    }
}

// Makes room for `more` events after those stored. The room doubles, so that not every call moves the events; if that much
// memory is refused, the exact amount may still be available.
fn make_room(events: &mut Vec<Event>, more: usize) -> Result<(), AllocError>
    ensures items { events.new.items ≡ events.old.items }
    ensures len { vec_len events.new ≡ vec_len events.old }
    ensures ok { OnOk result (vec_len events.new + more ≤ vec_capacity events.new) }
    ensures refused { OnErr result (vec_capacity events.old < vec_len events.old + more) }
    ensures err { OnErr result (vec_capacity events.new ≡ vec_capacity events.old) }
{
    if events.reserve(more).is_ok() {
        return Ok(());
    }
    events.reserve_exact(more)
}
