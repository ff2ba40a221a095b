// Who stores what engines do: leader and followers.

ghost use Rattle.std.specs.Prelude.{◌≡◌, ◌≢◌, false, IfSome, IfOk, IfErr};
ghost use Rattle.tl_follow.specs.Positions.{IsUpTo};
ghost use Rattle.tl_journal.specs.Following.{refusal_of, counts};
ghost use Rattle.tl_ledger.specs.declared.committing.Marks.{Marks as Rows};
ghost use Rattle.tl_server.specs.declared.journal.Claim.TheVariants.{NoStore};

use crate::desk::{Desk, Extent};
use sqlite_trees::error::StoreError;
use sqlite_trees::store::Store;
use std::alloc::Global;
use std::sync::{Condvar, Mutex, Wait};
use std::time::{Clock, Duration};
use tl_follow::{FollowFault, Found, follow_ledger};
use tl_keys::KeyIndex;
use tl_ledger::{Ledger, Marks, News, ReadFault};
use tl_news::news_since;
use tl_pending::Pending;
use tl_procedures::Procedures;
use tl_server::{Claim, FollowRefusal, Journal, TABLES, Unstored};
use tl_tree::Record;
use tl_workers::Engine;

/// A journal that stores what engines do by a ledger.
///
/// It has no thread of its own: whoever has to wait until something is stored, and finds the ledger on its desk, takes it, stores all that
/// came up to then, puts it back and wakes the others. Nothing is locked while the disk works, so engines go on, and whoever comes next
/// stores all that came meanwhile.
#[derive(Drop)]
pub struct LedgerJournal<S: Store> {
    // Before an engine's table, where both are locked.
    pending: Mutex<Pending>,
    // Alone.
    desk: Mutex<Desk<S>>,
    // Notified after the ledger was put back.
    moved: Condvar,
    // Notified after a session let go of a key.
    released: Condvar,
}

/// What a journal leaves.
#[derive(Drop)]
pub struct JournalParts<S: Store> {
    /// The ledger, unless somebody still stores something.
    pub ledger: Option<Ledger<S>>,
    /// Why it stores nothing more, if that is so.
    pub fault: Option<StoreError>,
    /// What came and wasn't stored.
    pub pending: News,
}

impl<S: Store + Drop> LedgerJournal<S> {
    /// A journal over a ledger that isn't shut, whose volume has so many epochs before it, before an engine that has no calls yet and so many
    /// procedures; all of those are stored. These are the records of its tree, which are stored too, and so is what came of calls that had a key.
    pub fn new(
        alloc: Global,
        before: u64,
        ledger: Ledger<S>,
        records: Vec<Record>,
        procedures: usize,
        keys: KeyIndex,
    ) -> LedgerJournal<S>
        requires { ledger.is_shut ≡ false }
    {
        LedgerJournal {
            pending: Mutex::new(Pending::new(
                alloc,
                before,
                ledger.marks,
                records,
                procedures,
                keys,
            )),
            desk: Mutex::new(Desk::new(before, ledger)),
            moved: Condvar::new(),
            released: Condvar::new(),
        }
    }

    /// Why nothing more is stored, if that is so.
    pub fn fault(&self, rt: &impl Wait) -> Option<StoreError> {
        if self.wanted(rt).is_none() {
            return Some(StoreError::OutOfMemory);
        }
        self.desk.lock(rt).fault()
    }

    /// What it leaves.
    pub fn into_parts(self) -> JournalParts<S> {
        let LedgerJournal {
            pending,
            desk,
            moved: _,
            released: _,
        } = self;
        let pending = pending.into_inner().into_news();
        match desk.into_inner().into_ledger() {
            Some((ledger, fault)) => JournalParts {
                ledger: Some(ledger),
                fault,
                pending,
            },
            None => JournalParts {
                ledger: None,
                fault: None,
                pending,
            },
        }
    }

    /// Takes the ledger as soon as nobody stores anything, so that it can be read at rest: all that was answered is stored. Nothing more is stored
    /// before `give_back`. `None` if nothing more is stored anyway.
    pub fn borrow(&self, rt: &impl Wait) -> Option<Ledger<S>>
        ensures { IfSome result (λ l. l.is_shut ≡ false) }
    {
        let mut desk = self.desk.lock(rt);
        for _ in rt.forever() {
            if let Some(ledger) = desk.take() {
                return Some(ledger);
            }
            if desk.fault().is_some() {
                return None;
            }
            desk = self.moved.wait(rt, desk);
        }
        unreachable!()
    }

    /// Puts the ledger back. If it is shut, nothing more is stored.
    pub fn give_back(&self, rt: &impl Wait, ledger: Ledger<S>) {
        self.put(rt, ledger, None);
    }

    /// Puts the ledger back for good: nothing more is stored, for that reason.
    pub fn give_up(&self, rt: &impl Wait, ledger: Ledger<S>, fault: StoreError) {
        self.put(rt, ledger, Some(fault));
    }

    // Puts the ledger back, and wakes those that wait for it.
    fn put(&self, rt: &impl Wait, ledger: Ledger<S>, failure: Option<StoreError>) {
        self.desk.lock(rt).put(ledger, failure);
        self.moved.notify_all();
    }

    /// Waits until all that came up to now is stored, and for no follower.
    pub fn store_all(&self, rt: &impl Wait, alloc: Global) -> Result<(), Unstored> {
        match self.wanted(rt) {
            Some(wanted) => self.await_stored(rt, alloc, &wanted),
            None => Err(Unstored),
        }
    }

    // Waits until so much is stored.
    fn await_stored(&self, rt: &impl Wait, alloc: Global, wanted: &Extent) -> Result<(), Unstored> {
        let mut desk = self.desk.lock(rt);
        for _ in rt.forever() {
            if desk.has_stored(wanted) {
                return Ok(());
            }
            if desk.fault().is_some() {
                return Err(Unstored);
            }
            let Some(ledger) = desk.take() else {
                desk = self.moved.wait(rt, desk);
                continue;
            };
            drop(desk);
            return self.lead(rt, alloc, ledger, wanted);
        }
        unreachable!()
    }

    // Waits until a follower holds so much, if answers wait for one.
    fn await_held(&self, rt: &impl Wait, wanted: &Extent) -> Result<(), Unstored> {
        let mut desk = self.desk.lock(rt);
        for _ in rt.forever() {
            if desk.is_held(wanted) {
                return Ok(());
            }
            if desk.is_ending() {
                return Err(Unstored);
            }
            desk = self.moved.wait(rt, desk);
        }
        unreachable!()
    }

    /// Lets answers wait until a follower holds what they rest on.
    pub fn wait_for_holder(&self, rt: &impl Wait) {
        self.desk.lock(rt).wait_for_holder();
    }

    /// A follower holds all before a place in the volume that has so many epochs before it.
    pub fn hold(&self, rt: &impl Wait, before: u64, rows: Marks) {
        self.desk.lock(rt).hold(&Extent { before, rows });
        self.moved.notify_all();
    }

    /// What is stored behind a place in the volume that has so many epochs before it, where the follower has the records after so many seals. Where nothing
    /// is behind it that is waited for, for so many milliseconds at most. `None` if that volume isn't the live one.
    pub fn look_behind<R: Wait + Clock>(
        &self,
        rt: &R,
        alloc: Global,
        before: u64,
        from: &Marks,
        records: Option<u64>,
        wait: u64,
    ) -> Result<Option<Found>, FollowRefusal>
        ensures { IfOk result (λ found. IfSome found (λ f. (stored : Rows) × IsUpTo from.now f.rows.to × IsUpTo f.rows.to stored)) }
    {
        let place = Extent {
            before,
            rows: *from,
        };
        self.await_more(rt, &place, wait);
        let Some(mut ledger) = self.borrow(rt) else {
            return Err(FollowRefusal::Broken);
        };
        // The ledger stays the live volume's while it is borrowed.
        let found = if self.desk.lock(rt).is_of(before) {
            Some(follow_ledger(alloc, &mut ledger, from, records))
        } else {
            None
        };
        self.give_back(rt, ledger);
        match found {
            Some(Ok(found)) => Ok(Some(found)),
            Some(Err(fault)) => Err(follow_refusal_of(fault)),
            None => Ok(None),
        }
    }

    // Waits until something is stored behind a place, but not for longer than that.
    fn await_more<R: Wait + Clock>(&self, rt: &R, place: &Extent, wait: u64) {
        let mut desk = self.desk.lock(rt);
        for _ in 0..MAX_WAKES {
            if wait == 0 || !desk.has_only(place) || desk.fault().is_some() {
                return;
            }
            let (now, waited) = self
                .moved
                .wait_timeout(rt, desk, Duration::from_millis(wait));
            desk = now;
            if waited.timed_out() {
                return;
            }
        }
    }

    /// How many calls the live volume has once all that came is stored.
    pub fn calls(&self, rt: &impl Wait) -> u64 {
        match self.wanted(rt) {
            Some(wanted) => wanted.rows.calls,
            None => 0,
        }
    }

    /// Goes on with the ledger of the next volume, which isn't shut and begins with what the last one left, while that one is borrowed. Who waits
    /// until something is stored in the last one waits no longer: all of it is. Where something came that isn't stored nothing is changed, and the
    /// ledger is given back.
    pub fn turn_over(&self, rt: &impl Wait, next: Ledger<S>) -> Result<(), Ledger<S>>
        requires { next.is_shut ≡ false }
        ensures { IfErr result (λ l. l ≡ next) }
    {
        let mut pending = self.pending.lock(rt);
        if !pending.turn_over(next.marks) {
            return Err(next);
        }
        let before = pending.before();
        drop(pending);
        self.desk.lock(rt).turn_over(before, next);
        self.moved.notify_all();
        Ok(())
    }

    // Takes over what came of the engine's table.
    fn read(&self, rt: &impl Wait, alloc: Global, engine: &Engine, is_over: bool) {
        take_over(rt, alloc, engine, is_over, &mut *self.pending.lock(rt));
    }

    // How many rows the live volume has once all that came up to now is stored. `None` if some of it was lost.
    fn wanted(&self, rt: &impl Wait) -> Option<Extent> {
        let pending = self.pending.lock(rt);
        let rows = pending.wanted()?;
        Some(Extent {
            before: pending.before(),
            rows,
        })
    }

    // Stores all that came up to now.
    fn store(&self, rt: &impl Wait, alloc: Global, ledger: &mut Ledger<S>) -> Option<StoreError> {
        let Some(news) = self.pending.lock(rt).take(alloc) else {
            return Some(StoreError::OutOfMemory);
        };
        ledger.commit(&news).err()
    }

    // Stores all that came up to now with the ledger from the desk, puts it back and wakes those that wait for it.
    fn lead(
        &self,
        rt: &impl Wait,
        alloc: Global,
        ledger: Ledger<S>,
        wanted: &Extent,
    ) -> Result<(), Unstored> {
        let mut ledger = ledger;
        // Nothing is locked meanwhile.
        let failure = self.store(rt, alloc, &mut ledger);
        let mut desk = self.desk.lock(rt);
        desk.put(ledger, failure);
        self.moved.notify_all();
        if desk.has_stored(wanted) {
            Ok(())
        } else {
            Err(Unstored)
        }
    }
}

// How often a follower may be woken before it has an answer.
const MAX_WAKES: u32 = 1_000;

/// The place in its volume that a position names.
pub fn marks_at(rows: &[u64; TABLES]) -> Marks
    ensures { counts result ≡ rows.now }
{
    let [nodes, procedures, calls, turns, replies, seals] = *rows;
    Marks {
        nodes,
        procedures,
        calls,
        turns,
        replies,
        seals,
    }
}

/// Why a follower gets nothing, as the server says it.
pub fn follow_refusal_of(fault: FollowFault) -> FollowRefusal
    ensures { result ≡ refusal_of fault }
{
    match fault {
        FollowFault::NotThere => FollowRefusal::NotThere,
        FollowFault::Unread(ReadFault::NotRows { table }) => FollowRefusal::BadRow { table },
        FollowFault::Unread(ReadFault::Store(StoreError::OutOfMemory)) => FollowRefusal::Memory,
        FollowFault::Unread(ReadFault::Store(_)) => FollowRefusal::Broken,
    }
}

// Takes over what came of the engine's table.
fn take_over(rt: &impl Wait, alloc: Global, engine: &Engine, is_over: bool, pending: &mut Pending) {
    let mark = pending.mark();
    let read = engine.look(rt, |table| news_since(alloc, table, &mark, is_over));
    let taken = match read {
        Ok(came) => pending.add(alloc, came),
        Err(refused) => Err(refused),
    };
    if taken.is_err() {
        pending.lose();
    }
}

// What came of the call that had the key; if none had it, the session claims it. What the session has asked for before is taken over first, so that
// none of that gets the key.
fn claim_of(
    rt: &impl Wait,
    alloc: Global,
    engine: &Engine,
    pending: &mut Pending,
    session: u32,
    key: &str,
) -> Claim
    ensures { result ≢ NoStore }
{
    match pending.find(alloc, key) {
        Ok(Some(kept)) => return Claim::Taken(kept),
        Ok(None) => {}
        Err(_) => return Claim::Memory,
    }
    take_over(rt, alloc, engine, false, pending);
    // What was lost may have had the key.
    if pending.wanted().is_none() || pending.claim(alloc, session, key).is_err() {
        return Claim::Memory;
    }
    Claim::Granted
}

impl<S: Store + Drop> Journal for LedgerJournal<S> {
    ghost use Rattle.std.specs.Prelude.{true};

    ghost is_storing = { λ _. true };

    fn stores(&self) -> bool {
        true
    }

    fn gather(&self, rt: &impl Wait, alloc: Global, engine: &Engine, _base: u32) {
        self.read(rt, alloc, engine, false);
    }

    fn close(&self, rt: &impl Wait, alloc: Global, engine: &Engine, _base: u32) {
        self.read(rt, alloc, engine, true);
    }

    fn claim(
        &self,
        rt: &impl Wait,
        alloc: Global,
        engine: &Engine,
        session: u32,
        key: &str,
    ) -> Claim {
        let mut pending = self.pending.lock(rt);
        for _ in rt.forever() {
            if !pending.is_claimed(key) {
                return claim_of(rt, alloc, engine, &mut *pending, session, key);
            }
            pending = self.released.wait(rt, pending);
        }
        unreachable!()
    }

    fn release(&self, rt: &impl Wait, alloc: Global, engine: &Engine, session: u32) {
        let mut pending = self.pending.lock(rt);
        take_over(rt, alloc, engine, false, &mut *pending);
        pending.release(session);
        drop(pending);
        self.released.notify_all();
    }

    fn grow(&self, rt: &impl Wait, _alloc: Global, parents: &[i64], _epoch: u32) {
        let mut pending = self.pending.lock(rt);
        if pending.grow(parents).is_err() {
            pending.lose();
        }
    }

    fn replace(&self, rt: &impl Wait, alloc: Global, others: &Procedures) {
        let mut pending = self.pending.lock(rt);
        if pending.replace(alloc, others).is_err() {
            pending.lose();
        }
    }

    fn settle(&self, rt: &impl Wait, alloc: Global) -> Result<(), Unstored> {
        let Some(wanted) = self.wanted(rt) else {
            return Err(Unstored);
        };
        self.await_stored(rt, alloc, &wanted)?;
        self.await_held(rt, &wanted)
    }

    fn end_waits(&self, rt: &impl Wait) {
        self.desk.lock(rt).end_waits();
        self.moved.notify_all();
    }
}
