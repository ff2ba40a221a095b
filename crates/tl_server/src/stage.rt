// The engine that answers lines now.

ghost use Rattle.std.specs.Prelude.{◌≡◌, ◌≤◌, ◌<◌, ◌+◌, ◌^◌, List, true, false, None, IfOk, IfSome, OnErr};
ghost use Rattle.std.proofs.Props.{props};
ghost use Rattle.tl_workers.specs.declared.session.Did.{Did};
ghost use Rattle.tl_workers.specs.Kept.{Gains};
ghost use Rattle.tl_procedures.specs.Names.{Named, AreKnown};
ghost use Rattle.tl_server.specs.Requests.{line_view};
ghost use Rattle.tl_server.specs.Outcomes.{IsAsked, CameOf, HasKept};
ghost use Rattle.tl_server.specs.Served.{ReadBy, keying};

use crate::journal::Journal;
use crate::keeper::Keeper;
use crate::once::call_once;
use crate::outcome::{Done, RequestOutcome};
use crate::request::LineRequest;
use crate::seats::Seats;
use crate::service::act;
use crate::storage::Storage;
use crate::texts::{Texts, register_text};
use crate::volume::VolumeRefusal;
use std::alloc::Global;
use std::marker::Model;
use std::mem;
use std::sync::{Arc, Mutex, Wait};
use std::thread::Threads;
use tl_procedures::Procedures;
use tl_table::TableFault;
use tl_workers::{Crew, Engine, Refusal, Session};

/// A connection to a relay: the seat of its session, and how many epochs there were before the engine to which that belongs.
///
/// A contract sees that number.
#[derive(Debug, Drop)]
pub struct Place {
    pub(crate) base: u32,
    seat: Option<usize>,
}

impl Model for Place {
    ghost use Rattle.std.specs.Prelude.{ℕ};

    ghost Value = { ℕ };

    ghost view = { λ p. p.base };
}

impl Place {
    /// The place of a connection that has asked for nothing yet.
    pub fn new() -> Place
        ensures { result ≡ 0 }
    {
        Place {
            base: 0,
            seat: None,
        }
    }

    // The seat of its session, if that belongs to the engine with so many epochs before it.
    fn seat(&self, base: u32) -> Option<usize> {
        if self.base == base { self.seat } else { None }
    }
}

// Does what a request asks for, in a session of the engine, for which K reads texts and the journal keeps keys.
fn act_or_read<K: Texts, J: Journal, R: Threads + Wait + Sync>(
    rt: &R,
    alloc: Global,
    engine: &Engine,
    journal: &J,
    session: &mut Session,
    request: &LineRequest,
) -> RequestOutcome
    requires { IsAsked (line_view request.now) }
    ensures { (own : List Did) × Gains session.old session.new own × CameOf (record { seals = engine.now.seals; grows = false; reads = ReadBy (record { has = K.has; lacks = K.lacks }); keys = keying (J.is_storing journal.now); frozen = false }) (line_view request.now) own result }
{
    match request {
        LineRequest::RegisterText(text) => {
            RequestOutcome::RegisteredAll(register_text::<K>(rt, alloc, engine, text))
        }
        LineRequest::CallOnce(call) => call_once(rt, alloc, engine, journal, session, call),
        request => act(rt, alloc, engine, session, request),
    }
}

// The same. The session has kept what came of it.
fn act_kept<K: Texts, J: Journal, R: Threads + Wait + Sync>(
    rt: &R,
    alloc: Global,
    engine: &Engine,
    journal: &J,
    session: &mut Session,
    request: &LineRequest,
) -> RequestOutcome
    requires { IsAsked (line_view request.now) }
    ensures { (own : List Did) × CameOf (record { seals = engine.now.seals; grows = false; reads = ReadBy (record { has = K.has; lacks = K.lacks }); keys = keying (J.is_storing journal.now); frozen = false }) (line_view request.now) own result × HasKept own }
{
    let outcome = act_or_read::<K, J, R>(rt, alloc, engine, journal, session, request);
    session.lemma_was_session();
    outcome
}

/// Why nothing is done yet.
#[derive(Clone, Copy, Debug)]
pub(crate) enum Pause {
    // The next engine has to take over: from the one with so many epochs before it, or from one that was closed already.
    HandOver(Option<u32>),
    // Memory was refused.
    Refused,
}

/// How many epochs there are before the next engine, where this one, in its epoch of that number, has so many before it. `None`
/// if there is no such number.
fn base_after(base: u32, epoch: u32) -> Option<u32>
    ensures next { IfSome result (λ next. next ≡ base + epoch + 1) }
    ensures none { result ≡ None → 2 ^ 32 ≤ base + epoch + 1 }
{
    base.checked_add(epoch)?.checked_add(1)
}

/// The engine that answers lines now, and how many epochs there were before its first.
#[derive(Drop)]
pub(crate) struct Stage {
    // `None` after one was closed and before the next is open.
    pub(crate) engine: Option<Engine>,
    pub(crate) base: u32,
    // How many engines were closed before it.
    pub(crate) generation: u64,
    // How many nodes its tree has.
    pub(crate) nodes: u32,
    ghost seals: { IfSome engine (λ e. e.seals ≡ true) } by { Prim.hlevel props },
}

impl Stage {
    // Whether this engine has used up its epochs, of which it has so many. Where the number of epochs is used up, the last engine goes
    // on up to its own end, which is 808.
    fn is_spent(&self, rt: &impl Wait, engine: &Engine, epochs: u32) -> bool {
        let epoch = engine.epoch(rt);
        epoch >= epochs && base_after(self.base, epoch).is_some()
    }

    /// Does what a request asks for, if an engine has room for it.
    pub(crate) fn perform<K: Texts, J: Journal, R: Threads + Wait + Sync>(
        &self,
        rt: &R,
        alloc: Global,
        seats: &Mutex<Seats>,
        journal: &J,
        epochs: u32,
        place: &mut Place,
        request: &LineRequest,
    ) -> Result<Done, Pause>
        requires { IsAsked (line_view request.now) }
        ensures came { IfOk result (λ d. (own : List Did) × CameOf (record { seals = true; grows = false; reads = ReadBy (record { has = K.has; lacks = K.lacks }); keys = keying (J.is_storing journal.now); frozen = false }) (line_view request.now) own d.outcome × HasKept own) }
        ensures later { IfOk result (λ d. (place.old ≤ d.base) × (place.new ≡ d.base)) }
        ensures same { OnErr result (place.new ≡ place.old) }
    {
        let Some(engine) = &self.engine else {
            return Err(Pause::HandOver(None));
        };
        // The base never gets less. If it did, a visitor would see the number of an epoch again.
        if self.base < place.base {
            return Err(Pause::Refused);
        }
        if self.is_spent(rt, engine, epochs) {
            return Err(Pause::HandOver(Some(self.base)));
        }
        let (seat, session) = self.session(rt, alloc, seats, engine, place)?;
        let mut session = session;
        let outcome = act_kept::<K, J, R>(rt, alloc, engine, journal, &mut session, request);
        seats.lock(rt).put(seat, session);
        *place = Place {
            base: self.base,
            seat: Some(seat),
        };
        Ok(Done {
            outcome,
            base: self.base,
        })
    }

    // The visitor's session and its seat.
    fn session(
        &self,
        rt: &impl Wait,
        alloc: Global,
        seats: &Mutex<Seats>,
        engine: &Engine,
        place: &Place,
    ) -> Result<(usize, Session), Pause> {
        let taken = seats
            .lock(rt)
            .take(rt, alloc, engine, place.seat(self.base));
        match taken {
            Ok(found) => Ok(found),
            Err(Refusal::Table(TableFault::TooManySessions)) => {
                Err(Pause::HandOver(Some(self.base)))
            }
            Err(_) => Err(Pause::Refused),
        }
    }

    // Hands the engine over to the keeper, with all its sessions, and before that to the journal. False if there is none, if a session is
    // away, or if the number of epochs is used up; then nothing is changed.
    pub(crate) fn close<K: Keeper, J: Storage>(
        &mut self,
        rt: &impl Wait,
        alloc: Global,
        seats: &Mutex<Seats>,
        keeper: &mut K,
        journal: &J,
    ) -> bool
        ensures closed { result ≡ true → self.old.base < self.new.base }
        ensures kept { result ≡ false → self.new.base ≡ self.old.base }
    {
        let mut seats = seats.lock(rt);
        if !seats.are_taken() {
            return false;
        }
        let Some(engine) = self.engine.take() else {
            return false;
        };
        let Some(base) = base_after(self.base, engine.epoch(rt)) else {
            self.engine = Some(engine);
            return false;
        };
        journal.close(rt, alloc, &engine, self.base);
        let sessions = mem::replace(&mut *seats, Seats::new(alloc)).into_sessions();
        keeper.close(engine, sessions);
        self.base = base;
        self.generation = self.generation.saturating_add(1);
        if journal.is_full(rt) {
            // Where the next volume can't be begun the journal says so, and goes on in the live one.
            let _turned = turn_over(rt, alloc, keeper, journal);
        }
        true
    }

    // Lets the next engine take over, with whose batches the crew helps. False if there is none; then the next line asks again.
    pub(crate) fn open<K: Keeper>(
        &mut self,
        alloc: Global,
        keeper: &mut K,
        crew: &Option<Arc<Crew>>,
    ) -> bool
        ensures { result ≡ true → K.has_closed keeper.new }
    {
        let Some(engine) = keeper.open(alloc) else {
            return false;
        };
        self.engine = Some(staffed(crew, engine));
        self.nodes = keeper.nodes();
        true
    }

    // The number of the epoch that calls belong to now, among those of all engines; of the next one's first, if none is open.
    pub(crate) fn epoch(&self, rt: &impl Wait) -> u64 {
        let own = match &self.engine {
            Some(engine) => engine.epoch(rt),
            None => 0,
        };
        u64::from(self.base) + u64::from(own)
    }

    // How many procedures the engine has; none, if no engine is open.
    pub(crate) fn procedures(&self, rt: &impl Wait) -> u64 {
        match &self.engine {
            Some(engine) => engine.look(rt, |table| table.core().procedures().len() as u64),
            None => 0,
        }
    }
}

/// Goes on in a new volume of what is stored, which begins with what the engine that was closed last left. The number of the live volume.
pub(crate) fn turn_over<K: Keeper, J: Storage>(
    rt: &impl Wait,
    alloc: Global,
    keeper: &mut K,
    journal: &J,
) -> Result<u64, VolumeRefusal> {
    match keeper.left(alloc) {
        Some(left) => journal.carry_over(rt, alloc, left),
        None => Err(VolumeRefusal::Memory),
    }
}

// The same engine, with whose batches the crew helps.
pub(crate) fn staffed(crew: &Option<Arc<Crew>>, engine: Engine) -> Engine
    ensures { result.seals ≡ engine.seals }
{
    match crew {
        Some(crew) => match Arc::try_clone(crew) {
            Ok(crew) => engine.with_crew(crew),
            Err(_) => engine,
        },
        None => engine,
    }
}

/// Whether each of these has the name of one of the engine's procedures.
pub(crate) fn knows_all(rt: &impl Wait, engine: &Engine, others: &Procedures) -> bool
    ensures { result ≡ false → (before : List Named) × (AreKnown before others.now → ⊥) }
{
    engine.look(
        rt,
        |table| -> bool
            ensures { result ≡ false → (before : List Named) × (AreKnown before others.entry.now → ⊥) }
        { table.core().procedures().has_all(others) },
    )
}
