// Engines one after another: when one has used up its epochs, the next takes over.

ghost use Rattle.std.specs.Prelude.{◌≡◌, ◌≢◌, ◌≤◌, List, true, false, None, Some, Err, IfOk, IfSome, OnErr};
ghost use Rattle.tl_workers.specs.declared.session.Did.{Did};
ghost use Rattle.tl_generations.specs.Generations.{LegacyValue, IsReplaced};
ghost use Rattle.tl_generations.specs.declared.growth.GrowthFault.TheVariants as growth;
ghost use Rattle.tl_procedures.specs.Names.{Named, AreKnown};
ghost use Rattle.tl_server.specs.Requests.{line_view};
ghost use Rattle.tl_server.specs.Outcomes.{IsAsked, CameOf, HasKept};
ghost use Rattle.tl_server.specs.Served.{GrowthOutcome, ReplaceOutcome, ReadBy, keying};

use crate::answer::put_error_line;
use crate::control::{NO_MEMORY, say};
use crate::copying::CopyRefusal;
use crate::follow::{Follow, FollowRefusal};
use crate::journal::Unstored;
use crate::keeper::Keeper;
use crate::outbox::Outbox;
use crate::outcome::{Done, RequestOutcome, put_outcome};
use crate::request::LineRequest;
use crate::seats::Seats;
use crate::service::Service;
use crate::socket::SocketSink;
use crate::stage::{Pause, Place, Stage, knows_all, turn_over};
use crate::status::{Reporter, Status, Tally};
use crate::storage::Storage;
use crate::stored_sink::StoredSink;
use crate::stream::Stream;
use crate::texts::{NamedBounds, ReplaceFault, TextProcedures, Texts, read_procedures};
use crate::volume::VolumeRefusal;
use std::alloc::Global;
use std::sync::{Arc, Mutex, RwLock, Wait};
use std::thread::Threads;
use std::time::Clock;
use tl_generations::GrowthFault;
use tl_procedures::{Procedures, ReplacingFault};
use tl_workers::{Crew, Engine, NoGate, Session};

/// Engines, one after another, and the sessions of the one that answers lines now.
#[derive(Drop)]
pub struct Relay<K, J> {
    // Each line that is at work has it for reading. A hand-over has it for writing: it waits until no line is at work, and new lines
    // wait behind it.
    stage: RwLock<Stage>,
    seats: Mutex<Seats>,
    keeper: Mutex<K>,
    journal: J,
    // After how many epochs the next engine takes over.
    epochs: u32,
    // Whether only the control may register and replace procedures, append nodes, and seal.
    frozen: bool,
    tally: Tally,
    // The threads that stay and help with batches. All engines share them.
    crew: Option<Arc<Crew>>,
}

impl<K: Keeper + Texts, J: Storage> Relay<K, J> {
    /// A relay that begins with this engine, which has no sessions yet and seals its epochs by itself. The next one takes over after
    /// so many epochs, at least one.
    pub fn new(alloc: Global, engine: Engine, keeper: K, journal: J, epochs: u32) -> Relay<K, J>
        requires { engine.seals ≡ true }
        ensures { result.frozen ≡ false }
    {
        let nodes = keeper.nodes();
        // Without a crew batches start threads of their own.
        let crew = Arc::try_clone(engine.crew()).ok();
        Relay {
            stage: RwLock::new(Stage {
                engine: Some(engine),
                base: 0,
                generation: 0,
                nodes,
            }),
            seats: Mutex::new(Seats::new(alloc)),
            keeper: Mutex::new(keeper),
            journal,
            epochs: epochs.max(1),
            frozen: false,
            tally: Tally::new(),
            crew,
        }
    }

    /// The same relay, where only the control may register and replace procedures, append nodes, and seal. Other lines that ask for that
    /// get 1101.
    pub fn that_is_frozen(self) -> Relay<K, J>
        ensures { result.frozen ≡ true }
    {
        Relay {
            frozen: true,
            ..self
        }
    }

    /// The last engine with its sessions, if it wasn't closed yet, the keeper and the journal, which has taken over what that engine did;
    /// all calls have to be done. Takes no memory but what the journal takes.
    pub fn into_parts(
        self,
        rt: &impl Wait,
        alloc: Global,
    ) -> (Option<(Engine, Vec<Session>)>, K, J) {
        let Relay {
            stage,
            seats,
            keeper,
            journal,
            epochs: _,
            frozen: _,
            tally: _,
            crew: _,
        } = self;
        let Stage {
            engine,
            base,
            generation: _,
            nodes: _,
        } = stage.into_inner();
        let sessions = seats.into_inner().into_sessions();
        match engine {
            Some(engine) => {
                journal.close(rt, alloc, &engine, base);
                (Some((engine, sessions)), keeper.into_inner(), journal)
            }
            None => (None, keeper.into_inner(), journal),
        }
    }

    /// The threads that stay and help with the batches of its engines.
    pub fn crew(&self) -> Option<&Crew> {
        match &self.crew {
            Some(crew) => Some(crew),
            None => None,
        }
    }

    /// Runs calls of batches that are ready, as long as that pays, and says whether there was one. It is for members of the crew.
    pub fn assist(&self, rt: &impl Wait) -> bool {
        let stage = self.stage.read(rt);
        match &stage.engine {
            Some(engine) => engine.assist(rt, &NoGate),
            None => false,
        }
    }

    /// Whether a browser was there and nobody was told. It answers so once.
    pub(crate) fn tells_of_browser(&self) -> bool {
        self.tally.tells_of_browser()
    }

    /// Whether what the engines do is stored.
    pub fn stores(&self) -> bool {
        self.journal.stores()
    }

    /// Waits until all that the engines did up to now is stored. An error if it isn't and won't be.
    pub fn settle(&self, rt: &impl Wait, alloc: Global) -> Result<(), Unstored> {
        if !self.journal.stores() {
            return Ok(());
        }
        self.gather(rt, alloc);
        // Nothing is locked while the journal stores it, so lines go on.
        self.journal.settle(rt, alloc)
    }

    // Lets the journal take over what the engine on the stage did.
    fn gather(&self, rt: &impl Wait, alloc: Global) {
        let stage = self.stage.read(rt);
        if let Some(engine) = &stage.engine {
            self.journal.gather(rt, alloc, engine, stage.base);
        }
    }

    // Does what a request asks for, if the engine on the stage has room for it.
    fn attempt<R: Threads + Wait + Sync>(
        &self,
        rt: &R,
        alloc: Global,
        place: &mut Place,
        request: &LineRequest,
    ) -> Result<Done, Pause>
        requires { IsAsked (line_view request.now) }
        ensures came { IfOk result (λ d. (own : List Did) × CameOf (record { seals = true; grows = false; reads = ReadBy (record { has = K.has; lacks = K.lacks }); keys = keying (J.is_storing self.now.journal); frozen = false }) (line_view request.now) own d.outcome × HasKept own) }
        ensures later { IfOk result (λ d. (place.old ≤ d.base) × (place.new ≡ d.base)) }
        ensures same { OnErr result (place.new ≡ place.old) }
    {
        let stage = self.stage.read(rt);
        let (seats, journal) = (&self.seats, &self.journal);
        stage.perform::<K, J, R>(rt, alloc, seats, journal, self.epochs, place, request)
    }

    // Lets the next engine take over as soon as no line is at work: from the one with so many epochs before it, if it is still there,
    // or from one that was closed already. False if none does. Then nothing is lost, and the next line tries again.
    fn hand_over(&self, rt: &impl Wait, alloc: Global, spent: Option<u32>) -> bool {
        let mut stage = self.stage.write(rt);
        let is_spent = spent == Some(stage.base);
        if stage.engine.is_some() && !is_spent {
            // Another line was first.
            return true;
        }
        let mut keeper = self.keeper.lock(rt);
        if is_spent && !stage.close(rt, alloc, &self.seats, &mut *keeper, &self.journal) {
            return false;
        }
        if !stage.open(alloc, &mut *keeper, &self.crew) {
            return false;
        }
        // Lines are answered again. The next hand-over waits for the keeper.
        drop(stage);
        keeper.keep(alloc);
        true
    }
}

impl<K: Keeper + Texts, J: Storage> Relay<K, J> {
    // Does what a request asks for by an engine that has room for it. `None` if memory is refused.
    fn perform_by_engine<R: Threads + Wait + Sync>(
        &self,
        rt: &R,
        alloc: Global,
        place: &mut Place,
        request: &LineRequest,
    ) -> Option<Done>
        requires { IsAsked (line_view request.now) }
        ensures came { IfSome result (λ d. (own : List Did) × CameOf (record { seals = true; grows = false; reads = ReadBy (record { has = K.has; lacks = K.lacks }); keys = keying (J.is_storing self.now.journal); frozen = false }) (line_view request.now) own d.outcome × HasKept own) }
        ensures later { IfSome result (λ d. (place.old ≤ d.base) × (place.new ≡ d.base)) }
        ensures same { result ≡ None → place.new ≡ place.old }
    {
        for _ in rt.forever() {
            match self.attempt(rt, alloc, place, request) {
                Ok(done) => {
                    self.tally.count(&done.outcome);
                    return Some(done);
                }
                Err(Pause::Refused) => return None,
                Err(Pause::HandOver(spent)) => {
                    if !self.hand_over(rt, alloc, spent) {
                        return None;
                    }
                }
            }
        }
        unreachable!()
    }

    // Appends nodes of these parents to the tree, as soon as no line is at work: the next engine takes over and begins with them. `None`
    // if memory is refused.
    fn grow(
        &self,
        rt: &impl Wait,
        alloc: Global,
        parents: &[i64],
    ) -> Option<Result<u32, GrowthFault>>
        ensures { IfSome result (λ r. GrowthOutcome parents.now r × (r ≢ Err growth.Memory)) }
    {
        let mut stage = self.stage.write(rt);
        let mut keeper = self.keeper.lock(rt);
        if let Err(fault) = keeper.check_growth(parents) {
            return known(Err(fault));
        }
        if stage.engine.is_some()
            && !stage.close(rt, alloc, &self.seats, &mut *keeper, &self.journal)
        {
            return None;
        }
        let grown = keeper.grow(alloc, parents);
        if grown.is_ok() {
            self.journal.grow(rt, alloc, parents, stage.base);
        }
        if stage.open(alloc, &mut *keeper, &self.crew) {
            // Lines are answered again. The next hand-over waits for the keeper.
            drop(stage);
            keeper.keep(alloc);
        }
        known(grown)
    }

    // Puts the procedures of a text in the place of those with their names, as soon as no line is at work: the next engine takes over and
    // begins with them. `None` if memory is refused.
    fn replace(
        &self,
        rt: &impl Wait,
        alloc: Global,
        text: &str,
    ) -> Option<Result<Vec<NamedBounds>, ReplaceFault>>
        ensures { IfSome result (ReplaceOutcome (record { has = K.has; lacks = K.lacks }) text.now) }
    {
        let read = match read_procedures::<K>(alloc, text)? {
            Ok(read) => read,
            Err(fault) => return Some(Err(fault)),
        };
        let TextProcedures { procedures, bounds } = read;
        if self.put_in_place(rt, alloc, &procedures)? {
            Some(Ok(bounds))
        } else {
            Some(Err(ReplaceFault::NoProcedure))
        }
    }

    // Puts procedures in the place of those with their names, in the next engine; false if there is none with one of the names, and then
    // they are as before. `None` if memory is refused.
    fn put_in_place(&self, rt: &impl Wait, alloc: Global, others: &Procedures) -> Option<bool>
        ensures replaced { result ≡ Some true → (old : LegacyValue) × (new : LegacyValue) × IsReplaced old others.now new }
        ensures unknown { result ≡ Some false → (before : List Named) × (AreKnown before others.now → ⊥) }
    {
        let mut stage = self.stage.write(rt);
        if let Some(engine) = &stage.engine {
            if !knows_all(rt, engine, others) {
                return Some(false);
            }
        }
        let mut keeper = self.keeper.lock(rt);
        if stage.engine.is_some()
            && !stage.close(rt, alloc, &self.seats, &mut *keeper, &self.journal)
        {
            return None;
        }
        let replaced = keeper.replace(alloc, others);
        if replaced.is_ok() {
            self.journal.replace(rt, alloc, others);
        }
        if stage.open(alloc, &mut *keeper, &self.crew) {
            // Lines are answered again. The next hand-over waits for the keeper.
            drop(stage);
            keeper.keep(alloc);
        }
        match replaced {
            Ok(()) => Some(true),
            Err(ReplacingFault::NoProcedure) => Some(false),
            Err(ReplacingFault::Memory) => None,
        }
    }
}

impl<K: Keeper + Texts, J: Storage> Relay<K, J> {
    // Goes on in a new volume of what is stored, as soon as no line is at work: the next engine takes over. The numbers of the volume that was live until
    // then, which is closed now, and of the live one; the same number twice if it goes on in the volume that it had.
    fn begin_volume(&self, rt: &impl Wait, alloc: Global) -> Result<(u64, u64), VolumeRefusal> {
        if self.journal.volume(rt).is_none() {
            return Err(VolumeRefusal::NoVolumes);
        }
        let mut stage = self.stage.write(rt);
        let mut keeper = self.keeper.lock(rt);
        let Some(before) = self.journal.volume(rt) else {
            return Err(VolumeRefusal::NoVolumes);
        };
        if stage.engine.is_some()
            && !stage.close(rt, alloc, &self.seats, &mut *keeper, &self.journal)
        {
            return Err(VolumeRefusal::Memory);
        }
        let turned = turn_over(rt, alloc, &mut *keeper, &self.journal);
        if stage.open(alloc, &mut *keeper, &self.crew) {
            // Lines are answered again. The next hand-over waits for the keeper.
            drop(stage);
            keeper.keep(alloc);
        }
        Ok((before, turned?))
    }

    // Writes a copy of what is stored. Of a store in volumes it is the file of a volume that is closed for it, so that no line waits while it is copied; or,
    // where the live one has no call, of that one.
    fn write_copy(&self, rt: &impl Wait, alloc: Global, name: &str) -> Result<(), CopyRefusal> {
        self.journal.may_copy(name)?;
        let closed = match self.begin_volume(rt, alloc) {
            Ok((before, live)) if before != live => Some(before),
            Ok(_) | Err(VolumeRefusal::NoVolumes) => None,
            Err(refusal) => return Err(CopyRefusal::of_volume(refusal)),
        };
        self.journal.copy(rt, alloc, name, closed)
    }
}

// What came of a growth, unless memory was refused.
fn known(grown: Result<u32, GrowthFault>) -> Option<Result<u32, GrowthFault>>
    ensures { IfSome result (λ r. (r ≡ grown) × (r ≢ Err growth.Memory)) }
{
    match grown {
        Err(GrowthFault::Memory) => None,
        grown => Some(grown),
    }
}

/// A relay serves each connection by sessions of its engines, one after another. The numbers of epochs go on from one to the next.
impl<K: Keeper + Texts, J: Storage> Service for Relay<K, J> {
    type Visitor = Place;

    ghost use Rattle.std.specs.Prelude.{◌≤◌, true};
    ghost use Rattle.tl_server.specs.Served.{ReadBy, keying};
    ghost use Rattle.tl_server.specs.Outcomes.{GoesOnFrom};
    ghost use Rattle.tl_server.specs.Gaining.{goes_on_nothing, goes_on_both, seals_from};

    ghost gains = { GoesOnFrom };

    ghost ways = { λ r. record { seals = true; grows = true; reads = ReadBy (record { has = K.has; lacks = K.lacks }); keys = keying (J.is_storing r.journal); frozen = r.frozen } };

    ghost may_seal = { λ base n. base ≤ n };

    fn perform<R: Threads + Wait + Sync>(
        &self,
        rt: &R,
        alloc: Global,
        visitor: &mut Place,
        request: &LineRequest,
    ) -> Option<Done> {
        match request {
            LineRequest::Grow(parents) => {
                let grown = self.grow(rt, alloc, parents)?;
                Some(Done {
                    outcome: RequestOutcome::Grown(grown),
                    base: visitor.base,
                })
            }
            LineRequest::Replace(text) => {
                let replaced = self.replace(rt, alloc, text)?;
                Some(Done {
                    outcome: RequestOutcome::Replaced(replaced),
                    base: visitor.base,
                })
            }
            request => self.perform_by_engine(rt, alloc, visitor, request),
        }
    }

    fn is_frozen(&self) -> bool {
        self.frozen
    }

    fn meets_browser(&self) {
        self.tally.meet_browser();
    }

    ghost gains_none = { goes_on_nothing };

    ghost gains_more = { goes_on_both };

    ghost seals_on = { seals_from };
}

/// A relay counts what it answers, does what an operator asks for as what a client asks for, and its journal copies what it stores.
impl<K: Keeper + Texts, J: Storage> Reporter for Relay<K, J> {
    fn status(&self, rt: &impl Wait, connections: u64, places: u64) -> Option<Status> {
        let stage = self.stage.read(rt);
        Some(Status {
            epoch: stage.epoch(rt),
            generation: stage.generation,
            calls: self.tally.calls(),
            connections,
            nodes: u64::from(stage.nodes),
            procedures: stage.procedures(rt),
            refusals: self.tally.refusals(),
            places,
            browsers: self.tally.browsers(),
            volume: self.journal.volume(rt).unwrap_or(0),
        })
    }

    fn obey<R: Threads + Wait + Sync>(
        &self,
        rt: &R,
        alloc: Global,
        request: &LineRequest,
        peer: &Stream,
    ) -> bool {
        let Ok(mut outbox) = Outbox::new(alloc) else {
            say(peer, NO_MEMORY);
            return true;
        };
        let mut place = Place::new();
        let mut sink = StoredSink::new(rt, alloc, self, SocketSink::new(peer));
        match self.perform(rt, alloc, &mut place, request) {
            Some(done) => put_outcome(&mut outbox, &mut sink, &done),
            None => put_error_line(&mut outbox, &mut sink, &[990]),
        }
        outbox.flush(&mut sink);
        !sink.has_failed()
    }

    fn copy(&self, rt: &impl Wait, alloc: Global, name: &str) -> Result<(), CopyRefusal> {
        self.write_copy(rt, alloc, name)
    }

    fn turn(&self, rt: &impl Wait, alloc: Global) -> Result<u64, VolumeRefusal> {
        let (_, live) = self.begin_volume(rt, alloc)?;
        Ok(live)
    }

    fn answer_follower<R: Wait + Clock>(
        &self,
        rt: &R,
        alloc: Global,
        follow: &Follow,
    ) -> Result<String, FollowRefusal> {
        self.journal.answer_follower(rt, alloc, follow)
    }

    fn end_waits(&self, rt: &impl Wait) {
        self.journal.end_waits(rt);
    }
}
