// Who stores what engines do.

ghost use Rattle.std.specs.Prelude.{◌≡◌, ◌↔◌, Bool, false, IsOk};
ghost use Rattle.tl_server.specs.declared.journal.Claim.TheVariants.{NoStore};

use std::alloc::Global;
use std::sync::Wait;
use tl_keys::Kept;
use tl_procedures::Procedures;
use tl_workers::Engine;

/// What was done isn't stored, and won't be.
#[derive(Clone, Copy, PartialEq, Eq, Debug)]
pub struct Unstored;

/// What becomes of a session's claim to a key.
#[derive(Debug, Drop)]
pub enum Claim {
    /// No call has the key: the next call of the session gets it.
    Granted,
    /// A call had the key, and this came of it.
    Taken(Kept),
    /// Nothing is stored, and so no key is kept.
    NoStore,
    /// Memory was refused, and nothing was done.
    Memory,
}

/// Who stores what engines do, so that an answer leaves only after all that it rests on is stored.
///
/// What it is told is kept in memory until `settle` has stored it. If memory is refused for that, `settle` fails from then on.
pub trait Journal {
    // Whether it stores anything.
    ghost is_storing: { Self → Bool };

    /// Whether it stores anything. One that doesn't takes nothing over, and never fails.
    fn stores(&self) -> bool
        ensures { result ≡ is_storing self.now };

    /// Takes over what the engine did since the last time. There were `base` epochs before its first. Lines may be at work.
    fn gather(&self, rt: &impl Wait, alloc: Global, engine: &Engine, base: u32);

    /// The same at the engine's end: all its calls are done, and its current epoch ends now.
    fn close(&self, rt: &impl Wait, alloc: Global, engine: &Engine, base: u32);

    /// Claims a key for the call that the session of the engine asks for next. If another session's call is under way with the key, that is
    /// waited for first: a call that wasn't admitted leaves the key free.
    fn claim(
        &self,
        rt: &impl Wait,
        alloc: Global,
        engine: &Engine,
        session: u32,
        key: &str,
    ) -> Claim
        ensures { (result ≡ NoStore) ↔ (is_storing self.now ≡ false) };

    /// Ends what the session has claimed, once its call is done or was refused: takes over what the engine did, and lets those go on that wait for the
    /// key.
    fn release(&self, rt: &impl Wait, alloc: Global, engine: &Engine, session: u32);

    /// Takes over that nodes of these parents were appended to the tree, before the first epoch of the next engine, which has that number.
    fn grow(&self, rt: &impl Wait, alloc: Global, parents: &[i64], epoch: u32);

    /// Takes over that these procedures were put in the place of those with their names, before the first epoch of the next engine.
    fn replace(&self, rt: &impl Wait, alloc: Global, others: &Procedures);

    /// Waits until all that it took over is stored. An error if it isn't and won't be.
    fn settle(&self, rt: &impl Wait, alloc: Global) -> Result<(), Unstored>
        ensures { is_storing self.now ≡ false → IsOk result };

    /// Lets no answer wait for a follower any more, since the server ends. What rests on rows that none holds isn't answered.
    fn end_waits(&self, rt: &impl Wait);
}

/// The journal of a server that stores nothing: there is nothing to wait for.
#[derive(Clone, Copy, Debug)]
pub struct NoJournal;

impl Journal for NoJournal {
    ghost use Rattle.std.specs.Prelude.{false};

    ghost is_storing = { λ _. false };

    fn stores(&self) -> bool {
        false
    }

    fn gather(&self, _rt: &impl Wait, _alloc: Global, _engine: &Engine, _base: u32) {}

    fn close(&self, _rt: &impl Wait, _alloc: Global, _engine: &Engine, _base: u32) {}

    fn claim(
        &self,
        _rt: &impl Wait,
        _alloc: Global,
        _engine: &Engine,
        _session: u32,
        _key: &str,
    ) -> Claim {
        Claim::NoStore
    }

    fn release(&self, _rt: &impl Wait, _alloc: Global, _engine: &Engine, _session: u32) {}

    fn grow(&self, _rt: &impl Wait, _alloc: Global, _parents: &[i64], _epoch: u32) {}

    fn replace(&self, _rt: &impl Wait, _alloc: Global, _others: &Procedures) {}

    fn settle(&self, _rt: &impl Wait, _alloc: Global) -> Result<(), Unstored> {
        Ok(())
    }

    fn end_waits(&self, _rt: &impl Wait) {}
}
