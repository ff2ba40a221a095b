// A table that threads share.

ghost use Rattle.std.specs.Prelude.{◌≡◌, ◌≢◌, ◌↔◌, ◌⊎◌, ◌+◌, ◌<◌, List, [], true, false, IsTrue, IfOk, OnOk, IfErr, All};
ghost use Rattle.tl_procedures.specs.Names.{Named, is_name, AreFreeAfter, IsFirstRefused};
ghost use Rattle.tl_procedures.specs.declared.fault.NamingFault.TheVariants.{BadName, Memory};
ghost use Rattle.tl_table.specs.declared.fault.TableFault.TheVariants as fault;
ghost use Rattle.tl_workers.specs.declared.refusal.Refusal.TheVariants as refusal;
ghost use Rattle.std.specs.Fn.{FnOnceReturnsAt};
ghost use Rattle.tl_table.specs.Tables.{IsChain, TableValue};
ghost use Rattle.tl_table.specs.declared.epoch.TheConstants.{MAX_EPOCHS};
ghost use Rattle.tl_workers.specs.Refusals.{IsNewEngineRefusal, IsSealRefused, IsRestedSealRefused};
ghost use Rattle.tl_workers.specs.Matching.{Matches, DoesNotClose};
ghost use Rattle.tl_workers.specs.Sessions.{AreAllOf, AskForEachOnce, FindsItsWrites};

use crate::crew::Crew;
use crate::gate::Gate;
use crate::matching::all_match;
use crate::refusal::Refusal;
use crate::session::Session;
use crate::turnstile::Turnstile;
use std::alloc::Global;
use std::marker::Model;
use std::sync::{Arc, Condvar, Mutex, Wait};
use tl_core::Core;
use tl_procedures::{NamedProcedure, NamingFault};
use tl_ready::Ready;
use tl_table::{Closed, Table, TableFault};
use tl_tree::Tree;
use tl_verify::Proc;

/// A table that threads share.
///
/// By its type the table is a core with a legal history, each call of which has a session of this engine. A function that
/// takes the lock can promise no more than that about the table. A contract sees whether the engine seals its epochs by itself.
#[derive(Drop)]
pub struct Engine {
    pub(crate) turnstile: Mutex<Turnstile>,
    // The calls that were admitted in batches and that nobody runs yet.
    pub(crate) ready: Ready,
    // Notified after a node was freed, a call ended, calls became ready, or an epoch was sealed.
    pub(crate) moved: Condvar,
    // Whether an epoch that has no room for a call is sealed for it.
    pub(crate) seals: bool,
    // The threads that stay and help with its batches.
    pub(crate) crew: Arc<Crew>,
}

impl Model for Engine {
    ghost use Rattle.tl_workers.specs.Engines.{EngineValue};

    ghost Value = { EngineValue };

    ghost view = { λ e. record { seals = e.seals } };
}

impl Engine {
    /// An engine for calls on the tree, without procedures. 690, 890; 990 if memory is refused.
    pub fn new(alloc: Global, tree: Tree) -> Result<Engine, Refusal>
        ensures ok { IfOk result (λ e. e.seals ≡ false) }
        ensures err { IfErr result IsNewEngineRefusal }
    {
        match Core::new(alloc, tree) {
            Ok(core) => Engine::of_core(alloc, core),
            Err(fault) => Err(Refusal::Table(TableFault::Core(fault))),
        }
    }

    /// An engine for a core that has no calls yet. 690, 890; 990 if memory is refused.
    pub fn of_core(alloc: Global, core: Core) -> Result<Engine, Refusal>
        requires { core.seen.calls ≡ [] }
        ensures ok { IfOk result (λ e. e.seals ≡ false) }
        ensures err { IfErr result IsNewEngineRefusal }
    {
        let table = match Table::new(alloc, core) {
            Ok(table) => table,
            Err(fault) => return Err(Refusal::Table(fault)),
        };
        let (ready, _first) = Ready::new(alloc)?;
        let Ok(crew) = Arc::new(alloc, Crew::new()) else {
            return Err(Refusal::Memory);
        };
        Ok(Engine {
            turnstile: Mutex::new(Turnstile::new(table)),
            ready,
            moved: Condvar::new(),
            seals: false,
            crew,
        })
    }

    /// The same engine, which has no calls yet, but it seals its epochs by itself: a call for which the current epoch has no room,
    /// because of 603 or 605, waits until all calls are done and the epoch is sealed, and so do the calls after it. A call for
    /// which there is no place among those that are open, 604, waits for one. So these three are refused only where a seal is:
    /// 808, or for want of memory 690 or 890.
    pub fn that_seals(self) -> Engine
        ensures { result.seals ≡ true }
    {
        Engine {
            seals: true,
            ..self
        }
    }

    /// The same engine, with whose batches the members of this crew help.
    pub fn with_crew(self, crew: Arc<Crew>) -> Engine
        ensures { result.seals ≡ self.seals }
    {
        Engine { crew, ..self }
    }

    /// The crew that helps with its batches.
    pub fn crew(&self) -> &Arc<Crew> {
        &self.crew
    }

    /// Runs calls of batches that are ready, as long as that pays, and says whether there was one. It is for members of its crew.
    pub fn assist<G: Gate>(&self, rt: &impl Wait, gate: &G) -> bool {
        let Ok(mut pass) = self.ready.join() else {
            return false;
        };
        let mut has_helped = false;
        for _ in rt.forever() {
            let Some(call) = self.ready.pop(rt, &mut pass) else {
                return has_helped;
            };
            self.run_for(rt, call, gate, self.crew.help());
            has_helped = true;
            if !self.crew.goes_on(rt) {
                return has_helped;
            }
        }
        unreachable!()
    }

    /// The number of the current epoch.
    pub fn epoch(&self, rt: &impl Wait) -> u32 {
        self.turnstile.lock(rt).table.epoch()
    }

    /// What the function says of the table, which it has while nothing else does. It has to be short: calls wait meanwhile.
    pub fn look<T, F: FnOnce(&Table) -> T>(&self, rt: &impl Wait, says: F) -> T
        requires { F.IsAlwaysCallable says }
        ensures { (t : TableValue) × FnOnceReturnsAt F.FnOnce says t result }
    {
        let turnstile = self.turnstile.lock(rt);
        said_of(&turnstile.table, says)
    }

    /// A new session with an empty list. 821; 990 if memory is refused.
    pub fn session(&self, rt: &impl Wait, alloc: Global) -> Result<Session, Refusal>
        ensures ok { IfOk result (λ s. s.kept ≡ []) }
        ensures err { IfErr result (λ e. (e ≡ refusal.Table fault.TooManySessions) ⊎ (e ≡ refusal.Memory)) }
    {
        let pass = self.ready.join()?;
        match self.turnstile.lock(rt).table.session() {
            Ok(number) => Ok(Session::new(alloc, number, pass)),
            Err(fault) => Err(Refusal::Table(fault)),
        }
    }

    /// Registers a procedure under a name and answers its number. 612, 611, 613, 690. 612 is answered if and only if the name isn't
    /// allowed. No clause says when the name is taken (611), since the lock hides the other procedures.
    pub fn register(
        &self,
        rt: &impl Wait,
        alloc: Global,
        name: &str,
        procedure: Proc,
    ) -> Result<u32, NamingFault>
        ensures named { OnOk result (IsTrue (is_name name.now)) }
        ensures fault { IfErr result (λ e. (e ≡ BadName) ↔ (is_name name.now ≡ false)) }
    {
        self.turnstile
            .lock(rt)
            .table
            .add_proc(alloc, name, procedure)
    }

    /// Registers these procedures in their order, or none of them. The fault of the first name that is refused: 612, 611 or 613; 690 if
    /// memory is refused. Each name has to be one that is allowed; no clause says when a name is taken (611), since the lock hides the other
    /// procedures.
    pub fn register_all(
        &self,
        rt: &impl Wait,
        alloc: Global,
        procedures: Vec<NamedProcedure>,
    ) -> Result<(), NamingFault>
        ensures free { IfOk result (λ _. (before : List Named) × AreFreeAfter before procedures.items) }
        ensures fault { IfErr result (λ e. e ≢ Memory → (before : List Named) × IsFirstRefused before procedures.items e) }
    {
        self.turnstile.lock(rt).table.add_procs(alloc, procedures)
    }

    /// Seals the current epoch of the table and answers its number. 606, 808, 690, 890. It waits only for the lock, or, if the
    /// engine seals its epochs by itself, also until all calls are done. Sessions go on.
    pub fn seal(&self, rt: &impl Wait, alloc: Global) -> Result<u32, Refusal>
        ensures number { IfOk result (λ n. n + 1 < MAX_EPOCHS) }
        ensures refused { IfErr result (λ e. IsSealRefused e) }
        ensures rested { self.now.seals ≡ true → IfErr result IsRestedSealRefused }
    {
        if self.seals {
            return self.seal_at_rest(rt, alloc);
        }
        match self.turnstile.lock(rt).table.seal(alloc) {
            Ok(epoch) => Ok(epoch),
            Err(fault) => Err(Refusal::Table(fault)),
        }
    }

    /// The epochs of the closed table, if every call is done and each session's list matches them; otherwise the table. The
    /// sessions come back unchanged. Takes no memory.
    ///
    /// If these are all sessions of the engine, each call stands in exactly one of their lists, once. A call that was asked
    /// for after a receipt was received finds what that receipt's call left, or what was left there later.
    pub fn close(
        self,
        sessions: Vec<Session>,
    ) -> Result<(Vec<Closed>, Vec<Session>), (Table, Vec<Session>)>
        ensures chain { IfOk result (λ r. IsChain r.0.items) }
        ensures ok { IfOk result (λ r. (r.1.items ≡ sessions.items) × All (Matches r.0.items) r.1.items) }
        ensures once { IfOk result (λ r. AreAllOf r.0.items r.1.items → AskForEachOnce r.0.items r.1.items) }
        ensures writes { IfOk result (λ r. All (FindsItsWrites r.0.items) r.1.items) }
        ensures err { IfErr result (λ r. (r.1.items ≡ sessions.items) × DoesNotClose r.0 r.1.items) }
    {
        let Engine {
            turnstile,
            ready: _,
            moved: _,
            seals: _,
            crew: _,
        } = self;
        let Turnstile {
            table,
            is_closed: _,
        } = turnstile.into_inner();
        let closed = match table.close() {
            Ok(closed) => closed,
            Err(table) => return Err((table, sessions)),
        };
        if !all_match(closed.as_slice(), sessions.as_slice()) {
            return Err((Table::reopened(closed), sessions));
        }
        Ok((closed, sessions))
    }
}

// What the function says of the table.
fn said_of<T, F: FnOnce(&Table) -> T>(table: &Table, says: F) -> T
    requires { F.IsAlwaysCallable says }
    ensures { FnOnceReturnsAt F.FnOnce says table.now result }
{
    says(table)
}
