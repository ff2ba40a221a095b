// Epochs, one after another.

ghost use Rattle.std.specs.Prelude.{◌≡◌, ◌≢◌, ◌+◌, ◌<◌, ◌≤◌, ◌↔◌, ◌⊎◌, [], ◌∷◌, ◌++◌, length, slice_get, true, false, IsTrue, IsOk, IfOk, IfErr, IfSome, OnOk, OnErr, MatchOption, Some, None};
ghost use Rattle.tl_instr.specs.declared.operand.TheConstants.{MAX_ARGS};
ghost use Rattle.tl_tree_locking.specs.History.{is_done, IsOpen};
ghost use Rattle.tl_tree_locking.specs.Holders.{holder_of};
ghost use Rattle.tl_procedures.specs.Names.{naming_refusal, AreFreeAfter, IsFirstRefused};
ghost use Rattle.tl_procedures.specs.declared.fault.NamingFault.TheVariants as naming;
ghost use Rattle.tl_procedures.specs.declared.procedures.TheConstants.{MAX_NAME};
ghost use Rattle.tl_core.specs.declared.fault.CoreFault.TheVariants as core_fault;
ghost use Rattle.tl_machine.specs.Turns.{HasRun, Stops};
ghost use Rattle.tl_machine.specs.declared.want.Stop.TheVariants as stop;
ghost use Rattle.tl_core.specs.Cores.{kept_turn};
ghost use Rattle.tl_table.specs.declared.fault.TableFault.TheVariants as fault;
ghost use Rattle.tl_core.specs.Followed.{IsLentOf, Submits, IfBlocked};
ghost use Rattle.tl_table.specs.declared.epoch.TheConstants.{MAX_EPOCHS, MAX_SESSIONS};
ghost use Rattle.tl_table.specs.Epochs.{EpochValue, seen, Stands, IsAtRest, IsKnown, AreOwned, GoesOn, epoch_after, IsAdmittedTo, IsAdmitFault};
ghost use Rattle.tl_table.specs.Tables.{all_epochs, IsChain, IsSealRefusal};
ghost use Rattle.tl_table.specs.Sent.{KeepsCalls, Sends, IsSubmitFault, IsLeadFault, IsOfCall};

use crate::closed::Closed;
use crate::epoch::{Epoch, MAX_EPOCHS};
use crate::fault::TableFault;
use crate::receipt::{Receipt, Sent};
use std::alloc::Global;
use std::marker::Model;
use std::mem;
use tl_core::{Core, CoreFault, TurnOutcome};
use tl_machine::{LentTurn, Segment, Turn};
use tl_procedures::{NamedProcedure, NamingFault};
use tl_serial::Running;
use tl_verify::Proc;

/// A core with sessions, over epochs: when every call is done, the table can be sealed, and goes on with a new core.
///
/// A contract sees the sealed epochs and the current one. The type guarantees that each sealed epoch is at rest, and that
/// each epoch opens with the tree that the one before left and has its procedures.
#[derive(Debug, Drop)]
pub struct Table {
    // There is always room for one more.
    sealed: Vec<Closed>,
    current: Epoch,
}

impl Model for Table {
    ghost use Rattle.std.specs.Prelude.{vec_capacity};
    ghost use Rattle.tl_table.specs.Tables.{TableValue};
    ghost use Rattle.tl_table.specs.Stored.{IsTable};

    ghost Value = { TableValue };

    ghost view = { λ t. record { sealed = t.sealed.items; current = t.current } };

    ghost invariant = { λ t. IsTable (record { sealed = t.sealed.items; current = t.current }) (vec_capacity t.sealed) };
}

impl Table {
    /// A table of a core that has no calls yet, without sessions. 690 or 890 if memory is refused.
    pub fn new(alloc: Global, core: Core) -> Result<Table, TableFault>
        requires { core.seen.calls ≡ [] }
        ensures ok { IfOk result (λ t. t ≡ record { sealed = []; current = record { number = 0; core = core; sessions = 0; owners = [] } }) }
        ensures err { IfErr result (λ e. (e ≡ fault.Memory) ⊎ (e ≡ fault.Core core_fault.Memory)) }
    {
        let Ok(sealed) = Vec::with_capacity(alloc, 1) else {
            return Err(TableFault::Memory);
        };
        let running = match Running::new(alloc, core) {
            Ok(running) => running,
            Err(fault) => return Err(TableFault::Core(fault)),
        };
        match Epoch::new(alloc, 0, running, 0) {
            Ok(current) => Ok(Table { sealed, current }),
            Err(fault) => Err(fault),
        }
    }

    /// The number of the current epoch: epochs are numbered from 0. Takes no memory.
    pub fn epoch(&self) -> u32
        ensures number { result ≡ self.now.current.number }
        ensures count { result ≡ length self.now.sealed }
    {
        self.current.number()
    }

    /// Seals the current epoch, returns its number, and goes on with a new one that opens with the current records and has
    /// the same procedures and no calls. Errors, the first that holds: 606 with the least unfinished call if there is one;
    /// 808 if the last of 256 epochs is the current one. Otherwise 690 or 890 if memory is refused. A refusal changes
    /// nothing.
    pub fn seal(&mut self, alloc: Global) -> Result<u32, TableFault>
        ensures number { IfOk result (λ n. n ≡ self.old.current.number) }
        ensures few { IfOk result (λ n. n + 1 < MAX_EPOCHS) }
        ensures done { OnOk result (IsAtRest self.old.current) }
        ensures sealed { OnOk result (self.new.sealed ≡ all_epochs self.old) }
        ensures next { OnOk result (self.new.current ≡ epoch_after self.old.current) }
        ensures fault { IfErr result (λ e. IsSealRefusal self.old e) }
        ensures err { OnErr result (self.new ≡ self.old) }
    {
        if let Some(call) = self.current.core().least_unfinished() {
            return Err(TableFault::Core(CoreFault::NotAtRest { call }));
        }
        if self.sealed.len() + 1 >= MAX_EPOCHS {
            return Err(TableFault::TooManyEpochs);
        }
        let next = self.current.successor(alloc)?;
        self.current.lemma_is_rested();
        let Ok(()) = self.sealed.reserve(2) else {
            return Err(TableFault::Memory);
        };
        let number = self.current.number();
        let sealed = mem::replace(&mut self.current, next);
        // The sealed epoch gets no more events. Memory reserved for them in its history is given back, which is up to half
        // of it.
        self.sealed.push_reserved(Closed::new(sealed.cut()));
        Ok(number)
    }

    /// A new session's number: sessions are numbered from 0. 821 if 65,535 were given. Takes no memory.
    pub fn session(&mut self) -> Result<u32, TableFault>
        ensures number { IfOk result (λ n. n ≡ self.old.current.sessions) }
        ensures counted { OnOk result (self.new.current ≡ record self.old.current { sessions = self.old.current.sessions + 1 }) }
        ensures full { IsOk result ↔ (self.old.current.sessions < MAX_SESSIONS) }
        ensures goes_on { GoesOn self.old.current self.new.current }
        ensures fault { IfErr result (λ e. e ≡ fault.TooManySessions) }
        ensures err { OnErr result (self.new.current ≡ self.old.current) }
        ensures sealed { self.new.sealed ≡ self.old.sealed }
    {
        self.current.session()
    }

    /// Adds a procedure under a name, as the core does: 612, 611, 613, 690.
    pub fn add_proc(&mut self, alloc: Global, name: &str, proc: Proc) -> Result<u32, NamingFault>
        ensures number { IfOk result (λ n. n ≡ length (seen self.old.current).procedures) }
        ensures free { IfOk result (λ _. naming_refusal (seen self.old.current).procedures name.now ≡ None) }
        ensures last { OnOk result (self.new.current ≡ record self.old.current { core = record self.old.current.core { seen = record (seen self.old.current) { procedures = (seen self.old.current).procedures ++ record { name = name.now; code = proc } ∷ [] } } }) }
        ensures goes_on { GoesOn self.old.current self.new.current }
        ensures fault { IfErr result (λ e. e ≢ naming.Memory → naming_refusal (seen self.old.current).procedures name.now ≡ Some e) }
        ensures memory { IfErr result (λ e. e ≡ naming.Memory → naming_refusal (seen self.old.current).procedures name.now ≡ None) }
        ensures err { OnErr result (self.new.current ≡ self.old.current) }
        ensures sealed { self.new.sealed ≡ self.old.sealed }
    {
        self.current.add_proc(alloc, name, proc)
    }

    /// Adds these procedures or none of them, as the core does: 612, 611, 613, 690.
    pub fn add_procs(
        &mut self,
        alloc: Global,
        procedures: Vec<NamedProcedure>,
    ) -> Result<(), NamingFault>
        ensures free { IfOk result (λ _. AreFreeAfter (seen self.old.current).procedures procedures.items) }
        ensures added { OnOk result (self.new.current ≡ record self.old.current { core = record self.old.current.core { seen = record (seen self.old.current) { procedures = (seen self.old.current).procedures ++ procedures.items } } }) }
        ensures goes_on { GoesOn self.old.current self.new.current }
        ensures fault { IfErr result (λ e. e ≢ naming.Memory → IsFirstRefused (seen self.old.current).procedures procedures.items e) }
        ensures err { OnErr result (self.new.current ≡ self.old.current) }
        ensures sealed { self.new.sealed ≡ self.old.sealed }
    {
        self.current.add_procs(alloc, procedures)
    }

    /// Admits a call for a session, and returns its number. 803 if no session of that number was given; then the core's
    /// refusals, 601, 501, 603, 604, 605 in this order; otherwise 890 if memory is refused. A refusal changes nothing.
    pub fn admit(
        &mut self,
        alloc: Global,
        session: u32,
        name: &str,
        args: &[i64],
    ) -> Result<u32, TableFault>
        ensures ok { IfOk result (λ n. IsAdmittedTo self.old.current session name.now args.now n self.new.current) }
        ensures short { OnOk result (length name.now ≤ MAX_NAME) }
        ensures few { OnOk result (length args.now ≤ MAX_ARGS) }
        ensures fault { IfErr result (IsAdmitFault self.old.current session name.now args.now) }
        ensures err { OnErr result (self.new.current ≡ self.old.current) }
        ensures sealed { self.new.sealed ≡ self.old.sealed }
    {
        self.current.admit(alloc, session, name, args)
    }

    /// The turn at which the call is; if the call is done, its turn wants nothing more. 602 if no call of that number was
    /// admitted; otherwise 890 if memory is refused.
    pub fn state(&self, call: u32) -> Result<Turn, TableFault>
        ensures known { IfOk result (λ _. IsKnown self.now.current call) }
        ensures kept { IfOk result (λ t. is_done call (seen self.now.current).past ≡ false → kept_turn self.now.current.core call ≡ Some t) }
        ensures over { IfOk result (λ t. is_done call (seen self.now.current).past ≡ true → Stops t stop.Over) }
        ensures fault { IfErr result (λ e. e ≢ fault.Memory → (e ≡ fault.Core core_fault.NoCall) × (length (seen self.now.current).calls ≤ call)) }
        ensures memory { IfErr result (λ e. e ≡ fault.Memory → IsKnown self.now.current call) }
    {
        self.current.state(call)
    }

    /// Lets a call do the instructions of a segment, which were done elsewhere, and then the lock, free or return at which
    /// the segment stops. 602 if no call of that number was admitted; 801 if the segment doesn't begin at the call's turn,
    /// or the call is done. Blocked, with nothing changed, if the stop is a lock of a node that another call holds. Takes
    /// no memory.
    pub fn submit(&mut self, call: u32, segment: Segment) -> Result<Sent, TableFault>
        ensures ok { IfOk result (λ s. Sends self.old.current call segment s self.new.current) }
        ensures call { IfOk result (IsOfCall call) }
        ensures fault { IfErr result (λ e. IsSubmitFault self.old.current call segment e) }
        ensures err { OnErr result (self.new.current ≡ self.old.current) }
        ensures sealed { self.new.sealed ≡ self.old.sealed }
    {
        self.current.submit(call, segment)
    }

    /// The call, lent to whoever does its local instructions; `None` if the call is done. 602 if no call of that number was
    /// admitted; otherwise 890 if memory is refused.
    pub fn lend(&self, call: u32) -> Result<Option<LentTurn>, TableFault>
        ensures known { IfOk result (λ _. IsKnown self.now.current call) }
        ensures lent { IfOk result (λ o. MatchOption o (is_done call (seen self.now.current).past ≡ true) (λ l. IsLentOf self.now.current.core call l)) }
        ensures fault { IfErr result (λ e. e ≢ fault.Memory → (e ≡ fault.Core core_fault.NoCall) × (length (seen self.now.current).calls ≤ call)) }
        ensures memory { IfErr result (λ e. e ≡ fault.Memory → IsKnown self.now.current call) }
    {
        self.current.lend(call)
    }

    /// Does a turn of a call: the instructions that were done while it was lent, and then the lock, free or return at which
    /// it stops. If the call goes on, the lent state moves past that stop too; otherwise it stays. No shapes are compared.
    /// 602 if no call of that number was admitted; 801 if the instructions didn't begin where the call is. Takes no memory.
    pub fn lead(&mut self, call: u32, lent: &mut LentTurn) -> Result<TurnOutcome, TableFault>
        requires { HasRun lent.old }
        ensures ok { IfOk result (λ o. Submits self.old.current.core call lent.old lent.new o self.new.current.core) }
        ensures blocked { IfOk result (λ o. IfBlocked o (self.new.current ≡ self.old.current)) }
        ensures keeps { KeepsCalls self.old.current self.new.current }
        ensures fault { IfErr result (λ e. IsLeadFault self.old.current call lent.old e) }
        ensures err { OnErr result ((self.new.current ≡ self.old.current) × (lent.new ≡ lent.old)) }
        ensures sealed { self.new.sealed ≡ self.old.sealed }
    {
        self.current.lead(call, lent)
    }

    /// Whether the call was admitted and isn't done. Takes no memory.
    pub fn is_unfinished(&self, call: u32) -> bool
        ensures { IsTrue result ↔ IsOpen call (seen self.now.current).past }
    {
        self.current.is_unfinished(call)
    }

    /// Whether a call holds the node. Takes no memory.
    pub fn is_held(&self, node: u32) -> bool
        ensures { node < length (seen self.now.current).parents → IsTrue result ↔ (holder_of (seen self.now.current).past node ≢ None) }
    {
        self.current.is_held(node)
    }

    /// The core.
    pub fn core(&self) -> &Core
        ensures { result.now ≡ self.now.current.core }
    {
        self.current.core()
    }

    /// The epochs that were sealed, the first one first.
    pub fn sealed(&self) -> &[Closed]
        ensures { result.now ≡ self.now.sealed }
    {
        &self.sealed
    }

    /// How many sessions were given.
    pub fn sessions(&self) -> u32
        ensures { result ≡ self.now.current.sessions }
    {
        self.current.sessions()
    }

    /// By call of the current epoch: its session.
    pub fn owners(&self) -> &[u32]
        ensures same { result.now ≡ self.now.current.owners }
        ensures owned { AreOwned self.now.current }
    {
        self.current.owners()
    }

    /// The receipt of a call of that epoch, once it is done. 602 if there is no such call. Takes no memory.
    pub fn receipt(&self, epoch: u32, call: u32) -> Result<Option<Receipt>, TableFault>
        ensures receipt { IfOk result (λ o. (e : EpochValue) × (slice_get (all_epochs self.now) epoch ≡ Some e) × IsKnown e call
            × MatchOption o (is_done call (seen e).past ≡ false) (λ r. (r.call ≡ call) × Stands e r)) }
        ensures call { IfOk result (λ o. IfSome o (λ r. (r.epoch ≡ epoch) × (r.call ≡ call))) }
        ensures fault { IfErr result (λ f. (f ≡ fault.Core core_fault.NoCall)
            × ((e : EpochValue) → slice_get (all_epochs self.now) epoch ≡ Some e → IsKnown e call → ⊥)) }
    {
        if epoch == self.current.number() {
            return self.current.receipt(call);
        }
        match self.sealed.get(epoch as usize) {
            Some(closed) => closed.receipt(call),
            None => Err(TableFault::Core(CoreFault::NoCall)),
        }
    }

    /// All epochs, the current one last, if every call is done; otherwise the same table. Takes no memory.
    pub fn close(self) -> Result<Vec<Closed>, Table>
        ensures ok { IfOk result (λ v. (v.items ≡ all_epochs self) × IsAtRest self.current × IsChain v.items) }
        ensures err { IfErr result (λ t. (t ≡ self) × ¬ IsAtRest self.current) }
    {
        if let Some(_) = self.current.core().some_enabled() {
            return Err(self);
        }
        self.current.lemma_is_rested();
        let Table {
            mut sealed,
            current,
        } = self;
        sealed.push_reserved(Closed::new(current));
        Ok(sealed)
    }

    /// The table that was closed, as it was before. Takes no memory.
    pub fn reopened(chain: Vec<Closed>) -> Table
        requires { IsChain chain.items }
        ensures { all_epochs result ≡ chain.items }
    {
        let mut sealed = chain;
        let Some(last) = sealed.pop() else {
            // There is at least one epoch.
            unreachable!()
        };
        Table {
            sealed,
            current: last.into_epoch(),
        }
    }
}
