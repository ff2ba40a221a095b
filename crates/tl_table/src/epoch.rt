// One epoch of a table: a core, and which call is whose.

ghost use Rattle.std.specs.Prelude.{◌≡◌, ◌≢◌, ◌+◌, ◌<◌, ◌≤◌, ◌↔◌, [], ◌∷◌, ◌++◌, length, true, false, IsTrue, IsOk, IfOk, IfErr, OnOk, OnErr, MatchOption, Some, None};
ghost use Rattle.tl_instr.specs.declared.operand.TheConstants.{MAX_ARGS};
ghost use Rattle.tl_tree_locking.specs.History.{is_done, IsOpen};
ghost use Rattle.tl_tree_locking.specs.Order.{placed};
ghost use Rattle.tl_tree_locking.specs.Holders.{holder_of};
ghost use Rattle.tl_procedures.specs.Names.{naming_refusal, AreFreeAfter, IsFirstRefused};
ghost use Rattle.tl_procedures.specs.declared.fault.NamingFault.TheVariants as naming;
ghost use Rattle.tl_procedures.specs.declared.procedures.TheConstants.{MAX_NAME};
ghost use Rattle.tl_core.specs.declared.fault.CoreFault.TheVariants as core_fault;
ghost use Rattle.tl_tree_locking.specs.World.{reply_of};
ghost use Rattle.tl_machine.specs.Turns.{HasRun, Stops};
ghost use Rattle.tl_machine.specs.declared.want.Stop.TheVariants as stop;
ghost use Rattle.tl_core.specs.Cores.{kept_turn, world_of};
ghost use Rattle.tl_table.specs.declared.fault.TableFault.TheVariants as fault;
ghost use Rattle.tl_core.specs.Followed.{IsLentOf, Submits, IfBlocked};
ghost use Rattle.tl_table.specs.Ends.{begun_by_end};
ghost use Rattle.tl_table.specs.declared.epoch.TheConstants.{MAX_EPOCHS, MAX_SESSIONS};
ghost use Rattle.tl_table.specs.Epochs.{seen, Stands, IsAtRest, IsKnown, AreOwned, IsEpochSealFault, GoesOn, epoch_after, IsAdmittedTo, IsAdmitFault};
ghost use Rattle.tl_table.specs.Tables.{IsRested};
ghost use Rattle.tl_table.specs.Sent.{KeepsCalls, Sends, IsSubmitFault, IsLeadFault, IsOfCall};

use crate::fault::TableFault;
use crate::receipt::{Receipt, Sent};
use std::alloc::Global;
use std::marker::Model;
use tl_core::{Core, CoreFault, TurnOutcome};
use tl_history::MAX_CALLS;
use tl_machine::{LentTurn, Reply, Segment, Turn, copied};
use tl_procedures::{NamedProcedure, NamingFault};
use tl_serial::Running;
use tl_serial_order::Order;
use tl_verify::Proc;

/// How many sessions a table gives at most.
pub const MAX_SESSIONS: u32 = 65_535;

/// How many epochs a table has at most.
pub const MAX_EPOCHS: usize = 256;

/// One epoch: a core, and the session of each call.
///
/// A contract sees its number, the core, how many sessions were given, and the session of each call.
#[derive(Debug, Drop)]
pub struct Epoch {
    number: u32,
    running: Running,
    sessions: u32,
    // By call. This list and the next one have memory for 4,096 calls from the start.
    owners: Vec<u32>,
    // For each done call: how many calls had been admitted when it ended.
    begun: Vec<u32>,
}

impl Model for Epoch {
    ghost use Rattle.std.specs.Prelude.{vec_capacity};
    ghost use Rattle.tl_table.specs.Epochs.{EpochValue};
    ghost use Rattle.tl_table.specs.Stored.{IsEpoch};

    ghost Value = { EpochValue };

    ghost view = { λ t. record { number = t.number; core = t.running; sessions = t.sessions; owners = t.owners.items } };

    ghost invariant = { λ t. IsEpoch (record { number = t.number; core = t.running; sessions = t.sessions; owners = t.owners.items }) t.begun.items (vec_capacity t.owners) (vec_capacity t.begun) };
}

impl Epoch {
    /// The epoch of that number, of a core that has no calls yet, after `sessions` sessions were given. 890 if memory is
    /// refused.
    pub fn new(
        alloc: Global,
        number: u32,
        running: Running,
        sessions: u32,
    ) -> Result<Epoch, TableFault>
        requires calls { running.seen.calls ≡ [] }
        requires few { sessions ≤ MAX_SESSIONS }
        ensures ok { IfOk result (λ e. e ≡ record { number = number; core = running; sessions = sessions; owners = [] }) }
        ensures err { IfErr result (λ e. e ≡ fault.Memory) }
    {
        let Ok(owners) = Vec::with_capacity(alloc, MAX_CALLS) else {
            return Err(TableFault::Memory);
        };
        let Ok(begun) = Vec::with_capacity(alloc, MAX_CALLS) else {
            return Err(TableFault::Memory);
        };
        Ok(Epoch {
            number,
            running,
            sessions,
            owners,
            begun,
        })
    }

    /// The epoch that takes over from this one once every call is done. 606 with the least unfinished call if there is one;
    /// otherwise 690 or 890 if memory is refused.
    pub fn successor(&self, alloc: Global) -> Result<Epoch, TableFault>
        requires { self.now.number < MAX_EPOCHS }
        ensures done { IfOk result (λ _. IsAtRest self.now) }
        ensures next { IfOk result (λ e. e ≡ epoch_after self.now) }
        ensures fault { IfErr result (λ e. IsEpochSealFault self.now e) }
    {
        match self.running.successor(alloc) {
            Ok(running) => Epoch::new(alloc, self.number + 1, running, self.sessions),
            Err(fault) => Err(TableFault::Core(fault)),
        }
    }

    // The same epoch; its history has no more memory than its events need.
    pub(crate) fn cut(self) -> Epoch
        ensures { result ≡ self }
    {
        let mut epoch = self;
        epoch.running.cut_history();
        epoch
    }

    /// Its number.
    pub fn number(&self) -> u32
        ensures { result ≡ self.now.number }
    {
        self.number
    }

    /// A new session's number: sessions are numbered from 0. 821 if 65,535 were given. Takes no memory.
    pub fn session(&mut self) -> Result<u32, TableFault>
        ensures number { IfOk result (λ n. n ≡ self.old.sessions) }
        ensures counted { OnOk result (self.new ≡ record self.old { sessions = self.old.sessions + 1 }) }
        ensures full { IsOk result ↔ (self.old.sessions < MAX_SESSIONS) }
        ensures goes_on { GoesOn self.old self.new }
        ensures fault { IfErr result (λ e. e ≡ fault.TooManySessions) }
        ensures err { OnErr result (self.new ≡ self.old) }
    {
        if self.sessions >= MAX_SESSIONS {
            return Err(TableFault::TooManySessions);
        }
        let number = self.sessions;
        self.sessions += 1;
        Ok(number)
    }

    /// Adds a procedure under a name, as the core does: 612, 611, 613, 690.
    pub fn add_proc(&mut self, alloc: Global, name: &str, proc: Proc) -> Result<u32, NamingFault>
        ensures number { IfOk result (λ n. n ≡ length (seen self.old).procedures) }
        ensures free { IfOk result (λ _. naming_refusal (seen self.old).procedures name.now ≡ None) }
        ensures last { OnOk result (self.new ≡ record self.old { core = record self.old.core { seen = record (seen self.old) { procedures = (seen self.old).procedures ++ record { name = name.now; code = proc } ∷ [] } } }) }
        ensures goes_on { GoesOn self.old self.new }
        ensures fault { IfErr result (λ e. e ≢ naming.Memory → naming_refusal (seen self.old).procedures name.now ≡ Some e) }
        ensures memory { IfErr result (λ e. e ≡ naming.Memory → naming_refusal (seen self.old).procedures name.now ≡ None) }
        ensures err { OnErr result (self.new ≡ self.old) }
    {
        self.running.add_proc(alloc, name, proc)
    }

    /// Adds these procedures or none of them, as the core does: 612, 611, 613, 690.
    pub fn add_procs(
        &mut self,
        alloc: Global,
        procedures: Vec<NamedProcedure>,
    ) -> Result<(), NamingFault>
        ensures free { IfOk result (λ _. AreFreeAfter (seen self.old).procedures procedures.items) }
        ensures added { OnOk result (self.new ≡ record self.old { core = record self.old.core { seen = record (seen self.old) { procedures = (seen self.old).procedures ++ procedures.items } } }) }
        ensures goes_on { GoesOn self.old self.new }
        ensures fault { IfErr result (λ e. e ≢ naming.Memory → IsFirstRefused (seen self.old).procedures procedures.items e) }
        ensures err { OnErr result (self.new ≡ self.old) }
    {
        self.running.add_procs(alloc, procedures)
    }

    /// Admits a call for a session, and returns its number. 803 if no session of that number was given; then the core's
    /// refusals, 601, 501, 603, 604, 605 in this order; otherwise 890 if memory is refused. A refusal changes nothing.
    pub fn admit(
        &mut self,
        alloc: Global,
        session: u32,
        name: &str,
        args: &[i64],
    ) -> Result<u32, TableFault>
        ensures ok { IfOk result (λ n. IsAdmittedTo self.old session name.now args.now n self.new) }
        ensures short { OnOk result (length name.now ≤ MAX_NAME) }
        ensures few { OnOk result (length args.now ≤ MAX_ARGS) }
        ensures fault { IfErr result (IsAdmitFault self.old session name.now args.now) }
        ensures err { OnErr result (self.new ≡ self.old) }
    {
        if session >= self.sessions {
            return Err(TableFault::NoSession);
        }
        // The calls are those that were admitted, and each name was free, so it is short.
        self.running.core().lemma_is_sound();
        let _fact = self.running.core().procedures().len();
        match self.running.admit(alloc, name, args) {
            Ok(call) => {
                // The numbers of calls and arguments have these bounds.
                let _fact = self.running.core().calls();
                let _fact = self.running.core().request(call);
                self.owners.push_reserved(session);
                self.begun.push_reserved(0);
                Ok(call)
            }
            Err(CoreFault::Memory) => Err(TableFault::Memory),
            Err(fault) => Err(TableFault::Core(fault)),
        }
    }

    /// The receipt of a call, once it is done. 602 if no call of that number was admitted. Takes no memory.
    pub fn receipt(&self, call: u32) -> Result<Option<Receipt>, TableFault>
        ensures known { IsOk result ↔ IsKnown self.now call }
        ensures receipt { IfOk result (λ o. MatchOption o (is_done call (seen self.now).past ≡ false) (λ r. (r.call ≡ call) × Stands self.now r)) }
        ensures fault { IfErr result (λ e. e ≡ fault.Core core_fault.NoCall) }
    {
        if call as usize >= self.running.core().calls() {
            return Err(TableFault::Core(CoreFault::NoCall));
        }
        Ok(self.receipt_of(call))
    }

    // The receipt of a call that was admitted, once it is done.
    fn receipt_of(&self, call: u32) -> Option<Receipt>
        requires { IsKnown self.now call }
        ensures { MatchOption result (is_done call (seen self.now).past ≡ false) (λ r. (r.call ≡ call) × Stands self.now r) }
    {
        let reply = self.running.core().reply(call)?;
        Some(self.receipt_with(call, reply))
    }

    // The receipt of a call that is done and has this reply.
    fn receipt_with(&self, call: u32, answered: &Reply) -> Receipt
        requires known { IsKnown self.now call }
        requires done { is_done call (seen self.now).past ≡ true }
        requires reply { answered.now ≡ reply_of (world_of (seen self.now)) call }
        ensures { (result.call ≡ call) × Stands self.now result }
    {
        let (procedure, given) = self.running.core().request(call);
        Receipt {
            session: self.owners[call as usize],
            epoch: self.number,
            call,
            procedure,
            args: copied(given),
            reply: copied(answered.values()),
        }
    }

    /// The turn at which the call is; if the call is done, its turn wants nothing more. 602 if no call of that number was
    /// admitted; otherwise 890 if memory is refused.
    pub fn state(&self, call: u32) -> Result<Turn, TableFault>
        ensures known { IfOk result (λ _. IsKnown self.now call) }
        ensures kept { IfOk result (λ t. is_done call (seen self.now).past ≡ false → kept_turn self.now.core call ≡ Some t) }
        ensures over { IfOk result (λ t. is_done call (seen self.now).past ≡ true → Stops t stop.Over) }
        ensures fault { IfErr result (λ e. e ≢ fault.Memory → (e ≡ fault.Core core_fault.NoCall) × (length (seen self.now).calls ≤ call)) }
        ensures memory { IfErr result (λ e. e ≡ fault.Memory → IsKnown self.now call) }
    {
        // The calls are those that were admitted.
        let _fact = self.running.core().calls();
        match self.running.core().turn(call) {
            Ok(turn) => Ok(turn),
            Err(CoreFault::Memory) => Err(TableFault::Memory),
            Err(fault) => Err(TableFault::Core(fault)),
        }
    }

    /// Lets a call do the instructions of a segment, which were done elsewhere, and then the lock, free or return at which
    /// the segment stops. 602 if no call of that number was admitted; 801 if the segment doesn't begin at the call's turn,
    /// or the call is done. Blocked, with nothing changed, if the stop is a lock of a node that another call holds. Takes
    /// no memory.
    pub fn submit(&mut self, call: u32, segment: Segment) -> Result<Sent, TableFault>
        ensures ok { IfOk result (λ s. Sends self.old call segment s self.new) }
        ensures call { IfOk result (IsOfCall call) }
        ensures fault { IfErr result (λ e. IsSubmitFault self.old call segment e) }
        ensures err { OnErr result (self.new ≡ self.old) }
    {
        // The calls are those that were admitted.
        let _fact = self.running.core().calls();
        let (mut lent, shape) = match self.running.core().taken(call, segment) {
            Ok(taken) => taken,
            Err(fault) => return Err(fault_of(fault)),
        };
        match self.lead(call, &mut lent)? {
            TurnOutcome::Advanced { .. } => Ok(Sent::Went(lent.into_turn(shape))),
            TurnOutcome::Blocked { .. } => Ok(Sent::Blocked),
            TurnOutcome::Finished => match self.receipt_of(call) {
                Some(receipt) => Ok(Sent::Finished(receipt)),
                // A call that has ended has its receipt.
                None => unreachable!(),
            },
        }
    }

    /// The call, lent to whoever does its local instructions; `None` if the call is done. 602 if no call of that number was
    /// admitted; otherwise 890 if memory is refused.
    pub fn lend(&self, call: u32) -> Result<Option<LentTurn>, TableFault>
        ensures known { IfOk result (λ _. IsKnown self.now call) }
        ensures lent { IfOk result (λ o. MatchOption o (is_done call (seen self.now).past ≡ true) (λ l. IsLentOf self.now.core call l)) }
        ensures fault { IfErr result (λ e. e ≢ fault.Memory → (e ≡ fault.Core core_fault.NoCall) × (length (seen self.now).calls ≤ call)) }
        ensures memory { IfErr result (λ e. e ≡ fault.Memory → IsKnown self.now call) }
    {
        // The calls are those that were admitted.
        let _fact = self.running.core().calls();
        match self.running.core().lend(call) {
            Ok(lent) => Ok(lent),
            Err(CoreFault::Memory) => Err(TableFault::Memory),
            Err(fault) => Err(TableFault::Core(fault)),
        }
    }

    /// Does a turn of a call: the instructions that were done while it was lent, and then the lock, free or return at which
    /// it stops. If the call goes on, the lent state moves past that stop too; otherwise it stays. No shapes are compared.
    /// 602 if no call of that number was admitted; 801 if the instructions didn't begin where the call is. Takes no memory.
    pub fn lead(&mut self, call: u32, lent: &mut LentTurn) -> Result<TurnOutcome, TableFault>
        requires { HasRun lent.old }
        ensures ok { IfOk result (λ o. Submits self.old.core call lent.old lent.new o self.new.core) }
        ensures blocked { IfOk result (λ o. IfBlocked o (self.new ≡ self.old)) }
        ensures keeps { KeepsCalls self.old self.new }
        ensures fault { IfErr result (λ e. IsLeadFault self.old call lent.old e) }
        ensures err { OnErr result ((self.new ≡ self.old) × (lent.new ≡ lent.old)) }
    {
        // What holds for the call before.
        self.running.core().lemma_is_sound();
        match self.running.lead(call, lent) {
            Ok(TurnOutcome::Advanced { stop }) => {
                // What holds for it now.
                self.running.core().lemma_is_sound();
                Ok(TurnOutcome::Advanced { stop })
            }
            Ok(TurnOutcome::Blocked { node, holder }) => Ok(TurnOutcome::Blocked { node, holder }),
            Ok(TurnOutcome::Finished) => {
                self.begun[call as usize] = self.running.core().calls() as u32;
                Ok(TurnOutcome::Finished)
            }
            Err(CoreFault::NotFrom) => Err(TableFault::Stale),
            Err(fault) => Err(TableFault::Core(fault)),
        }
    }

    /// Whether the call was admitted and isn't done. Takes no memory.
    pub fn is_unfinished(&self, call: u32) -> bool
        ensures { IsTrue result ↔ IsOpen call (seen self.now).past }
    {
        (call as usize) < self.running.core().calls() && self.running.core().reply(call).is_none()
    }

    /// Whether a call holds the node. Takes no memory.
    pub fn is_held(&self, node: u32) -> bool
        ensures { node < length (seen self.now).parents → IsTrue result ↔ (holder_of (seen self.now).past node ≢ None) }
    {
        node < self.running.core().opening().shape().node_count()
            && self.running.core().holder(node).is_some()
    }

    /// The core.
    pub fn core(&self) -> &Core
        ensures { result.now ≡ self.now.core }
    {
        self.running.core()
    }

    // What holds for every epoch at rest, for proofs.
    pub(crate) fn lemma_is_rested(&self)
        requires { IsAtRest self.now }
        ensures { IsRested self.now }
    {
        self.running.core().lemma_is_sound();
        let _fact = self.owners();
    }

    // The order that the history so far gives.
    pub fn order(&self) -> &Order
        ensures { result.now.calls ≡ placed (seen self.now).parents (seen self.now).past }
    {
        self.running.order()
    }

    // How many calls had been admitted when this one ended.
    pub fn begun_by_end(&self, call: u32) -> u32
        requires known { IsKnown self.now call }
        requires done { is_done call (seen self.now).past ≡ true }
        ensures number { result ≡ begun_by_end call (seen self.now).past }
    {
        self.begun[call as usize]
    }

    /// How many sessions were given.
    pub fn sessions(&self) -> u32
        ensures { result ≡ self.now.sessions }
    {
        self.sessions
    }

    /// By call: its session.
    pub fn owners(&self) -> &[u32]
        ensures same { result.now ≡ self.now.owners }
        ensures owned { AreOwned self.now }
    {
        self.owners.as_slice()
    }
}

// The table's fault for a core's refusal of a turn.
fn fault_of(refusal: CoreFault) -> TableFault
    ensures stale { refusal ≡ core_fault.NotFrom → result ≡ fault.Stale }
    ensures other { refusal ≢ core_fault.NotFrom → result ≡ fault.Core refusal }
{
    match refusal {
        CoreFault::NotFrom => TableFault::Stale,
        other => TableFault::Core(other),
    }
}
