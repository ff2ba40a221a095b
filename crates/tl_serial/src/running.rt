// A core whose order is kept up to date.

ghost use Rattle.std.specs.Prelude.{◌≡◌, ◌≢◌, ◌<◌, ◌↔◌, ℕ, List, ◌∷◌, ◌++◌, [], All, IsOk, IfOk, IfErr, IfSome, IsNone, OnOk, OnErr, None, true, false, length, map, Ok};
ghost use Rattle.tl_tree.specs.Shape.{IsTree};
ghost use Rattle.tl_tree_locking.specs.declared.action.Action.{Action as ActionValue};
ghost use Rattle.tl_tree_locking.specs.declared.event.Event.{Event as EventValue};
ghost use Rattle.tl_tree_locking.specs.Alone.{serial};
ghost use Rattle.tl_tree_locking.specs.History.{AllDone, admits, records_now, IsLegalHistory};
ghost use Rattle.tl_tree_locking.specs.Order.{placed, Agrees};
ghost use Rattle.tl_tree_locking.specs.World.{reply_of, past_after};
ghost use Rattle.tl_procedures.specs.Names.{naming_refusal, AreFreeAfter, IsFirstRefused};
ghost use Rattle.tl_procedures.specs.declared.fault.NamingFault.TheVariants as naming;
ghost use Rattle.tl_core.specs.Cores.{CoreState, world_of, opened_after, IsSealFault, kept_turn, IsLeastUnfinished};
ghost use Rattle.tl_core.specs.Entries.{Admits, IsAdmissionFault, StepsTo};
ghost use Rattle.tl_core.specs.Followed.{IsLedTo, Submits, IsLeadFault, IsFollowed, HasGone, IsFollowFault, EndsStop, Proceeds};
ghost use Rattle.tl_core.specs.declared.stepped.Stepped.TheVariants.{Moved};
ghost use Rattle.tl_machine.specs.Turns.{TurnValue, SegmentValue, HasRun};
ghost use Rattle.tl_core.specs.declared.fault.CoreFault.TheVariants as fault;
ghost use Rattle.tl_machine.specs.BetweenSteps.{IsLocal};
ghost use Rattle.tl_serial_order.specs.Kept.{IsOfSize, IsKept};
ghost use Rattle.tl_serial.specs.Running.{IsOrderOf, IsStopInside, HasStopped};
ghost use Rattle.tl_history.specs.declared.history.TheConstants.{MAX_CALLS};

use std::alloc::{AllocError, Global};
use std::marker::Model;
use tl_core::{Core, CoreFault, Followed, Stepped, TurnOutcome};
use tl_history::MAX_CALLS;
use tl_machine::{LentTurn, Segment, Stop};
use tl_procedures::{NamedProcedure, NamingFault};
use tl_serial_order::{KeptOrder, Order, SerialFault};
use tl_tree::Shape;
use tl_tree_locking::Action;
use tl_verify::Proc;

/// A core whose order is kept up to date: the type guarantees that it is the order that the core's history gives. A
/// contract sees the core.
#[derive(Debug, Drop)]
pub struct Running {
    core: Core,
    order: KeptOrder,
}

impl Model for Running {
    ghost use Rattle.tl_core.specs.Cores.{CoreState};
    ghost use Rattle.tl_serial.specs.Running.{IsOrderOf};

    ghost Value = { CoreState };

    ghost view = { λ r. r.core };

    ghost invariant = { λ r. IsOrderOf r.order r.core.seen };
}

impl Running {
    /// The core with its order. All memory that the order ever needs is taken here: 690 if it is refused.
    pub fn new(alloc: Global, core: Core) -> Result<Running, CoreFault>
        ensures ok { IfOk result (λ r. r ≡ core) }
        ensures err { IfErr result (λ e. e ≡ fault.Memory) }
    {
        let order = order_of_core(alloc, &core)?;
        Ok(Running { core, order })
    }

    /// Gives back memory of the history that its calls don't need. The core's value stays the same.
    pub fn cut_history(&mut self)
        ensures { self.new ≡ self.old }
    {
        self.core.cut_history();
    }

    /// The core that takes over from this one once every call is done, with its order: 606, then 690.
    pub fn successor(&self, alloc: Global) -> Result<Running, CoreFault>
        ensures done { IfOk result (λ _. AllDone self.now.seen.past) }
        ensures next { IfOk result (λ r. r ≡ opened_after self.now.seen) }
        ensures fault { IfErr result (λ e. IsSealFault self.now.seen e) }
    {
        let next = self.core.successor(alloc)?;
        Running::new(alloc, next)
    }

    /// This core, at rest, and the one that takes over from it: 606, then 690. A refusal hands the core back as it was.
    pub fn seal(self, alloc: Global) -> Result<(Running, Running), (Running, CoreFault)>
        ensures same { IfOk result (λ r. r.0 ≡ self) }
        ensures done { IfOk result (λ _. AllDone self.seen.past) }
        ensures next { IfOk result (λ r. r.1 ≡ opened_after self.seen) }
        ensures back { IfErr result (λ r. r.0 ≡ self) }
        ensures fault { IfErr result (λ r. IsSealFault self.seen r.1) }
    {
        match self.successor(alloc) {
            Ok(next) => Ok((self, next)),
            Err(fault) => Err((self, fault)),
        }
    }

    /// The core.
    pub fn core(&self) -> &Core
        ensures { result.now ≡ self.now }
    {
        &self.core
    }

    /// The order that the history so far gives. Takes no memory.
    pub fn order(&self) -> &Order
        ensures { result.now.calls ≡ placed self.now.seen.parents self.now.seen.past }
    {
        self.order.order()
    }

    /// Adds a procedure under a name, as the core does: 612, 611, 613, 690.
    pub fn add_proc(&mut self, alloc: Global, name: &str, proc: Proc) -> Result<u32, NamingFault>
        ensures number { IfOk result (λ n. n ≡ length self.old.seen.procedures) }
        ensures free { IfOk result (λ _. naming_refusal self.old.seen.procedures name.now ≡ None) }
        ensures last { OnOk result (self.new ≡ record self.old { seen = record self.old.seen { procedures = self.old.seen.procedures ++ record { name = name.now; code = proc } ∷ [] } }) }
        ensures fault { IfErr result (λ e. e ≢ naming.Memory → naming_refusal self.old.seen.procedures name.now ≡ Some e) }
        ensures memory { IfErr result (λ e. e ≡ naming.Memory → naming_refusal self.old.seen.procedures name.now ≡ None) }
        ensures err { OnErr result (self.new ≡ self.old) }
    {
        self.core.add_proc(alloc, name, proc)
    }

    /// Adds these procedures or none of them, as the core does: 612, 611, 613, 690.
    pub fn add_procs(
        &mut self,
        alloc: Global,
        procedures: Vec<NamedProcedure>,
    ) -> Result<(), NamingFault>
        ensures free { IfOk result (λ _. AreFreeAfter self.old.seen.procedures procedures.items) }
        ensures added { OnOk result (self.new ≡ record self.old { seen = record self.old.seen { procedures = self.old.seen.procedures ++ procedures.items } }) }
        ensures fault { IfErr result (λ e. e ≢ naming.Memory → IsFirstRefused self.old.seen.procedures procedures.items e) }
        ensures err { OnErr result (self.new ≡ self.old) }
    {
        self.core.add_procs(alloc, procedures)
    }

    /// Admits a call, as the core does: 601, 501, 603, 604, 605, 690. The order stays as it is.
    pub fn admit(&mut self, alloc: Global, name: &str, args: &[i64]) -> Result<u32, CoreFault>
        ensures ok { IfOk result (λ n. Admits self.old name.now args.now n self.new) }
        ensures fault { IfErr result (IsAdmissionFault self.old.seen name.now args.now) }
        ensures err { OnErr result (self.new ≡ self.old) }
    {
        let admitted = self.core.admit(alloc, name, args);
        self.order.admitted();
        admitted
    }

    /// Does the next instruction of a call, as the core does: 602. A first lock puts the call in order. Takes no memory.
    #[inline(always)]
    pub fn step(&mut self, call: u32) -> Result<Stepped, CoreFault>
        ensures { StepsTo self.old call result self.new }
    {
        let stepped = self.core.step(call);
        if let Ok(Stepped::Moved { action }) = &stepped {
            if let Some(stop) = stop_of(action) {
                take_up(&mut self.order, &self.core, call, stop);
            }
        }
        stepped
    }

    /// Does a call's instructions up to and including the first that isn't local, as the core does: 602. Takes no memory. This
    /// lets a caller with one thread run a call without a request per instruction.
    #[inline(always)]
    pub fn proceed(&mut self, call: u32) -> Result<Stepped, CoreFault>
        ensures known { IsOk result ↔ (call < admits self.old.seen.past) }
        ensures proceeds { IfOk result (λ s. Proceeds self.old call s self.new) }
        ensures fault { IfErr result (λ e. e ≡ fault.NoCall) }
        ensures err { OnErr result (self.new ≡ self.old) }
    {
        let stepped = self.core.proceed(call);
        if let Some(stop) = stop_passed(&stepped) {
            take_up(&mut self.order, &self.core, call, stop);
        }
        stepped
    }

    /// Lets a call do the instructions of a segment, which were done elsewhere, as the core does: 602, 607. Takes no memory.
    pub fn follow(&mut self, call: u32, segment: Segment) -> Result<Followed, CoreFault>
        ensures from { IfOk result (λ _. kept_turn self.old call ≡ Some segment.from) }
        ensures followed { IfOk result (λ f. IsFollowed self.old call segment f self.new) }
        ensures turns { (c : ℕ) → c ≢ call → kept_turn self.new c ≡ kept_turn self.old c }
        ensures fault { IfErr result (λ e. IsFollowFault self.old call segment e) }
        ensures err { OnErr result (self.new ≡ self.old) }
    {
        let stop = segment.stop();
        let followed = self.core.follow(call, segment);
        if let Ok(outcome) = &followed {
            if has_gone(outcome) {
                take_up(&mut self.order, &self.core, call, stop);
            }
        }
        followed
    }

    /// Does a turn of a call that was lent, as the core does: 602, 607. Takes no memory.
    pub fn lead(&mut self, call: u32, lent: &mut LentTurn) -> Result<TurnOutcome, CoreFault>
        requires { HasRun lent.old }
        ensures ok { IfOk result (λ o. Submits self.old call lent.old lent.new o self.new) }
        ensures fault { IfErr result (λ e. IsLeadFault self.old call lent.old e) }
        ensures err { OnErr result ((self.new ≡ self.old) × (lent.new ≡ lent.old)) }
    {
        let led = self.core.lead(call, lent);
        if let Ok(outcome) = &led {
            if let Some(stop) = stop_behind(*outcome) {
                take_up(&mut self.order, &self.core, call, stop);
            }
        }
        led
    }

    /// The order, once every call is done, with all that `conclude` promises for it. 651 with the least unfinished call if
    /// there is one; otherwise 690 if memory is refused.
    pub fn conclude(&self, alloc: Global) -> Result<Order, SerialFault>
        ensures unfinished { IfErr result (λ e. e ≢ SerialFault.Memory
            → (c : ℕ) × (e ≡ SerialFault.Unfinished c) × IsLeastUnfinished self.now.seen.past c) }
        ensures memory { IfErr result (λ e. e ≡ SerialFault.Memory → AllDone self.now.seen.past) }
        ensures done { IfOk result (λ _. AllDone self.now.seen.past) }
        ensures order { IfOk result (λ o. o.calls ≡ placed self.now.seen.parents self.now.seen.past) }
        ensures known { IfOk result (λ o. All (λ c. c < length self.now.seen.calls) o.calls) }
        ensures agrees { IfOk result (λ o. Agrees o.calls self.now.seen.past) }
        ensures tree { IfOk result (λ o. (serial (world_of self.now.seen).meanings o.calls self.now.seen.opening).tree
            ≡ records_now self.now.seen.past self.now.seen.opening) }
        ensures replies { IfOk result (λ o. (serial (world_of self.now.seen).meanings o.calls self.now.seen.opening).replies
            ≡ map (reply_of (world_of self.now.seen)) o.calls) }
    {
        if let Some(call) = self.core.least_unfinished() {
            return Err(SerialFault::Unfinished { call });
        }
        // What the order promises follows from this.
        self.core.lemma_is_sound();
        Ok(self.order().copy(alloc)?)
    }
}

/// The order that the core's history gives, with memory for as many calls as a core may have.
pub(crate) fn order_of_core(alloc: Global, core: &Core) -> Result<KeptOrder, AllocError>
    ensures { IfOk result (λ k. IsOrderOf k core.now.seen) }
{
    // The history keeps the rules, and has no more calls than that.
    core.lemma_is_sound();
    let shape = core.opening().shape();
    KeptOrder::of_events(alloc, shape, core.history().events(), MAX_CALLS as u32)
}

// The stop at which a call does this action, unless the action is local.
#[inline(always)]
fn stop_of(action: &Action) -> Option<Stop>
    ensures some { IfSome result (λ s. EndsStop s action.now) }
    ensures none { IsNone result → IsLocal action.now }
{
    match *action {
        Action::Lock { node, .. } => Some(Stop::Lock(node)),
        Action::Free { node, .. } => Some(Stop::Free(node)),
        Action::End => Some(Stop::Return),
        _ => None,
    }
}

// The stop that the call passed in this step, if it went on.
#[inline(always)]
fn stop_passed(stepped: &Result<Stepped, CoreFault>) -> Option<Stop>
    ensures some { IfSome result (λ s. (last : ActionValue) × (stepped.now ≡ Ok (Moved last)) × EndsStop s last) }
    ensures none { IsNone result → (last : ActionValue) → stepped.now ≡ Ok (Moved last) → IsLocal last }
{
    match stepped {
        Ok(Stepped::Moved { action }) => stop_of(action),
        _ => None,
    }
}

// The stop that a call passed, if it went on.
fn stop_behind(outcome: TurnOutcome) -> Option<Stop>
    ensures some { IfSome result (λ s. (v w : CoreState) (c : ℕ) (segment : SegmentValue) (turn : TurnValue) → IsLedTo v c segment turn outcome w
        → HasGone v c segment w × (segment.stop ≡ s)) }
    ensures none { IsNone result → (v w : CoreState) (c : ℕ) (segment : SegmentValue) (turn : TurnValue) → IsLedTo v c segment turn outcome w
        → w ≡ v }
{
    match outcome {
        TurnOutcome::Advanced { stop } => Some(stop),
        TurnOutcome::Finished => Some(Stop::Return),
        TurnOutcome::Blocked { .. } => None,
    }
}

// Whether the call did what the segment ends with.
fn has_gone(outcome: &Followed) -> bool
    ensures gone { (v w : CoreState) (c : ℕ) (segment : SegmentValue) → IsFollowed v c segment outcome.now w → result ≡ true → HasGone v c segment w }
    ensures blocked { (v w : CoreState) (c : ℕ) (segment : SegmentValue) → IsFollowed v c segment outcome.now w → result ≡ false → w ≡ v }
{
    match outcome {
        Followed::Went(_) => true,
        Followed::Finished(_) => true,
        Followed::Blocked { .. } => false,
    }
}

// Adds what the call did at that stop to the order of the history before it.
#[inline(always)]
fn take_up(order: &mut KeptOrder, core: &Core, call: u32, stop: Stop)
    requires size { IsOfSize order.old (length core.now.seen.parents) }
    requires calls { order.old.calls ≡ MAX_CALLS }
    requires stopped { (past : List EventValue) × HasStopped core.now.seen call stop past }
    ensures { (past : List EventValue) → HasStopped core.now.seen call stop past
        → IsKept order.old core.now.seen.parents past → IsOrderOf order.new core.now.seen }
{
    // The history keeps the rules, and has no more calls than that.
    core.lemma_is_sound();
    note_stop(order, core.opening().shape(), call, stop);
}

// The same, if the call and the node are known to be in range.
#[inline(always)]
fn note_stop(order: &mut KeptOrder, shape: &Shape, call: u32, stop: Stop)
    requires tree { IsTree shape.now }
    requires size { IsOfSize order.old (length shape.now) }
    requires call { call < order.old.calls }
    requires node { IsStopInside (length shape.now) stop }
    ensures calls { order.new.calls ≡ order.old.calls }
    ensures size { IsOfSize order.new (length shape.now) }
    ensures kept { (past : List EventValue) (last : ActionValue) → EndsStop stop last → IsKept order.old shape.now past
        → IsLegalHistory shape.now (past_after call last past) → IsKept order.new shape.now (past_after call last past) }
{
    match stop {
        Stop::Lock(node) => order.lock(shape, call, node),
        Stop::Free(node) => order.free(node),
        Stop::Return => order.end(call),
        // If the call is over, nothing was done.
        Stop::Over => {}
    }
}
