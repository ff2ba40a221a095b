// Many calls on one tree.

ghost use Rattle.std.specs.Prelude.{◌≡◌, ℕ, ◌<◌, ◌≤◌, [], length, IfOk, IfErr, Some};
ghost use Rattle.tl_history.specs.declared.history.TheConstants.{MAX_CALLS};
ghost use Rattle.tl_budget.specs.Loops.{budget, lock_bound, emit_bound};
ghost use Rattle.tl_tree_locking.specs.Actions.{lock_count};
ghost use Rattle.tl_tree_locking.specs.History.{admits, IsOpen, AllDone};
ghost use Rattle.tl_tree_locking.specs.Obeys.{Obeys};
ghost use Rattle.tl_tree_locking.specs.World.{Legal, IsSound, Reached};
ghost use Rattle.tl_core.specs.Cores.{world_of, call_of, code_of, opened, opened_after, IsSealFault, kept_turn, done_by, IsTurnOf};
ghost use Rattle.tl_core.specs.Reached.{IsReached};
ghost use Rattle.tl_machine.specs.Runs.{emits_of};
ghost use Rattle.tl_machine.specs.Turns.{TurnValue};
ghost use Rattle.tl_core.specs.declared.fault.CoreFault.TheVariants as fault;

use crate::call::{Call, OpenCall};
use crate::fault::CoreFault;
use std::alloc::Global;
use std::marker::Model;
use tl_history::{History, MAX_EVENTS};
use tl_procedures::Procedures;
use tl_tree::Tree;

/// How many calls may be open at once.
pub const MAX_OPEN: usize = 64;

/// A tree, procedures, and calls of them that take turns.
///
/// A contract sees the opening tree, the procedures and calls by number, the events with the latest first, and how many
/// events there may be. `world_of` makes a world of the protocol from these; the type guarantees that this world is sound.
#[derive(Debug, Drop)]
pub struct Core {
    pub(crate) opening: Tree,
    // The tree as it is now.
    pub(crate) latest: Tree,
    pub(crate) procedures: Procedures,
    // By number. A done call keeps no turn.
    pub(crate) calls: Vec<Call>,
    // The open calls, in no order: a call names its slot, and the slot names its call. There is memory for 64 from the start.
    pub(crate) slots: Vec<OpenCall>,
    // By node: the call that holds it.
    pub(crate) holders: Vec<Option<u32>>,
    // `reserved()` is the sum of the places of the open calls.
    pub(crate) history: History,
}

impl Model for Core {
    ghost use Rattle.std.specs.Prelude.{map, vec_capacity};
    ghost use Rattle.tl_core.specs.Cores.{CoreState};
    ghost use Rattle.tl_core.specs.Stored.{seen_call, seen_turn};
    ghost use Rattle.tl_core.specs.Kept.{IsWholeCore};

    ghost Value = { CoreState };

    ghost view = { λ s. record { seen = record { parents = s.opening.parents; opening = s.opening.records; procedures = s.procedures; calls = map (seen_call s.procedures s.slots.items) s.calls.items; past = s.history.past; limit = s.history.limit }; turns = map (seen_turn s.slots.items) s.calls.items } };

    ghost invariant = { λ s. IsWholeCore (record { parents = s.opening.parents; opening = s.opening.records; procedures = s.procedures; calls = map (seen_call s.procedures s.slots.items) s.calls.items; past = s.history.past; limit = s.history.limit }) s.latest s.calls.items s.slots.items s.holders.items s.history.reserved (vec_capacity s.slots) };
}

impl Core {
    /// A core of the tree, without procedures and calls, for up to 1,048,576 events. 690 if memory is refused.
    pub fn new(alloc: Global, tree: Tree) -> Result<Core, CoreFault>
        ensures ok { IfOk result (λ core. core ≡ opened tree [] MAX_EVENTS) }
        ensures err { IfErr result (λ e. e ≡ fault.Memory) }
    {
        Core::with_limit(alloc, tree, MAX_EVENTS)
    }

    /// A core of the tree, without procedures and calls, for up to `limit` events. 690 if memory is refused.
    pub fn with_limit(alloc: Global, tree: Tree, limit: usize) -> Result<Core, CoreFault>
        requires { limit ≤ MAX_EVENTS }
        ensures ok { IfOk result (λ core. core ≡ opened tree [] limit) }
        ensures err { IfErr result (λ e. e ≡ fault.Memory) }
    {
        Core::with_procedures(alloc, tree, Procedures::new(alloc), limit)
    }

    /// A core of the tree with these procedures, without calls, for up to `limit` events. 690 if memory is refused.
    pub fn with_procedures(
        alloc: Global,
        tree: Tree,
        procedures: Procedures,
        limit: usize,
    ) -> Result<Core, CoreFault>
        requires { limit ≤ MAX_EVENTS }
        ensures ok { IfOk result (λ core. core ≡ opened tree procedures limit) }
        ensures err { IfErr result (λ e. e ≡ fault.Memory) }
    {
        let Ok(latest) = tree.copy(alloc) else {
            return Err(CoreFault::Memory);
        };
        let nodes = tree.shape().node_count() as usize;
        let holders = vec![in alloc; None; nodes]?;
        let slots = Vec::with_capacity(alloc, MAX_OPEN)?;
        Ok(Core {
            opening: tree,
            latest,
            procedures,
            calls: Vec::new(alloc),
            slots,
            holders,
            history: History::new(alloc, limit),
        })
    }

    /// The core that takes over from this one once every call is done: it opens with the current records, and has the same
    /// procedures, no calls yet, and a history for as many events. 606 with the least unfinished call if there is one;
    /// otherwise 690 if memory is refused.
    pub fn successor(&self, alloc: Global) -> Result<Core, CoreFault>
        ensures done { IfOk result (λ _. AllDone self.now.seen.past) }
        ensures next { IfOk result (λ core. core ≡ opened_after self.now.seen) }
        ensures fault { IfErr result (λ e. IsSealFault self.now.seen e) }
    {
        if let Some(call) = self.least_unfinished() {
            return Err(CoreFault::NotAtRest { call });
        }
        let Ok(tree) = self.tree().copy(alloc) else {
            return Err(CoreFault::Memory);
        };
        let procedures = self.procedures.copy(alloc)?;
        Core::with_procedures(alloc, tree, procedures, self.history.limit())
    }

    /// This core, at rest, and the one that takes over from it. 606 with the least unfinished call if there is one;
    /// otherwise 690 if memory is refused. A refusal hands the core back as it was.
    pub fn seal(self, alloc: Global) -> Result<(Core, Core), (Core, CoreFault)>
        ensures same { IfOk result (λ r. r.0 ≡ self) }
        ensures done { IfOk result (λ _. AllDone self.seen.past) }
        ensures next { IfOk result (λ r. r.1 ≡ opened_after self.seen) }
        ensures back { IfErr result (λ r. r.0 ≡ self) }
        ensures fault { IfErr result (λ r. IsSealFault self.seen r.1) }
    {
        match self.successor(alloc) {
            Ok(next) => Ok((self, next)),
            Err(fault) => Err((self, fault)),
        }
    }

    /// Gives back memory of the history that its calls don't need. The core's value stays the same.
    pub fn cut_history(&mut self)
        ensures { self.new ≡ self.old }
    {
        self.history.cut();
    }

    /// What holds for every core, for proofs: admissions and steps led to its world, which is sound and legal, and what
    /// each call has done obeys the tree protocol and is within the bounds of its procedure.
    pub fn lemma_is_sound(&self)
        ensures sound { IsSound (world_of self.now.seen) }
        ensures legal { Legal (world_of self.now.seen) }
        ensures reached { Reached self.now.seen.parents self.now.seen.opening (world_of self.now.seen) }
        ensures counted { length self.now.seen.calls ≡ admits self.now.seen.past }
        ensures few { length self.now.seen.calls ≤ MAX_CALLS }
        ensures turned { (c : ℕ) → IsOpen c self.now.seen.past → (t : TurnValue) × (kept_turn self.now c ≡ Some t) }
        ensures turn_of { (c : ℕ) (t : TurnValue) → kept_turn self.now c ≡ Some t → IsTurnOf self.now.seen c t }
        ensures obeys { (c : ℕ) → c < admits self.now.seen.past → Obeys self.now.seen.parents (done_by self.now.seen c) }
        ensures steps { (c : ℕ) → c < admits self.now.seen.past → length (done_by self.now.seen c) ≤ budget (code_of self.now.seen c) }
        ensures counts { (c : ℕ) → c < admits self.now.seen.past → (call_of self.now.seen c).count ≤ budget (code_of self.now.seen c) }
        ensures locks { (c : ℕ) → c < admits self.now.seen.past → lock_count (done_by self.now.seen c) ≤ lock_bound (code_of self.now.seen c) }
        ensures emits { (c : ℕ) → c < admits self.now.seen.past → length (emits_of (done_by self.now.seen c)) ≤ emit_bound (code_of self.now.seen c) }
    {
        let _ = &self.history;
    }

    /// How every core came to its value, for proofs: by procedures with names of their own, by admissions for which there
    /// was room, and by steps.
    pub fn lemma_is_reached(&self)
        ensures { IsReached self.now.seen }
    {
        // The procedures' names are their own, and the history is within its limit.
        let _fact = self.procedures.len();
        let _fact = self.history.limit();
    }
}
