// The order of a history whose events are checked as they come.

ghost use Rattle.std.specs.Prelude.{◌≡◌, ◌↔◌, ℕ, ◌<◌, List, [], ◌∷◌, false, length, IsTrue, IfOk};
ghost use Rattle.tl_tree.specs.Records.{Record as RecordValue};
ghost use Rattle.tl_tree.specs.Shape.{IsTree};
ghost use Rattle.tl_tree_locking.specs.declared.event.Event.{Event as EventValue};
ghost use Rattle.tl_tree_locking.specs.declared.event.Event.TheVariants as event;
ghost use Rattle.tl_tree_locking.specs.declared.action.Action.TheVariants as did;
ghost use Rattle.tl_tree_locking.specs.Actions.{Permitted};
ghost use Rattle.tl_tree_locking.specs.History.{part_of, is_done, IsOpen};
ghost use Rattle.tl_tree_locking.specs.Order.{placed};
ghost use Rattle.tl_tree_locking.specs.Rules.{KeepsRules, IsApart};
ghost use Rattle.tl_serial_order.specs.Checked.{calls_of, IsEventOf, IsEven, IsChecked, IsLegal, IsOfEvents, IsNext};

use crate::kept::KeptOrder;
use crate::order::Order;
use std::alloc::{AllocError, Global};
use tl_tree::Shape;
use tl_tree_locking::Event;

/// The order of a history whose events are checked as they come: does each keep the rules, after those before it?
///
/// All memory is taken at the start. The check of an event takes the same time however many came before it. Adding one
/// takes at most a climb and a placement in the order.
#[derive(Debug, Drop)]
pub struct CheckedOrder {
    // The order so far, and what keeps it up to date: for each node, the call that holds it, and the call that was the last
    // to lock it while it held the node's parent.
    kept: KeptOrder,
    // How many calls were admitted.
    admitted: usize,
    // Whether each call is done, and how many nodes it holds.
    done: Vec<bool>,
    holding: Vec<u32>,
}

impl CheckedOrder {
    /// An empty order, for `nodes` nodes and `calls` calls.
    pub fn new(alloc: Global, nodes: usize, calls: u32) -> Result<CheckedOrder, AllocError>
        ensures calls { IfOk result (λ o. calls_of o ≡ calls) }
        ensures checked { IfOk result (λ o. (parents : List ℕ) → length parents ≡ nodes → IsChecked parents o []) }
    {
        Ok(CheckedOrder {
            kept: KeptOrder::new(alloc, nodes, calls)?,
            admitted: 0,
            done: vec![in alloc; false; calls as usize]?,
            holding: vec![in alloc; 0; calls as usize]?,
        })
    }

    // Whether the call exists.
    #[inline(always)]
    fn is_call(&self, call: u32) -> bool
        ensures { IsTrue result ↔ call < calls_of self.now }
    {
        (call as usize) < self.done.len()
    }

    // Whether the call was admitted and isn't done.
    #[inline(always)]
    fn is_open(&self, call: u32) -> bool
        requires { call < calls_of self.now }
        ensures { (parents : List ℕ) (past : List EventValue)
            → IsChecked parents self.now past → IsTrue result ↔ IsOpen call past }
    {
        (call as usize) < self.admitted && !self.done[call as usize]
    }

    // Whether the call is open and the protocol permits it to lock the node. A call that holds the node's parent is open,
    // so openness is checked at a first lock only.
    #[inline(always)]
    fn may_lock(&self, shape: &Shape, call: u32, node: u32) -> bool
        requires tree { IsTree shape.now }
        requires even { IsEven self.now (length shape.now) }
        requires call { call < calls_of self.now }
        requires node { node < length shape.now }
        ensures { (past : List EventValue) (found : RecordValue) → IsChecked shape.now self.now past
            → IsTrue result ↔ KeepsRules shape.now past (event.Lock node call found) }
    {
        if !self.kept.stands(call) {
            return self.is_open(call);
        }
        if node == 0 || self.kept.holder(shape.parent(node)) != Some(call) {
            return false;
        }
        self.kept.under(node) != Some(call)
    }

    // Whether no other call holds the node.
    #[inline(always)]
    fn is_free_for(&self, call: u32, node: u32) -> bool
        requires { node < length self.now.kept.holders }
        ensures { (parents : List ℕ) (past : List EventValue) (found : RecordValue) → IsChecked parents self.now past
            → IsTrue result ↔ IsApart past (event.Lock node call found) }
    {
        match self.kept.holder(node) {
            Some(holder) => holder == call,
            None => true,
        }
    }

    // Whether the call is open and the protocol permits it to free the node: whether it holds the node.
    #[inline(always)]
    fn may_free(&self, call: u32, node: u32) -> bool
        requires { node < length self.now.kept.holders }
        ensures { (parents : List ℕ) (past : List EventValue) (left : RecordValue) → IsChecked parents self.now past
            → IsTrue result ↔ KeepsRules parents past (event.Free node call left) }
    {
        self.kept.holder(node) == Some(call)
    }

    // Whether the protocol permits the call to end.
    #[inline(always)]
    fn permits_end(&self, call: u32) -> bool
        requires even { length self.now.holding.items ≡ calls_of self.now }
        requires call { call < calls_of self.now }
        ensures { (parents : List ℕ) (past : List EventValue) → IsChecked parents self.now past
            → IsTrue result ↔ Permitted parents (part_of call past) did.End }
    {
        self.holding[call as usize] == 0
    }

    /// Whether the event keeps the rules of its own call: an admission has the next number, and anything else is what the
    /// protocol permits an open call. `is_apart` covers the other calls.
    pub fn keeps_rules(&self, shape: &Shape, event: &Event) -> bool
        requires tree { IsTree shape.now }
        requires even { IsEven self.now (length shape.now) }
        requires event { IsEventOf (length shape.now) (calls_of self.now) event.now }
        ensures { (past : List EventValue) → IsChecked shape.now self.now past
            → IsTrue result ↔ KeepsRules shape.now past event.now }
    {
        match *event {
            Event::Admit { call } => self.is_next(call),
            Event::Lock { call, node, .. } => self.may_lock(shape, call, node),
            Event::Free { call, node, .. } => self.may_free(call, node),
            Event::Done { call } => self.may_end(call),
        }
    }

    // Whether the call is the next to be admitted.
    #[inline(always)]
    fn is_next(&self, call: u32) -> bool
        ensures { (parents : List ℕ) (past : List EventValue) → IsChecked parents self.now past
            → IsTrue result ↔ KeepsRules parents past (event.Admit call) }
    {
        call as usize == self.admitted
    }

    // Whether the call is open and the protocol permits it to end.
    #[inline(always)]
    fn may_end(&self, call: u32) -> bool
        requires even { length self.now.holding.items ≡ calls_of self.now }
        requires call { call < calls_of self.now }
        ensures { (parents : List ℕ) (past : List EventValue) → IsChecked parents self.now past
            → IsTrue result ↔ KeepsRules parents past (event.Done call) }
    {
        self.is_open(call) && self.permits_end(call)
    }

    /// Whether no other call holds the node that the event locks.
    pub fn is_apart(&self, event: &Event) -> bool
        requires { IsEventOf (length self.now.kept.holders) (calls_of self.now) event.now }
        ensures { (parents : List ℕ) (past : List EventValue) → IsChecked parents self.now past
            → IsTrue result ↔ IsApart past event.now }
    {
        match *event {
            Event::Lock { call, node, .. } => self.is_free_for(call, node),
            Event::Admit { .. } | Event::Free { .. } | Event::Done { .. } => true,
        }
    }

    /// Adds one more event, which keeps the rules.
    pub fn note(&mut self, shape: &Shape, event: &Event)
        requires tree { IsTree shape.now }
        requires next { IsNext shape.now self.old event.now }
        ensures calls { calls_of self.new ≡ calls_of self.old }
        ensures checked { (past : List EventValue) → IsChecked shape.now self.old past
            → KeepsRules shape.now past event.now → IsApart past event.now
            → IsChecked shape.now self.new (event.now ∷ past) }
    {
        match *event {
            Event::Admit { call } => self.note_admission(shape, call),
            Event::Lock { call, node, .. } => self.note_lock(shape, call, node),
            Event::Free { call, node, .. } => self.note_free(shape, call, node),
            Event::Done { call } => self.note_end(shape, call),
        }
    }

    // The call is admitted.
    #[inline(always)]
    fn note_admission(&mut self, shape: &Shape, call: u32)
        requires tree { IsTree shape.now }
        requires next { IsNext shape.now self.old (event.Admit call) }
        ensures calls { calls_of self.new ≡ calls_of self.old }
        ensures checked { (past : List EventValue) → IsChecked shape.now self.old past
            → KeepsRules shape.now past (event.Admit call)
            → IsChecked shape.now self.new (event.Admit call ∷ past) }
    {
        self.kept.admitted();
        self.admitted = call as usize + 1;
    }

    // The call locks the node.
    #[inline(always)]
    fn note_lock(&mut self, shape: &Shape, call: u32, node: u32)
        requires tree { IsTree shape.now }
        requires next { (found : RecordValue) × IsNext shape.now self.old (event.Lock node call found) }
        ensures calls { calls_of self.new ≡ calls_of self.old }
        ensures checked { (past : List EventValue) (found : RecordValue) → IsChecked shape.now self.old past
            → KeepsRules shape.now past (event.Lock node call found) → IsApart past (event.Lock node call found)
            → IsChecked shape.now self.new (event.Lock node call found ∷ past) }
    {
        self.kept.lock(shape, call, node);
        self.holding[call as usize] += 1;
    }

    // The call frees the node.
    #[inline(always)]
    fn note_free(&mut self, shape: &Shape, call: u32, node: u32)
        requires tree { IsTree shape.now }
        requires next { (left : RecordValue) × IsNext shape.now self.old (event.Free node call left) }
        ensures calls { calls_of self.new ≡ calls_of self.old }
        ensures checked { (past : List EventValue) (left : RecordValue) → IsChecked shape.now self.old past
            → KeepsRules shape.now past (event.Free node call left)
            → IsChecked shape.now self.new (event.Free node call left ∷ past) }
    {
        self.kept.free(node);
        self.holding[call as usize] -= 1;
    }

    // The call ends.
    #[inline(always)]
    fn note_end(&mut self, shape: &Shape, call: u32)
        requires tree { IsTree shape.now }
        requires next { IsNext shape.now self.old (event.Done call) }
        ensures calls { calls_of self.new ≡ calls_of self.old }
        ensures checked { (past : List EventValue) → IsChecked shape.now self.old past
            → KeepsRules shape.now past (event.Done call)
            → IsChecked shape.now self.new (event.Done call ∷ past) }
    {
        self.kept.end(call);
        self.done[call as usize] = true;
    }

    /// Adds one more event if it is legal, and returns whether it was: whether its call and its node exist, and it keeps
    /// the rules.
    pub fn take(&mut self, shape: &Shape, event: &Event) -> bool
        requires tree { IsTree shape.now }
        requires events { IsOfEvents shape.now self.old }
        ensures legal { (past : List EventValue) → IsChecked shape.now self.old past
            → IsTrue result ↔ IsLegal shape.now self.old past event.now }
        ensures calls { calls_of self.new ≡ calls_of self.old }
        ensures taken { IsTrue result → (past : List EventValue) → IsChecked shape.now self.old past
            → IsChecked shape.now self.new (event.now ∷ past) }
        ensures refused { result ≡ false → self.new ≡ self.old }
    {
        // The kind of the event is branched on only once: a processor predicts that jump badly.
        match *event {
            Event::Admit { call } => self.take_admission(shape, call),
            Event::Lock { call, node, .. } => self.take_lock(shape, call, node),
            Event::Free { call, node, .. } => self.take_free(shape, call, node),
            Event::Done { call } => self.take_end(shape, call),
        }
    }

    // `take` of an admission.
    #[inline(always)]
    fn take_admission(&mut self, shape: &Shape, call: u32) -> bool
        requires tree { IsTree shape.now }
        requires events { IsOfEvents shape.now self.old }
        ensures legal { (past : List EventValue) → IsChecked shape.now self.old past
            → IsTrue result ↔ IsLegal shape.now self.old past (event.Admit call) }
        ensures calls { calls_of self.new ≡ calls_of self.old }
        ensures taken { IsTrue result → (past : List EventValue) → IsChecked shape.now self.old past
            → IsChecked shape.now self.new (event.Admit call ∷ past) }
        ensures refused { result ≡ false → self.new ≡ self.old }
    {
        if !self.is_call(call) || !self.is_next(call) {
            return false;
        }
        self.note_admission(shape, call);
        true
    }

    // `take` of a lock.
    #[inline(always)]
    fn take_lock(&mut self, shape: &Shape, call: u32, node: u32) -> bool
        requires tree { IsTree shape.now }
        requires events { IsOfEvents shape.now self.old }
        ensures legal { (past : List EventValue) (found : RecordValue) → IsChecked shape.now self.old past
            → IsTrue result ↔ IsLegal shape.now self.old past (event.Lock node call found) }
        ensures calls { calls_of self.new ≡ calls_of self.old }
        ensures taken { IsTrue result → (past : List EventValue) (found : RecordValue) → IsChecked shape.now self.old past
            → IsChecked shape.now self.new (event.Lock node call found ∷ past) }
        ensures refused { result ≡ false → self.new ≡ self.old }
    {
        if !self.is_call(call) || node >= shape.node_count() {
            return false;
        }
        if !self.may_lock(shape, call, node) || !self.is_free_for(call, node) {
            return false;
        }
        self.note_lock(shape, call, node);
        true
    }

    // `take` of a free.
    #[inline(always)]
    fn take_free(&mut self, shape: &Shape, call: u32, node: u32) -> bool
        requires tree { IsTree shape.now }
        requires events { IsOfEvents shape.now self.old }
        ensures legal { (past : List EventValue) (left : RecordValue) → IsChecked shape.now self.old past
            → IsTrue result ↔ IsLegal shape.now self.old past (event.Free node call left) }
        ensures calls { calls_of self.new ≡ calls_of self.old }
        ensures taken { IsTrue result → (past : List EventValue) (left : RecordValue) → IsChecked shape.now self.old past
            → IsChecked shape.now self.new (event.Free node call left ∷ past) }
        ensures refused { result ≡ false → self.new ≡ self.old }
    {
        if !self.is_call(call) || node >= shape.node_count() {
            return false;
        }
        if !self.may_free(call, node) {
            return false;
        }
        self.note_free(shape, call, node);
        true
    }

    // `take` of an end.
    #[inline(always)]
    fn take_end(&mut self, shape: &Shape, call: u32) -> bool
        requires tree { IsTree shape.now }
        requires events { IsOfEvents shape.now self.old }
        ensures legal { (past : List EventValue) → IsChecked shape.now self.old past
            → IsTrue result ↔ IsLegal shape.now self.old past (event.Done call) }
        ensures calls { calls_of self.new ≡ calls_of self.old }
        ensures taken { IsTrue result → (past : List EventValue) → IsChecked shape.now self.old past
            → IsChecked shape.now self.new (event.Done call ∷ past) }
        ensures refused { result ≡ false → self.new ≡ self.old }
    {
        if !self.is_call(call) || !self.may_end(call) {
            return false;
        }
        self.note_end(shape, call);
        true
    }

    /// Whether the call is done.
    pub fn is_done(&self, call: u32) -> bool
        requires { call < calls_of self.now }
        ensures { (parents : List ℕ) (past : List EventValue)
            → IsChecked parents self.now past → result ≡ is_done call past }
    {
        self.done[call as usize]
    }

    /// The order of the events so far, without the data that kept it up to date.
    pub fn into_order(self) -> Order
        ensures { (parents : List ℕ) (past : List EventValue)
            → IsChecked parents self past → result.calls ≡ placed parents past }
    {
        self.kept.into_order()
    }
}
