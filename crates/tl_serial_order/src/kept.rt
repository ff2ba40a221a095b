// The order of a history that keeps the rules, kept up to date event by event.

ghost use Rattle.std.specs.Prelude.{◌≡◌, ◌<◌, ◌≤◌, ℕ, List, [], ◌∷◌, false, length, insert, set, slice_get, slice_index_or, Some, None, true, All, IfOk};
ghost use Rattle.tl_tree.specs.Records.{Record as RecordValue};
ghost use Rattle.tl_tree.specs.Shape.{IsTree};
ghost use Rattle.tl_tree_locking.specs.declared.event.Event.{Event as EventValue};
ghost use Rattle.tl_tree_locking.specs.declared.event.Event.TheVariants as event;
ghost use Rattle.tl_tree_locking.specs.History.{caller, past_of, admits, IsLegalHistory};
ghost use Rattle.tl_tree_locking.specs.Nodes.{IsOfNodes};
ghost use Rattle.tl_tree_locking.specs.Order.{stands, put_before, IsDistinct};
ghost use Rattle.tl_tree_locking.specs.Placing.{is_call, coming_calls};
ghost use Rattle.tl_serial_order.specs.Kept.{IsOfSize, IsKept};

use crate::climb::nearest_coming;
use crate::column::Column;
use crate::order::Order;
use std::alloc::{AllocError, Global};
use std::marker::Model;
use tl_tree::Shape;
use tl_tree_locking::Event;

/// The order of a history that keeps the rules, kept up to date event by event.
///
/// At a call's first lock the order changes at one place. A climb from the node to the root finds that place by two numbers
/// for each node: the call that holds it, and the call that was the last to lock it while it held the node's parent. The
/// climb stops once it has met all held nodes. All memory is taken at the start.
#[derive(Debug, Drop)]
pub struct KeptOrder {
    order: Order,
    // By call: whether it stands in the order. The order has memory for as many calls.
    standing: Vec<bool>,
    // By node: the call that holds it.
    holders: Column,
    // How many nodes are held. A climb ends once it has met as many.
    held_count: usize,
    // By node: the call that was the last to lock it while it held the node's parent.
    under: Column,
}

impl Model for KeptOrder {
    ghost use Rattle.std.specs.Prelude.{◌≡◌, ◌≤◌, length};
    ghost use Rattle.tl_serial_order.specs.declared.column.TheConstants.{NO_CALL};
    ghost use Rattle.tl_serial_order.specs.Kept.{KeptValue, count_held};
    ghost use Rattle.tl_serial_order.specs.Line.{IsLine};
    ghost use Rattle.tl_serial_order.specs.Part.{trues};

    ghost Value = { KeptValue };

    ghost view = { λ k. record { order = k.order; calls = length k.standing.items; holders = k.holders; under = k.under } };

    ghost invariant = { λ k. IsLine k.order.calls k.standing.items
        × (length k.order.calls ≡ trues k.standing.items)
        × (length k.standing.items ≤ k.order.capacity)
        × (k.held_count ≡ count_held k.holders)
        × (length k.standing.items ≤ NO_CALL) };
}

impl KeptOrder {
    /// An empty order, for `nodes` nodes and `calls` calls.
    pub fn new(alloc: Global, nodes: usize, calls: u32) -> Result<KeptOrder, AllocError>
        ensures calls { IfOk result (λ k. k.calls ≡ calls) }
        ensures size { IfOk result (λ k. IsOfSize k nodes) }
        ensures kept { IfOk result (λ k. (parents : List ℕ) → IsKept k parents []) }
    {
        let order = Order::with_capacity(alloc, calls as usize)?;
        let standing = vec![in alloc; false; calls as usize]?;
        let holders = Column::new(alloc, nodes)?;
        let under = Column::new(alloc, nodes)?;
        Ok(KeptOrder {
            order,
            standing,
            holders,
            held_count: 0,
            under,
        })
    }

    /// The order of these events, which keep the rules, for `calls` calls.
    pub fn of_events(
        alloc: Global,
        shape: &Shape,
        events: &[Event],
        calls: u32,
    ) -> Result<KeptOrder, AllocError>
        requires legal { IsLegalHistory shape.now (past_of events.now) }
        requires nodes { All (IsOfNodes (length shape.now)) events.now }
        requires calls { admits (past_of events.now) ≤ calls }
        ensures calls { IfOk result (λ k. k.calls ≡ calls) }
        ensures size { IfOk result (λ k. IsOfSize k (length shape.now)) }
        ensures kept { IfOk result (λ k. IsKept k shape.now (past_of events.now)) }
    {
        let mut kept = KeptOrder::new(alloc, shape.node_count() as usize, calls)?;
        for event in events {
            kept.note(shape, event);
        }
        Ok(kept)
    }

    /// The order of the events so far.
    pub fn order(&self) -> &Order
        ensures { result.now ≡ self.now.order }
    {
        &self.order
    }

    /// The order of the events so far, without the data that kept it up to date.
    pub fn into_order(self) -> Order
        ensures { result ≡ self.order }
    {
        self.order
    }

    /// Whether the call stands in the order.
    pub fn stands(&self, call: u32) -> bool
        requires { call < self.now.calls }
        ensures { result ≡ stands call self.now.order.calls }
    {
        self.standing[call as usize]
    }

    /// The call that holds the node.
    pub fn holder(&self, node: u32) -> Option<u32>
        requires { node < length self.now.holders }
        ensures { result ≡ slice_index_or self.now.holders node None }
    {
        self.holders.at(node)
    }

    /// The call that was the last to lock the node while it held the node's parent.
    pub fn under(&self, node: u32) -> Option<u32>
        requires { node < length self.now.under }
        ensures { result ≡ slice_index_or self.now.under node None }
    {
        self.under.at(node)
    }

    /// Adds one more event.
    pub fn note(&mut self, shape: &Shape, event: &Event)
        requires tree { IsTree shape.now }
        requires size { IsOfSize self.old (length shape.now) }
        requires caller { caller event.now < self.old.calls }
        requires node { IsOfNodes (length shape.now) event.now }
        ensures calls { self.new.calls ≡ self.old.calls }
        ensures size { IsOfSize self.new (length shape.now) }
        ensures kept { (past : List EventValue) → IsKept self.old shape.now past
            → IsLegalHistory shape.now (event.now ∷ past) → IsKept self.new shape.now (event.now ∷ past) }
    {
        match *event {
            Event::Admit { .. } => self.admitted(),
            Event::Lock { call, node, .. } => self.lock(shape, call, node),
            Event::Free { node, .. } => self.free(node),
            Event::Done { call } => self.end(call),
        }
    }

    /// A call locks the node.
    #[inline(always)]
    pub fn lock(&mut self, shape: &Shape, call: u32, node: u32)
        requires tree { IsTree shape.now }
        requires size { IsOfSize self.old (length shape.now) }
        requires call { call < self.old.calls }
        requires node { node < length shape.now }
        ensures calls { self.new.calls ≡ self.old.calls }
        ensures size { IsOfSize self.new (length shape.now) }
        ensures kept { (past : List EventValue) (found : RecordValue) → IsKept self.old shape.now past
            → IsLegalHistory shape.now (event.Lock node call found ∷ past)
            → IsKept self.new shape.now (event.Lock node call found ∷ past) }
    {
        if self.stands(call) {
            self.lock_again(call, node);
        } else {
            self.lock_first(shape, call, node);
        }
    }

    // A call that stands in the order locks one more node.
    #[inline(always)]
    fn lock_again(&mut self, call: u32, node: u32)
        requires call { call < self.old.calls }
        requires holders { node < length self.old.holders }
        requires under { node < length self.old.under }
        ensures calls { self.new.calls ≡ self.old.calls }
        ensures size { (nodes : ℕ) → IsOfSize self.old nodes → IsOfSize self.new nodes }
        ensures kept { (parents : List ℕ) (past : List EventValue) (found : RecordValue) → IsTree parents
            → stands call self.old.order.calls ≡ true → IsKept self.old parents past
            → IsLegalHistory parents (event.Lock node call found ∷ past)
            → IsKept self.new parents (event.Lock node call found ∷ past) }
    {
        self.under.put(node, call);
        self.hold(node, call);
    }

    // The call holds the node from now on.
    #[inline(always)]
    fn hold(&mut self, node: u32, call: u32)
        requires node { node < length self.old.holders }
        requires call { call < self.old.calls }
        ensures { self.new ≡ record self.old { holders = set self.old.holders node (Some call) } }
    {
        if self.holders.at(node).is_none() {
            self.held_count += 1;
        }
        self.holders.put(node, call);
    }

    // A call that doesn't stand in the order locks its first node.
    fn lock_first(&mut self, shape: &Shape, call: u32, node: u32)
        requires tree { IsTree shape.now }
        requires size { IsOfSize self.old (length shape.now) }
        requires call { call < self.old.calls }
        requires node { node < length shape.now }
        requires new { stands call self.old.order.calls ≡ false }
        ensures calls { self.new.calls ≡ self.old.calls }
        ensures size { IsOfSize self.new (length shape.now) }
        ensures kept { (past : List EventValue) (found : RecordValue) → IsKept self.old shape.now past
            → IsLegalHistory shape.now (event.Lock node call found ∷ past)
            → IsKept self.new shape.now (event.Lock node call found ∷ past) }
    {
        let place = self.place_at(shape, node);
        self.put_in(place, call);
        self.hold(node, call);
    }

    // Where a call is put in if its first lock is of this node: before the first call that may still come to the node, or
    // at the end.
    fn place_at(&self, shape: &Shape, node: u32) -> usize
        requires tree { IsTree shape.now }
        requires size { IsOfSize self.now (length shape.now) }
        requires node { node < length shape.now }
        ensures within { result ≤ length self.now.order.calls }
        ensures place { (past : List EventValue) (c : ℕ) → IsKept self.now shape.now past
            → put_before (is_call (slice_get (coming_calls shape.now past node) 0)) c self.now.order.calls
            ≡ insert self.now.order.calls result c }
    {
        match nearest_coming(shape, &self.holders, self.held_count, &self.under, node) {
            Some(first) => place_of(self.order.calls(), first),
            None => self.order.calls().len(),
        }
    }

    /// A call frees the node.
    #[inline(always)]
    pub fn free(&mut self, node: u32)
        requires { node < length self.old.holders }
        ensures calls { self.new.calls ≡ self.old.calls }
        ensures size { (nodes : ℕ) → IsOfSize self.old nodes → IsOfSize self.new nodes }
        ensures kept { (parents : List ℕ) (past : List EventValue) (call : ℕ) (left : RecordValue)
            → IsKept self.old parents past → IsKept self.new parents (event.Free node call left ∷ past) }
    {
        if self.holders.at(node).is_some() {
            self.held_count -= 1;
        }
        self.holders.clear(node);
    }

    /// A call ends: if it has locked no node, it goes to the end.
    pub fn end(&mut self, call: u32)
        requires { call < self.old.calls }
        ensures calls { self.new.calls ≡ self.old.calls }
        ensures size { (nodes : ℕ) → IsOfSize self.old nodes → IsOfSize self.new nodes }
        ensures kept { (parents : List ℕ) (past : List EventValue)
            → IsKept self.old parents past → IsKept self.new parents (event.Done call ∷ past) }
    {
        let last = self.order.calls().len();
        if !self.stands(call) {
            self.put_in(last, call);
        }
    }

    /// A call was admitted: that changes nothing, but a proof learns it here.
    pub fn admitted(&self)
        ensures { (parents : List ℕ) (past : List EventValue) (call : ℕ)
            → IsKept self.now parents past → IsKept self.now parents (event.Admit call ∷ past) }
    {
        let _ = &self.order;
    }

    // Puts in a call that doesn't stand in the order.
    fn put_in(&mut self, place: usize, call: u32)
        requires call { call < self.old.calls }
        requires new { stands call self.old.order.calls ≡ false }
        requires place { place ≤ length self.old.order.calls }
        ensures order { self.new.order.calls ≡ insert self.old.order.calls place call }
        ensures calls { self.new.calls ≡ self.old.calls }
        ensures holders { self.new.holders ≡ self.old.holders }
        ensures under { self.new.under ≡ self.old.under }
    {
        self.order.put_in(place, call);
        self.standing[call as usize] = true;
    }
}

// The place of the call in the order, or the order's end if the call doesn't stand there. The search goes backwards from
// the end: a new call mostly goes before one of the last.
fn place_of(order: &[u32], call: u32) -> usize
    requires distinct { IsDistinct order.now }
    ensures within { result ≤ length order.now }
    ensures place { (c : ℕ) → put_before (is_call (Some call)) c order.now ≡ insert order.now result c }
{
    match order.iter().rposition(|other| *other == call) {
        Some(place) => place,
        None => order.len(),
    }
}
