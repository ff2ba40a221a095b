// The state after the events so far.

ghost use Rattle.std.specs.Prelude.{◌≡◌, ◌↔◌, ℕ, ◌<◌, List, [], ◌∷◌, length, IsTrue, IfOk, IfErr, OnOk};
ghost use Rattle.tl_tree.specs.Records.{Records};
ghost use Rattle.tl_tree.specs.Shape.{IsTree};
ghost use Rattle.tl_tree_locking.specs.declared.event.Event.{Event as EventValue};
ghost use Rattle.tl_tree_locking.specs.History.{is_done, records_now};
ghost use Rattle.tl_tree_locking.specs.Order.{placed};
ghost use Rattle.tl_serial_order.specs.Checked.{calls_of, IsEventOf};
ghost use Rattle.tl_trail.specs.Clean.{FindsNow, IsRight, AreRight};
ghost use Rattle.tl_audit.specs.Findings.{IsWrong};
ghost use Rattle.tl_audit.specs.Watching.{IsEven, IsNext, Shows};

use crate::fault::AuditFault;
use std::alloc::{AllocError, Global};
use tl_serial_order::{CheckedOrder, Order};
use tl_tree::{Record, Shape, Tree};
use tl_tree_locking::Event;

/// The state after the events so far.
#[derive(Drop)]
pub(crate) struct Watch {
    // The order so far; each event is checked against it.
    order: CheckedOrder,
    // The current record of each node.
    records: Vec<Record>,
}

impl Watch {
    /// The state before the first event.
    pub(crate) fn new(alloc: Global, calls: u32, opening: &Tree) -> Result<Watch, AllocError>
        ensures { IfOk result (λ w. Shows opening.now.parents opening.now.records calls w []) }
    {
        let nodes = opening.shape().node_count() as usize;
        let mut records = Vec::with_capacity(alloc, nodes)?;
        records.extend_from_slice(opening.records())?;
        Ok(Watch {
            order: CheckedOrder::new(alloc, nodes, calls)?,
            records,
        })
    }

    // Whether the event, if it is a lock, finds the current record.
    fn finds_now(&self, event: &Event) -> bool
        requires { IsEventOf (length self.now.records.items) (calls_of self.now.order) event.now }
        ensures { (parents : List ℕ) (opening : Records) (calls : ℕ) (past : List EventValue)
            → Shows parents opening calls self.now past → IsTrue result ↔ FindsNow opening past event.now }
    {
        match *event {
            Event::Lock { node, found, .. } => found == self.records[node as usize],
            _ => true,
        }
    }

    /// The first fault of the event, whose number is `number`.
    pub(crate) fn judge(&self, shape: &Shape, event: &Event, number: u32) -> Result<(), AuditFault>
        requires tree { IsTree shape.now }
        requires even { IsEven self.now (length shape.now) }
        requires event { IsEventOf (length shape.now) (calls_of self.now.order) event.now }
        ensures right { OnOk result ((opening : Records) (calls : ℕ) (past : List EventValue)
            → Shows shape.now opening calls self.now past → AreRight shape.now opening past
            → IsRight shape.now opening past event.now) }
        ensures wrong { IfErr result (λ f. (opening : Records) (calls : ℕ) (past : List EventValue)
            → Shows shape.now opening calls self.now past → AreRight shape.now opening past → number ≡ length past
            → IsWrong shape.now opening past event.now f) }
    {
        if !self.order.keeps_rules(shape, event) {
            return Err(AuditFault::RuleBroken { event: number });
        }
        if !self.order.is_apart(event) {
            return Err(AuditFault::Overlap { event: number });
        }
        if !self.finds_now(event) {
            return Err(AuditFault::WrongFound { event: number });
        }
        Ok(())
    }

    /// Records the event, which has no fault.
    pub(crate) fn note(&mut self, shape: &Shape, event: &Event)
        requires tree { IsTree shape.now }
        requires next { IsNext shape.now self.old event.now }
        ensures { (opening : Records) (calls : ℕ) (past : List EventValue)
            → Shows shape.now opening calls self.old past → AreRight shape.now opening (event.now ∷ past)
            → Shows shape.now opening calls self.new (event.now ∷ past) }
    {
        self.order.note(shape, event);
        if let Event::Free { node, left, .. } = *event {
            self.records[node as usize] = left;
        }
    }

    /// Whether the call is done.
    pub(crate) fn is_done(&self, call: u32) -> bool
        requires { call < calls_of self.now.order }
        ensures { (parents : List ℕ) (opening : Records) (calls : ℕ) (past : List EventValue)
            → Shows parents opening calls self.now past → result ≡ is_done call past }
    {
        self.order.is_done(call)
    }

    /// The current records.
    pub(crate) fn records(&self) -> &[Record]
        ensures { (parents : List ℕ) (opening : Records) (calls : ℕ) (past : List EventValue)
            → Shows parents opening calls self.now past → result.now ≡ records_now past opening }
    {
        &self.records
    }

    /// The order of the events so far.
    pub(crate) fn into_order(self) -> Order
        ensures { (parents : List ℕ) (opening : Records) (calls : ℕ) (past : List EventValue)
            → Shows parents opening calls self past → result.calls ≡ placed parents past }
    {
        self.order.into_order()
    }
}
