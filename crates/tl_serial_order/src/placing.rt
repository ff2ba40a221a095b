// The order that a history gives.

ghost use Rattle.std.specs.Prelude.{◌≡◌, ℕ, ◌^◌, ◌<◌, ◌≤◌, List, [], ◌∷◌, length, insert, All, IsTrue, ◌↔◌, IfOk, IfErr, IfSome, IsSome, OnOk};
ghost use Rattle.tl_tree.specs.Shape.{IsTree};
ghost use Rattle.tl_tree_locking.specs.declared.event.Event.{Event as EventValue};
ghost use Rattle.tl_tree_locking.specs.Actions.{may_come};
ghost use Rattle.tl_tree_locking.specs.History.{caller, part_of, past_of, admits, IsLegalHistory};
ghost use Rattle.tl_tree_locking.specs.Order.{put_before, placed, placed_after, Agrees};
ghost use Rattle.tl_tree_locking.specs.Nodes.{IsOfNodes};
ghost use Rattle.tl_serial_order.specs.Parts.{AreOfNodes, Show, ShowAll};

use crate::checked::CheckedOrder;
use crate::event::{caller, is_of_nodes};
use crate::fault::SerialFault;
use crate::line::Line;
use crate::order::Order;
use crate::parts::Parts;
use std::alloc::{AllocError, Global};
use tl_history::{History, MAX_CALLS};
use tl_tree::Shape;
use tl_tree_locking::Event;

/// The order that a history gives, event by event.
///
/// At a call's first lock, of x, the call is put in just before the first call that may still come to x at that moment, or
/// at the end if there is none. A call that is done without a lock goes to the end. A call that stands in the order isn't
/// put in again, and nothing else moves. So any history has an order, even one that breaks the rules. The order agrees with
/// a history that keeps them: its members are the calls that locked a node or are done, and calls that locked the same node
/// stand in the order in which they locked it.
///
/// A history that keeps the rules is placed as its events are checked. One that breaks a rule takes longer: at each first
/// lock the calls in line are examined, one after another. 690 if memory is refused.
pub fn order_of(alloc: Global, history: &History, shape: &Shape) -> Result<Order, SerialFault>
    requires { All (IsOfNodes (length shape.now)) history.now.past }
    ensures ok { IfOk result (λ o. o.calls ≡ placed shape.now history.now.past) }
    ensures agrees { IfOk result (λ o. IsLegalHistory shape.now history.now.past → Agrees o.calls history.now.past) }
    ensures err { IfErr result (λ e. e ≡ SerialFault.Memory) }
{
    // The shape is a tree's: a proof learns that here.
    let _nodes = shape.node_count();
    if let Some(order) = kept_order(alloc, history, shape)? {
        return Ok(order);
    }
    placed_order(alloc, history, shape)
}

// The same order, if the history keeps the rules and has no more calls than it may.
fn kept_order(alloc: Global, history: &History, shape: &Shape) -> Result<Option<Order>, AllocError>
    requires { All (IsOfNodes (length shape.now)) history.now.past }
    ensures kept { IfOk result (λ o. IfSome o (λ o. o.calls ≡ placed shape.now history.now.past)) }
    ensures some { IfOk result (λ o. IsLegalHistory shape.now history.now.past
        → admits history.now.past ≤ MAX_CALLS → IsSome o) }
{
    let nodes = shape.node_count() as usize;
    let calls = history.len().min(MAX_CALLS) as u32;
    let mut order = CheckedOrder::new(alloc, nodes, calls)?;
    for event in history.events() {
        if !order.take(shape, event) {
            return Ok(None);
        }
    }
    Ok(Some(order.into_order()))
}

// The same order for every history, by the plain definition.
fn placed_order(alloc: Global, history: &History, shape: &Shape) -> Result<Order, SerialFault>
    requires { All (IsOfNodes (length shape.now)) history.now.past }
    ensures ok { IfOk result (λ o. o.calls ≡ placed shape.now history.now.past) }
    ensures err { IfErr result (λ e. e ≡ SerialFault.Memory) }
{
    let mut line = Line::new(alloc);
    let mut parts = Parts::new(alloc);
    place_all(alloc, &mut line, &mut parts, shape, history.events())?;
    Ok(line.into_order())
}

// Puts the calls of the events in order, starting without calls.
fn place_all(
    alloc: Global,
    line: &mut Line,
    parts: &mut Parts,
    shape: &Shape,
    events: &[Event],
) -> Result<(), AllocError>
    requires line { line.old ≡ record { order = []; count = 0 } }
    requires parts { parts.old ≡ [] }
    requires inside { All (IsOfNodes (length shape.now)) events.now }
    ensures { OnOk result (line.new.order ≡ placed shape.now (past_of events.now)) }
{
    let nodes = shape.node_count() as usize;
    for event in events {
        make_room(alloc, line, parts, nodes, caller(event))?;
        place(line, parts, shape, event)?;
        parts.note(event);
    }
    Ok(())
}

// Makes the calls up to this one known.
fn make_room(
    alloc: Global,
    line: &mut Line,
    parts: &mut Parts,
    nodes: usize,
    call: u32,
) -> Result<(), AllocError>
    requires calls { length parts.old ≡ line.old.count }
    ensures order { OnOk result (line.new.order ≡ line.old.order) }
    ensures calls { OnOk result (length parts.new ≡ line.new.count) }
    ensures call { OnOk result (call < line.new.count) }
    ensures nodes { OnOk result (AreOfNodes nodes parts.old → AreOfNodes nodes parts.new) }
    ensures more { OnOk result ((past : List EventValue) → ShowAll parts.old past → ShowAll parts.new past) }
{
    for _call in parts.len()..call as usize + 1 {
        parts.add(alloc, nodes)?;
        line.add()?;
    }
    Ok(())
}

/// Whether each lock and each free of the history is of a node of the shape.
pub fn is_of_shape(history: &History, shape: &Shape) -> bool
    ensures { IsTrue result ↔ All (IsOfNodes (length shape.now)) history.now.past }
{
    for event in history.events() {
        if !is_of_nodes(event, shape.node_count()) {
            return false;
        }
    }
    true
}

// Puts the event's call in order if the event is its first lock, or its end without a lock.
fn place(line: &mut Line, parts: &Parts, shape: &Shape, event: &Event) -> Result<(), AllocError>
    requires tree { IsTree shape.now }
    requires calls { length parts.now ≡ line.old.count }
    requires nodes { AreOfNodes (length shape.now) parts.now }
    requires caller { caller event.now < line.old.count }
    requires node { IsOfNodes (length shape.now) event.now }
    ensures count { OnOk result (line.new.count ≡ line.old.count) }
    ensures ok { OnOk result ((past : List EventValue) → Show parts.now past
        → line.new.order ≡ placed_after shape.now past event.now line.old.order) }
{
    let call = caller(event);
    if line.stands(call) {
        return Ok(());
    }
    match *event {
        Event::Lock { node, .. } => {
            let first = first_coming(line.calls(), parts, shape, node);
            line.put_in(first, call)
        }
        Event::Done { .. } => line.put_in(line.calls().len(), call),
        Event::Admit { .. } | Event::Free { .. } => Ok(()),
    }
}

// The place of the first call in order that may still come to the node, or the end.
fn first_coming(order: &[u32], parts: &Parts, shape: &Shape, node: u32) -> usize
    requires calls { All (λ c. c < length parts.now) order.now }
    requires tree { IsTree shape.now }
    requires nodes { AreOfNodes (length shape.now) parts.now }
    requires node { node < length shape.now }
    ensures within { result ≤ length order.now }
    ensures first { (past : List EventValue) (call : ℕ) → Show parts.now past
        → put_before (λ c. may_come shape.now (part_of c past) node) call order.now
        ≡ insert order.now result call }
{
    for (place, call) in order.iter().enumerate() {
        if parts.may_come(*call, shape, node) {
            return place;
        }
    }
    order.len()
}
