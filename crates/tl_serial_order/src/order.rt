// An order of calls.

ghost use Rattle.std.specs.Prelude.{◌≡◌, ◌<◌, ◌≤◌, [], false, length, insert, IfOk};
ghost use Rattle.tl_tree_locking.specs.Order.{stands, IsDistinct};

use std::alloc::{AllocError, Global};
use std::marker::Model;

/// An order of calls, in which no call stands twice. A contract sees the list of the calls' numbers, and how many calls
/// there is memory for.
#[derive(Debug, Drop)]
pub struct Order {
    calls: Vec<u32>,
}

impl Model for Order {
    ghost use Rattle.std.specs.Prelude.{vec_capacity};
    ghost use Rattle.tl_serial_order.specs.Order.{OrderValue};
    ghost use Rattle.tl_tree_locking.specs.Order.{IsDistinct};

    ghost Value = { OrderValue };

    ghost view = { λ o. record { calls = o.calls.items; capacity = vec_capacity o.calls } };

    ghost invariant = { λ o. IsDistinct o.calls.items };
}

impl Order {
    /// The order of these calls.
    pub fn new(calls: Vec<u32>) -> Order
        requires { IsDistinct calls.items }
        ensures { result.calls ≡ calls.items }
    {
        Order { calls }
    }

    /// An empty order, with memory for `count` calls.
    pub fn with_capacity(alloc: Global, count: usize) -> Result<Order, AllocError>
        ensures none { IfOk result (λ o. o.calls ≡ []) }
        ensures capacity { IfOk result (λ o. count ≤ o.capacity) }
    {
        Ok(Order {
            calls: Vec::with_capacity(alloc, count)?,
        })
    }

    /// The calls' numbers, in order.
    pub fn calls(&self) -> &[u32]
        ensures same { result.now ≡ self.now.calls }
        ensures distinct { IsDistinct self.now.calls }
    {
        self.calls.as_slice()
    }

    /// Puts a call in at that place; there has to be memory for it. The calls from there on move by one.
    pub fn put_in(&mut self, place: usize, call: u32)
        requires new { stands call self.old.calls ≡ false }
        requires place { place ≤ length self.old.calls }
        requires room { length self.old.calls < self.old.capacity }
        ensures calls { self.new.calls ≡ insert self.old.calls place call }
        ensures capacity { self.old.capacity ≤ self.new.capacity }
    {
        let Ok(()) = self.calls.insert(place, call) else {
            unreachable!()
        };
    }

    /// A copy of the order.
    pub fn copy(&self, alloc: Global) -> Result<Order, AllocError>
        ensures { IfOk result (λ o. o.calls ≡ self.now.calls) }
    {
        Ok(Order {
            calls: Vec::from_slice(alloc, self.calls())?,
        })
    }
}
