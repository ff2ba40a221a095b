// The calls that were put in order so far.

ghost use Rattle.std.specs.Prelude.{◌≡◌, ◌+◌, ◌<◌, ◌≤◌, false, [], length, insert, All, OnOk};
ghost use Rattle.tl_tree_locking.specs.Order.{stands};
ghost use Rattle.tl_serial_order.specs.Line.{Standing};

use crate::order::Order;
use std::alloc::{AllocError, Global};
use std::marker::Model;

/// The calls that were put in order so far. A contract sees their order, and how many calls there are.
#[derive(Drop)]
pub struct Line {
    order: Vec<u32>,
    // By call: whether it stands in the order.
    standing: Vec<bool>,
}

impl Model for Line {
    ghost use Rattle.std.specs.Prelude.{length};
    ghost use Rattle.tl_serial_order.specs.Line.{Standing, IsLine};

    ghost Value = { Standing };

    ghost view = { λ l. record { order = l.order.items; count = length l.standing.items } };

    ghost invariant = { λ l. IsLine l.order.items l.standing.items };
}

impl Line {
    /// An empty line.
    pub fn new(alloc: Global) -> Line
        ensures { result ≡ record { order = []; count = 0 } }
    {
        Line {
            order: Vec::new(alloc),
            standing: Vec::new(alloc),
        }
    }

    /// Adds one more call, which doesn't stand in the order.
    pub fn add(&mut self) -> Result<(), AllocError>
        ensures { OnOk result (self.new ≡ record self.old { count = self.old.count + 1 }) }
    {
        self.standing.push(false)?;
        Ok(())
    }

    /// The calls in order.
    pub fn calls(&self) -> &[u32]
        ensures same { result.now ≡ self.now.order }
        ensures known { All (λ c. c < self.now.count) self.now.order }
    {
        self.order.as_slice()
    }

    /// Whether the call stands in the order.
    pub fn stands(&self, call: u32) -> bool
        requires { call < self.now.count }
        ensures { result ≡ stands call self.now.order }
    {
        self.standing[call as usize]
    }

    /// Puts a call in at that place. The calls from there on move by one.
    pub fn put_in(&mut self, place: usize, call: u32) -> Result<(), AllocError>
        requires call { call < self.old.count }
        requires new { stands call self.old.order ≡ false }
        requires place { place ≤ length self.old.order }
        ensures { OnOk result (self.new ≡ record self.old { order = insert self.old.order place call }) }
    {
        self.order.insert(place, call)?;
        self.standing[call as usize] = true;
        Ok(())
    }

    /// The order.
    pub fn into_order(self) -> Order
        ensures { result.calls ≡ self.order }
    {
        Order::new(self.order)
    }
}
