// For each node, a call or none.

ghost use Rattle.std.specs.Prelude.{◌≡◌, ◌^◌, ◌<◌, length, set, replicate, slice_index_or, None, Some, IfOk};

use std::alloc::{AllocError, Global};
use std::marker::Model;

/// The entry for no call. No call has that number.
pub const NO_CALL: u32 = u32::MAX;

/// For each node a call or none, in four bytes per entry. A contract sees the list of entries. Each call's number is below
/// the greatest of its type, which stands for none.
#[derive(Debug, Drop)]
pub struct Column {
    entries: Vec<u32>,
}

impl Model for Column {
    ghost use Rattle.std.specs.Prelude.{ℕ, List, Option, map};
    ghost use Rattle.tl_serial_order.specs.Column.{call_in};

    ghost Value = { List (Option ℕ) };

    ghost view = { λ c. map call_in c.entries.items };
}

impl Column {
    /// A column without calls, for `nodes` nodes.
    pub fn new(alloc: Global, nodes: usize) -> Result<Column, AllocError>
        ensures { IfOk result (λ c. c ≡ replicate nodes None) }
    {
        Ok(Column {
            entries: vec![in alloc; NO_CALL; nodes]?,
        })
    }

    /// The node's call. A proof learns here that every column has few enough entries to be counted.
    #[inline(always)]
    pub fn at(&self, node: u32) -> Option<u32>
        requires { node < length self.now }
        ensures call { result ≡ slice_index_or self.now node None }
        ensures few { length self.now < 2 ^ 63 }
    {
        match self.entries[node as usize] {
            NO_CALL => None,
            call => Some(call),
        }
    }

    /// The node has this call from now on.
    #[inline(always)]
    pub fn put(&mut self, node: u32, call: u32)
        requires node { node < length self.old }
        requires call { call < NO_CALL }
        ensures { self.new ≡ set self.old node (Some call) }
    {
        self.entries[node as usize] = call;
    }

    /// The node has no call from now on.
    #[inline(always)]
    pub fn clear(&mut self, node: u32)
        requires { node < length self.old }
        ensures { self.new ≡ set self.old node None }
    {
        self.entries[node as usize] = NO_CALL;
    }
}
