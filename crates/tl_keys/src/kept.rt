// What came of a call that had a key.

ghost use Rattle.std.specs.Prelude.{◌≡◌, IfOk};

use std::alloc::{AllocError, Global};
use std::marker::Model;

/// What came of a call that had a key: its epoch and its own number there, as a store counts them, and its reply.
///
/// A contract sees these three.
#[derive(Debug, Drop)]
pub struct Kept {
    epoch: i64,
    call: i64,
    reply: Vec<i64>,
}

impl Model for Kept {
    ghost use Rattle.tl_keys.specs.Kept.{KeptValue};

    ghost Value = { KeptValue };

    ghost view = { λ k. record { epoch = k.epoch; call = k.call; reply = k.reply.items } };
}

impl Kept {
    /// Of the call with that number in that epoch, which has this reply.
    pub fn new(alloc: Global, epoch: i64, call: i64, reply: &[i64]) -> Result<Kept, AllocError>
        ensures { IfOk result (λ k. k ≡ record { epoch = epoch; call = call; reply = reply.now }) }
    {
        let reply = Vec::from_slice(alloc, reply)?;
        Ok(Kept { epoch, call, reply })
    }

    /// The number of its epoch.
    pub fn epoch(&self) -> i64
        ensures { result ≡ self.now.epoch }
    {
        self.epoch
    }

    /// Its number in its epoch.
    pub fn call(&self) -> i64
        ensures { result ≡ self.now.call }
    {
        self.call
    }

    /// The values that it emitted, in their order.
    pub fn reply(&self) -> &[i64]
        ensures { result.now ≡ self.now.reply }
    {
        self.reply.as_slice()
    }

    /// A copy.
    pub fn copy(&self, alloc: Global) -> Result<Kept, AllocError>
        ensures { IfOk result (λ k. k ≡ self.now) }
    {
        Kept::new(alloc, self.epoch, self.call, self.reply.as_slice())
    }
}
