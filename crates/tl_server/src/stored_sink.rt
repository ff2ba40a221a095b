// A sink that is written to only once what was done is stored.

ghost use Rattle.std.specs.Prelude.{◌≡◌, ◌+◌};

use crate::device::{Failure, Sink};
use crate::keeper::Keeper;
use crate::relay::Relay;
use crate::storage::Storage;
use crate::texts::Texts;
use std::alloc::Global;
use std::sync::Wait;

// One more than a count. No run counts to the end of the numbers.
fn one_more(rt: &impl Wait, count: u64) -> u64
    ensures { result ≡ count + 1 }
{
    for _ in rt.forever() {
        if let Some(more) = count.checked_add(1) {
            return more;
        }
    }
    unreachable!()
}

/// A sink to which nothing is written before all that the relay's engines did up to then is stored. Where that isn't stored, a write fails,
/// and not a byte leaves.
#[derive(Drop)]
pub struct StoredSink<'a, R, K, J, S> {
    rt: &'a R,
    alloc: Global,
    relay: &'a Relay<K, J>,
    sink: S,
    // How often something wasn't stored.
    failed: u64,
}

impl<'a, R: Wait, K: Keeper + Texts, J: Storage, S: Sink> StoredSink<'a, R, K, J, S> {
    /// Writes to this sink.
    pub fn new(
        rt: &'a R,
        alloc: Global,
        relay: &'a Relay<K, J>,
        sink: S,
    ) -> StoredSink<'a, R, K, J, S> {
        StoredSink {
            rt,
            alloc,
            relay,
            sink,
            failed: 0,
        }
    }

    /// Whether a write has failed because something wasn't stored.
    pub fn has_failed(&self) -> bool {
        self.failed > 0
    }
}

impl<'a, R: Wait, K: Keeper + Texts, J: Storage, S: Sink> Sink for StoredSink<'a, R, K, J, S> {
    ghost use Rattle.std.specs.Prelude.{◌+◌};

    ghost output = { λ s. S.output s.sink };

    ghost failures = { λ s. S.failures s.sink + s.failed };

    fn write(&mut self, text: &[u8]) -> Result<usize, Failure> {
        if self.relay.settle(self.rt, self.alloc).is_err() {
            self.failed = one_more(self.rt, self.failed);
            return Err(Failure);
        }
        self.sink.write(text)
    }
}
