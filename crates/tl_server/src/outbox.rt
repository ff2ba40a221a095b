// Answers on their way to a sink.

ghost use Rattle.std.specs.Prelude.{◌≡◌, ◌≤◌, ◌+◌, [], ◌++◌, length, false, IfOk};
ghost use Rattle.tl_server.specs.Sending.{Writes, Puts};

use crate::device::{Sink, write_all};
use std::alloc::{AllocError, Global};
use std::marker::Model;

// How many bytes are gathered at most.
const ROOM: usize = 16_384;

/// Gathers answers, so that they reach a sink in few writes. After a failed write it drops everything.
///
/// A contract sees what is gathered, and whether a write has failed.
#[derive(Debug, Drop)]
pub(crate) struct Outbox {
    text: Vec<u8>,
    failed: bool,
}

impl Model for Outbox {
    ghost use Rattle.std.specs.Prelude.{◌≤◌, vec_len, vec_capacity};
    ghost use Rattle.tl_server.specs.Sending.{OutboxValue};

    ghost Value = { OutboxValue };

    ghost view = { λ o. record { kept = o.text.items; failed = o.failed } };

    ghost invariant = { λ o. (vec_len o.text ≤ 16384) × (16384 ≤ vec_capacity o.text) };
}

impl Outbox {
    pub(crate) fn new(alloc: Global) -> Result<Outbox, AllocError>
        ensures { IfOk result (λ o. (o.kept ≡ []) × (o.failed ≡ false)) }
    {
        Ok(Outbox {
            text: Vec::with_capacity(alloc, ROOM)?,
            failed: false,
        })
    }

    /// Drops everything, for use with another sink.
    pub(crate) fn renew(&mut self)
        ensures { (self.new.kept ≡ []) × (self.new.failed ≡ false) }
    {
        self.text.clear();
        self.failed = false;
    }

    /// Whether a write has failed.
    pub(crate) fn has_failed(&self) -> bool
        ensures { result ≡ self.now.failed }
    {
        self.failed
    }

    // How many more bytes there is room for.
    fn room(&self) -> usize
        ensures { result + length self.now.kept ≡ ROOM }
    {
        ROOM - self.text.len()
    }

    // Gathers a text for which there is room.
    fn keep(&mut self, text: &[u8])
        requires { length text.now + length self.old.kept ≤ ROOM }
        ensures { (self.new.kept ≡ self.old.kept ++ text.now) × (self.new.failed ≡ self.old.failed) }
    {
        let Ok(()) = self.text.extend_from_slice(text) else {
            unreachable!()
        };
    }

    // Writes a text at once, when nothing is gathered.
    fn send<K: Sink>(&mut self, sink: &mut K, text: &[u8])
        requires { self.old.kept ≡ [] }
        ensures { Puts K.output K.failures sink.old self.old sink.new self.new text.now }
    {
        if self.failed {
            return;
        }
        self.failed = write_all(sink, text).is_err();
    }

    /// Writes what is gathered.
    pub(crate) fn flush<K: Sink>(&mut self, sink: &mut K)
        ensures writes { Puts K.output K.failures sink.old self.old sink.new self.new [] }
        ensures none { self.new.kept ≡ [] }
    {
        if self.failed {
            self.text.clear();
            return;
        }
        self.failed = write_all(sink, self.text.as_slice()).is_err();
        self.text.clear();
    }

    /// Hands a text over.
    pub(crate) fn put<K: Sink>(&mut self, sink: &mut K, text: &[u8])
        ensures { Puts K.output K.failures sink.old self.old sink.new self.new text.now }
    {
        if text.len() <= self.room() {
            self.keep(text);
            return;
        }
        self.flush(sink);
        if text.len() <= ROOM {
            self.keep(text);
        } else {
            self.send(sink, text);
        }
    }
}
