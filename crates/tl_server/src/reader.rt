// Lines out of pieces of any size.

ghost use Rattle.std.specs.Prelude.{◌≡◌, ◌≤◌, ◌<◌, ◌+◌, ℕ, List, [], ◌∷◌, ◌++◌, length, Some, IfOk, OnOk, OnErr, true, false};
ghost use Rattle.tl_server.specs.Lines.{HasNoLf};
ghost use Rattle.tl_server.specs.Devices.{Gives, HasEnded};
ghost use Rattle.tl_server.specs.Coming.{Scans, Comes, Breaks};

use crate::device::{Failure, Source};
use std::alloc::{AllocError, Global};
use std::marker::Model;
use std::sync::Wait;

// How many bytes are asked for at a time.
const PIECE: usize = 16_384;

// How many bytes of a line are kept: one more than a line may have.
const HELD: usize = 65_537;

/// What came next: a line with its LF, the rest of the input without one, or nothing more.
#[derive(Clone, Copy, PartialEq, Eq, Debug)]
pub(crate) enum Came {
    Whole,
    Rest,
    End,
}

/// The piece that was read last, and the line so far. Only the first 65,537 bytes are kept of a line that is too long.
#[derive(Debug, Drop)]
pub(crate) struct Reader {
    piece: Vec<u8>,
    at: usize,
    end: usize,
    held: Vec<u8>,
}

impl Model for Reader {
    ghost use Rattle.std.specs.Prelude.{◌≡◌, ◌≤◌, ◌<◌, ℕ, List, take, drop, vec_len, vec_capacity};
    ghost use Rattle.tl_server.specs.Coming.{ReaderValue};

    ghost Value = { ReaderValue };

    ghost view = { λ r. record { left = drop r.at (take r.end r.piece.items); held = r.held.items } };

    ghost invariant = { λ r. (r.at ≤ r.end) × (r.end ≤ vec_len r.piece) × (0 < vec_len r.piece) × (65537 ≤ vec_capacity r.held) × (vec_len r.held ≤ 65537) };
}

impl Reader {
    pub(crate) fn new(alloc: Global) -> Result<Reader, AllocError>
        ensures { IfOk result (λ r. r.left ≡ []) }
    {
        let piece = Vec::from_elem(alloc, 0, PIECE)?;
        let held = Vec::with_capacity(alloc, HELD)?;
        Ok(Reader {
            piece,
            at: 0,
            end: 0,
            held,
        })
    }

    /// The line that came last, or its first 65,537 bytes.
    pub(crate) fn line(&self) -> &[u8]
        ensures { result.now ≡ self.now.held }
    {
        self.held.as_slice()
    }

    /// Whether the piece has a whole line, so that the next one comes without a read.
    pub(crate) fn has_line(&self) -> bool
        ensures { HasNoLf self.now.left → result ≡ false }
    {
        self.piece[self.at..self.end].contains(&b'\n')
    }

    // Looks at the bytes of the piece up to the next LF. True if there was one; then the line is whole.
    fn scan(&mut self) -> bool
        ensures { Scans self.old result self.new }
    {
        let end = self.end;
        while self.at < end {
            let byte = self.piece[self.at];
            self.at += 1;
            if byte == b'\n' {
                return true;
            }
            if self.held.len() < HELD {
                self.held.push_reserved(byte);
            }
        }
        false
    }

    // Reads the next piece. False at the end of input.
    fn refill<S: Source>(&mut self, source: &mut S) -> Result<bool, Failure>
        ensures same { self.new.held ≡ self.old.held }
        ensures ok { IfOk result (λ more. Gives (S.input source.old) self.new.left (S.input source.new)) }
        ensures end { result ≡ Ok false → HasEnded (S.input source.old) }
        ensures fine { OnOk result (S.failures source.new ≡ S.failures source.old) }
        ensures failed { OnErr result ((S.failures source.new ≡ S.failures source.old + 1) × (S.input source.new ≡ S.input source.old)) }
    {
        self.at = 0;
        self.end = 0;
        let count = source.read(self.piece.as_mut_slice())?;
        self.end = count;
        Ok(count > 0)
    }

    // Whether a line has begun.
    fn is_begun(&self) -> bool
        ensures some { result ≡ true → 0 < length self.now.held }
        ensures none { result ≡ false → self.now.held ≡ [] }
    {
        !self.held.is_empty()
    }

    // Drops the last line.
    fn forget(&mut self)
        ensures { (self.new.left ≡ self.old.left) × (self.new.held ≡ []) }
    {
        self.held.clear();
    }

    /// Drops the last line, and goes to the next one. Reads only if the piece has no whole line.
    pub(crate) fn next<R: Wait, S: Source>(
        &mut self,
        rt: &R,
        source: &mut S,
    ) -> Result<Came, Failure>
        ensures came { IfOk result (λ came. (unread : List ℕ) → S.input source.old ≡ Some unread → Comes (self.old.left ++ unread) came self.new (S.input source.new)) }
        ensures fine { OnOk result (S.failures source.new ≡ S.failures source.old) }
        ensures breaks { OnErr result ((unread : List ℕ) → S.input source.old ≡ Some unread → Breaks (self.old.left ++ unread) (S.input source.new)) }
        ensures none { OnErr result (HasNoLf self.old.left) }
        ensures failed { OnErr result (S.failures source.new ≡ S.failures source.old + 1) }
    {
        self.forget();
        for _ in rt.forever() {
            if self.scan() {
                return Ok(Came::Whole);
            }
            match self.refill(source) {
                Err(Failure) => return Err(Failure),
                Ok(true) => {}
                Ok(false) => {
                    if self.is_begun() {
                        return Ok(Came::Rest);
                    }
                    return Ok(Came::End);
                }
            }
        }
        unreachable!()
    }
}
