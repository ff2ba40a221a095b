//! A source and a sink in memory, which show their bytes and fail on request.

ghost use Rattle.std.specs.Prelude.{◌<◌, ◌≤◌, length};

use std::alloc::Global;
use std::process::Abort;
use tl_server::{Failure, Sink, Source};

/// A source whose bytes come at most `size` at a time, or a line at a time. One read fails: the one after `reads` reads.
#[derive(Drop)]
pub struct Failing<'a> {
    pub left: &'a [u8],
    size: usize,
    by_line: bool,
    reads: u32,
    has_failed: bool,
    ghost some: { 0 < size },
}

impl<'a> Failing<'a> {
    /// In pieces of at most `size` bytes, and at least one.
    pub fn new(bytes: &'a [u8], size: usize, reads: u32) -> Failing<'a> {
        Failing {
            left: bytes,
            size: size.max(1),
            by_line: false,
            reads,
            has_failed: false,
        }
    }

    /// One line at a time, with its LF.
    pub fn by_line(bytes: &'a [u8], reads: u32) -> Failing<'a> {
        Failing {
            left: bytes,
            size: usize::MAX,
            by_line: true,
            reads,
            has_failed: false,
        }
    }

    // How many bytes come next.
    fn next(&self) -> usize
        ensures within { result ≤ length self.now.left.now }
        ensures some { 0 < length self.now.left.now → 0 < result }
    {
        let line = if self.by_line {
            first_line(self.left)
        } else {
            self.left.len()
        };
        self.size.min(line)
    }
}

/// The length of the first line of a text in bytes, with its LF.
pub fn first_line(text: &[u8]) -> usize
    ensures within { result ≤ length text.now }
    ensures some { 0 < length text.now → 0 < result }
{
    for (at, byte) in text.iter().enumerate() {
        if *byte == b'\n' {
            return at + 1;
        }
    }
    text.len()
}

impl<'a> Source for Failing<'a> {
    ghost use Rattle.std.specs.Prelude.{Some, if◌then◌else◌};

    ghost input = { λ s. Some s.left.now };

    ghost failures = { λ s. if s.has_failed then 1 else 0 };

    fn read(&mut self, buffer: &mut [u8]) -> Result<usize, Failure> {
        if self.reads == 0 && !self.has_failed {
            self.has_failed = true;
            return Err(Failure);
        }
        self.reads = self.reads.saturating_sub(1);
        let count = self.next().min(buffer.len());
        let (now, later) = self.left.split_at(count);
        buffer[..count].copy_from_slice(now);
        self.left = later;
        Ok(count)
    }
}

/// A sink that keeps what was written. It takes at most `size` bytes at a time, and at least one. One write fails: the one after
/// `writes` writes.
#[derive(Drop)]
pub struct Written<'a, R> {
    rt: &'a R,
    pub text: Vec<u8>,
    size: usize,
    writes: u32,
    has_failed: bool,
}

impl<'a, R: Abort> Written<'a, R> {
    pub fn new(rt: &'a R, alloc: Global, size: usize, writes: u32) -> Written<'a, R> {
        Written {
            rt,
            text: Vec::new(alloc),
            size,
            writes,
            has_failed: false,
        }
    }
}

impl<'a, R: Abort> Sink for Written<'a, R> {
    ghost use Rattle.std.specs.Prelude.{Some, if◌then◌else◌};

    ghost output = { λ s. Some s.text.items };

    ghost failures = { λ s. if s.has_failed then 1 else 0 };

    fn write(&mut self, text: &[u8]) -> Result<usize, Failure> {
        if self.writes == 0 && !self.has_failed {
            self.has_failed = true;
            return Err(Failure);
        }
        self.writes = self.writes.saturating_sub(1);
        let count = self.size.min(text.len()).max(1);
        self.text
            .extend_from_slice(&text[..count])
            .expect(self.rt, "memory for what is written");
        Ok(count)
    }
}
