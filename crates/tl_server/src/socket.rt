// Lines and answers over a connection.

use crate::device::{Failure, Sink, Source};
use crate::stream::Stream;
use std::io::{ErrorKind, Read, Write};
use std::sync::atomic::{AtomicBool, Ordering};

// How often a read is tried that a signal has interrupted, as one that lets a stopped process go on.
const TRIES: u32 = 1_000;

/// The requests of a connection. Contracts know nothing of its bytes.
#[derive(Drop)]
pub struct SocketSource<'a> {
    stream: &'a Stream,
    // Once this is set, the input ends.
    is_ending: Option<&'a AtomicBool>,
    failed: u64,
}

impl<'a> SocketSource<'a> {
    /// A source of all that the peer sends.
    pub fn new(stream: &'a Stream) -> SocketSource<'a> {
        SocketSource {
            stream,
            is_ending: None,
            failed: 0,
        }
    }

    /// A source of all that the peer sends until the flag is set.
    pub fn until(stream: &'a Stream, is_ending: &'a AtomicBool) -> SocketSource<'a> {
        SocketSource {
            stream,
            is_ending: Some(is_ending),
            failed: 0,
        }
    }
}

impl<'a> Source for SocketSource<'a> {
    ghost use Rattle.std.specs.Prelude.{None};

    ghost input = { λ _. None };

    ghost failures = { λ s. s.failed };

    fn read(&mut self, buffer: &mut [u8]) -> Result<usize, Failure> {
        if let Some(flag) = self.is_ending {
            if flag.load(Ordering::SeqCst) {
                return Ok(0);
            }
        }
        for _ in 0..TRIES {
            let mut stream = self.stream;
            match stream.read(buffer) {
                Ok(count) => return Ok(count),
                Err(fault) => if fault.kind() != ErrorKind::Interrupted {
                    break;
                },
            }
        }
        // If the count can't rise, the input ends instead. No run counts this far.
        let Some(failed) = self.failed.checked_add(1) else {
            return Ok(0);
        };
        self.failed = failed;
        Err(Failure)
    }
}

/// The sink for the answers of a connection. Contracts know nothing of its bytes.
#[derive(Drop)]
pub struct SocketSink<'a> {
    stream: &'a Stream,
    failed: u64,
}

impl<'a> SocketSink<'a> {
    pub fn new(stream: &'a Stream) -> SocketSink<'a> {
        SocketSink { stream, failed: 0 }
    }
}

impl<'a> Sink for SocketSink<'a> {
    ghost use Rattle.std.specs.Prelude.{None};

    ghost output = { λ _. None };

    ghost failures = { λ s. s.failed };

    // A write of no bytes is a failure too.
    fn write(&mut self, text: &[u8]) -> Result<usize, Failure> {
        let mut stream = self.stream;
        if let Ok(count) = stream.write(text) {
            if count > 0 {
                return Ok(count);
            }
        }
        // If the count can't rise, the bytes are dropped instead. No run counts this far.
        let Some(failed) = self.failed.checked_add(1) else {
            return Ok(text.len());
        };
        self.failed = failed;
        Err(Failure)
    }
}
