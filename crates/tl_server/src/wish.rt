// What a peer of the control asks for.

use crate::request::MAX_LINE;
use crate::stream::Stream;
use arrayvec::ArrayVec;
use std::alloc::{AllocError, Global};
use std::io::Read;
use std::time::{Clock, Duration, Instant};

/// The request to stop.
pub(crate) const STOP: &[u8] = b"stop\n";

/// The request to say how far the server is: as many bytes as the request to stop has, and the others.
pub(crate) const STATUS: &[u8] = b"statu";

pub(crate) const STATUS_END: &[u8] = b"s\n";

/// The request to copy what is stored, up to the copy's name, which an LF ends.
pub(crate) const COPY: &[u8] = b"snaps";

pub(crate) const COPY_END: &[u8] = b"hot ";

/// The request to go on in a new volume.
pub(crate) const VOLUME: &[u8] = b"volum";

pub(crate) const VOLUME_END: &[u8] = b"e\n";

/// How many bytes of a copy's name are kept. No copy has so long a name.
const MAX_NAME: usize = 128;

// How many bytes of a copy's line are read. Those that are left in the end would end the connection before the peer has its answer.
const MAX_NAME_LINE: usize = 4_096;

// How many seconds a peer may be silent, and how many it has for its line.
const PATIENCE: u64 = 1;

const LONGEST: u64 = 10;

/// What a peer of the control asks for.
#[derive(Debug, Drop)]
pub(crate) enum Wish {
    Stop,
    Status,
    /// A new volume.
    Volume,
    /// A copy of this name.
    Copy(ArrayVec<u8, MAX_NAME>),
    /// What this line asks for, as one of a client's connection.
    Request(Vec<u8>),
    Other,
}

// What a peer sends, byte by byte.
#[derive(Drop)]
struct Peer<'a, R> {
    rt: &'a R,
    stream: &'a Stream,
    began: Instant,
}

impl<R: Clock> Peer<'_, R> {
    // The next byte; none where the peer is silent for too long or has used up its time.
    fn byte(&self) -> Option<u8> {
        let spent = self.began.elapsed(self.rt).ok()?;
        if spent >= Duration::from_secs(LONGEST) {
            return None;
        }
        let mut stream = self.stream;
        let mut next = [0u8; 1];
        stream.read_exact(&mut next).ok()?;
        Some(next[0])
    }

    // The first bytes.
    fn head(&self) -> Option<[u8; 5]> {
        let mut head = [0u8; 5];
        for place in head.iter_mut() {
            *place = self.byte()?;
        }
        Some(head)
    }

    // Whether these bytes come next.
    fn comes(&self, wanted: &[u8]) -> bool {
        for byte in wanted {
            if self.byte() != Some(*byte) {
                return false;
            }
        }
        true
    }

    // The rest of the line, of which no more is kept than a name has.
    fn name(&self) -> Option<ArrayVec<u8, MAX_NAME>> {
        let mut name = ArrayVec::new();
        for _ in 0..MAX_NAME_LINE {
            let byte = self.byte()?;
            if byte == b'\n' {
                break;
            }
            let _kept = name.try_push(byte);
        }
        Some(name)
    }

    // A line that begins so, without its LF, or one byte more of it than a line may have.
    fn line(&self, alloc: Global, head: &[u8]) -> Result<Wish, AllocError> {
        let mut line = Vec::new(alloc);
        line.extend_from_slice(head)?;
        for _ in line.len()..MAX_LINE + 1 {
            match self.byte() {
                None => return Ok(Wish::Other),
                Some(b'\n') => break,
                Some(byte) => line.push(byte)?,
            }
        }
        Ok(Wish::Request(line))
    }
}

/// What the peer asks for. A peer that is silent, or takes more than ten seconds for its line, asks for something else.
pub(crate) fn wish_of<R: Clock>(
    rt: &R,
    alloc: Global,
    stream: &Stream,
) -> Result<Wish, AllocError> {
    let Ok(began) = Instant::now(rt) else {
        return Ok(Wish::Other);
    };
    if stream
        .set_read_timeout(Some(Duration::from_secs(PATIENCE)))
        .is_err()
    {
        return Ok(Wish::Other);
    }
    let peer = Peer { rt, stream, began };
    let Some(head) = peer.head() else {
        return Ok(Wish::Other);
    };
    if head.as_slice() == STOP {
        return Ok(Wish::Stop);
    }
    if head.as_slice() == STATUS && peer.comes(STATUS_END) {
        return Ok(Wish::Status);
    }
    if head.as_slice() == VOLUME && peer.comes(VOLUME_END) {
        return Ok(Wish::Volume);
    }
    if head.as_slice() == COPY && peer.comes(COPY_END) {
        return Ok(match peer.name() {
            Some(name) => Wish::Copy(name),
            None => Wish::Other,
        });
    }
    if head[0] == b'{' {
        return peer.line(alloc, head.as_slice());
    }
    Ok(Wish::Other)
}
