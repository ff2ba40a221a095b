// What is asked of a server at its control, by another program.

use crate::copying::CopyRefusal;
use crate::stream::{Address, Stream};
use crate::volume::VolumeRefusal;
use crate::wish::{COPY, COPY_END, STATUS, STATUS_END, STOP, VOLUME, VOLUME_END};
use std::alloc::Global;
use std::io;
use std::io::{Read, Write};
use std::net::{Net, TcpListener, TcpStream};

/// The answer to the request to stop.
pub(crate) const STOPPING: &[u8] = b"{\"stopping\":true}\n";

// How the answer to the request for the status begins, and how many bytes it has at most: ten names, and ten numbers of at most 20 digits.
const STATUS_BEGIN: &str = "{\"epoch\":";

const MAX_STATUS: u64 = 512;

// How many bytes the answer to a request has at most: 256 names of 32 bytes, each with three numbers of at most 20 digits, have fewer.
const MAX_ANSWER: u64 = 65_536;

/// How the answer to the request for a copy begins, up to its name, and how it ends.
pub(crate) const COPIED: &str = "{\"snapshot\":\"";

pub(crate) const COPIED_END: &str = "\"}\n";

/// How the answer to the request for a new volume begins, up to its number, and how it ends.
pub(crate) const TURNED: &str = "{\"volume\":";

pub(crate) const TURNED_END: &str = "}\n";

// How a refusal begins, and how it ends.
const REFUSED: &str = "{\"error\":[";

const REFUSED_END: &str = "]}\n";

fn not_understood() -> io::Error {
    io::Error::from(io::ErrorKind::InvalidData)
}

/// Asks the server with this control port or socket to stop. An error if nobody is there, or another program.
pub fn ask_to_stop<R: Net<Listener = TcpListener, Stream = TcpStream>>(
    rt: &R,
    control: Address<'_>,
) -> io::Result<()> {
    let stream = Stream::connect(rt, control)?;
    let mut peer = &stream;
    peer.write_all(STOP)?;
    let mut answer = [0u8; 18];
    peer.read_exact(&mut answer)?;
    if answer.as_slice() == STOPPING {
        Ok(())
    } else {
        Err(not_understood())
    }
}

/// Asks the server with this control port or socket how far it is: a line of JSON, with its LF. An error if nobody is there, or another
/// program, or a server that doesn't say.
pub fn ask_status<R: Net<Listener = TcpListener, Stream = TcpStream>>(
    rt: &R,
    alloc: Global,
    control: Address<'_>,
) -> io::Result<String> {
    let stream = Stream::connect(rt, control)?;
    let mut peer = &stream;
    peer.write_all(STATUS)?;
    peer.write_all(STATUS_END)?;
    let line = io::read_to_string(alloc, peer.take(MAX_STATUS))?;
    if line.starts_with(STATUS_BEGIN) && line.ends_with('\n') {
        Ok(line)
    } else {
        Err(not_understood())
    }
}

/// Asks the server with this control port or socket to do what a line asks for, which has its LF: to register or replace procedures, to append
/// nodes, or to seal. The line of its answer, with its LF. An error if nobody is there, or another program.
pub fn ask_to_obey<R: Net<Listener = TcpListener, Stream = TcpStream>>(
    rt: &R,
    alloc: Global,
    control: Address<'_>,
    line: &str,
) -> io::Result<String> {
    let stream = Stream::connect(rt, control)?;
    let mut peer = &stream;
    peer.write_all(line.as_bytes())?;
    let answer = io::read_to_string(alloc, peer.take(MAX_ANSWER))?;
    if answer.starts_with('{') && answer.ends_with('\n') {
        Ok(answer)
    } else {
        Err(not_understood())
    }
}

// The number of a refusal, by the server's answer.
fn refusal_in(line: &str) -> Option<u64> {
    let number = line.strip_prefix(REFUSED)?.strip_suffix(REFUSED_END)?;
    number.parse().ok()
}

/// Asks the server with this control port or socket to copy what it stores into a file of that name, in the folder that it was given for copies. The
/// server's refusal if there is no such copy. An error if nobody is there, or another program.
pub fn ask_for_copy<R: Net<Listener = TcpListener, Stream = TcpStream>>(
    rt: &R,
    alloc: Global,
    control: Address<'_>,
    name: &str,
) -> io::Result<Result<(), CopyRefusal>> {
    let stream = Stream::connect(rt, control)?;
    let mut peer = &stream;
    peer.write_all(COPY)?;
    peer.write_all(COPY_END)?;
    peer.write_all(name.as_bytes())?;
    peer.write_all(b"\n")?;
    let line = io::read_to_string(alloc, peer.take(MAX_STATUS))?;
    if line.starts_with(COPIED) && line.ends_with(COPIED_END) {
        return Ok(Ok(()));
    }
    match refusal_in(line.as_str()).and_then(CopyRefusal::of_number) {
        Some(refusal) => Ok(Err(refusal)),
        None => Err(not_understood()),
    }
}

/// Asks the server with this control port or socket to go on in a new volume of its store: the number of the live one. The server's refusal if it
/// doesn't. An error if nobody is there, or another program.
pub fn ask_for_volume<R: Net<Listener = TcpListener, Stream = TcpStream>>(
    rt: &R,
    alloc: Global,
    control: Address<'_>,
) -> io::Result<Result<u64, VolumeRefusal>> {
    let stream = Stream::connect(rt, control)?;
    let mut peer = &stream;
    peer.write_all(VOLUME)?;
    peer.write_all(VOLUME_END)?;
    let line = io::read_to_string(alloc, peer.take(MAX_STATUS))?;
    if let Some(number) = turned_to(line.as_str()) {
        return Ok(Ok(number));
    }
    match refusal_in(line.as_str()).and_then(VolumeRefusal::of_number) {
        Some(refusal) => Ok(Err(refusal)),
        None => Err(not_understood()),
    }
}

// The number of the live volume, by the server's answer.
fn turned_to(line: &str) -> Option<u64> {
    let number = line.strip_prefix(TURNED)?.strip_suffix(TURNED_END)?;
    number.parse().ok()
}
