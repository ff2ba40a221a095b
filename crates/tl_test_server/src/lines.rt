//! Lines and their answers.

use crate::device::{Failing, Written, first_line};
use std::alloc::Global;
use std::process::Abort;
use std::sync::Wait;
use std::test::Fail;
use std::thread::Threads;
use tl_server::{Bytes, ServeFault, Sink, Source, serve};
use tl_test_data::ONE_NODE;
use tl_test_engines::with_one_session;

/// A `register`, calls, refused lines, a batch, and a `close` without an LF.
pub const LINES: &[u8] =
    b"{\"asm\":\"arity 2\\nfirst n0 v0 else L6\\nget v2 n0 0\\nadd v2 v2 v1 else L4\\nput n0 0 v2\\nL4:\\nemit v2\\nrel n0\\nL6:\\nret\",\"name\":\"add\",\"op\":\"register\"}\n{\"args\":[0,3],\"op\":\"call\",\"proc\":\"add\"}\n{\"args\":[0,0],\"op\":\"call\",\"proc\":\"add\"}\n{\"args\":[0,0],\"op\":\"call\",\"proc\":\"nosuch\"}\n{\"asm\":\"arity 2\\nfirst n0 v0 else L6\\nget v2 n0 0\\nadd v2 v2 v1 else L4\\nput n0 0 v2\\nL4:\\nemit v2\\nrel n0\\nL6:\\nret\",\"name\":\"add\",\"op\":\"register\"}\nhello\n{\"calls\":[[\"add\",[0,1]],[\"add\",[0]]],\"op\":\"batch\",\"workers\":1}\n{\"op\":\"close\"}";

/// Their answers, on a node whose field 0 is 5.
pub const ANSWERS: &[u8] =
    b"{\"bounds\":{\"emits\":1,\"locks\":1,\"steps\":7}}\n{\"call\":0,\"reply\":[8]}\n{\"call\":1,\"reply\":[8]}\n{\"error\":[601]}\n{\"error\":[611]}\n{\"error\":[901]}\n{\"batch\":[{\"call\":2,\"reply\":[9]},{\"error\":[501]}]}\n{\"closed\":true}\n";

/// The answer to the first line.
pub const BOUNDS: &[u8] = b"{\"bounds\":{\"emits\":1,\"locks\":1,\"steps\":7}}\n";

/// The first `count` lines of a text, each with its LF, and the rest.
pub fn split_lines(text: &[u8], count: usize) -> (&[u8], &[u8]) {
    let mut left = text;
    for _ in 0..count {
        let (_, later) = left.split_at(first_line(left));
        left = later;
    }
    text.split_at(text.len().saturating_sub(left.len()))
}

/// Serves the lines of the source on a new engine, in one session. Then the engine closes with that session.
pub fn served<R: Threads + Wait + Sync, S: Source, K: Sink>(
    rt: &R,
    alloc: Global,
    source: &mut S,
    sink: &mut K,
) -> Result<Result<u64, ServeFault>, Fail> {
    with_one_session(
        rt,
        alloc,
        ONE_NODE,
        &[],
        |engine, session| Ok(serve(rt, alloc, source, sink, engine, session)),
        |served, _| Ok(served),
    )
}

/// How many bytes of the lines come at a time, and how many bytes of the answers are taken at a time.
const PIECES: [(usize, usize); 8] = [
    (1, 1),
    (1, 65_536),
    (2, 1),
    (2, 65_536),
    (7, 1),
    (7, 65_536),
    (65_536, 1),
    (65_536, 65_536),
];

#[test]
fn lines_in_pieces(rt: HostRuntime) -> Result<(), Fail> {
    for (piece, taken) in PIECES {
        let mut source = Bytes::new(LINES, piece.max(1));
        let mut sink = Written::new(&rt, rt.alloc(), taken, u32::MAX);
        let served = served(&rt, rt.alloc(), &mut source, &mut sink)?;
        assert_eq!(rt; sink.text.as_slice(), ANSWERS, "{piece}, {taken}");
        assert_eq!(rt; served, Ok(8));
    }
    Ok(())
}

/// How many bytes `x` come first, and the bytes after them; the answers, and their number.
const LONG: [(usize, &[u8], &[u8], u64); 5] = [
    (65_536, b"", b"{\"error\":[901]}\n", 1),
    (65_537, b"", b"{\"error\":[902]}\n", 1),
    (65_536, b"\n", b"{\"error\":[901]}\n", 1),
    (65_537, b"\n", b"{\"error\":[902]}\n", 1),
    (
        70_000,
        b"\n\xff\n\n{\"op\":\"close\"}\nhello\n",
        b"{\"error\":[902]}\n{\"error\":[903]}\n{\"error\":[901]}\n{\"closed\":true}\n",
        4,
    ),
];

/// Serves these lines, and checks the answers and their number.
fn answered<R: Threads + Wait + Sync + Abort>(
    rt: &R,
    alloc: Global,
    lines: &[u8],
    answers: &[u8],
    count: u64,
) -> Result<(), Fail> {
    let mut source = Failing::new(lines, 1000, u32::MAX);
    let mut sink = Written::new(rt, alloc, 100, u32::MAX);
    let served = served(rt, alloc, &mut source, &mut sink)?;
    assert_eq!(rt; sink.text.as_slice(), answers);
    assert_eq!(rt; served, Ok(count));
    Ok(())
}

#[test]
fn long_lines_and_other_bytes(rt: HostRuntime) -> Result<(), Fail> {
    for (long, more, answers, count) in LONG {
        let mut lines = vec![in rt.alloc(); b'x'; long]?;
        lines.extend_from_slice(more)?;
        answered(&rt, rt.alloc(), lines.as_slice(), answers, count)?;
    }
    Ok(())
}
