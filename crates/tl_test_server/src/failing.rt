//! Devices that fail at each place in turn.

use crate::device::{Failing, Written};
use crate::lines::{ANSWERS, BOUNDS, LINES, served, split_lines};
use std::alloc::Global;
use std::process::Abort;
use std::sync::Wait;
use std::test::Fail;
use std::thread::Threads;
use tl_server::{Bytes, ServeFault, serve};
use tl_test_data::ONE_NODE;
use tl_test_engines::with_one_session;
use tl_workers::{Engine, Session};

/// How many line ends the bytes have.
fn line_ends(text: &[u8]) -> usize {
    text.iter().filter(|byte| **byte == b'\n').count()
}

/// Serves the lines from a source that fails at the read after `reads` reads. Returns whether that read happened.
fn fails_at_a_read<R: Threads + Wait + Sync + Abort>(
    rt: &R,
    alloc: Global,
    piece: usize,
    reads: u32,
) -> Result<bool, Fail> {
    let mut source = Failing::new(LINES, piece, reads);
    let mut sink = Written::new(rt, alloc, 65_536, u32::MAX);
    let served = served(rt, alloc, &mut source, &mut sink)?;
    if served.is_ok() {
        return Ok(false);
    }
    assert_eq!(rt; served, Err(ServeFault::ReadFailed));
    // The lines that were read completely are answered.
    let (read, _) = LINES.split_at(LINES.len() - source.left.len().min(LINES.len()));
    let (answers, _) = split_lines(ANSWERS, line_ends(read));
    assert_eq!(rt; sink.text.as_slice(), answers);
    Ok(true)
}

#[test]
fn each_read_fails_in_turn(rt: HostRuntime) -> Result<(), Fail> {
    for piece in [7usize, 65_536] {
        let mut failed = 0usize;
        for reads in 0..1000u32 {
            if !fails_at_a_read(&rt, rt.alloc(), piece, reads)? {
                break;
            }
            failed = failed.saturating_add(1);
        }
        // Each read has failed once: those of the pieces, and the one that finds the end.
        assert_eq!(rt; failed, LINES.len().div_ceil(piece).saturating_add(1));
    }
    Ok(())
}

/// Writes the answers to a sink that fails at the write after `writes` writes. Returns how many bytes the sink took before, or None
/// if that write didn't happen.
fn fails_at_a_write<R: Threads + Wait + Sync + Abort>(
    rt: &R,
    alloc: Global,
    by_line: bool,
    taken: usize,
    writes: u32,
) -> Result<Option<usize>, Fail> {
    let mut source = all_lines(by_line);
    let mut sink = Written::new(rt, alloc, taken, writes);
    let served = served(rt, alloc, &mut source, &mut sink)?;
    if served.is_ok() {
        assert_eq!(rt; sink.text.as_slice(), ANSWERS);
        return Ok(None);
    }
    assert_eq!(rt; served, Err(ServeFault::WriteFailed));
    assert!(rt; ANSWERS.starts_with(sink.text.as_slice()));
    if by_line {
        // No line was read after the one whose answer was cut.
        let answered = line_ends(sink.text.as_slice());
        let (_, left) = split_lines(LINES, answered.saturating_add(1));
        assert_eq!(rt; source.left, left);
    }
    Ok(Some(sink.text.len()))
}

/// The lines: one at a time, so that each is answered before the next one is read, or all at once.
fn all_lines(by_line: bool) -> Failing<'static> {
    if by_line {
        Failing::by_line(LINES, u32::MAX)
    } else {
        Failing::new(LINES, LINES.len(), u32::MAX)
    }
}

/// Whether the lines come one at a time, and how many bytes of the answers are taken at a time.
const WRITES: [(bool, usize); 4] = [(false, 11), (false, 65_536), (true, 11), (true, 65_536)];

#[test]
fn each_write_fails_in_turn(rt: HostRuntime) -> Result<(), Fail> {
    for (by_line, taken) in WRITES {
        let mut before = 0usize;
        for writes in 0..1000u32 {
            let Some(now) = fails_at_a_write(&rt, rt.alloc(), by_line, taken, writes)? else {
                break;
            };
            // The sink took what it took in the run before, and one more piece.
            assert!(rt; writes == 0 || now > before);
            before = now;
        }
        // At most the last piece is missing.
        assert!(rt; ANSWERS.len().saturating_sub(before) <= taken);
    }
    Ok(())
}

/// A `register` and a call: the first answer is taken completely, and no byte of the second. Then another call.
fn loses_an_answer<R: Threads + Wait + Sync + Abort>(
    rt: &R,
    alloc: Global,
    engine: &Engine,
    session: &mut Session,
    source: &mut Failing<'_>,
) -> Result<(), Fail> {
    let mut sink = Written::new(rt, alloc, BOUNDS.len(), 1);
    let served = serve(rt, alloc, source, &mut sink, engine, session);
    assert_eq!(rt; served, Err(ServeFault::WriteFailed));
    assert_eq!(rt; sink.text.as_slice(), BOUNDS);
    let mut source = Bytes::new(
        b"{\"args\":[0,0],\"op\":\"call\",\"proc\":\"add\"}\n",
        65_536,
    );
    let mut sink = Written::new(rt, alloc, 65_536, u32::MAX);
    let served = serve(rt, alloc, &mut source, &mut sink, engine, session);
    assert_eq!(rt; served, Ok(1));
    assert_eq!(rt;
        sink.text.as_slice(),
        b"{\"call\":1,\"reply\":[8]}\n".as_slice()
    );
    Ok(())
}

#[test]
fn a_call_whose_answer_was_lost_is_done(rt: HostRuntime) -> Result<(), Fail> {
    let (lines, _) = split_lines(LINES, 2);
    for mut source in [
        Failing::by_line(lines, u32::MAX),
        Failing::new(lines, 65_536, u32::MAX),
    ] {
        with_one_session(
            &rt,
            rt.alloc(),
            ONE_NODE,
            &[],
            |engine, session| loses_an_answer(&rt, rt.alloc(), engine, session, &mut source),
            |_, _| Ok(()),
        )?;
    }
    Ok(())
}
