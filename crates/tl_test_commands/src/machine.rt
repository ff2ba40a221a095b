//! Turns and segments, which no command shows.

use crate::texts::{LOOK, procedure_of};
use std::alloc::{AllocError, Global};
use std::process::Abort;
use std::sync::Arc;
use std::test::Fail;
use tl_machine::{Stop, Turn, Want, local};
use tl_tree::{Shape, USUAL_NODES};

/// A call that looks at this node of a root with two children, at its start.
fn turn_at(alloc: Global, node: i64) -> Result<Turn, Fail> {
    let procedure = Arc::new(alloc, procedure_of(alloc, LOOK)?)?;
    let shape = Arc::new(alloc, Shape::new(alloc, &[0, 0, 0], USUAL_NODES)?)?;
    Ok(Turn::start(procedure, shape, &[node])?)
}

/// What a call wants each time, and what it gives, one per line; and the number of steps.
const WANTS: &str =
    "Stop(Lock(2))\nLocal\nLocal\nStop(Free(2))\n[20, 0, 0, 0, 0, 0, 0, 0]\nStop(Return)\n[20] true\nStop(Over)\n5\n";

fn drive(rt: &(impl Abort + AllocGlobal), turn: &mut Turn) -> Result<(), Fail> {
    let alloc = rt.alloc();
    let mut text = String::new(alloc);
    for _ in 0..6 {
        let want = turn.want();
        text.push_str(&format!(in alloc; "{want:?}\n")?)?;
        match want {
            Want::Local => {
                turn.step();
            }
            Want::Stop(Stop::Lock(_)) => turn.lock([20, 0, 0, 0, 0, 0, 0, 0]),
            Want::Stop(Stop::Free(_)) => {
                let left = turn.free();
                text.push_str(&format!(in alloc; "{left:?}\n")?)?;
            }
            Want::Stop(Stop::Return) => {
                let reply = turn.finish();
                let is_same = reply.copy() == reply;
                let values = reply.values();
                text.push_str(&format!(in alloc; "{values:?} {is_same}\n")?)?;
            }
            Want::Stop(Stop::Over) => {}
        }
    }
    let steps = turn.call().steps;
    text.push_str(&format!(in alloc; "{steps}\n")?)?;
    assert_eq!(rt; text.as_str(), WANTS);
    Ok(())
}

#[test]
fn a_turn_is_driven_by_what_it_wants(rt: HostRuntime) -> Result<(), Fail> {
    let mut turn = turn_at(rt.alloc(), 2)?;
    drive(&rt, &mut turn)
}

/// How many steps are done at the beginning of a segment and at its end, and where the segment stops.
fn segment(turn: Turn) -> (u32, u32, Stop) {
    let segment = local(turn);
    let from = segment.from().call().steps;
    (from, segment.to().steps, segment.stop())
}

/// The same, from the segment's parts.
fn parts(turn: Turn) -> (u32, u32, Stop) {
    let (from, to, stop) = local(turn).into_parts();
    (from.call().steps, to.steps, stop)
}

/// The same, from the segment as it is lent.
fn lent_segment(turn: Turn) -> (u32, u32, Stop) {
    let segment = local(turn);
    let from = segment.from().call().steps;
    let stop = segment.stop();
    let (lent, _shape) = segment.into_lent();
    (from, lent.to().steps, stop)
}

/// The same, for a call that is lent at its turn; the stop is that of the turn, which runs on by itself. The first number is 9 if
/// the lent call doesn't begin at the turn.
fn lent(mut turn: Turn) -> Result<(u32, u32, Stop), AllocError> {
    let mut lent = turn.lend()?;
    let from = if lent.is_from(&turn) {
        turn.call().steps
    } else {
        9
    };
    lent.run_local();
    let stop = turn.run_local();
    Ok((from, lent.to().steps, stop))
}

#[test]
fn a_segment_is_what_a_call_does_by_itself(rt: HostRuntime) -> Result<(), Fail> {
    let alloc = rt.alloc();
    let found = [
        segment(turn_at(alloc, -1)?),
        parts(turn_at(alloc, -1)?),
        lent_segment(turn_at(alloc, -1)?),
        lent(turn_at(alloc, -1)?)?,
        lent(turn_at(alloc, 0)?)?,
    ];
    let expected = [
        (0, 1, Stop::Return),
        (0, 1, Stop::Return),
        (0, 1, Stop::Return),
        (0, 1, Stop::Return),
        (0, 0, Stop::Lock(0)),
    ];
    assert_eq!(rt; found, expected);
    Ok(())
}

/// Whether a kept turn is at the beginning of a segment, whether it is at its end, and whether it is there once it has run on too.
fn go_on(kept: &mut Turn) -> Result<[bool; 3], AllocError> {
    let segment = local(kept.try_clone()?);
    let is_begin = kept.is(segment.from());
    let end = segment.into_turn();
    let is_end = kept.is(&end);
    kept.run_local();
    Ok([is_begin, is_end, kept.is(&end)])
}

#[test]
fn a_kept_turn_goes_on_to_the_end_of_a_segment(rt: HostRuntime) -> Result<(), Fail> {
    let mut kept = turn_at(rt.alloc(), -1)?;
    let found = go_on(&mut kept);
    assert_eq!(rt; found.ok(), Some([true, false, true]));
    assert_eq!(rt; kept.want(), Want::Stop(Stop::Return));
    Ok(())
}

/// What a turn wants if it is over from the start.
fn over(begun: &Turn) -> Result<Want, AllocError> {
    let procedure = Arc::try_clone(begun.procedure())?;
    Ok(Turn::over(procedure, Arc::try_clone(begun.shape())?).want())
}

#[test]
fn a_turn_that_is_over_wants_nothing(rt: HostRuntime) -> Result<(), Fail> {
    let begun = turn_at(rt.alloc(), 0)?;
    assert_eq!(rt; over(&begun).ok(), Some(Want::Stop(Stop::Over)));
    Ok(())
}
