// Codes, and calls that run alone.

ghost use Rattle.std.specs.Prelude.{◌≡◌};

use crate::clock::now;
use crate::digest::{mix_code, mix_records};
use crate::measured::Measured;
use crate::trees::{chain, procedure_of, tree_of};
use std::alloc::Global;
use std::sync::Arc;
use tl_asm::assemble;
use tl_instr::decode;
use tl_machine::{Segment, Turn, alone, local};
use tl_verify::verify;

fn ran(alloc: Global, code: &[u8], nodes: u32, args: &[i64], times: u32) -> Option<Measured> {
    let procedure = Arc::new(alloc, procedure_of(alloc, code)?).ok()?;
    let mut tree = tree_of(alloc, &chain(alloc, nodes)?)?;
    let mut measured = Measured::none();
    for _time in 0..times {
        let begin = now();
        let answer = alone(&procedure, args, &mut tree).ok()?;
        measured.add_since(begin);
        measured.add_count(u64::from(answer.steps));
        measured.mix_all(answer.reply.values());
    }
    mix_records(tree.records(), &mut measured);
    Some(measured)
}

/// The container's procedure, run alone `times` times on a chain of `nodes` nodes. The time is that of the runs, and the count is
/// the number of all steps. The emitted values and the records at the end are mixed.
#[unsafe(no_mangle)]
pub extern "C" fn treedb_run(
    alloc: Global,
    code: &[u8],
    nodes: u32,
    args: &[i64],
    times: u32,
) -> Measured {
    Measured::or_refused(ran(alloc, code, nodes, args, times))
}

// Counts the segment's steps, and mixes the position, the values and the emitted values of the call at its end.
fn mix_segment(segment: &Segment, measured: &mut Measured) -> Option<()> {
    let state = segment.to();
    measured.add_count(u64::from(state.steps));
    measured.mix(u64::from(state.position));
    measured.mix_all(&state.values);
    measured.mix_all(state.emitted.get(..usize::from(state.emit_count))?);
    Some(())
}

fn went_alone(alloc: Global, code: &[u8], args: &[i64], times: u32) -> Option<Measured> {
    let procedure = Arc::new(alloc, procedure_of(alloc, code)?).ok()?;
    let tree = tree_of(alloc, &[0])?;
    let mut measured = Measured::none();
    for _time in 0..times {
        let shared = Arc::try_clone(&procedure).ok()?;
        let shape = Arc::try_clone(tree.shape()).ok()?;
        let turn = Turn::start(shared, shape, args).ok()?;
        let begin = now();
        let segment = local(turn);
        measured.add_since(begin);
        mix_segment(&segment, &mut measured)?;
    }
    Some(measured)
}

/// A call of the container's procedure that goes on by itself to its first lock or its return, `times` times. The count is the
/// number of all steps, and the state that the call reaches is mixed.
#[unsafe(no_mangle)]
pub extern "C" fn treedb_local(alloc: Global, code: &[u8], args: &[i64], times: u32) -> Measured {
    Measured::or_refused(went_alone(alloc, code, args, times))
}

fn checked(alloc: Global, bytes: &[u8], times: u32) -> Option<Measured> {
    let mut measured = Measured::none();
    for _time in 0..times {
        let code = decode(alloc, bytes).ok()?;
        let begin = now();
        let answer = verify(alloc, code);
        measured.add_since(begin);
        match answer {
            Ok(procedure) => {
                let bounds = procedure.bounds();
                measured.add_count(1);
                measured.mix(u64::from(bounds.steps));
                measured.mix(u64::from(bounds.locks));
                measured.mix(u64::from(bounds.emits));
            }
            Err((_code, fault)) => {
                for number in fault.numbers().as_slice() {
                    measured.mix(*number);
                }
            }
        }
    }
    Some(measured)
}

/// The container's code, verified `times` times. The time is that of `verify`, and the count says how often the code was accepted.
/// The bounds or the fault's numbers are mixed.
#[unsafe(no_mangle)]
pub extern "C" fn treedb_check(alloc: Global, code: &[u8], times: u32) -> Measured {
    Measured::or_refused(checked(alloc, code, times))
}

fn decoded(alloc: Global, bytes: &[u8], times: u32) -> Option<Measured> {
    let mut measured = Measured::none();
    for _time in 0..times {
        let begin = now();
        let code = decode(alloc, bytes).ok()?;
        measured.add_since(begin);
        measured.add_count(u64::from(code.count()));
        mix_code(alloc, &code, &mut measured)?;
    }
    Some(measured)
}

/// The container, decoded `times` times. The count is the number of all instructions, and the code's text is mixed.
#[unsafe(no_mangle)]
pub extern "C" fn treedb_decode(alloc: Global, code: &[u8], times: u32) -> Measured {
    Measured::or_refused(decoded(alloc, code, times))
}

fn assembled(alloc: Global, text: &[u8], times: u32) -> Option<Measured> {
    let text = std::str::from_utf8(text).ok()?;
    let mut measured = Measured::none();
    for _time in 0..times {
        let begin = now();
        let code = assemble(alloc, text).ok()?;
        measured.add_since(begin);
        measured.add_count(u64::from(code.count()));
        mix_code(alloc, &code, &mut measured)?;
    }
    Some(measured)
}

/// The procedure's text, assembled `times` times. The count is the number of all instructions, and the code's text is mixed.
#[unsafe(no_mangle)]
pub extern "C" fn treedb_assemble(alloc: Global, text: &[u8], times: u32) -> Measured {
    Measured::or_refused(assembled(alloc, text, times))
}
