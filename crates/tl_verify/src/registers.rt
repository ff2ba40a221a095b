// The pass over the node registers, by rising position.

ghost use Rattle.std.specs.Prelude.{◌≡◌, ℕ, ◌+◌, ◌<◌, ◌≤◌, length, get_or, slice_get, Option, Some, None, true, IfSome, IfNone, IfOk, MatchOption};
ghost use Rattle.tl_budget.specs.Nested.{IsNest, place_at};
ghost use Rattle.tl_verify.specs.Marks.{goes_on as goes_on_from, after as marks_after, aside_by, furthest_by};
ghost use Rattle.tl_verify.specs.Acceptable.{HasFit};
ghost use Rattle.tl_verify.specs.Findings.{IsFirstFault};
ghost use Rattle.tl_verify.specs.Known.{Known, Ahead, PassesOn, Settled};
ghost use Rattle.tl_verify.specs.Pass.{Compares, is_end as is_end_of};

use crate::arrivals::{Arrivals, arrive};
use crate::fault::VerifyFault;
use crate::marks::Marks;
use crate::objection::{goes_on, is_end, objection};
use std::alloc::{AllocError, Global};
use tl_budget::Nest;
use tl_instr::{Instr, MAX_COUNT};

// Where control may go with the marks from before the instruction: to its target, or past the loop that it opens, if that
// loop may turn no times.
#[inline(always)]
fn aside(nest: &Nest, position: u16, instr: &Instr) -> Option<usize>
    requires { position < length nest.now }
    ensures { result ≡ aside_by (place_at nest.now position).close instr.now }
{
    match *instr {
        Instr::RepeatBy { .. } => Some(usize::from(nest.end_of(position)) + 1),
        _ => Some(usize::from(instr.target()?)),
    }
}

// The position before the furthest one to which control may go on.
#[inline(always)]
fn furthest(nest: &Nest, position: u16, instr: &Instr) -> u16
    requires { position < length nest.now }
    ensures { result ≡ furthest_by (place_at nest.now position).close position instr.now }
{
    match *instr {
        Instr::RepeatBy { .. } => nest.end_of(position),
        _ => position,
    }
}

// The marks after an instruction arrive at the next position, and those from before it at the position aside.
#[inline(always)]
fn pass_on(
    states: &mut [Option<Arrivals>],
    position: usize,
    instr: &Instr,
    beside: Option<usize>,
    marks: &Marks,
    behind: &Marks,
)
    requires behind { behind.now ≡ marks_after instr.now marks.now }
    requires next { goes_on_from instr.now ≡ true → position + 1 < length states.old }
    requires aside { (l : ℕ) → beside ≡ Some l → l < length states.old }
    ensures { PassesOn instr.now beside position marks.now states.old states.new }
{
    if goes_on(instr) {
        arrive(states, position + 1, *behind);
    }
    if let Some(beside) = beside {
        arrive(states, beside, *marks);
    }
}

// Whether control reaches the end of a loop's body with other marks than its start.
fn is_changed(
    states: &[Option<Arrivals>],
    nest: &Nest,
    position: u16,
    instr: &Instr,
    marks: &Marks,
) -> bool
    requires inside { position < length nest.now }
    requires start { is_end_of instr.now ≡ true → (place_at nest.now position).opening + 1 < length states.now }
    ensures { Compares instr.now (get_or states.now ((place_at nest.now position).opening + 1) None) marks.now result }
{
    if !is_end(instr) {
        return false;
    }
    let start = usize::from(nest.opening_of(position)) + 1;
    match states[start] {
        None => false,
        Some(earlier) => {
            earlier.marks.held != marks.held || (earlier.marks.is_open && !marks.is_open)
        }
    }
}

// Visits each position that has a state, by rising position.
fn walk(code: &[Instr], nest: &Nest, states: &mut [Option<Arrivals>]) -> Option<VerifyFault>
    requires short { length code.now ≤ MAX_COUNT }
    requires nest { IsNest code.now nest.now }
    requires ahead { Ahead code.now }
    requires known { Known code.now 0 states.old }
    ensures fault { IfSome result (IsFirstFault code.now) }
    ensures settled { IfNone result (Settled code.now states.new) }
{
    for position in 0..code.len() {
        let Some(arrivals) = states[position] else {
            continue;
        };
        let instr = &code[position];
        let changed = is_changed(states, nest, position as u16, instr, &arrivals.marks);
        let count = code.len() as u16;
        let far = furthest(nest, position as u16, instr);
        let behind = match objection(count, far, position as u16, instr, arrivals, changed) {
            Ok(behind) => behind,
            Err(fault) => return Some(fault),
        };
        let beside = aside(nest, position as u16, instr);
        pass_on(states, position, instr, beside, &arrivals.marks, &behind);
    }
    None
}

/// The first fault of the registers, in a code whose loops and targets have none. `None` if the registers fit.
pub fn registers(
    alloc: Global,
    code: &[Instr],
    nest: &Nest,
) -> Result<Option<VerifyFault>, AllocError>
    requires some { 0 < length code.now }
    requires short { length code.now ≤ MAX_COUNT }
    requires nest { IsNest code.now nest.now }
    requires ahead { Ahead code.now }
    ensures { IfOk result (λ o. MatchOption o (HasFit code.now) (IsFirstFault code.now)) }
{
    let mut states: Vec<Option<Arrivals>> = vec![in alloc; None; code.len()]?;
    states[0] = Some(Arrivals::ENTRY);
    Ok(walk(code, nest, &mut states))
}
