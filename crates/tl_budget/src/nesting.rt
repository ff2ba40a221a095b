// Matches the loops of a code.

ghost use Rattle.std.specs.Prelude.{◌≡◌, ◌≢◌, ◌⊎◌, ℕ, ◌-◌, ◌<◌, ◌≤◌, [], ◌∷◌, ◌++◌, length, slice_index, IfOk, OnOk, IfErr, MatchOption};
ghost use Rattle.tl_budget.specs.Loops.{Opens, kind};
ghost use Rattle.tl_budget.specs.Findings.{IsFirstFault};
ghost use Rattle.tl_budget.specs.Nested.{IsNested, IsNest};
ghost use Rattle.tl_budget.specs.declared.fault.NestFault.TheVariants as fault;

use crate::fault::NestFault;
use crate::limits::MAX_DEPTH;
use crate::nested::{Nest, Place};
use arrayvec::ArrayVec;
use std::alloc::Global;
use tl_instr::{Code, Instr};

// The place of a position inside the loops that open at these positions, the outermost first.
fn place(openings: &ArrayVec<u16, MAX_DEPTH>) -> Place
    ensures depth { result.depth ≡ length openings.now.items }
    ensures opening { result.opening ≡ slice_index openings.now.items (length openings.now.items - 1) }
    ensures close { result.close ≡ 0 }
{
    Place {
        depth: openings.len() as u32,
        opening: openings.last().copied().unwrap_or(0),
        close: 0,
    }
}

// A loop opens at the position.
fn enter(
    openings: &mut ArrayVec<u16, MAX_DEPTH>,
    position: u16,
    count: u16,
) -> Result<(), NestFault>
    ensures turns { OnOk result (0 < count) }
    ensures room { OnOk result (length openings.old.items < MAX_DEPTH) }
    ensures opened { OnOk result (openings.new.items ≡ openings.old.items ++ position ∷ []) }
    ensures fault { IfErr result (λ f. ((count ≡ 0) × (f ≡ fault.ZeroCount position)) ⊎ ((0 < count) × (MAX_DEPTH ≤ length openings.old.items) × (f ≡ fault.TooDeep position))) }
{
    if count == 0 {
        return Err(NestFault::ZeroCount(position));
    }
    if openings.try_push(position).is_err() {
        return Err(NestFault::TooDeep(position));
    }
    Ok(())
}

// The innermost loop ends at the position. The result is the position at which it opens.
fn leave(openings: &mut ArrayVec<u16, MAX_DEPTH>, position: u16) -> Result<u16, NestFault>
    ensures closed { IfOk result (λ opening. openings.old.items ≡ openings.new.items ++ opening ∷ []) }
    ensures fault { IfErr result (λ f. (openings.old.items ≡ []) × (f ≡ fault.EndAlone position)) }
{
    openings.pop().ok_or(NestFault::EndAlone(position))
}

// The most turns of the loop that the instruction opens.
pub(crate) fn turns_of(instr: &Instr) -> Option<u16>
    ensures { MatchOption result ((w : ℕ) → kind instr.now ≢ Opens w) (λ w. kind instr.now ≡ Opens w) }
{
    match *instr {
        Instr::Repeat { count } | Instr::RepeatBy { count, .. } => Some(count),
        _ => None,
    }
}

/// The loops of a code, if each loop has an end and at least one turn, each end has a loop, and loops nest at most four
/// deep.
///
/// Otherwise the fault at the least position: 302 at an end without an open loop, 304 at a loop of no turns, 303 at a loop
/// that opens inside four others. Only if there is none of these, 301 at the first loop without an end. 390 if memory is
/// refused.
pub fn nest(alloc: Global, code: &Code) -> Result<Nest, NestFault>
    ensures nest { IfOk result (IsNest code.now.instrs) }
    ensures accepts { IsNested code.now.instrs → IfErr result (λ f. f ≡ fault.Memory) }
    ensures fault { IfErr result (λ f. f ≢ fault.Memory → IsFirstFault code.now.instrs f) }
{
    let Ok(mut places) = Vec::with_capacity(alloc, code.instrs().len()) else {
        return Err(NestFault::Memory);
    };
    let mut openings = ArrayVec::new();
    for position in 0..code.count() {
        places.push(place(&openings))?;
        let instr = &code.instrs()[usize::from(position)];
        if let Some(count) = turns_of(instr) {
            enter(&mut openings, position, count)?;
        } else if let Instr::End = *instr {
            let opening = leave(&mut openings, position)?;
            places[usize::from(opening)].close = position;
        }
    }
    match openings.first() {
        Some(opening) => Err(NestFault::LoopOpen(*opening)),
        None => Ok(Nest { places }),
    }
}
