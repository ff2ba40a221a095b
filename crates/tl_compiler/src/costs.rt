// Which statement a code costs too much for.

use crate::draft::Draft;
use crate::fault::Excess;
use std::alloc::{AllocError, Global};
use tl_instr::Instr;

// How often the body of the loop that the instruction opens runs at most.
fn turns_of(instr: &Instr) -> Option<u64> {
    match *instr {
        Instr::Repeat { count } | Instr::RepeatBy { count, .. } => Some(u64::from(count)),
        _ => None,
    }
}

// What an instruction adds to the sum if the loops around it run it `weight` times in all.
fn amount(excess: Excess, instr: &Instr, weight: u64) -> u64 {
    let counts = match excess {
        Excess::Instructions => return 1,
        Excess::Steps => true,
        Excess::Locks => matches!(*instr, Instr::First { .. } | Instr::Child { .. }),
        Excess::Emits => matches!(*instr, Instr::Emit { .. }),
    };
    if counts { weight } else { 0 }
}

// What each instruction adds, with the statement that it belongs to.
fn amounts(alloc: Global, draft: &Draft, excess: Excess) -> Result<Vec<(usize, u64)>, AllocError> {
    let mut amounts = Vec::new(alloc);
    let mut around = Vec::new(alloc);
    let mut weight: u64 = 1;
    for (instr, origin) in draft.instrs.iter().zip(draft.origins.iter()).rev() {
        amounts.push((*origin, amount(excess, instr, weight)))?;
        if let Some(turns) = turns_of(instr) {
            around.push(weight)?;
            weight = weight.saturating_mul(turns);
        }
        if matches!(*instr, Instr::End) {
            weight = around.pop().unwrap_or(1);
        }
    }
    Ok(amounts)
}

/// The offset of the statement whose own instructions add most, the first of equal ones, and the whole sum.
pub fn heaviest(alloc: Global, draft: &Draft, excess: Excess) -> Result<(usize, u64), AllocError> {
    let mut amounts = amounts(alloc, draft, excess)?;
    amounts.sort_unstable_by_key(|entry| entry.0);
    let mut whole: u64 = 0;
    let mut most: (usize, u64) = (0, 0);
    let mut current: (usize, u64) = (0, 0);
    for (origin, amount) in &amounts {
        whole = whole.saturating_add(*amount);
        if current.0 != *origin {
            current = (*origin, 0);
        }
        current.1 = current.1.saturating_add(*amount);
        if current.1 > most.1 {
            most = current;
        }
    }
    Ok((most.0, whole))
}
