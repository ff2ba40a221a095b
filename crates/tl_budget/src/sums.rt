// What a procedure costs at most.

ghost use Rattle.std.specs.Prelude.{◌≡◌, ◌+◌, IfOk, IfErr, if◌then◌else◌};
ghost use Rattle.tl_budget.specs.Loops.{budget, lock_bound, emit_bound, is_lock, is_emit};
ghost use Rattle.tl_budget.specs.Faults.{IsOver, IsWithinLimits};
ghost use Rattle.tl_budget.specs.Nested.{IsNest};
ghost use Rattle.tl_budget.specs.Capped.{capped};

use crate::fault::NestFault;
use crate::limits::{Bounds, MAX_DEPTH, MAX_EMITS, MAX_LOCKS, MAX_STEPS};
use crate::nested::Nest;
use crate::nesting::turns_of;
use tl_instr::{Code, Instr};

// The sums of the weights of all instructions, of those that lock a node, and of those that emit a value. A sum that
// doesn't fit saturates at the greatest number, which is above each limit.
#[derive(Clone, Copy)]
struct Totals {
    steps: u64,
    locks: u64,
    emits: u64,
}

impl Totals {
    // The totals with one more instruction of that weight.
    fn with(self, instr: &Instr, weight: u64) -> Totals
        ensures steps { result.steps ≡ capped (self.steps + weight) }
        ensures locks { result.locks ≡ capped (self.locks + (if is_lock instr.now then weight else 0)) }
        ensures emits { result.emits ≡ capped (self.emits + (if is_emit instr.now then weight else 0)) }
    {
        let locked = if locks_node(instr) { weight } else { 0 };
        let emitted = if emits_value(instr) { weight } else { 0 };
        Totals {
            steps: self.steps.saturating_add(weight),
            locks: self.locks.saturating_add(locked),
            emits: self.emits.saturating_add(emitted),
        }
    }
}

// Whether the instruction locks a node.
fn locks_node(instr: &Instr) -> bool
    ensures { result ≡ is_lock instr.now }
{
    matches!(*instr, Instr::First { .. } | Instr::Child { .. })
}

// Whether the instruction emits a value.
fn emits_value(instr: &Instr) -> bool
    ensures { result ≡ is_emit instr.now }
{
    matches!(*instr, Instr::Emit { .. })
}

// The sums over a whole code.
fn total(code: &Code, nest: &Nest) -> Totals
    requires { IsNest code.now.instrs nest.now }
    ensures steps { result.steps ≡ capped (budget code.now.instrs) }
    ensures locks { result.locks ≡ capped (lock_bound code.now.instrs) }
    ensures emits { result.emits ≡ capped (emit_bound code.now.instrs) }
{
    // For each depth, the product of the turn counts of the loops around: at most four numbers of 16 bits.
    let mut products = [1; MAX_DEPTH + 1];
    let mut totals = Totals {
        steps: 0,
        locks: 0,
        emits: 0,
    };
    for position in 0..code.count() {
        let instr = &code.instrs()[usize::from(position)];
        let depth = nest.depth_at(position) as usize;
        let weight = products[depth];
        totals = totals.with(instr, weight);
        if let Some(turns) = turns_of(instr) {
            products[depth + 1] = weight * u64::from(turns);
        }
    }
    totals
}

/// The bounds of a code with these loops: the sums of the weights of all its instructions, of those that lock a node, and
/// of those that emit a value. An instruction's weight is the product of the turn counts of the loops around it.
///
/// 305, 306, 307 if a sum is above 1,000,000, 4,096 or 32, checked in that order. Takes no memory.
pub fn bounds(code: &Code, nest: &Nest) -> Result<Bounds, NestFault>
    requires { IsNest code.now.instrs nest.now }
    ensures ok { IfOk result (λ b. (b.steps ≡ budget code.now.instrs) × (b.locks ≡ lock_bound code.now.instrs) × (b.emits ≡ emit_bound code.now.instrs)) }
    ensures within { IfOk result (λ _. IsWithinLimits code.now.instrs) }
    ensures over { IfErr result (IsOver code.now.instrs) }
{
    let totals = total(code, nest);
    if totals.steps > u64::from(MAX_STEPS) {
        return Err(NestFault::StepsOver);
    }
    if totals.locks > u64::from(MAX_LOCKS) {
        return Err(NestFault::LocksOver);
    }
    if totals.emits > MAX_EMITS as u64 {
        return Err(NestFault::EmitsOver);
    }
    Ok(Bounds {
        steps: totals.steps as u32,
        locks: totals.locks as u16,
        emits: totals.emits as u8,
    })
}
