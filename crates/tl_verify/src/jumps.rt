// The pass over the targets.

ghost use Rattle.std.specs.Prelude.{◌≤◌, length, IfSome, IfNone};
ghost use Rattle.tl_budget.specs.Nested.{IsNest};
ghost use Rattle.tl_verify.specs.Findings.{IsFirstFault};
ghost use Rattle.tl_verify.specs.Known.{Ahead};

use crate::fault::VerifyFault;
use tl_budget::Nest;
use tl_instr::{Instr, MAX_COUNT};

/// The first target that isn't after its jump, or is past the end, or is in a loop that the jump isn't in.
pub fn jumps(code: &[Instr], nest: &Nest) -> Option<VerifyFault>
    requires short { length code.now ≤ MAX_COUNT }
    requires nest { IsNest code.now nest.now }
    ensures fault { IfSome result (IsFirstFault code.now) }
    ensures ahead { IfNone result (Ahead code.now) }
{
    for position in 0..code.len() {
        let Some(target) = code[position].target() else {
            continue;
        };
        if target as usize <= position {
            return Some(VerifyFault::BackJump(position as u16));
        }
        if target as usize >= code.len() {
            return Some(VerifyFault::OffEnd(position as u16));
        }
        if nest.depth_at(target) > 0 && nest.opening_of(target) as usize >= position {
            return Some(VerifyFault::IntoLoop(position as u16));
        }
    }
    None
}
