// An epoch's rows, beside the epoch.

ghost use Rattle.std.specs.Prelude.{◌≡◌, OnOk, IfErr};
ghost use Rattle.tl_store.specs.declared.fault.StoreFault.TheVariants.{Memory};
ghost use Rattle.tl_compare.specs.Epochs.{AreOfEpoch, AreWholeRows};

use crate::calls::check_calls;
use crate::procedures::check_procedures;
use crate::reading::EpochRows;
use crate::replies::check_replies;
use crate::turns::check_turns;
use std::alloc::Global;
use tl_core::Core;
use tl_store::StoreFault;

/// Checks that the rows of an epoch are those of a core's calls: its procedures, its calls with their arguments, the turns that they took, and the reply of
/// each call that ended. 1003 and the first table of which they aren't; 1090 if memory is refused.
pub fn check_epoch(alloc: Global, rows: &EpochRows, core: &Core) -> Result<(), StoreFault>
    ensures same { OnOk result (AreOfEpoch rows.now core.now.seen) }
    ensures again { AreWholeRows rows.now core.now.seen → AreOfEpoch rows.now core.now.seen → IfErr result (λ e. e ≡ Memory) }
{
    check_procedures(alloc, core, rows.procedures.as_slice())?;
    check_calls(alloc, core, rows.epoch, rows.calls.as_slice())?;
    check_turns(alloc, core, rows.epoch, rows.turns.as_slice())?;
    check_replies(alloc, core, rows.epoch, rows.replies.as_slice())
}
