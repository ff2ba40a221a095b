// Who takes the trails of an export.

ghost use Rattle.std.specs.Prelude.{◌≡◌, ◌∷◌, [], List, OnOk, IfErr};
ghost use Rattle.tl_audit.specs.Chains.{order_of};
ghost use Rattle.tl_trail.specs.Trails.{TrailValue};
ghost use Rattle.tl_export.specs.Exported.{TookMore};

use crate::fault::ExportFault;
use std::alloc::Global;
use tl_serial_order::Order;
use tl_trail::Trail;

/// Takes trails, one after another, and keeps of them what it wants.
pub trait TrailTaker {
    ghost use Rattle.tl_export.specs.declared.fault.ExportFault.{ExportFault as Fault};

    // Whether it took these trails, as far as it tells.
    ghost taken: { Self → List TrailValue → Type 0 };

    // With which faults it refuses a trail, as far as it tells.
    ghost refuses: { Fault → Type 0 } = { λ _. Unit {0} };

    /// Takes the next trail, and the order of its calls that the auditor found. 32 if what it wants to keep can't be written, 1090 if memory is refused.
    fn take(&mut self, alloc: Global, trail: &Trail, order: &Order) -> Result<(), ExportFault>
        requires { order.now.calls ≡ order_of trail.now }
        ensures taken { OnOk result (TookMore (taken self.old) (trail.now ∷ []) (taken self.new)) }
        ensures fault { IfErr result refuses };
}
