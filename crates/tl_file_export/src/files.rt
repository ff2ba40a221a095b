// Who keeps trails in files.

ghost use Rattle.std.specs.Prelude.{◌≡◌, OnOk, IfErr};
ghost use Rattle.tl_audit.specs.Chains.{order_of};
ghost use Rattle.tl_file_export.specs.Filed.{FileList, Became, GotMore, begun};

use std::alloc::Global;
use tl_export::ExportFault;
use tl_serial_order::Order;
use tl_trail::Trail;

/// Keeps trails in files that are written one after another.
pub trait TrailFiles {
    ghost use Rattle.tl_export.specs.declared.fault.ExportFault.{ExportFault as Fault};

    // Whether these are the files, each with its trails, as far as it tells. The last file may get more.
    ghost files: { Self → FileList → Type 0 };

    // With which faults it refuses, as far as it tells.
    ghost refuses: { Fault → Type 0 } = { λ _. Unit {0} };

    /// Ends the file before, if there is one, and begins the next with this trail, whose calls have that order. 32 if it can't be written, 1090 if
    /// memory is refused.
    fn begin(&mut self, alloc: Global, trail: &Trail, order: &Order) -> Result<(), ExportFault>
        requires { order.now.calls ≡ order_of trail.now }
        ensures files { OnOk result (Became (begun trail.now) (files self.old) (files self.new)) }
        ensures fault { IfErr result refuses };

    /// Appends this trail to the file that was begun last. 32 if it can't be written, 1090 if memory is refused.
    fn add(&mut self, alloc: Global, trail: &Trail, order: &Order) -> Result<(), ExportFault>
        requires { order.now.calls ≡ order_of trail.now }
        ensures files { OnOk result (GotMore trail.now (files self.old) (files self.new)) }
        ensures fault { IfErr result refuses };

    /// Ends the file that was begun last. 32 if it can't be written, 1090 if memory is refused.
    fn end(&mut self, alloc: Global) -> Result<(), ExportFault>
        ensures files { OnOk result (Became (λ files. files) (files self.old) (files self.new)) }
        ensures fault { IfErr result refuses };
}
