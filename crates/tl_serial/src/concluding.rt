// What follows from a core's history, once every call is done.

ghost use Rattle.std.specs.Prelude.{◌≡◌, ◌≢◌, ◌<◌, ℕ, All, IfOk, IfErr, length, map};
ghost use Rattle.tl_tree_locking.specs.Alone.{serial};
ghost use Rattle.tl_tree_locking.specs.History.{AllDone, records_now};
ghost use Rattle.tl_tree_locking.specs.Order.{placed, Agrees};
ghost use Rattle.tl_tree_locking.specs.World.{reply_of};
ghost use Rattle.tl_core.specs.Cores.{world_of, IsLeastUnfinished};

use crate::running::order_of_core;
use std::alloc::Global;
use tl_core::Core;
use tl_serial_order::{Order, SerialFault};

/// The order that the core's history gives, once every call is done. Run alone, one after another in this order, the calls
/// leave the current records, and each gives the reply that it gave.
///
/// 651 with the least unfinished call if there is one; otherwise 690 if memory is refused.
pub fn conclude(alloc: Global, core: &Core) -> Result<Order, SerialFault>
    ensures unfinished { IfErr result (λ e. e ≢ SerialFault.Memory
        → (c : ℕ) × (e ≡ SerialFault.Unfinished c) × IsLeastUnfinished core.now.seen.past c) }
    ensures memory { IfErr result (λ e. e ≡ SerialFault.Memory → AllDone core.now.seen.past) }
    ensures done { IfOk result (λ _. AllDone core.now.seen.past) }
    ensures order { IfOk result (λ o. o.calls ≡ placed core.now.seen.parents core.now.seen.past) }
    ensures known { IfOk result (λ o. All (λ c. c < length core.now.seen.calls) o.calls) }
    ensures agrees { IfOk result (λ o. Agrees o.calls core.now.seen.past) }
    ensures tree { IfOk result (λ o. (serial (world_of core.now.seen).meanings o.calls core.now.seen.opening).tree
        ≡ records_now core.now.seen.past core.now.seen.opening) }
    ensures replies { IfOk result (λ o. (serial (world_of core.now.seen).meanings o.calls core.now.seen.opening).replies
        ≡ map (reply_of (world_of core.now.seen)) o.calls) }
{
    if let Some(call) = core.least_unfinished() {
        return Err(SerialFault::Unfinished { call });
    }
    // What the order promises follows from this.
    core.lemma_is_sound();
    let order = order_of_core(alloc, core)?;
    Ok(order.into_order())
}
