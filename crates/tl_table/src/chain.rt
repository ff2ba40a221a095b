// The epochs of a closed table as one run.

ghost use Rattle.std.specs.Prelude.{◌≡◌, ◌≤◌, map, OnOk, IfOk, IfErr};
ghost use Rattle.tl_table.specs.Bounds.{AreBounded, all_steps_done, all_budgets_of};
ghost use Rattle.tl_table.specs.Tables.{IsChain};
ghost use Rattle.tl_table.specs.Chains.{calls_in, epoch_order, AreReached, IsSerial};

use crate::closed::Closed;
use std::alloc::Global;
use tl_serial_order::{Order, SerialFault};

/// The order of each epoch of a closed table that admissions, steps and seals led to. All calls, run alone one after
/// another along these orders joined, from the tree before any call, leave the current records, and each gives the reply
/// that it gave. What each call of each epoch did obeys the tree protocol and is within the bounds of its procedure, so all
/// calls together did no more instructions than the sum of their budgets. 690 if memory is refused.
pub fn conclude_all(alloc: Global, chain: &[Closed]) -> Result<Vec<Order>, SerialFault>
    requires { IsChain chain.now }
    ensures reached { AreReached chain.now }
    ensures orders { IfOk result (λ os. map calls_in os.items ≡ map epoch_order chain.now) }
    ensures serial { IfOk result (λ os. IsSerial chain.now (map calls_in os.items)) }
    ensures bounded { OnOk result (AreBounded chain.now) }
    ensures within { OnOk result (all_steps_done chain.now ≤ all_budgets_of chain.now) }
    ensures err { IfErr result (λ e. e ≡ SerialFault.Memory) }
{
    let mut orders = Vec::with_capacity(alloc, chain.len())?;
    for closed in chain {
        // What its calls did is within their bounds.
        closed.core().lemma_is_sound();
        orders.push_reserved(closed.order().copy(alloc)?);
    }
    Ok(orders)
}
