// What is printed once all calls are done.

ghost use Rattle.std.specs.Prelude.{◌≡◌, ◌∷◌, ◌++◌, [], map, string_bytes, IfOk, IfErr};
ghost use Rattle.serde_json.specs.View.{view, items_view};
ghost use Rattle.serde_json.specs.Written.{compact_text};
ghost use Rattle.tl_serial_order.specs.Order.{OrderValue};
ghost use Rattle.tl_json.specs.Lists.{orders_data};
ghost use Rattle.tl_table.specs.Chains.{calls_in};
ghost use Rattle.tl_table.specs.Tables.{IsChain};
ghost use Rattle.tl_commands.specs.Closing.{AreOrders, IsClosing, orders_form, sessions_given, tree_after};
ghost use Rattle.tl_commands.specs.Faults.{status_of};

use crate::fault::CliFault;
use crate::outputs::two_lines;
use serde_json::Value;
use std::alloc::{AllocError, Global};
use tl_core::CoreFault;
use tl_json::{calls_to_value, order_to_value, orders_to_value};
use tl_serial_order::Order;
use tl_table::{Closed, conclude_all};
use tl_tree::Tree;

/// `{"orders":[..]}`, with the order of each epoch.
pub fn all_orders_to_value(alloc: Global, orders: &[Order]) -> Result<Value, AllocError>
    ensures { IfOk result (λ v. view v ≡ orders_data (map calls_in orders.now)) }
{
    let mut items = Vec::with_capacity(alloc, orders.len())?;
    for order in orders {
        items.push(calls_to_value(alloc, order.calls())?)?;
    }
    orders_to_value(alloc, items)
}

// The orders of all epochs, or the order of the first.
fn closing_value(alloc: Global, orders: &[Order], has_epochs: bool) -> Result<Value, AllocError>
    ensures { IfOk result (λ v. view v ≡ orders_form has_epochs (map calls_in orders.now)) }
{
    match orders {
        [first, ..] if !has_epochs => order_to_value(alloc, first.calls()),
        _ => all_orders_to_value(alloc, orders),
    }
}

/// The tree that the calls of all epochs left.
pub fn last_tree(chain: &[Closed]) -> &Tree
    requires { IsChain chain.now }
    ensures { result.now ≡ tree_after chain.now }
{
    let Some(last) = chain.last() else {
        // There is at least one epoch.
        unreachable!()
    };
    last.core().tree()
}

// How many sessions had been given when the last epoch ended.
pub(crate) fn sessions_given(chain: &[Closed]) -> u32
    requires { IsChain chain.now }
    ensures { result ≡ sessions_given chain.now }
{
    let Some(last) = chain.last() else {
        // There is at least one epoch.
        unreachable!()
    };
    last.sessions()
}

/// The order of the calls of each epoch, or of the only one, and the tree that they left.
///
/// All calls, run alone one after another along these orders joined, from the tree before any call, leave that tree, and each gives
/// the reply that it gave.
pub fn closing_lines(alloc: Global, chain: &[Closed], has_epochs: bool) -> Result<String, CliFault>
    requires { IsChain chain.now }
    ensures ok { IfOk result (λ s. IsClosing has_epochs chain.now (string_bytes s)) }
    ensures err { IfErr result (λ e. status_of e ≡ 4) }
{
    let Ok(orders) = conclude_all(alloc, chain) else {
        return Err(CliFault::Core(CoreFault::Memory));
    };
    let value = closing_value(alloc, &orders, has_epochs)?;
    two_lines(alloc, &value, last_tree(chain))
}
