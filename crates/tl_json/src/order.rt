// Lists of call numbers, and orders.

ghost use Rattle.std.specs.Prelude.{◌≡◌, codes, IfOk};
ghost use Rattle.serde_json.specs.Data.{object, member, no_members};
ghost use Rattle.serde_json.specs.View.{view, items_view};
ghost use Rattle.serde_json.specs.Data.{array};
ghost use Rattle.tl_json.specs.Lists.{calls_data, order_data};

use serde_json::{Value, json};
use std::alloc::{AllocError, Global};

/// The list of the calls in their order.
pub fn calls_to_value(alloc: Global, calls: &[u32]) -> Result<Value, AllocError>
    ensures { IfOk result (λ v. view v ≡ calls_data calls.now) }
{
    let mut items = Vec::with_capacity(alloc, calls.len())?;
    for call in calls {
        items.push(Value::from(*call))?;
    }
    Ok(Value::Array(items))
}

fn member_to_value(alloc: Global, order: Value) -> Result<Value, AllocError>
    ensures { IfOk result (λ v. view v ≡ object (member (codes "order") (view order) no_members)) }
{
    json!(in alloc; {"order": order})
}

/// `{"order":[..]}`, with the calls in their order.
pub fn order_to_value(alloc: Global, calls: &[u32]) -> Result<Value, AllocError>
    ensures { IfOk result (λ v. view v ≡ order_data calls.now) }
{
    let order = calls_to_value(alloc, calls)?;
    member_to_value(alloc, order)
}

/// `{"orders":[..]}`, of lists of calls in their order.
pub fn orders_to_value(alloc: Global, orders: Vec<Value>) -> Result<Value, AllocError>
    ensures { IfOk result (λ v. view v ≡ object (member (codes "orders") (array (items_view orders.items)) no_members)) }
{
    orders_member(alloc, Value::Array(orders))
}

fn orders_member(alloc: Global, orders: Value) -> Result<Value, AllocError>
    ensures { IfOk result (λ v. view v ≡ object (member (codes "orders") (view orders) no_members)) }
{
    json!(in alloc; {"orders": orders})
}
