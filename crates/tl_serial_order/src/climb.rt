// Who may still come to a node.

ghost use Rattle.std.specs.Prelude.{◌≡◌, ◌<◌, List, length, slice_get, Option};
ghost use Rattle.tl_tree.specs.Shape.{IsTree};
ghost use Rattle.tl_tree_locking.specs.declared.event.Event.{Event as EventValue};
ghost use Rattle.tl_tree_locking.specs.Placing.{coming_calls, AreHolders, AreUnder};
ghost use Rattle.tl_serial_order.specs.Kept.{count_held};

use crate::column::Column;
use tl_tree::Shape;

/// The first call in order that may still come to the node, if the history keeps the rules: it is the first such call that
/// a climb from the node to the root meets. For each node, `holders` has the call that holds it, and `under` the call that
/// was the last to lock it while it held the node's parent.
///
/// The climb goes to ever lower numbers. So it has met all that it could meet once it has met as many held nodes as there
/// are.
pub fn nearest_coming(
    shape: &Shape,
    holders: &Column,
    held_count: usize,
    under: &Column,
    node: u32,
) -> Option<u32>
    requires tree { IsTree shape.now }
    requires holders { length holders.now ≡ length shape.now }
    requires held_count { held_count ≡ count_held holders.now }
    requires under { length under.now ≡ length shape.now }
    requires node { node < length shape.now }
    ensures { (past : List EventValue) → AreHolders holders.now past → AreUnder shape.now under.now past
        → result ≡ slice_get (coming_calls shape.now past node) 0 }
{
    let mut step = node;
    let mut left = held_count;
    while step > 0 && left > 0 {
        let above = shape.parent(step);
        if let Some(call) = holders.at(above) {
            if under.at(step) != Some(call) {
                return Some(call);
            }
            left -= 1;
        }
        step = above;
    }
    None
}
