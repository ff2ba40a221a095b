// The call and the node of an event.

ghost use Rattle.std.specs.Prelude.{◌≡◌, IsTrue, ◌↔◌};
ghost use Rattle.tl_tree_locking.specs.History.{caller};
ghost use Rattle.tl_tree_locking.specs.Nodes.{IsOfNodes};

use tl_tree_locking::Event;

/// The call of the event.
pub(crate) fn caller(event: &Event) -> u32
    ensures { result ≡ caller event.now }
{
    match *event {
        Event::Admit { call }
        | Event::Lock { call, .. }
        | Event::Free { call, .. }
        | Event::Done { call } => call,
    }
}

/// Whether the node of the event, if it has one, is among the first `nodes` nodes.
pub(crate) fn is_of_nodes(event: &Event, nodes: u32) -> bool
    ensures { IsTrue result ↔ IsOfNodes nodes event.now }
{
    match *event {
        Event::Lock { node, .. } | Event::Free { node, .. } => node < nodes,
        Event::Admit { .. } | Event::Done { .. } => true,
    }
}
