//! Orders of calls, and calls that run again along an order.

use crate::texts::{BOTH, FORK as FORK_TREE, LOOK, ONE_NODE, STORE, procedure_of, tree_of};
use std::alloc::Global;
use std::process::Abort;
use std::test::Fail;
use tl_core::Core;
use tl_history::{History, HistoryFault, MAX_EVENTS};
use tl_machine::Reply;
use tl_serial::{Running, conclude, is_of_shape, order_of, replay};
use tl_serial_order::KeptOrder;
use tl_tree::{Shape, Tree, USUAL_NODES, write_tree};
use tl_tree_locking::Event;

// ---- histories

/// A root with two children.
const FORK: [i64; 3] = [0, 0, 0];

/// A root with a child that has a child.
const CHAIN: [i64; 3] = [0, 0, 1];

/// An event: its letter, call and node.
type Row = (char, u32, u32);

fn event_of((letter, call, node): Row) -> Event {
    match letter {
        'a' => Event::Admit { call },
        'l' => Event::Lock {
            call,
            node,
            found: [0; 8],
        },
        'f' => Event::Free {
            call,
            node,
            left: [1, 2, 3, 4, 0, 0, 0, 0],
        },
        _ => Event::Done { call },
    }
}

/// Reserves room for one event, and puts the event there.
fn put(alloc: Global, history: &mut History, row: Row) -> Result<(), HistoryFault> {
    history.reserve(alloc, 1)?;
    history.append(event_of(row));
    Ok(())
}

/// The parents, the events and the order of each history.
const ORDERS: [(&[i64], &[Row], &[u32]); 5] = [
    // Call 2 reaches node 2 before call 0, which began first.
    (
        &FORK,
        &[
            ('a', 0, 0),
            ('l', 0, 0),
            ('l', 0, 1),
            ('f', 0, 1),
            ('a', 1, 0),
            ('l', 1, 1),
            ('f', 1, 1),
            ('d', 1, 0),
            ('a', 2, 0),
            ('l', 2, 2),
            ('f', 2, 2),
            ('d', 2, 0),
            ('l', 0, 2),
            ('f', 0, 2),
            ('f', 0, 0),
            ('d', 0, 0),
        ],
        &[2, 0, 1],
    ),
    // A call without a lock goes to the end.
    (
        &FORK,
        &[
            ('a', 0, 0),
            ('a', 1, 0),
            ('l', 1, 0),
            ('f', 1, 0),
            ('d', 1, 0),
            ('d', 0, 0),
        ],
        &[1, 0],
    ),
    // Call 0 holds the root all the time, and has given up the path to node 2 once it has freed node 1.
    (
        &CHAIN,
        &[('a', 0, 0), ('l', 0, 0), ('a', 1, 0), ('l', 1, 2)],
        &[1, 0],
    ),
    (
        &CHAIN,
        &[
            ('a', 0, 0),
            ('l', 0, 0),
            ('l', 0, 1),
            ('f', 0, 1),
            ('a', 1, 0),
            ('l', 1, 2),
        ],
        &[0, 1],
    ),
    // A history that breaks the rules: calls that were never admitted, a node that two calls hold, frees of nodes that aren't held,
    // a lock after a free, and events after an end.
    (
        &CHAIN,
        &[
            ('f', 9, 1),
            ('l', 7, 0),
            ('l', 3, 0),
            ('d', 7, 0),
            ('f', 7, 0),
            ('l', 7, 0),
            ('l', 5, 1),
            ('f', 3, 0),
            ('f', 7, 0),
            ('f', 7, 0),
            ('l', 9, 1),
            ('d', 9, 0),
            ('d', 2, 0),
            ('d', 2, 0),
        ],
        &[5, 7, 3, 9, 2],
    ),
];

/// Puts these events into a history, and compares its order.
fn is_ordered(
    rt: &(impl Abort + AllocGlobal),
    shape: &Shape,
    history: &mut History,
    events: &[Row],
    calls: &[u32],
) -> Result<(), Fail> {
    for event in events {
        put(rt.alloc(), history, *event)?;
    }
    if !is_of_shape(history, shape) {
        return Err("an event of another node".into());
    }
    let order = order_of(rt.alloc(), history, shape)?;
    assert_eq!(rt; order.calls(), calls, "{events:?}");
    Ok(())
}

/// Makes a history on a tree with these parents, and lends it.
fn with_history(
    rt: &(impl Abort + AllocGlobal),
    parents: &[i64],
    events: &[Row],
    calls: &[u32],
) -> Result<(), Fail> {
    let shape = Shape::new(rt.alloc(), parents, USUAL_NODES)?;
    let mut history = History::new(rt.alloc(), 100);
    is_ordered(rt, &shape, &mut history, events, calls)
}

#[test]
fn histories_have_their_orders(rt: HostRuntime) -> Result<(), Fail> {
    for (parents, events, calls) in ORDERS {
        with_history(&rt, parents, events, calls)?;
    }
    Ok(())
}

/// A call that locks the root, and then each of 126 children for a moment.
fn visit(alloc: Global, history: &mut History, call: u32) -> Result<(), HistoryFault> {
    put(alloc, history, ('a', call, 0))?;
    put(alloc, history, ('l', call, 0))?;
    for node in 1..127 {
        put(alloc, history, ('l', call, node))?;
        put(alloc, history, ('f', call, node))?;
    }
    put(alloc, history, ('f', call, 0))?;
    put(alloc, history, ('d', call, 0))
}

fn fill(rt: &(impl Abort + AllocGlobal), shape: &Shape, history: &mut History) -> Result<(), Fail> {
    for call in 0..4096 {
        visit(rt.alloc(), history, call)?;
    }
    assert_eq!(rt; history.room(), 0);
    assert!(rt; is_of_shape(history, shape));
    let order = order_of(rt.alloc(), history, shape)?;
    assert_eq!(rt; order.calls().len(), 4096);
    assert!(rt; order.calls().is_sorted());
    Ok(())
}

// Reserving room doesn't move all events each time.
#[test]
fn a_million_events_of_many_calls(rt: HostRuntime) -> Result<(), Fail> {
    let shape = Shape::new(rt.alloc(), &[0; 127], USUAL_NODES)?;
    let mut history = History::new(rt.alloc(), MAX_EVENTS);
    fill(&rt, &shape, &mut history)
}

fn keep(rt: &(impl Abort + AllocGlobal), shape: &Shape) -> Result<(), Fail> {
    if shape.node_count() < 2 {
        return Err("too few nodes".into());
    }
    let mut kept = KeptOrder::new(rt.alloc(), shape.node_count() as usize, 2)?;
    kept.lock(shape, 1, 0);
    kept.lock(shape, 1, 1);
    let found = [kept.holder(0), kept.under(0), kept.under(1)];
    assert_eq!(rt; found, [Some(1), None, Some(1)]);
    assert!(rt; kept.stands(1) && !kept.stands(0));
    Ok(())
}

// A call that locks its first node, and then a child of that.
#[test]
fn an_order_is_kept_by_two_numbers_a_node(rt: HostRuntime) -> Result<(), Fail> {
    let shape = Shape::new(rt.alloc(), &CHAIN, USUAL_NODES)?;
    keep(&rt, &shape)
}

// ---- cores whose order is kept up to date

/// An operation on such a core, or a question.
enum Ask {
    /// Take up the procedure of a text under a name.
    AddProc(&'static str, &'static str),
    Admit(&'static str, &'static [i64]),
    /// Let a call do that many steps: the order after each.
    Steps(u32, u32),
    Proceed(u32),
    /// How many events there are.
    Events,
}

/// The order that is kept up to date. It must be the one that the plain definition gives for the history so far.
fn order(alloc: Global, running: &Running) -> Result<String, Fail> {
    let history = running.core().history();
    let shape = running.core().opening().shape();
    if !is_of_shape(history, shape) {
        return Err("an event of another node".into());
    }
    let kept = running.order().calls();
    if order_of(alloc, history, shape)?.calls() != kept {
        return Err("another order than the plain definition's".into());
    }
    Ok(format!(in alloc; "{kept:?}")?)
}

fn steps(alloc: Global, running: &mut Running, call: u32, count: u32) -> Result<String, Fail> {
    let mut text = String::new(alloc);
    for _step in 0..count {
        running.step(call)?;
        text.push_str(&order(alloc, running)?)?;
    }
    Ok(text)
}

/// The core's answer, and the order after an admission or a part of a call.
fn answer(alloc: Global, running: &mut Running, ask: &Ask) -> Result<String, Fail> {
    Ok(match ask {
        Ask::AddProc(name, text) => {
            let procedure = procedure_of(alloc, text)?;
            format!(in alloc; "{:?}", running.add_proc(alloc, name, procedure))?
        }
        Ask::Admit(name, args) => {
            let admitted = running.admit(alloc, name, args);
            format!(in alloc; "{admitted:?} {}", order(alloc, running)?)?
        }
        Ask::Steps(call, count) => steps(alloc, running, *call, *count)?,
        Ask::Proceed(call) => {
            let proceeded = running.proceed(*call);
            format!(in alloc; "{proceeded:?} {}", order(alloc, running)?)?
        }
        Ask::Events => format!(in alloc; "{}", running.core().history().events().len())?,
    })
}

/// What is asked, one after another, and the answers.
type Asks = &'static [(Ask, &'static str)];

/// A tree, and the questions.
static RUNS: [(&str, Asks); 2] = [
    // Call 2 reaches the second child before call 0, which began first.
    (
        FORK_TREE,
        &[
            (Ask::AddProc("both", BOTH), "Ok(0)"),
            (Ask::AddProc("look", LOOK), "Ok(1)"),
            (Ask::AddProc("store", STORE), "Ok(2)"),
            (Ask::Admit("both", &[11]), "Ok(0) []"),
            (Ask::Steps(0, 4), "[0][0][0][0]"),
            (Ask::Admit("look", &[1]), "Ok(1) [0]"),
            (Ask::Steps(1, 5), "[0, 1][0, 1][0, 1][0, 1][0, 1]"),
            (Ask::Admit("store", &[2, 22]), "Ok(2) [0, 1]"),
            (Ask::Steps(2, 4), "[2, 0, 1][2, 0, 1][2, 0, 1][2, 0, 1]"),
            (
                Ask::Steps(0, 7),
                "[2, 0, 1][2, 0, 1][2, 0, 1][2, 0, 1][2, 0, 1][2, 0, 1][2, 0, 1]",
            ),
            (Ask::Events, "16"),
        ],
    ),
    // Two calls look at one node, the second one while the first one holds it. Each goes from its lock to its free and then to its
    // end.
    (
        ONE_NODE,
        &[
            (Ask::AddProc("look", LOOK), "Ok(0)"),
            (Ask::Admit("look", &[0]), "Ok(0) []"),
            (Ask::Admit("look", &[0]), "Ok(1) []"),
            (
                Ask::Proceed(0),
                "Ok(Moved { action: Lock { node: 0, found: [5, 0, 0, 0, 0, 0, 0, 0] } }) [0]",
            ),
            (Ask::Proceed(1), "Ok(Blocked { node: 0, holder: 0 }) [0]"),
            (Ask::Proceed(1), "Ok(Blocked { node: 0, holder: 0 }) [0]"),
            (
                Ask::Proceed(0),
                "Ok(Moved { action: Free { node: 0, left: [5, 0, 0, 0, 0, 0, 0, 0] } }) [0]",
            ),
            (Ask::Proceed(0), "Ok(Moved { action: End }) [0]"),
            (Ask::Proceed(0), "Ok(Over) [0]"),
            (
                Ask::Proceed(1),
                "Ok(Moved { action: Lock { node: 0, found: [5, 0, 0, 0, 0, 0, 0, 0] } }) [0, 1]",
            ),
            (
                Ask::Proceed(1),
                "Ok(Moved { action: Free { node: 0, left: [5, 0, 0, 0, 0, 0, 0, 0] } }) [0, 1]",
            ),
            (Ask::Proceed(1), "Ok(Moved { action: End }) [0, 1]"),
            (Ask::Proceed(2), "Err(NoCall) [0, 1]"),
        ],
    ),
];

fn answers(rt: &(impl Abort + AllocGlobal), running: &mut Running, asks: Asks) -> Result<(), Fail> {
    for (number, (ask, expected)) in asks.iter().enumerate() {
        let found = answer(rt.alloc(), running, ask)?;
        assert_eq!(rt; found.as_str(), *expected, "question {number}");
    }
    Ok(())
}

/// Makes such a core, and lends it.
fn with_running(rt: &(impl Abort + AllocGlobal), tree: &str, asks: Asks) -> Result<(), Fail> {
    let core = Core::new(rt.alloc(), tree_of(rt.alloc(), tree)?)?;
    let mut running = Running::new(rt.alloc(), core)?;
    answers(rt, &mut running, asks)
}

#[test]
fn an_order_is_kept_up_to_date(rt: HostRuntime) -> Result<(), Fail> {
    for (tree, asks) in &RUNS {
        with_running(&rt, tree, asks)?;
    }
    Ok(())
}

// ---- calls that run again

/// The records and the replies, one per line.
fn lines(alloc: Global, tree: &Tree, replies: &[Reply]) -> Result<String, Fail> {
    let mut text = write_tree(alloc, tree)?;
    for reply in replies {
        let values = reply.values();
        text.push_str(&format!(in alloc; "\n{values:?}")?)?;
    }
    Ok(text)
}

/// The result of running the calls alone along their order.
fn replayed(alloc: Global, core: &Core) -> Result<String, Fail> {
    let order = conclude(alloc, core)?;
    let (tree, replies) = replay(alloc, &order, core)?;
    lines(alloc, &tree, &replies)
}

/// Looks at no node and at the node, of which the first look is done last, and then runs both again along their order.
fn look_again(rt: &(impl Abort + AllocGlobal), core: &mut Core) -> Result<(), Fail> {
    let alloc = rt.alloc();
    core.add_proc(alloc, "look", procedure_of(alloc, LOOK)?)?;
    core.admit(alloc, "look", &[-1])?;
    core.admit(alloc, "look", &[0])?;
    for call in [1, 1, 1, 1, 1, 0, 0] {
        core.step(call)?;
    }
    let text = replayed(alloc, core)?;
    let expected = "{\"parents\":[0],\"records\":[[5,0,0,0,0,0,0,0]]}\n[5]\n[]";
    assert_eq!(rt; text.as_str(), expected);
    Ok(())
}

#[test]
fn a_call_without_a_lock_runs_again_last(rt: HostRuntime) -> Result<(), Fail> {
    let mut core = Core::new(rt.alloc(), tree_of(rt.alloc(), ONE_NODE)?)?;
    look_again(&rt, &mut core)
}
