//! Cores: many calls that take turns, one step at a time. The command `drive` tests what many calls do together.

use crate::texts::{ADD, BOTH, CHAIN, FORK, LOOK, ONE_NODE, STORE, WALK, procedure_of, tree_of};
use std::alloc::Global;
use std::process::Abort;
use std::test::Fail;
use tl_core::{Core, CoreFault, Followed, TurnOutcome};
use tl_machine::local;

/// An operation on a core, or a question.
enum Ask {
    /// Take up the procedure of a text under a name.
    AddProc(&'static str, &'static str),
    Admit(&'static str, &'static [i64]),
    Step(u32),
    /// Let these calls step, one after another. After each step: which call is enabled, and how many nodes are held.
    Steps(&'static [u32]),
    /// Let a call follow its next segment, which is run outside the core.
    Follow(u32),
    /// Lend a call, let it run by itself outside the core, and take over its turn.
    Lead(u32),
    /// The same, but the call has done a step in between.
    LeadLate(u32),
    /// Whether a call is at the beginning of another call's next segment.
    IsAt(u32, u32),
    Enabled(u32),
    SomeEnabled,
    /// The record and the holder of a node.
    Node(u32),
}

/// How many nodes are held.
fn held(core: &Core) -> u32 {
    let mut count: u32 = 0;
    for node in 0..core.opening().shape().node_count() {
        if core.holder(node).is_some() {
            count = count.saturating_add(1);
        }
    }
    count
}

fn steps(alloc: Global, core: &mut Core, calls: &[u32]) -> Result<String, Fail> {
    let mut text = String::new(alloc);
    for call in calls {
        core.step(*call)?;
        let least = core.some_enabled();
        let count = held(core);
        text.push_str(&format!(in alloc; "{least:?} {count}, ")?)?;
    }
    Ok(text)
}

fn follow(core: &mut Core, call: u32) -> Result<&'static str, CoreFault> {
    let segment = local(core.turn(call)?);
    match core.follow(call, segment)? {
        Followed::Went(_) => Ok("went"),
        Followed::Blocked { .. } => Ok("blocked"),
        Followed::Finished(_) => Ok("finished"),
    }
}

fn lead(core: &mut Core, call: u32, is_late: bool) -> Result<&'static str, CoreFault> {
    let Some(mut lent) = core.lend(call)? else {
        return Ok("done");
    };
    lent.run_local();
    if is_late {
        core.step(call)?;
    }
    match core.lead(call, &mut lent)? {
        TurnOutcome::Advanced { .. } => Ok("advanced"),
        TurnOutcome::Blocked { .. } => Ok("blocked"),
        TurnOutcome::Finished => Ok("finished"),
    }
}

fn is_at(core: &Core, call: u32, other: u32) -> Result<bool, CoreFault> {
    let segment = local(core.turn(other)?);
    core.is_at(call, segment.from())
}

fn node(alloc: Global, core: &Core, node: u32) -> Result<String, Fail> {
    if node >= core.opening().shape().node_count() {
        return Err("no such node".into());
    }
    let record = core.record_at(node);
    let holder = core.holder(node);
    Ok(format!(in alloc; "{record:?} {holder:?}")?)
}

/// The core's answer.
fn answer(alloc: Global, core: &mut Core, ask: &Ask) -> Result<String, Fail> {
    Ok(match ask {
        Ask::AddProc(name, text) => {
            let procedure = procedure_of(alloc, text)?;
            format!(in alloc; "{:?}", core.add_proc(alloc, name, procedure))?
        }
        Ask::Admit(name, args) => format!(in alloc; "{:?}", core.admit(alloc, name, args))?,
        Ask::Step(call) => format!(in alloc; "{:?}", core.step(*call))?,
        Ask::Steps(calls) => steps(alloc, core, calls)?,
        Ask::Follow(call) => format!(in alloc; "{:?}", follow(core, *call))?,
        Ask::Lead(call) => format!(in alloc; "{:?}", lead(core, *call, false))?,
        Ask::LeadLate(call) => format!(in alloc; "{:?}", lead(core, *call, true))?,
        Ask::IsAt(call, other) => format!(in alloc; "{:?}", is_at(core, *call, *other))?,
        Ask::Enabled(call) => format!(in alloc; "{:?}", core.enabled(*call))?,
        Ask::SomeEnabled => format!(in alloc; "{:?}", core.some_enabled())?,
        Ask::Node(number) => node(alloc, core, *number)?,
    })
}

/// What a core is asked, one after another, and its answers.
type Asks = &'static [(Ask, &'static str)];

/// A tree, how many events there is room for, and the questions.
static CORES: [(&str, usize, Asks); 8] = [
    // A call waits for another.
    (
        FORK,
        16,
        &[
            (Ask::AddProc("store", STORE), "Ok(0)"),
            (Ask::Admit("store", &[2, 22]), "Ok(0)"),
            (Ask::Admit("store", &[2, 33]), "Ok(1)"),
            (
                Ask::Step(0),
                "Ok(Moved { action: Lock { node: 2, found: [20, 0, 0, 0, 0, 0, 0, 0] } })",
            ),
            (Ask::Node(2), "[20, 0, 0, 0, 0, 0, 0, 0] Some(0)"),
            (Ask::Step(1), "Ok(Blocked { node: 2, holder: 0 })"),
            (Ask::Enabled(1), "Ok(false)"),
            (Ask::SomeEnabled, "Some(0)"),
        ],
    ),
    // A call of this procedure may store four events, and an admission has room for them.
    (
        ONE_NODE,
        7,
        &[
            (Ask::AddProc("add", ADD), "Ok(0)"),
            (Ask::Admit("add", &[0, 3]), "Ok(0)"),
            (Ask::Admit("add", &[0, 4]), "Err(HistoryFull)"),
            (Ask::Admit("add", &[0]), "Err(WrongArgs)"),
            (Ask::Admit("none", &[]), "Err(NoProcedure)"),
        ],
    ),
    (
        ONE_NODE,
        8,
        &[
            (Ask::AddProc("add", ADD), "Ok(0)"),
            (Ask::Admit("add", &[0, 3]), "Ok(0)"),
            (Ask::Admit("add", &[0, 4]), "Ok(1)"),
            (Ask::Admit("add", &[0]), "Err(WrongArgs)"),
            (Ask::Admit("none", &[]), "Err(NoProcedure)"),
        ],
    ),
    // A name can be taken up only once.
    (
        FORK,
        16,
        &[
            (Ask::AddProc("store", STORE), "Ok(0)"),
            (Ask::AddProc("store", LOOK), "Err(NameTaken)"),
            (Ask::AddProc("a b", LOOK), "Err(BadName)"),
        ],
    ),
    // A call that goes down a chain holds one node or two between its first lock and its last free.
    (
        CHAIN,
        100,
        &[
            (Ask::AddProc("walk", WALK), "Ok(0)"),
            (Ask::Admit("walk", &[0]), "Ok(0)"),
            (
                Ask::Steps(&[0, 0, 0, 0, 0, 0, 0, 0]),
                "Some(0) 1, Some(0) 1, Some(0) 2, Some(0) 1, Some(0) 1, Some(0) 1, Some(0) 2, Some(0) 1, ",
            ),
            (
                Ask::Steps(&[0, 0, 0, 0, 0, 0, 0]),
                "Some(0) 1, Some(0) 1, Some(0) 1, Some(0) 1, Some(0) 1, Some(0) 0, None 0, ",
            ),
            (Ask::Step(0), "Ok(Over)"),
        ],
    ),
    // Call 1 holds node 2 when call 0 asks for it, and call 0 goes on once the node is free.
    (
        FORK,
        100,
        &[
            (Ask::AddProc("both", BOTH), "Ok(0)"),
            (Ask::AddProc("look", LOOK), "Ok(1)"),
            (Ask::SomeEnabled, "None"),
            (Ask::Admit("both", &[11]), "Ok(0)"),
            (Ask::Admit("look", &[2]), "Ok(1)"),
            (Ask::SomeEnabled, "Some(0)"),
            (
                Ask::Steps(&[1, 0, 0, 0, 0, 0]),
                "Some(0) 1, Some(0) 2, Some(0) 3, Some(0) 3, Some(0) 2, Some(1) 2, ",
            ),
            (Ask::Step(0), "Ok(Blocked { node: 2, holder: 1 })"),
            (
                Ask::Steps(&[0, 1, 1, 1, 1]),
                "Some(1) 2, Some(1) 2, Some(1) 2, Some(0) 1, Some(0) 1, ",
            ),
            (
                Ask::Steps(&[0, 0, 0, 0, 0, 0]),
                "Some(0) 2, Some(0) 2, Some(0) 2, Some(0) 1, Some(0) 0, None 0, ",
            ),
        ],
    ),
    // Segments that are run elsewhere: call 0 locks node 2, stores, frees it and ends.
    (
        FORK,
        16,
        &[
            (Ask::AddProc("store", STORE), "Ok(0)"),
            (Ask::Admit("store", &[2, 22]), "Ok(0)"),
            (Ask::Admit("store", &[2, 33]), "Ok(1)"),
            (Ask::IsAt(0, 1), "Ok(false)"),
            (Ask::Follow(0), "Ok(\"went\")"),
            (Ask::Follow(1), "Ok(\"blocked\")"),
            (Ask::Follow(0), "Ok(\"went\")"),
            (Ask::Follow(1), "Ok(\"went\")"),
            (Ask::Follow(0), "Ok(\"finished\")"),
            (Ask::Follow(0), "Err(NotFrom)"),
            (Ask::Follow(1), "Ok(\"went\")"),
            (Ask::Follow(2), "Err(NoCall)"),
            (Ask::Node(2), "[33, 0, 0, 0, 0, 0, 0, 0] None"),
        ],
    ),
    // The same with calls that are lent.
    (
        FORK,
        16,
        &[
            (Ask::AddProc("store", STORE), "Ok(0)"),
            (Ask::Admit("store", &[2, 22]), "Ok(0)"),
            (Ask::Admit("store", &[2, 33]), "Ok(1)"),
            (Ask::Lead(0), "Ok(\"advanced\")"),
            (Ask::Lead(1), "Ok(\"blocked\")"),
            (Ask::LeadLate(0), "Err(NotFrom)"),
            (Ask::Lead(0), "Ok(\"advanced\")"),
            (Ask::Lead(1), "Ok(\"advanced\")"),
            (Ask::Lead(0), "Ok(\"finished\")"),
            (Ask::Lead(0), "Ok(\"done\")"),
            (Ask::Lead(1), "Ok(\"advanced\")"),
            (Ask::Lead(2), "Err(NoCall)"),
            (Ask::Node(2), "[33, 0, 0, 0, 0, 0, 0, 0] None"),
        ],
    ),
];

fn answers(rt: &(impl Abort + AllocGlobal), core: &mut Core, asks: Asks) -> Result<(), Fail> {
    for (number, (ask, expected)) in asks.iter().enumerate() {
        let found = answer(rt.alloc(), core, ask)?;
        assert_eq!(rt; found.as_str(), *expected, "question {number}");
    }
    Ok(())
}

/// Makes a core, and lends it.
fn with_core(
    rt: &(impl Abort + AllocGlobal),
    tree: &str,
    limit: usize,
    asks: Asks,
) -> Result<(), Fail> {
    if limit > 1_048_576 {
        return Err("more events than a history has".into());
    }
    let tree = tree_of(rt.alloc(), tree)?;
    let mut core = Core::with_limit(rt.alloc(), tree, limit)?;
    answers(rt, &mut core, asks)
}

#[test]
fn cores_answer_what_their_rows_say(rt: HostRuntime) -> Result<(), Fail> {
    for (tree, limit, asks) in &CORES {
        with_core(&rt, tree, *limit, asks)?;
    }
    Ok(())
}
