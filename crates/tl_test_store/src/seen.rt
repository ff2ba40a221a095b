//! What a store holds, and the core that is made of it.

ghost use Rattle.sqlite_trees.specs.View.{IsClean};
ghost use Rattle.tl_ledger.specs.Contents.{IsAtRest};
ghost use Rattle.std.specs.Prelude.{◌≡◌};

use sqlite_trees::store::Store;
use std::alloc::Global;
use tl_core::Core;
use tl_ledger::{Marks, News};
use tl_store::{Recovered, StoreFault, closing_news, read_stored, rebuild};
use tl_tree::Record;

/// How many nodes, calls, turns, replies and seals are stored; of the core made again its stored turns, its calls, the field 0 of nodes 1 and 3 and the
/// last call's reply; and of what the store gets then the turns, replies and records.
#[derive(Clone, Copy, Debug, PartialEq)]
pub struct Seen {
    pub rows: (u64, u64, u64, u64, u64),
    pub turns: usize,
    pub calls: usize,
    pub fields: (i64, i64),
    pub reply: Option<i64>,
    pub late: (usize, usize, usize),
}

/// What a store with so many rows gets.
#[derive(Drop)]
pub struct Closing {
    pub marks: Marks,
    pub news: News,
}

// The first number that the last call replied.
fn last_reply(core: &Core) -> Option<i64> {
    let last = u32::try_from(core.calls().checked_sub(1)?).ok()?;
    core.reply(last)?.values().first().copied()
}

/// The field 0 of a node; 0 if there is no such node.
pub fn field_of(records: &[Record], node: usize) -> i64 {
    match records.get(node) {
        Some(record) => record[0],
        None => 0,
    }
}

// What is seen of a core that was made again of rows with so many stored turns.
fn seen_of(marks: &Marks, turns: usize, core: &Core, late: &News) -> Seen {
    let records = core.tree().records();
    Seen {
        rows: (
            marks.nodes,
            marks.calls,
            marks.turns,
            marks.replies,
            marks.seals,
        ),
        turns,
        calls: core.calls(),
        fields: (field_of(records, 1), field_of(records, 3)),
        reply: last_reply(core),
        late: (late.turns.len(), late.replies.len(), late.records.len()),
    }
}

/// Makes the core again, and what the store gets then.
pub fn rebuilt<S: Store>(alloc: Global, store: &mut S) -> Result<(Seen, Closing), StoreFault>
    requires { IsClean (S.Store.view store.old) → IsAtRest (S.Store.view store.old) }
{
    let stored = read_stored(alloc, store)?;
    let Recovered { core, marks, turns } = rebuild(alloc, &stored)?;
    let news = closing_news(alloc, &stored, &core)?;
    Ok((
        seen_of(&marks, turns, &core, &news),
        Closing { marks, news },
    ))
}
