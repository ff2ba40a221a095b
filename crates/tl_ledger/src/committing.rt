// What came since the last commit, in one transaction of the store.

ghost use Rattle.std.specs.Prelude.{◌≡◌, ◌≤◌, ◌⊎◌, OnOk, OnErr};
ghost use Rattle.sqlite_trees.specs.Tree.{Trees};
ghost use Rattle.sqlite_trees.specs.View.{IsClean, IsQuiet, KeepsSchema, doubt};
ghost use Rattle.tl_ledger.specs.Contents.{Contents, Holds, AreTables, IsAtRest};
ghost use Rattle.tl_ledger.specs.News.{after_news, IsMarked, HasRoom, Adds};

use crate::appending::{append_all, append_zeros};
use crate::changing::put_changes;
use crate::news::News;
use crate::schema::{CALL, NODE, PROCEDURE, REPLY, SEAL, TURN};
use sqlite_trees::error::StoreError;
use sqlite_trees::store::Store;
use sqlite_value::row::Row;

/// How many nodes there are, and how many rows the tables that grow have.
#[derive(Clone, Copy, Debug, PartialEq, Eq)]
pub struct Marks {
    pub nodes: u64,
    pub procedures: u64,
    pub calls: u64,
    pub turns: u64,
    pub replies: u64,
    pub seals: u64,
}

// Writes what came, and commits nothing.
fn write_news<S: Store>(
    store: &mut S,
    row: &mut Row,
    marks: &Marks,
    news: &News,
) -> Result<(), StoreError>
    requires tables { IsClean (S.Store.view store.old) → AreTables (S.Store.view store.old) }
    requires room { HasRoom marks.now news.now }
    ensures ok { OnOk result (IsClean (S.Store.view store.new) → Adds (S.Store.view store.old) (S.Store.view store.new) marks.now news.now) }
    ensures schema { KeepsSchema (S.Store.view store.old) (S.Store.view store.new) }
    ensures quiet { IsQuiet S.Store.view S.Store.faults S.Store.recovers S.Store.is_shielded store.old store.new }
{
    append_all(store, row, NODE, marks.nodes, news.nodes.as_slice())?;
    append_zeros(store, row, marks.nodes, news.nodes.as_slice())?;
    append_all(
        store,
        row,
        PROCEDURE,
        marks.procedures,
        news.procedures.as_slice(),
    )?;
    append_all(store, row, CALL, marks.calls, news.calls.as_slice())?;
    append_all(store, row, TURN, marks.turns, news.turns.as_slice())?;
    append_all(store, row, REPLY, marks.replies, news.replies.as_slice())?;
    append_all(store, row, SEAL, marks.seals, news.seals.as_slice())?;
    let nodes = marks.nodes + news.nodes.len() as u64;
    put_changes(store, row, nodes, news.records.as_slice())?;
    Ok(())
}

/// Writes what came and commits it. A crash at any moment leaves what was committed before, or that with all of it; once this
/// has returned `Ok`, a crash leaves all of it. After an error use the store no more.
pub fn commit_news<S: Store>(
    store: &mut S,
    row: &mut Row,
    marks: &Marks,
    news: &News,
) -> Result<(), StoreError>
    requires rest { IsClean (S.Store.view store.old) → IsAtRest (S.Store.view store.old) }
    requires room { HasRoom marks.now news.now }
    ensures rest { OnOk result (IsClean (S.Store.view store.new) → IsAtRest (S.Store.view store.new)) }
    ensures stored { OnOk result (IsClean (S.Store.view store.new) → (c : Contents) → IsMarked c marks.now
        → Holds (S.Store.view store.old).committed c → Holds (S.Store.view store.new).committed (after_news c news.now)) }
    ensures durable { OnOk result (IsClean (S.Store.view store.new) → (c : Contents) → IsMarked c marks.now
        → Holds (S.Store.view store.old).committed c → (db : Trees) → S.Store.recovers store.new db → Holds db (after_news c news.now)) }
    ensures crash { IsClean (S.Store.view store.new) → (c : Contents) → IsMarked c marks.now
        → Holds (S.Store.view store.old).committed c → (db : Trees) → S.Store.recovers store.new db → Holds db c ⊎ Holds db (after_news c news.now) }
    ensures clean { doubt (S.Store.view store.old).is_clean ≤ doubt (S.Store.view store.new).is_clean }
{
    if let Err(error) = write_news(store, row, marks, news) {
        store.rollback();
        return Err(error);
    }
    store.commit()?;
    Ok(())
}
