// The first contents of a store.

ghost use Rattle.std.specs.Prelude.{◌≡◌, ◌⊎◌, ◌≤◌, ◌^◌, length, OnOk, IfOk};
ghost use Rattle.sqlite_trees.specs.Tree.{Trees};
ghost use Rattle.sqlite_trees.specs.View.{IsClean, IsQuiet, KeepsSchema, doubt};
ghost use Rattle.tl_ledger.specs.Contents.{Contents, Holds, AreTables, IsAtRest};
ghost use Rattle.tl_ledger.specs.News.{AreEmpty, after_founding, IsMarked, Founds};

use crate::appending::append_all;
use crate::committing::Marks;
use crate::ledger::fits;
use crate::rows::{NodeRow, ProcedureRow, RecordRow};
use crate::schema::{NODE, OPENING, PROCEDURE, RECORD};
use sqlite_trees::error::StoreError;
use sqlite_trees::store::Store;
use sqlite_value::row::Row;

/// What a store begins with: the nodes, a record for each of them, and procedures.
#[derive(Debug, Drop)]
pub struct Founding {
    pub nodes: Vec<NodeRow>,
    /// The record of each node before any call.
    pub records: Vec<RecordRow>,
    pub procedures: Vec<ProcedureRow>,
}

// Writes the first contents, and commits nothing.
fn write_first<S: Store>(store: &mut S, row: &mut Row, first: &Founding) -> Result<(), StoreError>
    requires tables { IsClean (S.Store.view store.old) → AreTables (S.Store.view store.old) }
    requires nodes { length first.now.nodes.items ≤ 2 ^ 62 }
    requires records { length first.now.records.items ≤ 2 ^ 62 }
    requires procedures { length first.now.procedures.items ≤ 2 ^ 62 }
    ensures ok { OnOk result (IsClean (S.Store.view store.new) → Founds (S.Store.view store.old) (S.Store.view store.new) first.now) }
    ensures schema { KeepsSchema (S.Store.view store.old) (S.Store.view store.new) }
    ensures quiet { IsQuiet S.Store.view S.Store.faults S.Store.recovers S.Store.is_shielded store.old store.new }
{
    append_all(store, row, NODE, 0, first.nodes.as_slice())?;
    append_all(store, row, RECORD, 0, first.records.as_slice())?;
    append_all(store, row, OPENING, 0, first.records.as_slice())?;
    append_all(store, row, PROCEDURE, 0, first.procedures.as_slice())?;
    Ok(())
}

// How many rows there are once they are written.
fn first_marks(first: &Founding) -> Marks
    requires { length first.now.records.items ≡ length first.now.nodes.items }
    ensures { (c : Contents) → AreEmpty c → IsMarked (after_founding c first.now) result }
{
    Marks {
        nodes: first.nodes.len() as u64,
        procedures: first.procedures.len() as u64,
        calls: 0,
        turns: 0,
        replies: 0,
        seals: 0,
    }
}

/// Writes the first contents into tables that are there and empty, and commits them, all in one transaction. Returns how many rows there are then. A
/// crash at any moment leaves empty tables, or all of it; once this has returned `Ok`, a crash leaves all of it. After an error use the store no more.
pub fn found<S: Store>(store: &mut S, row: &mut Row, first: &Founding) -> Result<Marks, StoreError>
    requires rest { IsClean (S.Store.view store.old) → IsAtRest (S.Store.view store.old) }
    requires each { length first.now.records.items ≡ length first.now.nodes.items }
    ensures rest { OnOk result (IsClean (S.Store.view store.new) → IsAtRest (S.Store.view store.new)) }
    ensures marks { IfOk result (λ marks. (c : Contents) → AreEmpty c → IsMarked (after_founding c first.now) marks) }
    ensures stored { OnOk result (IsClean (S.Store.view store.new) → (c : Contents) → AreEmpty c
        → Holds (S.Store.view store.old).committed c → Holds (S.Store.view store.new).committed (after_founding c first.now)) }
    ensures durable { OnOk result (IsClean (S.Store.view store.new) → (c : Contents) → AreEmpty c
        → Holds (S.Store.view store.old).committed c → (db : Trees) → S.Store.recovers store.new db → Holds db (after_founding c first.now)) }
    ensures crash { IsClean (S.Store.view store.new) → (c : Contents) → AreEmpty c
        → Holds (S.Store.view store.old).committed c → (db : Trees) → S.Store.recovers store.new db → Holds db c ⊎ Holds db (after_founding c first.now) }
    ensures clean { doubt (S.Store.view store.old).is_clean ≤ doubt (S.Store.view store.new).is_clean }
{
    if !fits(0, first.nodes.len()) || !fits(0, first.procedures.len()) {
        return Err(StoreError::Full);
    }
    if let Err(error) = write_first(store, row, first) {
        store.rollback();
        return Err(error);
    }
    store.commit()?;
    Ok(first_marks(first))
}
