// A store with its counts.

ghost use Rattle.std.specs.Prelude.{◌≡◌, ◌⊎◌, ◌↔◌, ◌+◌, ◌<◌, ◌≤◌, ◌^◌, true, false, All, IsTrue, OnOk, OnErr};
ghost use Rattle.sqlite_trees.specs.Tree.{Trees};
ghost use Rattle.sqlite_trees.specs.View.{IsClean, doubt};
ghost use Rattle.tl_ledger.specs.Contents.{Contents, Holds, IsAtRest};
ghost use Rattle.tl_ledger.specs.News.{after_news, IsMarked, HasRoom};

use crate::committing::{Marks, commit_news};
use crate::news::News;
use crate::rows::ChangedRecord;
use sqlite_trees::error::StoreError;
use sqlite_trees::store::Store;
use sqlite_value::row::Row;
use std::alloc::Global;

/// How many rows a table has at most.
const MAX_ROWS: u64 = 1 << 62;

/// A store with its counts. After an error it is shut: it stores nothing more, until the file is opened again.
#[derive(Drop)]
pub struct Ledger<S: Store> {
    pub store: S,
    pub marks: Marks,
    pub is_shut: bool,
    row: Row,
    ghost rests: { is_shut ≡ false → IsClean (S.Store.view store) → IsAtRest (S.Store.view store) },
}

// Whether so many rows more have numbers.
pub(crate) fn fits(count: u64, more: usize) -> bool
    ensures { IsTrue result ↔ (count + more ≤ 2 ^ 62) }
{
    count <= MAX_ROWS && more as u64 <= MAX_ROWS - count
}

// Whether these are records of so many nodes.
fn are_inside(changed: &[ChangedRecord], nodes: u64) -> bool
    ensures { IsTrue result ↔ All (λ r. r.node < nodes) changed.now }
{
    changed.iter().all(|change| change.node < nodes)
}

// Whether all rows more have numbers, and all records are those of nodes.
fn has_room(marks: &Marks, news: &News) -> bool
    ensures { IsTrue result ↔ HasRoom marks.now news.now }
{
    fits(marks.nodes, news.nodes.len())
        && fits(marks.procedures, news.procedures.len())
        && fits(marks.calls, news.calls.len())
        && fits(marks.turns, news.turns.len())
        && fits(marks.replies, news.replies.len())
        && fits(marks.seals, news.seals.len())
        && are_inside(
            news.records.as_slice(),
            marks.nodes + news.nodes.len() as u64,
        )
}

// The counts once this is stored.
fn marks_after(marks: &Marks, news: &News) -> Marks
    requires { HasRoom marks.now news.now }
    ensures { (c : Contents) → IsMarked c marks.now → IsMarked (after_news c news.now) result }
{
    Marks {
        nodes: marks.nodes + news.nodes.len() as u64,
        procedures: marks.procedures + news.procedures.len() as u64,
        calls: marks.calls + news.calls.len() as u64,
        turns: marks.turns + news.turns.len() as u64,
        replies: marks.replies + news.replies.len() as u64,
        seals: marks.seals + news.seals.len() as u64,
    }
}

impl<S: Store> Ledger<S> {
    /// A ledger over a store at rest.
    pub fn new(alloc: Global, store: S, marks: Marks) -> Ledger<S>
        requires { IsClean (S.Store.view store) → IsAtRest (S.Store.view store) }
        ensures { (result.store ≡ store) × (result.marks ≡ marks) × (result.is_shut ≡ false) }
    {
        Ledger {
            store,
            marks,
            is_shut: false,
            row: Row::new(alloc),
        }
    }

    /// Stores what came, in one transaction. A crash at any moment leaves what was stored before, or that with all of it; after `Ok`,
    /// it leaves all of it. After an error the ledger is shut.
    pub fn commit(&mut self, news: &News) -> Result<(), StoreError>
        ensures open { OnOk result (self.new.is_shut ≡ false) }
        ensures shut { OnErr result (self.new.is_shut ≡ true) }
        ensures stored { OnOk result (IsClean (S.Store.view self.new.store) → (c : Contents) → IsMarked c self.old.marks
            → Holds (S.Store.view self.old.store).committed c
            → Holds (S.Store.view self.new.store).committed (after_news c news.now) × IsMarked (after_news c news.now) self.new.marks) }
        ensures durable { OnOk result (IsClean (S.Store.view self.new.store) → (c : Contents) → IsMarked c self.old.marks
            → Holds (S.Store.view self.old.store).committed c → (db : Trees) → S.Store.recovers self.new.store db → Holds db (after_news c news.now)) }
        ensures crash { self.old.is_shut ≡ false → IsClean (S.Store.view self.new.store) → (c : Contents) → IsMarked c self.old.marks
            → Holds (S.Store.view self.old.store).committed c → (db : Trees) → S.Store.recovers self.new.store db → Holds db c ⊎ Holds db (after_news c news.now) }
        ensures clean { doubt (S.Store.view self.old.store).is_clean ≤ doubt (S.Store.view self.new.store).is_clean }
    {
        if self.is_shut {
            return Err(StoreError::Broken);
        }
        let marks = self.marks;
        if !has_room(&marks, news) {
            self.is_shut = true;
            return Err(StoreError::Full);
        }
        self.is_shut = true;
        commit_news(&mut self.store, &mut self.row, &marks, news)?;
        self.marks = marks_after(&marks, news);
        self.is_shut = false;
        Ok(())
    }
}
