// A commit, a crash, and the next open.

ghost use Rattle.std.specs.Prelude.{◌≡◌, ◌⊎◌, IsTrue, IfOk};
ghost use Rattle.sqlite_trees.specs.View.{IsClean};
ghost use Rattle.tl_ledger.specs.Contents.{Contents, Holds, IsAtRest};
ghost use Rattle.tl_ledger.specs.News.{after_news, IsMarked, HasRoom};

use crate::committing::{Marks, commit_news};
use crate::news::News;
use sqlite_trees::error::StoreError;
use sqlite_trees::store::Reopen;
use sqlite_value::row::Row;

/// Commits what came on a disk that can crash, lets it crash, and opens it again. Returns whether the commit was answered. If it
/// was, all of it is found; else what was there before is found, or that with all of it.
pub fn commit_and_crash<S: Reopen>(
    store: &mut S,
    row: &mut Row,
    marks: &Marks,
    news: &News,
) -> Result<bool, StoreError>
    requires rest { IsClean (S.Store.view store.old) → IsAtRest (S.Store.view store.old) }
    requires room { HasRoom marks.now news.now }
    ensures answered { IsClean (S.Store.view store.new) → (c : Contents) → IsMarked c marks.now → Holds (S.Store.view store.old).committed c
        → IfOk result (λ done. IsTrue done → Holds (S.Store.view store.new).committed (after_news c news.now)) }
    ensures whole { IsClean (S.Store.view store.new) → (c : Contents) → IsMarked c marks.now → Holds (S.Store.view store.old).committed c
        → IfOk result (λ done. Holds (S.Store.view store.new).committed c ⊎ Holds (S.Store.view store.new).committed (after_news c news.now)) }
{
    match commit_news(store, row, marks, news) {
        Ok(()) => {
            store.crash_and_reopen()?;
            Ok(true)
        }
        Err(_) => {
            store.crash_and_reopen()?;
            Ok(false)
        }
    }
}
