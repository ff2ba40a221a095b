//! Files in memory, and the stores in them.

ghost use Rattle.std.specs.Prelude.{◌≡◌, length};

use sqlite_disk::{Crash, Disk, Files, Fuse, Memory};
use sqlite_store::FileStore;
use sqlite_value::row::Row;
use std::alloc::Global;
use std::test::Fail;
use tl_ledger::{Founding, Ledger, Marks, News, found};
use tl_store_file::{Found, Rested, find};

/// A file and its log in memory, that fail from so many uses on.
pub fn files(alloc: Global, log: u64, db: u64) -> Files<Fuse<Memory>> {
    Files {
        log: Fuse::new(Memory::new(alloc), log),
        db: Fuse::new(Memory::new(alloc), db),
    }
}

/// The files after a crash.
pub fn crashed<D: Crash + Drop>(files: Files<D>) -> Files<D> {
    let mut files = files;
    files.log.crash();
    files.db.crash();
    files
}

/// The store that the files hold.
pub fn opened<D: Disk + Drop>(alloc: Global, files: Files<D>) -> Result<Rested<D>, Fail> {
    if !files.may_be_used() {
        return Err("files that may not be used".into());
    }
    match find(alloc, files, 8) {
        Ok(Found::Store(rested)) => Ok(rested),
        Ok(Found::Blank(_)) => Err("no store".into()),
        Err(_) => Err("not opened".into()),
    }
}

/// A store made in blank files. None if that fails.
fn made<D: Disk + Drop>(alloc: Global, files: Files<D>) -> Result<Option<Rested<D>>, Fail> {
    if !files.may_be_used() {
        return Err("files that may not be used".into());
    }
    match find(alloc, files, 7) {
        Ok(Found::Blank(blank)) => Ok(blank.make().ok()),
        Ok(Found::Store(_)) => Err("a store".into()),
        Err(_) => Ok(None),
    }
}

/// A store that was closed, and how much of what came was committed before the disk failed, if it has.
#[derive(Drop)]
pub struct Run<D: Disk> {
    pub files: Files<D>,
    pub commits: usize,
    pub is_whole: bool,
}

/// Commits what came, one after another, until the disk fails. In the end the log is copied into the file.
pub fn commit_each<D: Disk + Drop>(
    alloc: Global,
    rested: Rested<D>,
    marks: Marks,
    all: &[News],
) -> Run<D> {
    let mut ledger = Ledger::new(alloc, rested.store, marks);
    let mut commits = 0usize;
    for news in all {
        if ledger.commit(news).is_err() {
            break;
        }
        commits = commits.saturating_add(1);
    }
    let mut store = ledger.store;
    let is_whole = commits == all.len() && store.checkpoint().is_ok();
    Run {
        files: store.close(),
        commits,
        is_whole,
    }
}

/// Makes a store in blank files, and commits the first contents, and then what came. None if there is no store yet when the disk fails.
pub fn stored<D: Disk + Drop>(
    alloc: Global,
    files: Files<D>,
    first: &Founding,
    all: &[News],
) -> Result<Option<Run<D>>, Fail>
    requires { length first.now.records.items ≡ length first.now.nodes.items }
{
    let Some(rested) = made(alloc, files)? else {
        return Ok(None);
    };
    let mut store = rested.store;
    let mut row = Row::new(alloc);
    let Ok(marks) = found(&mut store, &mut row, first) else {
        return Ok(Some(Run {
            files: store.close(),
            commits: 0,
            is_whole: false,
        }));
    };
    let run = commit_each(alloc, Rested { store }, marks, all);
    Ok(Some(Run {
        files: run.files,
        commits: run.commits.saturating_add(1),
        is_whole: run.is_whole,
    }))
}
