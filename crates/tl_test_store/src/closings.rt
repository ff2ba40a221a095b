//! What a store gets after a recovery.

use crate::files::{commit_each, files, opened, stored};
use crate::seen::{Closing, field_of, rebuilt};
use crate::steps::{all_news, first};
use sqlite_disk::{Disk, Files};
use std::alloc::Global;
use std::test::Fail;
use tl_store::recover;

// What a store gets, and its files.
fn closing_of<D: Disk + Drop>(alloc: Global, files: Files<D>) -> Result<(Closing, Files<D>), Fail> {
    let mut rested = opened(alloc, files)?;
    match rebuilt(alloc, &mut rested.store) {
        Ok((_, closing)) => Ok((closing, rested.store.close())),
        Err(_) => Err("not made again".into()),
    }
}

// The calls and the field 0 of node 1 of a core that is recovered.
fn recovered<D: Disk + Drop>(alloc: Global, files: Files<D>) -> Result<(usize, i64), Fail> {
    let mut rested = opened(alloc, files)?;
    match recover(alloc, &mut rested.store) {
        Ok(found) => Ok((found.core.calls(), field_of(found.core.tree().records(), 1))),
        Err(_) => Err("not recovered".into()),
    }
}

#[test]
fn what_was_open_is_sealed(rt: HostRuntime) -> Result<(), Fail> {
    let alloc = rt.alloc();
    let first = first(alloc)?;
    let mut all = all_news(alloc)?;
    all.truncate(2);
    let files = files(alloc, u64::MAX, u64::MAX);
    let Some(run) = stored(alloc, files, &first, all.as_slice())? else {
        return Err("not stored".into());
    };
    let (closing, files) = closing_of(alloc, run.files)?;
    let mut all = Vec::new(alloc);
    all.push(closing.news)?;
    let run = commit_each(alloc, opened(alloc, files)?, closing.marks, all.as_slice());
    assert_eq!(rt; recovered(alloc, run.files)?, (0, 22));
    Ok(())
}
