//! What was committed is found after a crash.

use crate::files::{crashed, files, opened, stored};
use crate::seen::{Seen, rebuilt};
use crate::steps::{FOUND, all_news, first};
use sqlite_disk::{Disk, Files};
use std::alloc::Global;
use std::process::Abort;
use std::test::Fail;

// What is found in a store. None if no core is made of it.
fn found_in<D: Disk + Drop>(alloc: Global, files: Files<D>) -> Result<Option<Seen>, Fail> {
    let mut rested = opened(alloc, files)?;
    match rebuilt(alloc, &mut rested.store) {
        Ok((seen, _)) => Ok(Some(seen)),
        Err(_) => Ok(None),
    }
}

// Lets the log fail, or the file, from its first use on, its second, and so on, until it fails no more. After how many that is.
fn each_crash(rt: &impl Abort, alloc: Global, of_log: bool) -> Result<u64, Fail> {
    let first = first(alloc)?;
    let all = all_news(alloc)?;
    for uses in 0..1000u64 {
        let files = if of_log {
            files(alloc, uses, u64::MAX)
        } else {
            files(alloc, u64::MAX, uses)
        };
        let Some(run) = stored(alloc, files, &first, all.as_slice())? else {
            continue;
        };
        let seen = found_in(alloc, crashed(run.files))?;
        let next = run.commits.saturating_add(1);
        assert!(rt;
            FOUND.get(run.commits) == Some(&seen) || FOUND.get(next) == Some(&seen),
            "after {uses} uses"
        );
        if run.is_whole {
            return Ok(uses);
        }
    }
    Err("the disk always fails".into())
}

#[test]
fn a_log_that_fails(rt: HostRuntime) -> Result<(), Fail> {
    let uses = each_crash(&rt, rt.alloc(), true)?;
    assert!(rt; uses > 50);
    Ok(())
}

#[test]
fn a_file_that_fails(rt: HostRuntime) -> Result<(), Fail> {
    let uses = each_crash(&rt, rt.alloc(), false)?;
    assert!(rt; uses > 20);
    Ok(())
}
