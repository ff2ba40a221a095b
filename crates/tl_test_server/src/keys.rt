//! What is remembered of calls that had a key.

use std::alloc::{AllocError, Global};
use std::test::Fail;
use tl_keys::{CAPACITY, Kept, KeyIndex};

/// Remembers a call of that number, whose reply is the number, under a key that is the number too.
fn remember(alloc: Global, index: &mut KeyIndex, number: i64) -> Result<(), AllocError> {
    let key = format!(in alloc; "{number}")?;
    let kept = Kept::new(alloc, 7, number, &[number])?;
    index.remember(alloc, key, kept)
}

/// The number of the call that is remembered under the number's key.
fn found(alloc: Global, index: &KeyIndex, number: i64) -> Result<Option<i64>, AllocError> {
    let key = format!(in alloc; "{number}")?;
    match index.find(&key) {
        Some(kept) => Ok(Some(kept.copy(alloc)?.call())),
        None => Ok(None),
    }
}

#[test]
fn the_latest_calls_are_remembered(rt: HostRuntime) -> Result<(), Fail> {
    let alloc = rt.alloc();
    let mut index = KeyIndex::new(alloc);
    let part = CAPACITY as i64;
    for number in 0..2 * part + 1 {
        remember(alloc, &mut index, number)?;
    }
    assert_eq!(rt; found(alloc, &index, 0)?, None);
    assert_eq!(rt; found(alloc, &index, part - 1)?, None);
    assert_eq!(rt; found(alloc, &index, part)?, Some(part));
    assert_eq!(rt; found(alloc, &index, 2 * part)?, Some(2 * part));
    assert_eq!(rt; found(alloc, &index, 2 * part + 1)?, None);
    Ok(())
}
