//! The limits of tables and engines.

use std::test::Fail;
use tl_table::{MAX_EPOCHS, MAX_SESSIONS};
use tl_workers::{MAX_READY, MAX_REQUESTS, MAX_WORKERS};

/// Each limit's constant, and its number in the documents.
const LIMITS: [(&str, usize, usize); 5] = [
    ("epochs of a table", MAX_EPOCHS, 256),
    ("sessions of a table", MAX_SESSIONS as usize, 65_535),
    ("requests of a batch", MAX_REQUESTS, 256),
    ("workers of a batch", MAX_WORKERS, 16),
    ("calls that stand ready", MAX_READY, 64),
];

#[test]
fn limits_are_as_documented(rt: HostRuntime) -> Result<(), Fail> {
    for (limit, constant, number) in LIMITS {
        assert_eq!(rt; constant, number, "{limit}");
    }
    Ok(())
}
