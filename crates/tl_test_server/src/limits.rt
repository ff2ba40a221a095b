//! The limits of the server.

use std::test::Fail;
use tl_keys::CAPACITY;
use tl_server::{MAX_CONNECTIONS, MAX_KEY, MAX_LINE, MAX_PLACES};

/// Each limit's constant, and its number in the documents.
const LIMITS: [(&str, usize, usize); 5] = [
    ("bytes of a server's line", MAX_LINE, 65_536),
    ("bytes of a call's key", MAX_KEY, 64),
    ("calls with a key that are remembered", CAPACITY, 65_536),
    (
        "connections of a server at once, if not said",
        MAX_CONNECTIONS as usize,
        8,
    ),
    (
        "connections of a server at once",
        MAX_PLACES as usize,
        1_024,
    ),
];

#[test]
fn limits_are_as_documented(rt: HostRuntime) -> Result<(), Fail> {
    for (limit, constant, number) in LIMITS {
        assert_eq!(rt; constant, number, "{limit}");
    }
    Ok(())
}
