//! Tables: calls of sessions, run by a test that takes their state and submits what they do.

use std::alloc::Global;
use std::process::Abort;
use std::test::Fail;
use tl_core::CoreFault;
use tl_machine::local;
use tl_table::{Receipt, Sent, Table, TableFault};
use tl_test_data::{FORK, LOOK, STORE};
use tl_test_engines::{Ended, receipt_of, with_table};

/// The result of a call's next segment, in a word.
fn turn(table: &mut Table, call: u32) -> Result<&'static str, TableFault> {
    let segment = local(table.state(call)?);
    match table.submit(call, segment)? {
        Sent::Went(_) => Ok("went"),
        Sent::Blocked => Ok("blocked"),
        Sent::Finished(_) => Ok("finished"),
    }
}

/// The session for which a call is asked for, and the answer.
const ADMISSIONS: [(u32, Result<u32, TableFault>); 3] = [
    (1, Ok(0)),
    (0, Ok(1)),
    (2, Err(TableFault::NoSession)),
];

/// Whose turn is next, and its result: call 1 waits for call 0.
const TURNS: [(u32, Result<&str, TableFault>); 9] = [
    (0, Ok("went")),
    (1, Ok("blocked")),
    (0, Ok("went")),
    (0, Ok("finished")),
    (0, Err(TableFault::Stale)),
    (1, Ok("went")),
    (1, Ok("went")),
    (1, Ok("finished")),
    (2, Err(TableFault::Core(CoreFault::NoCall))),
];

/// Two calls of two sessions. Returns the receipt of the first one.
fn two_calls(rt: &impl Abort, alloc: Global, table: &mut Table) -> Result<Receipt, Fail> {
    for (session, answer) in ADMISSIONS {
        assert_eq!(rt;
            table.admit(alloc, session, "store", &[2, 22]),
            answer,
            "{session}"
        );
    }
    for (call, outcome) in TURNS {
        assert_eq!(rt; turn(table, call), outcome, "{call}");
    }
    receipt_of(table, 0, 0)
}

/// The receipt is that of the first call. It stands, but the same receipt with another session doesn't.
fn stands_for_its_session(rt: &impl Abort, receipt: &Receipt, ended: &Ended) {
    assert_eq!(rt; receipt.session, 1);
    assert_eq!(rt; receipt.args.as_slice(), [2, 22].as_slice());
    let mut other = receipt.copy();
    other.session = 0;
    assert!(rt; ended.stands(receipt));
    assert!(rt; !ended.stands(&other));
}

#[test]
fn calls_of_two_sessions_end_with_receipts(rt: HostRuntime) -> Result<(), Fail> {
    with_table(
        rt.alloc(),
        FORK,
        &[("store", STORE), ("look", LOOK)],
        2,
        |table| two_calls(&rt, rt.alloc(), table),
        |receipt, ended| {
            stands_for_its_session(&rt, &receipt, ended);
            Ok(())
        },
    )
}
