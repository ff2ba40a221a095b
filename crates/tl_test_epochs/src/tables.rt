//! Tables that are sealed, and what stays the same if a seal is refused.

use std::alloc::Global;
use std::process::Abort;
use std::test::Fail;
use tl_core::CoreFault;
use tl_machine::local;
use tl_table::{MAX_EPOCHS, Sent, Table, TableFault};
use tl_test_data::{FORK, LOOK, ONE_NODE};
use tl_test_engines::{Ended, receipt_of, with_table};

const PROCEDURES: [(&str, &str); 1] = [("look", LOOK)];

/// An operation on a table.
enum Ask {
    /// A look at that node is admitted for session 0.
    Admit(i64),
    /// The given number of turns of a call.
    Turns(u32, u32),
    /// A seal.
    Seal,
    /// The reply of a call of an epoch, if it is done.
    Reply(u32, u32),
    /// The number of the current epoch, and how many calls, events and places it has.
    Counts,
}

fn turns(table: &mut Table, call: u32, count: u32) -> Result<bool, TableFault> {
    for _ in 0..count {
        let segment = local(table.state(call)?);
        if let Sent::Finished(_) = table.submit(call, segment)? {
            return Ok(true);
        }
    }
    Ok(false)
}

fn reply(alloc: Global, table: &Table, epoch: u32, call: u32) -> Result<String, Fail> {
    match table.receipt(epoch, call) {
        Ok(Some(receipt)) => {
            let (epoch, reply) = (receipt.epoch, receipt.reply.as_slice());
            Ok(format!(in alloc; "{epoch} {reply:?}")?)
        }
        Ok(None) => Ok(format!(in alloc; "none")?),
        Err(fault) => Ok(format!(in alloc; "{fault:?}")?),
    }
}

fn told(alloc: Global, table: &mut Table, ask: &Ask) -> Result<String, Fail> {
    match *ask {
        Ask::Admit(node) => {
            let admitted = table.admit(alloc, 0, "look", &[node]);
            Ok(format!(in alloc; "{admitted:?}")?)
        }
        Ask::Turns(call, count) => {
            let finished = turns(table, call, count);
            Ok(format!(in alloc; "{finished:?}")?)
        }
        Ask::Seal => {
            let sealed = table.seal(alloc);
            Ok(format!(in alloc; "{sealed:?}")?)
        }
        Ask::Reply(epoch, call) => reply(alloc, table, epoch, call),
        Ask::Counts => {
            let history = table.core().history();
            let (epoch, calls) = (table.epoch(), table.core().calls());
            let (events, room) = (history.len(), history.room());
            Ok(format!(in alloc; "{epoch}: {calls} {events} {room}")?)
        }
    }
}

/// Two calls. While one of them is unfinished, a seal is refused and changes nothing. After the seal, calls are numbered from 0,
/// and receipts of both epochs are available.
const ROWS: [(Ask, &str); 21] = [
    (Ask::Admit(1), "Ok(0)"),
    (Ask::Admit(2), "Ok(1)"),
    (Ask::Turns(1, 3), "Ok(true)"),
    (Ask::Counts, "0: 2 5 1048568"),
    (Ask::Seal, "Err(Core(NotAtRest { call: 0 }))"),
    (Ask::Counts, "0: 2 5 1048568"),
    (Ask::Turns(0, 1), "Ok(false)"),
    (Ask::Seal, "Err(Core(NotAtRest { call: 0 }))"),
    (Ask::Turns(0, 2), "Ok(true)"),
    (Ask::Reply(0, 0), "0 [10]"),
    (Ask::Seal, "Ok(0)"),
    (Ask::Counts, "1: 0 0 1048576"),
    (Ask::Reply(0, 0), "0 [10]"),
    (Ask::Reply(0, 1), "0 [20]"),
    (Ask::Reply(0, 2), "Core(NoCall)"),
    (Ask::Reply(1, 0), "Core(NoCall)"),
    (Ask::Reply(2, 0), "Core(NoCall)"),
    (Ask::Admit(2), "Ok(0)"),
    (Ask::Reply(1, 0), "none"),
    (Ask::Turns(0, 3), "Ok(true)"),
    (Ask::Reply(1, 0), "1 [20]"),
];

fn asked(rt: &impl Abort, alloc: Global, table: &mut Table) -> Result<(), Fail> {
    for (number, (ask, expected)) in ROWS.iter().enumerate() {
        let found = told(alloc, table, ask)?;
        assert_eq!(rt; found.as_str(), *expected, "row {number}");
    }
    Ok(())
}

fn has_two_epochs(rt: &impl Abort, ended: &Ended) {
    assert_eq!(rt; ended.epochs(), 2);
    assert_eq!(rt; ended.order_in(0), [1, 0].as_slice());
    assert_eq!(rt; ended.order_in(1), [0].as_slice());
    for epoch in 0..2 {
        assert_eq!(rt; ended.order_in(epoch), ended.audited_in(epoch));
    }
}

#[test]
fn a_table_is_sealed_at_rest_and_goes_on(rt: HostRuntime) -> Result<(), Fail> {
    with_table(
        rt.alloc(),
        FORK,
        &PROCEDURES,
        1,
        |table| asked(&rt, rt.alloc(), table),
        |(), ended| {
            has_two_epochs(&rt, ended);
            Ok(())
        },
    )
}

// ---- which receipts stand

/// A look in each of two epochs, with the same number, session, procedure, arguments and reply.
fn two_looks(alloc: Global, table: &mut Table) -> Result<(), Fail> {
    table.admit(alloc, 0, "look", &[1])?;
    turns(table, 0, 3)?;
    table.seal(alloc)?;
    table.admit(alloc, 0, "look", &[1])?;
    turns(table, 0, 3)?;
    Ok(())
}

#[test]
fn a_receipt_stands_in_its_own_epoch(rt: HostRuntime) -> Result<(), Fail> {
    with_table(
        rt.alloc(),
        FORK,
        &PROCEDURES,
        1,
        |table| {
            two_looks(rt.alloc(), table)?;
            receipt_of(table, 0, 0)
        },
        |receipt, ended| {
            assert!(rt; ended.stands_in(0, &receipt));
            assert!(rt; !ended.stands_in(1, &receipt));
            Ok(())
        },
    )
}

// ---- the last epoch

/// Seals as often as possible. If both faults are there, a call that isn't done is reported before too many epochs.
fn seal_all(rt: &impl Abort, alloc: Global, table: &mut Table) -> Result<(), Fail> {
    for number in 0..MAX_EPOCHS as u32 - 1 {
        assert_eq!(rt; table.seal(alloc), Ok(number));
    }
    assert_eq!(rt; table.seal(alloc), Err(TableFault::TooManyEpochs));
    table.admit(alloc, 0, "look", &[0])?;
    assert_eq!(rt;
        table.seal(alloc),
        Err(TableFault::Core(CoreFault::NotAtRest { call: 0 }))
    );
    turns(table, 0, 3)?;
    assert_eq!(rt; table.seal(alloc), Err(TableFault::TooManyEpochs));
    assert_eq!(rt; table.epoch(), 255);
    Ok(())
}

#[test]
fn the_last_epoch_is_not_sealed(rt: HostRuntime) -> Result<(), Fail> {
    with_table(
        rt.alloc(),
        ONE_NODE,
        &PROCEDURES,
        1,
        |table| seal_all(&rt, rt.alloc(), table),
        |(), ended| {
            assert_eq!(rt; ended.epochs(), 256);
            assert_eq!(rt; ended.order_in(255), [0].as_slice());
            Ok(())
        },
    )
}
