// Tables.

use crate::ended::Ended;
use std::alloc::Global;
use std::test::Fail;
use tl_core::Core;
use tl_table::{Receipt, Table};
use tl_test_data::{procedure_of, tree_of};

// A table on the tree of a text, with procedures and `sessions` sessions.
fn table_of(
    alloc: Global,
    tree: &str,
    procedures: &[(&str, &str)],
    sessions: u32,
) -> Result<Table, Fail> {
    let mut table = Table::new(alloc, Core::new(alloc, tree_of(alloc, tree)?)?)?;
    begin(alloc, &mut table, procedures, sessions)?;
    Ok(table)
}

fn begin(
    alloc: Global,
    table: &mut Table,
    procedures: &[(&str, &str)],
    sessions: u32,
) -> Result<(), Fail> {
    for (name, text) in procedures {
        table.add_proc(alloc, name, procedure_of(alloc, text)?)?;
    }
    for _ in 0..sessions {
        table.session()?;
    }
    Ok(())
}

// The results of the table, once it is closed.
fn closed(alloc: Global, table: Table) -> Result<Ended, Fail> {
    match table.close() {
        Ok(chain) => Ended::of(alloc, chain, Vec::new(alloc)),
        Err(_) => Err("not closed".into()),
    }
}

/// The receipt of a call of an epoch of the table. An `Err` if the call isn't done.
pub fn receipt_of(table: &Table, epoch: u32, call: u32) -> Result<Receipt, Fail> {
    match table.receipt(epoch, call) {
        Ok(Some(receipt)) => Ok(receipt),
        Ok(None) => Err("no receipt yet".into()),
        Err(fault) => Err(fault.into()),
    }
}

/// Lends a table on the tree of a text, with procedures and `sessions` sessions, to `body`. Then it closes the table, and lends its
/// results to `judge`, with the answer of `body`. It is an `Err` if the table doesn't close, or if an audit of what its calls have
/// done isn't clean.
pub fn with_table<T, U, F, G>(
    alloc: Global,
    tree: &str,
    procedures: &[(&str, &str)],
    sessions: u32,
    body: F,
    judge: G,
) -> Result<U, Fail>
where
    T: Drop,
    F: FnOnce(&mut Table) -> Result<T, Fail>,
    G: FnOnce(T, &Ended) -> Result<U, Fail>,
    requires body { F.IsAlwaysCallable body }
    requires judge { G.IsAlwaysCallable judge }
{
    let mut table = table_of(alloc, tree, procedures, sessions)?;
    let answer = body(&mut table)?;
    let ended = closed(alloc, table)?;
    judge(answer, &ended)
}
