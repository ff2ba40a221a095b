// Calls of a table's session.

ghost use Rattle.tl_table.specs.Tables.{IsChain};

use crate::halt::Halt;
use crate::judging::{judge, judge_all, print_order, print_records};
use crate::making::{procedure_of, tree_of};
use crate::seen::Seen;
use std::alloc::Global;
use tl_core::Core;
use tl_machine::local;
use tl_table::{Closed, Sent, Table, TableFault};
use tl_test_data::{FORK, STORE};

/// How many calls are asked for.
const CALLS: i64 = 20;

/// How many epochs are sealed before the last one.
const EPOCHS: u32 = 2;

/// How many turns a call takes at most.
const TURNS: u32 = 10;

/// Runs calls of a table, and prints each result.
pub fn run(rt: &impl Print, alloc: Global) -> Result<(), Halt> {
    let mut table = new_table(alloc)?;
    run_on(rt, alloc, &mut table)?;
    close(rt, alloc, table)
}

fn run_on(rt: &impl Print, alloc: Global, table: &mut Table) -> Result<(), Halt> {
    register(alloc, table)?;
    let session = table.session().map_err(|_| Halt::Refused)?;
    for _ in 0..EPOCHS {
        run_epoch(rt, alloc, table, session)?;
        let sealed = seal(alloc, table)?;
        println!(rt; "sealed {sealed}")?;
    }
    run_epoch(rt, alloc, table, session)
}

fn run_epoch(rt: &impl Print, alloc: Global, table: &mut Table, session: u32) -> Result<(), Halt> {
    for value in 0..CALLS {
        let answer = admit(alloc, table, session, &[2, value])?;
        println!(rt; "store {value}: {answer:?}")?;
    }
    let answer = admit(alloc, table, 7, &[2, 0])?;
    println!(rt; "of another session: {answer:?}")?;
    send_all(rt, table)
}

fn new_table(alloc: Global) -> Result<Table, Halt> {
    if let Ok(table) = table_at_once(alloc) {
        return Ok(table);
    }
    table_at_once(alloc)
}

fn table_at_once(alloc: Global) -> Result<Table, Halt> {
    let tree = tree_of(alloc, FORK)?;
    let core = Core::new(alloc, tree).map_err(|_| Halt::Refused)?;
    Table::new(alloc, core).map_err(|_| Halt::Refused)
}

fn register(alloc: Global, table: &mut Table) -> Result<(), Halt> {
    let procedure = procedure_of(alloc, STORE)?;
    let before = Seen::of(table.core());
    if table.add_proc(alloc, "store", procedure).is_ok() {
        return Ok(());
    }
    before.stands(table.core())?;
    let procedure = procedure_of(alloc, STORE)?;
    if table.add_proc(alloc, "store", procedure).is_err() {
        return Err(Halt::Refused);
    }
    Ok(())
}

// If memory is refused, the table is unchanged and is asked again.
fn admit(
    alloc: Global,
    table: &mut Table,
    session: u32,
    args: &[i64],
) -> Result<Result<u32, TableFault>, Halt> {
    let before = Seen::of(table.core());
    let answer = table.admit(alloc, session, "store", args);
    if answer != Err(TableFault::Memory) {
        return Ok(answer);
    }
    before.stands(table.core())?;
    let answer = table.admit(alloc, session, "store", args);
    if answer == Err(TableFault::Memory) {
        return Err(Halt::Refused);
    }
    Ok(answer)
}

// Runs the turns of each call. After the last admission nothing takes memory: if the first of these lines is printed, so is the
// second.
fn send_all(rt: &impl Print, table: &mut Table) -> Result<(), Halt> {
    rt.println("all calls are admitted")?;
    for call in 0..table.core().calls() as u32 {
        send_each(table, call)?;
    }
    rt.println("all steps are done")?;
    Ok(())
}

fn send_each(table: &mut Table, call: u32) -> Result<(), Halt> {
    for _ in 0..TURNS {
        let Ok(turn) = table.state(call) else {
            return Err(Halt::Refused);
        };
        match table.submit(call, local(turn)) {
            Ok(Sent::Finished(_)) => return Ok(()),
            Ok(_) => {}
            Err(_) => return Err(Halt::Changed),
        }
    }
    Err(Halt::Changed)
}

// If memory is refused, the table is unchanged and is asked again.
fn seal(alloc: Global, table: &mut Table) -> Result<u32, Halt> {
    let (before, epoch, sessions) = (Seen::of(table.core()), table.epoch(), table.sessions());
    if let Ok(sealed) = table.seal(alloc) {
        return Ok(sealed);
    }
    before.stands(table.core())?;
    if table.epoch() != epoch || table.sessions() != sessions {
        return Err(Halt::Changed);
    }
    table.seal(alloc).map_err(|_| Halt::Refused)
}

fn close(rt: &impl Print, alloc: Global, table: Table) -> Result<(), Halt> {
    match table.close() {
        Ok(chain) => tell(rt, alloc, &chain),
        Err(_) => Err(Halt::Changed),
    }
}

// Prints what a closed table says, and judges it.
fn tell(rt: &impl Print, alloc: Global, chain: &[Closed]) -> Result<(), Halt>
    requires { IsChain chain.now }
{
    for closed in chain {
        Seen::of(closed.core()).print(rt)?;
        print_order(rt, "closed", closed.order().calls())?;
        print_order(rt, "of sessions", closed.owners())?;
        print_records(rt, closed.core().tree().records())?;
        judge(rt, alloc, closed.core())?;
    }
    judge_all(rt, alloc, chain)
}
