//! What the commands print. A row of a table costs almost nothing to prove, but a function does. So one function runs each command,
//! and the rows are data, in a module for each command or in a folder of such modules.

use crate::{alone, audit, chains, containers, drive, procedures, run};
use std::alloc::{AllocError, Global};
use std::process::Abort;
use std::sync::Wait;
use std::test::Fail;
use std::thread::Threads;
use tl_audit::Silent;
use tl_commands::{
    CliFault, Inputs, alone_cmd, asm_cmd, audit_cmd, check_cmd, dis_cmd, drive_cmd,
    keep_generation, run_cmd, verify_cmd,
};
use tl_sources::Source;
use tl_tree::USUAL_NODES;
use tl_workers::NoGate;

/// The parts of a text, one after another.
pub type Parts = &'static [&'static str];

/// A command, and the texts of its files.
pub enum Command {
    /// `asm` of a text: its line.
    Asm(Parts),
    /// `asm` of a text, and then `dis` of its container.
    Listed(&'static str),
    /// `check` of a text: its line, if `verify` of its container prints the same.
    Verify(&'static str),
    /// `dis` of a container.
    Dis(Parts),
    /// `verify` of a container.
    Bounds(Parts),
    /// `alone` on a tree, with the container of a text and these arguments.
    Alone(&'static str, &'static str, &'static str),
    /// `drive` on a tree with a script.
    Drive(&'static str, Parts),
    /// `drive` on a tree with a script: its trail alone.
    Trail(&'static str, Parts),
    /// `drive` on a tree with a script, and then `audit` of its trail: its line alone.
    DriveAudit(&'static str, Parts),
    /// `run` on a tree with a script, by one worker.
    Run(&'static str, Parts),
    /// The same: its trails alone.
    RunTrail(&'static str, Parts),
    /// The same, and then `audit` of its trails: its line alone.
    RunAudit(&'static str, Parts),
    /// `audit` of a trail.
    Audit(Parts),
}

/// A command, and its result: what it prints, or the numbers of its first fault and the exit status.
pub type Row = (Command, Parts);

/// The name of a table, and its rows. The prover fails if one function names a large table. So each table is small and has one
/// subject, and a function of its own lends it.
pub type Table = (&'static str, &'static [Row]);

fn line_of(alloc: Global, text: &str) -> Result<String, CliFault> {
    let (line, _) = asm_cmd(alloc, text.as_bytes())?;
    Ok(line)
}

fn container_of(alloc: Global, text: &str) -> Result<Vec<u8>, CliFault> {
    let (_, container) = asm_cmd(alloc, text.as_bytes())?;
    Ok(container)
}

fn listed(alloc: Global, text: &str) -> Result<String, CliFault> {
    let listing = dis_cmd(alloc, &container_of(alloc, text)?)?;
    Ok([line_of(alloc, text)?.as_str(), listing.as_str()].concat(alloc)?)
}

fn verified(alloc: Global, text: &str) -> Result<String, CliFault> {
    let checked = check_cmd(alloc, text.as_bytes())?;
    let verified = verify_cmd(alloc, &container_of(alloc, text)?)?;
    let is_same = checked.as_str() == verified.as_str();
    Ok(if is_same { checked } else { String::new(alloc) })
}

/// What a script is carried out on, without other procedures than its own.
pub fn inputs<'a>(tree: &'a str, script: &'a [u8]) -> Inputs<'a> {
    Inputs {
        tree: tree.as_bytes(),
        script,
        sources: &[],
        limit: USUAL_NODES,
    }
}

fn done_alone(alloc: Global, tree: &str, text: &str, args: &str) -> Result<String, CliFault> {
    alone_cmd(
        alloc,
        tree.as_bytes(),
        Source::Container(&container_of(alloc, text)?),
        None,
        args,
        USUAL_NODES,
    )?
    .lines(alloc)
}

fn trail_of(alloc: Global, tree: &str, script: &str) -> Result<String, CliFault> {
    drive_cmd(alloc, inputs(tree, script.as_bytes()))?.trail_file(alloc)
}

fn audited(alloc: Global, tree: &str, script: &str) -> Result<String, CliFault> {
    let trail = trail_of(alloc, tree, script)?;
    audit_cmd(alloc, trail.as_bytes(), &mut Silent, USUAL_NODES)
}

fn trails_of<R: Threads + Wait + Sync + AllocGlobal>(
    rt: &R,
    tree: &str,
    script: &str,
) -> Result<String, CliFault> {
    let alloc = rt.alloc();
    let mut trails = String::new(alloc);
    let ran = run_cmd(rt, alloc, inputs(tree, script.as_bytes()), 1, &NoGate)?;
    keep_generation(alloc, ran.epochs(), &mut trails)?;
    Ok(trails)
}

fn chain_audited<R: Threads + Wait + Sync + AllocGlobal>(
    rt: &R,
    tree: &str,
    script: &str,
) -> Result<String, CliFault> {
    let trails = trails_of(rt, tree, script)?;
    audit_cmd(rt.alloc(), trails.as_bytes(), &mut Silent, USUAL_NODES)
}

/// The text of the command's file that is given in parts; empty if there is none.
fn file_of(alloc: Global, command: &Command) -> Result<String, AllocError> {
    match command {
        Command::Asm(parts)
        | Command::Dis(parts)
        | Command::Bounds(parts)
        | Command::Drive(_, parts)
        | Command::Trail(_, parts)
        | Command::DriveAudit(_, parts)
        | Command::Run(_, parts)
        | Command::RunTrail(_, parts)
        | Command::RunAudit(_, parts)
        | Command::Audit(parts) => parts.concat(alloc),
        Command::Listed(_) | Command::Verify(_) | Command::Alone(_, _, _) => {
            Ok(String::new(alloc))
        }
    }
}

/// What a command prints if this is its file.
fn printed<R: Threads + Wait + Sync + AllocGlobal>(
    rt: &R,
    command: &Command,
    file: &str,
) -> Result<String, CliFault> {
    let alloc = rt.alloc();
    let bytes = file.as_bytes();
    match command {
        Command::Asm(_) => line_of(alloc, file),
        Command::Listed(text) => listed(alloc, text),
        Command::Verify(text) => verified(alloc, text),
        Command::Dis(_) => dis_cmd(alloc, bytes),
        Command::Bounds(_) => verify_cmd(alloc, bytes),
        Command::Alone(tree, text, args) => done_alone(alloc, tree, text, args),
        Command::Drive(tree, _) => drive_cmd(alloc, inputs(tree, bytes))?.lines(alloc),
        Command::Trail(tree, _) => trail_of(alloc, tree, file),
        Command::DriveAudit(tree, _) => audited(alloc, tree, file),
        Command::Run(tree, _) => {
            run_cmd(rt, alloc, inputs(tree, bytes), 1, &NoGate)?.lines(alloc)
        }
        Command::RunTrail(tree, _) => trails_of(rt, tree, file),
        Command::RunAudit(tree, _) => chain_audited(rt, tree, file),
        Command::Audit(_) => audit_cmd(alloc, bytes, &mut Silent, USUAL_NODES),
    }
}

/// What is printed, or the numbers and the exit status.
fn answer(alloc: Global, printed: Result<String, CliFault>) -> Result<String, Fail> {
    match printed {
        Ok(text) => Ok(text),
        Err(fault) => {
            let numbers = fault.numbers();
            let numbers = numbers.as_slice();
            let status = fault.status();
            Ok(format!(in alloc; "{numbers:?} {status}")?)
        }
    }
}

/// The result of the row's command.
fn answered<R: Threads + Wait + Sync + AllocGlobal>(
    rt: &R,
    command: &Command,
) -> Result<String, Fail> {
    let alloc = rt.alloc();
    let file = file_of(alloc, command)?;
    answer(alloc, printed(rt, command, &file))
}

fn row_answers<R: Threads + Wait + Sync + AllocGlobal + Abort>(
    rt: &R,
    table: &str,
    number: usize,
    row: &Row,
) -> Result<(), Fail> {
    let found = answered(rt, &row.0)?;
    let expected = row.1.concat(rt.alloc())?;
    assert_eq!(rt;
        found.as_str(),
        expected.as_str(),
        "row {number} of {table}"
    );
    Ok(())
}

fn table_answers<R: Threads + Wait + Sync + AllocGlobal + Abort>(
    rt: &R,
    table: &Table,
) -> Result<(), Fail> {
    for (number, row) in table.1.iter().enumerate() {
        row_answers(rt, table.0, number, row)?;
    }
    Ok(())
}

fn tables_answer<R: Threads + Wait + Sync + AllocGlobal + Abort>(
    rt: &R,
    tables: &[Table],
) -> Result<(), Fail> {
    for table in tables {
        table_answers(rt, table)?;
    }
    Ok(())
}

#[test]
fn each_command_answers_what_its_row_says(rt: HostRuntime) -> Result<(), Fail> {
    tables_answer(&rt, &procedures::tables())?;
    tables_answer(&rt, &alone::tables())?;
    tables_answer(&rt, &drive::tables())?;
    table_answers(&rt, &("containers", containers::rows()))?;
    table_answers(&rt, &("run", run::rows()))?;
    table_answers(&rt, &("audit", audit::rows()))?;
    table_answers(&rt, &("chains", chains::rows()))
}
