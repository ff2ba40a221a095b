// What the command line may have: commands, their options and files, and what help says of them.

use crate::help::{
    ALONE_HELP, ASM_HELP, AUDIT_HELP, CHECK_HELP, COMPILE_HELP, DIS_HELP, DRIVE_HELP, EXPLAIN_HELP,
    EXPORT_HELP, HELP, MIGRATE_HELP, PROCS_HELP, REGISTER_HELP, REPLACE_HELP, RUN_HELP, SERVE_HELP,
    SNAPSHOT_HELP, STATUS_ABOUT, STATUS_HELP, STOP_ABOUT, STOP_HELP, VERIFY_HELP, VOLUME_ABOUT,
    VOLUME_HELP, WIDEN_HELP,
};
use crate::rows::{Reading, Row};
use crate::serving::{address_rows, connection_rows, epoch_rows, following_rows, store_rows};
use clap::{Arg, ArgAction, Command, value_parser};
use std::alloc::{AllocError, Global};

/// The program's version, and the logic by which it was proved.
pub const VERSION: &str = "0.1.0 (proved with Rattle, logic dac8208d650f15bf)";

/// The most nodes that a tree may have by `--nodes`.
pub const MOST_NODES: u32 = 65_535;

// ---- rows that several commands have

fn tree() -> Row {
    Row::option("tree", "T", "The file of the tree, as JSON").required()
}

pub(crate) fn nodes() -> Row {
    Row::option(
        "nodes",
        "N",
        "How many nodes a tree may have, 1 to 65535; 4096 if not given",
    )
    .as_a(Reading::Nodes)
}

pub(crate) fn save() -> Row {
    Row::option(
        "save",
        "F",
        "The file that the tree is written to, as it is in the end",
    )
}

fn trail() -> Row {
    trail_with("The file that the trail is written to")
}

pub(crate) fn trail_with(help: &'static str) -> Row {
    Row::option("trail", "F", help)
}

fn script() -> Row {
    Row::file("SCRIPT", "The file of the script, as JSON")
}

// Procedures, each option with all of a file or with one.
pub(crate) fn procedures(help: &'static str) -> Row {
    Row::option("proc", "[NAME=]FILE", help).as_a(Reading::Texts)
}

fn script_procedures() -> Row {
    procedures(
        "Procedures to add to the script's: all of a text of the procedure language, or as NAME the one of a `.tdb`, `.tlp` or assembler file",
    )
}

pub(crate) fn port(help: &'static str) -> Row {
    Row::option("port", "P", help)
        .required_unless([Some("socket"), None, None])
        .excluding("socket")
        .as_a(Reading::Positive)
}

pub(crate) fn socket(help: &'static str) -> Row {
    Row::option("socket", "PATH", help)
}

// ---- a command of its rows

fn read_as<'a>(arg: Arg<'a>, reading: Reading) -> Arg<'a> {
    match reading {
        Reading::Text => arg,
        Reading::Flag => arg.action(ArgAction::SetTrue),
        Reading::Texts => arg.action(ArgAction::Append),
        Reading::Files => arg.action(ArgAction::Append).num_args(1..),
        Reading::Number => arg.value_parser(value_parser!(u16)),
        Reading::Positive => arg.value_parser(value_parser!(u16).range(1..)),
        Reading::Nodes => arg.value_parser(value_parser!(u32).range(1..=i64::from(MOST_NODES))),
        Reading::Calls => arg.value_parser(value_parser!(u32).range(1..=16_777_216)),
        Reading::Places => arg.value_parser(value_parser!(u16).range(1..=1024)),
        Reading::Epoch => arg.value_parser(value_parser!(u32)),
        Reading::Epochs => arg.value_parser(value_parser!(u16).range(1..=128)),
        Reading::Workers => arg.value_parser(value_parser!(usize).range(1..=16)),
        Reading::One => arg.value_parser(value_parser!(u16).range(1..=1)),
    }
}

// The same, with what it depends on.
fn depending<'a>(arg: Arg<'a>, row: &Row) -> Result<Arg<'a>, AllocError> {
    let mut arg = arg;
    for other in &row.unless {
        if let Some(other) = *other {
            arg = arg.required_unless_present(other)?;
        }
    }
    if let Some(other) = row.excluded {
        arg = arg.conflicts_with(other)?;
    }
    match row.with {
        Some((option, value)) => arg.required_if_eq(option, value),
        None => Ok(arg),
    }
}

fn arg_of<'a>(alloc: Global, row: &Row) -> Result<Arg<'a>, AllocError> {
    let arg = Arg::new(alloc, row.name)
        .required(row.is_required)
        .help(row.help);
    let arg = if row.is_option {
        arg.long(row.name)
    } else {
        arg
    };
    let arg = if row.shown.is_empty() {
        arg
    } else {
        arg.value_name(row.shown)
    };
    let arg = match row.default {
        Some(default) => arg.default_value(default),
        None => arg,
    };
    depending(read_as(arg, row.reading), row)
}

// The command with these rows too.
fn with_rows<'a>(
    alloc: Global,
    command: Command<'a>,
    rows: &[Row],
) -> Result<Command<'a>, AllocError> {
    let mut command = command;
    for row in rows {
        command = command.arg(arg_of(alloc, row)?)?;
    }
    Ok(command)
}

fn command_of<'a>(
    alloc: Global,
    name: &'static str,
    about: &'static str,
    help: &'static str,
    rows: &[Row],
) -> Result<Command<'a>, AllocError> {
    with_rows(
        alloc,
        Command::new(alloc, name).about(about).after_help(help),
        rows,
    )
}

// ---- the commands

/// The commands, in the order in which help shows them.
#[derive(Clone, Copy)]
enum Name {
    Alone,
    Drive,
    Run,
    Serve,
    Status,
    Snapshot,
    Volume,
    Register,
    Replace,
    Stop,
    Audit,
    Export,
    Check,
    Compile,
    Procs,
    Asm,
    Dis,
    Verify,
    Migrate,
    Widen,
    Explain,
}

const NAMES: [Name; 21] = [
    Name::Alone,
    Name::Drive,
    Name::Run,
    Name::Serve,
    Name::Status,
    Name::Snapshot,
    Name::Volume,
    Name::Register,
    Name::Replace,
    Name::Stop,
    Name::Audit,
    Name::Export,
    Name::Check,
    Name::Compile,
    Name::Procs,
    Name::Asm,
    Name::Dis,
    Name::Verify,
    Name::Migrate,
    Name::Widen,
    Name::Explain,
];

fn alone_command<'a>(alloc: Global) -> Result<Command<'a>, AllocError> {
    command_of(
        alloc,
        "alone",
        "Runs a procedure alone on a tree, and prints its reply and the tree as it is then",
        ALONE_HELP,
        &[
            tree(),
            nodes(),
            Row::option(
                "proc",
                "P",
                "The file of the procedure: a text of the procedure language (`.tdb`), an assembler text (`.asm`), or else a container",
            )
            .required(),
            Row::option(
                "name",
                "NAME",
                "The name of the procedure in a text that has more than one",
            ),
            Row::option("args", "A", "The arguments, a JSON list of numbers").or("[]"),
            save(),
        ],
    )
}

fn drive_command<'a>(alloc: Global) -> Result<Command<'a>, AllocError> {
    command_of(
        alloc,
        "drive",
        "Runs a scripted interleaving and prints the result of each step",
        DRIVE_HELP,
        &[
            tree(),
            nodes(),
            script_procedures(),
            trail(),
            save(),
            script(),
        ],
    )
}

fn run_command<'a>(alloc: Global) -> Result<Command<'a>, AllocError> {
    command_of(
        alloc,
        "run",
        "Runs the calls of a script on a tree, many at once, and prints what came of each",
        RUN_HELP,
        &[
            tree(),
            nodes(),
            Row::option("workers", "N", "How many threads run the calls, 1 to 16")
                .required()
                .as_a(Reading::Workers),
            script_procedures(),
            trail(),
            save(),
            script(),
        ],
    )
}

fn serve_command<'a>(alloc: Global) -> Result<Command<'a>, AllocError> {
    let about =
        "Serves connections on a local port or a Unix socket, a request a line, and prints the tree in the end";
    let command = command_of(alloc, "serve", about, SERVE_HELP, &store_rows())?;
    let command = with_rows(alloc, command, &address_rows())?;
    let command = with_rows(alloc, command, &connection_rows())?;
    let command = with_rows(alloc, command, &following_rows())?;
    with_rows(alloc, command, &epoch_rows())
}

// The command asks a server at its control port or socket.
fn control_command<'a>(
    alloc: Global,
    name: &'static str,
    about: &'static str,
    help: &'static str,
) -> Result<Command<'a>, AllocError> {
    command_of(
        alloc,
        name,
        about,
        help,
        &[
            port("The server's control port"),
            socket("The file of the server's control socket"),
        ],
    )
}

// The same, with what is asked for.
fn control_command_for<'a>(
    alloc: Global,
    name: &'static str,
    about: &'static str,
    help: &'static str,
    asked: Row,
) -> Result<Command<'a>, AllocError> {
    let command = control_command(alloc, name, about, help)?;
    with_rows(alloc, command, &[asked])
}

// A text that a server takes the procedures of.
fn text() -> Row {
    Row::file("TEXT", "The file of a text of the procedure language")
}

fn audit_command<'a>(alloc: Global) -> Result<Command<'a>, AllocError> {
    command_of(
        alloc,
        "audit",
        "Says whether the calls of a trail may have done what it tells, and prints their order",
        AUDIT_HELP,
        &[
            nodes(),
            Row::flag(
                "explain",
                "Says on standard error what stands where something is wrong, and what should",
            ),
            Row::flag(
                "same-procedures",
                "Refuses a file of which a procedure has another code than in the file before",
            ),
            Row::file(
                "TRAIL",
                "The file of the trail, as JSON; several that follow each other; a folder of such files; or the file of a store",
            )
            .as_a(Reading::Files),
        ],
    )
}

fn check_command<'a>(alloc: Global) -> Result<Command<'a>, AllocError> {
    command_of(
        alloc,
        "check",
        "Says what a procedure does at most, or shows where its text is wrong",
        CHECK_HELP,
        &[
            Row::flag(
                "watch",
                "Checks the file again whenever it changes, until a signal ends the program",
            ),
            Row::file(
                "FILE",
                "The file of a text of the procedure language, whose name ends with `.tdb`, of an assembler text, or of a container",
            ),
        ],
    )
}

fn compile_command<'a>(alloc: Global) -> Result<Command<'a>, AllocError> {
    command_of(
        alloc,
        "compile",
        "Writes the container of a procedure of a text, and prints what it does at most",
        COMPILE_HELP,
        &[
            Row::file("IN", "The file of the text"),
            Row::file("OUT", "The file that the container is written to"),
            Row::option(
                "proc",
                "NAME",
                "The name of the procedure, where the text has several",
            ),
        ],
    )
}

fn widen_command<'a>(alloc: Global) -> Result<Command<'a>, AllocError> {
    command_of(
        alloc,
        "widen",
        "Writes a tree with eight fields a record, and prints how many nodes it has",
        WIDEN_HELP,
        &[
            nodes(),
            Row::file("IN", "The file of the tree, as JSON"),
            Row::file("OUT", "The file that the new tree is written to"),
        ],
    )
}

fn explain_command<'a>(alloc: Global) -> Result<Command<'a>, AllocError> {
    let number = Row::file("NUMBER", "The first number of a refusal").as_a(Reading::Number);
    let about = "Says what the number of a refusal means, and what to do";
    command_of(alloc, "explain", about, EXPLAIN_HELP, &[number])
}

// The command that reads one file.
fn reading_command<'a>(
    alloc: Global,
    name: &'static str,
    about: &'static str,
    help: &'static str,
    file: Row,
) -> Result<Command<'a>, AllocError> {
    command_of(alloc, name, about, help, &[file])
}

fn export_command<'a>(alloc: Global) -> Result<Command<'a>, AllocError> {
    command_of(
        alloc,
        "export",
        "Writes what the calls of a store did, as trails that `audit` checks; or its tree as it was",
        EXPORT_HELP,
        &[
            Row::file(
                "STORE",
                "The file of the store, or the folder of its volumes",
            ),
            Row::file(
                "FOLDER",
                "The folder for the trails: 0.json, 1.json, ..; with --until the file for the tree",
            ),
            Row::option(
                "until",
                "EPOCH",
                "Writes no trails, but the tree as it was after that epoch",
            )
            .as_a(Reading::Epoch),
        ],
    )
}

// The command that reads one file and writes another, or others.
fn writing_command<'a>(
    alloc: Global,
    name: &'static str,
    about: &'static str,
    help: &'static str,
    files: [Row; 2],
) -> Result<Command<'a>, AllocError> {
    command_of(alloc, name, about, help, &files)
}

fn command_named<'a>(alloc: Global, name: Name) -> Result<Command<'a>, AllocError> {
    match name {
        Name::Alone => alone_command(alloc),
        Name::Drive => drive_command(alloc),
        Name::Run => run_command(alloc),
        Name::Serve => serve_command(alloc),
        Name::Status => control_command_for(
            alloc,
            "status",
            STATUS_ABOUT,
            STATUS_HELP,
            Row::flag("wait", "Waits until a server answers there"),
        ),
        Name::Snapshot => control_command_for(
            alloc,
            "snapshot",
            "Has a server of this machine copy its store into a file",
            SNAPSHOT_HELP,
            Row::file("NAME", "The copy's name, as in monday.db"),
        ),
        Name::Volume => control_command(alloc, "volume", VOLUME_ABOUT, VOLUME_HELP),
        Name::Register => control_command_for(
            alloc,
            "register",
            "Has a server of this machine register the procedures of a text",
            REGISTER_HELP,
            text(),
        ),
        Name::Replace => control_command_for(
            alloc,
            "replace",
            "Has a server of this machine put the procedures of a text in the place of those with their names",
            REPLACE_HELP,
            text(),
        ),
        Name::Stop => control_command(alloc, "stop", STOP_ABOUT, STOP_HELP),
        Name::Audit => audit_command(alloc),
        Name::Export => export_command(alloc),
        Name::Check => check_command(alloc),
        Name::Compile => compile_command(alloc),
        Name::Procs => reading_command(
            alloc,
            "procs",
            "Prints the procedures of a text, each with its assembler text",
            PROCS_HELP,
            Row::file("IN", "The file of the text"),
        ),
        Name::Asm => writing_command(
            alloc,
            "asm",
            "Writes the container of an assembler text, and prints how many instructions it has",
            ASM_HELP,
            [
                Row::file("IN", "The file of the assembler text"),
                Row::file("OUT", "The file that the container is written to"),
            ],
        ),
        Name::Dis => reading_command(
            alloc,
            "dis",
            "Prints the assembler text of a container",
            DIS_HELP,
            Row::file("IN", "The file of the container"),
        ),
        Name::Verify => reading_command(
            alloc,
            "verify",
            "Prints what the procedure of a container does at most: steps, locks and emitted values",
            VERIFY_HELP,
            Row::file("IN", "The file of the container"),
        ),
        Name::Migrate => writing_command(
            alloc,
            "migrate",
            "Writes the procedure of a container in version 2, and prints how many instructions it has",
            MIGRATE_HELP,
            [
                Row::file("IN", "The file of the container"),
                Row::file("OUT", "The file that the new container is written to"),
            ],
        ),
        Name::Widen => widen_command(alloc),
        Name::Explain => explain_command(alloc),
    }
}

/// The program's command line.
pub fn command<'a>(alloc: Global) -> Result<Command<'a>, AllocError> {
    let mut command = Command::new(alloc, "treedb")
        .about("A database of trees, whose procedures are verified before they run")
        .version(VERSION)
        .after_help(HELP)
        .subcommand_required(true)
        .arg_required_else_help(true);
    for name in NAMES {
        command = command.subcommand(command_named(alloc, name)?)?;
    }
    Ok(command)
}
