// The command line.

ghost use Rattle.std.specs.Prelude.{◌<◌, IfSome};

use crate::arguments::command;
use crate::asking::{asks_control, control_request};
use crate::store_files::{StoreFiles, store_files};
use clap::error::ErrorKind;
use clap::{ArgMatches, Error};
use std::alloc::{AllocError, Global};
use tl_server::{Address, LASTING_PLACES, MAX_CONNECTIONS};
use tl_tree::USUAL_NODES;

/// The files, if named, that are written as well as what is printed: the trail, and the final tree.
#[derive(Clone, Copy)]
pub struct Outputs<'a> {
    pub trail: Option<&'a str>,
    pub tree: Option<&'a str>,
}

/// A script's file, and the procedures named as well as its own, each as `FILE` or `NAME=FILE`.
#[derive(Drop)]
pub struct ScriptFiles<'a> {
    pub script: &'a str,
    pub procedures: Vec<&'a str>,
}

/// A command that runs calls on a tree.
#[derive(Drop)]
pub enum CallCommand<'a> {
    /// Run a procedure alone: that of the file, of that name if the file has more than one.
    Alone {
        procedure: &'a str,
        name: Option<&'a str>,
        args: &'a str,
    },
    /// Carry out a script, move by move.
    Drive {
        script: ScriptFiles<'a>,
    },
    /// Run the calls of a script, on up to `workers` threads.
    Run {
        workers: usize,
        script: ScriptFiles<'a>,
    },
    /// Serve connections on a local port or a socket, with these procedures from the start.
    Serve {
        options: ServeOptions<'a>,
        procedures: Vec<&'a str>,
    },
}

/// How a server is run.
#[derive(Clone, Copy)]
pub struct ServeOptions<'a> {
    pub address: Address<'a>,
    /// How many connections may be open at once.
    pub at_once: u16,
    /// Where it can be asked to stop.
    pub control: Option<Address<'a>>,
    /// Where followers get what is stored.
    pub followers: Option<Address<'a>>,
    /// Whether answers wait until a follower holds what they rest on.
    pub waits_for_holder: bool,
    /// The permissions that the files of its sockets get.
    pub mode: u32,
    /// After how many seconds a silent connection is ended.
    pub idle: Option<u16>,
    pub sealing: Sealing<'a>,
}

/// Who seals an epoch that is full.
#[derive(Clone, Copy)]
pub enum Sealing<'a> {
    /// The clients. The server ends after so many connections.
    ByHand { connections: u16 },
    /// The server itself.
    Itself(LastingOptions<'a>),
}

/// How a server goes on that seals its epochs by itself.
#[derive(Clone, Copy)]
pub struct LastingOptions<'a> {
    /// How many connections it serves in all; any number if `None`.
    pub connections: Option<u16>,
    /// After how many epochs a new generation begins.
    pub generation: u16,
    /// The folder of the generations' trails.
    pub trails: Option<&'a str>,
    /// Whether only its control registers and replaces procedures, appends nodes, and seals.
    pub is_frozen: bool,
}

/// After how many epochs a new generation begins, if the command line doesn't say.
const GENERATION: u16 = 16;

/// The permissions of a socket's file, if the command line doesn't say: who started the server may connect, and nobody else.
const MODE: u32 = 0o600;

/// A command that turns a file into another, or says what is in it.
#[derive(Clone, Copy)]
pub enum FileCommand<'a> {
    /// Write the container of an assembler text.
    Assemble {
        text: &'a str,
        container: &'a str,
    },
    /// Say what a procedure does at most, or where its text is wrong. If it is watched, again whenever the file changes.
    Check {
        file: &'a str,
        is_watched: bool,
    },
    /// Write the container of a procedure of a text; if the text has several, of the one of that name.
    Compile {
        text: &'a str,
        container: &'a str,
        procedure: Option<&'a str>,
    },
    /// Print the text of a container.
    Disassemble {
        container: &'a str,
    },
    /// Write a container in the second version of the language.
    Migrate {
        old: &'a str,
        new: &'a str,
    },
    /// Print the procedures of a text, each with its assembler text.
    Procedures {
        text: &'a str,
    },
    /// Print the bounds of a container's procedure.
    Verify {
        container: &'a str,
    },
    /// Write a tree whose records have eight fields.
    Widen {
        old: &'a str,
        new: &'a str,
    },
}

/// What an operator has a server do with the procedures of a text.
#[derive(Clone, Copy, Debug)]
pub enum Ruling {
    /// Register them.
    Register,
    /// Put them in the place of those with their names.
    Replace,
}

/// What the program is asked to do.
#[derive(Drop)]
pub enum Request<'a> {
    Calls {
        tree: &'a str,
        command: CallCommand<'a>,
        outputs: Outputs<'a>,
    },
    /// Serve connections on what a store holds, or on its tree where there is none yet, with these procedures.
    Store {
        files: StoreFiles<'a>,
        options: ServeOptions<'a>,
        procedures: Vec<&'a str>,
    },
    Files(FileCommand<'a>),
    /// Say whether the calls of trails may have done what these say. Each file or folder goes on where the one before it ends.
    Audit {
        trails: Vec<&'a str>,
        /// Whether to say what should stand where something is wrong.
        explains: bool,
        /// Whether a procedure may have no other code than in the file before.
        keeps_procedures: bool,
    },
    /// Write the trails of a store's epochs into a folder.
    Export {
        store: &'a str,
        folder: &'a str,
    },
    /// Write the tree of a store as it was after that epoch into a file.
    Restore {
        store: &'a str,
        file: &'a str,
        epoch: u32,
    },
    /// Ask the server with this control port or socket to copy its store into a file of that name.
    Copy {
        control: Address<'a>,
        name: &'a str,
    },
    /// Ask the server with this control port or socket to go on in a new volume of its store.
    Turn {
        control: Address<'a>,
    },
    /// Ask the server with this control port or socket to take the procedures of a text.
    Rule {
        control: Address<'a>,
        ruling: Ruling,
        text: &'a str,
    },
    /// Ask the server with this control port or socket to stop.
    Stop {
        control: Address<'a>,
    },
    /// Ask the server with this control port or socket how far it is, or wait until one is there that says so.
    Status {
        control: Address<'a>,
        waits: bool,
    },
}

/// The parsed command line: a request, a number to explain, or a text to show (help, or a mistake).
#[derive(Drop)]
pub enum Asked<'a> {
    /// A request, and how many nodes a tree may have in it.
    Request { request: Request<'a>, nodes: u32 },
    Explanation { number: u16 },
    Told(Error),
    /// Options that don't go together, and why.
    Mistaken(&'static str),
}

// Who seals the epochs of a server; or why the options don't go together.
fn who_seals<'a>(words: &ArgMatches<'a>) -> Result<Sealing<'a>, &'static str> {
    let connections = words.get_one("connections");
    let is_by_hand = match words.get_str("seal") {
        Some("by-hand") => true,
        Some("itself") => false,
        Some(_) => return Err("--seal is followed by by-hand or itself"),
        None => connections.is_some(),
    };
    if !is_by_hand && words.contains_id("trail") {
        return Err(
            "--trail is for a server whose clients seal: --connections. One that seals itself writes a file for each generation, --trails FOLDER, or stores its calls, --store FILE",
        );
    }
    match connections {
        Some(_) if is_by_hand && has_lasting_options(words) => Err(
            "--generation, --trails, --store, --proc and --frozen are for a server that seals itself: --seal itself",
        ),
        Some(connections) if is_by_hand => Ok(Sealing::ByHand { connections }),
        connections => Ok(Sealing::Itself(LastingOptions {
            connections,
            generation: words.get_one("generation").unwrap_or(GENERATION),
            trails: words.get_str("trails"),
            is_frozen: words.get_flag("frozen"),
        })),
    }
}

fn has_lasting_options(words: &ArgMatches<'_>) -> bool {
    words.contains_id("generation")
        || words.contains_id("trails")
        || words.contains_id("store")
        || words.contains_id("proc")
        || words.get_flag("frozen")
}

// A port or a socket's file, whichever is named.
fn address_of<'a>(words: &ArgMatches<'a>, port: &str, socket: &str) -> Option<Address<'a>> {
    match words.get_str(socket) {
        Some(path) => Some(Address::Socket(path)),
        None => Some(Address::Port(words.get_one(port)?)),
    }
}

fn octal_digit(digit: u8) -> Option<u32>
    ensures { IfSome result (λ d. d < 8) }
{
    match digit {
        b'0'..=b'7' => Some(u32::from(digit - b'0')),
        _ => None,
    }
}

// The number of three octal digits.
fn octal(digits: &str) -> Option<u32>
    ensures { IfSome result (λ n. n < 512) }
{
    let &[owner, group, others] = digits.as_bytes() else {
        return None;
    };
    Some(octal_digit(owner)? * 64 + octal_digit(group)? * 8 + octal_digit(others)?)
}

/// The permissions of the files that are made, of sockets and of a store, if the words say them; or why the options don't go together.
pub(crate) fn mode_of(words: &ArgMatches<'_>) -> Result<Option<u32>, &'static str> {
    let Some(digits) = words.get_str("mode") else {
        return Ok(None);
    };
    let makes_files = words.contains_id("socket")
        || words.contains_id("control-socket")
        || words.contains_id("store");
    if !makes_files {
        return Err(
            "--mode is for the file of a socket or a store: --socket, --control-socket or --store",
        );
    }
    match octal(digits) {
        Some(mode) => Ok(Some(mode)),
        None => Err("--mode is followed by three octal digits, as in 660"),
    }
}

// The words of all arguments of that name.
fn all_of<'a>(alloc: Global, words: &ArgMatches<'a>, name: &str) -> Option<Vec<&'a str>> {
    let mut all = Vec::new(alloc);
    for word in words.get_strs(name).unwrap_or(&[]) {
        all.push(*word).ok()?;
    }
    Some(all)
}

fn script_of<'a>(alloc: Global, words: &ArgMatches<'a>) -> Option<ScriptFiles<'a>> {
    Some(ScriptFiles {
        script: words.get_str("SCRIPT")?,
        procedures: all_of(alloc, words, "proc")?,
    })
}

fn call_command<'a>(alloc: Global, name: &str, words: &ArgMatches<'a>) -> Option<CallCommand<'a>> {
    match name {
        "alone" => Some(CallCommand::Alone {
            procedure: words.get_str("proc")?,
            name: words.get_str("name"),
            args: words.get_str("args")?,
        }),
        "drive" => Some(CallCommand::Drive {
            script: script_of(alloc, words)?,
        }),
        "run" => Some(CallCommand::Run {
            workers: words.get_one("workers")?,
            script: script_of(alloc, words)?,
        }),
        "serve" => Some(CallCommand::Serve {
            options: serve_options(words)?,
            procedures: all_of(alloc, words, "proc")?,
        }),
        _ => None,
    }
}

// How many connections may be open at once, if the command line doesn't say.
fn usual_places(sealing: Sealing<'_>) -> u16 {
    match sealing {
        Sealing::ByHand { .. } => MAX_CONNECTIONS,
        Sealing::Itself(_) => LASTING_PLACES,
    }
}

fn serve_options<'a>(words: &ArgMatches<'a>) -> Option<ServeOptions<'a>> {
    let sealing = who_seals(words).ok()?;
    Some(ServeOptions {
        address: address_of(words, "port", "socket")?,
        at_once: words.get_one("at-once").unwrap_or(usual_places(sealing)),
        control: address_of(words, "control", "control-socket"),
        followers: address_of(words, "follow", "follow-socket"),
        waits_for_holder: words.contains_id("wait-for"),
        mode: mode_of(words).ok()?.unwrap_or(MODE),
        idle: words.get_one("idle"),
        sealing,
    })
}

// What a server with a store is asked for.
fn store_request<'a>(alloc: Global, words: &ArgMatches<'a>) -> Option<Request<'a>> {
    Some(Request::Store {
        files: store_files(words)?,
        options: serve_options(words)?,
        procedures: all_of(alloc, words, "proc")?,
    })
}

fn file_command<'a>(name: &str, words: &ArgMatches<'a>) -> Option<FileCommand<'a>> {
    match name {
        "asm" => Some(FileCommand::Assemble {
            text: words.get_str("IN")?,
            container: words.get_str("OUT")?,
        }),
        "check" => Some(FileCommand::Check {
            file: words.get_str("FILE")?,
            is_watched: words.get_flag("watch"),
        }),
        "compile" => Some(FileCommand::Compile {
            text: words.get_str("IN")?,
            container: words.get_str("OUT")?,
            procedure: words.get_str("proc"),
        }),
        "dis" => Some(FileCommand::Disassemble {
            container: words.get_str("IN")?,
        }),
        "migrate" => Some(FileCommand::Migrate {
            old: words.get_str("IN")?,
            new: words.get_str("OUT")?,
        }),
        "procs" => Some(FileCommand::Procedures {
            text: words.get_str("IN")?,
        }),
        "verify" => Some(FileCommand::Verify {
            container: words.get_str("IN")?,
        }),
        "widen" => Some(FileCommand::Widen {
            old: words.get_str("IN")?,
            new: words.get_str("OUT")?,
        }),
        _ => None,
    }
}

// How many nodes a tree may have in a command.
fn nodes_of(name: &str, words: &ArgMatches<'_>) -> u32 {
    match name {
        "alone" | "audit" | "drive" | "run" | "serve" | "widen" => {
            words.get_one("nodes").unwrap_or(USUAL_NODES)
        }
        // The others read no tree.
        _ => USUAL_NODES,
    }
}

// Whether options of a server with a store stand beside one; or why the options don't go together.
fn check_store_options(words: &ArgMatches<'_>) -> Result<(), &'static str> {
    let follows = words.contains_id("follow") || words.contains_id("follow-socket");
    if words.contains_id("wait-for") && !follows {
        return Err("--wait-for is for a server with followers: --follow or --follow-socket");
    }
    if words.contains_id("store") {
        return Ok(());
    }
    if words.contains_id("snapshots") {
        return Err("--snapshots is for a store: --store");
    }
    if words.contains_id("volume") || words.contains_id("keys") {
        return Err("--volume and --keys are for a store in a folder: --store FOLDER/");
    }
    if follows {
        return Err("--follow and --follow-socket are for a store: --store");
    }
    Ok(())
}

// What the command line asks for. `None` if memory is refused, since each command has an arm.
fn asked_of<'a>(alloc: Global, matches: &ArgMatches<'a>) -> Option<Asked<'a>> {
    let (name, words) = matches.subcommand()?;
    if name == "explain" {
        return Some(Asked::Explanation {
            number: words.get_one("NUMBER")?,
        });
    }
    if name == "serve" {
        if let Err(reason) = who_seals(words) {
            return Some(Asked::Mistaken(reason));
        }
        if let Err(reason) = mode_of(words) {
            return Some(Asked::Mistaken(reason));
        }
        if let Err(reason) = check_store_options(words) {
            return Some(Asked::Mistaken(reason));
        }
    }
    Some(Asked::Request {
        request: request_of(alloc, name, words)?,
        nodes: nodes_of(name, words),
    })
}

// What a command other than `explain` asks for. `None` if memory is refused.
fn request_of<'a>(alloc: Global, name: &str, words: &ArgMatches<'a>) -> Option<Request<'a>> {
    if asks_control(name) {
        return control_request(name, address_of(words, "port", "socket")?, words);
    }
    if name == "audit" {
        return Some(Request::Audit {
            trails: all_of(alloc, words, "TRAIL")?,
            explains: words.get_flag("explain"),
            keeps_procedures: words.get_flag("same-procedures"),
        });
    }
    if name == "export" {
        let (store, folder) = (words.get_str("STORE")?, words.get_str("FOLDER")?);
        return Some(match words.get_one("until") {
            Some(epoch) => Request::Restore {
                store,
                file: folder,
                epoch,
            },
            None => Request::Export { store, folder },
        });
    }
    if name == "serve" && words.contains_id("store") {
        return store_request(alloc, words);
    }
    if let Some(command) = file_command(name, words) {
        return Some(Request::Files(command));
    }
    Some(Request::Calls {
        tree: words.get_str("tree")?,
        command: call_command(alloc, name, words)?,
        outputs: Outputs {
            // `alone` has no trail.
            trail: if name == "alone" {
                None
            } else {
                words.get_str("trail")
            },
            tree: words.get_str("save"),
        },
    })
}

/// Reads a command line, the program's name first.
pub fn parse<'a>(alloc: Global, words: &'a [String]) -> Result<Asked<'a>, AllocError> {
    match command(alloc)?.try_get_matches_from(words) {
        Ok(matches) => asked_of(alloc, &matches).ok_or(AllocError),
        Err(error) => Ok(Asked::Told(error)),
    }
}

/// The exit status for a text from the command line: 0 for help, 2 for a mistake, 4 if memory was refused.
pub fn status(error: &Error) -> u8 {
    match error.kind() {
        ErrorKind::OutOfMemory => 4,
        ErrorKind::DisplayHelp | ErrorKind::DisplayVersion => 0,
        _ => 2,
    }
}
