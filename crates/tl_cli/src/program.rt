// The commands with their files: each file is read, a command of `tl_commands` or `tl_language_commands` answers, and its result is written and
// printed.

mod auditing;
mod exporting;
mod restoring;
mod saving;
mod serving;
mod sources;
mod storing;
mod volumes;
mod watching;

use crate::archive::{Finish, Trails};
use crate::failure::Failure;
use crate::refused::{RefusedProcedure, first_refused};
use crate::trail_file::TrailFile;
use crate::{
    CliFault, Generation, Inputs, LanguageFault, alone_cmd, asm_cmd, check_cmd, check_procs_cmd,
    compile_cmd, dis_cmd, drive_cmd, keep_generation, migrate_cmd, output, procs_cmd, run_cmd,
    verify_cmd, widen_cmd,
};
use auditing::Auditing;
use sources::{SourceFile, all_of, source_by_name};
use std::io::ErrorKind;
use std::net::{Net, TcpListener, TcpStream};
use std::rt::Files;
use std::sync::Wait;
use std::thread::Threads;
use std::time::Clock;
use tl_arguments::{CallCommand, FileCommand, Outputs, Request, ScriptFiles};
use tl_file_export::Epochs;
use tl_file_journal::{End, StoreOptions, StoreRefusal, Stored};
use tl_generations::Succession;
use tl_server::{Keeper, Storage, Texts};
use tl_sources::{Given, Source};
use tl_store_file::FileFault;
use tl_syntax::Position;
use tl_tree::Tree;
use tl_warnings::{Warning, warnings};
use tl_workers::{MAX_WORKERS, NoGate};

// A file that was read: its path, and its bytes.
#[derive(Drop)]
struct Named<'a> {
    path: &'a str,
    bytes: Vec<u8>,
}

// The files that a script is carried out on.
#[derive(Drop)]
struct Scripted<'a> {
    tree: Named<'a>,
    script: Named<'a>,
    sources: Vec<SourceFile<'a>>,
}

impl Scripted<'_> {
    // What they have, where the files of procedures give these, and the tree may have so many nodes.
    fn inputs<'n>(&'n self, sources: &'n [Given<'n>], limit: u32) -> Inputs<'n> {
        Inputs {
            tree: &self.tree.bytes,
            script: &self.script.bytes,
            sources,
            limit,
        }
    }
}

/// Whether the file has a text of the procedure language, by its name.
fn has_language(path: &str) -> bool {
    path.ends_with(".tdb")
}

// Where commands find their files, whether people see on a terminal how far they are, and how many nodes a tree may have.
#[derive(Drop)]
pub struct Program<'a, R> {
    rt: &'a R,
    is_terminal: bool,
    nodes: u32,
}

impl<'a, R: Files + Print + Eprint + AllocGlobal> Program<'a, R> {
    pub fn new(rt: &'a R, is_terminal: bool, nodes: u32) -> Program<'a, R> {
        Program {
            rt,
            is_terminal,
            nodes,
        }
    }

    // The bytes of a file. 31 if it can't be read, 990 if memory was refused.
    fn read_file<'p>(&self, path: &'p str) -> Result<Vec<u8>, Failure<'p>> {
        match std::fs::read(self.rt, path) {
            Ok(bytes) => Ok(bytes),
            Err(error) if error.kind() == ErrorKind::OutOfMemory => {
                Err(Failure::Refused(CliFault::Memory))
            }
            Err(reason) => Err(Failure::Unreadable { path, reason }),
        }
    }

    // Writes a file. 32 if it can't be written.
    fn write_file<'p>(&self, path: &'p str, bytes: &[u8]) -> Result<(), Failure<'p>> {
        match std::fs::write(self.rt, path, bytes) {
            Ok(()) => Ok(()),
            Err(reason) => Err(Failure::Unwritable { path, reason }),
        }
    }

    // A file of a procedure whose name says nothing has a container.
    fn alone<'p>(
        &self,
        path: &'p str,
        procedure: &'p str,
        name: Option<&str>,
        args: &str,
        save: Option<&'p str>,
    ) -> Result<String, Failure<'p>> {
        let tree = self.read_file(path)?;
        let file = self.read_file(procedure)?;
        let source = source_by_name(procedure, &file).unwrap_or(Source::Container(&file));
        let ran = match alone_cmd(self.rt.alloc(), &tree, source, name, args, self.nodes) {
            Ok(ran) => ran,
            Err(fault) => {
                return Err(match fault {
                    CliFault::Source(_) => self.misread(procedure, &file, fault),
                    fault => self.misread(path, &tree, fault),
                });
            }
        };
        let lines = ran.lines(self.rt.alloc())?;
        self.save(save, ran.tree())?;
        Ok(lines)
    }

    // Returns the fault of a text, and shows people where it is.
    fn misread<'p>(&self, path: &str, text: &[u8], fault: CliFault) -> Failure<'p> {
        if let Ok(text) = std::str::from_utf8(text) {
            if let Some(place) = output::place_of(self.rt.alloc(), text, &fault) {
                output::point_at(self.rt, path, text, place);
            }
        }
        Failure::Refused(fault)
    }

    // The same of a text of the procedure language.
    fn misread_language<'p>(&self, path: &str, text: &[u8], fault: LanguageFault) -> Failure<'p> {
        if let Ok(text) = std::str::from_utf8(text) {
            if let Some(place) = output::place_in_language(&fault) {
                output::point_at(self.rt, path, text, place);
            }
        }
        Failure::RefusedText(fault)
    }

    fn assemble<'p>(&self, path: &'p str, container: &'p str) -> Result<String, Failure<'p>> {
        let text = self.read_file(path)?;
        let (line, bytes) = match asm_cmd(self.rt.alloc(), &text) {
            Ok(answer) => answer,
            Err(fault) => return Err(self.misread(path, &text, fault)),
        };
        self.write_file(container, &bytes)?;
        Ok(line)
    }

    // Shows people what a text of the procedure language doesn't need.
    fn warn(&self, path: &str, text: &[u8]) {
        let Ok(found) = warnings(self.rt.alloc(), text) else {
            return;
        };
        let Ok(words) = std::str::from_utf8(text) else {
            return;
        };
        for Warning { needless, offset } in &found {
            let position = Position::of(text, *offset);
            output::point_at(self.rt, path, words, output::place_at(position));
            let _shown = eprintln!(self.rt; "treedb: warning: {position}: {needless}");
        }
    }

    /// What `check` prints of a file.
    pub(crate) fn check<'p>(&self, path: &'p str) -> Result<String, Failure<'p>> {
        let file = self.read_file(path)?;
        if has_language(path) {
            let line = match check_procs_cmd(self.rt.alloc(), &file) {
                Ok(line) => line,
                Err(fault) => return Err(self.misread_language(path, &file, fault)),
            };
            self.warn(path, &file);
            return Ok(line);
        }
        let checked = check_cmd(self.rt.alloc(), &file);
        checked.map_err(|fault| self.misread(path, &file, fault))
    }

    fn compile<'p>(
        &self,
        path: &'p str,
        container: &'p str,
        procedure: Option<&str>,
    ) -> Result<String, Failure<'p>> {
        let text = self.read_file(path)?;
        let (line, bytes) = match compile_cmd(self.rt.alloc(), &text, procedure) {
            Ok(answer) => answer,
            Err(fault) => return Err(self.misread_language(path, &text, fault)),
        };
        self.write_file(container, &bytes)?;
        Ok(line)
    }

    fn procedures<'p>(&self, path: &'p str) -> Result<String, Failure<'p>> {
        let text = self.read_file(path)?;
        match procs_cmd(self.rt.alloc(), &text) {
            Ok(line) => Ok(line),
            Err(fault) => Err(self.misread_language(path, &text, fault)),
        }
    }

    fn migrate<'p>(&self, old: &'p str, new: &'p str) -> Result<String, Failure<'p>> {
        let old = self.read_file(old)?;
        let (line, bytes) = migrate_cmd(self.rt.alloc(), &old)?;
        self.write_file(new, &bytes)?;
        Ok(line)
    }

    fn widen<'p>(&self, old: &'p str, new: &'p str) -> Result<String, Failure<'p>> {
        let old = self.read_file(old)?;
        let (line, text) = widen_cmd(self.rt.alloc(), &old, self.nodes)?;
        self.write_file(new, text.as_bytes())?;
        Ok(line)
    }

    // A file that has been read, with its path.
    fn read_named<'p>(&self, path: &'p str) -> Result<Named<'p>, Failure<'p>> {
        Ok(Named {
            path,
            bytes: self.read_file(path)?,
        })
    }

    // The files that a script is carried out on: the tree's, the script's, and those of the procedures that the command line names beside
    // the script's own.
    fn read_scripted<'p>(
        &self,
        tree: &'p str,
        files: &ScriptFiles<'p>,
    ) -> Result<Scripted<'p>, Failure<'p>> {
        let ScriptFiles { script, procedures } = files;
        Ok(Scripted {
            tree: self.read_named(tree)?,
            script: self.read_named(script)?,
            sources: self.read_sources(procedures)?,
        })
    }

    // Returns the fault of a script on a tree. If one of its procedures is refused, people are shown which, and where.
    fn misread_script<'p>(&self, files: &Scripted<'_>, fault: CliFault) -> Failure<'p> {
        let Scripted {
            tree,
            script,
            sources,
        } = files;
        match fault {
            CliFault::Sources(refused) => self.misread_source(sources, refused),
            CliFault::Tree(_) => self.misread(tree.path, &tree.bytes, fault),
            CliFault::Register(_) => {
                if let Some(RefusedProcedure { name, text, fault }) = first_refused(
                    self.rt.alloc(),
                    &script.bytes,
                ) {
                    let _shown = eprintln!(self.rt; "treedb: the procedure {name}");
                    let _failure = self.misread(&name, text.as_bytes(), fault);
                }
                Failure::Refused(fault)
            }
            fault => self.misread(script.path, &script.bytes, fault),
        }
    }

    // What is written besides is written if a file is named for it.
    fn drive<'p>(
        &self,
        tree: &'p str,
        files: &ScriptFiles<'p>,
        outputs: Outputs<'p>,
    ) -> Result<String, Failure<'p>> {
        let alloc = self.rt.alloc();
        let files = self.read_scripted(tree, files)?;
        let given = all_of(alloc, &files.sources)?;
        let driven = match drive_cmd(alloc, files.inputs(&given, self.nodes)) {
            Ok(driven) => driven,
            Err(fault) => return Err(self.misread_script(&files, fault)),
        };
        let lines = driven.lines(alloc)?;
        if let Some(path) = outputs.trail {
            self.write_file(path, driven.trail_file(alloc)?.as_bytes())?;
        }
        self.save(outputs.tree, driven.tree())?;
        Ok(lines)
    }

    // Writes the trails of closed epochs to a file, if one is named.
    fn keep<'p>(&self, path: Option<&'p str>, epochs: &Generation) -> Result<(), Failure<'p>> {
        let Some(path) = path else {
            return Ok(());
        };
        let mut file = TrailFile::new(self.rt, path);
        let kept = keep_generation(self.rt.alloc(), epochs, &mut file);
        match (kept, file.into_reason()) {
            (Ok(()), _) => Ok(()),
            (Err(CliFault::Unwritable), Some(reason)) => Err(Failure::Unwritable { path, reason }),
            (Err(fault), _) => Err(Failure::Refused(fault)),
        }
    }
}

impl<'a, R: Files + Print + Eprint + AllocGlobal + Threads + Wait + Sync> Program<'a, R> {
    // What is written besides is written if a file is named for it.
    fn run<'p>(
        &self,
        tree: &'p str,
        workers: usize,
        files: &ScriptFiles<'p>,
        outputs: Outputs<'p>,
    ) -> Result<String, Failure<'p>> {
        let alloc = self.rt.alloc();
        let files = self.read_scripted(tree, files)?;
        let given = all_of(alloc, &files.sources)?;
        let inputs = files.inputs(&given, self.nodes);
        // The command line takes no other numbers.
        let workers = workers.clamp(1, MAX_WORKERS);
        let ran = match run_cmd(self.rt, alloc, inputs, workers, &NoGate) {
            Ok(ran) => ran,
            Err(fault) => return Err(self.misread_script(&files, fault)),
        };
        let lines = ran.lines(alloc)?;
        self.keep(outputs.trail, ran.epochs())?;
        self.save(outputs.tree, ran.epochs().tree())?;
        Ok(lines)
    }
}

impl<'a, R> Program<'a, R>
where
    R: Files
        + Print
        + Eprint
        + AllocGlobal
        + Net<Listener = TcpListener, Stream = TcpStream>
        + Threads
        + Wait
        + Clock
        + Clone
        + Drop
        + Sync,
{
    // What a command that runs calls prints. If files are named for the trail and for the final tree, they are written before that.
    fn answer_calls<'p, K, F>(
        &self,
        tree: &'p str,
        command: &CallCommand<'p>,
        outputs: Outputs<'p>,
        archive: F,
    ) -> Result<String, Failure<'p>>
    where
        K: Keeper + Texts + Finish + Send + Drop,
        F: FnOnce(Trails, Succession, u32) -> K + Drop,
        requires { F.IsAlwaysCallable archive }
    {
        match command {
            CallCommand::Alone {
                procedure,
                name,
                args,
            } => self.alone(tree, procedure, *name, args, outputs.tree),
            CallCommand::Drive { script } => self.drive(tree, script, outputs),
            CallCommand::Run { workers, script } => self.run(tree, *workers, script, outputs),
            CallCommand::Serve {
                options,
                procedures,
            } => self.serve(tree, *options, procedures, outputs, archive),
        }
    }

    // What a command on files alone prints.
    fn answer_files<'p>(&self, command: FileCommand<'p>) -> Result<String, Failure<'p>> {
        match command {
            FileCommand::Assemble { text, container } => self.assemble(text, container),
            FileCommand::Check {
                file,
                is_watched: false,
            } => self.check(file),
            FileCommand::Check {
                file,
                is_watched: true,
            } => self.watch(file),
            FileCommand::Compile {
                text,
                container,
                procedure,
            } => self.compile(text, container, procedure),
            FileCommand::Disassemble { container } => {
                Ok(dis_cmd(self.rt.alloc(), &self.read_file(container)?)?)
            }
            FileCommand::Migrate { old, new } => self.migrate(old, new),
            FileCommand::Procedures { text } => self.procedures(text),
            FileCommand::Verify { container } => {
                Ok(verify_cmd(self.rt.alloc(), &self.read_file(container)?)?)
            }
            FileCommand::Widen { old, new } => self.widen(old, new),
        }
    }

    // What the program prints for a request.
    fn answer<'p, K, F, J, O, E, X>(
        &self,
        request: &Request<'p>,
        archive: F,
        opens: O,
        epochs: X,
    ) -> Result<String, Failure<'p>>
    where
        K: Keeper + Texts + Finish + Send + Drop,
        F: FnOnce(Trails, Succession, u32) -> K + Drop,
        J: Storage + End + Sync + Drop,
        O: FnOnce(StoreOptions<'_>, Option<Tree>) -> Result<Stored<J>, StoreRefusal> + Drop,
        E: Epochs + Drop,
        X: Fn(&str) -> Result<E, FileFault> + Drop,
        requires archive { F.IsAlwaysCallable archive }
        requires opens { O.IsAlwaysCallable opens }
        requires epochs { X.IsAlwaysCallable epochs }
    {
        match request {
            Request::Calls {
                tree,
                command,
                outputs,
            } => self.answer_calls(tree, command, *outputs, archive),
            Request::Store {
                files,
                options,
                procedures,
            } => self.serve_store(*files, *options, procedures, archive, opens),
            Request::Files(command) => self.answer_files(*command),
            Request::Audit {
                trails,
                explains,
                keeps_procedures,
            } => {
                let how = Auditing {
                    explains: *explains,
                    keeps_procedures: *keeps_procedures,
                };
                self.audit(trails, how, epochs)
            }
            Request::Export { store, folder } => self.export(store, folder, epochs),
            Request::Restore { store, file, epoch } => self.restore(store, file, *epoch, epochs),
            Request::Copy { control, name } => self.copy(*control, name),
            Request::Rule {
                control,
                ruling,
                text,
            } => self.rule(*control, *ruling, text),
            Request::Turn { control } => self.turn(*control),
            Request::Stop { control } => self.stop(*control),
            Request::Status { control, waits } => self.status(*control, *waits),
        }
    }

    /// Does what a request asks for, prints the result, and returns the exit status. `archive` makes what closes the engines of a server
    /// that lasts, of which a generic program couldn't say that it may be sent to a thread. `opens` opens a store, of whose journal
    /// the program knows no more than that it is one; `epochs` opens one to take its epochs again.
    pub fn execute<'p, K, F, J, O, E, X>(
        &self,
        request: &Request<'p>,
        archive: F,
        opens: O,
        epochs: X,
    ) -> u8
    where
        K: Keeper + Texts + Finish + Send + Drop,
        F: FnOnce(Trails, Succession, u32) -> K + Drop,
        J: Storage + End + Sync + Drop,
        O: FnOnce(StoreOptions<'_>, Option<Tree>) -> Result<Stored<J>, StoreRefusal> + Drop,
        E: Epochs + Drop,
        X: Fn(&str) -> Result<E, FileFault> + Drop,
        requires archive { F.IsAlwaysCallable archive }
        requires opens { O.IsAlwaysCallable opens }
        requires epochs { X.IsAlwaysCallable epochs }
    {
        match self.answer(request, archive, opens, epochs) {
            Ok(text) => output::status_after(self.rt, self.rt.print(text.as_str()), 0),
            Err(failure) => {
                let printed = output::print_failure(self.rt, &failure);
                output::status_after(self.rt, printed, failure.status())
            }
        }
    }
}
