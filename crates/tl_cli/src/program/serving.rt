// The commands `serve`, `stop` and `status`.

use crate::archive::{Finish, Trails};
use crate::failure::Failure;
use crate::program::Program;
use crate::{
    CliFault, check_procs_cmd, end_generation, generations_lines, open_engine, open_generations,
};
use serde_json::json;
use std::net::{Net, TcpListener, TcpStream};
use std::rt::Files;
use std::sync::Wait;
use std::thread::Threads;
use std::time::{Clock, Duration};
use std::{io, str, thread};
use tl_arguments::{LastingOptions, Outputs, Ruling, Sealing, ServeOptions};
use tl_file_journal::{End, Opening};
use tl_generations::Succession;
use tl_json::RegisterFault;
use tl_procedures::Procedures;
use tl_server::{
    Address, Control, Feed, Keeper, LastingServer, ListenFault, NoJournal, Relay, Server, Storage,
    Texts, ask_for_copy, ask_for_volume, ask_status, ask_to_obey, ask_to_stop,
};
use tl_verify::Proc;
use tl_workers::{Engine, Session};

// How many milliseconds lie between two questions to a server that is waited for.
const PAUSE: u64 = 100;

// Why the program doesn't listen there.
fn not_bound<'p>(address: Address<'p>, fault: ListenFault) -> Failure<'p> {
    match fault {
        ListenFault::NoPort => Failure::NotOpened { address },
        ListenFault::Memory => Failure::Refused(CliFault::Memory),
    }
}

// Whether there is a procedure under this name and with this code.
fn is_known(known: &Procedures, name: &str, procedure: &Proc) -> bool {
    match known.number_of(name) {
        Some(number) => known.get(number).is(procedure),
        None => false,
    }
}

// How long a peer may be silent.
fn silence(idle: Option<u16>) -> Option<Duration> {
    idle.map(|seconds| Duration::from_secs(u64::from(seconds)))
}

impl<'a, R> Program<'a, R>
where
    R: Files
        + Print
        + Eprint
        + AllocGlobal
        + Net<Listener = TcpListener, Stream = TcpStream>
        + Threads
        + Wait
        + Clock
        + Clone
        + Drop
        + Sync,
{
    // Says to people where the server listens.
    fn show_address(&self, address: Address<'_>) {
        let _shown = match address {
            Address::Port(port) => eprintln!(self.rt; "treedb: listening on 127.0.0.1:{port}"),
            Address::Socket(path) => eprintln!(self.rt; "treedb: listening on {path}"),
        };
    }

    // Says to people where followers connect.
    fn show_feed(&self, address: Address<'_>) {
        let _shown = match address {
            Address::Port(port) => eprintln!(self.rt; "treedb: followers at 127.0.0.1:{port}"),
            Address::Socket(path) => eprintln!(self.rt; "treedb: followers at {path}"),
        };
    }

    // Says to people how the server is asked to stop.
    fn show_control(&self, control: Address<'_>) {
        let _shown = match control {
            Address::Port(port) => eprintln!(self.rt; "treedb: treedb stop --port {port} ends it"),
            Address::Socket(path) => {
                eprintln!(self.rt; "treedb: treedb stop --socket {path} ends it")
            }
        };
    }

    // Listens at the server's address, and says so to people. 33 if that can't be opened.
    fn listen<'p>(
        &self,
        options: ServeOptions<'p>,
        connections: u16,
    ) -> Result<Server<'p>, Failure<'p>> {
        let (alloc, address) = (self.rt.alloc(), options.address);
        let bound = Server::bind(self.rt, alloc, address, options.mode, connections);
        let server = bound.map_err(|fault| not_bound(address, fault))?;
        self.show_address(server.address());
        let server = server.with_places(options.at_once);
        Ok(match silence(options.idle) {
            Some(idle) => server.ending_idle(idle),
            None => server,
        })
    }

    // Listens where the server can be asked to stop. 33 if that can't be opened.
    fn control<'p>(&self, control: Address<'p>, mode: u32) -> Result<Control<'p>, Failure<'p>> {
        Control::bind(self.rt, control, mode).map_err(|fault| not_bound(control, fault))
    }

    // The sessions of a server's connections, once all have ended, or once it was asked to stop.
    fn sessions_of<'p>(
        &self,
        engine: &Engine,
        options: ServeOptions<'p>,
        connections: u16,
    ) -> Result<Vec<Session>, Failure<'p>> {
        let Some(address) = options.control else {
            let server = self.listen(options, connections)?;
            return Ok(server.serve(self.rt, self.rt.alloc(), engine));
        };
        let control = self.control(address, options.mode)?;
        let sessions = self.sessions_until_stopped(engine, options, connections, &control, address);
        control.close(self.rt);
        sessions
    }

    // The same, where the server can be asked to stop at that control.
    fn sessions_until_stopped<'p>(
        &self,
        engine: &Engine,
        options: ServeOptions<'p>,
        connections: u16,
        control: &Control<'_>,
        address: Address<'p>,
    ) -> Result<Vec<Session>, Failure<'p>> {
        let server = self.listen(options, connections)?;
        self.show_control(control.address());
        let served = server.serve_until_stopped(self.rt, self.rt.alloc(), engine, control);
        served.map_err(|fault| not_bound(address, fault))
    }

    /// What `serve` prints, once all connections have ended, or once it was asked to stop.
    pub(crate) fn serve<'p, K, F>(
        &self,
        tree: &'p str,
        options: ServeOptions<'p>,
        procedures: &[&'p str],
        outputs: Outputs<'p>,
        archive: F,
    ) -> Result<String, Failure<'p>>
    where
        K: Keeper + Texts + Finish + Send + Drop,
        F: FnOnce(Trails, Succession, u32) -> K + Drop,
        requires { F.IsAlwaysCallable archive }
    {
        let file = self.read_file(tree)?;
        match options.sealing {
            Sealing::ByHand { connections } => {
                self.serve_sealed_by_hand(&file, options, connections, outputs)
            }
            Sealing::Itself(lasting) => {
                self.serve_lasting(&file, options, lasting, procedures, outputs.tree, archive)
            }
        }
    }

    // What is written besides is written, if a file is named for it, once all connections have ended.
    fn serve_sealed_by_hand<'p>(
        &self,
        tree: &[u8],
        options: ServeOptions<'p>,
        connections: u16,
        outputs: Outputs<'p>,
    ) -> Result<String, Failure<'p>> {
        let alloc = self.rt.alloc();
        let (engine, mut succession) = open_engine(alloc, tree, self.nodes)?;
        let sessions = self.sessions_of(&engine, options, connections)?;
        let epochs = end_generation(alloc, engine, sessions, &mut succession)?;
        let lines = epochs.lines(alloc)?;
        // The tree is saved though the trail can't be written.
        let kept = self.keep(outputs.trail, &epochs);
        self.save_last(outputs.tree, epochs.tree(), &lines)?;
        kept?;
        Ok(lines)
    }

    // A server that seals its epochs by itself, generation after generation. The tree is saved in the end, if a file is named for it.
    fn serve_lasting<'p, K, F>(
        &self,
        tree: &[u8],
        options: ServeOptions<'p>,
        lasting: LastingOptions<'p>,
        procedures: &[&'p str],
        save: Option<&'p str>,
        archive: F,
    ) -> Result<String, Failure<'p>>
    where
        K: Keeper + Texts + Finish + Send + Drop,
        F: FnOnce(Trails, Succession, u32) -> K + Drop,
        requires { F.IsAlwaysCallable archive }
    {
        let alloc = self.rt.alloc();
        let trails = self.trails_of(lasting)?;
        let (engine, succession) = open_generations(alloc, tree, self.nodes)?;
        let opening = Opening {
            engine,
            journal: NoJournal,
            succession,
            known: Procedures::new(alloc),
        };
        self.serve_opened(opening, trails, options, lasting, procedures, save, archive)
    }

    /// What a server that lasts prints, once all connections have ended, or once it was asked to stop.
    pub(crate) fn serve_opened<'p, K, F, J>(
        &self,
        opening: Opening<J>,
        trails: Trails,
        options: ServeOptions<'p>,
        lasting: LastingOptions<'p>,
        procedures: &[&'p str],
        save: Option<&'p str>,
        archive: F,
    ) -> Result<String, Failure<'p>>
    where
        K: Keeper + Texts + Finish + Send + Drop,
        F: FnOnce(Trails, Succession, u32) -> K + Drop,
        J: Storage + End + Sync + Drop,
        requires { F.IsAlwaysCallable archive }
    {
        self.register_named(&opening.engine, &opening.known, procedures)?;
        if options.waits_for_holder {
            opening.journal.wait_for_holder(self.rt);
        }
        let Opening {
            engine,
            journal,
            succession,
            known: _,
        } = opening;
        let mut archive = archive(trails, succession, self.nodes);
        archive.compare_by(journal.comparer(self.rt));
        let epochs = u32::from(lasting.generation);
        let relay = Relay::new(self.rt.alloc(), engine, archive, journal, epochs);
        let relay = if lasting.is_frozen {
            relay.that_is_frozen()
        } else {
            relay
        };
        self.serve_relay(relay, options, lasting.connections, save)
    }

    // Serves the connections of a relay, closes its engine and its journal, and says what it came to.
    fn serve_relay<'p, K, J>(
        &self,
        relay: Relay<K, J>,
        options: ServeOptions<'p>,
        connections: Option<u16>,
        save: Option<&'p str>,
    ) -> Result<String, Failure<'p>>
    where
        K: Keeper + Texts + Finish + Send + Drop,
        J: Storage + End + Sync + Drop,
    {
        self.serve_connections(&relay, options, connections)?;
        let (left, mut archive, journal) = relay.into_parts(self.rt, self.rt.alloc());
        if let Some((engine, sessions)) = left {
            archive.close(engine, sessions);
        }
        archive.compare_last(self.rt.alloc());
        let ended = journal.end(self.rt, self.rt.alloc(), archive.left(self.rt.alloc()));
        if let Err(fault) = ended {
            return Err(Failure::from(fault));
        }
        self.conclude(&mut archive, save)
    }

    // Registers the procedures that the command line names. One that is known already, under this name and with this code, is passed over.
    fn register_named<'p>(
        &self,
        engine: &Engine,
        known: &Procedures,
        names: &[&'p str],
    ) -> Result<(), Failure<'p>> {
        for named in self.all_named_procedures(names)? {
            let (name, procedure) = named.into_parts();
            if is_known(known, &name, &procedure) {
                continue;
            }
            if let Err(fault) = engine.register(self.rt, self.rt.alloc(), &name, procedure) {
                let _shown = eprintln!(self.rt; "treedb: the procedure {name}");
                return Err(Failure::Refused(CliFault::Register(RegisterFault::Name(fault))));
            }
        }
        Ok(())
    }

    // Where the trails go. 32 if the folder isn't there, or has files of other generations.
    pub(crate) fn trails_of<'p>(&self, lasting: LastingOptions<'p>) -> Result<Trails, Failure<'p>> {
        let Some(folder) = lasting.trails else {
            return Ok(Trails::Nowhere);
        };
        self.check_folder(folder)?;
        Ok(Trails::Folder(String::from_str(self.rt.alloc(), folder)?))
    }

    // Serves connections until there were as many as were asked for, or until the server is asked to stop.
    fn serve_connections<'p, K: Keeper + Texts + Send, J: Storage + Sync>(
        &self,
        relay: &Relay<K, J>,
        options: ServeOptions<'p>,
        connections: Option<u16>,
    ) -> Result<(), Failure<'p>> {
        let Some(address) = options.followers else {
            return self.serve_with(relay, options, connections, None);
        };
        let bound = Feed::bind(self.rt, address, options.mode);
        let feed = bound.map_err(|fault| not_bound(address, fault))?;
        self.show_feed(feed.address());
        let served = self.serve_with(relay, options, connections, Some(&feed));
        feed.close(self.rt);
        served
    }

    // The same, where followers are served at that feed, if there is one.
    fn serve_with<'p, K: Keeper + Texts + Send, J: Storage + Sync>(
        &self,
        relay: &Relay<K, J>,
        options: ServeOptions<'p>,
        connections: Option<u16>,
        feed: Option<&Feed<'_>>,
    ) -> Result<(), Failure<'p>> {
        let Some(address) = options.control else {
            let server = self.listen_lasting(options, connections)?;
            server.serve(self.rt, self.rt.alloc(), relay, feed);
            return Ok(());
        };
        let control = self.control(address, options.mode)?;
        let served = self.serve_until_stopped(relay, options, connections, &control, address, feed);
        control.close(self.rt);
        served
    }

    // The same, where the server can be asked to stop at that control.
    fn serve_until_stopped<'p, K: Keeper + Texts + Send, J: Storage + Sync>(
        &self,
        relay: &Relay<K, J>,
        options: ServeOptions<'p>,
        connections: Option<u16>,
        control: &Control<'_>,
        address: Address<'p>,
        feed: Option<&Feed<'_>>,
    ) -> Result<(), Failure<'p>> {
        let server = self.listen_lasting(options, connections)?;
        self.show_control(control.address());
        let served = server.serve_until_stopped(self.rt, self.rt.alloc(), relay, control, feed);
        served.map_err(|fault| not_bound(address, fault))
    }

    // Listens for the connections of a server that lasts, and says so to people. 33 if its address can't be opened.
    fn listen_lasting<'p>(
        &self,
        options: ServeOptions<'p>,
        connections: Option<u16>,
    ) -> Result<LastingServer<'p>, Failure<'p>> {
        let address = options.address;
        let bound = LastingServer::bind(self.rt, address, options.mode);
        let server = bound.map_err(|fault| not_bound(address, fault))?;
        self.show_address(server.address());
        let server = server.with_places(options.at_once);
        let server = match connections {
            Some(connections) => server.with_connections(u64::from(connections)),
            None => server,
        };
        Ok(match silence(options.idle) {
            Some(idle) => server.ending_idle(idle),
            None => server,
        })
    }

    // What a server that lasts prints in the end. If a file wasn't written, the tree is saved and printed all the same.
    fn conclude<'p, K: Finish>(
        &self,
        archive: &mut K,
        save: Option<&'p str>,
    ) -> Result<String, Failure<'p>> {
        let alloc = self.rt.alloc();
        let generations = archive.finish(alloc)?;
        let lines = generations_lines(alloc, generations, archive.tree())?;
        self.save_last(save, archive.tree(), &lines)?;
        let Some(fault) = archive.unwritten() else {
            return Ok(lines);
        };
        match self.rt.print(lines.as_str()) {
            Ok(()) => Err(Failure::Refused(fault)),
            Err(_) => Err(Failure::Refused(CliFault::Unwritable)),
        }
    }

    /// Asks a server to stop.
    pub(crate) fn stop<'p>(&self, control: Address<'p>) -> Result<String, Failure<'p>> {
        match ask_to_stop(self.rt, control) {
            Ok(()) => Ok(String::from_str(self.rt.alloc(), "{\"stopping\":true}\n")?),
            Err(reason) => Err(Failure::NoServer { control, reason }),
        }
    }

    /// What `snapshot` prints, once there is a copy.
    pub(crate) fn copy<'p>(
        &self,
        control: Address<'p>,
        name: &'p str,
    ) -> Result<String, Failure<'p>> {
        let alloc = self.rt.alloc();
        match ask_for_copy(self.rt, alloc, control, name) {
            Ok(Ok(())) => Ok(format!(in alloc; "{{\"snapshot\":\"{name}\"}}\n")?),
            Ok(Err(refusal)) => Err(Failure::Uncopied(refusal)),
            Err(reason) => Err(Failure::NoServer { control, reason }),
        }
    }

    /// What `volume` prints, once the server goes on in a new volume.
    pub(crate) fn turn<'p>(&self, control: Address<'p>) -> Result<String, Failure<'p>> {
        let alloc = self.rt.alloc();
        match ask_for_volume(self.rt, alloc, control) {
            Ok(Ok(number)) => Ok(format!(in alloc; "{{\"volume\":{number}}}\n")?),
            Ok(Err(refusal)) => Err(Failure::Unturned(refusal)),
            Err(reason) => Err(Failure::NoServer { control, reason }),
        }
    }

    // The line that asks a server to take the procedures of a text. A text with a fault is shown, and there is no line.
    fn ruling_line<'p>(&self, ruling: Ruling, path: &'p str) -> Result<String, Failure<'p>> {
        let (alloc, file) = (self.rt.alloc(), self.read_file(path)?);
        if let Err(fault) = check_procs_cmd(alloc, &file) {
            return Err(self.misread_language(path, &file, fault));
        }
        let op = match ruling {
            Ruling::Register => "register",
            Ruling::Replace => "replace",
        };
        // Such a text is UTF-8.
        let text = str::from_utf8(&file).unwrap_or("");
        let request = json!(in alloc; {"op": op, "text": text})?;
        Ok(format!(in alloc; "{}\n", request.to_string(alloc)?)?)
    }

    /// Asks a server to take the procedures of a text.
    pub(crate) fn rule<'p>(
        &self,
        control: Address<'p>,
        ruling: Ruling,
        path: &'p str,
    ) -> Result<String, Failure<'p>> {
        let line = self.ruling_line(ruling, path)?;
        match ask_to_obey(self.rt, self.rt.alloc(), control, &line) {
            Ok(answer) if answer.starts_with("{\"error\":") => Err(Failure::Unheeded { answer }),
            Ok(answer) => Ok(answer),
            Err(reason) => Err(Failure::NoServer { control, reason }),
        }
    }

    /// Asks a server how far it is. If it waits, it asks until there is a server. Another program there is none.
    pub(crate) fn status<'p>(
        &self,
        control: Address<'p>,
        waits: bool,
    ) -> Result<String, Failure<'p>> {
        for _ in self.rt.forever() {
            match ask_status(self.rt, self.rt.alloc(), control) {
                Ok(line) => return Ok(line),
                Err(reason) if waits && reason.kind() != io::ErrorKind::InvalidData => {
                    thread::sleep(self.rt, Duration::from_millis(PAUSE));
                }
                Err(reason) => return Err(Failure::NoServer { control, reason }),
            }
        }
        unreachable!()
    }
}
