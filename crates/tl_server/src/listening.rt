// Connections on a local port, or on a Unix socket.

ghost use Rattle.std.specs.Prelude.{◌≡◌, IfErr};
ghost use Rattle.tl_server.specs.declared.fault.ListenFault.TheVariants.{Memory};

use crate::answer::put_error_line;
use crate::control::Control;
use crate::entrance::{Entrance, Listener};
use crate::fault::ListenFault;
use crate::hall::{Hall, MAX_CONNECTIONS, Phase};
use crate::outbox::Outbox;
use crate::serving::serve;
use crate::socket::{SocketSink, SocketSource};
use crate::stream::{Address, Stream};
use std::alloc::Global;
use std::net::{Net, TcpListener, TcpStream};
use std::rt::Files;
use std::sync::Wait;
use std::thread::Threads;
use std::time::{Clock, Duration};
use std::{io, thread};
use tl_workers::{Engine, MAX_WORKERS, NoGate, Session};

/// Where connections come from, how many of them, and how long one may be silent.
#[derive(Clone, Copy)]
pub(crate) struct Door<'a> {
    pub(crate) listener: &'a Listener,
    pub(crate) connections: u64,
    pub(crate) idle: Option<Duration>,
}

impl Door<'_> {
    /// The next connection, of this number, if it may be served. An error if it can't be accepted, as where no more files may be open.
    pub(crate) fn receive(
        self,
        rt: &impl Wait,
        number: u64,
        hall: &Hall,
    ) -> io::Result<Option<Stream>> {
        let stream = self.listener.accept()?;
        if !hall.lets_in(rt, number, &stream) {
            return Ok(None);
        }
        // If this fails, an answer may come later, but is the same.
        let _ = stream.send_at_once();
        // If these fail, a silent peer keeps its place.
        let _ = stream.set_read_timeout(self.idle);
        let _ = stream.set_write_timeout(self.idle);
        Ok(Some(stream))
    }
}

// The next connection, of this number, with a session of its own. A connection that gets no session is told why, and ended.
fn welcome(
    rt: &impl Wait,
    alloc: Global,
    door: Door<'_>,
    number: u64,
    engine: &Engine,
    hall: &Hall,
    outbox: &mut Outbox,
) -> Option<(Stream, Session)> {
    let Ok(Some(stream)) = door.receive(rt, number, hall) else {
        return None;
    };
    match engine.session(rt, alloc) {
        Ok(session) => Some((stream, session)),
        Err(refusal) => {
            let mut sink = SocketSink::new(&stream);
            outbox.renew();
            put_error_line(outbox, &mut sink, refusal.numbers().as_slice());
            outbox.flush(&mut sink);
            None
        }
    }
}

// Serves a connection to its end.
fn visit<R: Threads + Wait + Sync>(
    rt: &R,
    alloc: Global,
    engine: &Engine,
    hall: &Hall,
    number: u64,
    stream: Stream,
    session: Session,
) {
    let mut session = session;
    let mut source = SocketSource::until(&stream, hall.is_ending());
    let mut sink = SocketSink::new(&stream);
    // A fault ends this connection, and no other.
    let _ = serve(rt, alloc, &mut source, &mut sink, engine, &mut session);
    hall.keep(rt, session);
    drop(stream);
    hall.give_place(rt, number);
}

// How many threads stay to help with batches: one for each processor but that of the batch's own thread.
pub(crate) fn helpers(rt: &impl Threads) -> usize {
    match thread::available_parallelism(rt) {
        Ok(processors) => processors.get().min(MAX_WORKERS).saturating_sub(1),
        Err(_) => 0,
    }
}

// Serves the connections that come through the door, while threads stay that help with batches.
fn serve_all<R: Threads + Wait + Sync>(
    rt: &R,
    alloc: Global,
    door: Door<'_>,
    engine: &Engine,
    hall: &Hall,
    outbox: Outbox,
) {
    let assists = || engine.assist(rt, &NoGate);
    engine.crew().with_members(rt, helpers(rt), &assists, || {
        serve_each(rt, alloc, door, engine, hall, outbox)
    });
    hall.enter(rt, Phase::Over);
}

// Serves the connections that come through the door, each on a thread of its own if one can be started, otherwise on this
// one.
fn serve_each<R: Threads + Wait + Sync>(
    rt: &R,
    alloc: Global,
    door: Door<'_>,
    engine: &Engine,
    hall: &Hall,
    outbox: Outbox,
) {
    thread::scope(thread::scope_env(), rt, |scope| {
        let mut outbox = outbox;
        for number in 0..door.connections {
            if !hall.take_place(rt) {
                break;
            }
            match welcome(rt, alloc, door, number, engine, hall, &mut outbox) {
                Some((stream, session)) => {
                    let started = scope.spawn(move || visit(
                        rt, alloc, engine, hall, number, stream, session,
                    ));
                    if let Err(refused) = started {
                        (refused.value)();
                    }
                }
                None => hall.give_place(rt, number),
            }
        }
        hall.enter(rt, Phase::Draining);
    });
}

/// A local port or a Unix socket that waits for connections. The system lets clients connect from then on; `serve` accepts them.
#[derive(Drop)]
pub struct Server<'a> {
    entrance: Entrance<'a>,
    connections: u16,
    // How many are open at once at most.
    places: u16,
    idle: Option<Duration>,
    // There is room for the session of each connection.
    sessions: Vec<Session>,
    outbox: Outbox,
}

impl<'a> Server<'a> {
    /// Listens at this address, for `connections` connections in all, from 1 to 65,535. The file of a socket gets the permissions
    /// `mode`, nine bits; a port has none. The file of a server that is no more is replaced.
    ///
    /// 33 if the port or the socket can't be opened: where another file is there, or a server that listens, that stays as it is. 990 if
    /// memory is refused.
    pub fn bind<R: Files + Net<Listener = TcpListener, Stream = TcpStream>>(
        rt: &R,
        alloc: Global,
        address: Address<'a>,
        mode: u32,
        connections: u16,
    ) -> Result<Server<'a>, ListenFault> {
        let sessions = Vec::with_capacity(alloc, usize::from(connections))?;
        let outbox = Outbox::new(alloc)?;
        let entrance = Entrance::open(rt, address, mode)?;
        Ok(Server {
            entrance,
            connections,
            places: MAX_CONNECTIONS,
            idle: None,
            sessions,
            outbox,
        })
    }

    /// Where it listens, with the port that the system chose where 0 was asked for.
    pub fn address(&self) -> Address<'a>
        ensures { result ≡ self.now.entrance.address }
    {
        self.entrance.address
    }

    /// Ends a connection that sends nothing for `idle` while the server waits for its next line, or takes none of its
    /// answers for that time.
    pub fn ending_idle(self, idle: Duration) -> Server<'a> {
        Server {
            idle: Some(idle),
            ..self
        }
    }

    /// Holds open so many connections at once, from 1 to 1,024, in place of 8.
    pub fn with_places(self, places: u16) -> Server<'a> {
        Server { places, ..self }
    }

    /// Serves its connections, and returns their sessions when all have ended. Each connection has a session of its own. At
    /// most 8 are open at once, or as many as were asked for, and a further one is accepted when another ends. A failed attempt to accept a connection counts
    /// as one. A connection that gets no session is answered with one line, `{"error":[821]}`, or `{"error":[990]}` if
    /// memory is refused, and ended. A connection that fails is ended, and the others go on. In the end the socket's file is removed.
    pub fn serve<R: Files + Threads + Wait + Sync>(
        self,
        rt: &R,
        alloc: Global,
        engine: &Engine,
    ) -> Vec<Session> {
        let Server {
            entrance,
            connections,
            places,
            idle,
            sessions,
            outbox,
        } = self;
        let hall = Hall::new(sessions, places);
        let door = Door {
            listener: &entrance.listener,
            connections: u64::from(connections),
            idle,
        };
        serve_all(rt, alloc, door, engine, &hall, outbox);
        entrance.close(rt);
        hall.into_sessions()
    }

    /// Serves its connections as `serve` does, until it is asked to stop at the control. Then it accepts no more
    /// connections. On those that are open, each line that was read whole is answered, and then they are ended. 990 if memory, or a
    /// thread for the control, is refused before the first connection.
    pub fn serve_until_stopped<R>(
        self,
        rt: &R,
        alloc: Global,
        engine: &Engine,
        control: &Control<'_>,
    ) -> Result<Vec<Session>, ListenFault>
    where
        R: Files + Net<Listener = TcpListener, Stream = TcpStream> + Threads + Wait + Clock + Sync,
        ensures { IfErr result (λ e. e ≡ Memory) }
    {
        let Server {
            entrance,
            connections,
            places,
            idle,
            sessions,
            outbox,
        } = self;
        let Ok(hall) = Hall::that_stops(alloc, sessions, places) else {
            entrance.close(rt);
            return Err(ListenFault::Memory);
        };
        let listener = &entrance.listener;
        let connections = u64::from(connections);
        let shared = &hall;
        // Without a thread of its own the control would be watched only after all connections have ended.
        let is_watched = thread::scope(thread::scope_env(), rt, |scope| {
            let watches = move || control.watch(rt, alloc, shared, listener, engine);
            if scope.spawn(watches).is_err() {
                return false;
            }
            let door = Door {
                listener,
                connections,
                idle,
            };
            serve_all(rt, alloc, door, engine, shared, outbox);
            true
        });
        entrance.close(rt);
        if is_watched {
            Ok(hall.into_sessions())
        } else {
            Err(ListenFault::Memory)
        }
    }
}

/// Listens on 127.0.0.1 and this port, serves `connections` connections in all, from 1 to 65,535, as `Server::serve` does,
/// and returns their sessions.
///
/// 33 if the port can't be opened; 990 if memory is refused before the first connection.
pub fn listen<R>(
    rt: &R,
    alloc: Global,
    port: u16,
    connections: u16,
    engine: &Engine,
) -> Result<Vec<Session>, ListenFault>
where
    R: Files + Net<Listener = TcpListener, Stream = TcpStream> + Threads + Wait + Sync,
{
    let server = Server::bind(rt, alloc, Address::Port(port), 0, connections)?;
    Ok(server.serve(rt, alloc, engine))
}
