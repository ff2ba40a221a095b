// Connections on a local port, or on a Unix socket, that engines serve one after another.

ghost use Rattle.std.specs.Prelude.{◌≡◌, IfErr};
ghost use Rattle.tl_server.specs.declared.fault.ListenFault.TheVariants.{Memory};

use crate::control::Control;
use crate::entrance::{Entrance, Listener};
use crate::fault::ListenFault;
use crate::feed::Feed;
use crate::hall::{Hall, LASTING_PLACES, Phase};
use crate::keeper::Keeper;
use crate::listening::{Door, helpers};
use crate::relay::Relay;
use crate::serving::serve;
use crate::socket::{SocketSink, SocketSource};
use crate::stage::Place;
use crate::status::Reporter;
use crate::storage::Storage;
use crate::stored_sink::StoredSink;
use crate::stream::{Address, Stream};
use crate::texts::Texts;
use std::alloc::Global;
use std::net::{Net, TcpListener, TcpStream};
use std::rt::Files;
use std::sync::Wait;
use std::thread;
use std::thread::Threads;
use std::time::{Clock, Duration};

// How many milliseconds pass after a connection that couldn't be accepted.
const PAUSE: u64 = 100;

// What the threads of connections share.
#[derive(Drop)]
struct Room<'a, K, J> {
    relay: &'a Relay<K, J>,
    hall: &'a Hall,
    listener: &'a Listener,
}

// Serves a connection to its end.
fn visit<R, K: Keeper + Texts, J: Storage>(
    rt: &R,
    alloc: Global,
    room: &Room<'_, K, J>,
    number: u64,
    stream: Stream,
)
where
    R: Net<Listener = TcpListener, Stream = TcpStream> + Eprint + Threads + Wait + Sync,
{
    let (relay, hall) = (room.relay, room.hall);
    let mut place = Place::new();
    let mut source = SocketSource::until(&stream, hall.is_ending());
    let mut sink = StoredSink::new(rt, alloc, relay, SocketSink::new(&stream));
    // A fault ends this connection, and no other.
    let _ = serve(rt, alloc, &mut source, &mut sink, relay, &mut place);
    if sink.has_failed() {
        // What is done from now on isn't stored either, and no follower is left that could hold what is.
        hall.stop(rt);
        relay.end_waits(rt);
        room.listener.wake(rt);
    }
    drop(stream);
    hall.give_place(rt, number);
    if relay.tells_of_browser() {
        let _shown = eprintln!(rt;
            "treedb: a browser sent a request; its connection was ended, and nothing of it was done"
        );
    }
}

// Serves the connections that come through the door, while threads stay that help with batches.
fn serve_all<R, K: Keeper + Texts + Send, J: Storage + Sync>(
    rt: &R,
    alloc: Global,
    door: Door<'_>,
    relay: &Relay<K, J>,
    hall: &Hall,
)
where
    R: Net<Listener = TcpListener, Stream = TcpStream> + Eprint + Threads + Wait + Clock + Sync,
{
    match relay.crew() {
        Some(crew) => {
            let assists = || relay.assist(rt);
            crew.with_members(rt, helpers(rt), &assists, || {
                serve_each(rt, alloc, door, relay, hall)
            });
        }
        None => serve_each(rt, alloc, door, relay, hall),
    }
    hall.enter(rt, Phase::Over);
}

// Serves the connections that come through the door, and followers beside them, if there is a feed. Without a thread for those none is served.
fn serve_and_feed<R, K: Keeper + Texts + Send, J: Storage + Sync>(
    rt: &R,
    alloc: Global,
    door: Door<'_>,
    relay: &Relay<K, J>,
    hall: &Hall,
    feed: Option<&Feed<'_>>,
)
where
    R: Net<Listener = TcpListener, Stream = TcpStream> + Eprint + Threads + Wait + Clock + Sync,
{
    let Some(feed) = feed else {
        return serve_all(rt, alloc, door, relay, hall);
    };
    thread::scope(thread::scope_env(), rt, |scope| {
        let feeds = move || feed.watch(rt, alloc, hall, relay);
        if scope.spawn(feeds).is_err() {
            let _shown = eprintln!(rt;
                "treedb: no thread could be started for followers, so none is served"
            );
        }
        serve_all(rt, alloc, door, relay, hall);
    });
}

// Says once that as many connections are open as may be, if so.
fn tell_full<R: Eprint + Wait>(rt: &R, hall: &Hall, told: &mut bool) {
    if !*told && hall.is_full(rt) {
        *told = true;
        let _shown = eprintln!(rt;
            "treedb: {} connections are open, so the next one waits (--at-once)",
            hall.places()
        );
    }
}

// The next connection, of this number, if it may be served. Where none can be accepted, as where no more files may be open, that is tried
// again soon, until the server is asked to stop.
fn next<R: Wait + Clock>(rt: &R, door: Door<'_>, number: u64, hall: &Hall) -> Option<Stream> {
    for _ in rt.forever() {
        match door.receive(rt, number, hall) {
            Ok(served) => return served,
            Err(_) => {
                if !hall.is_serving(rt) {
                    return None;
                }
                let _slept = thread::sleep(rt, Duration::from_millis(PAUSE));
            }
        }
    }
    unreachable!()
}

// Serves the connections that come through the door, each on a thread of its own if one can be started, otherwise on this
// one.
fn serve_each<R, K: Keeper + Texts + Send, J: Storage + Sync>(
    rt: &R,
    alloc: Global,
    door: Door<'_>,
    relay: &Relay<K, J>,
    hall: &Hall,
)
where
    R: Net<Listener = TcpListener, Stream = TcpStream> + Eprint + Threads + Wait + Clock + Sync,
{
    let room = Room {
        relay,
        hall,
        listener: door.listener,
    };
    let room = &room;
    thread::scope(thread::scope_env(), rt, |scope| {
        let mut told = false;
        for number in 0..door.connections {
            tell_full(rt, hall, &mut told);
            if !hall.take_place(rt) {
                break;
            }
            match next(rt, door, number, hall) {
                Some(stream) => {
                    let started = scope.spawn(move || visit(rt, alloc, room, number, stream));
                    if let Err(refused) = started {
                        (refused.value)();
                    }
                }
                None => hall.give_place(rt, number),
            }
        }
        hall.enter(rt, Phase::Draining);
    });
}

// A hall for so many connections at once, which are ended if what was done can't be stored. If memory is refused for that, each is ended
// when it is to be answered.
fn hall_for<K: Keeper + Texts, J: Storage>(
    alloc: Global,
    relay: &Relay<K, J>,
    places: u16,
) -> Hall {
    if relay.stores() {
        if let Ok(hall) = Hall::that_stops(alloc, Vec::new(alloc), places) {
            return hall;
        }
    }
    Hall::new(Vec::new(alloc), places)
}

/// A local port or a Unix socket whose connections a relay of engines serves. It takes no memory for a connection before that comes.
#[derive(Drop)]
pub struct LastingServer<'a> {
    entrance: Entrance<'a>,
    connections: u64,
    // How many are open at once at most.
    places: u16,
    idle: Option<Duration>,
}

impl<'a> LastingServer<'a> {
    /// Listens at this address, for connections without end. The file of a socket gets the permissions `mode`, nine bits; a port has
    /// none. The file of a server that is no more is replaced.
    ///
    /// 33 if the port or the socket can't be opened: where another file is there, or a server that listens, that stays as it is.
    pub fn bind<R: Files + Net<Listener = TcpListener, Stream = TcpStream>>(
        rt: &R,
        address: Address<'a>,
        mode: u32,
    ) -> Result<LastingServer<'a>, ListenFault> {
        let entrance = Entrance::open(rt, address, mode)?;
        Ok(LastingServer {
            entrance,
            connections: u64::MAX,
            places: LASTING_PLACES,
            idle: None,
        })
    }

    /// Where it listens, with the port that the system chose where 0 was asked for.
    pub fn address(&self) -> Address<'a>
        ensures { result ≡ self.now.entrance.address }
    {
        self.entrance.address
    }

    /// Serves so many connections in all.
    pub fn with_connections(self, connections: u64) -> LastingServer<'a> {
        LastingServer {
            connections,
            ..self
        }
    }

    /// Holds open so many connections at once, from 1 to 1,024, in place of 256.
    pub fn with_places(self, places: u16) -> LastingServer<'a> {
        LastingServer { places, ..self }
    }

    /// Ends a connection that sends nothing for `idle` while the server waits for its next line, or takes none of its
    /// answers for that time.
    pub fn ending_idle(self, idle: Duration) -> LastingServer<'a> {
        LastingServer {
            idle: Some(idle),
            ..self
        }
    }

    /// Serves its connections until there were as many as it serves. Where one can't be accepted, that is tried again soon. A
    /// connection that fails is ended, and the others go on; but if what was done can't be stored, no more connections are accepted, and
    /// those that are open are ended. In the end the socket's file is removed.
    pub fn serve<R, K: Keeper + Texts + Send, J: Storage + Sync>(
        self,
        rt: &R,
        alloc: Global,
        relay: &Relay<K, J>,
        feed: Option<&Feed<'_>>,
    )
    where
        R: Files
            + Net<Listener = TcpListener, Stream = TcpStream>
            + Eprint
            + Threads
            + Wait
            + Clock
            + Sync,
    {
        let LastingServer {
            entrance,
            connections,
            places,
            idle,
        } = self;
        let hall = hall_for(alloc, relay, places);
        let door = Door {
            listener: &entrance.listener,
            connections,
            idle,
        };
        serve_and_feed(rt, alloc, door, relay, &hall, feed);
        entrance.close(rt);
    }

    /// Serves its connections as `serve` does, until it is asked to stop at the control. Then it accepts no more
    /// connections. On those that are open, each line that was read whole is answered, and then they are ended. 990 if memory, or a
    /// thread for the control, is refused before the first connection.
    pub fn serve_until_stopped<R, K: Keeper + Texts + Send, J: Storage + Sync>(
        self,
        rt: &R,
        alloc: Global,
        relay: &Relay<K, J>,
        control: &Control<'_>,
        feed: Option<&Feed<'_>>,
    ) -> Result<(), ListenFault>
    where
        R: Files
            + Net<Listener = TcpListener, Stream = TcpStream>
            + Eprint
            + Threads
            + Wait
            + Clock
            + Sync,
        ensures { IfErr result (λ e. e ≡ Memory) }
    {
        let LastingServer {
            entrance,
            connections,
            places,
            idle,
        } = self;
        let Ok(hall) = Hall::that_stops(alloc, Vec::new(alloc), places) else {
            entrance.close(rt);
            return Err(ListenFault::Memory);
        };
        let listener = &entrance.listener;
        let hall = &hall;
        // Without a thread of its own the control would be watched only after all connections have ended, which may be never.
        let is_watched = thread::scope(thread::scope_env(), rt, |scope| {
            let watches = move || control.watch(rt, alloc, hall, listener, relay);
            if scope.spawn(watches).is_err() {
                return false;
            }
            let door = Door {
                listener,
                connections,
                idle,
            };
            serve_and_feed(rt, alloc, door, relay, hall, feed);
            true
        });
        entrance.close(rt);
        if is_watched {
            Ok(())
        } else {
            Err(ListenFault::Memory)
        }
    }
}
