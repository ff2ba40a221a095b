// A third local port or Unix socket, at which followers get what is stored.

ghost use Rattle.std.specs.Prelude.{◌≡◌, IfErr};
ghost use Rattle.tl_server.specs.declared.fault.ListenFault.TheVariants.{NoPort};

use crate::answer::put_error_line;
use crate::device::{Failure, Sink, write_all};
use crate::entrance::Entrance;
use crate::fault::ListenFault;
use crate::follow::read_follow_with;
use crate::hall::{Hall, Phase};
use crate::outbox::Outbox;
use crate::reader::{Came, Reader};
use crate::socket::{SocketSink, SocketSource};
use crate::status::Reporter;
use crate::stream::{Address, Stream};
use std::alloc::Global;
use std::net::{Net, TcpListener, TcpStream};
use std::rt::Files;
use std::sync::Wait;
use std::sync::atomic::{AtomicU64, Ordering};
use std::thread;
use std::thread::Threads;
use std::time::{Clock, Duration};
use tl_tokens::Scratch;

// How many milliseconds pass before the socket is looked at again.
const PAUSE: u64 = 100;

// How many seconds a follower may be silent, or take nothing.
const PATIENCE: u64 = 60;

// How many followers are served at once.
const PLACES: u64 = 16;

// Writes a line of numbers of a refusal.
fn refuse<K: Sink>(outbox: &mut Outbox, sink: &mut K, numbers: &[u64]) -> Result<(), Failure> {
    outbox.renew();
    put_error_line(outbox, sink, numbers);
    outbox.flush(sink);
    if outbox.has_failed() {
        return Err(Failure);
    }
    Ok(())
}

// Answers a follower's line.
fn answer<R: Wait + Clock, T: Reporter, K: Sink>(
    rt: &R,
    alloc: Global,
    reporter: &T,
    line: &[u8],
    scratch: &mut Scratch,
    outbox: &mut Outbox,
    sink: &mut K,
) -> Result<(), Failure> {
    let follow = match read_follow_with(alloc, line, scratch) {
        Ok(follow) => follow,
        Err(fault) => return refuse(outbox, sink, fault.numbers().as_slice()),
    };
    match reporter.answer_follower(rt, alloc, &follow) {
        Ok(text) => {
            write_all(sink, text.as_bytes())?;
            write_all(sink, b"\n")
        }
        Err(refusal) => refuse(outbox, sink, refusal.numbers().as_slice()),
    }
}

// Answers the lines of a follower, one after another.
fn attend<R: Wait + Clock, T: Reporter>(
    rt: &R,
    alloc: Global,
    hall: &Hall,
    reporter: &T,
    stream: &Stream,
) {
    let (Ok(mut reader), Ok(mut outbox)) = (Reader::new(alloc), Outbox::new(alloc)) else {
        return;
    };
    let mut scratch = Scratch::new(alloc);
    let mut source = SocketSource::until(stream, hall.is_ending());
    let mut sink = SocketSink::new(stream);
    for _ in rt.forever() {
        let Ok(Came::Whole) = reader.next(rt, &mut source) else {
            return;
        };
        let answered = answer(
            rt,
            alloc,
            reporter,
            reader.line(),
            &mut scratch,
            &mut outbox,
            &mut sink,
        );
        if answered.is_err() {
            return;
        }
    }
    unreachable!()
}

// Serves a follower to its end. It takes one of the followers' places until then.
fn visit<R: Wait + Clock, T: Reporter>(
    rt: &R,
    alloc: Global,
    hall: &Hall,
    taken: &AtomicU64,
    reporter: &T,
    number: u64,
    stream: Stream,
) {
    if taken.fetch_add(1, Ordering::Relaxed) < PLACES && hall.lets_follow(rt, number, &stream) {
        let patience = Some(Duration::from_secs(PATIENCE));
        // If this fails, an answer may come later, but is the same.
        let _ = stream.send_at_once();
        // If these fail, a silent follower keeps its place.
        let _ = stream.set_read_timeout(patience);
        let _ = stream.set_write_timeout(patience);
        attend(rt, alloc, hall, reporter, &stream);
        hall.let_go(rt, number);
    }
    taken.fetch_sub(1, Ordering::Relaxed);
    drop(stream);
}

/// A local port or a Unix socket at which followers get what is stored.
#[derive(Drop)]
pub struct Feed<'a> {
    entrance: Entrance<'a>,
}

impl<'a> Feed<'a> {
    /// Listens at this address. The file of a socket gets the permissions `mode`, nine bits. 33 if the port or the socket can't be
    /// opened, as for the server's own.
    pub fn bind<R: Files + Net<Listener = TcpListener, Stream = TcpStream>>(
        rt: &R,
        address: Address<'a>,
        mode: u32,
    ) -> Result<Feed<'a>, ListenFault>
        ensures { IfErr result (λ e. e ≡ NoPort) }
    {
        let entrance = Entrance::open(rt, address, mode)?;
        if entrance.listener.set_nonblocking().is_err() {
            entrance.close(rt);
            return Err(ListenFault::NoPort);
        }
        Ok(Feed { entrance })
    }

    /// Where it listens, with the port that the system chose where 0 was asked for.
    pub fn address(&self) -> Address<'a>
        ensures { result ≡ self.now.entrance.address }
    {
        self.entrance.address
    }

    /// Listens no more, and removes the socket's file.
    pub fn close(self, rt: &impl Files) {
        let Feed { entrance } = self;
        entrance.close(rt);
    }

    /// Serves followers, each on a thread of its own, until all connections of the server have ended.
    pub(crate) fn watch<R, T: Reporter + Sync>(
        &self,
        rt: &R,
        alloc: Global,
        hall: &Hall,
        reporter: &T,
    )
    where
        R: Net<Listener = TcpListener, Stream = TcpStream> + Threads + Wait + Clock + Sync,
    {
        let taken = AtomicU64::new(0);
        let taken = &taken;
        thread::scope(thread::scope_env(), rt, |scope| {
            let mut number = u64::MAX;
            for _ in rt.forever() {
                if let Ok(stream) = self.entrance.listener.accept() {
                    // No run counts down to the numbers of connections.
                    number = number.saturating_sub(1);
                    let own = number;
                    let visits = move || visit(rt, alloc, hall, taken, reporter, own, stream);
                    let started = scope.spawn(visits);
                    if let Err(refused) = started {
                        (refused.value)();
                    }
                }
                if hall.phase_soon(rt, Duration::from_millis(PAUSE)) == Phase::Over {
                    // Followers end too.
                    return hall.stop(rt);
                }
            }
            unreachable!()
        });
    }
}
