// A second local port or Unix socket, by which a server is asked to stop, how far it is, and for a copy of what it stores.

ghost use Rattle.std.specs.Prelude.{◌≡◌, IfErr};
ghost use Rattle.tl_server.specs.declared.fault.ListenFault.TheVariants.{NoPort};

use crate::answer::{put_error_line, put_number};
use crate::asking::{COPIED, COPIED_END, STOPPING, TURNED, TURNED_END};
use crate::copying::CopyRefusal;
use crate::device::{Sink, write_all};
use crate::entrance::{Entrance, Listener};
use crate::fault::ListenFault;
use crate::hall::{Hall, Phase};
use crate::outbox::Outbox;
use crate::request::{LineRequest, is_barred, read_request};
use crate::socket::SocketSink;
use crate::status::{Reporter, Status, put_status_line};
use crate::stream::{Address, Stream};
use crate::volume::VolumeRefusal;
use crate::wish::{Wish, wish_of};
use std::alloc::Global;
use std::net::{Net, TcpListener, TcpStream};
use std::rt::Files;
use std::str;
use std::sync::Wait;
use std::thread::Threads;
use std::time::{Clock, Duration};

// The answer to what is none of the requests, or to one for something that the server doesn't say.
pub(crate) const NO_REQUEST: &[u8] = b"{\"error\":[901]}\n";

// The answer if memory is refused.
pub(crate) const NO_MEMORY: &[u8] = b"{\"error\":[990]}\n";

// How many milliseconds pass before the control is checked again.
const PAUSE: u64 = 100;

/// Answers a peer. One that doesn't wait for the answer has asked all the same.
pub(crate) fn say(stream: &Stream, text: &[u8]) {
    let _ = write_all(&mut SocketSink::new(stream), text);
}

// Answers how far the server is, or that memory is refused.
fn tell(alloc: Global, stream: &Stream, status: &Status) {
    let Ok(mut outbox) = Outbox::new(alloc) else {
        return say(stream, NO_MEMORY);
    };
    let mut sink = SocketSink::new(stream);
    put_status_line(&mut outbox, &mut sink, status);
    outbox.flush(&mut sink);
}

// Answers with an error.
fn tell_fault(alloc: Global, stream: &Stream, numbers: &[u64]) {
    let Ok(mut outbox) = Outbox::new(alloc) else {
        return say(stream, NO_MEMORY);
    };
    let mut sink = SocketSink::new(stream);
    put_error_line(&mut outbox, &mut sink, numbers);
    outbox.flush(&mut sink);
}

// Answers that there is a copy of that name, or why not.
fn tell_copied(alloc: Global, stream: &Stream, name: &str, copied: Result<(), CopyRefusal>) {
    let Ok(mut outbox) = Outbox::new(alloc) else {
        return say(stream, NO_MEMORY);
    };
    let mut sink = SocketSink::new(stream);
    match copied {
        Ok(()) => {
            outbox.put(&mut sink, COPIED.as_bytes());
            outbox.put(&mut sink, name.as_bytes());
            outbox.put(&mut sink, COPIED_END.as_bytes());
        }
        Err(refusal) => put_error_line(&mut outbox, &mut sink, refusal.numbers().as_slice()),
    }
    outbox.flush(&mut sink);
}

// Answers which volume is live, or why there is no new one.
fn tell_turned(alloc: Global, stream: &Stream, turned: Result<u64, VolumeRefusal>) {
    let Ok(mut outbox) = Outbox::new(alloc) else {
        return say(stream, NO_MEMORY);
    };
    let mut sink = SocketSink::new(stream);
    match turned {
        Ok(number) => {
            outbox.put(&mut sink, TURNED.as_bytes());
            put_number(&mut outbox, &mut sink, number);
            outbox.put(&mut sink, TURNED_END.as_bytes());
        }
        Err(refusal) => put_error_line(&mut outbox, &mut sink, refusal.numbers().as_slice()),
    }
    outbox.flush(&mut sink);
}

// Answers a line by which an operator rules: to register or replace procedures, to append nodes, or to seal. It is heeded also where the
// server is frozen. False if what was done isn't stored, and won't be.
fn obey<R: Threads + Wait + Sync, T: Reporter>(
    rt: &R,
    alloc: Global,
    stream: &Stream,
    line: &[u8],
    reporter: &T,
) -> bool {
    match read_request(alloc, line) {
        Ok(LineRequest::Close) => say(stream, NO_REQUEST),
        Ok(request) => {
            if is_barred(true, &request) {
                return reporter.obey(rt, alloc, &request, stream);
            }
            say(stream, NO_REQUEST);
        }
        Err(fault) => tell_fault(alloc, stream, fault.numbers().as_slice()),
    }
    true
}

/// A local port or a Unix socket on which a server is asked to stop, how far it is, and for what an operator alone may ask.
#[derive(Drop)]
pub struct Control<'a> {
    entrance: Entrance<'a>,
}

impl<'a> Control<'a> {
    /// Listens at this address. The file of a socket gets the permissions `mode`, nine bits. 33 if the port or the socket can't be
    /// opened, as for the server's own.
    pub fn bind<R: Files + Net<Listener = TcpListener, Stream = TcpStream>>(
        rt: &R,
        address: Address<'a>,
        mode: u32,
    ) -> Result<Control<'a>, ListenFault>
        ensures { IfErr result (λ e. e ≡ NoPort) }
    {
        let entrance = Entrance::open(rt, address, mode)?;
        // If this waited for a peer, it wouldn't see that all connections have ended.
        if entrance.listener.set_nonblocking().is_err() {
            entrance.close(rt);
            return Err(ListenFault::NoPort);
        }
        Ok(Control { entrance })
    }

    /// Where it listens, with the port that the system chose where 0 was asked for.
    pub fn address(&self) -> Address<'a>
        ensures { result ≡ self.now.entrance.address }
    {
        self.entrance.address
    }

    /// Listens no more, and removes the socket's file.
    pub fn close(self, rt: &impl Files) {
        let Control { entrance } = self;
        entrance.close(rt);
    }

    // Answers the next peer, if there is one. Whether the server has to stop: it was asked to, or what was done isn't stored.
    fn is_asked<R: Threads + Wait + Clock + Sync, T: Reporter>(
        &self,
        rt: &R,
        alloc: Global,
        hall: &Hall,
        reporter: &T,
    ) -> bool {
        let Ok(stream) = self.entrance.listener.accept() else {
            return false;
        };
        let Ok(wish) = wish_of(rt, alloc, &stream) else {
            say(&stream, NO_MEMORY);
            return false;
        };
        match wish {
            Wish::Stop => {
                say(&stream, STOPPING);
                return true;
            }
            Wish::Status => match reporter.status(rt, hall.connections(rt), hall.places()) {
                Some(status) => tell(alloc, &stream, &status),
                None => say(&stream, NO_REQUEST),
            },
            Wish::Request(line) => return !obey(rt, alloc, &stream, &line, reporter),
            Wish::Volume => tell_turned(alloc, &stream, reporter.turn(rt, alloc)),
            Wish::Copy(name) => {
                // A name that isn't UTF-8 is none that a copy has.
                let name = str::from_utf8(&name).unwrap_or("");
                tell_copied(alloc, &stream, name, reporter.copy(rt, alloc, name));
            }
            Wish::Other => say(&stream, NO_REQUEST),
        }
        false
    }

    /// Answers its peers until all connections of the server with that listener have ended. A request to stop stops the server. One
    /// for its status, for a copy, or by which an operator rules is answered by what the reporter says or does, and with an error if it says or
    /// does nothing.
    pub(crate) fn watch<R, T: Reporter>(
        &self,
        rt: &R,
        alloc: Global,
        hall: &Hall,
        server: &Listener,
        reporter: &T,
    )
    where
        R: Net<Listener = TcpListener, Stream = TcpStream> + Threads + Wait + Clock + Sync,
    {
        for _ in rt.forever() {
            if self.is_asked(rt, alloc, hall, reporter) {
                hall.stop(rt);
                reporter.end_waits(rt);
            }
            match hall.phase_soon(rt, Duration::from_millis(PAUSE)) {
                Phase::Over => return,
                Phase::Stopping => server.wake(rt),
                Phase::Serving | Phase::Draining => {}
            }
        }
        unreachable!()
    }
}
