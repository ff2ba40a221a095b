// What the threads of connections share: how many are open, and whether more are accepted.

use crate::stream::Stream;
use std::alloc::{AllocError, Global};
use std::sync::atomic::{AtomicBool, Ordering};
use std::sync::{Condvar, Mutex, Wait};
use std::time::{Clock, Duration};
use tl_workers::Session;

/// How many connections of a server that ends after so many are open at once at most, if nothing else is asked for.
pub const MAX_CONNECTIONS: u16 = 8;

/// The same of a server without an end.
pub const LASTING_PLACES: u16 = 256;

/// How many may be asked for.
pub const MAX_PLACES: u16 = 1_024;

/// How far a server is.
#[derive(Clone, Copy, PartialEq, Eq, Debug)]
pub enum Phase {
    /// Connections are accepted.
    Serving,
    /// The server was asked to stop: no more connections are accepted, but the listener may still wait for one.
    Stopping,
    /// The listener no longer waits. Connections may be open.
    Draining,
    /// All connections have ended.
    Over,
}

// An open connection, by its number.
#[derive(Drop)]
struct Open {
    number: u64,
    stream: Stream,
}

#[derive(Drop)]
struct Served {
    phase: Phase,
    // How many connections are open.
    open: u16,
    // The connections whose reading a stop has to end, if the hall can be stopped.
    streams: Option<Vec<Open>>,
    // The sessions of the connections that have ended. There is room for one per connection.
    sessions: Vec<Session>,
}

impl Served {
    // Keeps the connection, so that a stop can end it, if there are stops. False if that can't be done.
    fn takes(&mut self, number: u64, stream: &Stream) -> bool {
        let Some(streams) = &mut self.streams else {
            return true;
        };
        match stream.try_clone() {
            Ok(stream) => streams.push(Open { number, stream }).is_ok(),
            Err(_) => false,
        }
    }

    // Lets go of a connection that has ended.
    fn let_go(&mut self, number: u64) {
        if let Some(streams) = &mut self.streams {
            streams.retain(|open| open.number != number);
        }
    }
}

/// What the threads of connections share.
#[derive(Drop)]
pub struct Hall {
    // How many connections are open at once at most.
    places: u16,
    served: Mutex<Served>,
    // Notified after each change.
    changed: Condvar,
    // Whether the connections are asked to end.
    is_ending: AtomicBool,
}

impl Hall {
    // The hall before the first connection.
    fn of(sessions: Vec<Session>, streams: Option<Vec<Open>>, places: u16) -> Hall {
        Hall {
            places,
            served: Mutex::new(Served {
                phase: Phase::Serving,
                open: 0,
                streams,
                sessions,
            }),
            changed: Condvar::new(),
            is_ending: AtomicBool::new(false),
        }
    }

    /// A hall for so many connections at once, which keeps sessions in this list.
    pub fn new(sessions: Vec<Session>, places: u16) -> Hall {
        Hall::of(sessions, None, places)
    }

    /// The same, but a stop can end its connections.
    pub fn that_stops(
        alloc: Global,
        sessions: Vec<Session>,
        places: u16,
    ) -> Result<Hall, AllocError> {
        let streams = Vec::with_capacity(alloc, usize::from(places))?;
        Ok(Hall::of(sessions, Some(streams), places))
    }

    /// Set once connections are asked to end.
    pub fn is_ending(&self) -> &AtomicBool {
        &self.is_ending
    }

    /// How many connections may be open at once.
    pub fn places(&self) -> u64 {
        u64::from(self.places)
    }

    /// Whether as many connections are open as may be, so that the next one waits.
    pub fn is_full(&self, rt: &impl Wait) -> bool {
        self.served.lock(rt).open >= self.places
    }

    /// Whether connections are accepted.
    pub fn is_serving(&self, rt: &impl Wait) -> bool {
        self.served.lock(rt).phase == Phase::Serving
    }

    /// Waits until one more connection may be open, and counts it. False if no more are accepted.
    pub fn take_place(&self, rt: &impl Wait) -> bool {
        let mut served = self.served.lock(rt);
        for _ in rt.forever() {
            if served.phase != Phase::Serving {
                return false;
            }
            if served.open < self.places {
                served.open += 1;
                return true;
            }
            served = self.changed.wait(rt, served);
        }
        unreachable!()
    }

    /// Whether the connection may be served. It isn't served after a stop, nor if a stop couldn't end it.
    pub fn lets_in(&self, rt: &impl Wait, number: u64, stream: &Stream) -> bool {
        let mut served = self.served.lock(rt);
        served.phase == Phase::Serving && served.takes(number, stream)
    }

    /// The same of a follower's connection, which takes no place: it is also served while the last connections of others are open.
    pub fn lets_follow(&self, rt: &impl Wait, number: u64, stream: &Stream) -> bool {
        let mut served = self.served.lock(rt);
        !self.is_ending.load(Ordering::SeqCst) && served.takes(number, stream)
    }

    /// Lets go of the connection of a follower that has ended.
    pub fn let_go(&self, rt: &impl Wait, number: u64) {
        self.served.lock(rt).let_go(number);
    }

    /// How many connections are open that a stop can end.
    pub fn connections(&self, rt: &impl Wait) -> u64 {
        let served = self.served.lock(rt);
        match &served.streams {
            Some(streams) => streams.len() as u64,
            None => 0,
        }
    }

    /// Gives back the place of a connection that has ended.
    pub fn give_place(&self, rt: &impl Wait, number: u64) {
        let mut served = self.served.lock(rt);
        served.open = served.open.saturating_sub(1);
        served.let_go(number);
        drop(served);
        self.changed.notify_all();
    }

    /// Keeps the session of a connection that has ended.
    pub fn keep(&self, rt: &impl Wait, session: Session) {
        let _ = self.served.lock(rt).sessions.push(session);
    }

    /// Accepts no more connections, and ends the reading of those that are open.
    pub fn stop(&self, rt: &impl Wait) {
        let mut served = self.served.lock(rt);
        if served.phase == Phase::Serving {
            served.phase = Phase::Stopping;
        }
        self.is_ending.store(true, Ordering::SeqCst);
        if let Some(streams) = &served.streams {
            for open in streams {
                // If it can't be shut down, its peer has ended it.
                let _ = open.stream.end_reading();
            }
        }
        drop(served);
        self.changed.notify_all();
    }

    /// Goes on to a later phase.
    pub fn enter(&self, rt: &impl Wait, phase: Phase) {
        self.served.lock(rt).phase = phase;
        self.changed.notify_all();
    }

    /// The phase, after the pause or after a change.
    pub fn phase_soon<R: Wait + Clock>(&self, rt: &R, pause: Duration) -> Phase {
        let served = self.served.lock(rt);
        if served.phase == Phase::Over {
            return Phase::Over;
        }
        let (served, _) = self.changed.wait_timeout(rt, served, pause);
        served.phase
    }

    /// The sessions of all connections.
    pub fn into_sessions(self) -> Vec<Session> {
        let Hall {
            places: _,
            served,
            changed: _,
            is_ending: _,
        } = self;
        let Served {
            phase: _,
            open: _,
            streams: _,
            sessions,
        } = served.into_inner();
        sessions
    }
}
