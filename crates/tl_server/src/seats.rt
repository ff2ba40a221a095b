// The sessions of the engine that answers lines now.

ghost use Rattle.std.specs.Prelude.{◌≡◌, []};

use std::alloc::Global;
use std::sync::Wait;
use tl_workers::{Engine, Refusal, Session};

/// The sessions of an engine, each in a seat of its own. A session is away from its seat while a line of its connection is at work.
#[derive(Drop)]
pub(crate) struct Seats {
    sessions: Vec<Option<Session>>,
    // Empty, with room for all of them. So they can be gathered when there is no memory left.
    room: Vec<Session>,
}

impl Seats {
    /// No seats.
    pub(crate) fn new(alloc: Global) -> Seats {
        Seats {
            sessions: Vec::new(alloc),
            room: Vec::new(alloc),
        }
    }

    /// The session in that seat, or a new one in a new seat. 821; 990 if memory is refused.
    pub(crate) fn take(
        &mut self,
        rt: &impl Wait,
        alloc: Global,
        engine: &Engine,
        seat: Option<usize>,
    ) -> Result<(usize, Session), Refusal> {
        if let Some(seat) = seat {
            if let Some(session) = self.taken(seat) {
                return Ok((seat, session));
            }
        }
        self.sessions.reserve(1)?;
        self.room.reserve(self.sessions.len().saturating_add(1))?;
        let session = engine.session(rt, alloc)?;
        let seat = self.sessions.len();
        self.sessions.push_reserved(None);
        Ok((seat, session))
    }

    // The session in that seat, if there is one.
    fn taken(&mut self, seat: usize) -> Option<Session> {
        self.sessions.get_mut(seat)?.take()
    }

    /// Puts a session back into its seat.
    pub(crate) fn put(&mut self, seat: usize, session: Session) {
        if let Some(place) = self.sessions.get_mut(seat) {
            *place = Some(session);
        }
    }

    /// Whether no session is away.
    pub(crate) fn are_taken(&self) -> bool {
        self.sessions.iter().all(|session| session.is_some())
    }

    /// All sessions that aren't away. Takes no memory.
    pub(crate) fn into_sessions(self) -> Vec<Session> {
        let Seats { sessions, room } = self;
        let mut gathered = room;
        for session in sessions {
            if let Some(session) = session {
                // There is room for all of them.
                let _ = gathered.push(session);
            }
        }
        gathered
    }
}
