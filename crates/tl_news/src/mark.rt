// How far a table was read.

ghost use Rattle.std.specs.Prelude.{◌≡◌, length};
ghost use Rattle.tl_news.specs.News.{end_of, start_after};

use tl_core::Core;

/// How far an epoch was read: so many procedures, calls and events.
#[derive(Clone, Copy, Debug, PartialEq, Eq)]
pub struct Place {
    pub procedures: usize,
    pub calls: usize,
    pub events: usize,
}

/// How far a table was read: so many epochs to their ends, and the next one up to that place.
#[derive(Clone, Copy, Debug, PartialEq, Eq)]
pub struct Mark {
    pub epochs: usize,
    pub place: Place,
}

impl Mark {
    /// Before a table that begins with so many procedures.
    pub fn start(procedures: usize) -> Mark
        ensures { result ≡ record { epochs = 0; place = record { procedures = procedures; calls = 0; events = 0 } } }
    {
        Mark {
            epochs: 0,
            place: Place {
                procedures,
                calls: 0,
                events: 0,
            },
        }
    }
}

impl Place {
    /// Behind all of an epoch so far.
    pub fn end_of(core: &Core) -> Place
        ensures { result ≡ end_of core.now.seen }
    {
        Place {
            procedures: core.procs(),
            calls: core.calls(),
            events: core.history().len(),
        }
    }

    /// Before the epoch that comes after this one, which has the same procedures.
    pub fn start_after(core: &Core) -> Place
        ensures { result ≡ start_after core.now.seen }
    {
        Place {
            procedures: core.procs(),
            calls: 0,
            events: 0,
        }
    }
}
