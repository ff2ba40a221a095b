// The progress of an audit.

/// Receives reports of how far an audit is. What it does with them doesn't affect the result.
pub trait Progress {
    /// Called now and then, from the first event to the last: `events` of `all` events have been checked.
    fn seen(&mut self, events: usize, all: usize);
}

/// Reports nothing.
#[derive(Drop)]
pub struct Silent;

impl Progress for Silent {
    fn seen(&mut self, _events: usize, _all: usize) {}
}

/// How many events are checked between two reports.
pub const EVENTS_BETWEEN: usize = 65_536;
