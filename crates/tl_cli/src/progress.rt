// How far an audit is, on a terminal.

use tl_audit::Progress;

/// Shows on standard error how far an audit is, if that is a terminal. If the first report is also the last, nothing is
/// shown.
#[derive(Drop)]
pub struct Shown<'a, R> {
    rt: &'a R,
    is_terminal: bool,
    has_shown: bool,
}

impl<'a, R: Eprint> Shown<'a, R> {
    pub fn new(rt: &'a R, is_terminal: bool) -> Shown<'a, R> {
        Shown {
            rt,
            is_terminal,
            has_shown: false,
        }
    }

    // Each line is written over the one before.
    fn show(&mut self, done: usize, all: usize) {
        if self.is_terminal && done > 0 {
            let _shown = eprint!(self.rt; "\r{done} of {all} events   ");
            self.has_shown = true;
        }
    }

    /// Ends the line, if one was shown.
    pub fn end(&self) {
        if self.has_shown {
            let _shown = eprintln!(self.rt; "");
        }
    }
}

impl<R: Eprint> Progress for Shown<'_, R> {
    fn seen(&mut self, events: usize, all: usize) {
        self.show(events, all);
    }
}
