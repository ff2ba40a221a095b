// The command `check --watch`: a file is checked again whenever it changes.

use crate::failure::Failure;
use crate::program::Program;
use crate::{CliFault, output};
use std::rt::Files;
use std::sync::Wait;
use std::time::{Clock, Duration, SystemTime};
use std::{fs, io, thread};

/// How many milliseconds lie between two looks at the file.
const PAUSE: u64 = 250;

impl<'a, R: Files + Print + Eprint + AllocGlobal + Clock + Wait> Program<'a, R> {
    /// Checks the file now and whenever it has changed, and prints each time what `check` does. It ends only where that can't be printed:
    /// otherwise a signal ends the program.
    pub(crate) fn watch<'p>(&self, path: &'p str) -> Result<String, Failure<'p>> {
        let mut last = None;
        for _ in self.rt.forever() {
            // What changes from here on is seen at the next look.
            let state = self.state_of(path);
            if last != Some(state) {
                last = Some(state);
                if self.check_watched(path).is_err() {
                    return Err(Failure::Refused(CliFault::Unwritable));
                }
            }
            thread::sleep(self.rt, Duration::from_millis(PAUSE));
        }
        unreachable!()
    }
}

impl<'a, R: Files + Print + Eprint + AllocGlobal> Program<'a, R> {
    // When the file was written last, and how long it is. `None` if it can't be looked at.
    fn state_of(&self, path: &str) -> Option<(SystemTime, u64)> {
        let metadata = fs::metadata(self.rt, path).ok()?;
        Some((metadata.modified().ok()?, metadata.len()))
    }

    // Standard error says where the check begins and ends.
    fn check_watched(&self, path: &str) -> io::Result<()> {
        let _shown = eprintln!(self.rt; "treedb: checking {path}");
        let printed = match self.check(path) {
            Ok(line) => self.rt.print(line.as_str()),
            Err(failure) => output::print_failure(self.rt, &failure),
        };
        let _shown = eprintln!(self.rt; "treedb: checked {path}");
        printed
    }
}
