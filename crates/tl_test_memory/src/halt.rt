// The reasons to end early.

use std::io;

/// Why the program ends before its last line.
#[derive(Clone, Copy, Debug, PartialEq, Eq)]
pub enum Halt {
    /// A request was refused twice.
    Refused,
    /// A request changed something although memory was refused to it.
    Changed,
    /// Standard output can't be written.
    Unprinted,
}

impl Halt {
    /// The program's exit status.
    pub fn status(&self) -> u8 {
        match self {
            Halt::Changed => 1,
            Halt::Unprinted => 3,
            Halt::Refused => 4,
        }
    }
}

impl From<io::Error> for Halt {
    fn from(_error: io::Error) -> Halt {
        Halt::Unprinted
    }
}
