// Places in a text.

use std::fmt;

/// A place in a text: its line and its column, counted from 1.
#[derive(Clone, Copy, Debug, PartialEq, Eq)]
pub struct Position {
    pub line: u64,
    pub column: u64,
}

impl fmt::Display for Position {
    fn fmt<W: fmt::Write>(&self, f: &mut fmt::Formatter<W>) -> fmt::Result {
        let line = self.line;
        let column = self.column;
        write!(f, "line {line}, column {column}")
    }
}

impl Position {
    /// The position of the byte at `offset`. A tab is one column.
    pub fn of(text: &[u8], offset: usize) -> Position {
        let (before, _) = text.split_at(offset.min(text.len()));
        let line = before.iter().filter(|byte| **byte == b'\n').count();
        let column = before
            .iter()
            .rev()
            .position(|byte| *byte == b'\n')
            .unwrap_or(before.len());
        Position {
            line: line as u64 + 1,
            column: column as u64 + 1,
        }
    }
}
