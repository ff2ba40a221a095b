// Failures, printed.

use crate::failure::{Failure, Fault};
use serde_json::Value;
use std::alloc::Global;
use std::io;
use tl_asm::{AsmFault, instruction_lines};
use tl_commands::CliFault;
use tl_compiler::CompileFault;
use tl_language_commands::LanguageFault;
use tl_sources::SourceFault;
use tl_syntax::Position;
use tl_trail::TrailFault;
use tl_tree::TreeFault;

/// The longest line that is quoted.
const MAX_QUOTED: usize = 400;

// Prints a fault's numbers, `{"error":[..]}`.
fn print_numbers<R: Print>(rt: &R, numbers: &[u64]) -> io::Result<()> {
    rt.print("{\"error\":[")?;
    let mut is_first = true;
    for number in numbers {
        if !is_first {
            rt.print(",")?;
        }
        is_first = false;
        print!(rt; "{number}")?;
    }
    rt.println("]}")
}

/// Prints a failure: its numbers on standard output, `{"error":[..]}`, and its message for people on standard error.
pub fn print_failure<R: Print + Eprint>(rt: &R, failure: &Failure<'_>) -> io::Result<()> {
    let _shown = eprintln!(rt; "treedb: {failure}");
    if let Failure::Unheeded { answer } = failure {
        return rt.print(answer.as_str());
    }
    match failure.fault() {
        Fault::Command(fault) => print_numbers(rt, fault.numbers().as_slice()),
        Fault::Text(fault) => print_numbers(rt, fault.numbers().as_slice()),
        Fault::Store(refusal) => print_numbers(rt, refusal.numbers().as_slice()),
        Fault::Record(fault) => print_numbers(rt, fault.numbers().as_slice()),
        Fault::Copy(refusal) => print_numbers(rt, refusal.numbers().as_slice()),
        Fault::Volume(refusal) => print_numbers(rt, refusal.numbers().as_slice()),
        Fault::Seam { volume } => print_numbers(rt, &[1020, volume]),
        Fault::Epoch { epoch } => print_numbers(rt, &[1023, epoch]),
        Fault::Answered => Ok(()),
    }
}

/// The exit status after printing: `status`, or 3 if standard output can't be written. Standard error says so then.
pub fn status_after<R: Eprint>(rt: &R, printed: io::Result<()>, status: u8) -> u8 {
    match printed {
        Ok(()) => status,
        Err(reason) => {
            let _shown = eprintln!(rt; "treedb: standard output can't be written: {reason}");
            CliFault::Unwritable.status()
        }
    }
}

/// A place in a text: a line, and a column if it is known, both counted from 1.
#[derive(Clone, Copy)]
pub struct Place {
    pub line: u64,
    pub column: Option<u64>,
}

// The line of the instruction at a position of an assembler text.
fn line_of_position(alloc: Global, text: &str, position: u64) -> Option<u64> {
    let lines = instruction_lines(alloc, text).ok()?;
    lines.get(usize::try_from(position).ok()?).copied()
}

// Where a text stops being JSON, if it isn't JSON.
fn place_in_json(alloc: Global, text: &str) -> Option<Place> {
    match Value::from_str(alloc, text) {
        Err(error) if !error.is_memory() => Some(Place {
            line: error.line() as u64,
            column: Some(error.column() as u64),
        }),
        _ => None,
    }
}

// The line of an assembler text's fault, if the fault is in one line.
fn place_in_assembler(fault: &AsmFault) -> Option<Place> {
    match fault {
        AsmFault::BadLine(line) | AsmFault::NoLabel(line) | AsmFault::LabelTwice(line) => {
            Some(Place {
                line: *line,
                column: None,
            })
        }
        AsmFault::TooLong | AsmFault::Memory => None,
    }
}

/// The place at a position.
pub fn place_at(position: Position) -> Place {
    let Position { line, column } = position;
    Place {
        line,
        column: Some(column),
    }
}

// The place of the fault of a text of the procedure language, if the fault is at one place.
fn place_of_compiling(fault: &CompileFault) -> Option<Place> {
    Some(place_at(fault.position()?))
}

/// The place of a text's fault, if the fault is at one place. For a position in the code this is the line of that
/// instruction, and for a text that isn't JSON the place that shows it.
pub fn place_of(alloc: Global, text: &str, fault: &CliFault) -> Option<Place> {
    match fault {
        CliFault::Asm(fault) | CliFault::Source(SourceFault::Asm(fault)) => {
            place_in_assembler(fault)
        }
        CliFault::Source(SourceFault::Compile(fault)) => place_of_compiling(fault),
        CliFault::Verify(fault) | CliFault::Source(SourceFault::Verify(fault)) => {
            let position = *fault.numbers().as_slice().get(1)?;
            Some(Place {
                line: line_of_position(alloc, text, position)?,
                column: None,
            })
        }
        CliFault::Tree(TreeFault::NotTree)
        | CliFault::Trail(TrailFault::NotTrail)
        | CliFault::NotScript => place_in_json(alloc, text),
        _ => None,
    }
}

/// The place of the fault of a text of the procedure language, if the fault is at one place.
pub fn place_in_language(fault: &LanguageFault) -> Option<Place> {
    match fault {
        LanguageFault::Source(SourceFault::Compile(fault)) => place_of_compiling(fault),
        LanguageFault::Source(_) | LanguageFault::Code(_) | LanguageFault::Memory => None,
    }
}

// How many bytes of the line come before the place. If the column isn't known, these are the leading blanks.
fn bytes_before(line: &str, column: Option<u64>) -> usize {
    match column {
        Some(column) => usize::try_from(column)
            .unwrap_or(usize::MAX)
            .saturating_sub(1),
        None => line
            .bytes()
            .take_while(|byte| *byte == b' ' || *byte == b'\t')
            .count(),
    }
}

/// Shows a line of a text on standard error, under the file's name, with a caret under the place. What can't be
/// shown is left out.
pub fn point_at<R: Eprint>(rt: &R, path: &str, text: &str, place: Place) {
    let Place { line, column } = place;
    let Some(quoted) = text.split('\n').nth(
        usize::try_from(line)
            .unwrap_or(usize::MAX)
            .saturating_sub(1),
    )
    else {
        return;
    };
    let _shown = match column {
        Some(column) => eprintln!(rt; "{path}:{line}:{column}"),
        None => eprintln!(rt; "{path}:{line}"),
    };
    if quoted.len() > MAX_QUOTED {
        return;
    }
    let _shown = eprintln!(rt; "    {quoted}");
    let _shown = eprint!(rt; "    ");
    for byte in quoted.bytes().take(bytes_before(quoted, column)) {
        let _shown = eprint!(rt; "{}", if byte == b'\t' { '\t' } else { ' ' });
    }
    let _shown = eprintln!(rt; "^");
}
