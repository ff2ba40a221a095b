// What the numbers of faults mean, for people.

use crate::{MISTAKE, output};
use std::io;
use tl_faults::{Meaning, meaning_of};

/// Prints what a fault's number means, and returns the exit status. A number that no fault has is a mistake on the command
/// line.
pub fn explain<R: Print + Eprint>(rt: &R, number: u16) -> u8 {
    let Some(meaning) = meaning_of(number) else {
        let _shown = eprintln!(rt; "treedb: no fault has the number {number}");
        return MISTAKE;
    };
    output::status_after(rt, print_meaning(rt, number, &meaning), 0)
}

fn print_meaning<R: Print>(rt: &R, number: u16, meaning: &Meaning) -> io::Result<()> {
    println!(rt; "[{number}{}]: {}", meaning.parts, meaning.name)?;
    println!(rt; "When: {}.", meaning.when)?;
    println!(rt; "What to do: {}.", meaning.advice)
}
