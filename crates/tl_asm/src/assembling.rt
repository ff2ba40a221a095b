//! From a text to its code.

ghost use Rattle.std.specs.Prelude.{◌≡◌, ◌≢◌, ◌↔◌, ◌∷◌, ℕ, List, Some, map, IfOk, IfErr, MatchResult};
ghost use Rattle.tl_instr.specs.Codes.{CodeValue, IsCode};
ghost use Rattle.tl_asm.specs.Words.{Word, lines_of};
ghost use Rattle.tl_asm.specs.Statements.{DraftValue, draft_in};
ghost use Rattle.tl_asm.specs.Lines.{IsLineOf};
ghost use Rattle.tl_asm.specs.Texts.{Written, lines_of_instrs};
ghost use Rattle.tl_asm.specs.Faults.{IsFirstFault};
ghost use Rattle.tl_asm.specs.Listing.{listing};

use crate::fault::AsmFault;
use crate::resolving::resolved;
use crate::sketch::{Origin, sketch_of};
use std::alloc::{AllocError, Global};
use tl_instr::{Code, CodeFault};

fn lines_of(alloc: Global, text: &str) -> Result<Vec<&str>, AsmFault>
    ensures lines { IfOk result (λ v. map (λ line. line.now) v.items ≡ lines_of text.now) }
    ensures memory { IfErr result (λ f. f ≡ AsmFault.Memory) }
{
    Ok(text.split('\n').collect(alloc)?)
}

/// The code of the text, or the text's first fault.
fn code_of(alloc: Global, text: &str) -> Result<Code, AsmFault>
    ensures found { IfOk result (λ code. Written text.now code) }
    ensures fault { IfErr result (λ f. f ≢ AsmFault.Memory → IsFirstFault text.now f) }
{
    let lines = lines_of(alloc, text)?;
    let sketch = sketch_of(alloc, &lines)?;
    let Some(arity) = sketch.arity else {
        return Err(AsmFault::BadLine(lines.len() as u64));
    };
    if sketch.instrs.is_empty() {
        return Err(AsmFault::BadLine(lines.len() as u64));
    }
    let instrs = resolved(alloc, &sketch.instrs, &sketch.origins, &sketch.labels)?;
    match Code::of_version(alloc, sketch.version, arity, instrs) {
        Ok(code) => Ok(code),
        Err(fault) => match fault {
            CodeFault::Memory => Err(AsmFault::Memory),
            // The lines together make a valid code, so no other fault can occur.
            _ => unreachable!(),
        },
    }
}

/// The code that the text stands for.
///
/// The error is the first of these faults. Line by line: 251 at a line that has none of the text's forms or isn't allowed
/// there, such as an instruction of the second version in a text that doesn't begin with `version 2`; 253 at a label that
/// an earlier line defines; 254 at the 1,025th instruction. Then 251, with the number of lines, if no line has the arity or
/// no line has an instruction. Then 252 at the first line whose label no line defines. 290 if memory is refused.
pub fn assemble(alloc: Global, text: &str) -> Result<Code, AsmFault>
    // The code that is read is that of the text.
    ensures found { IfOk result (λ code. Written text.now code) }
    // If the text has a code, it is read, unless memory is refused.
    ensures only { (c : CodeValue) → Written text.now c → MatchResult result
        (λ code. code ≡ c)
        (λ f. f ≡ AsmFault.Memory) }
    // Which fault it is.
    ensures fault { IfErr result (λ f. f ≢ AsmFault.Memory → IsFirstFault text.now f) }
{
    code_of(alloc, text)
}

// The number of each instruction's line.
fn lines_in(alloc: Global, origins: &[Origin<'_>]) -> Result<Vec<u64>, AllocError>
    ensures { IfOk result (λ v. v.items ≡ map (λ origin. origin.line) origins.now) }
{
    let mut lines = Vec::with_capacity(alloc, origins.len())?;
    for index in 0..origins.len() {
        lines.push(origins[index].line)?;
    }
    Ok(lines)
}

/// For each instruction of a text, the number of its line, counted from 1. With it, a position in a fault of the code can
/// be reported as a line of the text.
///
/// 251, 253 and 254 line by line, as from `assemble`. 290 if memory is refused.
pub fn instruction_lines(alloc: Global, text: &str) -> Result<Vec<u64>, AsmFault>
    ensures lines { IfOk result (λ v. v.items ≡ lines_of_instrs text.now) }
    ensures fault { IfErr result (λ f. f ≢ AsmFault.Memory → IsFirstFault text.now f) }
{
    let lines = lines_of(alloc, text)?;
    let sketch = sketch_of(alloc, &lines)?;
    Ok(lines_in(alloc, &sketch.origins)?)
}

/// The laws of texts: the canonical text of a code stands for that code, and no text stands for two codes. A text has a
/// first fault only if it stands for no code, and never more than one. So a disassembled code is assembled to the same
/// code.
pub fn one_reading()
    ensures canonical { (c : CodeValue) → IsCode c → Written (listing c) c }
    ensures one_code { (text : List ℕ) (c d : CodeValue) → Written text c → Written text d → c ≡ d }
    ensures faultless { (text : List ℕ) (c : CodeValue) (f : AsmFault) → Written text c → ¬ IsFirstFault text f }
    ensures one_fault { (text : List ℕ) (f g : AsmFault) → IsFirstFault text f → IsFirstFault text g → f ≡ g }
{}

/// The law of lines: a name and the words after it are read as an instruction if and only if they are its words.
pub fn one_line()
    ensures { (name : Word) (words : List Word) (d : DraftValue) → (draft_in name words ≡ Some d) ↔ IsLineOf d (name ∷ words) }
{}
