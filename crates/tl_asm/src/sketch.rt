//! The lines of a text, before targets are known.

ghost use Rattle.std.specs.Prelude.{◌≡◌, ◌≢◌, ◌+◌, ◌≤◌, ◌++◌, ◌∷◌, [], List, Option, Some, length, IfOk, IfErr};
ghost use Rattle.tl_instr.specs.declared.version.Version.TheVariants.{Two};
ghost use Rattle.tl_instr.specs.Codes.{IsArity};
ghost use Rattle.tl_instr.specs.Instructions.{IsInstr};
ghost use Rattle.tl_asm.specs.Faults.{IsFirstFaultIn};
ghost use Rattle.tl_asm.specs.Statements.{Said, Version2, Takes, Names, Does, view};
ghost use Rattle.tl_asm.specs.Sketches.{IsSketch, IsWrongLast, said_by};

use crate::draft::Draft;
use crate::fault::AsmFault;
use crate::statement::{Statement, statement_of};
use indexmap::IndexMap;
use std::alloc::Global;
use tl_instr::{Instr, MAX_COUNT, Version};

/// The line of an instruction, and the label that stands for its target.
#[derive(Clone, Copy, Debug)]
pub struct Origin<'a> {
    pub line: u64,
    pub label: Option<&'a [u8]>,
}

/// What a text's lines say: the version, the arity if a line gives it, the positions that labels name, and the instructions
/// with 0 as their targets, each with its origin.
#[derive(Drop)]
pub struct Sketch<'a> {
    pub version: Version,
    pub arity: Option<u8>,
    pub labels: IndexMap<&'a [u8], u16>,
    pub instrs: Vec<Instr>,
    pub origins: Vec<Origin<'a>>,
}

impl<'a> Sketch<'a> {
    /// A sketch of no lines.
    fn new(alloc: Global) -> Sketch<'a>
        ensures { IsSketch [] result }
    {
        Sketch {
            version: Version::One,
            arity: None,
            labels: IndexMap::new(alloc),
            instrs: Vec::new(alloc),
            origins: Vec::new(alloc),
        }
    }

    /// The next line says that the text is of the second version.
    fn take_version(&mut self, line: u64) -> Result<(), AsmFault>
        ensures grown { (ss : List (Option Said)) → IsSketch ss self.old → IfOk result (λ _. IsSketch (ss ++ Some Version2 ∷ []) self.new) }
        ensures fault { (ss : List (Option Said)) → IsSketch ss self.old → line ≡ length ss + 1 → IfErr result (λ f. f ≢ AsmFault.Memory → IsWrongLast (ss ++ Some Version2 ∷ []) f) }
    {
        if self.arity.is_some() {
            return Err(AsmFault::BadLine(line));
        }
        if self.version != Version::One {
            return Err(AsmFault::BadLine(line));
        }
        self.version = Version::Two;
        Ok(())
    }

    /// The next line has the arity.
    fn take_arity(&mut self, line: u64, arity: u8) -> Result<(), AsmFault>
        requires { IsArity arity }
        ensures grown { (ss : List (Option Said)) → IsSketch ss self.old → IfOk result (λ _. IsSketch (ss ++ Some (Takes arity) ∷ []) self.new) }
        ensures fault { (ss : List (Option Said)) → IsSketch ss self.old → line ≡ length ss + 1 → IfErr result (λ f. f ≢ AsmFault.Memory → IsWrongLast (ss ++ Some (Takes arity) ∷ []) f) }
    {
        if self.arity.is_some() {
            return Err(AsmFault::BadLine(line));
        }
        self.arity = Some(arity);
        Ok(())
    }

    /// The next line has a label.
    fn take_label(&mut self, line: u64, label: &'a [u8]) -> Result<(), AsmFault>
        requires { length self.now.instrs.items ≤ MAX_COUNT }
        ensures grown { (ss : List (Option Said)) → IsSketch ss self.old → IfOk result (λ _. IsSketch (ss ++ Some (Names label.entry.now) ∷ []) self.new) }
        ensures fault { (ss : List (Option Said)) → IsSketch ss self.old → line ≡ length ss + 1 → IfErr result (λ f. f ≢ AsmFault.Memory → IsWrongLast (ss ++ Some (Names label.entry.now) ∷ []) f) }
    {
        if self.arity.is_none() {
            return Err(AsmFault::BadLine(line));
        }
        if self.labels.contains_key(&label) {
            return Err(AsmFault::LabelTwice(line));
        }
        self.labels.insert(label, self.instrs.len() as u16)?;
        Ok(())
    }

    /// The next line has an instruction.
    fn take_draft(&mut self, line: u64, draft: Draft<'a>) -> Result<(), AsmFault>
        requires { IsInstr Two 0 draft.instr }
        ensures grown { (ss : List (Option Said)) → IsSketch ss self.old → line ≡ length ss + 1 → IfOk result (λ _. IsSketch (ss ++ Some (Does (view draft.entry)) ∷ []) self.new) }
        ensures fault { (ss : List (Option Said)) → IsSketch ss self.old → line ≡ length ss + 1 → IfErr result (λ f. f ≢ AsmFault.Memory → IsWrongLast (ss ++ Some (Does (view draft.entry)) ∷ []) f) }
    {
        if self.arity.is_none() {
            return Err(AsmFault::BadLine(line));
        }
        let instr = draft.instr;
        if !instr.is_in(self.version) {
            return Err(AsmFault::BadLine(line));
        }
        if self.instrs.len() == MAX_COUNT {
            return Err(AsmFault::TooLong);
        }
        self.instrs.push(instr)?;
        self.origins.push(Origin {
            line,
            label: draft.label,
        })?;
        Ok(())
    }
}

/// What the lines say together, up to the first that isn't allowed at its place.
pub fn sketch_of<'a>(alloc: Global, lines: &[&'a str]) -> Result<Sketch<'a>, AsmFault>
    ensures found { IfOk result (λ s. IsSketch (said_by lines.now) s) }
    ensures fault { IfErr result (λ f. f ≢ AsmFault.Memory → IsFirstFaultIn (said_by lines.now) f) }
{
    let mut sketch = Sketch::new(alloc);
    for index in 0..lines.len() {
        let line = index as u64 + 1;
        let Some(statement) = statement_of(lines[index].as_bytes()) else {
            return Err(AsmFault::BadLine(line));
        };
        match statement {
            Statement::Blank => {}
            Statement::Version2 => sketch.take_version(line)?,
            Statement::Takes(arity) => sketch.take_arity(line, arity)?,
            Statement::Names(label) => sketch.take_label(line, label)?,
            Statement::Does(draft) => sketch.take_draft(line, draft)?,
        }
    }
    Ok(sketch)
}
