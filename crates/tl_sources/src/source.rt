// From the bytes of a file to procedures.

ghost use Rattle.std.specs.Prelude.{◌≡◌, ℕ, List, Option, false, option_map, map, All, IfOk, IfErr};
ghost use Rattle.tl_instr.specs.Codes.{IsCode};
ghost use Rattle.tl_compiler.specs.Compiled.{Compiles};
ghost use Rattle.tl_sources.specs.Faults.{is_memory};
ghost use Rattle.tl_sources.specs.Sources.{made, ProvidesAll, IsProcedureOf, IsProgramFault, IsSourceFault};
ghost use Rattle.tl_sources.specs.declared.source.Source.TheVariants.{Language, Assembler, Container};

use crate::fault::SourceFault;
use std::alloc::{AllocError, Global};
use tl_asm::assemble;
use tl_compiler::{CompileFault, Compiled, compile, one_of};
use tl_instr::{Code, decode};
use tl_meaning::laws;
use tl_procedures::NamedProcedure;
use tl_verify::{Proc, verify};

/// The bytes of a file of procedures, and how they are read.
#[derive(Clone, Copy, Debug)]
pub enum Source<'a> {
    /// A text of the procedure language.
    Language(&'a [u8]),
    /// The assembler text of one procedure.
    Assembler(&'a [u8]),
    /// The container of one procedure.
    Container(&'a [u8]),
}

// Each procedure has a code, by its type.
fn lemma_have_codes(procedures: &[Compiled])
    ensures { All (λ c. IsCode c.procedure) procedures.now }
{
    for compiled in procedures {
        let _fact = compiled.procedure.code();
    }
}

// The procedures of a text of the language.
fn compiled_of(alloc: Global, text: &[u8]) -> Result<Vec<Compiled>, SourceFault>
    ensures compiled { IfOk result (λ compiled. Compiles text.now compiled.items) }
    ensures codes { IfOk result (λ compiled. All (λ c. IsCode c.procedure) compiled.items) }
    ensures fault { IfErr result (IsProgramFault text.now) }
{
    match compile(alloc, text) {
        Ok(compiled) => {
            lemma_have_codes(&compiled);
            Ok(compiled)
        }
        Err(fault) => Err(SourceFault::Compile(fault)),
    }
}

// The procedure of that name of a text of the language, or the only one.
fn procedure_of_language(
    alloc: Global,
    text: &[u8],
    name: Option<&str>,
) -> Result<Proc, SourceFault>
    ensures ok { IfOk result (IsProcedureOf (Language text.entry) (option_map (λ n. n.now) name.entry)) }
    ensures fault { IfErr result (λ e. is_memory e ≡ false → IsSourceFault (Language text.entry) (option_map (λ n. n.now) name.entry) e) }
{
    let compiled = compiled_of(alloc, text)?;
    let Compiled { name: _, procedure } = match one_of(compiled, name) {
        Ok(one) => one,
        Err(fault) => return Err(SourceFault::Compile(fault)),
    };
    laws::procedures(&procedure);
    Ok(procedure)
}

// The procedure of an assembler text.
fn procedure_of_assembler(alloc: Global, text: &[u8]) -> Result<Proc, SourceFault>
    ensures ok { (name : Option (List ℕ)) → IfOk result (IsProcedureOf (Assembler text.entry) name) }
    ensures fault { (name : Option (List ℕ)) → IfErr result (λ e. is_memory e ≡ false → IsSourceFault (Assembler text.entry) name e) }
{
    let Ok(words) = std::str::from_utf8(text) else {
        return Err(SourceFault::NotUtf8);
    };
    let code = match assemble(alloc, words) {
        Ok(code) => code,
        Err(fault) => return Err(SourceFault::Asm(fault)),
    };
    match verify(alloc, code) {
        Ok(procedure) => Ok(procedure),
        Err((_, fault)) => Err(SourceFault::Verify(fault)),
    }
}

// The procedure of a container.
fn procedure_of_container(alloc: Global, bytes: &[u8]) -> Result<Proc, SourceFault>
    ensures ok { (name : Option (List ℕ)) → IfOk result (IsProcedureOf (Container bytes.entry) name) }
    ensures fault { (name : Option (List ℕ)) → IfErr result (λ e. is_memory e ≡ false → IsSourceFault (Container bytes.entry) name e) }
{
    let code = match decode(alloc, bytes) {
        Ok(code) => code,
        Err(fault) => return Err(SourceFault::Code(fault)),
    };
    match verify(alloc, code) {
        Ok(procedure) => Ok(procedure),
        Err((_, fault)) => Err(SourceFault::Verify(fault)),
    }
}

/// The one procedure that a file stands for, accepted by the verifier. Of a text of the language it is the procedure of that name, or
/// without a name the only one; an assembler text and a container have one, whatever its name.
///
/// Otherwise the first fault. Of a text of the language: 255; 270 to 293 and 299; 294 to 297, procedure by procedure; 289 if there
/// is no such procedure. Of an assembler text: 255; 251 to 254. Of a container: 201 to 206. Of the code of either: 301 to 307 and
/// 401 to 409. 290 or 490 if memory was refused.
pub fn procedure_of(
    alloc: Global,
    source: Source<'_>,
    name: Option<&str>,
) -> Result<Proc, SourceFault>
    ensures ok { IfOk result (IsProcedureOf source.entry (option_map (λ n. n.now) name.entry)) }
    ensures fault { IfErr result (λ e. is_memory e ≡ false → IsSourceFault source.entry (option_map (λ n. n.now) name.entry) e) }
{
    match source {
        Source::Language(text) => procedure_of_language(alloc, text, name),
        Source::Assembler(text) => procedure_of_assembler(alloc, text),
        Source::Container(bytes) => procedure_of_container(alloc, bytes),
    }
}

// The procedures with their names.
fn all_named(alloc: Global, compiled: Vec<Compiled>) -> Result<Vec<NamedProcedure>, AllocError>
    ensures { IfOk result (λ found. found.items ≡ map made compiled.items) }
{
    let mut found = Vec::new(alloc);
    for one in compiled {
        let Compiled { name, procedure } = one;
        found.push(NamedProcedure::new(name, procedure))?;
    }
    Ok(found)
}

/// All procedures of a text of the language, in order, each accepted by the verifier.
///
/// Otherwise the first fault: 255; 270 to 293 and 299; 294 to 297, procedure by procedure. 290 if memory was refused.
pub fn procedures_of(alloc: Global, text: &[u8]) -> Result<Vec<NamedProcedure>, SourceFault>
    ensures ok { IfOk result (λ found. ProvidesAll text.now found.items) }
    ensures fault { IfErr result (λ e. is_memory e ≡ false → IsProgramFault text.now e) }
{
    let compiled = compiled_of(alloc, text)?;
    match all_named(alloc, compiled) {
        Ok(found) => Ok(found),
        Err(_) => Err(SourceFault::Compile(CompileFault::Memory)),
    }
}
