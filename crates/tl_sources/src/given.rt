// The procedures that files give to whoever runs them.

ghost use Rattle.std.specs.Prelude.{◌≡◌, [], ◌∷◌, List, false, string_bytes, IfOk, IfErr};
ghost use Rattle.tl_sources.specs.Faults.{is_memory};
ghost use Rattle.tl_sources.specs.Given.{Gives, GiveAll, IsGivenFault, IsFirstRefusedFile};

use crate::fault::{RefusedFile, SourceFault};
use crate::source::{Source, procedure_of, procedures_of};
use std::alloc::{AllocError, Global};
use tl_compiler::CompileFault;
use tl_procedures::NamedProcedure;
use tl_verify::Proc;

/// What a file gives: all procedures of a text of the procedure language, or one procedure under a name.
#[derive(Clone, Copy, Debug)]
pub enum Given<'a> {
    /// All procedures of a text of the procedure language.
    Program(&'a [u8]),
    /// One procedure under this name: of a text of the procedure language the one of that name, otherwise the file's only one.
    Single(&'a str, Source<'a>),
}

// One procedure under a name.
fn one_named(alloc: Global, name: &str, procedure: Proc) -> Result<Vec<NamedProcedure>, AllocError>
    ensures { IfOk result (λ found. found.items ≡ record { name = name.now; code = procedure } ∷ []) }
{
    let name = String::from_str(alloc, name)?;
    let mut found = Vec::with_capacity(alloc, 1)?;
    found.push_reserved(NamedProcedure::new(name, procedure));
    Ok(found)
}

// The procedures that a file gives, each accepted by the verifier. Otherwise its first fault, as from `procedures_of` and `procedure_of`.
fn given_by(alloc: Global, given: &Given<'_>) -> Result<Vec<NamedProcedure>, SourceFault>
    ensures ok { IfOk result (λ found. Gives given.now found.items) }
    ensures fault { IfErr result (λ e. is_memory e ≡ false → IsGivenFault given.now e) }
{
    match *given {
        Given::Program(text) => procedures_of(alloc, text),
        Given::Single(name, source) => {
            let procedure = procedure_of(alloc, source, Some(name))?;
            match one_named(alloc, name, procedure) {
                Ok(found) => Ok(found),
                Err(_) => Err(SourceFault::Compile(CompileFault::Memory)),
            }
        }
    }
}

/// The procedures that these files give, file by file, each accepted by the verifier. Otherwise the number of the first file that is
/// refused, counted from 0, and its first fault, as from `procedures_of` and `procedure_of`. 290 or 490 if memory was refused.
pub fn all_given(alloc: Global, files: &[Given<'_>]) -> Result<Vec<NamedProcedure>, RefusedFile>
    ensures ok { IfOk result (λ found. GiveAll files.now found.items) }
    ensures fault { IfErr result (λ e. is_memory e.fault ≡ false → IsFirstRefusedFile files.now e) }
{
    let mut all = Vec::new(alloc);
    for (number, file) in files.iter().enumerate() {
        match given_by(alloc, file) {
            Ok(mut found) => {
                let Ok(()) = all.append(&mut found) else {
                    let fault = SourceFault::Compile(CompileFault::Memory);
                    return Err(RefusedFile { number, fault });
                };
            }
            Err(fault) => return Err(RefusedFile { number, fault }),
        }
    }
    Ok(all)
}
