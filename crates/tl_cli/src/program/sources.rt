// The procedures that the command line names.

use crate::CliFault;
use crate::failure::Failure;
use crate::program::Program;
use std::alloc::{AllocError, Global};
use std::rt::Files;
use tl_procedures::NamedProcedure;
use tl_sources::{Given, RefusedFile, Source, all_given};

/// The bytes of a file of procedures, read as the file's name says: `.tdb` is for texts of the procedure language, `.asm` for assembler texts,
/// and `.tlp` for containers. `None` for any other name.
pub fn source_by_name<'b>(path: &str, bytes: &'b [u8]) -> Option<Source<'b>> {
    if path.ends_with(".tdb") {
        Some(Source::Language(bytes))
    } else if path.ends_with(".asm") {
        Some(Source::Assembler(bytes))
    } else if path.ends_with(".tlp") {
        Some(Source::Container(bytes))
    } else {
        None
    }
}

// A file of procedures that was read, and the name of the procedure that is meant, or `None` if all are.
#[derive(Drop)]
pub(super) struct SourceFile<'a> {
    pub(super) path: &'a str,
    pub(super) bytes: Vec<u8>,
    name: Option<&'a str>,
}

impl SourceFile<'_> {
    // What the file gives. One whose name says nothing has an assembler text.
    fn given(&self) -> Given<'_> {
        let bytes = self.bytes.as_slice();
        match self.name {
            Some(name) => {
                let source = source_by_name(self.path, bytes);
                Given::Single(name, source.unwrap_or(Source::Assembler(bytes)))
            }
            None => Given::Program(bytes),
        }
    }
}

/// What these files give.
pub(super) fn all_of<'n>(
    alloc: Global,
    files: &'n [SourceFile<'_>],
) -> Result<Vec<Given<'n>>, AllocError> {
    let mut all = Vec::with_capacity(alloc, files.len())?;
    for file in files {
        all.push(file.given())?;
    }
    Ok(all)
}

impl<'a, R: Files + Print + Eprint + AllocGlobal> Program<'a, R> {
    // The file of one argument. `FILE` has a text of the procedure language, and names all its procedures. `NAME=FILE` names one: of a
    // text of the procedure language the one of that name, otherwise the file's only one.
    fn read_source<'p>(&self, named: &'p str) -> Result<SourceFile<'p>, Failure<'p>> {
        let (name, path) = match named.split_once('=') {
            Some((name, path)) => (Some(name), path),
            None => (None, named),
        };
        Ok(SourceFile {
            path,
            bytes: self.read_file(path)?,
            name,
        })
    }

    /// The files of these arguments, each `FILE` or `NAME=FILE`, in order. If one can't be read, the faults of those before it come first.
    pub(super) fn read_sources<'p>(
        &self,
        names: &[&'p str],
    ) -> Result<Vec<SourceFile<'p>>, Failure<'p>> {
        let mut files = Vec::new(self.rt.alloc());
        for named in names {
            match self.read_source(named) {
                Ok(file) => files.push(file)?,
                Err(failure) => {
                    self.procedures_in(&files)?;
                    return Err(failure);
                }
            }
        }
        Ok(files)
    }

    // The procedures that files give.
    fn procedures_in<'p>(
        &self,
        files: &[SourceFile<'p>],
    ) -> Result<Vec<NamedProcedure>, Failure<'p>> {
        let given = all_of(self.rt.alloc(), files)?;
        match all_given(self.rt.alloc(), &given) {
            Ok(procedures) => Ok(procedures),
            Err(refused) => Err(self.misread_source(files, refused)),
        }
    }

    /// Returns the fault of one of these files, and shows people where it is.
    pub(super) fn misread_source<'p>(
        &self,
        files: &[SourceFile<'_>],
        refused: RefusedFile,
    ) -> Failure<'p> {
        let fault = CliFault::Source(refused.fault);
        match files.get(refused.number) {
            Some(file) => self.misread(file.path, &file.bytes, fault),
            None => Failure::Refused(fault),
        }
    }

    /// The procedures of these arguments, each `FILE` or `NAME=FILE`, in order.
    pub(crate) fn all_named_procedures<'p>(
        &self,
        names: &[&'p str],
    ) -> Result<Vec<NamedProcedure>, Failure<'p>> {
        self.procedures_in(&self.read_sources(names)?)
    }
}
