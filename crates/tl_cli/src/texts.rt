// The texts of procedures that lines bring to a server that lasts: they are in the procedure language.

use crate::archive::Archive;
use std::alloc::Global;
use tl_procedures::NamedProcedure;
use tl_server::{TextFault, Texts};
use tl_sources::procedures_of;

impl<R> Texts for Archive<R> {
    ghost use Rattle.tl_cli.specs.Texts.{AreProgramFaultNumbers};
    ghost use Rattle.tl_sources.specs.Sources.{ProvidesAll};

    ghost has = { ProvidesAll };

    ghost lacks = { AreProgramFaultNumbers };

    fn procedures_of(alloc: Global, text: &str) -> Result<Vec<NamedProcedure>, TextFault> {
        match procedures_of(alloc, text.as_bytes()) {
            Ok(all) => Ok(all),
            Err(fault) if fault.is_memory() => Err(TextFault::Memory),
            Err(fault) => Err(TextFault::Text(fault.numbers())),
        }
    }
}
