// A procedure with its name.

ghost use Rattle.std.specs.Prelude.{◌≡◌, string_bytes};

use std::marker::Model;
use tl_verify::Proc;

/// A procedure and its name. Whether the name may be given is seen when the procedure is registered.
#[derive(Debug, Drop)]
pub struct NamedProcedure {
    name: String,
    procedure: Proc,
}

impl Model for NamedProcedure {
    ghost use Rattle.std.specs.Prelude.{string_bytes};
    ghost use Rattle.tl_procedures.specs.Names.{Named};

    ghost Value = { Named };

    ghost view = { λ p. record { name = string_bytes p.name; code = p.procedure } };
}

impl NamedProcedure {
    /// The procedure under this name.
    pub fn new(name: String, procedure: Proc) -> NamedProcedure
        ensures { result ≡ record { name = string_bytes name; code = procedure } }
    {
        NamedProcedure { name, procedure }
    }

    /// Its name.
    pub fn name(&self) -> &str
        ensures { result.now ≡ self.now.name }
    {
        self.name.as_str()
    }

    /// The procedure.
    pub fn procedure(&self) -> &Proc
        ensures { result.now ≡ self.now.code }
    {
        &self.procedure
    }

    /// Its name and the procedure.
    pub fn into_parts(self) -> (String, Proc)
        ensures name { string_bytes result.0 ≡ self.name }
        ensures procedure { result.1 ≡ self.code }
    {
        (self.name, self.procedure)
    }
}
