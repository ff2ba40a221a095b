// The versions of the language.

/// A version of the language, which a code's container names.
#[derive(Clone, Copy, Debug, PartialEq, Eq)]
pub enum Version {
    /// Fields 0 to 3, and loops whose number of turns is in the code.
    One,
    /// Fields 0 to 7, and also loops whose number of turns is in a register.
    Two,
}

impl Version {
    ghost use Rattle.std.specs.Prelude.{◌≡◌};
    ghost use Rattle.tl_instr.specs.Versions.{magic};

    /// What a container of that version begins with.
    pub(crate) fn magic(self) -> [u8; 4]
        ensures { result ≡ magic self }
    {
        match self {
            Version::One => *b"TLP1",
            Version::Two => *b"TLP2",
        }
    }
}
