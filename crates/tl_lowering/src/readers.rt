// What is read behind a place: the code of a failure, and what a loop is left with.

ghost use Rattle.std.specs.Prelude.{◌≡◌};
ghost use Rattle.tl_lowering.specs.Failing.{nothing_read, unread as unread_lem, reading as reading_lem, searching as searching_lem, in_part as in_part_lem};

use tl_instr::ValueRegister;

/// What a loop is left with: a value that says whether it is, and so many above it. So many loops are around its turns.
#[derive(Clone, Copy)]
pub struct Finding {
    pub flag: ValueRegister,
    pub count: usize,
    pub depth: u8,
}

/// The register in which a failure leaves its code, if the `else` to which control goes then reads it; and what a loop is left with, if a
/// `found` stands behind one that begins here or is around the place.
#[derive(Clone, Copy)]
pub struct Readers {
    pub code: Option<ValueRegister>,
    pub finding: Option<Finding>,
}

impl Readers {
    /// Where nothing is read.
    pub fn nothing() -> Readers
        ensures { result ≡ nothing_read }
    {
        Readers {
            code: None,
            finding: None,
        }
    }

    /// Where nothing reads the code of a failure.
    pub fn unread(&self) -> Readers
        ensures { result ≡ unread_lem self.now }
    {
        Readers {
            code: None,
            finding: self.finding,
        }
    }

    /// Where it is read from that register.
    pub fn reading(&self, register: ValueRegister) -> Readers
        ensures { result ≡ reading_lem self.now register }
    {
        Readers {
            code: Some(register),
            finding: self.finding,
        }
    }

    /// In the block of a loop that may be left with these values.
    pub fn searching(&self, finding: &Finding) -> Readers
        ensures { result ≡ searching_lem self.now finding.now }
    {
        Readers {
            code: self.code,
            finding: Some(*finding),
        }
    }

    /// In a part, which leaves none of the loops around its use.
    pub fn in_part(&self) -> Readers
        ensures { result ≡ in_part_lem self.now }
    {
        Readers {
            code: self.code,
            finding: None,
        }
    }
}
