// Records.

ghost use Rattle.std.specs.Prelude.{◌≡◌, ◌≤◌};
ghost use Rattle.tl_tree.specs.Records.{width_of};

use tl_width::{FIELD_COUNT, NARROW_FIELD_COUNT};

/// The record of a node: signed 64-bit fields.
pub type Record = [i64; FIELD_COUNT];

/// How many numbers stand for a record in a text. All records of one text have the same width.
#[derive(Clone, Copy, Debug)]
pub enum Width {
    /// As many as a record has fields.
    Wide,
    /// As many as a narrow record has. The fields after them are 0.
    Narrow,
}

impl Width {
    pub(crate) fn count(self) -> usize
        ensures count { result ≡ width_of self }
        ensures fits { result ≤ FIELD_COUNT }
    {
        match self {
            Width::Wide => FIELD_COUNT,
            Width::Narrow => NARROW_FIELD_COUNT,
        }
    }
}
