// What holds for the width of a record.

ghost use Rattle.std.specs.Prelude.{◌≡◌};
ghost use Rattle.tl_width.specs.Fields.{field_count, narrow_field_count};

use crate::count::{FIELD_COUNT, NARROW_FIELD_COUNT};

/// The constants equal the numbers of the definitions.
pub fn field_counts_are_constants()
    ensures wide { FIELD_COUNT ≡ field_count }
    ensures narrow { NARROW_FIELD_COUNT ≡ narrow_field_count }
{}
