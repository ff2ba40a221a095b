// The width of a record.

/// How many fields a record has. Fields are numbered from 0.
pub const FIELD_COUNT: usize = 8;

/// How many fields a narrow record has, as in the language's first version.
pub const NARROW_FIELD_COUNT: usize = 4;
