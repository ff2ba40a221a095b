// The names that copies may have.

ghost use Rattle.std.specs.Prelude.{◌≡◌};
ghost use Rattle.std.specs.List.{list_all};
ghost use Rattle.tl_file_snapshot.specs.Names.{is_stem_byte, is_stem, is_snapshot_name};

/// How many bytes come before `.db` at most.
pub const MAX_STEM: usize = 64;

/// How a copy's name ends.
const END: &[u8; 3] = b".db";

// Whether it is an ASCII letter, a digit, `_` or `-`.
fn is_stem_byte(byte: u8) -> bool
    ensures { result ≡ is_stem_byte byte }
{
    byte.is_ascii_alphanumeric() || byte == b'_' || byte == b'-'
}

fn are_stem_bytes(stem: &[u8]) -> bool
    ensures { result ≡ list_all is_stem_byte stem.now }
{
    stem.iter().all(|byte| is_stem_byte(*byte))
}

// Whether it is 1 to 64 such bytes.
fn is_stem(stem: &[u8]) -> bool
    ensures { result ≡ is_stem stem.now }
{
    !stem.is_empty() && stem.len() <= MAX_STEM && are_stem_bytes(stem)
}

/// Whether a copy may have that name: 1 to 64 ASCII letters, digits, `_` or `-`, and then `.db`. So it is a file right in its folder, and no name that
/// SQLite gives a log.
pub fn is_snapshot_name(name: &str) -> bool
    ensures { result ≡ is_snapshot_name name.now }
{
    match name.as_bytes().strip_suffix(END) {
        Some(stem) => is_stem(stem),
        None => false,
    }
}
