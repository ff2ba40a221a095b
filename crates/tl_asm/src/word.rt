//! The words of a line, one after another.

ghost use Rattle.std.specs.Prelude.{◌≡◌, ◌<◌, not, length, take, drop, IsTrue};
ghost use Rattle.std.specs.List.{position_or_len};
ghost use Rattle.tl_asm.specs.Words.{is_blank, words_of, first_of, without_comment, Finds};

pub fn is_blank(byte: u8) -> bool
    ensures { result ≡ is_blank byte }
{
    matches!(byte, b' ' | b'\t' | b'\r')
}

/// The line before its first `;`.
pub fn without_comment(line: &[u8]) -> &[u8]
    ensures { result.now ≡ without_comment line.now }
{
    let end = line
        .iter()
        .position(|byte| *byte == b';')
        .unwrap_or(line.len());
    let (code, _) = line.split_at(end);
    code
}

/// How many blanks the line begins with.
fn indent(line: &[u8]) -> usize
    ensures { result ≡ position_or_len (λ b. not (is_blank b)) line.now }
{
    line.iter()
        .position(|byte| !is_blank(*byte))
        .unwrap_or(line.len())
}

/// The first word, and the rest of the line after it.
pub fn next_word(line: &[u8]) -> Option<(&[u8], &[u8])>
    ensures { Finds (λ x. (x.0.now, words_of x.1.now)) result (first_of (words_of line.now)) }
{
    let (_, line) = line.split_at(indent(line));
    let end = line
        .iter()
        .position(|byte| is_blank(*byte))
        .unwrap_or(line.len());
    if end == 0 {
        return None;
    }
    Some(line.split_at(end))
}
