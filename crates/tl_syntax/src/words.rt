// Words and signs.

ghost use Rattle.std.specs.Prelude.{◌≡◌, filter, IfSome, IfNone};
ghost use Rattle.std.specs.Char.{is_ascii_digit as is_ascii_digit_lem};
ghost use Rattle.std.specs.Str.Parse.{digits_value};
ghost use Rattle.tl_syntax.specs.Tokens.{
  separates,
  starts_word,
  stays_word,
  IsReserved,
  IsFree,
  IsLongSign,
  IsNoLongSign,
  IsShortSign,
  AreGrouped,
  IsDecimal,
};

use crate::token::TokenKind;

/// The length of the longest name, in characters.
pub const MAX_NAME: usize = 32;

/// The greatest number that a token may have: with a minus sign directly before it, this is the least number of 64 bits.
pub const MAX_NUMBER: u64 = 9_223_372_036_854_775_808;

pub fn is_blank(byte: u8) -> bool
    ensures { result ≡ separates byte }
{
    byte == b' ' || byte == b'\t' || byte == b'\r' || byte == b'\n'
}

pub fn begins_name(byte: u8) -> bool
    ensures { result ≡ starts_word byte }
{
    byte.is_ascii_alphabetic() || byte == b'_'
}

pub fn continues_name(byte: u8) -> bool
    ensures { result ≡ stays_word byte }
{
    byte.is_ascii_alphanumeric() || byte == b'_'
}

/// The reserved word that these bytes spell.
pub fn reserved(word: &[u8]) -> Option<TokenKind>
    ensures some { IfSome result (λ kind. IsReserved word.now kind) }
    ensures none { IfNone result (IsFree word.now) }
{
    match word {
        b"and" => Some(TokenKind::And),
        b"break" => Some(TokenKind::Break),
        b"child" => Some(TokenKind::Child),
        b"const" => Some(TokenKind::Const),
        b"descend" => Some(TokenKind::Descend),
        b"else" => Some(TokenKind::Else),
        b"emit" => Some(TokenKind::Emit),
        b"fail" => Some(TokenKind::Fail),
        b"field" => Some(TokenKind::Field),
        b"for" => Some(TokenKind::For),
        b"free" => Some(TokenKind::Free),
        b"if" => Some(TokenKind::If),
        b"kids" => Some(TokenKind::Kids),
        b"let" => Some(TokenKind::Let),
        b"lock" => Some(TokenKind::Lock),
        b"node" => Some(TokenKind::Node),
        b"not" => Some(TokenKind::Not),
        b"or" => Some(TokenKind::Or),
        b"proc" => Some(TokenKind::Proc),
        b"repeat" => Some(TokenKind::Repeat),
        b"require" => Some(TokenKind::Require),
        b"return" => Some(TokenKind::Return),
        b"try" => Some(TokenKind::Try),
        _ => None,
    }
}

/// A sign of two characters.
pub fn long_sign(first: u8, second: u8) -> Option<TokenKind>
    ensures some { IfSome result (λ kind. IsLongSign first second kind) }
    ensures none { IfNone result (IsNoLongSign first second) }
{
    match (first, second) {
        (b'+', b'=') => Some(TokenKind::AddAssign),
        (b'-', b'=') => Some(TokenKind::SubtractAssign),
        (b'<', b'=') => Some(TokenKind::LessOrEqual),
        (b'>', b'=') => Some(TokenKind::GreaterOrEqual),
        (b'=', b'=') => Some(TokenKind::Equal),
        (b'!', b'=') => Some(TokenKind::NotEqual),
        _ => None,
    }
}

/// A sign of one character.
pub fn short_sign(byte: u8) -> Option<TokenKind>
    ensures { IfSome result (λ kind. IsShortSign byte kind) }
{
    match byte {
        b'(' => Some(TokenKind::LeftParenthesis),
        b')' => Some(TokenKind::RightParenthesis),
        b'{' => Some(TokenKind::LeftBrace),
        b'}' => Some(TokenKind::RightBrace),
        b',' => Some(TokenKind::Comma),
        b';' => Some(TokenKind::Semicolon),
        b':' => Some(TokenKind::Colon),
        b'.' => Some(TokenKind::Dot),
        b'=' => Some(TokenKind::Assign),
        b'+' => Some(TokenKind::Plus),
        b'-' => Some(TokenKind::Minus),
        b'*' => Some(TokenKind::Times),
        b'/' => Some(TokenKind::Divide),
        b'%' => Some(TokenKind::Remainder),
        b'<' => Some(TokenKind::Less),
        b'>' => Some(TokenKind::Greater),
        _ => None,
    }
}

// The number that digits spell, of which two may have a `_` between them.
fn grouped_digits(word: &[u8]) -> Option<u64>
    ensures grouped { IfSome result (λ n. AreGrouped word.now) }
    ensures value { IfSome result (λ n. n ≡ digits_value 10 (filter is_ascii_digit_lem word.now)) }
{
    let mut number: u64 = 0;
    let mut follows_digit = false;
    for byte in word {
        if byte.is_ascii_digit() {
            let digit = u64::from(*byte - b'0');
            number = number.checked_mul(10)?.checked_add(digit)?;
            follows_digit = true;
        } else if *byte == b'_' && follows_digit {
            follows_digit = false;
        } else {
            return None;
        }
    }
    if follows_digit { Some(number) } else { None }
}

/// The number that these characters spell: decimal, without leading zeros, at most `MAX_NUMBER`. Two digits may have a `_` between
/// them.
pub fn number(word: &[u8]) -> Option<u64>
    ensures { IfSome result (λ n. IsDecimal word.now n) }
{
    let is_short = word.len() == 1 || word.first() != Some(&b'0');
    if !is_short {
        return None;
    }
    let number = grouped_digits(word)?;
    if number <= MAX_NUMBER {
        Some(number)
    } else {
        None
    }
}
