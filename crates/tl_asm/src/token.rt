//! What a word may be.

ghost use Rattle.std.specs.Prelude.{◌≡◌, ◌<◌, IfSome};
ghost use Rattle.std.specs.List.{list_all};
ghost use Rattle.std.specs.Str.{all_ascii_digits};
ghost use Rattle.tl_width.specs.Fields.{field_count};
ghost use Rattle.tl_asm.specs.Tokens.{is_number, number_in, register_in, value_register, node_register, signed_in, begins_label, continues_label, is_label};

use std::str;
use tl_instr::{Arity, Field, NODE_REGISTERS, NodeRegister, VALUE_REGISTERS, ValueRegister};
use tl_width::FIELD_COUNT;

fn all_digits(word: &[u8]) -> bool
    ensures { result ≡ all_ascii_digits word.now }
{
    word.iter().all(|byte| byte.is_ascii_digit())
}

/// Whether these are decimal digits without a leading zero.
fn is_number(word: &[u8]) -> bool
    ensures { result ≡ is_number word.now }
{
    !word.is_empty() && all_digits(word) && (word.len() == 1 || word[0] != b'0')
}

/// A number below the limit.
#[tactic(auto, unfolding(crate::specs::Tokens::number_in))]
fn number_in(limit: u32, word: &[u8]) -> Option<u32>
    ensures value { result ≡ number_in limit word.now }
    ensures in_range { IfSome result (λ n. n < limit) }
{
    if !is_number(word) {
        return None;
    }
    let number: u32 = str::from_utf8(word).ok()?.parse().ok()?;
    if number < limit { Some(number) } else { None }
}

/// The number of a register: a letter, and a number below the limit.
#[tactic(auto, unfolding(crate::specs::Tokens::register_in))]
fn register_in(letter: u8, limit: u32, word: &[u8]) -> Option<u32>
    ensures value { result ≡ register_in letter limit word.now }
    ensures in_range { IfSome result (λ n. n < limit) }
{
    let (first, digits) = word.split_first()?;
    if *first == letter {
        number_in(limit, digits)
    } else {
        None
    }
}

/// `v0` to `v15`.
pub fn value_register(word: &[u8]) -> Option<ValueRegister>
    ensures { result ≡ value_register word.now }
{
    ValueRegister::new(register_in(b'v', VALUE_REGISTERS as u32, word)? as u8)
}

/// `n0` to `n7`.
pub fn node_register(word: &[u8]) -> Option<NodeRegister>
    ensures { result ≡ node_register word.now }
{
    NodeRegister::new(register_in(b'n', NODE_REGISTERS as u32, word)? as u8)
}

/// `0` to `7`.
pub fn field(word: &[u8]) -> Option<Field>
    ensures { result ≡ number_in field_count word.now }
{
    Field::new(number_in(FIELD_COUNT as u32, word)? as u8)
}

/// `0` to `8`.
pub fn arity(word: &[u8]) -> Option<Arity>
    ensures { result ≡ number_in 9 word.now }
{
    Arity::new(number_in(9, word)? as u8)
}

/// `0` to `65535`.
pub fn turns(word: &[u8]) -> Option<u16>
    ensures { result ≡ number_in 65536 word.now }
{
    let turns = number_in(65536, word)?;
    Some(turns as u16)
}

/// `-2147483648` to `2147483647`.
#[tactic(auto, unfolding(crate::specs::Tokens::signed_in))]
pub fn signed(word: &[u8]) -> Option<i32>
    ensures { result ≡ signed_in word.now }
{
    let (first, digits) = word.split_first()?;
    if *first != b'-' {
        let number = number_in(2_147_483_648, word)?;
        return Some(number as i32);
    }
    let number = number_in(2_147_483_649, digits)?;
    if number == 0 {
        return None;
    }
    Some(-i64::from(number) as i32)
}

fn begins_label(byte: u8) -> bool
    ensures { result ≡ begins_label byte }
{
    byte.is_ascii_alphabetic() || byte == b'_'
}

fn all_continue(word: &[u8]) -> bool
    ensures { result ≡ list_all continues_label word.now }
{
    word.iter().all(|byte| continues_label(*byte))
}

fn continues_label(byte: u8) -> bool
    ensures { result ≡ continues_label byte }
{
    byte.is_ascii_alphanumeric() || byte == b'_'
}

/// The most characters that a label has.
pub const MAX_LABEL: usize = 32;

/// Whether the word may name a position: a letter or `_`, then letters, digits or `_`, at most `MAX_LABEL` characters in
/// all.
#[tactic(auto, unfolding(crate::specs::Tokens::is_label))]
pub fn is_label(word: &[u8]) -> bool
    ensures { result ≡ is_label word.now }
{
    let Some((first, rest)) = word.split_first() else {
        return false;
    };
    begins_label(*first) && rest.len() < MAX_LABEL && all_continue(rest)
}
