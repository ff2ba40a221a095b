// Values out of the tokens of a text.

ghost use Rattle.std.specs.Prelude.{◌≡◌, ◌<◌, ◌==◌, Some, true, false, length, slice_index, IsTrue, IfOk, IfSome, option_map};
ghost use Rattle.json.specs.Json.{items as items_of_tokens, members as members_of_tokens, value as value_of_tokens};
ghost use Rattle.serde_json.specs.Data.{no_members};
ghost use Rattle.serde_json.specs.Read.{number_of, number_from, of_items, of_members, converted, read};
ghost use Rattle.serde_json.specs.View.{view, number_view, items_view, members_view};
ghost use Rattle.tl_tokens.specs.Tokens.{BeginsWith};

use fast_float::Numeral;
use json::{Reader, Scratch, Token};
use serde_json::{Map, Number, Value};
use std::alloc::{AllocError, Global};

// How deep a text nests at most.
const DEPTH: usize = 127;

// The number of these digits, if it fits 64 bits.
fn natural(numeral: &Numeral<'_>) -> Option<Number>
    ensures { IfSome result (λ n. number_from false numeral.now ≡ Some (number_view n)) }
{
    Some(Number::from(numeral.to_u64()?))
}

// The same for a negative number.
fn negative(numeral: &Numeral<'_>) -> Option<Number>
    ensures { IfSome result (λ n. number_from true numeral.now ≡ Some (number_view n)) }
{
    let number = numeral.to_i64(true)?;
    if number < 0 {
        Some(Number::from(number))
    } else {
        None
    }
}

// Whether a text begins with a minus.
fn has_minus(bytes: &[u8]) -> bool
    ensures value { result ≡ (slice_index bytes.now 0 == 45) }
    ensures some { IsTrue result → 0 < length bytes.now }
{
    !bytes.is_empty() && bytes[0] == b'-'
}

// The number that the text spells, if it is an integer of 64 bits.
fn integer(text: &str) -> Option<Number>
    ensures { IfSome result (λ n. number_of text.now ≡ Some (number_view n)) }
{
    let bytes = text.as_bytes();
    if has_minus(bytes) {
        negative(&Numeral::scan(&bytes[1..]))
    } else {
        natural(&Numeral::scan(bytes))
    }
}

/// The next value, unless it has a number that isn't an integer of 64 bits.
#[cycle(value)]
pub fn value(
    alloc: Global,
    reader: &mut Reader<'_>,
    depth: usize,
) -> Result<Option<Value>, AllocError>
    ensures { IfOk result (λ found. IfSome found (λ v. BeginsWith Some depth reader.old (view v) reader.new)) }
{
    let Some(token) = reader.next() else {
        return Ok(None);
    };
    match token {
        Token::Null => Ok(Some(Value::Null)),
        Token::Bool(b) => Ok(Some(Value::Bool(b))),
        Token::Number(text) => match integer(text) {
            Some(number) => Ok(Some(Value::Number(number))),
            None => Ok(None),
        },
        Token::String(text) => Ok(Some(Value::String(String::from_str(alloc, text)?))),
        Token::BeginArray => {
            if depth == 0 {
                return Ok(None);
            }
            match items(alloc, reader, depth - 1)? {
                Some(found) => Ok(Some(Value::Array(found))),
                None => Ok(None),
            }
        }
        Token::BeginObject => {
            if depth == 0 {
                return Ok(None);
            }
            match members(alloc, reader, depth - 1)? {
                Some(found) => Ok(Some(Value::Object(found))),
                None => Ok(None),
            }
        }
        Token::EndArray | Token::EndObject | Token::Key(_) | Token::Bad => Ok(None),
    }
}

// The items up to the end of their list.
#[cycle(value)]
fn items(
    alloc: Global,
    reader: &mut Reader<'_>,
    depth: usize,
) -> Result<Option<Vec<Value>>, AllocError>
    ensures read { IfOk result (λ found. IfSome found (λ v.
        converted of_items (items_of_tokens (value_of_tokens depth) (length reader.old) reader.old) ≡ Some (items_view v.items, reader.new))) }
    ensures shorter { IfOk result (λ found. IfSome found (λ _. length reader.new < length reader.old)) }
{
    let mut found = Vec::new(alloc);
    while !reader.take_end_array() {
        let Some(item) = value(alloc, reader, depth)? else {
            return Ok(None);
        };
        found.push(item)?;
    }
    Ok(Some(found))
}

// The members up to the end of their object.
#[cycle(value)]
fn members(
    alloc: Global,
    reader: &mut Reader<'_>,
    depth: usize,
) -> Result<Option<Map<String, Value>>, AllocError>
    ensures read { IfOk result (λ found. IfSome found (λ m.
        converted (λ ms. of_members ms no_members) (members_of_tokens (value_of_tokens depth) (length reader.old) reader.old)
        ≡ Some (members_view m.entries, reader.new))) }
    ensures shorter { IfOk result (λ found. IfSome found (λ _. length reader.new < length reader.old)) }
{
    let mut found = Map::new(alloc);
    loop {
        let Ok(next) = reader.next_key() else {
            return Ok(None);
        };
        let Some(name) = next else {
            return Ok(Some(found));
        };
        let key = String::from_str(alloc, name)?;
        let Some(member) = value(alloc, reader, depth)? else {
            return Ok(None);
        };
        drop(found.insert(key, member)?);
    }
}

// The value that a text is, unless it has a number that isn't an integer of 64 bits.
fn read_whole(alloc: Global, text: &str, scratch: &mut Scratch) -> Result<Option<Value>, AllocError>
    ensures { IfOk result (λ found. IfSome found (λ v. read text.now ≡ Some (view v))) }
{
    let mut reader = Reader::new(text, scratch)?;
    let Some(found) = value(alloc, &mut reader, DEPTH)? else {
        return Ok(None);
    };
    if reader.next().is_some() {
        return Ok(None);
    }
    Ok(Some(found))
}

/// The value of a JSON text, or `None` if the text isn't JSON. The memory that reading needs besides is lent, so that it isn't made and
/// cleared for each text.
pub fn parse_with(
    alloc: Global,
    text: &str,
    scratch: &mut Scratch,
) -> Result<Option<Value>, AllocError>
    ensures { IfOk result (λ found. option_map view found ≡ read text.now) }
{
    if let Some(found) = read_whole(alloc, text, scratch)? {
        return Ok(Some(found));
    }
    match Value::from_str(alloc, text) {
        Ok(value) => Ok(Some(value)),
        Err(error) if error.is_memory() => Err(AllocError),
        Err(_) => Ok(None),
    }
}
