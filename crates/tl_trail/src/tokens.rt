// Reading a trail from its tokens.
//
// The events are most of a trail, and each takes ten times as much memory as a value as it does as text. So if the members
// come in the order in which they are written, the lists are read item by item, and no value of the whole is made. Of other
// texts nothing is said here.

ghost use Rattle.std.specs.Prelude.{◌≡◌, codes, Some, map, IsTrue, IfOk, IfSome};
ghost use Rattle.json.specs.Json.{read_key};
ghost use Rattle.serde_json.specs.View.{view};
ghost use Rattle.tl_tree.specs.Reading.{records_of};
ghost use Rattle.tl_json.specs.Lists.{each_of};
ghost use Rattle.tl_json.specs.Events.{event_of};
ghost use Rattle.tl_trail.specs.Raw.{IsHalfRead};
ghost use Rattle.tl_trail.specs.Reading.{form_in};
ghost use Rattle.tl_tokens.specs.Tokens.{BeginsWith};
ghost use Rattle.tl_trail.specs.Tokens.{member_depth, item_depth, BeginsWithItems, BeginsWithMember};
ghost use Rattle.tl_trail.specs.TrailTokens.{AreOfTrail, IsFirstWidth};

use crate::raw::{RawCall, RawTrail};
use json::{Reader, Scratch, Token};
use serde_json::Value;
use std::alloc::{AllocError, Global};
use tl_json::{FromValue, NarrowEvent, ProcedureText, RawEvent, WideEvent};
use tl_tokens::value;
use tl_tree::{Record, Tree, Width, records_from_value, tree_from_value};

/// How deep a trail of a chain nests at most: a text nests at most 127 deep.
pub(crate) const TRAIL_DEPTH: usize = 126;

// How deep a member of a trail, and an item of a member, nest at most, also in a chain.
const MEMBER_DEPTH: usize = 125;

const ITEM_DEPTH: usize = 124;

// ---- lists that are read item by item

// What the next item stands for.
fn item<T: FromValue>(alloc: Global, reader: &mut Reader<'_>) -> Result<Option<T::Item>, AllocError>
    ensures { IfOk result (λ found. IfSome found (λ x. BeginsWith T.form_of item_depth reader.old (T.form x) reader.new)) }
{
    let Some(value) = value(alloc, reader, ITEM_DEPTH)? else {
        return Ok(None);
    };
    let Some(found) = T::from_value(alloc, &value)? else {
        return Ok(None);
    };
    Ok(Some(found))
}

// What the items up to the end of their list stand for.
fn each<T: FromValue>(
    alloc: Global,
    reader: &mut Reader<'_>,
) -> Result<Option<Vec<T::Item>>, AllocError>
    ensures { IfOk result (λ found. IfSome found (λ v. BeginsWithItems T.form_of reader.old (map T.form v.items) reader.new)) }
{
    let mut found = Vec::new(alloc);
    while !reader.take_end_array() {
        let Some(one) = item::<T>(alloc, reader)? else {
            return Ok(None);
        };
        found.push(one)?;
    }
    Ok(Some(found))
}

// What the next list stands for.
fn list<T: FromValue>(
    alloc: Global,
    reader: &mut Reader<'_>,
) -> Result<Option<Vec<T::Item>>, AllocError>
    ensures { IfOk result (λ found. IfSome found (λ v. BeginsWith (each_of T.form_of) member_depth reader.old (map T.form v.items) reader.new)) }
{
    let Some(Token::BeginArray) = reader.next() else {
        return Ok(None);
    };
    let Some(found) = each::<T>(alloc, reader)? else {
        return Ok(None);
    };
    Ok(Some(found))
}

// ---- the members of a trail

// Consumes the name of the next member if it is this one.
fn is_named(reader: &mut Reader<'_>, name: &str) -> bool
    ensures { IsTrue result → read_key reader.old ≡ Some (Some name.now, reader.new) }
{
    match reader.next_key() {
        Ok(Some(key)) => key == name,
        _ => false,
    }
}

// The value of the next member, if it has this name.
fn member(alloc: Global, reader: &mut Reader<'_>, name: &str) -> Result<Option<Value>, AllocError>
    ensures { IfOk result (λ found. IfSome found (λ v. BeginsWithMember name.now Some reader.old (view v) reader.new)) }
{
    if !is_named(reader, name) {
        return Ok(None);
    }
    value(alloc, reader, MEMBER_DEPTH)
}

// What the list in the next member stands for, if it has this name.
fn list_member<T: FromValue>(
    alloc: Global,
    reader: &mut Reader<'_>,
    name: &str,
) -> Result<Option<Vec<T::Item>>, AllocError>
    ensures { IfOk result (λ found. IfSome found (λ v. BeginsWithMember name.now (each_of T.form_of) reader.old (map T.form v.items) reader.new)) }
{
    if !is_named(reader, name) {
        return Ok(None);
    }
    list::<T>(alloc, reader)
}

// The records of a list, and their width. A list that fits both widths counts as wide.
fn records_of_either(
    alloc: Global,
    value: &Value,
) -> Result<Option<(Width, Vec<Record>)>, AllocError>
    ensures { IfOk result (λ found. IfSome found (λ x. IsFirstWidth (view value.now) x.0 × (records_of x.0 (view value.now) ≡ Some x.1.items))) }
{
    if let Some(records) = records_from_value(alloc, Width::Wide, value)? {
        return Ok(Some((Width::Wide, records)));
    }
    match records_from_value(alloc, Width::Narrow, value)? {
        Some(records) => Ok(Some((Width::Narrow, records))),
        None => Ok(None),
    }
}

// The events of the next member, if it is named `events`.
fn events_member(
    alloc: Global,
    reader: &mut Reader<'_>,
    width: Width,
) -> Result<Option<Vec<RawEvent>>, AllocError>
    ensures { IfOk result (λ found. IfSome found (λ v. BeginsWithMember (codes "events") (each_of (event_of width)) reader.old v.items reader.new)) }
{
    match width {
        Width::Wide => list_member::<WideEvent>(alloc, reader, "events"),
        Width::Narrow => list_member::<NarrowEvent>(alloc, reader, "events"),
    }
}

/// What a trail's members stand for, if they come in their order. The records in the end decide the width of all others.
pub(crate) fn trail_members(
    alloc: Global,
    reader: &mut Reader<'_>,
    limit: u32,
) -> Result<Option<(Tree, RawTrail)>, AllocError>
    ensures { IfOk result (λ found. IfSome found (λ x. AreOfTrail limit reader.old x.0 x.1 reader.new)) }
{
    let Some(calls) = list_member::<RawCall>(alloc, reader, "calls")? else {
        return Ok(None);
    };
    let Some(ends) = member(alloc, reader, "end")? else {
        return Ok(None);
    };
    let Some((width, ends)) = records_of_either(alloc, &ends)? else {
        return Ok(None);
    };
    let Some(events) = events_member(alloc, reader, width)? else {
        return Ok(None);
    };
    let Some(procedures) = list_member::<ProcedureText>(alloc, reader, "procs")? else {
        return Ok(None);
    };
    let Some(tree) = member(alloc, reader, "tree")? else {
        return Ok(None);
    };
    let Ok(tree) = tree_from_value(alloc, width, &tree, limit) else {
        return Ok(None);
    };
    let Ok(None) = reader.next_key() else {
        return Ok(None);
    };
    let raw = RawTrail {
        procedures,
        calls,
        events,
        ends,
    };
    Ok(Some((tree, raw)))
}

/// The trail of a text, if its members come in the order in which `write_trail` writes them. `None` says nothing about the
/// text.
pub(crate) fn raw_of_tokens(
    alloc: Global,
    text: &str,
    limit: u32,
) -> Result<Option<(Tree, RawTrail)>, AllocError>
    ensures { IfOk result (λ found. IfSome found (λ x. IsHalfRead limit (form_in text.now) x.0 x.1)) }
{
    let mut scratch = Scratch::new(alloc);
    let mut reader = Reader::new(text, &mut scratch)?;
    let Some(Token::BeginObject) = reader.next() else {
        return Ok(None);
    };
    let Some(found) = trail_members(alloc, &mut reader, limit)? else {
        return Ok(None);
    };
    if reader.next().is_some() {
        return Ok(None);
    }
    Ok(Some(found))
}
