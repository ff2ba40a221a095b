// Events.

ghost use Rattle.std.specs.Prelude.{◌≡◌, ◌∷◌, [], ◌++◌, option_map, string_bytes, IfOk, OnOk};
ghost use Rattle.serde_json.specs.Data.{string};
ghost use Rattle.serde_json.specs.View.{view};
ghost use Rattle.serde_json.specs.Written.{compact_text};
ghost use Rattle.tl_tree.specs.Trees.{IsRecord};
ghost use Rattle.tl_tree.specs.Writing.{integers_data};
ghost use Rattle.tl_json.specs.Lists.{each_of, natural};
ghost use Rattle.tl_json.specs.Letters.{text_of, lettered};
ghost use Rattle.tl_json.specs.Events.{short_event, long_event, event_of};

use crate::json::{FromValue, each_of, four_of, two_of};
use crate::letter::Letter;
use crate::text::{PushText, push_number};
use serde_json::{Value, json};
use std::alloc::{AllocError, Global};
use tl_tree::{Record, Width, record_from_value, record_to_value};
use tl_tree_locking::Event;

/// An event as it is written: its call and its node may be any number.
#[derive(Clone, Copy, Debug)]
pub enum RawEvent {
    Admitted { call: i64 },
    Locked { call: i64, node: i64, found: Record },
    Freed { call: i64, node: i64, left: Record },
    Ended { call: i64 },
}

// An admission or an end.
fn short_event(letter: Letter, call: i64) -> Option<RawEvent>
    ensures { result ≡ short_event letter call }
{
    match letter {
        Letter::Admitted => Some(RawEvent::Admitted { call }),
        Letter::Done => Some(RawEvent::Ended { call }),
        _ => None,
    }
}

// A lock or a free.
fn long_event(letter: Letter, call: i64, node: i64, fields: Record) -> Option<RawEvent>
    ensures { result ≡ long_event letter call node fields }
{
    match letter {
        Letter::Locked => Some(RawEvent::Locked {
            call,
            node,
            found: fields,
        }),
        Letter::Freed => Some(RawEvent::Freed {
            call,
            node,
            left: fields,
        }),
        _ => None,
    }
}

// The event that the value stands for, if it has an event's form with a record of that width.
fn event_from_value(width: Width, value: &Value) -> Option<RawEvent>
    ensures { result ≡ event_of width (view value.now) }
{
    let items = value.as_array()?;
    if let Some((letter, call)) = two_of(items) {
        return short_event(Letter::from_text(letter.as_str()?)?, call.as_i64()?);
    }
    let (letter, call, node, fields) = four_of(items)?;
    long_event(
        Letter::from_text(letter.as_str()?)?,
        call.as_i64()?,
        node.as_i64()?,
        record_from_value(width, fields)?,
    )
}

/// `["a",call]` or `["d",call]`, or `["l",call,node,record]` or `["f",call,node,record]` with a record of eight numbers
pub struct WideEvent;

impl FromValue for WideEvent {
    type Item = RawEvent;

    ghost use Rattle.tl_tree.specs.declared.record.Width.TheVariants.{Wide};
    ghost use Rattle.tl_json.specs.declared.event.RawEvent.{RawEvent as Raw};
    ghost use Rattle.tl_json.specs.Events.{event_of};

    ghost Form = { Raw };

    ghost form = { λ e. e };

    ghost form_of = { event_of Wide };

    fn from_value(_alloc: Global, value: &Value) -> Result<Option<RawEvent>, AllocError> {
        Ok(event_from_value(Width::Wide, value))
    }
}

/// The same with a record of four numbers.
pub struct NarrowEvent;

impl FromValue for NarrowEvent {
    type Item = RawEvent;

    ghost use Rattle.tl_tree.specs.declared.record.Width.TheVariants.{Narrow};
    ghost use Rattle.tl_json.specs.declared.event.RawEvent.{RawEvent as Raw};
    ghost use Rattle.tl_json.specs.Events.{event_of};

    ghost Form = { Raw };

    ghost form = { λ e. e };

    ghost form_of = { event_of Narrow };

    fn from_value(_alloc: Global, value: &Value) -> Result<Option<RawEvent>, AllocError> {
        Ok(event_from_value(Width::Narrow, value))
    }
}

/// The events of a list, or `None` if the value isn't a list or an item isn't an event with a record of that width.
pub fn events_from_value(
    alloc: Global,
    width: Width,
    value: &Value,
) -> Result<Option<Vec<RawEvent>>, AllocError>
    ensures { IfOk result (λ found. option_map (λ v. v.items) found ≡ each_of (event_of width) (view value.now)) }
{
    match width {
        Width::Wide => each_of::<WideEvent>(alloc, value),
        Width::Narrow => each_of::<NarrowEvent>(alloc, value),
    }
}

/// `["letter",call]`
pub fn call_to_value(alloc: Global, letter: Letter, call: u32) -> Result<Value, AllocError>
    ensures { IfOk result (λ v. view v ≡ lettered letter (natural call ∷ [])) }
{
    json!(in alloc; [letter.as_str(), call])
}

/// `["letter",call,node,record]`
pub fn node_to_value(
    alloc: Global,
    letter: Letter,
    call: u32,
    node: u32,
    fields: &Record,
) -> Result<Value, AllocError>
    ensures value { IfOk result (λ v. view v ≡ lettered letter (natural call ∷ natural node ∷ integers_data fields.now ∷ [])) }
    ensures fields { OnOk result (IsRecord fields.now) }
{
    let fields = record_to_value(alloc, fields)?;
    json!(in alloc; [letter.as_str(), call, node, fields])
}

// `["letter",`
fn push_letter(text: &mut String, letter: Letter) -> Result<(), AllocError>
    ensures { OnOk result (string_bytes text.new ≡ string_bytes text.old ++ 91 ∷ (compact_text (string (text_of letter)) ++ 44 ∷ [])) }
{
    text.push_str("[\"")?;
    text.push_str(letter.as_str())?;
    text.push_str("\",")
}

// `["letter",call]`
fn push_call(text: &mut String, letter: Letter, call: u32) -> Result<(), AllocError>
    ensures { OnOk result (string_bytes text.new ≡ string_bytes text.old ++ compact_text (lettered letter (natural call ∷ []))) }
{
    push_letter(text, letter)?;
    push_number(text, call)?;
    text.push_str("]")
}

// `["letter",call,node,record]`
fn push_node(
    text: &mut String,
    letter: Letter,
    call: u32,
    node: u32,
    fields: &Record,
) -> Result<(), AllocError>
    ensures text { OnOk result (string_bytes text.new ≡ string_bytes text.old
        ++ compact_text (lettered letter (natural call ∷ natural node ∷ integers_data fields.now ∷ []))) }
    ensures fields { OnOk result (IsRecord fields.now) }
{
    push_letter(text, letter)?;
    push_number(text, call)?;
    text.push_str(",")?;
    push_number(text, node)?;
    text.push_str(",")?;
    fields.push_text(text)?;
    text.push_str("]")
}

impl PushText for Event {
    ghost use Rattle.tl_json.specs.Events.{event_data, HasRecord};

    ghost data = { event_data };

    ghost IsFit = { HasRecord };

    fn push_text(&self, text: &mut String) -> Result<(), AllocError> {
        match self {
            Event::Admit { call } => push_call(text, Letter::Admitted, *call),
            Event::Lock { call, node, found } => {
                push_node(text, Letter::Locked, *call, *node, found)
            }
            Event::Free { call, node, left } => {
                push_node(text, Letter::Freed, *call, *node, left)
            }
            Event::Done { call } => push_call(text, Letter::Done, *call),
        }
    }
}
