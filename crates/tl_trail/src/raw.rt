// A trail as it is written, half read: each value has its form, and nothing else is checked.

ghost use Rattle.std.specs.Prelude.{◌≡◌, option_map, option_and_then, IfOk};
ghost use Rattle.serde_json.specs.View.{view};
ghost use Rattle.tl_tree.specs.Reading.{form_at as tree_form_at};
ghost use Rattle.tl_trail.specs.Reading.{parts_of, form_at};
ghost use Rattle.tl_trail.specs.Raw.{parts_in, form_with};

use arrayvec::ArrayVec;
use serde_json::Value;
use std::alloc::{AllocError, Global};
use tl_budget::MAX_EMITS;
use tl_json::{
    FromValue, ProcedureText, RawEvent, each_of, events_from_value, reply_from_value, three_of,
};
use tl_tree::{Record, Width, integers_from_value, records_from_value};

/// A call as it is written: the name of its procedure, its arguments, and its reply, if any.
#[derive(Debug, Drop)]
pub(crate) struct RawCall {
    pub name: String,
    pub args: Vec<i64>,
    pub reply: Option<ArrayVec<i64, MAX_EMITS>>,
}

/// A trail as it is written, without its tree.
#[derive(Debug, Drop)]
pub(crate) struct RawTrail {
    pub procedures: Vec<ProcedureText>,
    pub calls: Vec<RawCall>,
    pub events: Vec<RawEvent>,
    pub ends: Vec<Record>,
}

/// The members of a trail's text.
#[derive(Clone, Copy)]
pub(crate) struct Members<'a> {
    pub calls: &'a Value,
    pub ends: &'a Value,
    pub events: &'a Value,
    pub procedures: &'a Value,
    pub tree: &'a Value,
}

/// `[name,args,reply]`
impl FromValue for RawCall {
    type Item = RawCall;

    ghost use Rattle.tl_trail.specs.Reading.{CallForm, call_of};
    ghost use Rattle.tl_trail.specs.Raw.{call_form};

    ghost Form = { CallForm };

    ghost form = { call_form };

    ghost form_of = { call_of };

    fn from_value(alloc: Global, value: &Value) -> Result<Option<RawCall>, AllocError> {
        let Some(items) = value.as_array() else {
            return Ok(None);
        };
        let Some((name, args, reply)) = three_of(items) else {
            return Ok(None);
        };
        let Some(name) = name.as_str() else {
            return Ok(None);
        };
        let Some(args) = integers_from_value(alloc, args)? else {
            return Ok(None);
        };
        let Some(reply) = reply_from_value(alloc, reply)? else {
            return Ok(None);
        };
        let name = String::from_str(alloc, name)?;
        Ok(Some(RawCall { name, args, reply }))
    }
}

/// The members of an object that has exactly these five.
pub(crate) fn members_of_value(value: &Value) -> Option<Members>
    ensures { option_map parts_in result ≡ parts_of (view value.now) }
{
    let count = value.as_object()?.len();
    if count != 5 {
        return None;
    }
    Some(Members {
        calls: value.get("calls")?,
        ends: value.get("end")?,
        events: value.get("events")?,
        procedures: value.get("procs")?,
        tree: value.get("tree")?,
    })
}

/// The trail that the members stand for, without its tree, if their records have that width.
pub(crate) fn raw_of_members(
    alloc: Global,
    width: Width,
    members: &Members,
) -> Result<Option<RawTrail>, AllocError>
    ensures { IfOk result (λ found.
        form_at width (parts_in members.now)
        ≡ option_and_then (λ raw. option_map (form_with raw) (tree_form_at width (view members.now.tree.now))) found) }
{
    let Some(calls) = each_of::<RawCall>(alloc, members.calls)? else {
        return Ok(None);
    };
    let Some(ends) = records_from_value(alloc, width, members.ends)? else {
        return Ok(None);
    };
    let Some(events) = events_from_value(alloc, width, members.events)? else {
        return Ok(None);
    };
    let Some(procedures) = each_of::<ProcedureText>(alloc, members.procedures)? else {
        return Ok(None);
    };
    Ok(Some(RawTrail {
        procedures,
        calls,
        events,
        ends,
    }))
}
