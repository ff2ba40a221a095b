// Reading a trail from its text.

ghost use Rattle.std.specs.Prelude.{◌≡◌, ◌≢◌, ◌<◌, ◌≤◌, ℤ, List, [], Some, Ok, Err, length, map, reverse, option_map, string_bytes, All, IfSome, IfOk, IfErr, OnOk, MatchResult};
ghost use Rattle.serde_json.specs.View.{view};
ghost use Rattle.tl_tree.specs.Records.{Records};
ghost use Rattle.tl_tree_locking.specs.declared.event.Event.{Event as EventValue};
ghost use Rattle.tl_tree_locking.specs.History.{caller};
ghost use Rattle.tl_tree_locking.specs.Nodes.{IsOfNodes};
ghost use Rattle.tl_trail.specs.Trails.{TrailValue, IsCallOf, call_value};
ghost use Rattle.tl_trail.specs.Reading.{parts_of, form_at, form_of_parts, form_of_data, form_in, call_as, each_call, calls_as, below, event_as, events_as, IsFound, IsFaultFound, IsTrailText, IsFirstTrailFault};
ghost use Rattle.tl_trail.specs.Raw.{call_form, form_with, parts_in, IsHalfRead, IsUnread, IsTrailOf, IsFaultOf};

use crate::fault::TrailFault;
use crate::raw::{Members, RawCall, RawTrail, members_of_value, raw_of_members};
use crate::tokens::raw_of_tokens;
use crate::trail::{Trail, TrailCall};
use arrayvec::ArrayVec;
use serde_json::Value;
use std::alloc::Global;
use tl_budget::MAX_EMITS;
use tl_history::{History, HistoryFault, MAX_CALLS, MAX_EVENTS};
use tl_json::{RawEvent, parse_text, register_all};
use tl_machine::copied;
use tl_procedures::Procedures;
use tl_tree::{Tree, Width, tree_from_value};
use tl_tree_locking::Event;

// ---- the tree, and the other members

// What the members stand for, if their records have that width.
fn raw_at(
    alloc: Global,
    width: Width,
    members: &Members,
    limit: u32,
) -> Result<(Tree, RawTrail), TrailFault>
    ensures ok { IfOk result (λ found. IsHalfRead limit (form_at width (parts_in members.now)) found.0 found.1) }
    ensures fault { IfErr result (λ e. e ≢ TrailFault.Memory → IsUnread limit (form_at width (parts_in members.now)) e) }
{
    let Some(raw) = raw_of_members(alloc, width, members)? else {
        return Err(TrailFault::NotTrail);
    };
    let tree = tree_from_value(alloc, width, members.tree, limit)?;
    Ok((tree, raw))
}

// What they stand for, if their records are all wide or all narrow.
fn raw_of_either(
    alloc: Global,
    members: &Members,
    limit: u32,
) -> Result<(Tree, RawTrail), TrailFault>
    ensures ok { IfOk result (λ found. IsHalfRead limit (form_of_parts (parts_in members.now)) found.0 found.1) }
    ensures fault { IfErr result (λ e. e ≢ TrailFault.Memory → IsUnread limit (form_of_parts (parts_in members.now)) e) }
{
    match raw_at(alloc, Width::Wide, members, limit) {
        Err(TrailFault::NotTrail) => raw_at(alloc, Width::Narrow, members, limit),
        answer => answer,
    }
}

fn raw_of_value(alloc: Global, value: &Value, limit: u32) -> Result<(Tree, RawTrail), TrailFault>
    ensures ok { IfOk result (λ found. IsHalfRead limit (form_of_data (view value.now)) found.0 found.1) }
    ensures fault { IfErr result (λ e. e ≢ TrailFault.Memory → IsUnread limit (form_of_data (view value.now)) e) }
{
    let Some(members) = members_of_value(value) else {
        return Err(TrailFault::NotTrail);
    };
    raw_of_either(alloc, &members, limit)
}

fn raw_of_text(alloc: Global, text: &str, limit: u32) -> Result<(Tree, RawTrail), TrailFault>
    ensures ok { IfOk result (λ found. IsHalfRead limit (form_in text.now) found.0 found.1) }
    ensures fault { IfErr result (λ e. e ≢ TrailFault.Memory → IsUnread limit (form_in text.now) e) }
{
    if let Some(found) = raw_of_tokens(alloc, text, limit)? {
        return Ok(found);
    }
    match parse_text(alloc, text)? {
        Some(value) => raw_of_value(alloc, &value, limit),
        None => Err(TrailFault::NotTrail),
    }
}

// ---- the calls

fn reply_copied(reply: &Option<ArrayVec<i64, MAX_EMITS>>) -> Option<ArrayVec<i64, MAX_EMITS>>
    ensures { option_map (λ r. r.items) result ≡ option_map (λ r. r.items) reply.now }
{
    match reply {
        Some(reply) => Some(copied(reply.as_slice())),
        None => None,
    }
}

// A call of the procedure it names, with as many arguments as the procedure takes. 601, 501.
fn checked_call(procedures: &Procedures, raw: &RawCall) -> Result<TrailCall, TrailFault>
    ensures ok { IfOk result (λ k. call_as procedures.now (call_form raw.now) ≡ Ok (call_value k)) }
    ensures call { IfOk result (λ k. IsCallOf procedures.now (call_value k)) }
    ensures fault { IfErr result (λ e. call_as procedures.now (call_form raw.now) ≡ Err e) }
{
    let Some(number) = procedures.number_of(&raw.name) else {
        return Err(TrailFault::NoProcedure);
    };
    let procedure = procedures.get(number);
    // It takes at most eight arguments.
    let _fact = procedure.code();
    if !procedure.takes(&raw.args) {
        return Err(TrailFault::WrongArgs);
    }
    Ok(TrailCall {
        procedure: number,
        args: copied(&raw.args),
        reply: reply_copied(&raw.reply),
    })
}

fn checked_each_call(
    alloc: Global,
    procedures: &Procedures,
    raw: &[RawCall],
) -> Result<Vec<TrailCall>, TrailFault>
    ensures ok { IfOk result (λ calls. each_call procedures.now (map call_form raw.now) ≡ Ok (map call_value calls.items)) }
    ensures calls { IfOk result (λ calls. All (IsCallOf procedures.now) (map call_value calls.items)) }
    ensures count { IfOk result (λ calls. length calls.items ≡ length raw.now) }
    ensures fault { IfErr result (λ e. e ≢ TrailFault.Memory → each_call procedures.now (map call_form raw.now) ≡ Err e) }
{
    let mut calls = Vec::with_capacity(alloc, raw.len())?;
    for one in raw {
        let call = checked_call(procedures, one)?;
        calls.push(call)?;
    }
    Ok(calls)
}

// 603, then the fault of the first call that has one.
fn checked_calls(
    alloc: Global,
    procedures: &Procedures,
    raw: &[RawCall],
) -> Result<Vec<TrailCall>, TrailFault>
    ensures ok { IfOk result (λ calls. calls_as procedures.now (map call_form raw.now) ≡ Ok (map call_value calls.items)) }
    ensures calls { IfOk result (λ calls. All (IsCallOf procedures.now) (map call_value calls.items)) }
    ensures few { IfOk result (λ calls. length calls.items ≤ MAX_CALLS) }
    ensures fault { IfErr result (λ e. e ≢ TrailFault.Memory → calls_as procedures.now (map call_form raw.now) ≡ Err e) }
{
    if raw.len() > MAX_CALLS {
        return Err(TrailFault::TooManyCalls);
    }
    checked_each_call(alloc, procedures, raw)
}

// ---- the events

// The number, if it is below `count`.
fn below(count: u32, number: i64) -> Option<u32>
    ensures number { result ≡ below count number }
    ensures inside { IfSome result (λ n. n < count) }
{
    let number = u32::try_from(number).ok()?;
    if number < count { Some(number) } else { None }
}

// An event of one of the calls and one of the nodes.
fn checked_event(calls: u32, nodes: u32, form: RawEvent) -> Option<Event>
    ensures event { result ≡ event_as calls nodes form }
    ensures node { IfSome result (λ e. IsOfNodes nodes e) }
    ensures call { IfSome result (λ e. caller e < calls) }
{
    match form {
        RawEvent::Admitted { call } => Some(Event::Admit {
            call: below(calls, call)?,
        }),
        RawEvent::Locked { call, node, found } => Some(Event::Lock {
            call: below(calls, call)?,
            node: below(nodes, node)?,
            found,
        }),
        RawEvent::Freed { call, node, left } => Some(Event::Free {
            call: below(calls, call)?,
            node: below(nodes, node)?,
            left,
        }),
        RawEvent::Ended { call } => Some(Event::Done {
            call: below(calls, call)?,
        }),
    }
}

// An empty history with `events` reserved places: 701 if there are too many.
fn history_for(alloc: Global, events: usize) -> Result<History, TrailFault>
    ensures ok { IfOk result (λ h. (h.past ≡ []) × (h.reserved ≡ events)) }
    ensures few { OnOk result (events ≤ MAX_EVENTS) }
    ensures fault { IfErr result (λ e. e ≢ TrailFault.Memory → (e ≡ TrailFault.NotTrail) × (MAX_EVENTS < events)) }
{
    let mut history = History::new(alloc, MAX_EVENTS);
    match history.reserve(alloc, events) {
        Ok(()) => Ok(history),
        Err(HistoryFault::HistoryFull) => Err(TrailFault::NotTrail),
        Err(HistoryFault::Memory) => Err(TrailFault::Memory),
    }
}

// The events, each of one of `calls` calls and one of `nodes` nodes, at most 1,048,576 of them: otherwise 701.
fn checked_history(
    alloc: Global,
    calls: u32,
    nodes: u32,
    forms: &[RawEvent],
) -> Result<History, TrailFault>
    ensures ok { IfOk result (λ h. events_as calls nodes forms.now ≡ Some (reverse h.past)) }
    ensures few { IfOk result (λ h. length h.past ≤ MAX_EVENTS) }
    ensures nodes { IfOk result (λ h. All (IsOfNodes nodes) h.past) }
    ensures callers { IfOk result (λ h. All (λ e. caller e < calls) h.past) }
    ensures fault { IfErr result (λ e. e ≢ TrailFault.Memory → (e ≡ TrailFault.NotTrail)
        × ((events : List EventValue) → events_as calls nodes forms.now ≡ Some events → MAX_EVENTS < length events)) }
{
    let mut history = history_for(alloc, forms.len())?;
    for form in forms {
        let Some(event) = checked_event(calls, nodes, *form) else {
            return Err(TrailFault::NotTrail);
        };
        history.append(event);
    }
    Ok(history)
}

// ---- the trail

/// The trail of a tree and the other members of its text. The first fault: of the procedures, the calls, then the events
/// and the records in the end.
pub(crate) fn checked_trail(alloc: Global, tree: Tree, raw: RawTrail) -> Result<Trail, TrailFault>
    ensures ok { IfOk result (λ t. (parts : List ℤ × Records) → IsTrailOf tree (form_with raw parts) t) }
    ensures fault { IfErr result (λ e. e ≢ TrailFault.Memory → (parts : List ℤ × Records) → IsFaultOf tree (form_with raw parts) e) }
{
    let procedures = register_all(alloc, &raw.procedures)?;
    let calls = checked_calls(alloc, &procedures, &raw.calls)?;
    let nodes = tree.shape().node_count();
    if raw.ends.len() != nodes as usize {
        return Err(TrailFault::NotTrail);
    }
    let history = checked_history(alloc, calls.len() as u32, nodes, &raw.events)?;
    Ok(Trail::new(tree, procedures, calls, history, raw.ends))
}

/// The trail that a value stands for.
pub(crate) fn trail_of_value(alloc: Global, value: &Value, limit: u32) -> Result<Trail, TrailFault>
    ensures ok { IfOk result (λ t. IsFound limit (form_of_data (view value.now)) t) }
    ensures fault { IfErr result (λ e. e ≢ TrailFault.Memory → IsFaultFound limit (form_of_data (view value.now)) e) }
{
    let (tree, raw) = raw_of_value(alloc, value, limit)?;
    checked_trail(alloc, tree, raw)
}

// The same as below, with a contract that uses only the definition of a trail's text.
fn trail_of_text(alloc: Global, text: &str, limit: u32) -> Result<Trail, TrailFault>
    ensures ok { IfOk result (λ t. IsTrailText limit text.now t) }
    ensures fault { IfErr result (λ e. e ≢ TrailFault.Memory → IsFirstTrailFault limit text.now e) }
{
    let (tree, raw) = raw_of_text(alloc, text, limit)?;
    checked_trail(alloc, tree, raw)
}

/// The trail of a text, whose tree has at most `limit` nodes.
///
/// It is an object with exactly these five members: `calls`, a list with the name of its procedure, its arguments and its
/// reply for each call, where a reply is a list of at most 32 numbers or null; `end`, the records in the end; `events`, a
/// list of `["a",call]` for an admission, `["l",call,node,record]` for a lock and the record found,
/// `["f",call,node,record]` for a free and the record left, and `["d",call]` for an end; `procs`, a list of names and
/// assembler texts; and `tree`, the tree before the calls. Numbers are signed 64-bit integers. Either all records, also
/// those of the tree, are lists of eight, or all are lists of four, and the other fields are 0.
///
/// The first fault: 701 for another form; the tree's 101 to 105, 102 for more than `limit` nodes; for each procedure in order the assembler's 251 to 254,
/// the verifier's 301 to 307 and 401 to 409, and 612, 611, 613 for its name; 603 for more than 4,096 calls; for each call
/// in order 601 and 501; then 701 if an event is of no call or no node of the trail, if there aren't as many records in the
/// end as nodes, or if there are more than 1,048,576 events. 790 if memory is refused.
pub fn read_trail(alloc: Global, text: &str, limit: u32) -> Result<Trail, TrailFault>
    // The trail that is read is that of the text.
    ensures ok { IfOk result (λ t. IsTrailText limit text.now t) }
    // Which fault it is.
    ensures fault { IfErr result (λ e. e ≢ TrailFault.Memory → IsFirstTrailFault limit text.now e) }
    // If the text has a trail, it is read, unless memory is refused.
    ensures taken { (t : TrailValue) → IsTrailText limit text.now t
        → MatchResult result (λ r. r ≡ t) (λ e. e ≡ TrailFault.Memory) }
{
    trail_of_text(alloc, text, limit)
}
