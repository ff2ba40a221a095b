// What an auditor's fault means in a trail: what stands there, and what should stand there.

use crate::auditing::{begins_with_list, trails_of_text};
use crate::fault::CliFault;
use std::alloc::{AllocError, Global};
use tl_audit::{AuditFault, ChainFault};
use tl_trail::Trail;
use tl_tree::Record;
use tl_tree_locking::Event;

// Numbers as a list.
fn list_text(alloc: Global, numbers: &[i64]) -> Result<String, AllocError> {
    let mut text = String::from_str(alloc, "[")?;
    let mut between = "";
    for number in numbers {
        text = format!(in alloc; "{text}{between}{number}")?;
        between = ",";
    }
    format!(in alloc; "{text}]")
}

// How many calls were admitted.
fn admissions(events: &[Event]) -> usize {
    let mut count: usize = 0;
    for event in events {
        if matches!(event, Event::Admit { .. }) {
            count = count.saturating_add(1);
        }
    }
    count
}

// Whether the call has ended.
fn has_ended(events: &[Event], call: u32) -> bool {
    for event in events {
        if *event == (Event::Done { call }) {
            return true;
        }
    }
    false
}

// The event at which the call locked the node.
fn locked_at(events: &[Event], call: u32, node: u32) -> Option<usize> {
    for at in 0..events.len() {
        if let Event::Lock {
            node: locked,
            call: by,
            ..
        } = events[at]
        {
            if locked == node && by == call {
                return Some(at);
            }
        }
    }
    None
}

// The call that holds the node, and since which event.
fn holder_of(events: &[Event], node: u32) -> Option<(u32, usize)> {
    let mut holder = None;
    for at in 0..events.len() {
        match events[at] {
            Event::Lock {
                node: locked,
                call,
                ..
            } if locked == node => holder = Some((call, at)),
            Event::Free { node: freed, .. } if freed == node => holder = None,
            _ => {}
        }
    }
    holder
}

// A node that the call holds.
fn held_by(events: &[Event], call: u32) -> Option<u32> {
    for event in events {
        if let Event::Lock { node, call: by, .. } = *event {
            let is_held = by == call && holder_of(events, node).is_some_and(|held| held.0 == call);
            if is_held {
                return Some(node);
            }
        }
    }
    None
}

// The event at which a record was left in the node last.
fn left_at(events: &[Event], node: u32) -> Option<usize> {
    let mut last = None;
    for at in 0..events.len() {
        if let Event::Free { node: freed, .. } = events[at] {
            if freed == node {
                last = Some(at);
            }
        }
    }
    last
}

// The record that the event leaves.
fn left_text(alloc: Global, event: &Event) -> Result<String, AllocError> {
    match event {
        Event::Free { left, .. } => list_text(alloc, left),
        _ => Ok(String::new(alloc)),
    }
}

// The record of that node.
fn text_at(alloc: Global, records: &[Record], node: usize) -> Result<String, AllocError> {
    match records.get(node) {
        Some(record) => list_text(alloc, record),
        None => Ok(String::new(alloc)),
    }
}

// What the event tells.
fn event_text(alloc: Global, at: usize, event: &Event) -> Result<String, AllocError> {
    match event {
        Event::Admit { call } => format!(in alloc; "event {at} admits call {call}"),
        Event::Lock { node, call, .. } => {
            format!(in alloc; "event {at} has call {call} lock node {node}")
        }
        Event::Free { node, call, .. } => {
            format!(in alloc; "event {at} has call {call} free node {node}")
        }
        Event::Done { call } => format!(in alloc; "event {at} ends call {call}"),
    }
}

// The call that did the event.
fn call_of(event: &Event) -> u32 {
    match event {
        Event::Admit { call }
        | Event::Lock { call, .. }
        | Event::Free { call, .. }
        | Event::Done { call } => *call,
    }
}

// Why a call may not lock the node after these events.
fn lock_text(
    alloc: Global,
    trail: &Trail,
    before: &[Event],
    call: u32,
    node: u32,
) -> Result<String, AllocError> {
    if let Some(at) = locked_at(before, call, node) {
        return format!(in alloc; "it locked that node at event {at}, and a call locks a node once");
    }
    let shape = trail.opening().shape();
    if node >= shape.node_count() {
        return String::from_str(alloc, "there is no such node");
    }
    let parent = shape.parent(node);
    format!(in alloc;
        "it doesn't hold node {parent}, the parent, and only the first lock of a call may be at any node"
    )
}

// Why the event may not come after those before it.
fn rule_text(
    alloc: Global,
    trail: &Trail,
    before: &[Event],
    event: &Event,
) -> Result<String, AllocError> {
    let (call, admitted) = (call_of(event), admissions(before));
    if matches!(event, Event::Admit { .. }) {
        return format!(in alloc;
            "calls are numbered in the order of their admissions, and the next one is call {admitted}"
        );
    }
    if call as usize >= admitted {
        return String::from_str(alloc, "it has to be admitted before");
    }
    if has_ended(before, call) {
        return String::from_str(alloc, "it has ended before");
    }
    match event {
        Event::Lock { node, .. } => lock_text(alloc, trail, before, call, *node),
        Event::Free { .. } => String::from_str(alloc, "it doesn't hold that node"),
        _ => match held_by(before, call) {
            Some(node) => format!(in alloc; "it still holds node {node}, and has to free it first"),
            None => String::from_str(alloc, "it may not end here"),
        },
    }
}

// Who holds the node that is to be locked after these events.
fn overlap_text(alloc: Global, before: &[Event], event: &Event) -> Result<String, AllocError> {
    let holder = match event {
        Event::Lock { node, .. } => holder_of(before, *node),
        _ => None,
    };
    match holder {
        Some((other, since)) => {
            format!(in alloc;
                "call {other} has held it since event {since}, and has to free it first"
            )
        }
        None => String::from_str(alloc, "another call holds it"),
    }
}

// What a node's record has to be after these events.
fn record_text(
    alloc: Global,
    trail: &Trail,
    before: &[Event],
    node: u32,
) -> Result<String, AllocError> {
    if let Some(at) = left_at(before, node) {
        if let Some(event) = before.get(at) {
            let left = left_text(alloc, event)?;
            return format!(in alloc; "{left} was left there, at event {at}");
        }
    }
    let opening = text_at(alloc, trail.opening().records(), node as usize)?;
    format!(in alloc; "nothing was left there before, and the tree opens with {opening}")
}

// What the event finds, and what it should find.
fn found_text(
    alloc: Global,
    trail: &Trail,
    before: &[Event],
    event: &Event,
) -> Result<String, AllocError> {
    let Event::Lock { node, found, .. } = event else {
        return Ok(String::new(alloc));
    };
    let found = list_text(alloc, found)?;
    let should = record_text(alloc, trail, before, *node)?;
    format!(in alloc; "it finds {found}, but {should}")
}

// What is wrong at the event of that number.
fn at_event(
    alloc: Global,
    trail: &Trail,
    at: u32,
    fault: AuditFault,
) -> Result<String, AllocError> {
    let events = trail.events();
    let at = at as usize;
    let Some(event) = events.get(at) else {
        return Ok(String::new(alloc));
    };
    let before = &events[..at];
    let why = match fault {
        AuditFault::Overlap { .. } => overlap_text(alloc, before, event)?,
        AuditFault::WrongFound { .. } => found_text(alloc, trail, before, event)?,
        _ => rule_text(alloc, trail, before, event)?,
    };
    let what = event_text(alloc, at, event)?;
    format!(in alloc; "{what}: {why}")
}

// What the call is asked to do.
fn request_text(alloc: Global, trail: &Trail, call: u32) -> Result<String, AllocError> {
    if call as usize >= trail.calls() {
        return Ok(String::new(alloc));
    }
    let (procedure, args) = trail.request(call);
    let args = list_text(alloc, args)?;
    if procedure as usize >= trail.procedures().len() {
        return Ok(args);
    }
    let name = trail.procedures().name(procedure);
    format!(in alloc; "call {call} is of {name} with {args}")
}

// What is wrong with the reply of the call.
fn reply_text(alloc: Global, trail: &Trail, call: u32) -> Result<String, AllocError> {
    let request = request_text(alloc, trail, call)?;
    if call as usize >= trail.calls() {
        return Ok(request);
    }
    match trail.reply(call) {
        Some(reply) => {
            let reply = list_text(alloc, reply)?;
            format!(in alloc;
                "{request}: the trail says that it answered {reply}, and the procedure, run alone on the records that the call found, answers something else"
            )
        }
        None => format!(in alloc;
            "{request}: the trail has no reply of it, and the call has ended"
        ),
    }
}

// What is wrong with the node's record in the end.
fn end_text(alloc: Global, trail: &Trail, node: u32) -> Result<String, AllocError> {
    let should = record_text(alloc, trail, trail.events(), node)?;
    let end = text_at(alloc, trail.ends(), node as usize)?;
    format!(in alloc; "node {node} has {end} in the end, but {should}")
}

// What is wrong with the trail.
fn fault_text(alloc: Global, trail: &Trail, fault: AuditFault) -> Result<String, AllocError> {
    match fault {
        AuditFault::RuleBroken { event }
        | AuditFault::Overlap { event }
        | AuditFault::WrongFound { event } => at_event(alloc, trail, event, fault),
        AuditFault::NotGenuine { call } => {
            let request = request_text(alloc, trail, call)?;
            format!(in alloc;
                "{request}: the procedure, run alone on the records that the call found, locks or frees other nodes, or leaves other records"
            )
        }
        AuditFault::Unfinished { call } => {
            let request = request_text(alloc, trail, call)?;
            format!(in alloc; "{request}: no event ends it")
        }
        AuditFault::WrongEnd { node } => end_text(alloc, trail, node),
        AuditFault::WrongReply { call } => reply_text(alloc, trail, call),
        AuditFault::Memory => Ok(String::new(alloc)),
    }
}

// The first node whose opening record isn't the one that the trail before ends with.
fn first_other(ends: &[Record], opening: &[Record]) -> Option<usize> {
    for node in 0..ends.len().min(opening.len()) {
        if ends[node] != opening[node] {
            return Some(node);
        }
    }
    None
}

// Whether the trail's procedures are those of the trail before and more. Between files they may have got other codes.
fn takes_procedures(before: &Trail, trail: &Trail, is_between_files: bool) -> bool {
    if is_between_files {
        trail.procedures().keep_names(before.procedures())
    } else {
        trail.procedures().begin_with(before.procedures())
    }
}

// Why the trail doesn't go on where the one before it ends.
fn seam_text(
    alloc: Global,
    before: &Trail,
    trail: &Trail,
    is_between_files: bool,
) -> Result<String, AllocError> {
    if !takes_procedures(before, trail, is_between_files) {
        return String::from_str(
            alloc,
            "its procedures don't begin with all procedures of the trail before",
        );
    }
    let (ends, opening) = (before.ends(), trail.opening().records());
    if let Some(node) = first_other(ends, opening) {
        let left = text_at(alloc, ends, node)?;
        let found = text_at(alloc, opening, node)?;
        return format!(in alloc;
            "node {node} opens with {found}, and the trail before ends with {left}"
        );
    }
    let (there, here) = (ends.len(), opening.len());
    if there != here {
        return format!(in alloc;
            "its tree has {here} nodes, and that of the trail before has {there}"
        );
    }
    String::from_str(alloc, "a node has another parent than in the trail before")
}

// What is wrong with the chain.
fn chain_text(
    alloc: Global,
    before: Option<&Trail>,
    trails: &[Trail],
    fault: ChainFault,
) -> Result<String, AllocError> {
    match fault {
        ChainFault::InEpoch { epoch, fault } => match trails.get(epoch as usize) {
            Some(trail) => fault_text(alloc, trail, fault),
            None => Ok(String::new(alloc)),
        },
        ChainFault::Broken { epoch } => {
            let earlier = match (epoch as usize).checked_sub(1) {
                Some(last) => trails.get(last),
                None => before,
            };
            match (earlier, trails.get(epoch as usize)) {
                (Some(earlier), Some(trail)) => seam_text(alloc, earlier, trail, epoch == 0),
                _ => Ok(String::new(alloc)),
            }
        }
        ChainFault::Memory => Ok(String::new(alloc)),
    }
}

/// A sentence for people on what is wrong with the trails of a file: what stands there, and what should. It is empty for a fault that isn't
/// one of `audit_cmd` or `audit_next_cmd` for this file. `before` is the last trail of the file before, if there is one. Faults as of
/// `audit_cmd`, where the file can't be read.
pub fn explain_audit_fault(
    alloc: Global,
    file: &[u8],
    before: Option<&Trail>,
    fault: CliFault,
    limit: u32,
) -> Result<String, CliFault> {
    let chain = match fault {
        CliFault::Audit(fault) => ChainFault::InEpoch { epoch: 0, fault },
        CliFault::Chain(fault) => fault,
        _ => return Ok(String::new(alloc)),
    };
    let Ok(text) = std::str::from_utf8(file) else {
        return Ok(String::new(alloc));
    };
    let trails = trails_of_text(alloc, text, begins_with_list(text), limit)?;
    Ok(chain_text(alloc, before, &trails, chain)?)
}
