// A table, read from a mark on.

ghost use Rattle.std.specs.Prelude.{◌≡◌, ◌<◌, All, map, drop, length, reverse, option_map, if◌then◌else◌, Some, None, IfOk, OnOk};
ghost use Rattle.std.specs.Arc.{arc_value};
ghost use Rattle.std.specs.List.{filter_map};
ghost use Rattle.tl_tree_locking.specs.History.{caller, records_now};
ghost use Rattle.tl_core.specs.Reached.{IsReached};
ghost use Rattle.tl_instr.specs.Codes.{IsCode};
ghost use Rattle.tl_json.specs.Procedures.{AreAccepted};
ghost use Rattle.tl_verify.specs.Acceptable.{Acceptable};
ghost use Rattle.tl_news.specs.News.{named, asked, news_value, HasAccepted, events_from, calls_of, answer_at, IsEnd, news_behind, unread, IsWhole, news_since, mark_after};

use crate::mark::{Mark, Place};
use crate::news::{Answer, EpochNews, NewCall, NewProcedure, TableNews};
use std::alloc::{AllocError, Global};
use std::sync::Arc;
use tl_core::Core;
use tl_procedures::{Procedures, Request};
use tl_table::Table;
use tl_tree::Record;
use tl_tree_locking::Event;
use tl_verify::Proc;

// The items behind the first ones.
#[tactic(auto, using(std::proofs::lemmas::List::drop_min))]
fn behind<T>(items: &[T], first: usize) -> &[T]
    ensures { result.now ≡ drop first items.now }
{
    &items[first.min(items.len())..]
}

// The events behind the first ones, the earliest first.
fn events_behind(core: &Core, first: usize) -> &[Event]
    ensures events { result.now ≡ events_from first core.now.seen }
    ensures ends { All (IsEnd core.now.seen) result.now }
{
    // Each call that has ended was admitted.
    core.lemma_is_sound();
    behind(core.history().events(), first)
}

// A procedure under its name. Its code is valid and accepted, as each procedure's is.
fn new_procedure(
    alloc: Global,
    name: &str,
    procedure: &Arc<Proc>,
) -> Result<NewProcedure, AllocError>
    ensures named { IfOk result (λ p. named p ≡ record { name = name.now; code = arc_value procedure.now }) }
    ensures code { IsCode (arc_value procedure.now) }
    ensures accepted { Acceptable (arc_value procedure.now).instrs }
{
    let _code = procedure.code();
    Ok(NewProcedure {
        name: String::from_str(alloc, name)?,
        procedure: Arc::try_clone(procedure)?,
    })
}

// The procedures behind the first ones.
fn procedures_behind(
    alloc: Global,
    procedures: &Procedures,
    first: usize,
) -> Result<Vec<NewProcedure>, AllocError>
    ensures procedures { IfOk result (λ v. map named v.items ≡ drop first procedures.now) }
    ensures accepted { IfOk result (λ v. AreAccepted (map named v.items)) }
{
    let mut found = Vec::new(alloc);
    for number in first..procedures.len() {
        let number = number as u32;
        found.push(new_procedure(alloc, procedures.name(number), procedures.get(number))?)?;
    }
    Ok(found)
}

// The calls behind the first ones, with the sessions of all calls.
fn calls_behind(
    alloc: Global,
    core: &Core,
    owners: &[u32],
    first: usize,
) -> Result<Vec<NewCall>, AllocError>
    requires { length owners.now ≡ length core.now.seen.calls }
    ensures { IfOk result (λ v. map asked v.items ≡ calls_of core.now.seen (drop first owners.now) (drop first core.now.seen.calls)) }
{
    let mut found = Vec::new(alloc);
    for call in first..core.calls() {
        let (procedure, args) = core.request(call as u32);
        let request = Request {
            name: String::from_str(alloc, core.name(procedure))?,
            args: Vec::from_slice(alloc, args)?,
        };
        found.push(NewCall {
            session: owners[call],
            request,
        })?;
    }
    Ok(found)
}

// The call that took the turn.
fn caller(event: &Event) -> u32
    ensures { result ≡ caller event.now }
{
    match *event {
        Event::Admit { call }
        | Event::Lock { call, .. }
        | Event::Free { call, .. }
        | Event::Done { call } => call,
    }
}

// By event: the call that took that turn.
fn turns(alloc: Global, events: &[Event]) -> Result<Vec<u32>, AllocError>
    ensures { IfOk result (λ v. v.items ≡ map caller events.now) }
{
    events.iter().map(|event| caller(event)).collect(alloc)
}

// The reply of a call, at its end.
fn answer(core: &Core, owners: &[u32], event: &Event) -> Option<Answer>
    requires end { IsEnd core.now.seen event.now }
    requires each { length owners.now ≡ length core.now.seen.calls }
    ensures { result ≡ answer_at core.now.seen owners.now event.now }
{
    match *event {
        Event::Done { call } => match core.reply(call) {
            Some(reply) => Some(Answer {
                call,
                session: owners[call as usize],
                reply: reply.copy(),
            }),
            // A call that has ended has its reply.
            None => unreachable!(),
        },
        Event::Admit { .. } | Event::Lock { .. } | Event::Free { .. } => None,
    }
}

// The replies of the calls whose ends are among these events.
fn answers(
    alloc: Global,
    core: &Core,
    owners: &[u32],
    events: &[Event],
) -> Result<Vec<Answer>, AllocError>
    requires ends { All (IsEnd core.now.seen) events.now }
    requires each { length owners.now ≡ length core.now.seen.calls }
    ensures { IfOk result (λ v. v.items ≡ filter_map (answer_at core.now.seen owners.now) events.now) }
{
    let mut found = Vec::new(alloc);
    for event in events {
        if let Some(answer) = answer(core, owners, event) {
            found.push(answer)?;
        }
    }
    Ok(found)
}

// The current records, if the epoch is over.
fn records_if(alloc: Global, core: &Core, is_over: bool) -> Result<Option<Vec<Record>>, AllocError>
    ensures { IfOk result (λ o. option_map (λ v. v.items) o ≡ (if is_over then Some (records_now core.now.seen.past core.now.seen.opening) else None)) }
{
    if !is_over {
        return Ok(None);
    }
    Ok(Some(Vec::from_slice(alloc, core.tree().records())?))
}

// What came of the epoch with this number behind the place, with the sessions of its calls.
fn epoch_news(
    alloc: Global,
    number: u32,
    core: &Core,
    owners: &[u32],
    place: &Place,
    is_over: bool,
) -> Result<EpochNews, AllocError>
    requires { length owners.now ≡ length core.now.seen.calls }
    ensures news { IfOk result (λ n. news_value n ≡ news_behind place.now number core.now.seen owners.now is_over) }
    ensures accepted { IfOk result (λ n. HasAccepted n) }
    ensures reached { IsReached core.now.seen }
{
    core.lemma_is_reached();
    let events = events_behind(core, place.events);
    Ok(EpochNews {
        epoch: number,
        procedures: procedures_behind(alloc, core.procedures(), place.procedures)?,
        first_call: place.calls,
        calls: calls_behind(alloc, core, owners, place.calls)?,
        turns: turns(alloc, events)?,
        answers: answers(alloc, core, owners, events)?,
        records: records_if(alloc, core, is_over)?,
    })
}

// The mark once all of the table is read.
fn end_mark(table: &Table, is_over: bool) -> Mark
    ensures { result ≡ mark_after is_over table.now }
{
    if is_over {
        Mark {
            epochs: 0,
            place: Place::start_after(table.core()),
        }
    } else {
        Mark {
            epochs: table.sealed().len(),
            place: Place::end_of(table.core()),
        }
    }
}

/// What came of the table since the mark, epoch by epoch, the current one last; and the mark for the next time. If the current epoch is
/// over too, its news have its records, and the mark is before the table that goes on from here, with the same procedures.
pub fn news_since(
    alloc: Global,
    table: &Table,
    mark: &Mark,
    is_over: bool,
) -> Result<TableNews, AllocError>
    ensures news { IfOk result (λ n. map news_value n.epochs.items ≡ news_since is_over table.now mark.now) }
    ensures mark { IfOk result (λ n. n.mark ≡ mark_after is_over table.now) }
    ensures accepted { IfOk result (λ n. All HasAccepted n.epochs.items) }
    ensures whole { OnOk result (All IsWhole (unread table.now mark.now)) }
{
    let mut epochs = Vec::new(alloc);
    let mut place = mark.place;
    let unread = behind(table.sealed(), mark.epochs);
    for closed in unread {
        let (number, core, owners) = (closed.number(), closed.core(), closed.owners());
        epochs.push(epoch_news(alloc, number, core, owners, &place, true)?)?;
        place = Place::start_after(core);
    }
    let (number, core, owners) = (table.epoch(), table.core(), table.owners());
    epochs.push(epoch_news(alloc, number, core, owners, &place, is_over)?)?;
    Ok(TableNews {
        epochs,
        mark: end_mark(table, is_over),
    })
}
