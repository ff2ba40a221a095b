// Numbers that depend on all results of a piece of work.

use crate::measured::Measured;
use std::alloc::Global;
use tl_asm::disassemble;
use tl_core::Core;
use tl_instr::Code;
use tl_serial_order::Order;
use tl_trail::Trail;
use tl_tree::Record;
use tl_tree_locking::Event;

fn mix_record(record: &Record, measured: &mut Measured) {
    for field in record {
        measured.mix(field.cast_unsigned());
    }
}

/// Mixes each field of each record.
pub fn mix_records(records: &[Record], measured: &mut Measured) {
    for record in records {
        mix_record(record, measured);
    }
}

// Mixes the kind and the call of an event, and its node and record if it has them.
fn mix_event(event: &Event, measured: &mut Measured) {
    let (kind, call, touched) = match event {
        Event::Admit { call } => (0, *call, None),
        Event::Lock { call, node, found } => (1, *call, Some((*node, found))),
        Event::Free { call, node, left } => (2, *call, Some((*node, left))),
        Event::Done { call } => (3, *call, None),
    };
    measured.mix(kind);
    measured.mix(u64::from(call));
    if let Some((node, record)) = touched {
        measured.mix(u64::from(node));
        mix_record(record, measured);
    }
}

fn mix_events(events: &[Event], measured: &mut Measured) {
    for event in events {
        mix_event(event, measured);
    }
}

/// Mixes the calls of an order.
pub fn mix_order(order: &Order, measured: &mut Measured) {
    for call in order.calls() {
        measured.mix(u64::from(*call));
    }
}

/// Mixes the replies, the records and the events.
pub fn mix_core(core: &Core, measured: &mut Measured) {
    for call in 0..core.calls() as u32 {
        if let Some(reply) = core.reply(call) {
            measured.mix_all(reply.values());
        }
    }
    mix_records(core.tree().records(), measured);
    mix_events(core.history().events(), measured);
}

/// Mixes the code's text.
pub fn mix_code(alloc: Global, code: &Code, measured: &mut Measured) -> Option<()> {
    let text = disassemble(alloc, code).ok()?;
    measured.mix_bytes(text.as_bytes());
    Some(())
}

fn mix_procedures(alloc: Global, trail: &Trail, measured: &mut Measured) -> Option<()> {
    let procedures = trail.procedures();
    for number in 0..procedures.len() as u32 {
        measured.mix_bytes(procedures.name(number).as_bytes());
        mix_code(alloc, procedures.get(number).code(), measured)?;
    }
    Some(())
}

fn mix_calls(trail: &Trail, measured: &mut Measured) {
    for call in 0..trail.calls() as u32 {
        let (procedure, args) = trail.request(call);
        measured.mix(u64::from(procedure));
        measured.mix_all(args);
        match trail.reply(call) {
            Some(reply) => measured.mix_all(reply),
            None => measured.mix(u64::MAX),
        }
    }
}

/// Mixes all parts of a trail.
pub fn mix_trail(alloc: Global, trail: &Trail, measured: &mut Measured) -> Option<()> {
    let shape = trail.opening().shape();
    for node in 0..shape.node_count() {
        measured.mix(u64::from(shape.parent(node)));
    }
    mix_records(trail.opening().records(), measured);
    mix_procedures(alloc, trail, measured)?;
    mix_calls(trail, measured);
    mix_events(trail.events(), measured);
    mix_records(trail.ends(), measured);
    Some(())
}
