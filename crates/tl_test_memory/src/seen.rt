// The observable state of a core.

use crate::halt::Halt;
use std::io;
use tl_core::Core;
use tl_tree_locking::Event;

/// The observable state of a core: counts, and a number that depends on its procedures' names, requests, events, replies, records
/// and holders.
#[derive(Clone, Copy, Debug, PartialEq, Eq)]
pub struct Seen {
    procedures: usize,
    calls: usize,
    events: usize,
    room: usize,
    sum: u64,
}

impl Seen {
    /// The state of the core now.
    pub fn of(core: &Core) -> Seen {
        let history = core.history();
        Seen {
            procedures: core.procs(),
            calls: core.calls(),
            events: history.len(),
            room: history.room(),
            sum: sum_of(core),
        }
    }

    /// The core's state is still the same. `Changed` if it isn't.
    pub fn stands(&self, core: &Core) -> Result<(), Halt> {
        if Seen::of(core) != *self {
            return Err(Halt::Changed);
        }
        Ok(())
    }

    /// Prints the counts.
    pub fn print(&self, rt: &impl Print) -> io::Result<()> {
        let Seen {
            procedures,
            calls,
            events,
            room,
            sum: _,
        } = *self;
        println!(rt; "procedures {procedures}, calls {calls}, events {events}, room {room}")
    }
}

fn mixed(sum: u64, number: u64) -> u64 {
    sum.rotate_left(5).wrapping_mul(0x9E37_79B9_7F4A_7C15) ^ number
}

fn mixed_values(sum: u64, values: &[i64]) -> u64 {
    let mut sum = sum;
    for value in values {
        sum = mixed(sum, value.cast_unsigned());
    }
    sum
}

fn mixed_event(sum: u64, event: &Event) -> u64 {
    match event {
        Event::Admit { call } => mixed(sum, u64::from(*call)),
        Event::Lock { node, call, found } => {
            let sum = mixed(mixed(sum, u64::from(*node)), u64::from(*call));
            mixed_values(sum, found.as_slice())
        }
        Event::Free { node, call, left } => {
            let sum = mixed(mixed(sum, u64::from(*node)), u64::from(*call));
            mixed_values(sum, left.as_slice())
        }
        Event::Done { call } => mixed(sum, u64::from(*call)),
    }
}

fn mixed_calls(sum: u64, core: &Core) -> u64 {
    let mut sum = sum;
    for call in 0..core.calls() as u32 {
        let (procedure, args) = core.request(call);
        sum = mixed_values(mixed(sum, u64::from(procedure)), args);
        if let Some(reply) = core.reply(call) {
            sum = mixed_values(sum, reply.values());
        }
    }
    sum
}

fn mixed_names(sum: u64, core: &Core) -> u64 {
    let mut sum = sum;
    for number in 0..core.procedures().len() as u32 {
        for byte in core.name(number).as_bytes() {
            sum = mixed(sum, u64::from(*byte));
        }
    }
    sum
}

fn mixed_nodes(sum: u64, core: &Core) -> u64 {
    let mut sum = sum;
    for node in 0..core.opening().shape().node_count() {
        sum = mixed_values(sum, core.record_at(node).as_slice());
        if let Some(call) = core.holder(node) {
            sum = mixed(sum, u64::from(call));
        }
    }
    sum
}

fn sum_of(core: &Core) -> u64 {
    let mut sum = mixed_nodes(mixed_calls(mixed_names(0, core), core), core);
    for event in core.history().events() {
        sum = mixed_event(sum, event);
    }
    sum
}
