// Trails that are read, written, ordered and audited.

use crate::clock::now;
use crate::digest::{mix_order, mix_trail};
use crate::measured::Measured;
use serde_json::Value;
use std::alloc::Global;
use tl_audit::{AuditFault, audit};
use tl_serial_order::{Order, order_of};
use tl_trail::{Trail, read_trail, write_trail};
use tl_tree::USUAL_NODES;

fn trail_in(alloc: Global, text: &[u8]) -> Option<Trail> {
    let text = std::str::from_utf8(text).ok()?;
    read_trail(alloc, text, USUAL_NODES).ok()
}

fn was_read(alloc: Global, text: &[u8], times: u32) -> Option<Measured> {
    let mut measured = Measured::none();
    for _time in 0..times {
        let begin = now();
        let trail = trail_in(alloc, text)?;
        measured.add_since(begin);
        measured.count = trail.events().len() as u64;
        mix_trail(alloc, &trail, &mut measured)?;
    }
    Some(measured)
}

/// The trail in the text, read `times` times. The count is the number of events, and all parts of the trail are mixed.
#[unsafe(no_mangle)]
pub extern "C" fn treedb_read(alloc: Global, text: &[u8], times: u32) -> Measured {
    Measured::or_refused(was_read(alloc, text, times))
}

fn value_in(alloc: Global, text: &[u8]) -> Option<Value> {
    let text = std::str::from_utf8(text).ok()?;
    Value::from_str(alloc, text).ok()
}

// Counts and mixes the bytes of a text that was written.
fn mix_text(text: &str, measured: &mut Measured) {
    measured.count = text.len() as u64;
    measured.mix_bytes(text.as_bytes());
}

fn was_parsed(alloc: Global, text: &[u8], times: u32) -> Option<Measured> {
    let mut measured = Measured::none();
    for _time in 0..times {
        let begin = now();
        let value = value_in(alloc, text)?;
        measured.add_since(begin);
        mix_text(&value.to_string(alloc).ok()?, &mut measured);
        let begin = now();
        drop(value);
        measured.add_since(begin);
    }
    Some(measured)
}

/// The text, read as a plain JSON value and dropped `times` times. The count is the number of bytes of the value as it is written,
/// and these bytes are mixed.
#[unsafe(no_mangle)]
pub extern "C" fn treedb_parse(alloc: Global, text: &[u8], times: u32) -> Measured {
    Measured::or_refused(was_parsed(alloc, text, times))
}

fn was_printed(alloc: Global, text: &[u8], times: u32) -> Option<Measured> {
    let value = value_in(alloc, text)?;
    let mut measured = Measured::none();
    for _time in 0..times {
        let begin = now();
        let written = value.to_string(alloc).ok()?;
        measured.add_since(begin);
        mix_text(&written, &mut measured);
    }
    Some(measured)
}

/// The text's JSON value, written `times` times. The count is the number of bytes, which are mixed.
#[unsafe(no_mangle)]
pub extern "C" fn treedb_print(alloc: Global, text: &[u8], times: u32) -> Measured {
    Measured::or_refused(was_printed(alloc, text, times))
}

fn was_written(alloc: Global, text: &[u8], times: u32) -> Option<Measured> {
    let trail = trail_in(alloc, text)?;
    let mut measured = Measured::none();
    for _time in 0..times {
        let begin = now();
        let written = write_trail(alloc, &trail).ok()?;
        measured.add_since(begin);
        mix_text(&written, &mut measured);
    }
    Some(measured)
}

/// The trail in the text, written `times` times. The count is the number of bytes, which are mixed.
#[unsafe(no_mangle)]
pub extern "C" fn treedb_write(alloc: Global, text: &[u8], times: u32) -> Measured {
    Measured::or_refused(was_written(alloc, text, times))
}

fn was_ordered(alloc: Global, text: &[u8], times: u32) -> Option<Measured> {
    let trail = trail_in(alloc, text)?;
    let mut measured = Measured::none();
    for _time in 0..times {
        let begin = now();
        let order = order_of(alloc, trail.history(), trail.opening().shape()).ok()?;
        measured.add_since(begin);
        measured.count = order.calls().len() as u64;
        mix_order(&order, &mut measured);
    }
    Some(measured)
}

/// The order of the trail in the text, found `times` times. The count is the number of calls in it, which are mixed.
#[unsafe(no_mangle)]
pub extern "C" fn treedb_order(alloc: Global, text: &[u8], times: u32) -> Measured {
    Measured::or_refused(was_ordered(alloc, text, times))
}

// Mixes the result of an audit.
fn mix_verdict(audited: &Result<Order, AuditFault>, measured: &mut Measured) {
    match audited {
        Ok(order) => mix_order(order, measured),
        Err(fault) => {
            for number in fault.numbers().as_slice() {
                measured.mix(*number);
            }
        }
    }
}

fn was_audited(alloc: Global, text: &[u8], times: u32) -> Option<Measured> {
    let trail = trail_in(alloc, text)?;
    let mut measured = Measured::none();
    for _time in 0..times {
        let begin = now();
        let audited = audit(alloc, &trail);
        measured.add_since(begin);
        measured.count = trail.events().len() as u64;
        mix_verdict(&audited, &mut measured);
    }
    Some(measured)
}

/// The trail in the text, audited `times` times. The count is the number of events. The calls of the order are mixed, or the
/// numbers of the first fault.
#[unsafe(no_mangle)]
pub extern "C" fn treedb_audit(alloc: Global, text: &[u8], times: u32) -> Measured {
    Measured::or_refused(was_audited(alloc, text, times))
}
