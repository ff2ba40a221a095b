// What a session's holder did, kept small.

ghost use Rattle.std.specs.Prelude.{◌≡◌, ◌+◌, ◌*◌, ◌≤◌, ◌<◌, ◌↔◌, ◌^◌, [], ◌∷◌, ◌++◌, length, take, drop, Some, slice_get, vec_capacity, IsTrue, OnOk, IfSome};
ghost use Rattle.tl_instr.specs.declared.operand.TheConstants.{MAX_ARGS};
ghost use Rattle.tl_workers.specs.declared.batch.TheConstants.{MAX_REQUESTS};
ghost use Rattle.tl_workers.specs.declared.session.Did.TheVariants.{Asked, Got};
ghost use Rattle.tl_workers.specs.Kept.{AsksAt};
ghost use Rattle.tl_workers.specs.Noted.{KeepsName};

use crate::asking::{Asking, Name};
use crate::batch::MAX_REQUESTS;
use crate::session::Did;
use arrayvec::ArrayVec;
use std::alloc::{AllocError, Global};
use std::marker::Model;
use tl_budget::MAX_EMITS;
use tl_instr::MAX_ARGS;
use tl_machine::copied;
use tl_table::Receipt;

// How many of the latest names are compared before a name is stored again.
const LATEST_NAMES: usize = 8;

// How many values a call has at most: its arguments when it is asked for, and these and its reply in its receipt.
const MAX_VALUES: usize = 2 * MAX_ARGS + MAX_EMITS;

/// One entry of a session's list. Its values lie in another list: from `start` on first the arguments, and then the reply. A position
/// takes four bytes and a count takes one, since entries are never removed.
#[derive(Clone, Copy, Debug)]
pub enum Entry {
    /// A call was asked for, of the procedure whose name is at `name`.
    OfCall {
        epoch: u32,
        call: u32,
        name: u32,
        start: u32,
        args: u8,
    },
    /// A receipt was received.
    OfReceipt {
        session: u32,
        epoch: u32,
        call: u32,
        procedure: u32,
        start: u32,
        args: u8,
        reply: u8,
    },
}

/// The requests and receipts of a session, in their order.
///
/// A contract sees that list, and for how many more requests and receipts there is room.
#[derive(Drop)]
pub struct Notes {
    entries: Vec<Entry>,
    // The values of all entries, one after another.
    values: Vec<i64>,
    names: Vec<Name>,
    // For how many more requests, and for how many more receipts, there is memory.
    asks: usize,
    gots: usize,
}

impl Model for Notes {
    ghost use Rattle.std.specs.Prelude.{◌+◌, ◌≤◌, length, vec_capacity};
    ghost use Rattle.tl_workers.specs.Noted.{NotesValue, dids_of, AreWithin, IsReserved, values_for};

    ghost Value = { NotesValue };

    ghost view = { λ n. record { kept = dids_of n.values.items n.names.items n.entries.items; asks = n.asks; gots = n.gots } };

    ghost invariant = { λ n. AreWithin (length n.values.items) (length n.names.items) n.entries.items
        × (length n.entries.items + (n.asks + n.gots) ≤ vec_capacity n.entries)
        × IsReserved (length n.values.items) (vec_capacity n.values) (values_for n.asks n.gots)
        × IsReserved (length n.names.items) (vec_capacity n.names) n.asks };
}

impl Notes {
    /// An empty list. Takes no memory.
    pub fn new(alloc: Global) -> Notes
        ensures { result ≡ record { kept = []; asks = 0; gots = 0 } }
    {
        Notes {
            entries: Vec::new(alloc),
            values: Vec::new(alloc),
            names: Vec::new(alloc),
            asks: 0,
            gots: 0,
        }
    }

    /// How many entries there are.
    pub fn len(&self) -> usize
        ensures { result ≡ length self.now.kept }
    {
        self.entries.len()
    }

    /// The entry at that place of the list. Takes no memory.
    pub fn entry(&self, i: usize) -> Did
        requires { i < length self.now.kept }
        ensures { slice_get self.now.kept i ≡ Some result }
    {
        let values = self.values.as_slice();
        match self.entries[i] {
            Entry::OfCall {
                epoch,
                call,
                name,
                start,
                args,
            } => Did::Asked(Asking {
                epoch,
                call,
                name: self.names[name as usize].copy(),
                args: values_at(values, start as usize, args as usize),
            }),
            Entry::OfReceipt {
                session,
                epoch,
                call,
                procedure,
                start,
                args,
                reply,
            } => Did::Got(Receipt {
                session,
                epoch,
                call,
                procedure,
                args: values_at(values, start as usize, args as usize),
                reply: values_at(values, start as usize + args as usize, reply as usize),
            }),
        }
    }

    /// Whether that call was asked for at that place of the list.
    pub fn asks_at(&self, i: usize, epoch: u32, call: u32) -> bool
        requires { i < length self.now.kept }
        ensures { IsTrue result ↔ AsksAt self.now.kept i epoch call }
    {
        match &self.entries[i] {
            Entry::OfCall {
                epoch: its_epoch,
                call: its_call,
                ..
            } => *its_epoch == epoch && *its_call == call,
            Entry::OfReceipt { .. } => false,
        }
    }

    /// Makes room for that many more requests, and for as many receipts.
    pub fn reserve(&mut self, calls: usize) -> Result<(), AllocError>
        requires { calls ≤ MAX_REQUESTS }
        ensures kept { self.new.kept ≡ self.old.kept }
        ensures room { OnOk result ((calls ≤ self.new.asks) × (calls ≤ self.new.gots)) }
    {
        // No session has so many values that a position wouldn't fit.
        let most = u32::MAX as usize;
        if most - self.values.len() < MAX_VALUES * calls || most - self.names.len() < calls {
            return Err(AllocError);
        }
        self.entries.reserve(2 * calls)?;
        self.values.reserve(MAX_VALUES * calls)?;
        self.names.reserve(calls)?;
        self.asks = calls;
        self.gots = calls;
        Ok(())
    }

    /// Writes down that a call was asked for, in room made before.
    pub fn asked(&mut self, asked: &Asking)
        requires { 1 ≤ self.old.asks }
        ensures kept { self.new.kept ≡ self.old.kept ++ Asked asked.now ∷ [] }
        ensures asks { self.new.asks + 1 ≡ self.old.asks }
        ensures gots { self.new.gots ≡ self.old.gots }
    {
        let args = asked.args.as_slice();
        let start = self.values.len() as u32;
        append(&mut self.values, args);
        let name = place_of(&mut self.names, &asked.name);
        self.entries.push_reserved(Entry::OfCall {
            epoch: asked.epoch,
            call: asked.call,
            name,
            start,
            args: args.len() as u8,
        });
        self.asks -= 1;
    }

    /// Writes a receipt down, in room made before.
    pub fn got(&mut self, receipt: &Receipt)
        requires { 1 ≤ self.old.gots }
        ensures kept { self.new.kept ≡ self.old.kept ++ Got receipt.now ∷ [] }
        ensures asks { self.new.asks ≡ self.old.asks }
        ensures gots { self.new.gots + 1 ≡ self.old.gots }
    {
        let args = receipt.args.as_slice();
        let reply = receipt.reply.as_slice();
        let start = self.values.len() as u32;
        append(&mut self.values, args);
        append(&mut self.values, reply);
        self.entries.push_reserved(Entry::OfReceipt {
            session: receipt.session,
            epoch: receipt.epoch,
            call: receipt.call,
            procedure: receipt.procedure,
            start,
            args: args.len() as u8,
            reply: reply.len() as u8,
        });
        self.gots -= 1;
    }
}

// `count` of the values, from `start` on.
fn values_at<const N: usize>(values: &[i64], start: usize, count: usize) -> ArrayVec<i64, N>
    requires within { start + count ≤ length values.now }
    requires few { count ≤ N }
    ensures { result.items ≡ take count (drop start values.now) }
{
    copied(&values[start..start + count])
}

// Appends the values, in room made before.
fn append(values: &mut Vec<i64>, more: &[i64])
    requires { length values.old.items + length more.now ≤ vec_capacity values.old }
    ensures values { values.new.items ≡ values.old.items ++ more.now }
    ensures room { vec_capacity values.old ≤ vec_capacity values.new }
{
    let Ok(()) = values.extend_from_slice(more) else {
        unreachable!()
    };
}

// The place of the name. It is stored first if it isn't among the latest.
fn place_of(names: &mut Vec<Name>, name: &Name) -> u32
    requires room { length names.old.items < vec_capacity names.old }
    requires few { length names.old.items < 2 ^ 32 }
    ensures name { KeepsName names.old.items names.new.items name.now result }
    ensures room { vec_capacity names.new ≡ vec_capacity names.old }
{
    if let Some(place) = latest_place(names.as_slice(), name) {
        return place as u32;
    }
    let place = names.len() as u32;
    names.push_reserved(name.copy());
    place
}

// The place of the name, if it is among the latest.
fn latest_place(names: &[Name], name: &Name) -> Option<usize>
    ensures { IfSome result (λ i. slice_get names.now i ≡ Some name.now) }
{
    for i in names.len().saturating_sub(LATEST_NAMES)..names.len() {
        if names[i].as_str() == name.as_str() {
            return Some(i);
        }
    }
    None
}
