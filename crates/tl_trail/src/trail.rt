// Trails.

ghost use Rattle.std.specs.Prelude.{◌≡◌, ◌<◌, ◌≤◌, map, length, reverse, option_copied, IfSome};
ghost use Rattle.tl_trail.specs.Trails.{IsTrail, call_value, call_at};

use arrayvec::ArrayVec;
use std::marker::Model;
use tl_budget::MAX_EMITS;
use tl_history::{History, MAX_CALLS};
use tl_instr::MAX_ARGS;
use tl_procedures::Procedures;
use tl_tree::{Record, Tree};
use tl_tree_locking::Event;

/// A call of a trail: the number of its procedure, its arguments, and its reply, if any.
#[derive(Debug, Drop)]
pub struct TrailCall {
    pub procedure: u32,
    pub args: ArrayVec<i64, MAX_ARGS>,
    pub reply: Option<ArrayVec<i64, MAX_EMITS>>,
}

/// What calls did to a tree, as somebody reports it: the tree before them, the procedures by number, the requests and
/// replies, the events in order, and the records in the end.
///
/// By its type a trail has accepted procedures, at most 4,096 calls with as many arguments as their procedures take, at
/// most 1,048,576 events of these calls and of nodes of the tree, and a record in the end for each node. Nothing else holds
/// for every trail: an auditor says whether the calls may have done this.
#[derive(Debug, Drop)]
pub struct Trail {
    opening: Tree,
    procedures: Procedures,
    calls: Vec<TrailCall>,
    history: History,
    ends: Vec<Record>,
}

impl Model for Trail {
    ghost use Rattle.std.specs.Prelude.{map};
    ghost use Rattle.tl_trail.specs.Trails.{TrailValue, IsTrail, call_value};

    ghost Value = { TrailValue };

    ghost view = { λ t. record { parents = t.opening.parents; opening = t.opening.records; procedures = t.procedures; calls = map call_value t.calls.items; past = t.history.past; ends = t.ends.items } };

    ghost invariant = { λ t. IsTrail (record { parents = t.opening.parents; opening = t.opening.records; procedures = t.procedures; calls = map call_value t.calls.items; past = t.history.past; ends = t.ends.items }) };
}

impl Trail {
    /// The trail of these parts.
    pub fn new(
        opening: Tree,
        procedures: Procedures,
        calls: Vec<TrailCall>,
        history: History,
        ends: Vec<Record>,
    ) -> Trail
        requires { IsTrail (record { parents = opening.parents; opening = opening.records; procedures = procedures; calls = map call_value calls.items; past = history.past; ends = ends.items }) }
        ensures { result ≡ record { parents = opening.parents; opening = opening.records; procedures = procedures; calls = map call_value calls.items; past = history.past; ends = ends.items } }
    {
        Trail {
            opening,
            procedures,
            calls,
            history,
            ends,
        }
    }

    /// The tree as it was before any call.
    pub fn opening(&self) -> &Tree
        ensures tree { result.now ≡ record { parents = self.now.parents; records = self.now.opening } }
        ensures trail { IsTrail self.now }
    {
        &self.opening
    }

    /// The procedures, by number.
    pub fn procedures(&self) -> &Procedures
        ensures { result.now ≡ self.now.procedures }
    {
        &self.procedures
    }

    /// How many calls there are. They are numbered from 0.
    pub fn calls(&self) -> usize
        ensures count { result ≡ length self.now.calls }
        ensures few { result ≤ MAX_CALLS }
    {
        self.calls.len()
    }

    /// The request for a call: the number of its procedure, and its arguments.
    pub fn request(&self, call: u32) -> (u32, &[i64])
        requires { call < length self.now.calls }
        ensures procedure { result.0 ≡ (call_at self.now call).procedure }
        ensures args { result.1.now ≡ (call_at self.now call).args }
        ensures trail { IsTrail self.now }
    {
        let current = &self.calls[call as usize];
        (current.procedure, &current.args)
    }

    /// The reply that the trail records for the call, if any.
    pub fn reply(&self, call: u32) -> Option<&[i64]>
        requires { call < length self.now.calls }
        ensures reply { option_copied result ≡ (call_at self.now call).reply }
        ensures few { IfSome (option_copied result) (λ values. length values ≤ MAX_EMITS) }
    {
        match &self.calls[call as usize].reply {
            Some(reply) => Some(reply.as_slice()),
            None => None,
        }
    }

    /// The events, as a history.
    pub fn history(&self) -> &History
        ensures past { result.now.past ≡ self.now.past }
        ensures trail { IsTrail self.now }
    {
        &self.history
    }

    /// The events, the earliest first. They are numbered from 0.
    pub fn events(&self) -> &[Event]
        ensures { result.now ≡ reverse self.now.past }
    {
        self.history.events()
    }

    /// The records in the end; the first is node 0's.
    pub fn ends(&self) -> &[Record]
        ensures records { result.now ≡ self.now.ends }
        ensures size { length self.now.ends ≡ length self.now.parents }
    {
        &self.ends
    }
}
