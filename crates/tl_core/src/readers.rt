// What can be read from a core.

ghost use Rattle.std.specs.Prelude.{◌≡◌, ℕ, ◌<◌, ◌≤◌, ◌↔◌, length, true, IsNone, IfSome, None, Some, option_copied, if◌then◌else◌};
ghost use Rattle.std.specs.Arc.{arc_value};
ghost use Rattle.tl_tree_locking.specs.Actions.{held};
ghost use Rattle.tl_tree_locking.specs.History.{part_of, admits, is_done, AllDone, record_now, records_now};
ghost use Rattle.tl_tree_locking.specs.Holders.{holder_of};
ghost use Rattle.tl_tree_locking.specs.World.{reply_of};
ghost use Rattle.tl_core.specs.Cores.{world_of, call_of, owed, open_calls, IsLeastUnfinished};
ghost use Rattle.tl_core.specs.Entries.{procedure_at};

use crate::interleaving::{Core, MAX_OPEN};
use std::sync::Arc;
use tl_history::{History, MAX_CALLS};
use tl_instr::MAX_ARGS;
use tl_machine::Reply;
use tl_procedures::Procedures;
use tl_tree::{Record, Tree};
use tl_verify::Proc;

impl Core {
    /// The tree as it was before any call.
    pub fn opening(&self) -> &Tree
        ensures { result.now ≡ record { parents = self.now.seen.parents; records = self.now.seen.opening } }
    {
        &self.opening
    }

    /// The current tree: each record is the one that a call left last, or the opening one. What a call has written to a
    /// node that it holds shows here only after it frees the node.
    pub fn tree(&self) -> &Tree
        ensures { result.now ≡ record { parents = self.now.seen.parents; records = records_now self.now.seen.past self.now.seen.opening } }
    {
        &self.latest
    }

    /// The current record of a node.
    pub fn record_at(&self, node: u32) -> Record
        requires { node < length self.now.seen.parents }
        ensures { result ≡ record_now self.now.seen.past self.now.seen.opening node }
    {
        self.latest.record_at(node)
    }

    /// The call that holds the node: it has locked it, and hasn't freed it since.
    pub fn holder(&self, node: u32) -> Option<u32>
        requires { node < length self.now.seen.parents }
        ensures named { result ≡ holder_of self.now.seen.past node }
        ensures holds { (c : ℕ) → (result ≡ Some c) ↔ (held (part_of c self.now.seen.past) node ≡ true) }
    {
        self.holders[node as usize]
    }

    /// What the calls have done to the tree, and the places for what they may still do.
    pub fn history(&self) -> &History
        ensures past { result.now.past ≡ self.now.seen.past }
        ensures limit { result.now.limit ≡ self.now.seen.limit }
        ensures reserved { result.now.reserved ≡ owed self.now.seen }
    {
        &self.history
    }

    /// The procedures, by number.
    pub fn procedures(&self) -> &Procedures
        ensures { result.now ≡ self.now.seen.procedures }
    {
        &self.procedures
    }

    /// How many procedures there are. They are numbered from 0.
    pub fn procs(&self) -> usize
        ensures { result ≡ length self.now.seen.procedures }
    {
        self.procedures.len()
    }

    /// The procedure of that number.
    pub fn proc(&self, number: u32) -> &Arc<Proc>
        requires { number < length self.now.seen.procedures }
        ensures { arc_value result.now ≡ (procedure_at self.now.seen number).code }
    {
        self.procedures.get(number)
    }

    /// The name of the procedure of that number.
    pub fn name(&self, number: u32) -> &str
        requires { number < length self.now.seen.procedures }
        ensures { result.now ≡ (procedure_at self.now.seen number).name }
    {
        self.procedures.name(number)
    }

    /// How many calls were admitted. They are numbered from 0.
    pub fn calls(&self) -> usize
        ensures count { result ≡ length self.now.seen.calls }
        ensures admitted { result ≡ admits self.now.seen.past }
        ensures few { result ≤ MAX_CALLS }
        ensures few_open { open_calls self.now.seen ≤ MAX_OPEN }
    {
        self.calls.len()
    }

    /// The least call that isn't done.
    pub fn least_unfinished(&self) -> Option<u32>
        ensures some { IfSome result (λ c. IsLeastUnfinished self.now.seen.past c) }
        ensures none { IsNone result ↔ AllDone self.now.seen.past }
    {
        for call in 0..self.calls() as u32 {
            if self.reply(call).is_none() {
                return Some(call);
            }
        }
        None
    }

    /// The request of a call: the number of its procedure, and its arguments.
    pub fn request(&self, call: u32) -> (u32, &[i64])
        requires { call < length self.now.seen.calls }
        ensures procedure { result.0 ≡ (call_of self.now.seen call).procedure }
        ensures args { result.1.now ≡ (call_of self.now.seen call).args }
        ensures known { result.0 < length self.now.seen.procedures }
        ensures code { (procedure_at self.now.seen result.0).code ≡ (call_of self.now.seen call).code }
        ensures arity { length result.1.now ≡ (call_of self.now.seen call).code.arity }
        ensures few { length result.1.now ≤ MAX_ARGS }
    {
        let current = &self.calls[call as usize];
        (current.procedure, &current.args)
    }

    /// The reply of a call, once it is done.
    pub fn reply(&self, call: u32) -> Option<&Reply>
        requires { call < length self.now.seen.calls }
        ensures { option_copied result ≡ (if is_done call self.now.seen.past then Some (reply_of (world_of self.now.seen) call) else None) }
    {
        self.calls[call as usize].reply()
    }
}
