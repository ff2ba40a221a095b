// What a closed table leaves to the next.

ghost use Rattle.std.specs.Prelude.{◌≡◌, ◌≢◌, ◌↔◌, ◌≤◌, ◌+◌, ℕ, List, [], length, map, unsigned_abs, IsTrue, IfOk, OnOk, IfErr, OnErr};
ghost use Rattle.tl_history.specs.declared.history.TheConstants.{MAX_EVENTS};
ghost use Rattle.tl_table.specs.Tables.{IsChain};
ghost use Rattle.tl_procedures.specs.Names.{AreKnown};
ghost use Rattle.tl_procedures.specs.declared.fault.ReplacingFault.TheVariants as replacing;
ghost use Rattle.tl_generations.specs.Generations.{LegacyValue, IsGrown, IsReplaced, TakesUp, TakesUpFirst, legacy_after};
ghost use Rattle.tl_generations.specs.Growth.{CanGrow, IsGrowthFault};
ghost use Rattle.tl_generations.specs.declared.growth.GrowthFault.TheVariants as growth;

use crate::growth::{GrowthFault, check_growth, grown_tree};
use std::alloc::{AllocError, Global};
use std::marker::Model;
use tl_core::{Core, CoreFault};
use tl_history::MAX_EVENTS;
use tl_procedures::{Procedures, ReplacingFault};
use tl_table::Closed;
use tl_tree::{Record, Tree};

/// A tree, and procedures: what a table begins with, and what a closed one leaves to the next.
#[derive(Debug, Drop)]
pub struct Legacy {
    tree: Tree,
    procedures: Procedures,
}

impl Model for Legacy {
    ghost use Rattle.tl_generations.specs.Generations.{LegacyValue};

    ghost Value = { LegacyValue };

    ghost view = { λ l. record { parents = l.tree.parents; records = l.tree.records; procedures = l.procedures } };
}

impl Legacy {
    /// What the calls of this core begin with.
    pub fn before(alloc: Global, core: &Core) -> Result<Legacy, AllocError>
        ensures { IfOk result (λ l. l ≡ record { parents = core.now.seen.parents; records = core.now.seen.opening; procedures = core.now.seen.procedures }) }
    {
        let Ok(tree) = core.opening().copy(alloc) else {
            return Err(AllocError);
        };
        let procedures = core.procedures().copy(alloc)?;
        Ok(Legacy { tree, procedures })
    }

    /// What these epochs leave, the first of which took up a legacy.
    pub fn after(alloc: Global, chain: &[Closed]) -> Result<Legacy, AllocError>
        requires { IsChain chain.now }
        ensures { IfOk result (λ l. (before : LegacyValue) → TakesUpFirst before chain.now → l ≡ legacy_after before chain.now) }
    {
        let Some(last) = chain.last() else {
            // There is at least one epoch.
            unreachable!()
        };
        let core = last.core();
        let Ok(tree) = core.tree().copy(alloc) else {
            return Err(AllocError);
        };
        let procedures = core.procedures().copy(alloc)?;
        Ok(Legacy { tree, procedures })
    }

    /// Whether the first of these epochs opens with this tree, and has these procedures first.
    pub fn is_taken_up(&self, chain: &[Closed]) -> bool
        requires { IsChain chain.now }
        ensures { IsTrue result ↔ TakesUpFirst self.now chain.now }
    {
        let Some(first) = chain.first() else {
            // There is at least one epoch.
            unreachable!()
        };
        self.is_taken_up_by(first)
    }

    // Whether the epoch opens with this tree, and has these procedures first.
    fn is_taken_up_by(&self, first: &Closed) -> bool
        ensures { IsTrue result ↔ TakesUp self.now first.now }
    {
        let core = first.core();
        if !core.opening().shape().is(self.tree.shape()) {
            return false;
        }
        if !are_same(core.opening().records(), self.tree.records()) {
            return false;
        }
        core.procedures().begin_with(&self.procedures)
    }

    /// The tree.
    pub fn tree(&self) -> &Tree
        ensures { (result.now.parents ≡ self.now.parents) × (result.now.records ≡ self.now.records) }
    {
        &self.tree
    }

    /// The procedures.
    pub fn procedures(&self) -> &Procedures
        ensures { result.now ≡ self.now.procedures }
    {
        &self.procedures
    }

    /// Whether nodes of these parents can be appended to the tree, which has at most `limit` nodes then. The faults are those of
    /// `grow`, but 190.
    pub fn check_growth(&self, parents: &[i64], limit: u32) -> Result<(), GrowthFault>
        ensures ok { OnOk result (CanGrow self.now.parents parents.now (map unsigned_abs parents.now)) }
        ensures few { OnOk result (length self.now.parents + length parents.now ≤ limit) }
        ensures fault { IfErr result (λ e. IsGrowthFault limit (length self.now.parents) parents.now e) }
        ensures known { IfErr result (λ e. e ≢ growth.Memory) }
    {
        check_growth(self.tree.shape(), parents, limit)
    }

    /// Appends nodes of these parents to the tree, with zeros as their records; the procedures stay. The number of the first new node,
    /// after which the others are numbered. Each parent must be a node with a lower number than its own, and may be a new one.
    ///
    /// The first fault: 102 if there would be more than `limit` nodes, then 104 at the first parent that isn't such a node. 190 if memory
    /// is refused. After a fault nothing has changed.
    pub fn grow(&mut self, alloc: Global, parents: &[i64], limit: u32) -> Result<u32, GrowthFault>
        ensures grown { IfOk result (λ first. IsGrown self.old parents.now first self.new) }
        ensures few { OnOk result (length self.new.parents ≤ limit) }
        ensures fault { IfErr result (λ e. IsGrowthFault limit (length self.old.parents) parents.now e) }
        ensures taken { (added : List ℕ) → CanGrow self.old.parents parents.now added → length self.old.parents + length parents.now ≤ limit
            → IfErr result (λ e. e ≡ growth.Memory) }
        ensures err { OnErr result (self.new ≡ self.old) }
    {
        let first = self.tree.shape().node_count();
        let tree = grown_tree(alloc, &self.tree, parents, limit)?;
        self.tree = tree;
        Ok(first)
    }

    /// Puts the code of each of `others` in the place of the procedure with its name, in their order; the tree stays. 601 if there is no
    /// procedure of one of the names; 690 if memory is refused. After a fault nothing has changed.
    pub fn replace(&mut self, alloc: Global, others: &Procedures) -> Result<(), ReplacingFault>
        ensures replaced { OnOk result (IsReplaced self.old others.now self.new) }
        ensures fault { IfErr result (λ e. e ≡ replacing.NoProcedure → AreKnown self.old.procedures others.now → ⊥) }
        ensures memory { IfErr result (λ e. e ≡ replacing.Memory → AreKnown self.old.procedures others.now) }
        ensures err { OnErr result (self.new ≡ self.old) }
    {
        self.procedures.replace_all(alloc, others)
    }

    /// A core that takes this up, for up to 1,048,576 events. 690 if memory is refused.
    pub fn open(&self, alloc: Global) -> Result<Core, CoreFault>
        ensures parents { IfOk result (λ core. core.seen.parents ≡ self.now.parents) }
        ensures opening { IfOk result (λ core. core.seen.opening ≡ self.now.records) }
        ensures procedures { IfOk result (λ core. core.seen.procedures ≡ self.now.procedures) }
        ensures calls { IfOk result (λ core. core.seen.calls ≡ []) }
        ensures limit { IfOk result (λ core. core.seen.limit ≡ MAX_EVENTS) }
        ensures err { IfErr result (λ e. e ≡ CoreFault.Memory) }
    {
        let Ok(tree) = self.tree.copy(alloc) else {
            return Err(CoreFault::Memory);
        };
        let procedures = self.procedures.copy(alloc)?;
        Core::with_procedures(alloc, tree, procedures, MAX_EVENTS)
    }
}

// Whether the records are the same.
fn are_same(records: &[Record], others: &[Record]) -> bool
    ensures { IsTrue result ↔ (records.now ≡ others.now) }
{
    records == others
}
