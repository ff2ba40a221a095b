// What generations lead to.

ghost use Rattle.std.specs.Prelude.{◌≡◌, ◌≢◌, ◌≤◌, ◌+◌, ℕ, List, length, map, unsigned_abs, true, false, Ok, IfOk, OnOk, IfErr, OnErr};
ghost use Rattle.tl_table.specs.Tables.{IsChain};
ghost use Rattle.tl_procedures.specs.Names.{AreKnown};
ghost use Rattle.tl_procedures.specs.declared.fault.ReplacingFault.TheVariants as replacing;
ghost use Rattle.tl_generations.specs.Generations.{SuccessionValue, IsGrown, IsReplaced, TakesUpFirst, TakesTurn, IsSuccession};
ghost use Rattle.tl_generations.specs.Growth.{CanGrow, IsGrowthFault};
ghost use Rattle.tl_generations.specs.declared.growth.GrowthFault.TheVariants as growth;

use crate::growth::GrowthFault;
use crate::legacy::Legacy;
use std::alloc::{AllocError, Global};
use std::marker::Model;
use tl_core::Core;
use tl_procedures::{Procedures, ReplacingFault};
use tl_table::Closed;

/// What the first table began with, and what the last closed table left, with the nodes that were appended and the procedures that were
/// replaced since.
///
/// The type guarantees that closed tables lead from the one to the other, each of which took up what the one before it left, with the
/// nodes that were appended and the procedures that were replaced then.
#[derive(Debug, Drop)]
pub struct Succession {
    first: Legacy,
    last: Legacy,
}

impl Model for Succession {
    ghost use Rattle.tl_generations.specs.Generations.{SuccessionValue, IsSuccession};

    ghost Value = { SuccessionValue };

    ghost view = { λ s. record { first = s.first; last = s.last } };

    ghost invariant = { λ s. IsSuccession s.first s.last };
}

impl Succession {
    /// Before any table was closed: what the calls of this core begin with.
    pub fn new(alloc: Global, core: &Core) -> Result<Succession, AllocError>
        ensures first { IfOk result (λ s. s.first ≡ record { parents = core.now.seen.parents; records = core.now.seen.opening; procedures = core.now.seen.procedures }) }
        ensures last { IfOk result (λ s. s.last ≡ s.first) }
    {
        let first = Legacy::before(alloc, core)?;
        let last = Legacy::before(alloc, core)?;
        Ok(Succession { first, last })
    }

    /// What the last closed table left, with the nodes that were appended and the procedures that were replaced since.
    pub fn last(&self) -> &Legacy
        ensures same { result.now ≡ self.now.last }
        ensures reached { IsSuccession self.now.first self.now.last }
    {
        &self.last
    }

    /// Takes these epochs as those of the next generation. False, with nothing changed, if they didn't take up what the last one left.
    pub fn take(&mut self, alloc: Global, chain: &[Closed]) -> Result<bool, AllocError>
        requires { IsChain chain.now }
        ensures taken { result ≡ Ok true → TakesTurn self.old chain.now self.new }
        ensures other { result ≡ Ok false → (TakesUpFirst self.old.last chain.now → ⊥) × (self.new ≡ self.old) }
        ensures err { OnErr result (self.new ≡ self.old) }
    {
        if !self.last.is_taken_up(chain) {
            return Ok(false);
        }
        let last = Legacy::after(alloc, chain)?;
        self.last = last;
        Ok(true)
    }

    /// Whether nodes of these parents can be appended to the tree that the next table has to begin with, which has at most `limit` nodes
    /// then. The faults are those of `grow`, but 190.
    pub fn check_growth(&self, parents: &[i64], limit: u32) -> Result<(), GrowthFault>
        ensures ok { OnOk result (CanGrow self.now.last.parents parents.now (map unsigned_abs parents.now)) }
        ensures few { OnOk result (length self.now.last.parents + length parents.now ≤ limit) }
        ensures fault { IfErr result (λ e. IsGrowthFault limit (length self.now.last.parents) parents.now e) }
        ensures known { IfErr result (λ e. e ≢ growth.Memory) }
    {
        self.last.check_growth(parents, limit)
    }

    /// Appends nodes of these parents to the tree that the next table has to begin with, with zeros as their records. The number of
    /// the first new node. There are at most `limit` nodes then. The faults are those of `Legacy::grow`, after which nothing has changed.
    pub fn grow(&mut self, alloc: Global, parents: &[i64], limit: u32) -> Result<u32, GrowthFault>
        ensures grown { IfOk result (λ first. IsGrown self.old.last parents.now first self.new.last) }
        ensures few { OnOk result (length self.new.last.parents ≤ limit) }
        ensures fault { IfErr result (λ e. IsGrowthFault limit (length self.old.last.parents) parents.now e) }
        ensures taken { (added : List ℕ) → CanGrow self.old.last.parents parents.now added → length self.old.last.parents + length parents.now ≤ limit
            → IfErr result (λ e. e ≡ growth.Memory) }
        ensures first { self.new.first ≡ self.old.first }
        ensures err { OnErr result (self.new ≡ self.old) }
    {
        self.last.grow(alloc, parents, limit)
    }

    /// Puts the code of each of `others` in the place of the procedure with its name, for the next table. The faults are those of
    /// `Legacy::replace`, after which nothing has changed.
    pub fn replace(&mut self, alloc: Global, others: &Procedures) -> Result<(), ReplacingFault>
        ensures replaced { OnOk result (IsReplaced self.old.last others.now self.new.last) }
        ensures fault { IfErr result (λ e. e ≡ replacing.NoProcedure → AreKnown self.old.last.procedures others.now → ⊥) }
        ensures memory { IfErr result (λ e. e ≡ replacing.Memory → AreKnown self.old.last.procedures others.now) }
        ensures first { self.new.first ≡ self.old.first }
        ensures err { OnErr result (self.new ≡ self.old) }
    {
        self.last.replace(alloc, others)
    }
}
