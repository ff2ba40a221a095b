// Who closes an engine and opens the next.

ghost use Rattle.std.specs.Prelude.{◌≡◌, ℕ, List, true, IfErr, IfSome, OnOk};
ghost use Rattle.tl_generations.specs.Generations.{LegacyValue, IsReplaced};
ghost use Rattle.tl_generations.specs.Growth.{IsGrowthFault};
ghost use Rattle.tl_procedures.specs.Names.{Named, AreKnown};
ghost use Rattle.tl_procedures.specs.declared.fault.ReplacingFault.TheVariants as replacing;
ghost use Rattle.tl_server.specs.Served.{GrowthOutcome};

use std::alloc::Global;
use tl_generations::{GrowthFault, Legacy};
use tl_procedures::{Procedures, ReplacingFault};
use tl_workers::{Engine, Session};

/// Who closes an engine, keeps what it did, and opens the next.
pub trait Keeper {
    // An engine was closed, and what it did isn't kept yet.
    ghost has_closed: { Self → Type 0 };

    /// Closes an engine that is at rest, with all its sessions. No line is answered meanwhile. It takes no memory, so that what the
    /// engine did isn't lost where memory is refused.
    fn close(&mut self, engine: Engine, sessions: Vec<Session>);

    /// An engine on what the one that was closed last left, with the nodes that were appended and the procedures that were replaced since,
    /// which seals its epochs by itself. No line is answered meanwhile. `None` if memory is refused, or if the engine before didn't close; the
    /// next line asks again.
    fn open(&mut self, alloc: Global) -> Option<Engine>
        ensures closed { IfSome result (λ _. has_closed self.new) }
        ensures seals { IfSome result (λ e. e.seals ≡ true) };

    /// What the engine that was closed last left. `None` if memory is refused, or if the engine didn't close.
    fn left(&mut self, alloc: Global) -> Option<&Legacy>;

    /// How many nodes the tree has on which it opened an engine last, or from which the first engine began.
    fn nodes(&self) -> u32;

    /// Whether nodes of these parents can be appended to the tree of the engine that is at work. The first fault: 102, then 104.
    fn check_growth(&self, parents: &[i64]) -> Result<(), GrowthFault>
        ensures { IfErr result (λ e. (limit count : ℕ) × IsGrowthFault limit count parents.now e) };

    /// Appends nodes of these parents to the tree that the engine that was closed last left, with zeros as their records. The number of
    /// the first. No line is answered meanwhile. 190 if memory is refused, or if the engine didn't close.
    fn grow(&mut self, alloc: Global, parents: &[i64]) -> Result<u32, GrowthFault>
        ensures { GrowthOutcome parents.now result };

    /// Puts the code of each of the others in the place of the procedure with its name, among those that the engine that was closed last left.
    /// No line is answered meanwhile. 601 if there is no procedure of one of the names; 690 if memory is refused, or if the engine didn't
    /// close.
    fn replace(&mut self, alloc: Global, others: &Procedures) -> Result<(), ReplacingFault>
        ensures replaced { OnOk result ((old : LegacyValue) × (new : LegacyValue) × IsReplaced old others.now new) }
        ensures unknown { IfErr result (λ e. e ≡ replacing.NoProcedure → (before : List Named) × (AreKnown before others.now → ⊥)) };

    /// Keeps what the closed engine did. Lines are answered meanwhile.
    fn keep(&mut self, alloc: Global)
        requires { has_closed self.old };
}
