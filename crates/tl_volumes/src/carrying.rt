// What a volume leaves, as the first contents of the next.

ghost use Rattle.std.specs.Prelude.{◌≡◌, ◌⊎◌, ◌≤◌, map, false, IfOk, OnOk};
ghost use Rattle.sqlite_trees.specs.Tree.{Trees};
ghost use Rattle.sqlite_trees.specs.View.{IsClean, IsQuiet, doubt};
ghost use Rattle.tl_ledger.specs.Contents.{Contents, Holds, IsAtRest, no_contents};
ghost use Rattle.tl_ledger.specs.News.{after_founding, IsMarked};
ghost use Rattle.tl_ledger.specs.declared.founding.Founding.{Founding};
ghost use Rattle.tl_rows.specs.Rows.{procedure_form, named_form};
ghost use Rattle.tl_store.specs.Left.{HasLeft};
ghost use Rattle.tl_volumes.specs.Volumes.{IsOpening, Carries};

use sqlite_trees::store::Store;
use sqlite_value::row::Row;
use std::alloc::{AllocError, Global};
use tl_ledger::{Founding, Ledger, Marks, ProcedureRow, found};
use tl_procedures::Procedures;
use tl_rows::{node_rows, procedure_row, record_rows};
use tl_store::{StoreFault, check_left};
use tl_tree::Tree;

// The rows of procedures, in their order.
#[tactic(auto, using(std::proofs::lemmas::List::take_all))]
fn procedure_rows(alloc: Global, procedures: &Procedures) -> Result<Vec<ProcedureRow>, AllocError>
    ensures { IfOk result (λ v. map procedure_form v.items ≡ map named_form procedures.now) }
{
    let mut rows = Vec::new(alloc);
    for number in 0..procedures.len() as u32 {
        rows.push(procedure_row(alloc, procedures.name(number), procedures.get(number))?)?;
    }
    Ok(rows)
}

/// The first contents of a volume that begins with this tree and these procedures.
pub fn opening_rows(
    alloc: Global,
    tree: &Tree,
    procedures: &Procedures,
) -> Result<Founding, AllocError>
    ensures { IfOk result (λ first. IsOpening tree.now procedures.now first) }
{
    Ok(Founding {
        nodes: node_rows(alloc, tree.shape(), 0)?,
        records: record_rows(alloc, tree.records())?,
        procedures: procedure_rows(alloc, procedures)?,
    })
}

// Writes these first contents into a store without rows.
fn begin<T: Store>(alloc: Global, next: &mut T, first: &Founding) -> Result<Marks, StoreFault>
    requires next { IsClean (T.Store.view next.old) → IsAtRest (T.Store.view next.old) }
    ensures begun { IfOk result (λ marks. IsClean (T.Store.view next.new) → Holds (T.Store.view next.old).committed no_contents
        → IsMarked (after_founding no_contents first.now) marks × Holds (T.Store.view next.new).committed (after_founding no_contents first.now)) }
    ensures crash { IsClean (T.Store.view next.new) → Holds (T.Store.view next.old).committed no_contents → (db : Trees) → T.Store.recovers next.new db
        → Holds db no_contents ⊎ Holds db (after_founding no_contents first.now) }
    ensures rest { OnOk result (IsClean (T.Store.view next.new) → IsAtRest (T.Store.view next.new)) }
    ensures clean { doubt (T.Store.view next.old).is_clean ≤ doubt (T.Store.view next.new).is_clean }
{
    if first.records.len() != first.nodes.len() {
        return Err(StoreFault::Other);
    }
    match found(next, &mut Row::new(alloc), first) {
        Ok(marks) => Ok(marks),
        Err(name) => Err(StoreFault::of_disk(name)),
    }
}

/// Why a store goes on in no next volume.
#[derive(Clone, Copy, Debug, PartialEq, Eq)]
pub enum CarryFault {
    /// The last volume can't be read, or hasn't what was left (1014). It stores nothing more.
    Last(StoreFault),
    /// The next one can't be written. The store goes on in the last one.
    Next(StoreFault),
}

// Checks that a ledger has what was left. If it hasn't, or can't be read, it is shut.
fn check_ledger<S: Store>(
    alloc: Global,
    last: &mut Ledger<S>,
    tree: &Tree,
    procedures: &Procedures,
) -> Result<(), StoreFault>
    requires { last.old.is_shut ≡ false }
    ensures left { OnOk result (IsClean (S.Store.view last.new.store) → (c : Contents) → Holds (S.Store.view last.old.store).committed c → HasLeft c tree.now procedures.now) }
    ensures open { OnOk result (last.new.is_shut ≡ false) }
    ensures stored { OnOk result (IsClean (S.Store.view last.new.store) → (S.Store.view last.new.store).committed ≡ (S.Store.view last.old.store).committed) }
    ensures marks { last.new.marks ≡ last.old.marks }
    ensures quiet { IsQuiet S.Store.view S.Store.faults S.Store.recovers S.Store.is_shielded last.old.store last.new.store }
{
    last.is_shut = true;
    check_left(alloc, &mut last.store, tree, procedures)?;
    last.is_shut = false;
    Ok(())
}

/// Begins the next volume of a store, which has no rows yet, with what the last one left: this tree and these procedures, if the last one has them and all its
/// calls are sealed; 1014 if not. The last one is only read. A crash at any moment leaves the next one without rows, or with all of its first
/// contents; so which volume a store goes on in is seen by whether it has rows. After an error use the next one no more.
pub fn carry_over<S: Store, T: Store>(
    alloc: Global,
    last: &mut Ledger<S>,
    next: &mut T,
    tree: &Tree,
    procedures: &Procedures,
) -> Result<Marks, CarryFault>
    requires last { last.old.is_shut ≡ false }
    requires next { IsClean (T.Store.view next.old) → IsAtRest (T.Store.view next.old) }
    ensures carried { IfOk result (λ marks. IsClean (S.Store.view last.new.store) → IsClean (T.Store.view next.new) → (c : Contents)
        → Holds (S.Store.view last.old.store).committed c → Holds (T.Store.view next.old).committed no_contents
        → (first : Founding) × Carries c first × IsMarked (after_founding no_contents first) marks × Holds (T.Store.view next.new).committed (after_founding no_contents first)) }
    ensures crash { IsClean (S.Store.view last.new.store) → IsClean (T.Store.view next.new) → (c : Contents) → Holds (S.Store.view last.old.store).committed c
        → Holds (T.Store.view next.old).committed no_contents → (db : Trees) → T.Store.recovers next.new db
        → Holds db no_contents ⊎ ((first : Founding) × Carries c first × Holds db (after_founding no_contents first)) }
    ensures rest { OnOk result (IsClean (T.Store.view next.new) → IsAtRest (T.Store.view next.new)) }
    ensures stored { OnOk result (IsClean (S.Store.view last.new.store) → (S.Store.view last.new.store).committed ≡ (S.Store.view last.old.store).committed) }
    ensures marks { last.new.marks ≡ last.old.marks }
    ensures quiet { IsQuiet S.Store.view S.Store.faults S.Store.recovers S.Store.is_shielded last.old.store last.new.store }
    ensures clean { doubt (T.Store.view next.old).is_clean ≤ doubt (T.Store.view next.new).is_clean }
{
    let Ok(first) = opening_rows(alloc, tree, procedures) else {
        return Err(CarryFault::Next(StoreFault::Memory));
    };
    if let Err(fault) = check_ledger(alloc, last, tree, procedures) {
        return Err(CarryFault::Last(fault));
    }
    match begin(alloc, next, &first) {
        Ok(marks) => Ok(marks),
        Err(fault) => Err(CarryFault::Next(fault)),
    }
}
