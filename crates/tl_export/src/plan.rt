// What is read of a store before its epochs are taken again.

ghost use Rattle.std.specs.Prelude.{◌≡◌, IfOk, IfErr, OnOk};
ghost use Rattle.sqlite_trees.specs.View.{IsClean, IsQuiet, KeepsSchema};
ghost use Rattle.tl_ledger.specs.Contents.{OnlyReads, Contents, Holds, AreTables};
ghost use Rattle.tl_export.specs.Faults.{IsDiskOrMemory};
ghost use Rattle.tl_export.specs.Plans.{IsPlanOf, CanBeExported};

use crate::fault::ExportFault;
use sqlite_trees::store::Store;
use std::alloc::Global;
use tl_ledger::{
    Marks, NODE, NodeRow, OPENING, RECORD, RecordRow, SEAL, SealRow, marks_of, read_all,
};

/// A store's counts, nodes and seals, and the records at both ends of what is sealed.
#[derive(Debug, Drop)]
pub struct Plan {
    pub marks: Marks,
    pub nodes: Vec<NodeRow>,
    pub seals: Vec<SealRow>,
    /// The records before any call. Nodes that came later have none.
    pub opening: Vec<RecordRow>,
    /// The records at the last seal.
    pub records: Vec<RecordRow>,
}

/// Reads a store's counts, nodes and seals, and its records at the opening and at the last seal. 1003 and the table if a row has another form; 1011 to
/// 1013 of the disk; 1090 if memory is refused. Where all tables can be read there is no 1003.
pub fn read_plan<S: Store>(alloc: Global, store: &mut S) -> Result<Plan, ExportFault>
    requires { IsClean (S.Store.view store.old) → AreTables (S.Store.view store.old) }
    ensures plan { IfOk result (λ p. IsClean (S.Store.view store.new) → (c : Contents) → Holds (S.Store.view store.old).trees c → IsPlanOf c p) }
    ensures again { IfErr result (λ e. IsClean (S.Store.view store.new) → (c : Contents) → Holds (S.Store.view store.old).trees c → CanBeExported c
        → IsDiskOrMemory e) }
    ensures reads { OnOk result (IsClean (S.Store.view store.new) → OnlyReads (S.Store.view store.old) (S.Store.view store.new)) }
    ensures schema { KeepsSchema (S.Store.view store.old) (S.Store.view store.new) }
    ensures quiet { IsQuiet S.Store.view S.Store.faults S.Store.recovers S.Store.is_shielded store.old store.new }
{
    Ok(Plan {
        marks: marks_of(alloc, store)?,
        nodes: read_all(alloc, store, NODE)?,
        seals: read_all(alloc, store, SEAL)?,
        opening: read_all(alloc, store, OPENING)?,
        records: read_all(alloc, store, RECORD)?,
    })
}
