// The trails of a store, in files.

ghost use Rattle.std.specs.Prelude.{[], List, ◌⊎◌, IfOk, IfErr};
ghost use Rattle.sqlite_trees.specs.View.{IsClean, IsQuiet, KeepsSchema};
ghost use Rattle.tl_core.specs.Cores.{CoreValue};
ghost use Rattle.tl_core.specs.Reached.{IsReached};
ghost use Rattle.tl_export.specs.Faults.{IsDiskOrMemory};
ghost use Rattle.tl_file_export.specs.Filed.{HasExported};
ghost use Rattle.tl_ledger.specs.Contents.{Contents, Holds, AreTables};
ghost use Rattle.tl_store_history.specs.History.{PastEpoch, HasHistory, IsOfSize};
ghost use Rattle.tl_tree.specs.Trees.{TreeValue};

use crate::files::TrailFiles;
use crate::splitting::Splitting;
use sqlite_trees::store::Store;
use std::alloc::Global;
use tl_export::{ExportFault, export};

/// Takes the epochs of a store again, and puts their trails into files, in order. Each file is a chain that an auditor finds clean and that continues
/// the one before; a new file begins where nodes were appended or procedures replaced, or after 256 trails. Faults as of `export`; the trails before a fault were put into
/// files. Where the store has a history, nothing but the disk, memory and the files can fail.
pub fn export_files<S: Store, F: TrailFiles + Drop>(
    alloc: Global,
    store: &mut S,
    files: F,
) -> Result<F, ExportFault>
    requires tables { IsClean (S.Store.view store.old) → AreTables (S.Store.view store.old) }
    requires none { F.files files [] }
    ensures trails { IfOk result (λ kept. HasExported (F.files kept) (IsClean (S.Store.view store.new)) (Holds (S.Store.view store.old).trees)) }
    ensures again { IfErr result (λ e. IsClean (S.Store.view store.new) → (c : Contents) (t : TreeValue) (es : List PastEpoch) (v : CoreValue)
        → Holds (S.Store.view store.old).trees c
        → HasHistory c t es v → IsReached v → IsOfSize c t v → IsDiskOrMemory e ⊎ F.refuses e) }
    ensures schema { KeepsSchema (S.Store.view store.old) (S.Store.view store.new) }
    ensures quiet { IsQuiet S.Store.view S.Store.faults S.Store.recovers S.Store.is_shielded store.old store.new }
{
    let mut splitting = Splitting::new(files);
    export(alloc, store, &mut splitting)?;
    let mut kept = splitting.kept;
    kept.end(alloc)?;
    Ok(kept)
}
