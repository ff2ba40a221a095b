// The epochs of a store in a file.

ghost use Rattle.std.specs.Prelude.{[], List, ◌⊎◌, IfOk, IfErr};
ghost use Rattle.sqlite_store.specs.FileStore.{view};
ghost use Rattle.sqlite_trees.specs.View.{IsClean};
ghost use Rattle.tl_core.specs.Cores.{CoreValue};
ghost use Rattle.tl_core.specs.Reached.{IsReached};
ghost use Rattle.tl_export.specs.Faults.{IsDiskOrMemory};
ghost use Rattle.tl_file_export.specs.Filed.{HasExported};
ghost use Rattle.tl_store_history.specs.History.{PastEpoch, HasHistory, IsOfSize};
ghost use Rattle.tl_tree.specs.Trees.{TreeValue};
ghost use Rattle.tl_ledger.specs.Contents.{Contents, AreTables};

use crate::exporting::export_files;
use crate::files::TrailFiles;
use sqlite_store::FileStore;
use std::alloc::Global;
use tl_export::ExportFault;
use tl_store_file::{FileFault, Found, ReadFile, Rested, open_to_read};

/// Epochs whose trails can be put into files.
pub trait Epochs {
    // Whether no wrong answer of the disk was taken as true so far.
    ghost is_clean: { Self → Type 0 };

    // Whether the tables of their store hold this.
    ghost holds: { Self → Contents → Type 0 };

    /// Takes all epochs again, and puts their trails into files, as `export_files` does.
    fn export<F: TrailFiles + Drop>(&mut self, alloc: Global, files: F) -> Result<F, ExportFault>
        requires { F.files files [] }
        ensures trails { IfOk result (λ kept. HasExported (F.files kept) (is_clean self.new) (holds self.old)) }
        ensures again { IfErr result (λ e. is_clean self.new → (c : Contents) (t : TreeValue) (es : List PastEpoch) (v : CoreValue) → holds self.old c
            → HasHistory c t es v → IsReached v
            → IsOfSize c t v → IsDiskOrMemory e ⊎ F.refuses e) };
}

/// The epochs of a store in a file. As a type of its own it hides the types of the file: what exports is proved without them.
#[derive(Drop)]
pub struct FileEpochs {
    store: FileStore<ReadFile>,
    ghost tables: { IsClean (view store) → AreTables (view store) },
}

impl Epochs for FileEpochs {
    ghost use Rattle.tl_ledger.specs.Contents.{Holds};

    ghost is_clean = { λ e. IsClean (view e.store) };

    ghost holds = { λ e. Holds (view e.store).trees };

    fn export<F: TrailFiles + Drop>(&mut self, alloc: Global, files: F) -> Result<F, ExportFault> {
        export_files(alloc, &mut self.store, files)
    }
}

/// Opens the store of that path, to read it: nothing is made or written there. 1003 if the file is empty, and all faults of
/// `tl_store_file::open_to_read`. As long as it is open, others may read it, and find it locked if they would write.
pub fn open_epochs(rt: &HostRuntime, path: &str) -> Result<FileEpochs, FileFault> {
    match open_to_read(rt, path)? {
        Found::Store(rested) => {
            let Rested { store } = rested;
            Ok(FileEpochs { store })
        }
        Found::Blank(_) => Err(FileFault::NotStore),
    }
}
