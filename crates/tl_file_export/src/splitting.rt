// Which file a trail goes into.

ghost use Rattle.std.specs.Prelude.{◌≡◌, ◌<◌, ◌↔◌, None, Some, IsTrue, IfOk};
ghost use Rattle.tl_file_export.specs.Filed.{ending_of, GoesOn};
ghost use Rattle.tl_trail.specs.declared.chain.TheConstants.{MAX_TRAILS};

use crate::files::TrailFiles;
use std::alloc::{AllocError, Global};
use tl_export::{ExportFault, TrailTaker};
use tl_procedures::Procedures;
use tl_serial_order::Order;
use tl_trail::{MAX_TRAILS, Trail};

/// What a trail leaves to the next: how many nodes its tree has, and its procedures.
#[derive(Drop)]
pub struct Ending {
    pub nodes: usize,
    pub procedures: Procedures,
}

impl Ending {
    // What the trail leaves.
    fn of(alloc: Global, trail: &Trail) -> Result<Ending, AllocError>
        ensures { IfOk result (λ e. e ≡ ending_of trail.now) }
    {
        Ok(Ending {
            nodes: trail.opening().shape().node_count() as usize,
            procedures: trail.procedures().copy(alloc)?,
        })
    }

    // Whether the trail goes on from it, with no node appended and no procedure replaced.
    fn is_continued(&self, trail: &Trail) -> bool
        ensures { IsTrue result ↔ GoesOn self.now trail.now }
    {
        trail.opening().shape().node_count() as usize == self.nodes
            && trail.procedures().begin_with(&self.procedures)
    }
}

/// Puts trails into files: into a new one where nodes were appended or procedures replaced, or where the file before is full.
#[derive(Drop)]
pub struct Splitting<F: TrailFiles> {
    pub kept: F,
    // What the last trail leaves.
    pub last: Option<Ending>,
    // How many trails the last file has.
    pub count: usize,
}

impl<F: TrailFiles> Splitting<F> {
    /// There are no files yet.
    pub fn new(kept: F) -> Splitting<F>
        ensures { (result.kept ≡ kept) × (result.count ≡ 0) }
    {
        Splitting {
            kept,
            last: None,
            count: 0,
        }
    }

    // Whether a trail goes into the last file.
    fn goes_on(&self, trail: &Trail) -> bool
        ensures yes { IsTrue result → (0 < self.now.count) × (self.now.count < MAX_TRAILS) × (e : Ending) × (self.now.last ≡ Some e) × GoesOn e trail.now }
        ensures no { (e : Ending) → 0 < self.now.count → self.now.count < MAX_TRAILS → self.now.last ≡ Some e → GoesOn e trail.now → IsTrue result }
    {
        if self.count == 0 || self.count >= MAX_TRAILS {
            return false;
        }
        match &self.last {
            Some(last) => last.is_continued(trail),
            None => false,
        }
    }
}

impl<F: TrailFiles> TrailTaker for Splitting<F> {
    ghost use Rattle.std.specs.Prelude.{◌⊎◌};
    ghost use Rattle.tl_export.specs.Faults.{IsDiskOrMemory};
    ghost use Rattle.tl_file_export.specs.Filed.{AreKept};

    ghost taken = { λ s. AreKept (F.files s.kept) s.last s.count };

    ghost refuses = { λ e. IsDiskOrMemory e ⊎ F.refuses e };

    fn take(&mut self, alloc: Global, trail: &Trail, order: &Order) -> Result<(), ExportFault> {
        let ending = Ending::of(alloc, trail)?;
        if self.goes_on(trail) {
            self.kept.add(alloc, trail, order)?;
            self.count += 1;
            self.last = Some(ending);
            return Ok(());
        }
        self.kept.begin(alloc, trail, order)?;
        self.count = 1;
        self.last = Some(ending);
        Ok(())
    }
}
