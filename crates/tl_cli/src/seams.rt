// Where a volume of a store goes on from the one before it.

ghost use Rattle.std.specs.Prelude.{◌≡◌};

use std::alloc::{AllocError, Global};
use std::sync::Arc;
use tl_export::ExportFault;
use tl_file_export::TrailFiles;
use tl_procedures::Procedures;
use tl_serial_order::Order;
use tl_trail::Trail;
use tl_tree::{FIELD_COUNT, Record, Shape};

/// How a volume ends: its tree, and its procedures.
#[derive(Drop)]
pub struct VolumeEnd {
    shape: Arc<Shape>,
    records: Vec<Record>,
    procedures: Procedures,
}

impl VolumeEnd {
    // How it ends if that is the trail of its last epoch.
    fn of(alloc: Global, trail: &Trail) -> Result<VolumeEnd, AllocError> {
        let Ok(shape) = Arc::try_clone(trail.opening().shape()) else {
            return Err(AllocError);
        };
        Ok(VolumeEnd {
            shape,
            records: Vec::from_slice(alloc, trail.ends())?,
            procedures: trail.procedures().copy(alloc)?,
        })
    }

    // Whether a volume goes on from it that begins with this trail. Nodes may have been appended behind it, with zeros as their records, and procedures
    // replaced.
    fn is_continued(&self, trail: &Trail) -> bool {
        let records = trail.opening().records();
        let count = self.records.len();
        if records.len() < count {
            return false;
        }
        &records[..count] == self.records.as_slice()
            && records[count..]
                .iter()
                .all(|record| *record == [0; FIELD_COUNT])
            && self.has_parents(trail.opening().shape())
            && trail.procedures().keep_names(&self.procedures)
    }

    // Whether its nodes have the same parents there.
    fn has_parents(&self, later: &Shape) -> bool {
        let count = self.shape.node_count();
        count <= later.node_count()
            && (0..count).all(|node| self.shape.parent(node) == later.parent(node))
    }
}

/// Puts the trails of a volume into files, and compares the first with the end of the volume before.
#[derive(Drop)]
pub struct Seamed<F> {
    pub kept: F,
    before: Option<VolumeEnd>,
    last: Option<VolumeEnd>,
    /// Whether its first trail goes on from the volume before.
    pub is_joined: bool,
    // How many trails it has.
    epochs: u64,
}

impl<F: TrailFiles> Seamed<F> {
    pub fn new(kept: F, before: Option<VolumeEnd>) -> Seamed<F>
        ensures { result.kept ≡ kept }
    {
        Seamed {
            kept,
            before,
            last: None,
            is_joined: true,
            epochs: 0,
        }
    }

    /// How many sealed epochs it has. Behind them comes one trail more, of the epoch that isn't sealed.
    pub fn sealed(&self) -> u64 {
        self.epochs.saturating_sub(1)
    }

    /// Where it goes, and how it ends: as the one before, if it has no trail.
    pub fn into_end(self) -> (F, Option<VolumeEnd>) {
        let Seamed {
            kept,
            before,
            last,
            is_joined: _,
            epochs: _,
        } = self;
        match last {
            Some(last) => (kept, Some(last)),
            None => (kept, before),
        }
    }

    // Takes note of a trail.
    fn see(&mut self, alloc: Global, trail: &Trail) -> Result<(), ExportFault>
        ensures { self.new.kept ≡ self.old.kept }
    {
        if let (0, Some(before)) = (self.epochs, &self.before) {
            self.is_joined = before.is_continued(trail);
        }
        self.last = Some(VolumeEnd::of(alloc, trail)?);
        self.epochs = self.epochs.saturating_add(1);
        Ok(())
    }
}

impl<F: TrailFiles> TrailFiles for Seamed<F> {
    ghost files = { λ s. F.files s.kept };

    fn begin(&mut self, alloc: Global, trail: &Trail, order: &Order) -> Result<(), ExportFault> {
        self.see(alloc, trail)?;
        self.kept.begin(alloc, trail, order)
    }

    fn add(&mut self, alloc: Global, trail: &Trail, order: &Order) -> Result<(), ExportFault> {
        self.see(alloc, trail)?;
        self.kept.add(alloc, trail, order)
    }

    fn end(&mut self, alloc: Global) -> Result<(), ExportFault> {
        self.kept.end(alloc)
    }
}
