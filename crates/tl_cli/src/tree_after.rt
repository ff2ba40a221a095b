// The tree as it was after an epoch of a store.

ghost use Rattle.std.specs.Prelude.{◌≡◌, ◌++◌, ◌∷◌, ◌+◌, ◌&&◌, [], List, None, nat_le, if◌then◌else◌, length, OnOk, IfOk};
ghost use Rattle.tl_cli.specs.Epochs.{IsAfter};
ghost use Rattle.tl_trail.specs.Trails.{TrailValue};

use std::alloc::Global;
use std::sync::Arc;
use tl_export::ExportFault;
use tl_file_export::TrailFiles;
use tl_serial_order::Order;
use tl_store::StoreFault;
use tl_trail::Trail;
use tl_tree::Tree;

/// Keeps the tree as it was after the epoch of that number, and no trail.
#[derive(Drop)]
pub struct TreeAfter {
    epoch: u64,
    // How many trails came, one for each epoch.
    seen: u64,
    tree: Option<Tree>,
}

// The tree with which a trail ends.
fn ending(alloc: Global, trail: &Trail) -> Result<Tree, ExportFault>
    ensures { IfOk result (λ t. (t.parents ≡ trail.now.parents) × (t.records ≡ trail.now.ends)) }
{
    let Ok(shape) = Arc::try_clone(trail.opening().shape()) else {
        return Err(ExportFault::Store(StoreFault::Memory));
    };
    let records = Vec::from_slice(alloc, trail.ends())?;
    // It has as many end records as nodes.
    Tree::new(shape, records).map_err(|_| ExportFault::Untaken)
}

impl TreeAfter {
    pub fn new(epoch: u64) -> TreeAfter
        ensures { (result.epoch ≡ epoch) × (result.seen ≡ 0) × (result.tree ≡ None) }
    {
        TreeAfter {
            epoch,
            seen: 0,
            tree: None,
        }
    }

    /// The tree, if there is that epoch. The trail that came last is that of the epoch which isn't sealed; of a closed volume it is none of its epochs.
    pub fn into_tree(self, is_closed: bool) -> Option<Tree>
        ensures { result ≡ (if is_closed && nat_le self.seen (self.epoch + 1) then None else self.tree) }
    {
        if is_closed && self.seen.saturating_sub(1) <= self.epoch {
            return None;
        }
        self.tree
    }

    fn see(&mut self, alloc: Global, trail: &Trail) -> Result<(), ExportFault>
        ensures { OnOk result ((trails : List TrailValue) → IsAfter self.old.epoch self.old.seen self.old.tree trails
            → IsAfter self.new.epoch self.new.seen self.new.tree (trails ++ trail.now ∷ [])) }
    {
        if self.seen == self.epoch {
            self.tree = Some(ending(alloc, trail)?);
        }
        // No run counts this far.
        let Some(seen) = self.seen.checked_add(1) else {
            return Err(ExportFault::Untaken);
        };
        self.seen = seen;
        Ok(())
    }
}

impl TrailFiles for TreeAfter {
    ghost use Rattle.tl_audit.specs.Chains.{trails_of};

    ghost files = { λ s files. IsAfter s.epoch s.seen s.tree (trails_of files) };

    fn begin(&mut self, alloc: Global, trail: &Trail, _order: &Order) -> Result<(), ExportFault> {
        self.see(alloc, trail)
    }

    fn add(&mut self, alloc: Global, trail: &Trail, _order: &Order) -> Result<(), ExportFault> {
        self.see(alloc, trail)
    }

    fn end(&mut self, _alloc: Global) -> Result<(), ExportFault> {
        Ok(())
    }
}
