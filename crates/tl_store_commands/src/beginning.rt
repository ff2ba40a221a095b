// How a server begins on a store.

ghost use Rattle.std.specs.Prelude.{◌≡◌, [], false, length, IfOk};
ghost use Rattle.sqlite_trees.specs.View.{IsClean};
ghost use Rattle.tl_core.specs.Cores.{opened};
ghost use Rattle.tl_history.specs.declared.history.TheConstants.{MAX_EVENTS};
ghost use Rattle.tl_ledger.specs.Contents.{no_contents, Holds, IsAtRest};
ghost use Rattle.tl_ledger.specs.News.{after_founding, IsMarked};
ghost use Rattle.tl_ledger.specs.declared.founding.Founding.{Founding};
ghost use Rattle.tl_store_commands.specs.Beginning.{IsFirst, BeginsWith};

use sqlite_trees::store::Store;
use sqlite_value::row::Row;
use std::alloc::{AllocError, Global};
use tl_core::Core;
use tl_ledger::{Founding, Ledger, found};
use tl_rows::{node_rows, record_rows};
use tl_store::StoreFault;
use tl_tree::Tree;

/// What a server with a store begins with: a ledger that isn't shut, and a core without calls.
#[derive(Drop)]
pub struct Beginning<S: Store> {
    pub ledger: Ledger<S>,
    pub core: Core,
    ghost open: { ledger.is_shut ≡ false },
    ghost fresh: { core.seen.calls ≡ [] },
}

// The first contents of a store: those of the tree.
fn contents_of(alloc: Global, tree: &Tree) -> Result<Founding, AllocError>
    ensures { IfOk result (λ first. IsFirst tree.now first) }
{
    Ok(Founding {
        nodes: node_rows(alloc, tree.shape(), 0)?,
        records: record_rows(alloc, tree.records())?,
        procedures: Vec::new(alloc),
    })
}

// A ledger over a store that has just got its first contents.
fn founded<S: Store + Drop>(
    alloc: Global,
    store: S,
    first: &Founding,
) -> Result<Ledger<S>, StoreFault>
    requires rest { IsClean (S.Store.view store) → IsAtRest (S.Store.view store) }
    requires empty { IsClean (S.Store.view store) → Holds (S.Store.view store).committed no_contents }
    requires each { length first.now.records.items ≡ length first.now.nodes.items }
    ensures open { IfOk result (λ ledger. ledger.is_shut ≡ false) }
    ensures marks { IfOk result (λ ledger. IsMarked (after_founding no_contents first.now) ledger.marks) }
    ensures stored { IfOk result (λ ledger. IsClean (S.Store.view ledger.store) → Holds (S.Store.view ledger.store).committed (after_founding no_contents first.now)) }
{
    let mut store = store;
    match found(&mut store, &mut Row::new(alloc), first) {
        Ok(marks) => Ok(Ledger::new(alloc, store, marks)),
        Err(name) => Err(StoreFault::of_disk(name)),
    }
}

/// Makes the first contents of a store without rows: the tree, and no procedures.
pub fn make_store<S: Store + Drop>(
    alloc: Global,
    store: S,
    tree: Tree,
) -> Result<Beginning<S>, StoreFault>
    requires rest { IsClean (S.Store.view store) → IsAtRest (S.Store.view store) }
    requires empty { IsClean (S.Store.view store) → Holds (S.Store.view store).committed no_contents }
    ensures core { IfOk result (λ b. b.core ≡ opened tree [] MAX_EVENTS) }
    ensures stored { IfOk result (λ b. (first : Founding) × IsFirst tree first × IsMarked (after_founding no_contents first) b.ledger.marks
        × (IsClean (S.Store.view b.ledger.store) → Holds (S.Store.view b.ledger.store).committed (after_founding no_contents first))) }
    ensures begins { IfOk result (λ b. IsClean (S.Store.view b.ledger.store) → BeginsWith tree b.core (S.Store.view b.ledger.store).committed) }
{
    let first = contents_of(alloc, &tree)?;
    let ledger = founded(alloc, store, &first)?;
    let Ok(core) = Core::new(alloc, tree) else {
        return Err(StoreFault::Memory);
    };
    Ok(Beginning { ledger, core })
}
