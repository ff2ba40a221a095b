// What a server with a store opens with.

ghost use Rattle.std.specs.Prelude.{◌≡◌, ◌≢◌, ◌↔◌, ◌≤◌, [], true, false, Some, None, Err, IsSome, IsTrue, IfOk, IfSome};
ghost use Rattle.sqlite_store.specs.FileStore.{view};
ghost use Rattle.sqlite_trees.specs.View.{IsClean, doubt};
ghost use Rattle.tl_core.specs.Cores.{CoreValue, opened};
ghost use Rattle.tl_core.specs.Reached.{IsReached};
ghost use Rattle.tl_file_journal.specs.declared.refusal.StoreRefusal.TheVariants.{NoTree, HasTree};
ghost use Rattle.tl_history.specs.declared.history.TheConstants.{MAX_EVENTS};
ghost use Rattle.tl_ledger.specs.Contents.{Contents, no_contents, Holds};
ghost use Rattle.tl_ledger.specs.News.{after_founding};
ghost use Rattle.tl_ledger.specs.declared.founding.Founding.{Founding};
ghost use Rattle.tl_store_commands.specs.Beginning.{IsFirst, BeginsWith, Resumes, TakesUp};
ghost use Rattle.tl_store_laws.specs.Growing.{IsLedgerOf};
ghost use Rattle.tl_store_file.specs.declared.opening.Found.TheVariants.{Store as There};

use crate::comparing::Shared;
use crate::journal::{FileJournal, Live, Turning};
use crate::refusal::StoreRefusal;
use crate::volumes::{
    LiveVolume, find_live, finish_closing, is_without, keys_before, leave_closed,
};
use sqlite_disk::Disk;
use sqlite_std_file::File;
use sqlite_store::FileStore;
use sqlite_trees::store::Store;
use std::alloc::Global;
use std::fs;
use std::sync::{Arc, Mutex};
use tl_generations::Succession;
use tl_journal::LedgerJournal;
use tl_keys::KeyIndex;
use tl_procedures::Procedures;
use tl_store::StoreFault;
use tl_store_commands::{Beginning, Retaken, has_no_rows, make_store, remember_keys, reopen_store};
use tl_store_file::{Found, Rested, open_with_mode};
use tl_tree::Tree;
use tl_volume_files::{Volumes, make_folder};
use tl_workers::Engine;

/// What a server that lasts opens with: an engine that seals its epochs by itself, and the procedures that are known already.
#[derive(Drop)]
pub struct Opening<J> {
    pub engine: Engine,
    pub journal: J,
    pub succession: Succession,
    pub known: Procedures,
    ghost sealing: { engine.seals ≡ true },
}

/// What a server with a store opens with, and what was taken again, if the store was there.
#[derive(Drop)]
pub struct Stored<J> {
    pub opening: Opening<J>,
    pub retaken: Option<Retaken>,
}

// An engine on the core that a server begins with, and the journal of the ledger, which knows what came of its calls that had a key, and of those in the
// volumes before.
fn opening_of<S: Store + Drop>(
    alloc: Global,
    before: u64,
    begun: Beginning<S>,
    closed: KeyIndex,
) -> Result<Opening<LedgerJournal<S>>, StoreRefusal>
    ensures { (result ≢ Err NoTree) × (result ≢ Err HasTree) }
{
    let Beginning { ledger, core } = begun;
    let (ledger, keys) = remember_keys(alloc, before, ledger, closed)?;
    let known = core.procedures().copy(alloc)?;
    let records = Vec::from_slice(alloc, core.opening().records())?;
    let succession = Succession::new(alloc, &core)?;
    // It refuses for want of memory alone.
    let Ok(engine) = Engine::of_core(alloc, core) else {
        return Err(StoreRefusal::Store(StoreFault::Memory));
    };
    Ok(Opening {
        engine: engine.that_seals(),
        journal: LedgerJournal::new(alloc, before, ledger, records, known.len(), keys),
        succession,
        known,
    })
}

// The same opening, whose journal is known to be on the file of that path, and writes its copies into that folder.
fn on_file(
    opening: Opening<LedgerJournal<FileStore<File>>>,
    files: HostRuntime,
    live: Live,
    turning: Option<Turning>,
    copies: Option<String>,
    epochs: u64,
) -> Result<Opening<FileJournal>, StoreRefusal>
    ensures { (result ≢ Err NoTree) × (result ≢ Err HasTree) }
{
    let Opening {
        engine,
        journal,
        succession,
        known,
    } = opening;
    let shared = Shared {
        ledger: journal,
        closing: Mutex::new(None),
        difference: Mutex::new(None),
    };
    Ok(Opening {
        engine,
        journal: FileJournal {
            shared: Arc::new(files.alloc(), shared)?,
            epochs,
            files,
            live: Mutex::new(live),
            turning,
            copies,
        },
        succession,
        known,
    })
}

// A store that is made of a tree where files hold one without rows.
fn make_in<D: Disk + Drop>(
    alloc: Global,
    rested: Rested<D>,
    tree: Tree,
) -> Result<Beginning<FileStore<D>>, StoreRefusal>
    requires { IsClean (view rested.store) → Holds (view rested.store).committed no_contents }
    ensures core { IfOk result (λ b. b.core ≡ opened tree [] MAX_EVENTS) }
    ensures stored { IfOk result (λ b. (first : Founding) × IsFirst tree first
        × (IsClean (view b.ledger.store) → Holds (view b.ledger.store).committed (after_founding no_contents first))) }
    ensures begins { IfOk result (λ b. IsClean (view b.ledger.store) → BeginsWith tree b.core (view b.ledger.store).committed) }
    ensures err { (result ≢ Err NoTree) × (result ≢ Err HasTree) }
{
    Ok(make_store(alloc, rested.store, tree)?)
}

// The store that files hold, taken up again.
fn reopen_in<D: Disk + Drop>(
    alloc: Global,
    rested: Rested<D>,
) -> Result<(Beginning<FileStore<D>>, Retaken), StoreRefusal>
    ensures taken_up { IfOk result (λ r. IsClean (view r.0.ledger.store) → (c : Contents) → Holds (view rested.store).committed c
        → TakesUp c r.0.core (view r.0.ledger.store).committed r.0.ledger.marks) }
    ensures resumes { IfOk result (λ r. IsClean (view r.0.ledger.store) → (c : Contents) (v : CoreValue) → Holds (view rested.store).committed c → IsReached v → IsLedgerOf c v
        → Resumes v r.0.core (view r.0.ledger.store).committed r.0.ledger.marks) }
    ensures clean { IfOk result (λ r. doubt (view rested.store).is_clean ≤ doubt (view r.0.ledger.store).is_clean) }
    ensures err { (result ≢ Err NoTree) × (result ≢ Err HasTree) }
{
    Ok(reopen_store(alloc, rested.store)?)
}

/// Whether files hold a store without rows: it was made, and then a crash came, or the disk was full, before it had its first contents.
pub(crate) fn is_unfounded<D: Disk + Drop>(
    alloc: Global,
    rested: Rested<D>,
) -> Result<(bool, Rested<D>), StoreRefusal>
    ensures none { IfOk result (λ r. IsTrue r.0 → IsClean (view r.1.store) → Holds (view r.1.store).committed no_contents) }
    ensures same { IfOk result (λ r. IsClean (view r.1.store) → (view r.1.store).committed ≡ (view rested.store).committed) }
    ensures clean { IfOk result (λ r. doubt (view rested.store).is_clean ≤ doubt (view r.1.store).is_clean) }
    ensures err { (result ≢ Err NoTree) × (result ≢ Err HasTree) }
{
    let mut store = rested.store;
    match has_no_rows(alloc, &mut store) {
        Ok(is_unfounded) => Ok((is_unfounded, Rested { store })),
        Err(name) => Err(StoreRefusal::Store(StoreFault::of_disk(name))),
    }
}

// What a store has, or the tree where it has no rows. Of a store that has the rows of a core that one is taken up.
fn begin_on<D: Disk + Drop>(
    alloc: Global,
    rested: Rested<D>,
    tree: Option<Tree>,
) -> Result<(Beginning<FileStore<D>>, Option<Retaken>), StoreRefusal>
    ensures retaken { IfOk result (λ r. IsSome r.1 ↔ (tree ≡ None)) }
    ensures no_tree { result ≡ Err NoTree → tree ≡ None }
    ensures has_tree { result ≡ Err HasTree → IsSome tree }
    ensures begins { IfOk result (λ r. IsClean (view r.0.ledger.store) → IfSome tree (λ t. BeginsWith t r.0.core (view r.0.ledger.store).committed)) }
    ensures resumes { IfOk result (λ r. tree ≡ None → IsClean (view r.0.ledger.store) → (c : Contents) (v : CoreValue) → Holds (view rested.store).committed c → IsReached v → IsLedgerOf c v
        → Resumes v r.0.core (view r.0.ledger.store).committed r.0.ledger.marks) }
{
    match (is_unfounded(alloc, rested)?, tree) {
        ((true, rested), Some(tree)) => Ok((make_in(alloc, rested, tree)?, None)),
        ((true, _), None) => Err(StoreRefusal::NoTree),
        ((false, _), Some(_)) => Err(StoreRefusal::HasTree),
        ((false, rested), None) => {
            let (begun, retaken) = reopen_in(alloc, rested)?;
            Ok((begun, Some(retaken)))
        }
    }
}

// What files hold, or the tree where they hold nothing yet. Of a store that has the rows of a core that one is taken up; otherwise the store has those of
// the tree's core.
fn begin_in<D: Disk + Drop>(
    alloc: Global,
    found: Found<D>,
    tree: Option<Tree>,
) -> Result<(Beginning<FileStore<D>>, Option<Retaken>), StoreRefusal>
    ensures retaken { IfOk result (λ r. IsSome r.1 ↔ (tree ≡ None)) }
    ensures no_tree { result ≡ Err NoTree → tree ≡ None }
    ensures has_tree { result ≡ Err HasTree → IsSome tree }
    ensures begins { IfOk result (λ r. IsClean (view r.0.ledger.store) → IfSome tree (λ t. BeginsWith t r.0.core (view r.0.ledger.store).committed)) }
    ensures resumes { IfOk result (λ r. tree ≡ None → IsClean (view r.0.ledger.store) → (rested : _) → found ≡ There rested → (c : Contents) (v : CoreValue)
        → Holds (view rested.store).committed c → IsReached v → IsLedgerOf c v → Resumes v r.0.core (view r.0.ledger.store).committed r.0.ledger.marks) }
{
    match (found, tree) {
        (Found::Blank(blank), Some(tree)) => Ok((make_in(alloc, blank.make()?, tree)?, None)),
        (Found::Blank(_), None) => Err(StoreRefusal::NoTree),
        (Found::Store(rested), tree) => begin_on(alloc, rested, tree),
    }
}

// What the file of that path holds. One that is made gets the mode, if there is one.
fn find_at(rt: &HostRuntime, path: &str, mode: Option<u32>) -> Result<Found<File>, StoreRefusal>
    ensures { (result ≢ Err NoTree) × (result ≢ Err HasTree) }
{
    match mode {
        Some(mode) => Ok(open_with_mode(rt, path, mode)?),
        None => Ok(tl_store_file::open(rt, path)?),
    }
}

// Where a store is: in one file, or in the volumes of a folder.
#[derive(Drop)]
struct Place {
    live: LiveVolume,
    turning: Option<Turning>,
}

// Whether that path is the folder of a store in volumes, which needn't be there yet where its name ends with `/`.
fn is_folder(rt: &HostRuntime, path: &str) -> bool {
    path.ends_with('/') || fs::metadata(rt, path).is_ok_and(|metadata| metadata.is_dir())
}

// What the folder of that path holds. It is made if there is a tree to make a store of. 1008 if there is neither a volume nor a tree.
fn find_volumes(
    rt: &HostRuntime,
    options: &StoreOptions<'_>,
    has_tree: bool,
) -> Result<Place, StoreRefusal>
    ensures no_tree { result ≡ Err NoTree → has_tree ≡ false }
    ensures has_tree { result ≢ Err HasTree }
{
    if has_tree {
        // One that can't be made can't be read.
        let _made = make_folder(rt, options.path);
    }
    let volumes = Volumes::new(*rt, options.path, options.mode)?;
    if !has_tree && is_without(&volumes)? {
        return Err(StoreRefusal::NoTree);
    }
    let live = find_live(rt, &volumes, options.mode)?;
    finish_closing(rt, &volumes, live.number)?;
    Ok(Place {
        live,
        turning: Some(Turning {
            volumes: Arc::new(rt.alloc(), volumes)?,
            calls: options.calls,
        }),
    })
}

// What a path holds: a file, or a folder of volumes.
fn find_place(
    rt: &HostRuntime,
    options: &StoreOptions<'_>,
    has_tree: bool,
) -> Result<Place, StoreRefusal>
    ensures no_tree { result ≡ Err NoTree → has_tree ≡ false }
    ensures has_tree { result ≢ Err HasTree }
{
    if is_folder(rt, options.path) {
        return find_volumes(rt, options, has_tree);
    }
    Ok(Place {
        live: LiveVolume {
            number: 0,
            path: String::from_str(rt.alloc(), options.path)?,
            found: find_at(rt, options.path, options.mode)?,
        },
        turning: None,
    })
}

/// What is asked for of a store: where it is, and how it goes on.
#[derive(Clone, Copy, Debug)]
pub struct StoreOptions<'a> {
    /// Its file, or the folder of its volumes.
    pub path: &'a str,
    /// The folder that copies of it are written into, if one is named.
    pub copies: Option<&'a str>,
    /// The mode of the files that are made, if one is named.
    pub mode: Option<u32>,
    /// After how many calls it goes on in a new volume, where it has volumes.
    pub calls: u64,
    /// How many closed volumes a start looks through for keys.
    pub keys: u16,
}

/// What a server on a store opens with: what the store holds, or the tree where there is none yet. A path that ends with `/`, or at which there is a
/// folder, is that of a store in volumes. 1008 if there is neither store nor tree, 1009 if there are both; 1001 to 1006, 1011 to 1013, and 1018.
pub fn open_stored(
    rt: &HostRuntime,
    options: StoreOptions<'_>,
    tree: Option<Tree>,
) -> Result<Stored<FileJournal>, StoreRefusal>
    ensures retaken { IfOk result (λ s. IsSome s.retaken ↔ (tree ≡ None)) }
    ensures no_tree { result ≡ Err NoTree → tree ≡ None }
    ensures has_tree { result ≡ Err HasTree → IsSome tree }
{
    let Place { live, turning } = find_place(rt, &options, tree.is_some())?;
    let LiveVolume {
        number,
        path,
        found,
    } = live;
    let (begun, retaken) = begin_in(rt.alloc(), found, tree)?;
    let copies = match options.copies {
        Some(folder) => Some(String::from_str(rt.alloc(), folder)?),
        None => None,
    };
    let (begun, path, number) = match &turning {
        Some(turning) => leave_closed(rt, &turning.volumes, begun, path, number)?,
        None => (begun, path, number),
    };
    let marks = begun.ledger.marks;
    let closed = match &turning {
        Some(turning) => { keys_before(rt, &turning.volumes, number, marks.calls, options.keys)? }
        None => KeyIndex::new(rt.alloc()),
    };
    let opening = opening_of(rt.alloc(), number, begun, closed)?;
    let live = Live {
        path,
        number,
        is_told: false,
    };
    Ok(Stored {
        opening: on_file(opening, *rt, live, turning, copies, marks.seals)?,
        retaken,
    })
}
