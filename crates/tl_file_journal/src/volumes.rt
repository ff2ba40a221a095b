// A store in volumes: which one is live, and how the next one is begun.

ghost use Rattle.std.specs.Prelude.{◌≡◌, ◌≢◌, ◌⊎◌, true, false, Err, IfOk, OnOk};
ghost use Rattle.tl_file_journal.specs.Beginning.{added, carry_refusal, refusal_after};
ghost use Rattle.tl_file_journal.specs.declared.refusal.StoreRefusal.TheVariants.{NoTree, HasTree};
ghost use Rattle.sqlite_store.specs.FileStore.{view};
ghost use Rattle.sqlite_trees.specs.View.{IsClean};
ghost use Rattle.tl_file_snapshot.specs.Names.{is_snapshot_name};
ghost use Rattle.tl_file_snapshot.specs.declared.fault.SnapshotFault.TheVariants.{BadName};
ghost use Rattle.tl_ledger.specs.Contents.{AreTables, Contents, Holds, IsAtRest, no_contents};
ghost use Rattle.tl_ledger.specs.News.{after_founding, IsMarked};
ghost use Rattle.tl_ledger.specs.declared.founding.Founding.{Founding};
ghost use Rattle.tl_store_file.specs.declared.opening.Found.TheVariants.{Store as There};
ghost use Rattle.tl_volumes.specs.Volumes.{Carries};

use crate::opening::is_unfounded;
use crate::refusal::StoreRefusal;
use sqlite_disk::Disk;
use sqlite_std_file::File;
use sqlite_store::FileStore;
use sqlite_trees::error::StoreError;
use sqlite_trees::store::Store;
use sqlite_value::row::Row;
use std::alloc::Global;
use std::io;
use tl_file_snapshot::{SnapshotFault, write_copy};
use tl_keys::KeyIndex;
use tl_ledger::{CALL, Ledger, count_rows};
use tl_procedures::Procedures;
use tl_server::VolumeRefusal;
use tl_store::StoreFault;
use tl_store_commands::{Beginning, RECALLED, remember_closed};
use tl_store_file::{
    FileFault, Found, Hindrance, ReadFile, Rested, open, open_to_read, open_with_mode,
};
use tl_tree::Tree;
use tl_volume_files::{Volumes, has_log};
use tl_volumes::{CarryFault, carry_over};

/// The live volume of a store, as it was found.
#[derive(Drop)]
pub(crate) struct LiveVolume {
    pub(crate) number: u64,
    pub(crate) path: String,
    pub(crate) found: Found<File>,
}

// Why a folder isn't read, by what the system says.
fn unread(error: io::Error) -> StoreRefusal
    ensures { (result ≢ NoTree) × (result ≢ HasTree) }
{
    match error.kind() {
        io::ErrorKind::OutOfMemory => StoreRefusal::Store(StoreFault::Memory),
        io::ErrorKind::PermissionDenied => {
            StoreRefusal::File(FileFault::Unopened(Hindrance::Permission))
        }
        io::ErrorKind::NotFound => StoreRefusal::File(FileFault::Unopened(Hindrance::NoFolder)),
        io::ErrorKind::StorageFull => StoreRefusal::File(FileFault::DiskFull),
        _ => StoreRefusal::File(FileFault::Unopened(Hindrance::Other)),
    }
}

// What the file of a volume holds. One that is made gets the mode, if one is named.
fn find_volume(rt: &HostRuntime, path: &str, mode: Option<u32>) -> Result<Found<File>, FileFault> {
    match mode {
        Some(mode) => open_with_mode(rt, path, mode),
        None => open(rt, path),
    }
}

// Whether a volume was begun: it has rows.
fn is_begun<D: Disk + Drop>(
    alloc: Global,
    found: Found<D>,
) -> Result<(bool, Found<D>), StoreRefusal>
    ensures none { IfOk result (λ r. r.0 ≡ false → (rested : _) → r.1 ≡ There rested → IsClean (view rested.store)
        → Holds (view rested.store).committed no_contents) }
    ensures err { (result ≢ Err NoTree) × (result ≢ Err HasTree) }
{
    match found {
        Found::Blank(blank) => Ok((false, Found::Blank(blank))),
        Found::Store(rested) => {
            let (is_unfounded, rested) = is_unfounded(alloc, rested)?;
            Ok((!is_unfounded, Found::Store(rested)))
        }
    }
}

// Removes a volume that wasn't begun. It is locked until then, so a server that begins it just now sees that it is gone.
fn remove_unbegun<D: Disk + Drop>(
    volumes: &Volumes,
    number: u64,
    found: Found<D>,
) -> Result<(), StoreRefusal>
    ensures { (result ≢ Err NoTree) × (result ≢ Err HasTree) }
{
    volumes.remove(number).map_err(unread)?;
    drop(found);
    Ok(())
}

/// Whether there is no volume.
pub(crate) fn is_without(volumes: &Volumes) -> Result<bool, StoreRefusal>
    ensures { (result ≢ Err NoTree) × (result ≢ Err HasTree) }
{
    Ok(volumes.numbers().map_err(unread)?.is_empty())
}

/// Finds the live volume: the highest one that was begun. Those above it, which a crash left before they were begun, are removed. Where there is none, it
/// is the first one, which is made. 1002 if another server has the store.
pub(crate) fn find_live(
    rt: &HostRuntime,
    volumes: &Volumes,
    mode: Option<u32>,
) -> Result<LiveVolume, StoreRefusal>
    ensures { (result ≢ Err NoTree) × (result ≢ Err HasTree) }
{
    let numbers = volumes.numbers().map_err(unread)?;
    let first = numbers.first().copied().unwrap_or(0);
    for number in numbers.iter().rev().copied() {
        let path = volumes.path_of(number)?;
        let (is_begun, found) = is_begun(rt.alloc(), find_volume(rt, path.as_str(), mode)?)?;
        if is_begun || number == first {
            check_highest(volumes, number)?;
            return Ok(LiveVolume {
                number,
                path,
                found,
            });
        }
        remove_unbegun(volumes, number, found)?;
    }
    let path = volumes.path_of(0)?;
    let found = find_volume(rt, path.as_str(), mode)?;
    check_highest(volumes, 0)?;
    Ok(LiveVolume {
        number: 0,
        path,
        found,
    })
}

// Checks that no other server has begun a volume above this one meanwhile.
fn check_highest(volumes: &Volumes, number: u64) -> Result<(), StoreRefusal>
    ensures { (result ≢ Err NoTree) × (result ≢ Err HasTree) }
{
    let numbers = volumes.numbers().map_err(unread)?;
    if numbers.last().is_some_and(|last| *last > number) {
        return Err(StoreRefusal::File(FileFault::Busy));
    }
    Ok(())
}

/// Finishes the closing of the volumes before the live one, which a crash may have interrupted: takes the log of the last one into its file, and adds its
/// sum to the folder's list. No volume that is listed is opened. 1019 if a log lies beside one.
pub(crate) fn finish_closing(
    rt: &HostRuntime,
    volumes: &Volumes,
    live: u64,
) -> Result<(), StoreRefusal>
    ensures { (result ≢ Err NoTree) × (result ≢ Err HasTree) }
{
    for number in volumes.numbers().map_err(unread)? {
        if number >= live {
            break;
        }
        let path = volumes.path_of(number)?;
        if volumes.is_listed(number).map_err(unread)? {
            if has_log(rt, path.as_str()).map_err(unread)? {
                return Err(StoreRefusal::StrayLog);
            }
            continue;
        }
        let (is_begun, found) = is_begun(rt.alloc(), open(rt, path.as_str())?)?;
        if !is_begun {
            remove_unbegun(volumes, number, found)?;
            continue;
        }
        take_log(found)?;
        if let Err(error) = volumes.close(number) {
            say_unlisted(rt, number, &error);
        }
    }
    Ok(())
}

// How many calls a store has.
fn count_calls<D: Disk + Drop>(
    alloc: Global,
    rested: Rested<D>,
) -> Result<(u64, Rested<D>), StoreRefusal>
    ensures { (result ≢ Err NoTree) × (result ≢ Err HasTree) }
{
    let mut store = rested.store;
    match count_rows(&mut store, &mut Row::new(alloc), CALL) {
        Ok(calls) => Ok((calls, Rested { store })),
        Err(fault) => Err(StoreRefusal::Store(StoreFault::from(fault))),
    }
}

/// A closed volume, into which nothing is written, and how many calls it has.
pub(crate) fn open_closed(
    rt: &HostRuntime,
    volumes: &Volumes,
    number: u64,
) -> Result<(u64, Rested<ReadFile>), StoreRefusal>
    ensures { (result ≢ Err NoTree) × (result ≢ Err HasTree) }
{
    let path = volumes.path_of(number)?;
    match open_to_read(rt, path.as_str())? {
        Found::Store(rested) => count_calls(rt.alloc(), rested),
        Found::Blank(_) => Err(StoreRefusal::File(FileFault::NotStore)),
    }
}

// What came of the calls of a closed volume of that number that had a key, beside what was remembered before.
fn remember_volume<S: Store + Drop>(
    alloc: Global,
    number: u64,
    store: S,
    keys: KeyIndex,
) -> Result<KeyIndex, StoreFault>
    requires { IsClean (S.Store.view store) → AreTables (S.Store.view store) }
{
    let mut store = store;
    remember_closed(alloc, number, &mut store, keys)
}

// The same of one that is open.
fn remember_rested<D: Disk + Drop>(
    alloc: Global,
    number: u64,
    rested: Rested<D>,
    keys: KeyIndex,
) -> Result<KeyIndex, StoreRefusal>
    ensures { (result ≢ Err NoTree) × (result ≢ Err HasTree) }
{
    Ok(remember_volume(alloc, number, rested.store, keys)?)
}

/// What came of the calls in so many volumes before the live one that had a key, as far as these are among the last 1,048,576 calls of the store, of which
/// the live one has so many. A volume that isn't there any more is passed over, and with it what came of its calls.
pub(crate) fn keys_before(
    rt: &HostRuntime,
    volumes: &Volumes,
    live: u64,
    calls: u64,
    most: u16,
) -> Result<KeyIndex, StoreRefusal>
    ensures { (result ≢ Err NoTree) × (result ≢ Err HasTree) }
{
    let alloc = rt.alloc();
    let mut seen = calls;
    // The latest first.
    let mut closed = Vec::new(alloc);
    for number in volumes.numbers().map_err(unread)?.iter().rev().copied() {
        if number >= live {
            continue;
        }
        if seen >= RECALLED || closed.len() >= usize::from(most) {
            break;
        }
        let (calls, rested) = open_closed(rt, volumes, number)?;
        seen = seen.saturating_add(calls);
        closed.push((number, rested))?;
    }
    let mut keys = KeyIndex::new(alloc);
    for (number, rested) in closed.into_iter().rev() {
        keys = remember_rested(alloc, number, rested, keys)?;
    }
    Ok(keys)
}

// Takes the log of a volume into its file.
fn take_log(found: Found<File>) -> Result<(), StoreRefusal>
    ensures { (result ≢ Err NoTree) × (result ≢ Err HasTree) }
{
    match found {
        Found::Blank(_) => Ok(()),
        Found::Store(Rested { store }) => {
            let mut store = store;
            match store.checkpoint() {
                Ok(()) => Ok(()),
                Err(name) => Err(StoreRefusal::Store(StoreFault::of_disk(name))),
            }
        }
    }
}

/// Says to people that the sum of a closed volume isn't in the folder's list. The next start adds it.
pub(crate) fn say_unlisted(rt: &HostRuntime, number: u64, error: &io::Error) {
    let _shown = eprintln!(rt; "treedb: volume {number} is closed, and not in SHA256SUMS: {error}");
}

// A store without rows in the file of that path, which wasn't there, with that mode.
fn make_at(rt: &HostRuntime, path: &str, mode: u32) -> Result<Rested<File>, FileFault>
    ensures { IfOk result (λ made. IsClean (view made.store) → Holds (view made.store).committed no_contents) }
{
    match open_with_mode(rt, path, mode)? {
        Found::Blank(blank) => blank.make(),
        Found::Store(_) => Err(FileFault::NotStore),
    }
}

// A store without rows for the next volume, whose file gets the mode that the live one has, unless another one is named.
fn blank_for(
    rt: &HostRuntime,
    volumes: &Volumes,
    live: &str,
    path: &str,
) -> Result<FileStore<File>, VolumeRefusal>
    ensures rest { IfOk result (λ store. IsClean (view store) → IsAtRest (view store)) }
    ensures empty { IfOk result (λ store. IsClean (view store) → Holds (view store).committed no_contents) }
{
    let Ok(mode) = volumes.next_mode(live) else {
        return Err(VolumeRefusal::Unwritten);
    };
    match make_at(rt, path, mode) {
        Ok(Rested { store }) => Ok(store),
        Err(FileFault::Memory) => Err(VolumeRefusal::Memory),
        Err(_) => Err(VolumeRefusal::Unwritten),
    }
}

/// Why a store goes on in no next volume.
#[derive(Clone, Copy, Debug, PartialEq, Eq)]
pub(crate) enum Unbegun {
    /// There is no file of the next volume, or one of somebody else. The store goes on in the last one, unless that is shut.
    Refused(VolumeRefusal),
    /// What there is of the next volume can't be removed, for that reason. A start might go on in it, so nothing more may be stored in the last one.
    Left(StoreError),
}

// Why a server doesn't begin that can't go on in a new volume.
fn refusal_after(unbegun: Unbegun) -> StoreRefusal
    ensures { result ≡ refusal_after unbegun }
{
    match unbegun {
        Unbegun::Refused(VolumeRefusal::Memory) => StoreRefusal::Store(StoreFault::Memory),
        Unbegun::Refused(VolumeRefusal::OtherLeft) => StoreRefusal::Store(StoreFault::Other),
        Unbegun::Refused(VolumeRefusal::Broken) => StoreRefusal::Store(StoreFault::DiskFailed),
        Unbegun::Refused(VolumeRefusal::Unwritten | VolumeRefusal::NoVolumes) => {
            StoreRefusal::File(FileFault::Unopened(Hindrance::Other))
        }
        Unbegun::Left(name) => StoreRefusal::Store(StoreFault::of_disk(name)),
    }
}

/// What a server begins with, and in which volume. Where the highest one is closed, as in a folder that was put back from a copy, that is the next one: a closed
/// volume never changes.
pub(crate) fn leave_closed(
    rt: &HostRuntime,
    volumes: &Volumes,
    begun: Beginning<FileStore<File>>,
    path: String,
    number: u64,
) -> Result<(Beginning<FileStore<File>>, String, u64), StoreRefusal>
    ensures err { (result ≢ Err NoTree) × (result ≢ Err HasTree) }
    ensures begun { IfOk result (λ r. (r ≡ (begun, path, number)) ⊎ ((r.0.core ≡ begun.core) × (r.2 ≡ added number begun.ledger.marks.seals))) }
{
    if !volumes.is_listed(number).map_err(unread)? {
        return Ok((begun, path, number));
    }
    let Beginning { ledger, core } = begun;
    let mut last = ledger;
    let next = number.saturating_add(last.marks.seals);
    let (tree, procedures) = (core.opening(), core.procedures());
    let begun = begin_next(
        rt,
        volumes,
        &mut last,
        path.as_str(),
        next,
        tree,
        procedures,
    );
    match begun {
        Ok((path, ledger)) => {
            drop(last);
            // Its log, which was made as it was opened, and has nothing. Where it stays it does no harm.
            let _removed = volumes.close(number);
            Ok((Beginning { ledger, core }, path, next))
        }
        Err(unbegun) => Err(refusal_after(unbegun)),
    }
}

/// Copies a closed volume into the file of that name in a folder, byte by byte; nothing is locked meanwhile. The copy has to have the sum that the volume has
/// in the list.
pub(crate) fn copy_closed(
    rt: &HostRuntime,
    volumes: &Volumes,
    number: u64,
    folder: &str,
    name: &str,
) -> Result<(), SnapshotFault>
    ensures named { OnOk result (is_snapshot_name name.now ≡ true) }
    ensures bad_name { is_snapshot_name name.now ≡ false → result ≡ Err BadName }
{
    write_copy(rt, folder, name, |part| {
        match volumes.copy_closed(number, part) {
            Ok(true) => Ok(()),
            Ok(false) => Err(SnapshotFault::Counts),
            Err(error) if error.kind() == io::ErrorKind::OutOfMemory => Err(SnapshotFault::Memory),
            Err(_) => Err(SnapshotFault::Unwritten),
        }
    })
}

// Why there is no next volume, as the server says it.
fn refusal_of(fault: CarryFault) -> VolumeRefusal
    ensures { result ≡ carry_refusal fault }
{
    match fault {
        CarryFault::Last(StoreFault::Other) => VolumeRefusal::OtherLeft,
        CarryFault::Last(_) => VolumeRefusal::Broken,
        CarryFault::Next(StoreFault::Memory) => VolumeRefusal::Memory,
        CarryFault::Next(_) => VolumeRefusal::Unwritten,
    }
}

// Removes what there is of a next volume that wasn't begun, for that reason.
fn give_up(volumes: &Volumes, number: u64, refusal: VolumeRefusal) -> Unbegun {
    match volumes.remove(number) {
        Ok(()) => Unbegun::Refused(refusal),
        Err(error) => Unbegun::Left(match error.kind() {
            io::ErrorKind::OutOfMemory => StoreError::OutOfMemory,
            io::ErrorKind::StorageFull => StoreError::Full,
            _ => StoreError::Io,
        }),
    }
}

/// Begins the next volume, of that number, with what the last one left, this tree and these procedures; the last one's file is at that path.
pub(crate) fn begin_next(
    rt: &HostRuntime,
    volumes: &Volumes,
    last: &mut Ledger<FileStore<File>>,
    live: &str,
    number: u64,
    tree: &Tree,
    procedures: &Procedures,
) -> Result<(String, Ledger<FileStore<File>>), Unbegun>
    requires { last.old.is_shut ≡ false }
    ensures open { IfOk result (λ next. next.1.is_shut ≡ false) }
    ensures carried { IfOk result (λ next. IsClean (view last.new.store) → IsClean (view next.1.store) → (c : Contents)
        → Holds (view last.old.store).committed c
        → (first : Founding) × Carries c first × IsMarked (after_founding no_contents first) next.1.marks
        × Holds (view next.1.store).committed (after_founding no_contents first)) }
    ensures stored { OnOk result (IsClean (view last.new.store) → (view last.new.store).committed ≡ (view last.old.store).committed) }
    ensures marks { last.new.marks ≡ last.old.marks }
{
    let alloc = rt.alloc();
    let Ok(path) = volumes.path_of(number) else {
        return Err(Unbegun::Refused(VolumeRefusal::Memory));
    };
    // A file that somebody else has put there stays.
    if !matches!(volumes.is_there(number), Ok(false)) {
        return Err(Unbegun::Refused(VolumeRefusal::Unwritten));
    }
    let mut next = match blank_for(rt, volumes, live, path.as_str()) {
        Ok(next) => next,
        Err(refusal) => return Err(give_up(volumes, number, refusal)),
    };
    let refusal = match carry_over(alloc, last, &mut next, tree, procedures) {
        // Another server's start may have removed the file before it was locked.
        Ok(marks) if matches!(volumes.is_there(number), Ok(true)) => {
            return Ok((path, Ledger::new(alloc, next, marks)));
        }
        Ok(_) => VolumeRefusal::Unwritten,
        Err(fault) => refusal_of(fault),
    };
    drop(next);
    Err(give_up(volumes, number, refusal))
}
