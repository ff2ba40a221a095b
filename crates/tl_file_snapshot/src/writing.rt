// A copy in a file of a folder.

ghost use Rattle.std.specs.Prelude.{◌≡◌, false, true, Err, OnOk};
ghost use Rattle.sqlite_trees.specs.View.{IsClean, IsQuiet};
ghost use Rattle.sqlite_trees.specs.declared.error.StoreError.{StoreError as Failure};
ghost use Rattle.tl_file_snapshot.specs.Names.{is_snapshot_name};
ghost use Rattle.tl_file_snapshot.specs.declared.fault.SnapshotFault.{SnapshotFault as Fault};
ghost use Rattle.tl_file_snapshot.specs.declared.fault.SnapshotFault.TheVariants.{BadName, Source};

use crate::fault::SnapshotFault;
use crate::filling::fill;
use crate::name::is_snapshot_name;
use sqlite_trees::store::Store;
use std::alloc::{AllocError, Global};
use std::os::unix::fs::PermissionsExt;
use std::{fs, io};
use tl_ledger::Ledger;
use tl_store_file::{Found, open_with_mode};

// The files of a copy: what it is named in the end, and before it is whole.
#[derive(Drop)]
struct Paths {
    whole: String,
    part: String,
    // The log beside the part.
    log: String,
}

impl Paths {
    fn new(alloc: Global, folder: &str, name: &str) -> Result<Paths, AllocError> {
        Ok(Paths {
            whole: format!(in alloc; "{folder}/{name}")?,
            part: format!(in alloc; "{folder}/{name}.part")?,
            log: format!(in alloc; "{folder}/{name}.part-wal")?,
        })
    }

    // Whether there is a file of the copy's name, or one that SQLite would take for its log.
    fn are_taken(&self, rt: &HostRuntime) -> Result<bool, AllocError> {
        for end in ["", "-wal", "-journal"] {
            let path = format!(in rt.alloc(); "{}{end}", self.whole)?;
            if fs::symlink_metadata(rt, path.as_str()).is_ok() {
                return Ok(true);
            }
        }
        Ok(false)
    }

    // Removes what isn't whole.
    fn remove_part(&self, rt: &HostRuntime) {
        let _gone = fs::remove_file(rt, self.log.as_str());
        let _gone = fs::remove_file(rt, self.part.as_str());
    }

    // Gives the whole copy its name. Its log, if it has one, which holds no page, goes first: one of another file would be taken for it.
    fn finish(&self, rt: &HostRuntime, folder: &str) -> io::Result<()> {
        match fs::remove_file(rt, self.log.as_str()) {
            Err(error) if error.kind() == io::ErrorKind::NotFound => {}
            removed => removed?,
        }
        fs::rename(rt, self.part.as_str(), self.whole.as_str())?;
        let synced = sync_folder(rt, folder);
        if synced.is_err() {
            let _gone = fs::remove_file(rt, self.whole.as_str());
        }
        synced
    }
}

// Makes sure that the names in a folder are on the disk.
fn sync_folder(rt: &HostRuntime, folder: &str) -> io::Result<()> {
    fs::open(rt, folder)?.sync_all()
}

// Who may read and write a store's file.
fn mode_of(rt: &HostRuntime, store: &str) -> Result<u32, SnapshotFault> {
    match fs::metadata(rt, store) {
        Ok(metadata) => Ok(metadata.permissions().mode() & 0o777),
        Err(_) => Err(SnapshotFault::Unwritten),
    }
}

// Writes a copy into the part, which gets the mode of the store's file. The files are closed then.
fn write_part<S: Store>(
    rt: &HostRuntime,
    ledger: &mut Ledger<S>,
    store: &str,
    part: &str,
) -> Result<(), SnapshotFault>
    requires open { ledger.old.is_shut ≡ false }
    ensures shut { ledger.new.is_shut ≡ true → (error : Failure) × (result ≡ Err (Source error)) }
    ensures stored { ledger.new.is_shut ≡ false → IsClean (S.Store.view ledger.new.store) → (S.Store.view ledger.new.store).committed ≡ (S.Store.view ledger.old.store).committed }
    ensures marks { ledger.new.marks ≡ ledger.old.marks }
    ensures quiet { IsQuiet S.Store.view S.Store.faults S.Store.recovers S.Store.is_shielded ledger.old.store ledger.new.store }
{
    match open_with_mode(rt, part, mode_of(rt, store)?)? {
        Found::Blank(blank) => {
            let copy = fill(rt.alloc(), ledger, blank)?;
            drop(copy.close());
            Ok(())
        }
        Found::Store(_) => Err(SnapshotFault::Unwritten),
    }
}

// The files of a copy of that name, of which there is none yet.
fn free_paths(rt: &HostRuntime, folder: &str, name: &str) -> Result<Paths, SnapshotFault>
    ensures named { OnOk result (is_snapshot_name name.now ≡ true) }
    ensures bad_name { is_snapshot_name name.now ≡ false → result ≡ Err BadName }
{
    if !is_snapshot_name(name) {
        return Err(SnapshotFault::BadName);
    }
    let Ok(paths) = Paths::new(rt.alloc(), folder, name) else {
        return Err(SnapshotFault::Memory);
    };
    match paths.are_taken(rt) {
        Ok(false) => Ok(paths),
        Ok(true) => Err(SnapshotFault::Taken),
        Err(_) => Err(SnapshotFault::Memory),
    }
}

// Gives what was written its name, if all was; otherwise nothing is left of it.
fn conclude(
    rt: &HostRuntime,
    paths: &Paths,
    folder: &str,
    written: Result<(), SnapshotFault>,
) -> Result<(), SnapshotFault>
    ensures { (fault : Fault) → written ≡ Err fault → result ≡ Err fault }
{
    if written.is_ok() && paths.finish(rt, folder).is_ok() {
        return Ok(());
    }
    paths.remove_part(rt);
    match written {
        Ok(()) => Err(SnapshotFault::Unwritten),
        Err(fault) => Err(fault),
    }
}

/// Whether a copy in that folder may have that name, and no file has it yet.
pub fn check_name(rt: &HostRuntime, folder: &str, name: &str) -> Result<(), SnapshotFault>
    ensures named { OnOk result (is_snapshot_name name.now ≡ true) }
    ensures bad_name { is_snapshot_name name.now ≡ false → result ≡ Err BadName }
{
    free_paths(rt, folder, name)?;
    Ok(())
}

/// Writes a copy into the file of that name in a folder: `write` makes and writes the file of the path that it is given, and has it on the disk in the end.
/// Until it is whole, its name ends with `.part`; where it doesn't become whole, no file is left. A file that is there isn't replaced.
pub fn write_copy<W>(
    rt: &HostRuntime,
    folder: &str,
    name: &str,
    write: W,
) -> Result<(), SnapshotFault>
where
    W: FnOnce(&str) -> Result<(), SnapshotFault> + Drop,
    requires { W.IsAlwaysCallable write }
    ensures named { OnOk result (is_snapshot_name name.now ≡ true) }
    ensures bad_name { is_snapshot_name name.now ≡ false → result ≡ Err BadName }
{
    let paths = free_paths(rt, folder, name)?;
    // What an earlier one has left that was cut off.
    paths.remove_part(rt);
    let written = write(paths.part.as_str());
    conclude(rt, &paths, folder, written)
}

/// Writes all that a ledger has stored into the file of that name in a folder: a store that a server can take up, in one file, without a log, of the mode
/// that `store` has, the ledger's file. Until it is whole, its name ends with `.part`; where it doesn't become whole, no file is left. A file that is there
/// isn't replaced. The ledger stays as it is; only if its own store fails, it is shut.
pub fn write_snapshot<S: Store>(
    rt: &HostRuntime,
    ledger: &mut Ledger<S>,
    store: &str,
    folder: &str,
    name: &str,
) -> Result<(), SnapshotFault>
    requires open { ledger.old.is_shut ≡ false }
    ensures named { OnOk result (is_snapshot_name name.now ≡ true) }
    ensures bad_name { is_snapshot_name name.now ≡ false → result ≡ Err BadName }
    ensures shut { ledger.new.is_shut ≡ true → (error : Failure) × (result ≡ Err (Source error)) }
    ensures stored { ledger.new.is_shut ≡ false → IsClean (S.Store.view ledger.new.store) → (S.Store.view ledger.new.store).committed ≡ (S.Store.view ledger.old.store).committed }
    ensures marks { ledger.new.marks ≡ ledger.old.marks }
    ensures quiet { IsQuiet S.Store.view S.Store.faults S.Store.recovers S.Store.is_shielded ledger.old.store ledger.new.store }
{
    let paths = free_paths(rt, folder, name)?;
    // What an earlier one has left that was cut off.
    paths.remove_part(rt);
    let written = write_part(rt, ledger, store, paths.part.as_str());
    conclude(rt, &paths, folder, written)
}
