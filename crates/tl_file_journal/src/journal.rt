// The journal of a store in a file.

ghost use Rattle.std.specs.Prelude.{◌≡◌, false};
ghost use Rattle.tl_file_journal.specs.Copying.{refusal_of};

use crate::comparing::{Closing, Comparer, Shared};
use crate::following::closed_behind;
use crate::volumes::{Unbegun, begin_next, copy_closed};
use sqlite_std_file::File;
use sqlite_store::FileStore;
use sqlite_trees::error::StoreError;
use sqlite_trees::store::Store;
use std::alloc::Global;
use std::mem;
use std::sync::{Arc, Mutex, Wait};
use std::time::Clock;
use tl_file_snapshot::{SnapshotFault, check_name, write_snapshot};
use tl_follow::line_of;
use tl_generations::Legacy;
use tl_journal::{JournalParts, LedgerJournal, marks_at};
use tl_ledger::Ledger;
use tl_procedures::Procedures;
use tl_server::{
    Claim, CopyRefusal, Follow, FollowRefusal, Journal, NoJournal, Position, Storage, TABLES,
    Unstored, VolumeRefusal,
};
use tl_store::StoreFault;
use tl_store_commands::end_store;
use tl_volume_files::Volumes;
use tl_workers::Engine;

/// Where a store is written now.
#[derive(Drop)]
pub(crate) struct Live {
    // The path of its file, or of its live volume's.
    pub(crate) path: String,
    // How many epochs the volumes before it have.
    pub(crate) number: u64,
    // Whether it was said that no new volume can be begun.
    pub(crate) is_told: bool,
}

/// How a store goes on in new volumes.
#[derive(Drop)]
pub(crate) struct Turning {
    pub(crate) volumes: Arc<Volumes>,
    // How many calls a volume takes.
    pub(crate) calls: u64,
}

/// The journal of a store in a file. As a type of its own it hides the types of the file: what serves is proved without them.
#[derive(Drop)]
pub struct FileJournal {
    pub(crate) shared: Arc<Shared>,
    // How many epochs the store had when it was opened.
    pub(crate) epochs: u64,
    // Where the files are, the store's, and the folder of the copies.
    pub(crate) files: HostRuntime,
    pub(crate) live: Mutex<Live>,
    // `None` of a store in one file.
    pub(crate) turning: Option<Turning>,
    pub(crate) copies: Option<String>,
}

// Why there is no copy, as the server says it.
fn refusal_of(fault: SnapshotFault) -> CopyRefusal
    ensures { result ≡ refusal_of fault }
{
    match fault {
        SnapshotFault::BadName | SnapshotFault::Taken => CopyRefusal::BadName,
        SnapshotFault::Unwritten => CopyRefusal::Unwritten,
        SnapshotFault::Counts => CopyRefusal::OtherCounts,
        SnapshotFault::Source(_) => CopyRefusal::Broken,
        SnapshotFault::Memory => CopyRefusal::Memory,
    }
}

/// A journal that can be ended.
pub trait End {
    /// Lets answers wait until a follower holds what they rest on.
    fn wait_for_holder(&self, rt: &impl Wait);

    /// Who compares what is stored with what is run from now on. `None` if nothing is stored.
    fn comparer(&self, rt: &impl Wait) -> Option<Comparer>;

    /// Stores what is left, and takes it into the file, once who compares it is gone. 1014 if the store wasn't what was run, or doesn't have then what the
    /// last engine left, where that has closed.
    fn end(self, rt: &impl Wait, alloc: Global, left: Option<&Legacy>) -> Result<(), StoreFault>;
}

impl End for NoJournal {
    fn wait_for_holder(&self, _rt: &impl Wait) {}

    fn comparer(&self, _rt: &impl Wait) -> Option<Comparer> {
        None
    }

    fn end(
        self,
        _rt: &impl Wait,
        _alloc: Global,
        _left: Option<&Legacy>,
    ) -> Result<(), StoreFault> {
        Ok(())
    }
}

impl Journal for FileJournal {
    ghost use Rattle.std.specs.Prelude.{true};

    ghost is_storing = { λ _. true };

    fn stores(&self) -> bool {
        true
    }

    fn gather(&self, rt: &impl Wait, alloc: Global, engine: &Engine, base: u32) {
        self.shared.ledger.gather(rt, alloc, engine, base);
    }

    fn close(&self, rt: &impl Wait, alloc: Global, engine: &Engine, base: u32) {
        self.shared.ledger.close(rt, alloc, engine, base);
    }

    fn claim(
        &self,
        rt: &impl Wait,
        alloc: Global,
        engine: &Engine,
        session: u32,
        key: &str,
    ) -> Claim {
        self.shared.ledger.claim(rt, alloc, engine, session, key)
    }

    fn release(&self, rt: &impl Wait, alloc: Global, engine: &Engine, session: u32) {
        self.shared.ledger.release(rt, alloc, engine, session);
    }

    fn grow(&self, rt: &impl Wait, alloc: Global, parents: &[i64], epoch: u32) {
        self.shared.ledger.grow(rt, alloc, parents, epoch);
    }

    fn replace(&self, rt: &impl Wait, alloc: Global, others: &Procedures) {
        self.shared.ledger.replace(rt, alloc, others);
    }

    fn settle(&self, rt: &impl Wait, alloc: Global) -> Result<(), Unstored> {
        self.shared.ledger.settle(rt, alloc)
    }

    fn end_waits(&self, rt: &impl Wait) {
        self.shared.ledger.end_waits(rt);
    }
}

impl Storage for FileJournal {
    fn volume(&self, rt: &impl Wait) -> Option<u64> {
        if self.turning.is_none() {
            return None;
        }
        Some(self.live.lock(rt).number)
    }

    fn is_full(&self, rt: &impl Wait) -> bool {
        match &self.turning {
            Some(turning) => self.shared.ledger.calls(rt) >= turning.calls,
            None => false,
        }
    }

    fn carry_over(
        &self,
        rt: &impl Wait,
        alloc: Global,
        left: &Legacy,
    ) -> Result<u64, VolumeRefusal> {
        let Some(turning) = &self.turning else {
            return Err(VolumeRefusal::NoVolumes);
        };
        if self.shared.ledger.store_all(rt, alloc).is_err() {
            return Err(VolumeRefusal::Broken);
        }
        let mut live = self.live.lock(rt);
        let turned = self.turn(rt, &turning.volumes, &mut *live, left);
        if let Err(refusal) = turned {
            if !live.is_told {
                live.is_told = true;
                let _shown = eprintln!(&self.files; "treedb: {} goes on: {refusal}", live.path);
            }
        }
        turned
    }

    fn may_copy(&self, name: &str) -> Result<(), CopyRefusal> {
        match &self.copies {
            Some(folder) => { check_name(&self.files, folder.as_str(), name).map_err(refusal_of) }
            None => Err(CopyRefusal::NoCopies),
        }
    }

    fn copy(
        &self,
        rt: &impl Wait,
        _alloc: Global,
        name: &str,
        closed: Option<u64>,
    ) -> Result<(), CopyRefusal> {
        let Some(folder) = &self.copies else {
            return Err(CopyRefusal::NoCopies);
        };
        if let (Some(number), Some(turning)) = (closed, &self.turning) {
            let (files, volumes) = (&self.files, &turning.volumes);
            return copy_closed(files, volumes, number, folder.as_str(), name).map_err(refusal_of);
        }
        let live = self.live.lock(rt);
        let Some(ledger) = self.shared.ledger.borrow(rt) else {
            return Err(CopyRefusal::Broken);
        };
        let mut ledger = ledger;
        let written = write_snapshot(
            &self.files,
            &mut ledger,
            live.path.as_str(),
            folder.as_str(),
            name,
        );
        self.shared.ledger.give_back(rt, ledger);
        written.map_err(refusal_of)
    }

    fn answer_follower<R: Wait + Clock>(
        &self,
        rt: &R,
        alloc: Global,
        follow: &Follow,
    ) -> Result<String, FollowRefusal> {
        let from = match follow.from {
            Some(from) => from,
            None => Position {
                volume: self.first_volume(rt)?,
                rows: [0; TABLES],
            },
        };
        let (volume, place) = (from.volume, marks_at(&from.rows));
        if follow.holds {
            self.shared.ledger.hold(rt, volume, place);
        }
        let ledger = &self.shared.ledger;
        let found = ledger.look_behind(rt, alloc, volume, &place, follow.records, follow.wait)?;
        let (volume, found) = match (found, &self.turning) {
            (Some(found), _) => (volume, found),
            (None, Some(turning)) => {
                closed_behind(
                    &self.files,
                    &turning.volumes,
                    volume,
                    &place,
                    follow.records,
                )?
            }
            (None, None) => return Err(FollowRefusal::NotThere),
        };
        Ok(line_of(alloc, volume, &found)?)
    }
}

impl FileJournal {
    // The number of the first volume that there is.
    fn first_volume(&self, rt: &impl Wait) -> Result<u64, FollowRefusal> {
        let Some(turning) = &self.turning else {
            return Ok(0);
        };
        match turning.volumes.numbers() {
            Ok(numbers) => Ok(numbers.first().copied().unwrap_or(0)),
            Err(_) => Err(FollowRefusal::Broken),
        }
    }

    // Goes on in the volume after the live one, once all that came is stored. The number of the live volume.
    fn turn(
        &self,
        rt: &impl Wait,
        volumes: &Volumes,
        live: &mut Live,
        left: &Legacy,
    ) -> Result<u64, VolumeRefusal> {
        let Some(ledger) = self.shared.ledger.borrow(rt) else {
            return Err(VolumeRefusal::Broken);
        };
        let mut last = ledger;
        if last.marks.calls == 0 {
            self.shared.ledger.give_back(rt, last);
            return Ok(live.number);
        }
        if self.shared.is_closing(rt) {
            self.shared.ledger.give_back(rt, last);
            return Err(VolumeRefusal::Unwritten);
        }
        let number = live.number.saturating_add(last.marks.seals);
        let (files, path) = (&self.files, live.path.as_str());
        let (tree, procedures) = (left.tree(), left.procedures());
        match begin_next(files, volumes, &mut last, path, number, tree, procedures) {
            Ok((path, next)) => self.go_on(rt, live, last, path, number, next),
            Err(Unbegun::Refused(refusal)) => {
                if refusal == VolumeRefusal::OtherLeft {
                    self.shared.differ(rt, StoreFault::Other);
                }
                self.shared.ledger.give_back(rt, last);
                Err(refusal)
            }
            Err(Unbegun::Left(fault)) => {
                self.shared.ledger.give_up(rt, last, fault);
                Err(VolumeRefusal::Broken)
            }
        }
    }

    // Goes on in the next volume, of that path and number, which was begun with what the last one left.
    fn go_on(
        &self,
        rt: &impl Wait,
        live: &mut Live,
        last: Ledger<FileStore<File>>,
        path: String,
        number: u64,
        next: Ledger<FileStore<File>>,
    ) -> Result<u64, VolumeRefusal>
        requires { next.is_shut ≡ false }
    {
        if self.shared.ledger.turn_over(rt, next).is_err() {
            // A start would take up the next one, so nothing more may be stored in the last.
            self.shared.ledger.give_up(rt, last, StoreError::Broken);
            return Err(VolumeRefusal::Broken);
        }
        self.shared.close(rt, Closing::new(live.number, last));
        live.path = path;
        live.number = number;
        live.is_told = false;
        Ok(number)
    }
}

impl End for FileJournal {
    fn wait_for_holder(&self, rt: &impl Wait) {
        self.shared.ledger.wait_for_holder(rt);
    }

    fn comparer(&self, rt: &impl Wait) -> Option<Comparer> {
        let volumes = match &self.turning {
            Some(turning) => Some(Arc::try_clone(&turning.volumes).ok()?),
            None => None,
        };
        let shared = Arc::try_clone(&self.shared).ok()?;
        let live = self.live.lock(rt).number;
        Some(Comparer::new(shared, self.files, volumes, live, self.epochs))
    }

    fn end(self, rt: &impl Wait, alloc: Global, left: Option<&Legacy>) -> Result<(), StoreFault> {
        let Some(shared) = Arc::into_inner(self.shared) else {
            return Err(StoreFault::Other);
        };
        let Shared {
            ledger,
            closing: _,
            difference,
        } = shared;
        match difference.into_inner() {
            Some(fault) => Err(fault),
            None => end_ledger(rt, alloc, ledger, left),
        }
    }
}

// Stores what is left, compares it with what the last engine left, and takes it into the file.
fn end_ledger(
    rt: &impl Wait,
    alloc: Global,
    journal: LedgerJournal<FileStore<File>>,
    left: Option<&Legacy>,
) -> Result<(), StoreFault> {
    let settled = journal.store_all(rt, alloc);
    let JournalParts {
        ledger,
        fault,
        pending: _,
    } = journal.into_parts();
    if let Some(name) = fault {
        return Err(StoreFault::of_disk(name));
    }
    let (Ok(()), Some(ledger)) = (settled, ledger) else {
        return Err(StoreFault::Memory);
    };
    let Some(left) = left else {
        return take_in(ledger.store);
    };
    let ledger = end_store(alloc, ledger, left.tree(), left.procedures())?;
    take_in(ledger.store)
}

// Takes all of a store into its file.
fn take_in(store: FileStore<File>) -> Result<(), StoreFault> {
    let mut store = store;
    match store.checkpoint() {
        Ok(()) => Ok(()),
        Err(name) => Err(StoreFault::of_disk(name)),
    }
}
