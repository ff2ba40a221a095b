// A store, compared with what was run.

ghost use Rattle.std.specs.Prelude.{◌≡◌, ◌≢◌, ℕ, None, Ok};
ghost use Rattle.tl_compare.specs.Epochs.{AreOfEpoch};
ghost use Rattle.tl_compare.specs.declared.reading.EpochRows.{EpochRows as ReadRows};
ghost use Rattle.tl_store.specs.declared.fault.StoreFault.TheVariants.{BadRow, Other};

use crate::volumes::say_unlisted;
use sqlite_std_file::File;
use sqlite_store::FileStore;
use sqlite_trees::error::StoreError;
use sqlite_trees::store::Store;
use std::alloc::Global;
use std::sync::{Arc, Mutex, Wait};
use tl_compare::{EpochRows, check_epoch, read_stored_epoch};
use tl_core::Core;
use tl_journal::LedgerJournal;
use tl_ledger::Ledger;
use tl_server::Journal;
use tl_store::StoreFault;
use tl_table::Closed;
use tl_volume_files::Volumes;

/// A volume that stores nothing more, until it is compared and closed.
#[derive(Drop)]
pub(crate) struct Closing {
    number: u64,
    ledger: Ledger<FileStore<File>>,
}

impl Closing {
    pub(crate) fn new(number: u64, ledger: Ledger<FileStore<File>>) -> Closing {
        Closing { number, ledger }
    }

    // Takes its log into its file, which is closed then.
    fn end(self) -> Result<u64, StoreError> {
        let Closing { number, ledger } = self;
        let mut store = ledger.store;
        store.checkpoint()?;
        Ok(number)
    }
}

/// What the journal of a store shares with who compares the store.
#[derive(Drop)]
pub(crate) struct Shared {
    pub(crate) ledger: LedgerJournal<FileStore<File>>,
    // The volume before the live one, until it is closed.
    pub(crate) closing: Mutex<Option<Closing>>,
    // Why the store isn't what was run, once that was seen.
    pub(crate) difference: Mutex<Option<StoreFault>>,
}

impl Shared {
    /// Whether a volume has still to be closed.
    pub(crate) fn is_closing(&self, rt: &impl Wait) -> bool {
        self.closing.lock(rt).is_some()
    }

    /// Leaves the last volume to who compares it.
    pub(crate) fn close(&self, rt: &impl Wait, last: Closing) {
        *self.closing.lock(rt) = Some(last);
    }

    /// Notes why the store isn't what was run.
    pub(crate) fn differ(&self, rt: &impl Wait, fault: StoreFault) {
        *self.difference.lock(rt) = Some(fault);
    }
}

/// An epoch of a store that isn't what was run, or that can't be read.
#[derive(Clone, Copy, Debug)]
pub struct Difference {
    /// Its number in the store, over all volumes.
    pub epoch: u64,
    /// 1003 and the first table that has other rows; otherwise why the epoch can't be read, or 1090 if it can't be compared.
    pub fault: StoreFault,
}

// The fault with which a server ends where its store has that one.
fn fault_of(fault: StoreFault) -> StoreFault
    ensures other { (table : ℕ) → fault ≡ BadRow table → result ≡ Other }
    ensures same { ((table : ℕ) → fault ≢ BadRow table) → result ≡ fault }
{
    match fault {
        StoreFault::BadRow { .. } => StoreFault::Other,
        other => other,
    }
}

// Why what was read of an epoch isn't known to be the core's. `None` if it is.
fn fault_in(alloc: Global, read: &Result<EpochRows, StoreFault>, core: &Core) -> Option<StoreFault>
    ensures { result ≡ None → (rows : ReadRows) × (read.now ≡ Ok rows) × AreOfEpoch rows core.now.seen }
{
    match read {
        Ok(rows) => match check_epoch(alloc, rows, core) {
            Ok(()) => None,
            Err(fault) => Some(fault),
        },
        Err(fault) => Some(*fault),
    }
}

/// Compares what a store has with what was run, one generation of engines after another.
#[derive(Drop)]
pub struct Comparer {
    shared: Arc<Shared>,
    files: HostRuntime,
    // `None` of a store in one file.
    volumes: Option<Arc<Volumes>>,
    // How many epochs the volumes before the one have that is compared.
    before: u64,
    // The number there of the epoch that comes next.
    epoch: u64,
}

impl Comparer {
    // Before the epoch with that number in the volume that has so many epochs before it.
    pub(crate) fn new(
        shared: Arc<Shared>,
        files: HostRuntime,
        volumes: Option<Arc<Volumes>>,
        before: u64,
        epoch: u64,
    ) -> Comparer {
        Comparer {
            shared,
            files,
            volumes,
            before,
            epoch,
        }
    }

    /// Compares the epochs of the next generation with what the store has of them, once all that came is stored. The ledger is borrowed for one epoch at a
    /// time, and only while its rows are read; so commits wait no longer than that. If the store isn't what was run, or can't be read, nothing more is stored.
    /// An epoch whose rows can't be compared, since memory is refused, is told too, and the store goes on. The first difference is the one that is told.
    /// Where the generation was the last of its volume, that is closed then.
    pub fn compare(
        &mut self,
        rt: &impl Wait,
        alloc: Global,
        chain: &[Closed],
    ) -> Result<(), Difference> {
        let closing = self.shared.closing.lock(rt).take();
        let Some(mut closing) = closing else {
            return self.compare_live(rt, alloc, chain);
        };
        let mut found = Ok(());
        for closed in chain {
            let read = read_of(alloc, &mut closing.ledger, self.epoch);
            let compared = self.judge(rt, alloc, read, closed.core());
            if found.is_ok() {
                found = compared;
            }
        }
        self.before = self.before.saturating_add(self.epoch);
        self.epoch = 0;
        self.finish(closing);
        found
    }

    // The same, where the generation is in the live volume.
    fn compare_live(
        &mut self,
        rt: &impl Wait,
        alloc: Global,
        chain: &[Closed],
    ) -> Result<(), Difference> {
        if self.shared.ledger.store_all(rt, alloc).is_err() {
            // The journal says why, and stores nothing more.
            return Ok(());
        }
        let mut found = Ok(());
        for closed in chain {
            let read = self.read(rt, alloc);
            let compared = self.judge(rt, alloc, read, closed.core());
            if found.is_ok() {
                found = compared;
            }
        }
        found
    }

    // Whether what was read of the next epoch is what was run. Nothing was read where nothing more is stored anyway.
    fn judge(
        &mut self,
        rt: &impl Wait,
        alloc: Global,
        read: Option<Result<EpochRows, StoreFault>>,
        core: &Core,
    ) -> Result<(), Difference> {
        let epoch = self.before.saturating_add(self.epoch);
        self.epoch = self.epoch.saturating_add(1);
        let Some(read) = read else {
            return Ok(());
        };
        let Some(fault) = fault_in(alloc, &read, core) else {
            return Ok(());
        };
        // Rows that can't be compared since memory is refused may be right.
        if read.is_err() || fault != StoreFault::Memory {
            self.refuse(rt, fault_of(fault));
        }
        Err(Difference { epoch, fault })
    }

    // What the live volume has of the next epoch. `None` if nothing more is stored anyway.
    fn read(&self, rt: &impl Wait, alloc: Global) -> Option<Result<EpochRows, StoreFault>> {
        let mut ledger = self.shared.ledger.borrow(rt)?;
        let read = read_stored_epoch(alloc, &mut ledger, self.epoch);
        self.shared.ledger.give_back(rt, ledger);
        Some(read)
    }

    // Closes a volume, and says its place in the folder's list of sums.
    fn finish(&self, closing: Closing) {
        let Ok(number) = closing.end() else {
            // The next start takes its log into its file.
            return;
        };
        let Some(volumes) = &self.volumes else {
            return;
        };
        match volumes.close(number) {
            Ok(sum) => {
                let _shown = eprintln!(&self.files;
                    "treedb: volume {number} is closed; SHA256SUMS has the SHA-256 {sum}"
                );
            }
            Err(error) => say_unlisted(&self.files, number, &error),
        }
    }

    // Lets nothing more be stored.
    fn refuse(&self, rt: &impl Wait, fault: StoreFault) {
        self.shared.differ(rt, fault);
        if let Some(ledger) = self.shared.ledger.borrow(rt) {
            let mut ledger = ledger;
            ledger.is_shut = true;
            self.shared.ledger.give_back(rt, ledger);
        }
    }
}

// What a volume that stores nothing more has of an epoch. `None` if its disk failed before.
fn read_of(
    alloc: Global,
    ledger: &mut Ledger<FileStore<File>>,
    epoch: u64,
) -> Option<Result<EpochRows, StoreFault>> {
    if ledger.is_shut {
        return None;
    }
    Some(read_stored_epoch(alloc, ledger, epoch))
}
