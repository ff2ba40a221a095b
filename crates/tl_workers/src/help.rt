// When other workers help with a batch.

use std::sync::atomic::{AtomicBool, AtomicU64, Ordering};
use std::sync::{Condvar, Wait};
use std::time::Duration;
use tl_table::Table;

// From so many instructions a turn on, another worker is a gain. With fewer, the time in which the table's lock goes from one processor
// to another is more than what two workers save.
const MANY: u64 = 500;

// After so many microseconds in which no call of the batch was taken, another worker helps in any case.
const PATIENCE: u64 = 200;

// A new measurement counts as one part in so many.
const PARTS: u64 = 8;

/// What the workers of a batch, or of all batches with which a crew helps, know of the calls: one worker runs short calls as fast as
/// many, so the others help only if calls do much between two stops, or if nobody takes the next one.
#[derive(Drop)]
pub(crate) struct Help {
    // How many instructions calls do a turn, in the mean of the latest ones.
    pace: AtomicU64,
    // How many calls were taken.
    taken: AtomicU64,
    is_over: AtomicBool,
    // Notified when help is wanted, and when the batch is over.
    called: Condvar,
}

impl Help {
    /// For a batch of which nothing is known yet.
    pub(crate) fn new() -> Help {
        Help {
            pace: AtomicU64::new(0),
            taken: AtomicU64::new(0),
            is_over: AtomicBool::new(false),
            called: Condvar::new(),
        }
    }

    /// Whether a call was taken.
    pub(crate) fn has_begun(&self) -> bool {
        self.taken.load(Ordering::SeqCst) > 0
    }

    /// A call is taken.
    pub(crate) fn take(&self) {
        self.taken.fetch_add(1, Ordering::SeqCst);
    }

    /// So many instructions a turn are expected of calls before any has run.
    pub(crate) fn expect(&self, pace: u64) {
        self.pace.store(pace, Ordering::SeqCst);
        if pace >= MANY {
            self.called.notify_all();
        }
    }

    /// A call has ended that did so many instructions a turn, in the mean.
    pub(crate) fn learn(&self, pace: u64) {
        let before = self.pace.load(Ordering::SeqCst);
        let after = (before - before / PARTS).saturating_add(pace / PARTS);
        self.pace.store(after, Ordering::SeqCst);
        if before < MANY && after >= MANY {
            self.called.notify_all();
        }
    }

    /// Calls became ready: whoever waits for the next one takes it if that pays.
    pub(crate) fn announce(&self) {
        if self.pays() {
            self.called.notify_all();
        }
    }

    /// Whether calls do so much a turn that another worker is a gain.
    pub(crate) fn pays(&self) -> bool {
        self.pace.load(Ordering::SeqCst) >= MANY
    }

    /// A batch begins, and none was under way.
    pub(crate) fn begin(&self) {
        self.is_over.store(false, Ordering::SeqCst);
    }

    /// No batch is under way. Nobody is woken: whoever watches finds out within its patience, or finds the next batch.
    pub(crate) fn rest(&self) {
        self.is_over.store(true, Ordering::SeqCst);
    }

    /// The batch is over.
    pub(crate) fn end(&self) {
        self.is_over.store(true, Ordering::SeqCst);
        self.called.notify_all();
    }

    /// Waits until calls may have become ready.
    pub(crate) fn pause(&self, rt: &impl Wait) {
        let seen = self.called.notifications();
        self.called.sleep(rt, seen, Duration::from_micros(PATIENCE));
    }

    /// Waits until help is wanted. False if the batch is over.
    pub(crate) fn is_wanted(&self, rt: &impl Wait) -> bool {
        for _ in rt.forever() {
            let seen = self.called.notifications();
            if self.is_over.load(Ordering::SeqCst) {
                return false;
            }
            if self.pays() {
                return true;
            }
            let taken = self.taken.load(Ordering::SeqCst);
            self.called.sleep(rt, seen, Duration::from_micros(PATIENCE));
            if self.called.notifications() == seen && self.taken.load(Ordering::SeqCst) == taken {
                return true;
            }
        }
        unreachable!()
    }
}

/// How many instructions the call does a turn at most, in the mean: it has a turn for each lock and each free, and one that ends it.
pub(crate) fn expected_pace(table: &Table, call: u32) -> u64 {
    let core = table.core();
    if call as usize >= core.calls() {
        return 0;
    }
    let (procedure, _args) = core.request(call);
    let bounds = core.proc(procedure).bounds();
    u64::from(bounds.steps) / (2 * u64::from(bounds.locks) + 1)
}
