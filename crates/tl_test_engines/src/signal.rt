//! A signal from one thread to another.

use std::sync::atomic::{AtomicBool, Ordering};
use std::thread;

/// How often a waiting thread looks at the signal.
const LOOKS: u32 = 1_000_000;

/// Told by one thread and awaited by another one, but not for ever.
#[derive(Drop)]
pub struct Signal {
    was_told: AtomicBool,
    is_late: AtomicBool,
}

impl Signal {
    pub fn new() -> Signal {
        Signal {
            was_told: AtomicBool::new(false),
            is_late: AtomicBool::new(false),
        }
    }

    pub fn tell(&self) {
        self.was_told.store(true, Ordering::SeqCst);
    }

    /// Returns once the signal was told, or after `LOOKS` looks in vain. Then the signal is late.
    pub fn wait(&self) {
        for _ in 0..LOOKS {
            if self.was_told.load(Ordering::SeqCst) {
                return;
            }
            thread::yield_now();
        }
        self.is_late.store(true, Ordering::SeqCst);
    }

    /// The signal was told, and no thread waited for it in vain.
    pub fn came_in_time(&self) -> bool {
        self.was_told.load(Ordering::SeqCst) && !self.is_late.load(Ordering::SeqCst)
    }
}
