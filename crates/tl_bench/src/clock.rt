// The clock of the machine.

use libc::types::timespec;

/// The nanoseconds since some fixed moment, by a clock that never goes back.
pub fn now() -> u64 {
    let mut time = timespec {
        tv_sec: 0,
        tv_nsec: 0,
    };
    if libc::clock_gettime(libc::CLOCK_MONOTONIC, &mut time) != 0 {
        return 0;
    }
    time.tv_sec
        .unsigned_abs()
        .wrapping_mul(1_000_000_000)
        .wrapping_add(time.tv_nsec.unsigned_abs())
}
