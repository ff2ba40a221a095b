// Many calls.

ghost use Rattle.std.specs.Prelude.{◌≤◌, vec_len};
ghost use Rattle.tl_workers.specs.declared.batch.TheConstants.{MAX_REQUESTS, MAX_WORKERS};

use tl_workers::{MAX_REQUESTS, MAX_WORKERS, Request};

/// Many calls, on up to `workers` threads.
#[derive(Debug, Drop)]
pub struct BatchRequest {
    /// 1 to 256 calls.
    pub requests: Vec<Request>,
    /// 1 to 16 threads.
    pub workers: usize,
    ghost some: { 1 ≤ vec_len requests },
    ghost few: { vec_len requests ≤ MAX_REQUESTS },
    ghost one: { 1 ≤ workers },
    ghost within: { workers ≤ MAX_WORKERS },
}
