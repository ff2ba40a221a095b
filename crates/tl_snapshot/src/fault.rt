// Why a store isn't copied.

use sqlite_trees::error::StoreError;

/// Why a store isn't copied.
#[derive(Clone, Copy, Debug, PartialEq, Eq)]
pub enum CopyFault {
    /// The store that is copied fails.
    Source(StoreError),
    /// The store that is written fails.
    Target(StoreError),
}
