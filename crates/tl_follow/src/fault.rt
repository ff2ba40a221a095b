// Why no rows are read.

ghost use Rattle.std.specs.Prelude.{◌≡◌};
ghost use Rattle.tl_follow.specs.declared.fault.FollowFault.TheVariants.{Unread};

use thiserror::Error;
use tl_ledger::ReadFault;

/// Why no rows are read.
#[derive(Clone, Copy, Debug, PartialEq, Eq, Error)]
pub enum FollowFault {
    /// The store doesn't have as many rows as the position says, or a seal that isn't behind it.
    #[error("the position isn't one of this store")]
    NotThere,
    /// The store isn't read.
    #[error("the store isn't read")]
    Unread(ReadFault),
}

impl From<ReadFault> for FollowFault {
    ghost from_gives = { λ fault wider. wider ≡ Unread fault };

    fn from(fault: ReadFault) -> FollowFault {
        FollowFault::Unread(fault)
    }
}
