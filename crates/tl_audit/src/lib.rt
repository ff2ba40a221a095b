//! An auditor of trails.
//!
//! The auditor trusts nobody who wrote a trail. It builds on the machine and on the protocol, not on the core: a fault of
//! the core can't hide behind the same fault in its checker.
#![tactic(auto)]

mod auditing;
mod chain;
mod fault;
mod genuine;
pub mod laws;
mod progress;
mod replays;
mod watch;

pub use auditing::{audit, audit_with};
pub use chain::{ChainFault, audit_chain, audit_chain_after, audit_chain_with, replaced_names};
pub use fault::AuditFault;
pub use progress::{EVENTS_BETWEEN, Progress, Silent};
pub use tl_trail::{
    MAX_TRAILS, Trail, TrailFault, read_chain, read_trail, write_chain, write_trail,
};
