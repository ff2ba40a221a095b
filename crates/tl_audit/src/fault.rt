// What is wrong with a trail.

ghost use Rattle.std.specs.Prelude.{◌≡◌};
ghost use Rattle.tl_audit.specs.declared.fault.AuditFault.TheVariants as audit;
ghost use Rattle.tl_audit.specs.Faults.{audit_numbers_of};

use arrayvec::ArrayVec;
use std::alloc::{AllocError, AllocFailed};
use thiserror::Error;

/// What is wrong with a trail.
#[derive(Clone, Copy, Debug, PartialEq, Eq, Error)]
pub enum AuditFault {
    /// 711 and the event, numbered from 0: an admission whose call isn't the number of admissions before it; an event of a
    /// call before its admission or after its end; a lock, other than the call's first, of a node whose parent it doesn't
    /// hold; a second lock of a node by one call; a free of a node that its call doesn't hold; an end while the call holds
    /// a node.
    #[error("event {event} breaks a rule")]
    RuleBroken { event: u32 },
    /// 712 and the event: a lock of a node that another call holds.
    #[error("event {event} locks a node that another call holds")]
    Overlap { event: u32 },
    /// 713 and the event: the record found isn't the last one left there, or, if none was left, the opening record.
    #[error("event {event} finds another record than was left")]
    WrongFound { event: u32 },
    /// 714 and the call: its locks and frees aren't those of the call run alone on the opening tree with the records that
    /// it found.
    #[error("call {call} does not do what its procedure does")]
    NotGenuine { call: u32 },
    /// 715 and the call: it has no end.
    #[error("call {call} isn't done")]
    Unfinished { call: u32 },
    /// 716 and the node: its record in the end isn't the last one left, or, if none was left, the opening record.
    #[error("node {node} has another record in the end than was left")]
    WrongEnd { node: u32 },
    /// 717 and the call: its reply isn't that of the same run alone.
    #[error("the reply of call {call} isn't what its procedure answers")]
    WrongReply { call: u32 },
    /// 790: memory was refused.
    #[error("out of memory")]
    Memory,
}

impl AuditFault {
    /// The fault's number, then the event, the call or the node.
    pub fn numbers(&self) -> ArrayVec<u64, 3>
        ensures { result.items ≡ audit_numbers_of self.now }
    {
        let (number, part) = match *self {
            AuditFault::RuleBroken { event } => (711, Some(u64::from(event))),
            AuditFault::Overlap { event } => (712, Some(u64::from(event))),
            AuditFault::WrongFound { event } => (713, Some(u64::from(event))),
            AuditFault::NotGenuine { call } => (714, Some(u64::from(call))),
            AuditFault::Unfinished { call } => (715, Some(u64::from(call))),
            AuditFault::WrongEnd { node } => (716, Some(u64::from(node))),
            AuditFault::WrongReply { call } => (717, Some(u64::from(call))),
            AuditFault::Memory => (790, None),
        };
        let mut numbers = ArrayVec::new();
        numbers.push(number);
        if let Some(part) = part {
            numbers.push(part);
        }
        numbers
    }
}

impl From<AllocError> for AuditFault {
    ghost from_gives = { λ _ e. e ≡ audit.Memory };

    fn from(_refused: AllocError) -> AuditFault {
        AuditFault::Memory
    }
}

impl<T: Drop> From<AllocFailed<T>> for AuditFault {
    ghost from_gives = { λ _ e. e ≡ audit.Memory };

    fn from(_refused: AllocFailed<T>) -> AuditFault {
        AuditFault::Memory
    }
}
