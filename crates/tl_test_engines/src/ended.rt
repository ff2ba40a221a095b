// The results of a closed table.

use std::alloc::Global;
use std::test::Fail;
use tl_audit::{MAX_TRAILS, Trail, audit_chain};
use tl_record::trail_of;
use tl_serial_order::Order;
use tl_table::{Closed, Receipt};
use tl_trail::write_chain;
use tl_tree::Record;
use tl_tree_locking::Event;
use tl_workers::Session;

/// The epochs of a closed table, and the sessions with which it was closed. An audit of what its calls have done is clean.
#[derive(Drop)]
pub struct Ended {
    chain: Vec<Closed>,
    sessions: Vec<Session>,
    audited: Vec<Order>,
}

impl Ended {
    // An `Err` if an audit of what the calls have done finds a fault.
    pub(crate) fn of(
        alloc: Global,
        chain: Vec<Closed>,
        sessions: Vec<Session>,
    ) -> Result<Ended, Fail> {
        match audited(alloc, chain.as_slice()) {
            Ok(audited) => Ok(Ended {
                chain,
                sessions,
                audited,
            }),
            Err(fail) => Err(fail),
        }
    }

    /// The sessions with which the table was closed.
    pub fn sessions(&self) -> &[Session] {
        self.sessions.as_slice()
    }

    /// How many epochs there were.
    pub fn epochs(&self) -> usize {
        self.chain.len()
    }

    /// The records at the end.
    pub fn records(&self) -> &[Record] {
        match self.chain.last() {
            Some(closed) => closed.core().tree().records(),
            None => &[],
        }
    }

    /// The events of the last epoch.
    pub fn events(&self) -> &[Event] {
        match self.chain.last() {
            Some(closed) => closed.core().history().events(),
            None => &[],
        }
    }

    /// The order that the closed table keeps for an epoch. `epoch` counts from 0.
    pub fn order_in(&self, epoch: usize) -> &[u32] {
        match self.chain.get(epoch) {
            Some(closed) => closed.order().calls(),
            None => &[],
        }
    }

    /// The order that an audit of the trails finds for an epoch. `epoch` counts from 0.
    pub fn audited_in(&self, epoch: usize) -> &[u32] {
        match self.audited.get(epoch) {
            Some(order) => order.calls(),
            None => &[],
        }
    }

    /// The order that the closed table keeps for the first epoch.
    pub fn order(&self) -> &[u32] {
        self.order_in(0)
    }

    /// The order that an audit of the trail finds for the first epoch.
    pub fn audited(&self) -> &[u32] {
        self.audited_in(0)
    }

    /// The text of the chain with the trails of all epochs.
    pub fn chain_text(&self, alloc: Global) -> Result<String, Fail> {
        let trails = trails_of(alloc, self.chain.as_slice())?;
        Ok(write_chain(alloc, &trails)?)
    }

    /// Whether the receipt stands in the epoch that it names.
    pub fn stands(&self, receipt: &Receipt) -> bool {
        match self.chain.get(receipt.epoch as usize) {
            Some(closed) => closed.stands(receipt),
            None => false,
        }
    }

    /// Whether the receipt stands in that epoch.
    pub fn stands_in(&self, epoch: usize, receipt: &Receipt) -> bool {
        match self.chain.get(epoch) {
            Some(closed) => closed.stands(receipt),
            None => false,
        }
    }
}

// The orders that an audit finds for the epochs. An `Err` if the audit isn't clean.
fn audited(alloc: Global, chain: &[Closed]) -> Result<Vec<Order>, Fail> {
    let trails = trails_of(alloc, chain)?;
    if trails.is_empty() || trails.len() > MAX_TRAILS {
        return Err("no chain".into());
    }
    Ok(audit_chain(alloc, &trails)?)
}

fn trails_of(alloc: Global, chain: &[Closed]) -> Result<Vec<Trail>, Fail> {
    let mut trails = Vec::with_capacity(alloc, chain.len())?;
    for closed in chain {
        trails.push(trail_of(alloc, closed.core())?)?;
    }
    Ok(trails)
}
