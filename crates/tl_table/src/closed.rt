// An epoch at rest, and what follows from its order.

ghost use Rattle.std.specs.Prelude.{◌≡◌, ◌<◌, ◌≤◌, ◌↔◌, All, map, length, false, IsTrue, IsOk, IfOk, IfErr, MatchOption};
ghost use Rattle.tl_tree_locking.specs.Alone.{serial};
ghost use Rattle.tl_tree_locking.specs.History.{is_done, records_now};
ghost use Rattle.tl_tree_locking.specs.Order.{placed, Agrees};
ghost use Rattle.tl_tree_locking.specs.World.{reply_of};
ghost use Rattle.tl_core.specs.declared.fault.CoreFault.TheVariants as core_fault;
ghost use Rattle.tl_history.specs.declared.history.TheConstants.{MAX_CALLS};
ghost use Rattle.tl_core.specs.Cores.{world_of};
ghost use Rattle.tl_table.specs.declared.fault.TableFault.TheVariants as fault;
ghost use Rattle.tl_table.specs.Ends.{EndsBefore, begun_by_end};
ghost use Rattle.tl_table.specs.Epochs.{seen, Stands, IsAtRest, IsKnown, AreOwned};

use crate::epoch::Epoch;
use crate::fault::TableFault;
use crate::receipt::Receipt;
use std::marker::Model;
use tl_core::Core;
use tl_serial_order::Order;

/// An epoch whose calls are all done.
#[derive(Debug, Drop)]
pub struct Closed {
    epoch: Epoch,
}

impl Model for Closed {
    ghost use Rattle.tl_table.specs.Epochs.{EpochValue, IsAtRest};

    ghost Value = { EpochValue };

    ghost view = { λ c. c.epoch };

    ghost invariant = { λ c. IsAtRest c.epoch };
}

impl Closed {
    // An epoch at rest.
    pub(crate) fn new(epoch: Epoch) -> Closed
        requires { IsAtRest epoch }
        ensures { result ≡ epoch }
    {
        Closed { epoch }
    }

    /// Its number.
    pub fn number(&self) -> u32
        ensures { result ≡ self.now.number }
    {
        self.epoch.number()
    }

    /// The receipt of a call. 602 if no call of that number was admitted. Takes no memory.
    pub fn receipt(&self, call: u32) -> Result<Option<Receipt>, TableFault>
        ensures known { IsOk result ↔ IsKnown self.now call }
        ensures receipt { IfOk result (λ o. MatchOption o (is_done call (seen self.now).past ≡ false) (λ r. (r.call ≡ call) × Stands self.now r)) }
        ensures fault { IfErr result (λ e. e ≡ fault.Core core_fault.NoCall) }
    {
        self.epoch.receipt(call)
    }

    /// Whether the receipt is of this epoch, and its call is done and has the receipt's session, procedure, arguments and
    /// reply.
    pub fn stands(&self, receipt: &Receipt) -> bool
        ensures { IsTrue result ↔ Stands self.now receipt.now }
    {
        match self.epoch.receipt(receipt.call) {
            Ok(Some(own)) => own.is(receipt),
            _ => false,
        }
    }

    /// The core. Every call of it is done.
    pub fn core(&self) -> &Core
        ensures same { result.now ≡ self.now.core }
        ensures done { IsAtRest self.now }
    {
        self.epoch.core()
    }

    /// The order that the history gives. Run alone, one after another in this order, the calls leave the current records,
    /// and each gives the reply that it gave. Takes no memory.
    pub fn order(&self) -> &Order
        ensures order { result.now.calls ≡ placed (seen self.now).parents (seen self.now).past }
        ensures known { All (λ c. c < length (seen self.now).calls) result.now.calls }
        ensures agrees { Agrees result.now.calls (seen self.now).past }
        ensures tree { (serial (world_of (seen self.now)).meanings result.now.calls (seen self.now).opening).tree
            ≡ records_now (seen self.now).past (seen self.now).opening }
        ensures replies { (serial (world_of (seen self.now)).meanings result.now.calls (seen self.now).opening).replies
            ≡ map (reply_of (world_of (seen self.now))) result.now.calls }
    {
        // What the order promises follows from this.
        self.epoch.core().lemma_is_sound();
        self.epoch.order()
    }

    /// How many sessions the table had given when it was sealed or closed.
    pub fn sessions(&self) -> u32
        ensures { result ≡ self.now.sessions }
    {
        self.epoch.sessions()
    }

    /// By call: its session.
    pub fn owners(&self) -> &[u32]
        ensures same { result.now ≡ self.now.owners }
        ensures owned { AreOwned self.now }
    {
        self.epoch.owners()
    }

    /// How many calls had been admitted when this one ended.
    pub fn begun_by_end(&self, call: u32) -> u32
        requires { IsKnown self.now call }
        ensures number { result ≡ begun_by_end call (seen self.now).past }
        ensures few { result ≤ MAX_CALLS }
    {
        // The calls are those that were admitted.
        let _fact = self.epoch.core().calls();
        self.epoch.begun_by_end(call)
    }

    /// Whether the end of the first call comes before the admission of the second.
    pub fn ends_before(&self, first: u32, second: u32) -> bool
        requires { IsKnown self.now first × IsKnown self.now second }
        ensures { IsTrue result ↔ EndsBefore (seen self.now).past first second }
    {
        self.epoch.core().lemma_is_sound();
        self.begun_by_end(first) <= second
    }

    // The epoch.
    pub(crate) fn into_epoch(self) -> Epoch
        ensures { result ≡ self }
    {
        self.epoch
    }
}
