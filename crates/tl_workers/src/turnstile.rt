// A table whose epochs may be sealed for the calls that they have no room for.

ghost use Rattle.std.specs.Prelude.{◌≡◌, ◌≢◌, ◌+◌, ◌<◌, ◌≤◌, [], length, true, false, Some, None, Ok, Err, IfOk, IfErr, IfSome, OnOk};
ghost use Rattle.tl_instr.specs.declared.operand.TheConstants.{MAX_ARGS};
ghost use Rattle.tl_procedures.specs.declared.procedures.TheConstants.{MAX_NAME};
ghost use Rattle.tl_core.specs.declared.fault.CoreFault.TheVariants as core_fault;
ghost use Rattle.tl_table.specs.declared.epoch.TheConstants.{MAX_EPOCHS};
ghost use Rattle.tl_table.specs.declared.fault.TableFault.TheVariants as fault;
ghost use Rattle.tl_table.specs.Epochs.{seen, epoch_after, IsAtRest, IsAdmittedTo};
ghost use Rattle.tl_workers.specs.Admitting.{IsFullEpoch, AdmitsOpen};
ghost use Rattle.tl_workers.specs.Refusals.{IsAdmitRefused, IsTableSealRefused};
ghost use Rattle.tl_workers.specs.declared.turnstile.Obstacle.TheVariants.{FullEpoch, Other};

use std::alloc::Global;
use tl_core::CoreFault;
use tl_table::{Table, TableFault};

// What stands in a call's way.
#[derive(Clone, Copy, PartialEq, Eq, Debug)]
enum Obstacle {
    // The epoch has no room for it.
    FullEpoch,
    // So many calls are open.
    FullCore,
    // Nothing that passes.
    Other,
}

fn obstacle_of(refused: TableFault) -> Obstacle
    ensures full { result ≡ FullEpoch → IsFullEpoch refused }
    ensures other { result ≡ Other → IsAdmitRefused false refused → IsAdmitRefused true refused × (refused ≢ fault.Core core_fault.HistoryFull) }
{
    match refused {
        TableFault::Core(CoreFault::TooManyCalls | CoreFault::HistoryFull) => Obstacle::FullEpoch,
        TableFault::Core(CoreFault::TooManyOpen) => Obstacle::FullCore,
        _ => Obstacle::Other,
    }
}

// A table, and a turnstile before it: while an epoch is to be sealed and its calls aren't all done, no call is admitted, so that they come to
// be done.
#[derive(Debug, Drop)]
pub(crate) struct Turnstile {
    pub(crate) table: Table,
    pub(crate) is_closed: bool,
}

impl Turnstile {
    // Before a table with nothing to seal.
    pub(crate) fn new(table: Table) -> Turnstile
        ensures { (result.table ≡ table) × (result.is_closed ≡ false) }
    {
        Turnstile {
            table,
            is_closed: false,
        }
    }

    // Admits a call, or says why not, to the current epoch or, if that has no room for it, to the next. `None` if the call has to wait until
    // something has moved.
    pub(crate) fn admit(
        &mut self,
        alloc: Global,
        session: u32,
        name: &str,
        args: &[i64],
    ) -> Option<Result<u32, TableFault>>
        ensures short { IfSome result (λ r. OnOk r (length name.now ≤ MAX_NAME)) }
        ensures few { IfSome result (λ r. OnOk r (length args.now ≤ MAX_ARGS)) }
        ensures closed { self.old.is_closed ≡ true → IfSome result (λ r. IfOk r (λ n. IsAdmittedTo (epoch_after self.old.table.current) session name.now args.now n self.new.table.current)) }
        ensures while_open { self.old.is_closed ≡ false → AdmitsOpen self.old.table session name.now args.now result self.new.table self.new.is_closed }
        ensures waits { result ≡ None → self.new.table.current ≡ self.old.table.current }
        ensures refused { IfSome result (λ r. IfErr r (IsAdmitRefused true)) }
        ensures full { result ≡ Some (Err (fault.Core core_fault.HistoryFull)) → (seen self.new.table.current).calls ≡ [] }
    {
        if self.is_closed {
            return self.admit_after_seal(alloc, session, name, args);
        }
        match self.table.admit(alloc, session, name, args) {
            Ok(call) => Some(Ok(call)),
            Err(fault) => match obstacle_of(fault) {
                // An epoch without calls has as much room as any.
                Obstacle::FullEpoch if self.table.core().calls() == 0 => Some(Err(fault)),
                Obstacle::FullEpoch => self.admit_after_seal(alloc, session, name, args),
                Obstacle::FullCore => None,
                Obstacle::Other => Some(Err(fault)),
            },
        }
    }

    // Seals the epoch and admits the call to the next one. `None` as long as a call is unfinished.
    fn admit_after_seal(
        &mut self,
        alloc: Global,
        session: u32,
        name: &str,
        args: &[i64],
    ) -> Option<Result<u32, TableFault>>
        ensures short { IfSome result (λ r. OnOk r (length name.now ≤ MAX_NAME)) }
        ensures few { IfSome result (λ r. OnOk r (length args.now ≤ MAX_ARGS)) }
        ensures next { IfSome result (λ r. IfOk r (λ n. IsAdmittedTo (epoch_after self.old.table.current) session name.now args.now n self.new.table.current)) }
        ensures waits { result ≡ None → self.new.table.current ≡ self.old.table.current }
        ensures refused { IfSome result (λ r. IfErr r (IsAdmitRefused true)) }
        ensures full { result ≡ Some (Err (fault.Core core_fault.HistoryFull)) → (seen self.new.table.current).calls ≡ [] }
    {
        match self.seal(alloc)? {
            Ok(_) => Some(self.table.admit(alloc, session, name, args)),
            Err(fault) => Some(Err(fault)),
        }
    }

    // Seals the epoch and answers its number, or says why not: 808, 690, 890. `None` as long as a call is unfinished: until the epoch is sealed
    // no call is admitted.
    pub(crate) fn seal(&mut self, alloc: Global) -> Option<Result<u32, TableFault>>
        ensures number { IfSome result (λ r. IfOk r (λ n. (n ≡ self.old.table.current.number) × (n + 1 < MAX_EPOCHS))) }
        ensures next { IfSome result (λ r. OnOk r (self.new.table.current ≡ epoch_after self.old.table.current)) }
        ensures refused { IfSome result (λ r. IfErr r IsTableSealRefused) }
        ensures opens { IfSome result (λ _. self.new.is_closed ≡ false) }
        ensures closes { result ≡ None → self.new.is_closed ≡ true }
        ensures waits { result ≡ None → self.new.table.current ≡ self.old.table.current }
    {
        let sealed = self.table.seal(alloc);
        let has_open = matches!(sealed, Err(TableFault::Core(CoreFault::NotAtRest { .. })));
        self.is_closed = has_open;
        if has_open { None } else { Some(sealed) }
    }
}
