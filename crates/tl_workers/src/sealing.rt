// Calls that wait for room, and seals that wait for rest.

ghost use Rattle.std.specs.Prelude.{◌≡◌, ◌+◌, ◌<◌, ◌≤◌, length, IfOk, IfErr, IfSome, OnOk};
ghost use Rattle.tl_instr.specs.declared.operand.TheConstants.{MAX_ARGS};
ghost use Rattle.tl_procedures.specs.declared.procedures.TheConstants.{MAX_NAME};
ghost use Rattle.tl_table.specs.declared.epoch.TheConstants.{MAX_EPOCHS};
ghost use Rattle.tl_workers.specs.Refusals.{IsAdmitRefused, IsRestedSealRefused};

use crate::engine::Engine;
use crate::refusal::Refusal;
use crate::turnstile::Turnstile;
use std::alloc::Global;
use std::sync::Wait;
use tl_table::TableFault;

// A call that was admitted: its epoch and its number.
#[derive(Clone, Copy)]
pub(crate) struct Begun {
    pub(crate) epoch: u32,
    pub(crate) call: u32,
}

impl Engine {
    // Admits a call, as soon as there is room for it.
    pub(crate) fn begin(
        &self,
        rt: &impl Wait,
        alloc: Global,
        session: u32,
        name: &str,
        args: &[i64],
    ) -> Result<Begun, TableFault>
        ensures short { OnOk result (length name.now ≤ MAX_NAME) }
        ensures few { OnOk result (length args.now ≤ MAX_ARGS) }
        ensures refused { IfErr result (IsAdmitRefused self.now.seals) }
    {
        let mut turnstile = self.turnstile.lock(rt);
        for _ in rt.forever() {
            match self.try_admit(alloc, &mut turnstile, session, name, args) {
                Some(Ok(call)) => {
                    let epoch = turnstile.table.epoch();
                    return Ok(Begun { epoch, call });
                }
                Some(Err(fault)) => return Err(fault),
                None => turnstile = self.moved.wait(rt, turnstile),
            }
        }
        unreachable!()
    }

    // Admits a call, or says why not. `None` if it has to wait until something has moved.
    pub(crate) fn try_admit(
        &self,
        alloc: Global,
        turnstile: &mut Turnstile,
        session: u32,
        name: &str,
        args: &[i64],
    ) -> Option<Result<u32, TableFault>>
        ensures short { IfSome result (λ r. OnOk r (length name.now ≤ MAX_NAME)) }
        ensures few { IfSome result (λ r. OnOk r (length args.now ≤ MAX_ARGS)) }
        ensures refused { IfSome result (λ r. IfErr r (IsAdmitRefused self.now.seals)) }
    {
        if !self.seals {
            return Some(turnstile.table.admit(alloc, session, name, args));
        }
        let epoch = turnstile.table.epoch();
        let admitted = turnstile.admit(alloc, session, name, args);
        // Whoever waits for the next epoch is told.
        if turnstile.table.epoch() != epoch {
            self.moved.notify_all();
        }
        admitted
    }

    // Seals the epoch as soon as all calls are done.
    pub(crate) fn seal_at_rest(&self, rt: &impl Wait, alloc: Global) -> Result<u32, Refusal>
        ensures number { IfOk result (λ n. n + 1 < MAX_EPOCHS) }
        ensures refused { IfErr result IsRestedSealRefused }
    {
        let mut turnstile = self.turnstile.lock(rt);
        for _ in rt.forever() {
            match turnstile.seal(alloc) {
                Some(sealed) => {
                    self.moved.notify_all();
                    return match sealed {
                        Ok(epoch) => Ok(epoch),
                        Err(fault) => Err(Refusal::Table(fault)),
                    };
                }
                None => turnstile = self.moved.wait(rt, turnstile),
            }
        }
        unreachable!()
    }
}
