// The calls of an epoch.

ghost use Rattle.std.specs.Prelude.{◌≡◌, ◌<◌, ◌↔◌, ◌≤◌, length, pos, All, IsTrue, OnOk, IfErr, string_bytes};
ghost use Rattle.tl_recover.specs.Redriven.{IsAsked};
ghost use Rattle.tl_rows.specs.Rows.{HasArguments};
ghost use Rattle.tl_store.specs.declared.fault.StoreFault.TheVariants.{Memory};
ghost use Rattle.tl_compare.specs.Epochs.{AreAsked, AreCallsOf};

use crate::numbers::are_same;
use std::alloc::Global;
use tl_core::Core;
use tl_ledger::{CALL, CallRow};
use tl_procedures::Request;
use tl_store::{StoreFault, requests_of};

// Whether the call is of the request's procedure, with its arguments.
fn is_asked(core: &Core, call: u32, request: &Request) -> bool
    requires { call < length core.now.seen.calls }
    ensures { IsTrue result ↔ IsAsked core.now.seen call request.now }
{
    let (procedure, args) = core.request(call);
    if core.procedures().number_of(&request.name) != Some(procedure) {
        return false;
    }
    are_same(args, request.args.as_slice())
}

// Whether these are the requests of the calls, in their order.
fn are_asked(core: &Core, requests: &[Request]) -> bool
    ensures { IsTrue result ↔ AreAsked core.now.seen requests.now }
{
    if requests.len() != core.calls() {
        return false;
    }
    for call in 0..requests.len() {
        if !is_asked(core, call as u32, &requests[call]) {
            return false;
        }
    }
    true
}

/// Checks that the rows are those of the calls, in their order. 1003 and the table if they aren't.
pub(crate) fn check_calls(
    alloc: Global,
    core: &Core,
    epoch: u64,
    rows: &[CallRow],
) -> Result<(), StoreFault>
    ensures same { OnOk result (AreCallsOf core.now.seen epoch rows.now) }
    ensures again { AreCallsOf core.now.seen epoch rows.now → IfErr result (λ e. e ≡ Memory) }
{
    let requests = requests_of(alloc, epoch, rows)?;
    if are_asked(core, requests.as_slice()) {
        Ok(())
    } else {
        Err(StoreFault::BadRow { table: CALL })
    }
}
