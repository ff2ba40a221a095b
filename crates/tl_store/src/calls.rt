// The requests of calls that were admitted.

ghost use Rattle.std.specs.Prelude.{◌≡◌, All, pos, map, ◌↔◌, IsTrue, IfOk, IfErr};
ghost use Rattle.tl_store.specs.declared.fault.StoreFault.TheVariants.{Memory};
ghost use Rattle.tl_rows.specs.Rows.{call_form, request_form, HasArguments, AreNumbered};

use crate::fault::StoreFault;
use std::alloc::Global;
use tl_ledger::{CALL, CallRow};
use tl_procedures::Request;
use tl_rows::{is_epoch, numbers_of_text};

// Whether the call has that number.
fn is_at(call: &CallRow, number: usize) -> bool
    ensures same { IsTrue result → call.now.number ≡ pos number }
    ensures told { call.now.number ≡ pos number → IsTrue result }
{
    match usize::try_from(call.number) {
        Ok(stored) => stored == number,
        Err(_) => false,
    }
}

// Whether the calls are numbered from 0 in their order.
fn are_numbered(calls: &[CallRow]) -> bool
    ensures { IsTrue result ↔ AreNumbered calls.now }
{
    for number in 0..calls.len() {
        if !is_at(&calls[number], number) {
            return false;
        }
    }
    true
}

// The request that a row stores.
fn request_of(alloc: Global, call: &CallRow) -> Result<Request, StoreFault>
    ensures form { IfOk result (λ r. call_form call.now ≡ request_form r) }
    ensures again { HasArguments call.now → IfErr result (λ e. e ≡ Memory) }
{
    let Some(args) = numbers_of_text(alloc, &call.arguments)? else {
        return Err(StoreFault::BadRow { table: CALL });
    };
    let name = String::from_str(alloc, &call.procedure)?;
    Ok(Request { name, args })
}

// Whether the rows are of that epoch.
fn are_of_epoch(calls: &[CallRow], epoch: u64) -> bool
    ensures { IsTrue result ↔ All (λ r. r.epoch ≡ pos epoch) calls.now }
{
    for call in calls {
        if !is_epoch(call.epoch, epoch) {
            return false;
        }
    }
    true
}

/// The requests of these rows, in their order. 1003 and the table if a row has another epoch or another number than its place, or its arguments
/// are no list of numbers.
pub fn requests_of(alloc: Global, epoch: u64, calls: &[CallRow]) -> Result<Vec<Request>, StoreFault>
    ensures epoch { IfOk result (λ _. All (λ r. r.epoch ≡ pos epoch) calls.now) }
    ensures numbered { IfOk result (λ _. AreNumbered calls.now) }
    ensures requests { IfOk result (λ v. map call_form calls.now ≡ map request_form v.items) }
    ensures again { All (λ r. r.epoch ≡ pos epoch) calls.now → AreNumbered calls.now → All HasArguments calls.now → IfErr result (λ e. e ≡ Memory) }
{
    if !are_of_epoch(calls, epoch) || !are_numbered(calls) {
        return Err(StoreFault::BadRow { table: CALL });
    }
    let mut requests = Vec::new(alloc);
    for call in calls {
        requests.push(request_of(alloc, call)?)?;
    }
    Ok(requests)
}
