// A queue of ready calls.

use std::alloc::Global;
use std::test::Fail;
use tl_workers::{Ready, ReadyPass};

/// Lends a queue of ready calls with two passes of it.
pub fn with_ready<F: FnOnce(&Ready, &mut ReadyPass, &mut ReadyPass)>(
    alloc: Global,
    body: F,
) -> Result<(), Fail>
    requires { F.IsAlwaysCallable body }
{
    let (ready, mut one) = Ready::new(alloc)?;
    let mut other = ready.join()?;
    body(&ready, &mut one, &mut other);
    Ok(())
}
