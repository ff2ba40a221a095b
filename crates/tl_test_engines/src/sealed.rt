// Cores that are sealed.

use std::alloc::Global;
use std::test::Fail;
use tl_core::Core;
use tl_serial::Running;
use tl_test_data::{procedure_of, tree_of};

// A core on the tree of a text, with procedures.
fn core_of(alloc: Global, tree: &str, procedures: &[(&str, &str)]) -> Result<Core, Fail> {
    let mut core = Core::new(alloc, tree_of(alloc, tree)?)?;
    for (name, text) in procedures {
        core.add_proc(alloc, name, procedure_of(alloc, text)?)?;
    }
    Ok(core)
}

/// Lends a core on the tree of a text, with procedures, to `body`. Then it seals the core, and lends it and its successor to
/// `judge`. It is an `Err` if the seal is refused.
pub fn with_sealed_core<U, F, G>(
    alloc: Global,
    tree: &str,
    procedures: &[(&str, &str)],
    body: F,
    judge: G,
) -> Result<U, Fail>
where
    F: FnOnce(&mut Core) -> Result<(), Fail>,
    G: FnOnce(&Core, &Core) -> Result<U, Fail>,
    requires body { F.IsAlwaysCallable body }
    requires judge { G.IsAlwaysCallable judge }
{
    let mut core = core_of(alloc, tree, procedures)?;
    body(&mut core)?;
    match core.seal(alloc) {
        Ok((sealed, next)) => judge(&sealed, &next),
        Err((_, fault)) => Err(fault.into()),
    }
}

/// The same for a core that keeps its order up to date.
pub fn with_sealed_running<U, F, G>(
    alloc: Global,
    tree: &str,
    procedures: &[(&str, &str)],
    body: F,
    judge: G,
) -> Result<U, Fail>
where
    F: FnOnce(&mut Running) -> Result<(), Fail>,
    G: FnOnce(&Running, &Running) -> Result<U, Fail>,
    requires body { F.IsAlwaysCallable body }
    requires judge { G.IsAlwaysCallable judge }
{
    let mut running = Running::new(alloc, core_of(alloc, tree, procedures)?)?;
    body(&mut running)?;
    match running.seal(alloc) {
        Ok((sealed, next)) => judge(&sealed, &next),
        Err((_, fault)) => Err(fault.into()),
    }
}
