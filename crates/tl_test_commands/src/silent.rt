//! The audit without a report of its progress.

use crate::audit::WHOLE;
use std::process::Abort;
use std::test::Fail;
use tl_audit::{Trail, audit, read_trail};
use tl_tree::USUAL_NODES;

fn is_clean(rt: &(impl Abort + AllocGlobal), trail: &Trail) -> Result<(), Fail> {
    let order = audit(rt.alloc(), trail)?;
    assert_eq!(rt; order.calls(), [2, 0, 1].as_slice());
    Ok(())
}

#[test]
fn a_trail_is_audited_in_silence(rt: HostRuntime) -> Result<(), Fail> {
    let trail = read_trail(rt.alloc(), &WHOLE.concat(rt.alloc())?, USUAL_NODES)?;
    is_clean(&rt, &trail)
}
