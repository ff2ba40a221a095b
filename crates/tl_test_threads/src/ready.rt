//! The queue of ready calls: what one pass takes, and what two passes take.

use std::test::Fail;
use tl_test_engines::with_ready;
use tl_workers::MAX_READY;

#[test]
fn a_pass_pops_what_it_pushed(rt: HostRuntime) -> Result<(), Fail> {
    with_ready(rt.alloc(), |ready, pass, _| {
        assert_eq!(rt; ready.push(&rt, pass, 7), Ok(()));
        assert_eq!(rt; ready.pop(&rt, pass), Some(7));
        assert_eq!(rt; ready.pop(&rt, pass), None);
    })
}

#[test]
fn a_full_queue_hands_a_number_back(rt: HostRuntime) -> Result<(), Fail> {
    with_ready(rt.alloc(), |ready, pass, _| {
        for number in 0..MAX_READY as u32 {
            assert_eq!(rt; ready.push(&rt, pass, number), Ok(()));
        }
        assert_eq!(rt; ready.push(&rt, pass, 64), Err(64));
        assert_eq!(rt; ready.pop(&rt, pass), Some(0));
    })
}

#[test]
fn a_pass_pops_what_another_one_pushed(rt: HostRuntime) -> Result<(), Fail> {
    with_ready(rt.alloc(), |ready, one, other| {
        assert_eq!(rt; ready.push(&rt, one, 8), Ok(()));
        assert_eq!(rt; ready.pop(&rt, other), Some(8));
    })
}
