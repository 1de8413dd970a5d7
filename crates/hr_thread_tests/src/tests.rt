//! Threads at work.
use crate::calls::Call;
use crate::turns::two_callers;
use std::test::Fail;

// How many of the calls are a caller's. None where they are not in order.
fn in_order(calls: &[Call], caller: u64) -> Option<u64> {
    let mut next = 0u64;
    for call in calls {
        if call.caller == caller {
            if call.index != next {
                return None;
            }
            next = next.saturating_add(1);
        }
    }
    Some(next)
}

#[test]
fn one_turn(rt: HostRuntime) -> Result<(), Fail> {
    let calls = two_callers(&rt, rt.alloc(), 100)?;
    assert_eq!(rt; calls.len(), 200);
    assert_eq!(rt; in_order(calls.as_slice(), 1), Some(100));
    assert_eq!(rt; in_order(calls.as_slice(), 2), Some(100));
    Ok(())
}
