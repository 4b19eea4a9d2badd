//! Whether a run comes to what it should.
use serve_stage::{Answer, Log, Plan, served, served_in_order};
use server_run::Host;
use std::alloc::{AllocError, AllocGlobal};
use std::process::Abort;
use std::test::Fail;

// Whether this is what it came to.
fn is_so(log: Result<Log, AllocError>, wanted: &[u8]) -> Result<bool, AllocError> {
    log?.is(wanted)
}

/// The test goes on where serving by each of these plans comes to this, over listeners that answer so.
pub(crate) fn come_to<R: Host + AllocGlobal + Abort + 'static>(
    rt: &R,
    plans: &[Plan],
    answers: &[&[Answer]],
    wanted: &[u8],
) -> Result<(), Fail> {
    for plan in plans {
        assert!(rt; is_so(served(rt, rt.alloc(), plan, answers), wanted)?);
    }
    Ok(())
}

/// The test goes on where serving by this plan gives these entries, in this order.
pub(crate) fn come_in_order<R: Host + AllocGlobal + Abort + 'static>(
    rt: &R,
    plan: &Plan,
    answers: &[&[Answer]],
    wanted: &[u8],
) -> Result<(), Fail> {
    assert!(rt; is_so(served_in_order(rt, rt.alloc(), plan, answers), wanted)?);
    Ok(())
}
