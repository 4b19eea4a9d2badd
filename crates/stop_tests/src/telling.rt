//! Whether a run that is told something comes to what it should.
use serve_stage::{Answer, Log, Plan, Told, served_when_told};
use server_run::Host;
use std::alloc::{AllocError, AllocGlobal};
use std::process::Abort;
use std::test::Fail;

// Whether this is what it came to.
fn is_so(log: Result<Log, AllocError>, wanted: &[u8]) -> Result<bool, AllocError> {
    log?.is(wanted)
}

/// The test goes on where serving by each of these plans comes to this, over listeners that answer so, where the server is told so.
/// What a listener gives next stands at the end.
pub(crate) fn come_to_when_told<R: Host + AllocGlobal + Abort + 'static>(
    rt: &R,
    plans: &[Plan],
    answers: &[&[Answer]],
    told: Told<'_>,
    wanted: &[u8],
) -> Result<(), Fail> {
    for plan in plans {
        assert!(rt;
            is_so(
                served_when_told(rt, rt.alloc(), plan, answers, &told),
                wanted
            )?
        );
    }
    Ok(())
}
