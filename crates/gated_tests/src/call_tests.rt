use crate::serving::meet;
use std::test::Fail;

// No thread alone passes it, in whatever order it polls: a call would have to be answered before the other is polled.
#[test]
fn gated_call(rt: HostRuntime) -> Result<(), Fail> {
    assert!(rt; meet(&rt, rt.alloc())?);
    Ok(())
}
