//! Clocks.
use server_edge::SystemClock;
use server_jobs::{Clock, StepClock};
use std::test::Fail;
use std::thread;
use std::time::{Clock as TimeSource, Duration};

#[test]
fn a_step_clock_goes_on_to_the_greatest_number_and_stays(rt: HostRuntime) {
    let mut clock = StepClock::new(u64::MAX - 5, 3);
    assert!(rt; clock.now() == u64::MAX - 2);
    assert!(rt; clock.now() == u64::MAX);
    assert!(rt; clock.now() == u64::MAX);
}

// Whether the clock has gone on by ten milliseconds at least once that many have passed.
fn goes_on<R: TimeSource, C: Clock>(rt: &R, clock: &mut C) -> bool {
    let before = clock.now();
    thread::sleep(rt, Duration::from_millis(10));
    let after = clock.now();
    after >= before && after - before >= 9
}

#[test]
fn the_system_clock_goes_on(rt: HostRuntime) -> Result<(), Fail> {
    let mut clock = SystemClock::new(rt.clone()?);
    assert!(rt; goes_on(&rt, &mut clock));
    Ok(())
}
