//! A run whose only worker ends by a fault when nothing is left to do.
use crate::ending::Ending;
use crate::faults::{Faults, Rule};
use crate::running::run;
use crate::tally::Tally;
use crate::telling::told;
use serve_stage::{PLAIN, Plan};
use server_run::{Host, KeepAll};
use std::alloc::{AllocError, Global};
use std::test::Fail;

// No other worker comes in the place of the only one, since the second start is refused.
const ALONE: Plan = Plan {
    workers: 1,
    unstarted: Some(1),
    ..PLAIN
};

// Whether a run is drained whose worker errs once its listener has ended.
fn is_drained<Ho: Host + 'static>(rt: &Ho, alloc: Global) -> Result<bool, AllocError> {
    let tally = Tally::new(alloc)?;
    let faults = Faults::new(Rule::AtEnd, tally.share()?, 0);
    let mut listeners = Vec::new(alloc);
    listeners.push(Ending::new(tally.share()?))?;
    let mut done = KeepAll::new(alloc);
    let run = run(rt, alloc, &ALONE, faults, &mut listeners, &mut done);
    let log = told(alloc, done.entries(), run);
    if tally.gave_up() {
        return Err(AllocError);
    }
    let is_drained = log.is(b"0: ended\nentries 0, drained")?;
    Ok(is_drained && tally.refused() == 1)
}

#[test]
fn a_run_with_nothing_left_to_do_is_drained_though_its_only_worker_faults(
    rt: HostRuntime,
) -> Result<(), Fail> {
    assert!(rt; is_drained(&rt, rt.alloc())?);
    Ok(())
}
