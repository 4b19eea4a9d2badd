//! Runs in which the first worker ends by a fault.
use crate::faults::{Faults, Rule};
use crate::running::run;
use crate::tally::Tally;
use crate::telling::told;
use serve_stage::{PLAIN, Plan, listener_of, that_ends, that_hangs};
use server_run::{Host, KeepAll, ListenerStep, MemoryListener};
use std::alloc::{AllocError, Global};
use std::test::Fail;

/// What a listener gives.
#[derive(Clone, Copy)]
enum Given {
    /// A connection whose link is at its end.
    Ends,
    /// A connection whose link never ends.
    Hangs,
    /// Nothing, so many times.
    Nothing(u64),
}

/// A run in which a service of the first worker errs.
#[derive(Clone, Copy)]
struct Case<'a> {
    /// How the server is set.
    plan: Plan,
    /// How often that service is called before it errs.
    calls: u64,
    /// With how many connections services begin before one ends.
    until: u64,
    /// What each listener gives.
    listeners: &'a [&'a [Given]],
}

// The third connection waits for the worker that comes in the place of the first one, since each has room for one. The second one is
// served once a service began with the third.
const ONE_EACH: Case<'static> = Case {
    plan: Plan { limit: 1, ..PLAIN },
    calls: 1,
    until: 3,
    listeners: &[&[Given::Ends, Given::Ends, Given::Ends], &[]],
};

// The first worker has the first and the third connection.
const TWO_EACH: Case<'static> = Case {
    plan: Plan { limit: 2, ..PLAIN },
    calls: 2,
    until: 3,
    listeners: &[&[Given::Hangs, Given::Ends, Given::Hangs], &[]],
};

// The second start is refused, so no worker comes in the place of the only one.
const ALONE: Case<'static> = Case {
    plan: Plan {
        workers: 1,
        unstarted: Some(1),
        ..PLAIN
    },
    calls: 1,
    until: 0,
    listeners: &[&[Given::Hangs, Given::Nothing(900)], &[]],
};

// The same with room for one, so that another connection waits until no worker is left.
const ALONE_WITH_ONE: Case<'static> = Case {
    plan: Plan {
        workers: 1,
        unstarted: Some(1),
        limit: 1,
        ..PLAIN
    },
    listeners: &[&[Given::Hangs, Given::Ends, Given::Nothing(900)]],
    ..ALONE
};

// Adds what a listener gives. The names of its links begin with 100.
fn add(alloc: Global, steps: &mut Vec<ListenerStep>, given: Given) -> Result<(), AllocError> {
    let name = (steps.len() as u64).saturating_add(100);
    match given {
        Given::Ends => steps.push(ListenerStep::Give(that_ends(alloc, name)))?,
        Given::Hangs => steps.push(ListenerStep::Give(that_hangs(alloc, name)?))?,
        Given::Nothing(times) => {
            for _ in 0..times {
                steps.push(ListenerStep::NotYet)?;
            }
        }
    }
    Ok(())
}

// A listener that gives that.
fn listener(alloc: Global, given: &[Given]) -> Result<MemoryListener, AllocError> {
    let mut steps = Vec::new(alloc);
    for one in given {
        add(alloc, &mut steps, *one)?;
    }
    listener_of(alloc, steps)
}

// A listener for each of these.
fn all_of(alloc: Global, given: &[&[Given]]) -> Result<Vec<MemoryListener>, AllocError> {
    let mut listeners = Vec::new(alloc);
    for one in given {
        listeners.push(listener(alloc, one)?)?;
    }
    Ok(listeners)
}

// Whether a run comes to this.
fn comes_to<Ho: Host + 'static>(
    rt: &Ho,
    alloc: Global,
    case: &Case<'_>,
    wanted: &[u8],
) -> Result<bool, AllocError> {
    let tally = Tally::new(alloc)?;
    let rule = Rule::First { calls: case.calls };
    let faults = Faults::new(rule, tally.share()?, case.until);
    let mut listeners = all_of(alloc, case.listeners)?;
    let mut done = KeepAll::new(alloc);
    let run = run(rt, alloc, &case.plan, faults, &mut listeners, &mut done);
    let log = told(alloc, done.entries(), run);
    if tally.gave_up() {
        return Err(AllocError);
    }
    log.is(wanted)
}

#[test]
fn a_faulted_worker_is_replaced_and_what_it_held_is_lost(rt: HostRuntime) -> Result<(), Fail> {
    let one_is_lost = b"0: lost 0 100 served 101 served 102 ended\n1: ended\nentries 3, drained";
    let two_are_lost = b"0: lost 0 100 served 101 lost 0 102 ended\n1: ended\nentries 3, drained";
    assert!(rt; comes_to(&rt, rt.alloc(), &ONE_EACH, one_is_lost)?);
    assert!(rt; comes_to(&rt, rt.alloc(), &TWO_EACH, two_are_lost)?);
    Ok(())
}

#[test]
fn the_last_worker_faults_and_none_is_left(rt: HostRuntime) -> Result<(), Fail> {
    let one_is_lost = b"0: lost 0 100 open\n1: ended\nentries 1, no workers";
    let two_are_lost = b"0: lost 0 100 lost 101 open\nentries 2, no workers";
    assert!(rt; comes_to(&rt, rt.alloc(), &ALONE, one_is_lost)?);
    assert!(rt; comes_to(&rt, rt.alloc(), &ALONE_WITH_ONE, two_are_lost)?);
    Ok(())
}
