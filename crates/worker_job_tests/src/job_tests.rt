//! Jobs of workers on threads of their own.
use crate::books::MOST;
use crate::ending::Ending;
use crate::plan::Plan;
use crate::side::{Side, ends_as, started};
use server_edge::ThreadSpawner;
use server_jobs::Spawner;
use server_run::Host;
use std::alloc::{AllocError, AllocGlobal, Global};
use std::test::Fail;

// All services are made.
const PLAIN: Plan = Plan {
    refused: None,
    erring: None,
};

// The service of the token 1 is refused.
const REFUSING: Plan = Plan {
    refused: Some(1),
    erring: None,
};

// What a worker of such services comes to.
const NAMED: Ending = Ending::Unstarted { token: 1, named: 1 };

// The service of the token 1 errs when it is asked, and can't be made anew.
const ERRING: Plan = Plan {
    refused: None,
    erring: Some(1),
};

// What a worker of such services comes to.
const FAULTED: Ending = Ending::Faulted {
    token: 1,
    erred: 1,
    named: 1,
};

// Sends to both, and takes from both, until all came back and both were told to stop, within so many looks. They are many, since
// a worker that holds nothing wakes who looks at each of its turns.
fn serve_both<Ho: Host>(rt: &Ho, spawner: &mut ThreadSpawner, one: &mut Side, two: &mut Side) {
    for _ in 0..1_000_000_u32 {
        if one.books.is_done() && two.books.is_done() {
            return;
        }
        let first = one.go_on(spawner);
        let second = two.go_on(spawner);
        spawner.rest(rt, first || second);
    }
}

// Whether both leave, and hand every connection back.
fn both_leave<Ho: Host>(
    rt: &Ho,
    spawner: &mut ThreadSpawner,
    one: Side,
    two: Side,
) -> Result<bool, AllocError> {
    let mut one = one;
    let mut two = two;
    serve_both(rt, spawner, &mut one, &mut two);
    let first = ends_as(rt, one, Ending::Left);
    let second = ends_as(rt, two, Ending::Left);
    Ok(first? && second?)
}

// Stops a job to which nothing went, and waits for its thread.
fn give_up<Ho: Host>(rt: &Ho, side: Side) -> Result<bool, AllocError> {
    let mut side = side;
    side.stop();
    ends_as(rt, side, Ending::Left)
}

// Whether two jobs that run at once leave, and hand every connection back.
fn come_back<Ho: Host + 'static>(
    rt: &Ho,
    spawner: &mut ThreadSpawner,
    alloc: Global,
) -> Result<bool, AllocError> {
    let one = started(rt, spawner, alloc, PLAIN, MOST)?;
    match started(rt, spawner, alloc, PLAIN, MOST) {
        Ok(two) => both_leave(rt, spawner, one, two),
        Err(error) => {
            let _ = give_up(rt, one);
            Err(error)
        }
    }
}

// The same, with a spawner of its own.
fn all_come_back<Ho: Host + 'static>(rt: &Ho, alloc: Global) -> Result<bool, AllocError> {
    let mut spawner = ThreadSpawner::new(alloc)?;
    come_back(rt, &mut spawner, alloc)
}

#[test]
fn two_jobs_hand_every_connection_back(rt: HostRuntime) -> Result<(), Fail> {
    assert!(rt; all_come_back(&rt, rt.alloc())?);
    Ok(())
}

// Whether a job ends so to which so many connections go at once, or only a stop where that is none.
fn ends_alone<Ho: Host + 'static>(
    rt: &Ho,
    alloc: Global,
    plan: Plan,
    count: usize,
    wanted: Ending,
) -> Result<bool, AllocError> {
    let mut spawner = ThreadSpawner::new(alloc)?;
    let mut side = started(rt, &mut spawner, alloc, plan, count)?;
    for _ in 0..count.max(1) {
        side.send_next();
    }
    ends_as(rt, side, wanted)
}

#[test]
fn a_job_names_the_token_that_is_refused_and_loses_none(rt: HostRuntime) -> Result<(), Fail> {
    assert!(rt; ends_alone(&rt, rt.alloc(), REFUSING, 3, NAMED)?);
    Ok(())
}

#[test]
fn a_job_that_is_only_stopped_leaves(rt: HostRuntime) -> Result<(), Fail> {
    assert!(rt; ends_alone(&rt, rt.alloc(), PLAIN, 0, Ending::Left)?);
    Ok(())
}

#[test]
fn a_job_names_both_errors_of_a_service_and_loses_none(rt: HostRuntime) -> Result<(), Fail> {
    assert!(rt; ends_alone(&rt, rt.alloc(), ERRING, 3, FAULTED)?);
    Ok(())
}
