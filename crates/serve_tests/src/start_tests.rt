//! Runs that serve nothing.
use crate::serving::come_to;
use serve_stage::Answer::{Give, NotYet, Skip};
use serve_stage::{Answer, PLAIN, Plan};
use std::test::Fail;

#[test]
fn without_a_connection_a_run_is_drained_and_without_a_listener_nothing_is_started(
    rt: HostRuntime,
) -> Result<(), Fail> {
    let refusing = Plan {
        unstarted: Some(0),
        ..PLAIN
    };
    let drained = b"0: ended\n1: ended\nentries 0, drained";
    come_to(&rt, &PLAIN.by_workers(), &[&[], &[Skip, NotYet]], drained)?;
    come_to(&rt, &refusing.by_workers(), &[], b"no listener, entries 0")
}

#[test]
fn a_worker_that_is_not_started_is_named_and_nothing_is_accepted(
    rt: HostRuntime,
) -> Result<(), Fail> {
    let first = Plan {
        unstarted: Some(0),
        ..PLAIN
    };
    let third = Plan {
        workers: 3,
        unstarted: Some(2),
        ..PLAIN
    };
    let answers: [&[Answer]; 2] = [&[Give(2)], &[NotYet, Give(1)]];
    let without_first = b"no worker 0, entries 0, then 0, then not yet";
    let without_third = b"no worker 2, entries 0, then 0, then not yet";
    come_to(&rt, &[third], &answers, without_third)?;
    come_to(&rt, &first.by_workers(), &answers, without_first)
}

#[test]
fn a_service_that_is_refused_is_named_and_nothing_is_accepted(rt: HostRuntime) -> Result<(), Fail> {
    let plan = Plan {
        refused: Some(1),
        ..PLAIN
    };
    let wanted = b"no service 1 by 1, entries 0, then 0, then 100";
    come_to(&rt, &plan.by_workers(), &[&[Give(2)], &[Give(1)]], wanted)
}
