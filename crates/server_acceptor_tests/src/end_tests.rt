//! How listeners, workers and the acceptor come to an end.
use crate::act::Act::{Done, Entries, Once, Rounds, Turn, Worker};
use crate::answer::Answer::{Fail as Fails, Give, NotYet};
use crate::deed::Deed::{Back, Fault, Ready, Stray, Take};
use crate::plan::{PLAIN, Plan};
use crate::telling::{holds, tells};
use std::test::Fail;

#[test]
fn a_listener_that_failed_is_not_asked_for_500_milliseconds(rt: HostRuntime) -> Result<(), Fail> {
    let plan = Plan { step: 499, ..PLAIN };
    let wanted = b"turn, failed 0\n\
        turn\n\
        turn, failed 0\n";
    holds(
        &rt,
        tells(
            &rt,
            plan,
            &[Fails, Fails],
            &[Worker(0, Ready), Turn, Turn, Turn],
            wanted,
        ),
    )
}

#[test]
fn a_listener_is_given_up_after_failures_without_a_connection_between(
    rt: HostRuntime,
) -> Result<(), Fail> {
    let plan = Plan { step: 500, ..PLAIN };
    let answers = [Fails, Fails, Give(1), Fails, Fails, Fails, Give(1)];
    let acts = [
        Worker(0, Ready),
        Turn,
        Turn,
        Turn,
        Turn,
        Turn,
        Worker(0, Back),
        Turn,
    ];
    let wanted = b"turn, failed 0\n\
        turn, failed 0\n\
        turn, got 0, sent 0, failed 0\n\
        turn, failed 0\n\
        turn, failed 0, ended 0\n\
        turn, back 0, drained\n";
    holds(&rt, tells(&rt, plan, &answers, &acts, wanted))
}

#[test]
fn without_room_for_an_entry_nothing_more_is_accepted(rt: HostRuntime) -> Result<(), Fail> {
    let plan = Plan { rooms: 2, ..PLAIN };
    let acts = [
        Worker(0, Ready),
        Turn,
        Turn,
        Worker(0, Back),
        Turn,
        Worker(0, Back),
        Turn,
        Worker(0, Take),
        Entries,
    ];
    let wanted = b"turn, got 0, sent 0, got 0, sent 0\n\
        turn\n\
        turn, back 0\n\
        turn, back 0, memory\n\
        worker 0 takes a stop\n\
        done: 0 from 0 at 0\n\
        done: 1 from 0 at 1\n";
    holds(&rt, tells(&rt, plan, &[Give(3)], &acts, wanted))
}

#[test]
fn nothing_is_left_to_do_once_each_listener_ended_and_all_came_back(
    rt: HostRuntime,
) -> Result<(), Fail> {
    let acts = [
        Worker(0, Ready),
        Done,
        Turn,
        Done,
        Turn,
        Done,
        Worker(0, Back),
        Turn,
        Done,
    ];
    let wanted = b"done: no\n\
        turn, got 0, sent 0\n\
        done: no\n\
        turn, ended 0\n\
        done: no\n\
        turn, back 0, drained\n\
        done: yes\n";
    holds(&rt, tells(&rt, PLAIN, &[Give(1), NotYet], &acts, wanted))
}

#[test]
fn each_worker_gets_a_stop_once_all_came_back(rt: HostRuntime) -> Result<(), Fail> {
    let plan = Plan {
        workers: 2,
        ..PLAIN
    };
    let acts = [
        Worker(0, Ready),
        Worker(1, Ready),
        Turn,
        Turn,
        Worker(1, Take),
        Worker(0, Back),
        Turn,
        Worker(0, Take),
        Worker(1, Take),
        Turn,
        Worker(0, Take),
    ];
    let wanted = b"turn, got 0, sent 0, ended 0\n\
        turn\n\
        worker 1 takes nothing\n\
        turn, back 0, drained\n\
        worker 0 takes a stop\n\
        worker 1 takes a stop\n\
        turn, drained\n\
        worker 0 takes nothing\n";
    holds(&rt, tells(&rt, plan, &[Give(1)], &acts, wanted))
}

#[test]
fn a_full_ring_delays_the_stop_and_the_end(rt: HostRuntime) -> Result<(), Fail> {
    let plan = Plan { places: 1, ..PLAIN };
    let acts = [
        Worker(0, Ready),
        Turn,
        Worker(0, Stray),
        Turn,
        Worker(0, Take),
        Turn,
        Worker(0, Take),
    ];
    let wanted = b"turn, got 0, sent 0, ended 0\n\
        turn, back 0\n\
        worker 0 takes 0 from 0 at 0\n\
        turn, drained\n\
        worker 0 takes a stop\n";
    holds(&rt, tells(&rt, plan, &[Give(1)], &acts, wanted))
}

#[test]
fn a_worker_that_ends_by_a_fault_is_named(rt: HostRuntime) -> Result<(), Fail> {
    let plan = Plan {
        workers: 2,
        ..PLAIN
    };
    holds(
        &rt,
        tells(
            &rt,
            plan,
            &[Give(1)],
            &[Worker(0, Ready), Worker(1, Fault), Turn],
            b"turn, lost 1\n",
        ),
    )
}

#[test]
fn each_connection_of_sixty_four_listeners_comes_back_once(rt: HostRuntime) -> Result<(), Fail> {
    let plan = Plan {
        workers: 3,
        places: 64,
        listeners: 64,
        limit: 40,
        ..PLAIN
    };
    let acts = [
        Worker(0, Ready),
        Worker(1, Ready),
        Worker(2, Ready),
        Rounds,
        Once(30),
    ];
    holds(
        &rt,
        tells(&rt, plan, &[Give(30)], &acts, b", drained, each once"),
    )
}
