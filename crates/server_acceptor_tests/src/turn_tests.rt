//! How connections come from the listeners to the workers, and back.
use crate::act::Act::{Count, Entries, Place, Turn, Worker};
use crate::answer::Answer::{Give, NotYet, Skip};
use crate::deed::Deed::{Back, Notes, Ready, Stray, Take};
use crate::plan::{PLAIN, Plan};
use crate::telling::{holds, tells};
use std::test::Fail;

#[test]
fn nothing_is_accepted_before_every_worker_is_ready(rt: HostRuntime) -> Result<(), Fail> {
    let plan = Plan {
        workers: 2,
        ..PLAIN
    };
    let acts = [Worker(1, Ready), Turn, Worker(0, Ready), Turn, Turn];
    let wanted = b"turn\n\
        turn\n\
        turn, got 0, sent 0, ended 0\n";
    holds(&rt, tells(&rt, plan, &[NotYet, Give(1)], &acts, wanted))
}

#[test]
fn connections_go_to_the_workers_in_turn(rt: HostRuntime) -> Result<(), Fail> {
    let plan = Plan {
        workers: 3,
        listeners: 2,
        ..PLAIN
    };
    let acts = [
        Worker(0, Ready),
        Worker(1, Ready),
        Worker(2, Ready),
        Turn,
        Worker(0, Take),
        Worker(0, Take),
        Worker(1, Take),
        Worker(1, Take),
        Worker(2, Take),
        Worker(2, Take),
        Worker(0, Take),
    ];
    let wanted = b"turn, got 0, sent 0, got 0, sent 1, got 0, sent 2, ended 0, \
        got 1, sent 0, got 1, sent 1, got 1, sent 2, ended 1\n\
        worker 0 takes 0 from 0 at 0\n\
        worker 0 takes 3 from 1 at 0\n\
        worker 1 takes 1 from 0 at 1\n\
        worker 1 takes 4 from 1 at 1\n\
        worker 2 takes 2 from 0 at 2\n\
        worker 2 takes 5 from 1 at 2\n\
        worker 0 takes nothing\n";
    holds(&rt, tells(&rt, plan, &[Give(3)], &acts, wanted))
}

#[test]
fn a_worker_at_its_limit_gets_none_until_it_hands_one_back(rt: HostRuntime) -> Result<(), Fail> {
    let plan = Plan { limit: 1, ..PLAIN };
    let acts = [
        Worker(0, Ready),
        Turn,
        Turn,
        Worker(0, Back),
        Turn,
        Turn,
        Entries,
    ];
    let wanted = b"turn, got 0, filled 0, got 0\n\
        turn\n\
        turn, back 0, notice 0, filled 0\n\
        turn, got 0\n\
        done: 0 from 0 at 0\n";
    holds(
        &rt,
        tells(&rt, plan, &[Give(2), NotYet, Give(1)], &acts, wanted),
    )
}

#[test]
fn a_full_ring_is_passed_over_and_tried_again_in_the_next_turn(
    rt: HostRuntime,
) -> Result<(), Fail> {
    let plan = Plan {
        workers: 2,
        places: 1,
        ..PLAIN
    };
    let acts = [
        Worker(0, Ready),
        Worker(1, Ready),
        Turn,
        Worker(1, Take),
        Turn,
        Worker(0, Take),
        Turn,
    ];
    let wanted = b"turn, got 0, sent 0, got 0, sent 1, got 0, full 0, notice 0, full 1, notice 1\n\
        worker 1 takes 1 from 0 at 1\n\
        turn, full 0, notice 0, sent 1, got 0, full 0, notice 0, full 1, notice 1\n\
        worker 0 takes 0 from 0 at 0\n\
        turn, sent 0, ended 0\n";
    holds(&rt, tells(&rt, plan, &[Give(4)], &acts, wanted))
}

#[test]
fn a_connection_that_is_passed_over_does_not_stop_the_asking(rt: HostRuntime) -> Result<(), Fail> {
    let answers = [Skip, Give(1), Skip, Skip, Give(1)];
    let wanted = b"turn, got 0, sent 0, got 0, sent 0, ended 0\n";
    holds(
        &rt,
        tells(&rt, PLAIN, &answers, &[Worker(0, Ready), Turn], wanted),
    )
}

#[test]
fn another_listener_is_asked_first_in_each_turn(rt: HostRuntime) -> Result<(), Fail> {
    let plan = Plan {
        listeners: 2,
        limit: 1,
        ..PLAIN
    };
    let acts = [
        Worker(0, Ready),
        Turn,
        Worker(0, Back),
        Turn,
        Worker(0, Back),
        Turn,
        Worker(0, Back),
        Turn,
        Worker(0, Back),
        Turn,
    ];
    let wanted = b"turn, got 0, filled 0, got 0\n\
        turn, back 0, notice 0, filled 0, got 1\n\
        turn, back 0, notice 0, filled 0, got 0\n\
        turn, back 0, notice 0, filled 0, got 1\n\
        turn, back 0, notice 0, filled 0, got 0\n";
    holds(&rt, tells(&rt, plan, &[Give(9)], &acts, wanted))
}

#[test]
fn a_listener_is_asked_256_times_in_a_turn_at_most(rt: HostRuntime) -> Result<(), Fail> {
    let plan = Plan {
        places: 512,
        limit: 1_000,
        ..PLAIN
    };
    let wanted = b"turn, got 256 in 512, room for 96\n\
        turn, got 44 in 89, room for 519\n";
    holds(
        &rt,
        tells(
            &rt,
            plan,
            &[Give(300)],
            &[Worker(0, Ready), Count, Count],
            wanted,
        ),
    )
}

#[test]
fn a_connection_handed_back_by_a_worker_that_has_none_stays_in_the_ring(
    rt: HostRuntime,
) -> Result<(), Fail> {
    let acts = [
        Worker(0, Ready),
        Worker(0, Stray),
        Turn,
        Worker(0, Notes),
        Turn,
        Worker(0, Notes),
        Entries,
    ];
    let wanted = b"turn\n\
        notes of worker 0: 1\n\
        turn\n\
        notes of worker 0: 1\n";
    holds(
        &rt,
        tells(&rt, PLAIN, &[NotYet, NotYet, Give(1)], &acts, wanted),
    )
}

#[test]
fn what_waits_is_placed_by_hand(rt: HostRuntime) -> Result<(), Fail> {
    let plan = Plan {
        workers: 2,
        places: 1,
        ..PLAIN
    };
    let acts = [
        Worker(0, Ready),
        Worker(1, Ready),
        Turn,
        Place,
        Worker(1, Take),
        Place,
        Place,
        Worker(1, Take),
    ];
    let wanted = b"turn, got 0, sent 0, got 0, sent 1, got 0, full 0, notice 0, full 1, notice 1\n\
        place, full 0, notice 0, full 1, notice 1, waiting\n\
        worker 1 takes 1 from 0 at 1\n\
        place, full 0, notice 0, sent 1, placed 1\n\
        place, nothing\n\
        worker 1 takes 2 from 0 at 2\n";
    holds(&rt, tells(&rt, plan, &[Give(3)], &acts, wanted))
}
