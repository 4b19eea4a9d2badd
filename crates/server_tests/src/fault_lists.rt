//! Lists of events: workers that fault, are replaced, or retire.
use crate::lists::Seen::{Refused, Rests, Waits};
use crate::lists::Told::Nothing;
use crate::lists::Workers::{Nobody, One, OneZero, Zero, ZeroOne};
use crate::lists::{FILLS_ONE, FILLS_ZERO, TO_ONE, TO_ZERO, shows};
use server_core::Event::{Back, Faulted, Got, Notice, Replaced, Retired, RingFull};
use std::test::Fail;

fn the_worker_that_is_left_gets_all() -> bool {
    shows(
        &[
            (Faulted(0), Rests([0, 0], One)),
            (Got(0), Waits([0, 0], One)),
            (TO_ZERO, Refused),
            (TO_ONE, Rests([0, 1], One)),
        ],
        (One, 0, [0, 0], Nothing),
    )
}

fn a_worker_faults_once() -> bool {
    shows(
        &[
            (Faulted(1), Rests([0, 0], Zero)),
            (Faulted(1), Refused),
            (Faulted(0), Rests([0, 0], Nobody)),
            (Faulted(0), Refused),
        ],
        (Nobody, 0, [0, 0], Nothing),
    )
}

fn one_that_takes_its_place_comes_last() -> bool {
    shows(
        &[
            (Faulted(0), Rests([0, 0], One)),
            (Replaced(0), Rests([0, 0], OneZero)),
            (Got(0), Waits([0, 0], OneZero)),
            (TO_ZERO, Refused),
            (TO_ONE, Rests([0, 1], ZeroOne)),
        ],
        (OneZero, 1, [0, 0], Nothing),
    )
}

fn only_a_worker_that_faulted_is_replaced_or_retires() -> bool {
    shows(
        &[
            (Replaced(0), Refused),
            (Retired(0), Refused),
            (Faulted(1), Rests([0, 0], Zero)),
            (Replaced(0), Refused),
            (Retired(0), Refused),
            (Replaced(1), Rests([0, 0], ZeroOne)),
            (Replaced(1), Refused),
            (Retired(1), Refused),
        ],
        (ZeroOne, 0, [0, 0], Nothing),
    )
}

fn none_is_replaced_before_all_came_back() -> bool {
    shows(
        &[
            (Got(0), Waits([0, 0], ZeroOne)),
            (TO_ZERO, Rests([1, 0], OneZero)),
            (Faulted(0), Rests([1, 0], One)),
            (Replaced(0), Refused),
            (Retired(0), Refused),
            (Back(0), Rests([0, 0], One)),
            (Replaced(0), Rests([0, 0], OneZero)),
        ],
        (OneZero, 0, [0, 0], Nothing),
    )
}

fn the_turn_begins_anew_where_its_worker_faults() -> bool {
    shows(
        &[
            (Got(0), Waits([0, 0], ZeroOne)),
            (TO_ZERO, Rests([1, 0], OneZero)),
            (Faulted(1), Rests([1, 0], Zero)),
            (Got(0), Waits([1, 0], Zero)),
            (TO_ZERO, Rests([2, 0], Zero)),
        ],
        (Zero, 0, [0, 0], Nothing),
    )
}

fn one_waits_while_both_workers_are_gone() -> bool {
    shows(
        &[
            (Got(0), Waits([0, 0], ZeroOne)),
            (Faulted(0), Waits([0, 0], One)),
            (Faulted(1), Waits([0, 0], Nobody)),
            (TO_ONE, Refused),
            (RingFull(0), Refused),
            (Replaced(1), Waits([0, 0], One)),
            (TO_ONE, Rests([0, 1], One)),
        ],
        (One, 0, [0, 0], Nothing),
    )
}

fn one_that_retired_does_not_return() -> bool {
    shows(
        &[
            (Faulted(0), Rests([0, 0], One)),
            (Retired(0), Rests([0, 0], One)),
            (Replaced(0), Refused),
            (Retired(0), Refused),
            (Notice(0), Rests([0, 0], One)),
            (Got(1), Waits([0, 0], One)),
            (TO_ONE, Rests([0, 1], One)),
        ],
        (One, 0, [0, 0], Nothing),
    )
}

fn a_full_worker_stays_full_in_the_place_of_a_free_one() -> bool {
    shows(
        &[
            (Got(0), Waits([0, 0], ZeroOne)),
            (TO_ZERO, Rests([1, 0], OneZero)),
            (Got(0), Waits([1, 0], OneZero)),
            (FILLS_ONE, Rests([1, 1], Zero)),
            (Faulted(0), Rests([1, 1], Nobody)),
            (Got(0), Waits([1, 1], Nobody)),
            (Notice(1), Waits([1, 1], One)),
            (TO_ONE, Rests([1, 2], One)),
        ],
        (One, 0, [0, 0], Nothing),
    )
}

fn a_free_worker_stays_free_in_the_place_of_a_full_one() -> bool {
    shows(
        &[
            (Got(0), Waits([0, 0], ZeroOne)),
            (FILLS_ZERO, Rests([1, 0], One)),
            (Faulted(0), Rests([1, 0], One)),
            (Back(0), Rests([0, 0], One)),
            (Replaced(0), Rests([0, 0], OneZero)),
            (Got(1), Waits([0, 0], OneZero)),
            (TO_ONE, Rests([0, 1], ZeroOne)),
        ],
        (OneZero, 1, [0, 0], Nothing),
    )
}

#[test]
fn workers_come_and_go_by_the_table(rt: HostRuntime) {
    assert!(rt; the_worker_that_is_left_gets_all());
    assert!(rt; a_worker_faults_once());
    assert!(rt; one_that_takes_its_place_comes_last());
    assert!(rt; only_a_worker_that_faulted_is_replaced_or_retires());
    assert!(rt; none_is_replaced_before_all_came_back());
    assert!(rt; the_turn_begins_anew_where_its_worker_faults());
    assert!(rt; one_waits_while_both_workers_are_gone());
    assert!(rt; one_that_retired_does_not_return());
    assert!(rt; a_full_worker_stays_full_in_the_place_of_a_free_one());
    assert!(rt; a_free_worker_stays_free_in_the_place_of_a_full_one());
}
