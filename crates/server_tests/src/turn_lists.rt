//! Lists of events: who gets a connection.
use crate::lists::Seen::{Refused, Rests, Waits};
use crate::lists::Told::Nothing;
use crate::lists::Workers::{Nobody, One, OneZero, ZeroOne};
use crate::lists::{FILLS_ONE, FILLS_ZERO, TO_ONE, TO_ZERO, shows};
use server_core::Event::{Got, Notice, RingFull};
use std::test::Fail;

fn a_connection_goes_to_the_worker_whose_turn_it_is() -> bool {
    shows(
        &[
            (Got(0), Waits([0, 0], ZeroOne)),
            (TO_ZERO, Rests([1, 0], OneZero)),
        ],
        (ZeroOne, 1, [0, 0], Nothing),
    )
}

fn the_next_one_goes_to_the_other_worker() -> bool {
    shows(
        &[
            (Got(0), Waits([0, 0], ZeroOne)),
            (TO_ZERO, Rests([1, 0], OneZero)),
            (Got(1), Waits([1, 0], OneZero)),
            (TO_ONE, Rests([1, 1], ZeroOne)),
        ],
        (ZeroOne, 0, [0, 0], Nothing),
    )
}

fn the_turn_comes_round() -> bool {
    shows(
        &[
            (Got(0), Waits([0, 0], ZeroOne)),
            (TO_ZERO, Rests([1, 0], OneZero)),
            (Got(0), Waits([1, 0], OneZero)),
            (TO_ONE, Rests([1, 1], ZeroOne)),
            (Got(0), Waits([1, 1], ZeroOne)),
            (TO_ZERO, Rests([2, 1], OneZero)),
        ],
        (ZeroOne, 1, [0, 0], Nothing),
    )
}

fn none_goes_to_a_worker_out_of_turn() -> bool {
    shows(
        &[
            (Got(0), Waits([0, 0], ZeroOne)),
            (TO_ONE, Refused),
            (FILLS_ONE, Refused),
            (RingFull(1), Refused),
            (TO_ZERO, Rests([1, 0], OneZero)),
            (TO_ONE, Refused),
        ],
        (ZeroOne, 1, [0, 0], Nothing),
    )
}

fn none_goes_where_none_waits() -> bool {
    shows(
        &[
            (TO_ZERO, Refused),
            (FILLS_ZERO, Refused),
            (RingFull(0), Refused),
            (Got(1), Waits([0, 0], ZeroOne)),
            (TO_ZERO, Rests([1, 0], OneZero)),
            (FILLS_ONE, Refused),
            (RingFull(1), Refused),
        ],
        (ZeroOne, 1, [0, 0], Nothing),
    )
}

fn one_waits_at_a_time() -> bool {
    shows(
        &[
            (Got(0), Waits([0, 0], ZeroOne)),
            (Got(1), Refused),
            (Got(0), Refused),
            (TO_ZERO, Rests([1, 0], OneZero)),
            (Got(1), Waits([1, 0], OneZero)),
            (Got(0), Refused),
        ],
        (ZeroOne, 1, [0, 0], Nothing),
    )
}

fn a_worker_that_fills_up_is_passed_by() -> bool {
    shows(
        &[
            (Got(0), Waits([0, 0], ZeroOne)),
            (FILLS_ZERO, Rests([1, 0], One)),
            (Got(0), Waits([1, 0], One)),
            (TO_ONE, Rests([1, 1], One)),
            (Got(1), Waits([1, 1], One)),
            (TO_ZERO, Refused),
            (TO_ONE, Rests([1, 2], One)),
        ],
        (ZeroOne, 0, [0, 0], Nothing),
    )
}

fn one_waits_while_both_workers_are_full() -> bool {
    shows(
        &[
            (Got(0), Waits([0, 0], ZeroOne)),
            (FILLS_ZERO, Rests([1, 0], One)),
            (Got(0), Waits([1, 0], One)),
            (FILLS_ONE, Rests([1, 1], Nobody)),
            (Got(1), Waits([1, 1], Nobody)),
            (TO_ZERO, Refused),
            (TO_ONE, Refused),
            (RingFull(0), Refused),
        ],
        (ZeroOne, 0, [0, 0], Nothing),
    )
}

fn it_goes_to_the_worker_that_tells_of_room() -> bool {
    shows(
        &[
            (Got(0), Waits([0, 0], ZeroOne)),
            (FILLS_ZERO, Rests([1, 0], One)),
            (Got(0), Waits([1, 0], One)),
            (FILLS_ONE, Rests([1, 1], Nobody)),
            (Got(0), Waits([1, 1], Nobody)),
            (Notice(1), Waits([1, 1], One)),
            (TO_ONE, Rests([1, 2], One)),
            (Notice(0), Rests([1, 2], ZeroOne)),
        ],
        (ZeroOne, 0, [0, 0], Nothing),
    )
}

fn a_worker_gets_all_while_the_other_is_full() -> bool {
    shows(
        &[
            (Got(0), Waits([0, 0], ZeroOne)),
            (FILLS_ZERO, Rests([1, 0], One)),
            (Got(0), Waits([1, 0], One)),
            (TO_ONE, Rests([1, 1], One)),
            (Got(0), Waits([1, 1], One)),
            (TO_ONE, Rests([1, 2], One)),
            (Got(1), Waits([1, 2], One)),
            (TO_ONE, Rests([1, 3], One)),
        ],
        (ZeroOne, 0, [0, 0], Nothing),
    )
}

#[test]
fn workers_take_turns_by_the_table(rt: HostRuntime) {
    assert!(rt; a_connection_goes_to_the_worker_whose_turn_it_is());
    assert!(rt; the_next_one_goes_to_the_other_worker());
    assert!(rt; the_turn_comes_round());
    assert!(rt; none_goes_to_a_worker_out_of_turn());
    assert!(rt; none_goes_where_none_waits());
    assert!(rt; one_waits_at_a_time());
    assert!(rt; a_worker_that_fills_up_is_passed_by());
    assert!(rt; one_waits_while_both_workers_are_full());
    assert!(rt; it_goes_to_the_worker_that_tells_of_room());
    assert!(rt; a_worker_gets_all_while_the_other_is_full());
}
