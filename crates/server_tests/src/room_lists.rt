//! Lists of events: rings, room, and what comes back.
use crate::lists::Seen::{Refused, Rests, Waits};
use crate::lists::Told::Nothing;
use crate::lists::Workers::{Nobody, One, OneZero, Zero, ZeroOne};
use crate::lists::{FILLS_ZERO, TO_ONE, TO_TWO, TO_ZERO, shows};
use server_core::Event::{
    Back, Faulted, Got, ListenerEnded, ListenerFailed, Notice, Replaced, Retired, RingFull,
};
use std::test::Fail;

fn a_full_ring_passes_the_connection_on() -> bool {
    shows(
        &[
            (Got(0), Waits([0, 0], ZeroOne)),
            (RingFull(0), Waits([0, 0], One)),
            (RingFull(0), Refused),
            (TO_ONE, Rests([0, 1], One)),
        ],
        (ZeroOne, 0, [0, 0], Nothing),
    )
}

fn one_waits_while_both_rings_are_full() -> bool {
    shows(
        &[
            (Got(1), Waits([0, 0], ZeroOne)),
            (RingFull(0), Waits([0, 0], One)),
            (RingFull(1), Waits([0, 0], Nobody)),
            (RingFull(0), Refused),
            (TO_ZERO, Refused),
            (Notice(0), Waits([0, 0], Zero)),
            (TO_ZERO, Rests([1, 0], Zero)),
        ],
        (ZeroOne, 1, [0, 0], Nothing),
    )
}

fn what_comes_back_is_counted_off() -> bool {
    shows(
        &[
            (Got(0), Waits([0, 0], ZeroOne)),
            (TO_ZERO, Rests([1, 0], OneZero)),
            (Back(0), Rests([0, 0], OneZero)),
            (Back(0), Refused),
        ],
        (ZeroOne, 1, [0, 0], Nothing),
    )
}

fn none_comes_back_from_a_worker_that_has_none() -> bool {
    shows(
        &[
            (Back(0), Refused),
            (Back(1), Refused),
            (Got(0), Waits([0, 0], ZeroOne)),
            (Back(0), Refused),
            (TO_ZERO, Rests([1, 0], OneZero)),
            (Back(1), Refused),
            (Back(0), Rests([0, 0], OneZero)),
        ],
        (ZeroOne, 1, [0, 0], Nothing),
    )
}

fn coming_back_makes_no_room_until_the_worker_tells() -> bool {
    shows(
        &[
            (Got(0), Waits([0, 0], ZeroOne)),
            (FILLS_ZERO, Rests([1, 0], One)),
            (Back(0), Rests([0, 0], One)),
            (Notice(0), Rests([0, 0], OneZero)),
        ],
        (ZeroOne, 1, [0, 0], Nothing),
    )
}

fn a_free_worker_tells_nothing_new() -> bool {
    shows(
        &[
            (Notice(0), Rests([0, 0], ZeroOne)),
            (Notice(1), Rests([0, 0], ZeroOne)),
            (Got(0), Waits([0, 0], ZeroOne)),
            (Notice(0), Waits([0, 0], ZeroOne)),
            (TO_ZERO, Rests([1, 0], OneZero)),
        ],
        (ZeroOne, 1, [0, 0], Nothing),
    )
}

fn connections_come_back_in_any_order() -> bool {
    shows(
        &[
            (Got(0), Waits([0, 0], ZeroOne)),
            (TO_ZERO, Rests([1, 0], OneZero)),
            (Got(0), Waits([1, 0], OneZero)),
            (TO_ONE, Rests([1, 1], ZeroOne)),
            (Got(1), Waits([1, 1], ZeroOne)),
            (TO_ZERO, Rests([2, 1], OneZero)),
            (Back(1), Rests([2, 0], OneZero)),
            (Back(0), Rests([1, 0], OneZero)),
            (Back(0), Rests([0, 0], OneZero)),
            (Back(1), Refused),
        ],
        (ZeroOne, 1, [0, 0], Nothing),
    )
}

fn a_worker_fills_up_again() -> bool {
    shows(
        &[
            (Got(0), Waits([0, 0], ZeroOne)),
            (FILLS_ZERO, Rests([1, 0], One)),
            (Got(0), Waits([1, 0], One)),
            (RingFull(1), Waits([1, 0], Nobody)),
            (Notice(0), Waits([1, 0], Zero)),
            (FILLS_ZERO, Rests([2, 0], Nobody)),
            (Notice(1), Rests([2, 0], One)),
        ],
        (ZeroOne, 1, [0, 0], Nothing),
    )
}

fn there_is_no_third_worker_and_no_third_listener() -> bool {
    shows(
        &[
            (Notice(2), Refused),
            (Back(2), Refused),
            (Got(2), Refused),
            (Faulted(2), Refused),
            (Replaced(2), Refused),
            (Retired(2), Refused),
            (ListenerFailed(2), Refused),
            (ListenerEnded(2), Refused),
            (Notice(512), Refused),
            (Got(usize::MAX), Refused),
        ],
        (ZeroOne, 0, [0, 0], Nothing),
    )
}

fn none_goes_to_a_third_worker() -> bool {
    shows(
        &[
            (Got(1), Waits([0, 0], ZeroOne)),
            (TO_TWO, Refused),
            (RingFull(2), Refused),
            (RingFull(0), Waits([0, 0], One)),
            (TO_TWO, Refused),
            (TO_ONE, Rests([0, 1], One)),
        ],
        (ZeroOne, 0, [0, 0], Nothing),
    )
}

#[test]
fn room_is_told_by_the_table(rt: HostRuntime) {
    assert!(rt; a_full_ring_passes_the_connection_on());
    assert!(rt; one_waits_while_both_rings_are_full());
    assert!(rt; what_comes_back_is_counted_off());
    assert!(rt; none_comes_back_from_a_worker_that_has_none());
    assert!(rt; coming_back_makes_no_room_until_the_worker_tells());
    assert!(rt; a_free_worker_tells_nothing_new());
    assert!(rt; connections_come_back_in_any_order());
    assert!(rt; a_worker_fills_up_again());
    assert!(rt; there_is_no_third_worker_and_no_third_listener());
    assert!(rt; none_goes_to_a_third_worker());
}
