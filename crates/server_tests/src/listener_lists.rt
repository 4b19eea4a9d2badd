//! Lists of events: listeners that fail and end, and what becomes of the last connection.
use crate::lists::Seen::{Refused, Rests, Waits};
use crate::lists::Told::{Nothing, PausedAndStopped};
use crate::lists::Workers::{Nobody, One, OneZero, ZeroOne};
use crate::lists::{FILLS_ZERO, PAUSE, RESUME, STOP, TO_ONE, TO_ZERO, shows};
use server_core::Event::{
    Back, Faulted, Got, ListenerEnded, ListenerFailed, Notice, Replaced, Retired,
};
use std::test::Fail;

fn failures_are_counted_by_listener() -> bool {
    shows(
        &[
            (ListenerFailed(0), Rests([0, 0], ZeroOne)),
            (ListenerFailed(1), Rests([0, 0], ZeroOne)),
            (ListenerFailed(1), Rests([0, 0], ZeroOne)),
        ],
        (ZeroOne, 0, [1, 2], Nothing),
    )
}

fn a_connection_ends_the_failures_of_its_listener() -> bool {
    shows(
        &[
            (ListenerFailed(1), Rests([0, 0], ZeroOne)),
            (ListenerFailed(1), Rests([0, 0], ZeroOne)),
            (ListenerFailed(0), Rests([0, 0], ZeroOne)),
            (Got(1), Waits([0, 0], ZeroOne)),
        ],
        (ZeroOne, 0, [1, 0], Nothing),
    )
}

fn failures_begin_anew_behind_a_connection() -> bool {
    shows(
        &[
            (ListenerFailed(0), Rests([0, 0], ZeroOne)),
            (ListenerFailed(0), Rests([0, 0], ZeroOne)),
            (Got(0), Waits([0, 0], ZeroOne)),
            (ListenerFailed(0), Waits([0, 0], ZeroOne)),
            (TO_ZERO, Rests([1, 0], OneZero)),
        ],
        (ZeroOne, 1, [1, 0], Nothing),
    )
}

fn a_listener_that_ended_gives_none() -> bool {
    shows(
        &[
            (ListenerEnded(0), Rests([0, 0], ZeroOne)),
            (Got(0), Refused),
            (Got(1), Waits([0, 0], ZeroOne)),
            (TO_ZERO, Rests([1, 0], OneZero)),
            (Got(0), Refused),
            (Got(1), Waits([1, 0], OneZero)),
        ],
        (ZeroOne, 1, [0, 0], Nothing),
    )
}

fn a_listener_ends_once_and_fails_no_more() -> bool {
    shows(
        &[
            (ListenerFailed(0), Rests([0, 0], ZeroOne)),
            (ListenerEnded(0), Rests([0, 0], ZeroOne)),
            (ListenerEnded(0), Refused),
            (ListenerFailed(0), Refused),
            (ListenerFailed(1), Rests([0, 0], ZeroOne)),
        ],
        (ZeroOne, 0, [1, 1], Nothing),
    )
}

fn a_listener_ends_while_its_connection_waits() -> bool {
    shows(
        &[
            (Got(0), Waits([0, 0], ZeroOne)),
            (ListenerEnded(0), Waits([0, 0], ZeroOne)),
            (TO_ZERO, Rests([1, 0], OneZero)),
            (Back(0), Rests([0, 0], OneZero)),
            (Got(0), Refused),
            (Got(1), Waits([0, 0], OneZero)),
        ],
        (ZeroOne, 1, [0, 0], Nothing),
    )
}

fn both_listeners_end() -> bool {
    shows(
        &[
            (ListenerEnded(1), Rests([0, 0], ZeroOne)),
            (ListenerEnded(0), Rests([0, 0], ZeroOne)),
            (Got(0), Refused),
            (Got(1), Refused),
            (ListenerFailed(1), Refused),
            (Notice(0), Rests([0, 0], ZeroOne)),
        ],
        (ZeroOne, 0, [0, 0], Nothing),
    )
}

fn listeners_fail_and_end_in_a_pause() -> bool {
    shows(
        &[
            (PAUSE, Rests([0, 0], ZeroOne)),
            (ListenerFailed(1), Rests([0, 0], ZeroOne)),
            (ListenerEnded(0), Rests([0, 0], ZeroOne)),
            (RESUME, Rests([0, 0], ZeroOne)),
            (Got(0), Refused),
            (Got(1), Waits([0, 0], ZeroOne)),
            (ListenerFailed(1), Waits([0, 0], ZeroOne)),
        ],
        (ZeroOne, 0, [0, 1], Nothing),
    )
}

fn the_last_to_retire_lets_the_connection_go() -> bool {
    shows(
        &[
            (Got(0), Waits([0, 0], ZeroOne)),
            (Faulted(0), Waits([0, 0], One)),
            (Retired(0), Waits([0, 0], One)),
            (Faulted(1), Waits([0, 0], Nobody)),
            (Retired(1), Rests([0, 0], Nobody)),
            (Replaced(1), Refused),
            (Got(0), Waits([0, 0], Nobody)),
            (Got(1), Refused),
        ],
        (Nobody, 0, [0, 0], Nothing),
    )
}

fn all_happens_to_two_workers() -> bool {
    shows(
        &[
            (ListenerFailed(0), Rests([0, 0], ZeroOne)),
            (Got(0), Waits([0, 0], ZeroOne)),
            (FILLS_ZERO, Rests([1, 0], One)),
            (Got(1), Waits([1, 0], One)),
            (Faulted(1), Waits([1, 0], Nobody)),
            (Replaced(1), Waits([1, 0], One)),
            (TO_ONE, Rests([1, 1], One)),
            (Back(0), Rests([0, 1], One)),
            (Notice(0), Rests([0, 1], ZeroOne)),
            (PAUSE, Rests([0, 1], ZeroOne)),
            (Got(0), Refused),
            (Faulted(0), Rests([0, 1], One)),
            (Retired(0), Rests([0, 1], One)),
            (STOP, Rests([0, 1], One)),
            (Back(1), Rests([0, 0], One)),
        ],
        (One, 0, [0, 0], PausedAndStopped),
    )
}

#[test]
fn listeners_come_to_their_end_by_the_table(rt: HostRuntime) {
    assert!(rt; failures_are_counted_by_listener());
    assert!(rt; a_connection_ends_the_failures_of_its_listener());
    assert!(rt; failures_begin_anew_behind_a_connection());
    assert!(rt; a_listener_that_ended_gives_none());
    assert!(rt; a_listener_ends_once_and_fails_no_more());
    assert!(rt; a_listener_ends_while_its_connection_waits());
    assert!(rt; both_listeners_end());
    assert!(rt; listeners_fail_and_end_in_a_pause());
    assert!(rt; the_last_to_retire_lets_the_connection_go());
    assert!(rt; all_happens_to_two_workers());
}
