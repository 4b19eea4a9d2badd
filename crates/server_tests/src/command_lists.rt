//! Lists of events: pauses and stops.
use crate::lists::Seen::{Refused, Rests, Waits};
use crate::lists::Told::{Nothing, Paused, PausedAndStopped, Stopped};
use crate::lists::Workers::{Nobody, One, OneZero, Zero, ZeroOne};
use crate::lists::{PAUSE, RESUME, STOP, STOP_AT_ONCE, TO_ONE, TO_ZERO, shows};
use server_core::Event::{Back, Faulted, Got, ListenerFailed, Notice, Replaced, Retired, RingFull};
use std::test::Fail;

fn none_is_taken_before_the_resume() -> bool {
    shows(
        &[
            (PAUSE, Rests([0, 0], ZeroOne)),
            (Got(0), Refused),
            (Got(1), Refused),
            (RESUME, Rests([0, 0], ZeroOne)),
            (Got(1), Waits([0, 0], ZeroOne)),
        ],
        (ZeroOne, 0, [0, 0], Nothing),
    )
}

fn what_waits_goes_on_through_a_pause() -> bool {
    shows(
        &[
            (Got(0), Waits([0, 0], ZeroOne)),
            (PAUSE, Waits([0, 0], ZeroOne)),
            (TO_ZERO, Rests([1, 0], OneZero)),
            (Got(0), Refused),
            (Back(0), Rests([0, 0], OneZero)),
        ],
        (ZeroOne, 1, [0, 0], Paused),
    )
}

fn one_resume_ends_two_pauses() -> bool {
    shows(
        &[
            (PAUSE, Rests([0, 0], ZeroOne)),
            (PAUSE, Rests([0, 0], ZeroOne)),
            (RESUME, Rests([0, 0], ZeroOne)),
            (Got(0), Waits([0, 0], ZeroOne)),
        ],
        (ZeroOne, 0, [0, 0], Nothing),
    )
}

fn a_resume_by_itself_changes_nothing() -> bool {
    shows(
        &[
            (RESUME, Rests([0, 0], ZeroOne)),
            (Got(0), Waits([0, 0], ZeroOne)),
            (RESUME, Waits([0, 0], ZeroOne)),
            (TO_ZERO, Rests([1, 0], OneZero)),
        ],
        (ZeroOne, 1, [0, 0], Nothing),
    )
}

fn no_resume_ends_a_stop() -> bool {
    shows(
        &[
            (STOP, Rests([0, 0], ZeroOne)),
            (Got(0), Refused),
            (Got(1), Refused),
            (RESUME, Rests([0, 0], ZeroOne)),
            (Got(0), Refused),
        ],
        (ZeroOne, 0, [0, 0], Stopped),
    )
}

fn nothing_waits_after_a_stop() -> bool {
    shows(
        &[
            (Got(0), Waits([0, 0], ZeroOne)),
            (STOP, Rests([0, 0], ZeroOne)),
            (TO_ZERO, Refused),
            (RingFull(0), Refused),
            (Got(0), Refused),
        ],
        (ZeroOne, 0, [0, 0], Stopped),
    )
}

fn what_is_out_comes_back_after_a_stop() -> bool {
    shows(
        &[
            (Got(0), Waits([0, 0], ZeroOne)),
            (TO_ZERO, Rests([1, 0], OneZero)),
            (Got(1), Waits([1, 0], OneZero)),
            (TO_ONE, Rests([1, 1], ZeroOne)),
            (STOP_AT_ONCE, Rests([1, 1], ZeroOne)),
            (Back(1), Rests([1, 0], ZeroOne)),
            (Back(0), Rests([0, 0], ZeroOne)),
            (Back(0), Refused),
        ],
        (ZeroOne, 0, [0, 0], Stopped),
    )
}

fn two_stops_are_one() -> bool {
    shows(
        &[
            (Got(1), Waits([0, 0], ZeroOne)),
            (STOP_AT_ONCE, Rests([0, 0], ZeroOne)),
            (STOP, Rests([0, 0], ZeroOne)),
            (Got(0), Refused),
            (Back(0), Refused),
        ],
        (ZeroOne, 0, [0, 0], Stopped),
    )
}

fn a_stop_comes_in_a_pause() -> bool {
    shows(
        &[
            (Got(0), Waits([0, 0], ZeroOne)),
            (PAUSE, Waits([0, 0], ZeroOne)),
            (STOP, Rests([0, 0], ZeroOne)),
            (TO_ZERO, Refused),
            (Got(1), Refused),
        ],
        (ZeroOne, 0, [0, 0], PausedAndStopped),
    )
}

fn workers_come_and_go_after_a_stop() -> bool {
    shows(
        &[
            (STOP_AT_ONCE, Rests([0, 0], ZeroOne)),
            (Faulted(0), Rests([0, 0], One)),
            (Replaced(0), Rests([0, 0], OneZero)),
            (Faulted(1), Rests([0, 0], Zero)),
            (Retired(1), Rests([0, 0], Zero)),
            (Notice(0), Rests([0, 0], Zero)),
            (Faulted(0), Rests([0, 0], Nobody)),
            (Retired(0), Rests([0, 0], Nobody)),
            (ListenerFailed(0), Rests([0, 0], Nobody)),
        ],
        (Nobody, 0, [1, 0], Stopped),
    )
}

#[test]
fn commands_are_kept_by_the_table(rt: HostRuntime) {
    assert!(rt; none_is_taken_before_the_resume());
    assert!(rt; what_waits_goes_on_through_a_pause());
    assert!(rt; one_resume_ends_two_pauses());
    assert!(rt; a_resume_by_itself_changes_nothing());
    assert!(rt; no_resume_ends_a_stop());
    assert!(rt; nothing_waits_after_a_stop());
    assert!(rt; what_is_out_comes_back_after_a_stop());
    assert!(rt; two_stops_are_one());
    assert!(rt; a_stop_comes_in_a_pause());
    assert!(rt; workers_come_and_go_after_a_stop());
}
