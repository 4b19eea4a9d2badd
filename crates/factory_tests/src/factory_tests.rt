//! What the combinators of factories make.

use crate::changing::{excuses, halves, renames};
use crate::makers::{denies, made_at_once, made_late};
use crate::making::{Asked, both};
use crate::pairing::paired;
use crate::services::{digit, echo, faulty};
use crate::shown::{hold, holds};
use crate::transforms::blamed;
use crate::words::{Denial, Failure, Fault, Settings, stepping};
use crate::wrapping::Asking;
use std::alloc::AllocError;
use std::test::Fail;

#[test]
fn map_changes_the_responses_of_made_services(rt: HostRuntime) -> Result<(), Fail> {
    let answer = Asked::Served(8, Ok((4, "ok")));
    let ready = Asked::Readied(Ok(()), 7, Ok((4, "ok")));
    hold(
        &rt,
        &[
            halves(&rt, made_at_once(echo()), &stepping(1), &answer),
            halves(&rt, made_at_once(echo()), &stepping(1), &ready),
        ],
    )
}

#[test]
fn map_leaves_the_errors_of_made_services(rt: HostRuntime) -> Result<(), Fail> {
    let error = Asked::Served(7, Err(Fault::Bad));
    let unready = Asked::Readied(Err(Fault::Bad), 7, Err(Fault::Bad));
    hold(
        &rt,
        &[
            halves(&rt, made_at_once(faulty()), &stepping(1), &error),
            halves(&rt, made_at_once(faulty()), &stepping(1), &unready),
        ],
    )
}

#[test]
fn map_err_changes_the_errors_of_made_services(rt: HostRuntime) -> Result<(), Fail> {
    let error = Asked::Served(7, Err(Failure::Mapped));
    let unready = Asked::Readied(Err(Failure::Mapped), 7, Err(Failure::Mapped));
    hold(
        &rt,
        &[
            renames(&rt, made_at_once(faulty()), &stepping(1), &error),
            renames(&rt, made_at_once(faulty()), &stepping(1), &unready),
        ],
    )
}

#[test]
fn map_err_leaves_the_responses_of_made_services(rt: HostRuntime) -> Result<(), Fail> {
    let answer = Asked::Served(7, Ok(8));
    let ready = Asked::Readied(Ok(()), 7, Ok(9));
    hold(
        &rt,
        &[
            renames(&rt, made_at_once(echo()), &stepping(1), &answer),
            renames(&rt, made_at_once(echo()), &stepping(1), &ready),
        ],
    )
}

// The readiness of each part is polled once before the second answer, so each adds one.
#[test]
fn and_then_makes_a_service_of_both_parts(rt: HostRuntime) -> Result<(), Fail> {
    let cfg = stepping(0);
    let one = digit(10, 1);
    let two = digit(10, 2);
    let answer = Asked::Served(7, Ok(712));
    let ready = Asked::Readied(Ok(()), 7, Ok(723));
    hold(
        &rt,
        &[
            paired(&rt, made_at_once(one), made_at_once(two), &cfg, &answer),
            paired(&rt, made_at_once(one), made_at_once(two), &cfg, &ready),
        ],
    )
}

/// Whether a pair is made in so many polls, where its parts wait so often.
fn is_made_in(rt: &HostRuntime, waits: (u32, u32), polls: u32) -> Result<bool, AllocError> {
    let first = made_late(waits.0, echo());
    let second = made_late(waits.1, echo());
    paired(rt, first, second, &stepping(1), &Asked::Polls(polls))
}

#[test]
fn a_pair_is_made_in_as_many_polls_as_its_slower_part(rt: HostRuntime) -> Result<(), Fail> {
    hold(
        &rt,
        &[
            is_made_in(&rt, (0, 0), 1),
            is_made_in(&rt, (1, 1), 2),
            is_made_in(&rt, (1, 2), 3),
            is_made_in(&rt, (2, 0), 3),
        ],
    )
}

#[test]
fn the_first_making_errs_before_the_second(rt: HostRuntime) -> Result<(), Fail> {
    let cfg = stepping(1);
    let first = Asked::Denied(Denial::First);
    let second = Asked::Denied(Denial::Second);
    let fails = Denial::First;
    let other = Denial::Second;
    hold(
        &rt,
        &[
            paired(&rt, denies(0, fails), denies(0, other), &cfg, &first),
            paired(&rt, denies(1, fails), denies(0, other), &cfg, &second),
            paired(&rt, made_late(1, echo()), denies(0, other), &cfg, &second),
        ],
    )
}

#[test]
fn the_first_part_gets_a_clone_of_the_configuration(rt: HostRuntime) -> Result<(), Fail> {
    let cfg = Settings {
        step: 1,
        is_on: true,
        cloned: Some(2),
    };
    let tens = digit(10, 0);
    let answer = Asked::Served(7, Ok(721));
    holds(
        &rt,
        paired(&rt, made_at_once(tens), made_at_once(tens), &cfg, &answer),
    )
}

#[test]
fn a_configuration_without_clones_is_want_of_memory(rt: HostRuntime) -> Result<(), Fail> {
    let cfg = Settings {
        step: 1,
        is_on: true,
        cloned: None,
    };
    let denied = Asked::Denied(Denial::Memory);
    holds(
        &rt,
        paired(
            &rt,
            made_at_once(echo()),
            made_at_once(echo()),
            &cfg,
            &denied,
        ),
    )
}

#[test]
fn map_init_err_changes_what_comes_in_place_of_a_service(rt: HostRuntime) -> Result<(), Fail> {
    let cfg = stepping(1);
    let changed = Asked::Denied(Failure::Mapped);
    let answer = Asked::Served(7, Ok(8));
    hold(
        &rt,
        &[
            excuses(&rt, denies(0, Denial::First), &cfg, &changed),
            excuses(&rt, made_at_once(echo()), &cfg, &answer),
        ],
    )
}

/// Whether the wrapping of a service that comes late is pending. It is dropped then.
fn wrapping_waits(rt: &HostRuntime) -> Result<bool, AllocError> {
    let late = Asking {
        factor: 1,
        waits: 1,
        is_broken: false,
    };
    blamed(rt, late, &Asked::Waits)
}

#[test]
fn a_making_that_waits_can_be_dropped(rt: HostRuntime) -> Result<(), Fail> {
    let cfg = stepping(1);
    let second = made_at_once(echo());
    hold(
        &rt,
        &[
            halves(&rt, made_late(1, echo()), &cfg, &Asked::Waits),
            renames(&rt, made_late(1, echo()), &cfg, &Asked::Waits),
            excuses(&rt, made_late(1, echo()), &cfg, &Asked::Waits),
            paired(&rt, made_late(1, echo()), second, &cfg, &Asked::Waits),
            wrapping_waits(&rt),
        ],
    )
}

/// Whether each changed factory and its copy make the same of a step, each way: what answers 8 with half of a number, and
/// with the number.
pub(crate) fn changed_make_the_same(
    rt: &HostRuntime,
    step: u32,
    half: u32,
    whole: u32,
) -> Result<bool, AllocError> {
    let cfg = stepping(step);
    let halved = halves(
        rt,
        made_at_once(echo()),
        &cfg,
        &Asked::Served(8, Ok((half, "ok"))),
    );
    let renamed = renames(rt, made_at_once(echo()), &cfg, &Asked::Served(8, Ok(whole)));
    let excused = excuses(rt, made_at_once(echo()), &cfg, &Asked::Served(8, Ok(whole)));
    both(halved, both(renamed, excused))
}

#[test]
fn each_factory_makes_the_same_each_way(rt: HostRuntime) -> Result<(), Fail> {
    let first = made_at_once(digit(10, 3));
    let second = made_at_once(digit(10, 4));
    let answer = Asked::Served(8, Ok(845));
    hold(
        &rt,
        &[
            changed_make_the_same(&rt, 1, 4, 9),
            paired(&rt, first, second, &stepping(1), &answer),
        ],
    )
}
