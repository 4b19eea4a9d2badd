//! What the factories of closures, and the combinators that take a configuration, make.

use crate::configuring::{adds, adds_once_ready, frees, quarters, says, tells, tells_half};
use crate::makers::{Makes, denies, made_at_once, made_late};
use crate::making::Asked;
use crate::services::{Kind, echo, faulty};
use crate::shown::{hold, holds};
use crate::words::{Denial, stepping};
use std::test::Fail;

#[test]
fn a_factory_of_a_closure_hands_it_the_configuration(rt: HostRuntime) -> Result<(), Fail> {
    let ready = Asked::Readied(Ok(()), 7, Ok(72));
    hold(
        &rt,
        &[
            tells(&rt, &stepping(1), &Asked::Served(7, Ok(71))),
            tells(&rt, &stepping(2), &Asked::Served(7, Ok(72))),
            tells(&rt, &stepping(1), &ready),
        ],
    )
}

#[test]
fn a_factory_without_a_configuration_takes_any(rt: HostRuntime) -> Result<(), Fail> {
    let answer = Asked::Served(7, Ok(74));
    let ready = Asked::Readied(Ok(()), 7, Ok(75));
    hold(
        &rt,
        &[
            says(&rt, &stepping(1), &answer),
            says(&rt, &stepping(2), &answer),
            says(&rt, &stepping(1), &ready),
        ],
    )
}

#[test]
fn apply_fn_factory_hands_its_closure_the_request_and_a_made_service(
    rt: HostRuntime,
) -> Result<(), Fail> {
    let answer = Asked::Served(28, Ok(8));
    let ready = Asked::Readied(Ok(()), 28, Ok(9));
    hold(
        &rt,
        &[
            quarters(&rt, made_at_once(echo()), &stepping(1), &answer),
            quarters(&rt, made_at_once(echo()), &stepping(1), &ready),
        ],
    )
}

#[test]
fn apply_cfg_makes_a_service_of_the_configuration(rt: HostRuntime) -> Result<(), Fail> {
    hold(
        &rt,
        &[
            adds(&rt, &stepping(3), &Asked::Served(4, Ok(7))),
            adds(&rt, &stepping(5), &Asked::Served(4, Ok(9))),
        ],
    )
}

#[test]
fn apply_cfg_factory_makes_a_service_of_the_configuration(rt: HostRuntime) -> Result<(), Fail> {
    let cfg = stepping(3);
    let answer = Asked::Served(4, Ok(7));
    hold(
        &rt,
        &[
            adds_once_ready(&rt, made_at_once(echo()), &cfg, &answer),
            adds_once_ready(&rt, made_at_once(echo()), &cfg, &Asked::Polls(1)),
        ],
    )
}

/// A factory of services that are ready at the third poll.
fn wakes() -> Makes<()> {
    made_at_once(Kind { waits: 2, ..echo() })
}

#[test]
fn apply_cfg_factory_awaits_the_readiness_of_the_made_service(rt: HostRuntime) -> Result<(), Fail> {
    let cfg = stepping(3);
    hold(
        &rt,
        &[
            adds_once_ready(&rt, wakes(), &cfg, &Asked::Waits),
            adds_once_ready(&rt, wakes(), &cfg, &Asked::Polls(3)),
        ],
    )
}

#[test]
fn apply_cfg_factory_turns_an_error_of_readiness(rt: HostRuntime) -> Result<(), Fail> {
    let denied = Asked::Denied(Denial::Unready);
    let unready = made_at_once(faulty());
    holds(&rt, adds_once_ready(&rt, unready, &stepping(3), &denied))
}

#[test]
fn apply_cfg_factory_answers_an_error_of_the_making(rt: HostRuntime) -> Result<(), Fail> {
    let denied = Asked::Denied(Denial::First);
    let barren = denies(0, Denial::First);
    holds(&rt, adds_once_ready(&rt, barren, &stepping(3), &denied))
}

#[test]
fn map_config_changes_the_configuration(rt: HostRuntime) -> Result<(), Fail> {
    let answer = Asked::Served(0, Ok(2));
    holds(
        &rt,
        tells_half(&rt, made_at_once(echo()), &stepping(4), &answer),
    )
}

#[test]
fn unit_config_takes_any_configuration(rt: HostRuntime) -> Result<(), Fail> {
    let answer = Asked::Served(7, Ok(7));
    let ready = Asked::Readied(Ok(()), 7, Ok(8));
    hold(
        &rt,
        &[
            frees(&rt, made_at_once(echo()), &stepping(9), &answer),
            frees(&rt, made_at_once(echo()), &stepping(9), &ready),
        ],
    )
}

#[test]
fn an_applied_making_that_waits_can_be_dropped(rt: HostRuntime) -> Result<(), Fail> {
    let cfg = stepping(3);
    let late = made_late(1, echo());
    hold(
        &rt,
        &[
            quarters(&rt, late, &stepping(1), &Asked::Waits),
            adds_once_ready(&rt, made_late(1, echo()), &cfg, &Asked::Waits),
            adds_once_ready(&rt, made_late(1, echo()), &cfg, &Asked::Polls(2)),
        ],
    )
}

#[test]
fn each_factory_of_a_closure_makes_the_same_each_way(rt: HostRuntime) -> Result<(), Fail> {
    let half = made_at_once(echo());
    let free = made_at_once(echo());
    hold(
        &rt,
        &[
            tells(&rt, &stepping(1), &Asked::Served(7, Ok(71))),
            says(&rt, &stepping(1), &Asked::Served(7, Ok(74))),
            tells_half(&rt, half, &stepping(6), &Asked::Served(0, Ok(3))),
            frees(&rt, free, &stepping(1), &Asked::Served(8, Ok(8))),
        ],
    )
}

#[test]
fn each_applied_factory_makes_the_same_each_way(rt: HostRuntime) -> Result<(), Fail> {
    let cfg = stepping(1);
    let answer = Asked::Served(8, Ok(9));
    hold(
        &rt,
        &[
            quarters(&rt, made_at_once(echo()), &cfg, &Asked::Served(8, Ok(3))),
            adds(&rt, &cfg, &answer),
            adds_once_ready(&rt, made_at_once(echo()), &cfg, &answer),
        ],
    )
}
