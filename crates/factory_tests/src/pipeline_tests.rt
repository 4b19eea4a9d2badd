//! What pipelines of factories make.

use crate::changing::{pipeline, pipeline_excuses, pipeline_halves, pipeline_renames};
use crate::makers::{Maker, denies, made_at_once, made_late};
use crate::making::Asked;
use crate::pairing::{chained, handed};
use crate::services::{Kind, digit, echo, faulty};
use crate::shown::{hold, holds};
use crate::words::{Denial, Failure, Fault, Settings, stepping};
use std::alloc::AllocError;
use std::test::Fail;

#[test]
fn a_pipeline_of_factories_maps_responses(rt: HostRuntime) -> Result<(), Fail> {
    let answer = Asked::Served(8, Ok((4, "ok")));
    let ready = Asked::Readied(Ok(()), 7, Ok((4, "ok")));
    hold(
        &rt,
        &[
            pipeline_halves(&rt, made_at_once(echo()), &answer),
            pipeline_halves(&rt, made_at_once(echo()), &ready),
        ],
    )
}

#[test]
fn a_pipeline_of_factories_maps_errors(rt: HostRuntime) -> Result<(), Fail> {
    let error = Asked::Served(7, Err(Failure::Mapped));
    let unready = Asked::Readied(Err(Failure::Mapped), 7, Err(Failure::Mapped));
    hold(
        &rt,
        &[
            pipeline_renames(&rt, made_at_once(faulty()), &error),
            pipeline_renames(&rt, made_at_once(faulty()), &unready),
        ],
    )
}

/// Whether this comes in place of a service where a pipeline makes none, and its own errors are changed.
fn excuses_denial(rt: &HostRuntime, failure: Failure) -> Result<bool, AllocError> {
    let barren: Maker = denies(0, Denial::First);
    pipeline_excuses(
        rt,
        Ok(pipeline(barren)),
        &stepping(1),
        &Asked::Denied(failure),
    )
}

#[test]
fn a_pipeline_of_factories_maps_what_comes_in_place_of_a_service(
    rt: HostRuntime,
) -> Result<(), Fail> {
    holds(&rt, excuses_denial(&rt, Failure::Mapped))
}

// The readiness of each part is polled once before the second answer, so each adds one.
#[test]
fn a_pipeline_of_factories_hands_each_response_on(rt: HostRuntime) -> Result<(), Fail> {
    let cfg = stepping(0);
    let one = digit(10, 1);
    let two = digit(10, 2);
    let answer = Asked::Served(7, Ok(712));
    let ready = Asked::Readied(Ok(()), 7, Ok(723));
    hold(
        &rt,
        &[
            chained(&rt, made_at_once(one), made_at_once(two), &cfg, &answer),
            chained(&rt, made_at_once(one), made_at_once(two), &cfg, &ready),
        ],
    )
}

/// A kind that refuses what has two digits.
fn narrow() -> Kind {
    Kind {
        limit: 9,
        ..digit(10, 1)
    }
}

/// A kind that is never ready, but answers.
fn unready() -> Kind {
    Kind {
        is_broken: true,
        ..digit(10, 2)
    }
}

// The second part stands for an error by 99. The readiness of each is polled once before the last answer.
#[test]
fn a_pipeline_of_factories_hands_each_result_on(rt: HostRuntime) -> Result<(), Fail> {
    let cfg = stepping(0);
    let fine = Asked::Served(7, Ok(712));
    let failed = Asked::Served(10, Ok(992));
    let readied = Asked::Readied(Err(Fault::Bad), 7, Ok(723));
    hold(
        &rt,
        &[
            handed(
                &rt,
                made_at_once(narrow()),
                made_at_once(unready()),
                &cfg,
                &fine,
            ),
            handed(
                &rt,
                made_at_once(narrow()),
                made_at_once(unready()),
                &cfg,
                &failed,
            ),
            handed(
                &rt,
                made_at_once(narrow()),
                made_at_once(unready()),
                &cfg,
                &readied,
            ),
        ],
    )
}

#[test]
fn then_makes_both_parts_at_once(rt: HostRuntime) -> Result<(), Fail> {
    let cfg = stepping(1);
    let one = made_late(1, echo());
    let two = made_late(1, echo());
    hold(
        &rt,
        &[
            handed(&rt, one, made_late(1, echo()), &cfg, &Asked::Waits),
            handed(&rt, two, made_late(1, echo()), &cfg, &Asked::Polls(2)),
        ],
    )
}

#[test]
fn then_answers_the_first_error_of_its_makings(rt: HostRuntime) -> Result<(), Fail> {
    let cfg = stepping(1);
    let first = Asked::Denied(Denial::First);
    let second = Asked::Denied(Denial::Second);
    let other = Denial::Second;
    hold(
        &rt,
        &[
            handed(
                &rt,
                denies(0, Denial::First),
                denies(0, other),
                &cfg,
                &first,
            ),
            handed(&rt, made_late(1, echo()), denies(0, other), &cfg, &second),
        ],
    )
}

#[test]
fn then_hands_a_clone_of_the_configuration_to_its_first_part(rt: HostRuntime) -> Result<(), Fail> {
    let cfg = Settings {
        step: 1,
        is_on: true,
        cloned: Some(2),
    };
    let tens = digit(10, 0);
    let answer = Asked::Served(7, Ok(721));
    holds(
        &rt,
        handed(&rt, made_at_once(tens), made_at_once(tens), &cfg, &answer),
    )
}

#[test]
fn then_takes_a_configuration_without_clones_for_want_of_memory(
    rt: HostRuntime,
) -> Result<(), Fail> {
    let cfg = Settings {
        step: 1,
        is_on: true,
        cloned: None,
    };
    let denied = Asked::Denied(Denial::Memory);
    holds(
        &rt,
        handed(
            &rt,
            made_at_once(echo()),
            made_at_once(echo()),
            &cfg,
            &denied,
        ),
    )
}

#[test]
fn a_pipeline_of_factories_makes_the_same_where_it_is_shared(rt: HostRuntime) -> Result<(), Fail> {
    let first = made_at_once(digit(10, 3));
    let second = made_at_once(digit(10, 4));
    let answer = Asked::Served(8, Ok(845));
    holds(&rt, handed(&rt, first, second, &stepping(1), &answer))
}
