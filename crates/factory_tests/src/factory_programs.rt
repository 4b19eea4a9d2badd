//! Programs over factories of services.

use crate::asking::built_shows;
use crate::changing::{AskedExcused, pipeline, pipeline_adds_one};
use crate::makers::{Maker, denies, made_at_once};
use crate::making::Asked;
use crate::naming::one_more;
use crate::services::echo;
use crate::shown::hold;
use crate::words::{Denial, Failure, Fault, Settings, stepping};
use crate::wrapping::{Asking, times};
use service_combine::{PipelineFactory, pipeline_factory};
use service_core::{ServiceFactory, apply};
use std::alloc::{AllocError, AllocGlobal};
use std::test::Fail;

// Whether two factories show what they have to in a pipeline, with one more.
fn add_in_a_pipeline<A, B>(
    rt: &HostRuntime,
    first: A,
    second: B,
    cfg: &Settings,
    asked: &AskedExcused,
) -> Result<bool, AllocError>
where
    A: ServiceFactory<
        u32,
        Config = Settings,
        Response = u32,
        Error = Fault,
        Service: Drop,
        InitError = Denial,
    >
        + Drop,
    B: ServiceFactory<
        u32,
        Config = Settings,
        Response = u32,
        Error = Fault,
        Service: Drop,
        InitError = Denial,
    >
        + Drop,
    requires first { (made : _) → A.can_make made }
    requires second { (made : _) → B.can_make made }
{
    let chain: PipelineFactory<A, u32> = pipeline_factory(first);
    pipeline_adds_one(rt, chain.and_then(rt.alloc(), second), cfg, asked)
}

// Whether a pipeline of two parts, each of which adds the step of its settings, shows what it has to with one more.
fn adds(rt: &HostRuntime, cfg: &Settings, asked: &AskedExcused) -> Result<bool, AllocError> {
    add_in_a_pipeline(rt, made_at_once(echo()), made_at_once(echo()), cfg, asked)
}

// The first part gets a clone of the settings, which is on, so the second is the one that is not made.
#[test]
fn a_pipeline_of_factories_errs_in_the_programs_own_type(rt: HostRuntime) -> Result<(), Fail> {
    let off = Settings {
        is_on: false,
        ..stepping(3)
    };
    let answer = Asked::Served(7, Ok(14));
    let error = Asked::Denied(Failure::Mapped);
    hold(
        &rt,
        &[adds(&rt, &stepping(3), &answer), adds(&rt, &off, &error)],
    )
}

/// Whether a factory shows what it has to under a transform.
pub(crate) fn shows_wrapped<F>(
    rt: &HostRuntime,
    inner: Result<F, AllocError>,
    transform: Asking,
    asked: &AskedExcused,
) -> Result<bool, AllocError>
where
    F: ServiceFactory<
        u32,
        Config = Settings,
        Response = u32,
        Error = Fault,
        InitError = Denial,
        Service: Drop,
    >
        + Drop,
    requires { (made : _) → F.can_make made }
{
    match inner {
        Ok(inner) => built_shows(rt, apply(rt.alloc(), transform, inner), &stepping(0), asked),
        Err(_) => Err(AllocError),
    }
}

// Whether a pipeline over a factory shows what it has to under a transform.
fn shows_under_a_transform(
    rt: &HostRuntime,
    factory: Maker,
    transform: Asking,
    asked: &AskedExcused,
) -> Result<bool, AllocError> {
    let chain = pipeline(factory);
    shows_wrapped(rt, chain.map(rt.alloc(), one_more), transform, asked)
}

#[test]
fn a_transform_stands_over_a_pipeline_of_factories(rt: HostRuntime) -> Result<(), Fail> {
    let broken = Asking {
        is_broken: true,
        ..times(2)
    };
    let answer = Asked::Served(7, Ok(15));
    let wrapping = Asked::Denied(Failure::Broken);
    let turned = Asked::Denied(Failure::Turned);
    let barren = denies(0, Denial::First);
    hold(
        &rt,
        &[
            shows_under_a_transform(&rt, made_at_once(echo()), times(2), &answer),
            shows_under_a_transform(&rt, made_at_once(echo()), broken, &wrapping),
            shows_under_a_transform(&rt, barren, times(2), &turned),
        ],
    )
}
