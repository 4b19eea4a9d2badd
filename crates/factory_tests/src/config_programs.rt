//! Programs over factories that take a configuration.

use crate::asking::{built_shows, shows};
use crate::making::{Asked, both};
use crate::naming::{adding, limited, step_of};
use crate::pairing::AskedNumber;
use crate::services::{Limited, Serving, digit, service_of};
use crate::shown::{hold, holds};
use crate::words::{Denial, Fault, Settings, stepping};
use service_combine::{ApplyConfigService, apply_cfg, fn_factory_with_config, map_config};
use service_core::ServiceFactory;
use std::alloc::{AllocError, AllocGlobal};
use std::rc::Rc;
use std::test::Fail;

// Whether a factory over a part of the settings makes a service that answers so to 7.
fn serves_by_settings<F>(
    rt: &HostRuntime,
    makes: Result<F, AllocError>,
    settings: &Settings,
    answer: u32,
) -> Result<bool, AllocError>
where
    F: ServiceFactory<
        u32,
        Config = u32,
        Response = u32,
        Error = Fault,
        InitError = Denial,
        Service: Drop,
    >
        + Clone
        + Drop,
    requires makes { (made : _) → F.can_make made }
{
    match makes {
        Ok(makes) => {
            let factory = map_config(rt.alloc(), makes, step_of);
            built_shows(rt, factory, settings, &Asked::Served(7, Ok(answer)))
        }
        Err(_) => Err(AllocError),
    }
}

// Whether a service that adds as the settings say answers so to 7.
fn adds_by_settings(
    rt: &HostRuntime,
    settings: &Settings,
    answer: u32,
) -> Result<bool, AllocError> {
    let makes = fn_factory_with_config(rt.alloc(), adding);
    serves_by_settings(rt, makes, settings, answer)
}

#[test]
fn a_service_is_made_of_its_part_of_the_settings(rt: HostRuntime) -> Result<(), Fail> {
    let off = Settings {
        is_on: false,
        ..stepping(4)
    };
    hold(
        &rt,
        &[
            adds_by_settings(&rt, &stepping(3), 10),
            adds_by_settings(&rt, &stepping(4), 11),
            adds_by_settings(&rt, &off, 7),
        ],
    )
}

// Whether a service says so that is made of a limit, over another.
fn limits(
    rt: &HostRuntime,
    service: Rc<Serving>,
    limit: u32,
    asked: &AskedNumber,
) -> Result<bool, AllocError> {
    let made: Result<ApplyConfigService<_, u32, _, Settings, _, Limited, Denial>, _> = apply_cfg(
        rt.alloc(),
        service,
        limited,
    );
    match made {
        Ok(made) => shows(rt, &made, stepping(limit), asked),
        Err(_) => Err(AllocError),
    }
}

// Whether a service says so that is made of a limit, over a shared one.
fn under_a_limit(
    rt: &HostRuntime,
    shared: &Rc<Serving>,
    limit: u32,
    asked: &AskedNumber,
) -> Result<bool, AllocError> {
    let service = shared.clone()?;
    limits(rt, service, limit, asked)
}

// Whether services of two limits answer so over a shared one.
fn keep_their_limits(rt: &HostRuntime, shared: &Rc<Serving>) -> Result<bool, AllocError> {
    let below = under_a_limit(rt, shared, 10, &Asked::Served(7, Ok(8)));
    let at = under_a_limit(rt, shared, 10, &Asked::Served(10, Ok(11)));
    let above = under_a_limit(rt, shared, 10, &Asked::Served(11, Err(Fault::Bad)));
    let below_another = under_a_limit(rt, shared, 20, &Asked::Served(11, Ok(12)));
    both(both(below, at), both(above, below_another))
}

// Whether services of two limits answer so, and call the shared one so often.
fn call_the_shared_one(rt: &HostRuntime, calls: u32) -> Result<bool, AllocError> {
    let shared = Rc::new(rt.alloc(), service_of(digit(1, 1)))?;
    let kept = keep_their_limits(rt, &shared);
    both(kept, Ok(shared.calls.get() == calls))
}

#[test]
fn a_service_is_made_of_a_limit_over_a_shared_one(rt: HostRuntime) -> Result<(), Fail> {
    holds(&rt, call_the_shared_one(&rt, 3))
}
