//! Services of closures, shared services and factories, and services that a transform wraps.

use crate::asking::{built_shows, shows};
use crate::factory_programs::shows_wrapped;
use crate::makers::{Maker, denies, made_at_once};
use crate::making::{Asked, answers_once_ready, both, is_denied, is_other, serves, task, waits};
use crate::naming::{half, text};
use crate::services::echo;
use crate::shown::{hold, holds};
use crate::transforms::built_wraps;
use crate::words::{Denial, Failure, Settings, stepping};
use crate::wrapping::{Asking, times};
use futures::task::Poll;
use service_core::{ApplyTransformFuture, NoMemory, Service, ServiceFactory, apply, fn_service};
use std::alloc::{AllocError, AllocGlobal};
use std::test::Fail;

// Whether a service is ready, and answers so.
fn tells_at_once<S, Req>(
    rt: &HostRuntime,
    service: S,
    req: Req,
    wanted: S::Response,
) -> Result<bool, AllocError>
where
    Req: Drop,
    S: Service<Req, Response: PartialEq + Drop, Error: NoMemory + PartialEq> + Drop,
    requires { S.can_call service }
{
    match task(rt) {
        Ok(task) => answers_once_ready(&task, service, &Ok(()), req, &Ok(wanted)),
        Err(_) => Err(AllocError),
    }
}

// Whether a service and a copy of it are ready, and answer half of a number.
fn halves_as_its_copy<S>(rt: &HostRuntime, service: S) -> Result<bool, AllocError>
where
    S: Service<u32, Response = u32, Error: NoMemory + PartialEq> + Clone + Drop,
    requires { (made : _) → S.can_call made }
{
    let copy: Result<_, _> = service.clone();
    match copy {
        Ok(copy) => both(
            tells_at_once(rt, copy, 7u32, 3),
            tells_at_once(rt, service, 6u32, 3),
        ),
        Err(_) => Err(AllocError),
    }
}

// Whether a factory makes a service at once that halves as its copy does.
fn makes_halving<F>(rt: &HostRuntime, factory: &F) -> Result<bool, AllocError>
where
    F: ServiceFactory<
        u32,
        Config = (),
        Response = u32,
        Error: NoMemory + PartialEq,
        Service: Clone + Drop,
        InitError: NoMemory + PartialEq,
    >,
    requires factory { F.can_make factory.now }
    requires services { (service : F.Service) → F.Service.can_call service }
{
    let task = task(rt)?;
    let mut making = factory.new_service(());
    match task.poll(&mut making) {
        Poll::Ready(Ok(service)) => halves_as_its_copy(rt, service),
        Poll::Ready(Err(error)) => is_other(error),
        Poll::Pending => Ok(false),
    }
}

// Whether a closure that halves is a service, and a copy of it a factory of such services.
fn is_factory_and_service(rt: &HostRuntime) -> Result<bool, AllocError> {
    let factory = fn_service(rt.alloc(), half)?;
    let copy: Result<_, _> = factory.clone();
    let halved = tells_at_once(rt, &factory, 8u32, 4);
    match copy {
        Ok(copy) => both(halved, makes_halving(rt, &copy)),
        Err(_) => Err(AllocError),
    }
}

#[test]
fn a_closure_is_a_factory_and_a_service(rt: HostRuntime) -> Result<(), Fail> {
    holds(&rt, is_factory_and_service(&rt))
}

// Whether a closure that takes nothing, and the services that it makes, answer this text.
fn tells(rt: &HostRuntime, told: &'static str) -> Result<bool, AllocError> {
    let factory = fn_service(rt.alloc(), text)?;
    let answered = tells_at_once(rt, &factory, (), told);
    both(
        answered,
        shows(rt, &factory, (), &Asked::Served((), Ok(told))),
    )
}

#[test]
fn a_closure_that_takes_nothing_answers_its_text(rt: HostRuntime) -> Result<(), Fail> {
    holds(&rt, tells(&rt, "srv"))
}

#[test]
fn a_shared_factory_makes_what_its_factory_makes(rt: HostRuntime) -> Result<(), Fail> {
    let one = Asked::Served(2, Ok(1));
    let two = Asked::Served(4, Ok(2));
    let cfg = stepping(1);
    hold(
        &rt,
        &[
            built_shows(&rt, fn_service(rt.alloc(), half), &cfg, &one),
            built_shows(&rt, fn_service(rt.alloc(), half), &cfg, &two),
        ],
    )
}

#[test]
fn a_shared_transform_wraps_as_its_transform(rt: HostRuntime) -> Result<(), Fail> {
    hold(
        &rt,
        &[
            built_wraps(&rt, Ok(times(5)), &Asked::Served(1, Ok(5))),
            built_wraps(&rt, Ok(times(6)), &Asked::Served(1, Ok(6))),
            built_wraps(&rt, Ok(times(7)), &Asked::Served(1, Ok(7))),
        ],
    )
}

// Whether a factory's making is pending twice, and its service answers 1 so then.
fn makes_third<F>(rt: &HostRuntime, factory: &F, wanted: u32) -> Result<bool, AllocError>
where
    F: ServiceFactory<
        u32,
        Config = Settings,
        Response = u32,
        Error: NoMemory + PartialEq,
        Service: Drop,
        InitError: NoMemory + PartialEq,
    >,
    requires factory { F.can_make factory.now }
    requires services { (service : F.Service) → F.Service.can_call service }
{
    let task = task(rt)?;
    let mut making = factory.new_service(stepping(0));
    if waits(&task, &mut making) && waits(&task, &mut making) {
        serves(&task, &mut making, 1, &Ok(wanted))
    } else {
        Ok(false)
    }
}

// Whether a copy of a factory that makes a service, and then wraps it to be asked for a number, does so at the third poll.
fn makes_and_wraps(rt: &HostRuntime, number: u32) -> Result<bool, AllocError> {
    let late = Asking {
        waits: 2,
        ..times(number)
    };
    let factory: Maker = made_at_once(echo());
    let wraps = apply(rt.alloc(), late, factory)?;
    let copy: Result<_, _> = wraps.clone();
    match copy {
        Ok(copy) => makes_third(rt, &copy, number),
        Err(_) => Err(AllocError),
    }
}

#[test]
fn a_service_is_made_and_then_wrapped(rt: HostRuntime) -> Result<(), Fail> {
    holds(&rt, makes_and_wraps(&rt, 9))
}

#[test]
fn an_error_of_the_making_is_turned_into_the_transforms(rt: HostRuntime) -> Result<(), Fail> {
    let barren: Maker = denies(0, Denial::First);
    let turned = Asked::Denied(Failure::Turned);
    holds(&rt, shows_wrapped(&rt, Ok(barren), times(9), &turned))
}

#[test]
fn parts_that_cannot_be_shared_are_want_of_memory(rt: HostRuntime) -> Result<(), Fail> {
    let making: ApplyTransformFuture<Asking, Maker, u32> = ApplyTransformFuture::refused();
    holds(&rt, is_denied(&rt, making, &Failure::NoRoom))
}
