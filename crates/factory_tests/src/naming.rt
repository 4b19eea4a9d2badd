//! Functions that stand for the closures of the combinators.

use crate::services::{Limited, Serving, digit, service_of};
use crate::words::{Denial, Failure, Fault, Settings};
use futures::Future;
use service_core::{Ready, Service, err, ok};
use std::alloc::AllocError;
use std::rc::Rc;

/// Half of a number, and a text.
pub(crate) fn half_ok(number: u32) -> (u32, &'static str) {
    (number / 2, "ok")
}

/// One more.
pub(crate) fn one_more(number: u32) -> u32 {
    number.wrapping_add(1)
}

/// An error of a service.
pub(crate) fn failure(_: Fault) -> Failure {
    Failure::Mapped
}

/// The program's error for what comes in place of a service.
pub(crate) fn excuse(denial: Denial) -> Failure {
    match denial {
        Denial::Memory => Failure::NoRoom,
        _ => Failure::Mapped,
    }
}

/// What comes for an error of a transform.
pub(crate) fn blame(_: Failure) -> Denial {
    Denial::First
}

/// Settings of half the step.
pub(crate) fn halved(settings: Settings) -> Settings {
    Settings {
        step: settings.step / 2,
        is_on: settings.is_on,
        cloned: settings.cloned,
    }
}

/// The step of the settings, if they are on.
pub(crate) fn step_of(settings: Settings) -> u32 {
    if settings.is_on { settings.step } else { 0 }
}

/// A service that adds a step.
pub(crate) fn adding(step: u32) -> Ready<Result<Serving, Denial>>
    ensures { ⟦<Ready<Result<Serving, Denial>> as Future>⟧.can_poll result }
{
    ok(service_of(digit(1, step)))
}

/// A service that puts the step of the settings behind each number.
pub(crate) fn told(settings: Settings) -> Ready<Result<Serving, Denial>>
    ensures { ⟦<Ready<Result<Serving, Denial>> as Future>⟧.can_poll result }
{
    ok(service_of(digit(10, settings.step)))
}

/// A service that puts a digit behind each number.
pub(crate) fn four() -> Ready<Result<Serving, Denial>>
    ensures { ⟦<Ready<Result<Serving, Denial>> as Future>⟧.can_poll result }
{
    ok(service_of(digit(10, 4)))
}

/// A service that adds the step of the settings, whatever service is lent.
pub(crate) fn added(settings: Settings, _: &Serving) -> Ready<Result<Serving, Denial>>
    ensures { ⟦<Ready<Result<Serving, Denial>> as Future>⟧.can_poll result }
{
    ok(service_of(digit(1, settings.step)))
}

/// A service with the limit that the settings give, over a shared one.
pub(crate) fn limited(settings: Settings, shared: &Rc<Serving>) -> Ready<Result<Limited, Denial>>
    ensures { ⟦<Ready<Result<Limited, Denial>> as Future>⟧.can_poll result }
{
    match shared.clone() {
        Ok(service) => ok(Limited {
            limit: settings.step,
            service,
        }),
        Err(_) => err(Denial::Memory),
    }
}

/// What a service answers to the result that is a quarter of the number.
pub(crate) fn quartered(number: u32, srv: &Serving) -> Ready<Result<u32, Fault>>
    ensures { ⟦<Ready<Result<u32, Fault>> as Future>⟧.can_poll result }
{
    let quarter: Result<u32, Fault> = Ok(number / 4);
    srv.call(quarter)
}

/// Half of a number.
pub(crate) fn half(number: u32) -> Ready<Result<u32, AllocError>>
    ensures { ⟦<Ready<Result<u32, AllocError>> as Future>⟧.can_poll result }
{
    ok(number / 2)
}

/// A text.
pub(crate) fn text(_: ()) -> Ready<Result<&'static str, AllocError>>
    ensures { ⟦<Ready<Result<&'static str, AllocError>> as Future>⟧.can_poll result }
{
    ok("srv")
}
