//! What the futures of factories answer whose closure or parts could not be shared.

use crate::makers::{Maker, Makes};
use crate::making::is_denied;
use crate::services::Serving;
use crate::shown::{hold, holds};
use crate::words::{Denial, Failure, Fault, Settings};
use service_combine::{
    AndThenServiceFactoryResponse, ApplyConfigServiceFactoryResponse, ApplyServiceFactoryResponse,
    MapErrServiceFuture, MapInitErrFuture, MapServiceFuture, ThenServiceFactoryResponse,
};
use service_core::Ready;
use std::alloc::{AllocError, AllocGlobal};
use std::test::Fail;

/// What a closure or a factory gives.
type Made = Ready<Result<Serving, Denial>>;

// Whether want of memory comes in place of a service whose responses a closure was to change.
fn map_is_refused(rt: &HostRuntime) -> Result<bool, AllocError> {
    let mapped: MapServiceFuture<Made, (), u32, u32> = MapServiceFuture::refused();
    is_denied(rt, mapped, &Denial::Memory)
}

// Whether want of memory comes in place of a service whose errors a closure was to change.
fn map_err_is_refused(rt: &HostRuntime) -> Result<bool, AllocError> {
    let renamed: MapErrServiceFuture<Made, (), u32, Failure> = MapErrServiceFuture::refused();
    is_denied(rt, renamed, &Denial::Memory)
}

// Whether want of memory comes in place of a service that was to be lent to a closure.
fn apply_is_refused(rt: &HostRuntime) -> Result<bool, AllocError> {
    let applied: ApplyServiceFactoryResponse<Made, (), u32, u32, u32, Fault> =
        ApplyServiceFactoryResponse::refused();
    is_denied(rt, applied, &Denial::Memory)
}

#[test]
fn a_closure_that_cannot_be_shared_is_want_of_memory(rt: HostRuntime) -> Result<(), Fail> {
    hold(
        &rt,
        &[
            map_is_refused(&rt),
            map_err_is_refused(&rt),
            apply_is_refused(&rt),
        ],
    )
}

#[test]
fn an_init_error_closure_that_cannot_be_shared_is_want_of_memory(
    rt: HostRuntime,
) -> Result<(), Fail> {
    let named: MapInitErrFuture<Ready<Result<u32, Fault>>, fn(Fault) -> Denial> =
        MapInitErrFuture::refused();
    holds(&rt, is_denied(&rt, named, &Denial::Memory))
}

// Whether want of memory comes in place of a service of two parts, one behind the other.
fn and_then_is_refused(rt: &HostRuntime) -> Result<bool, AllocError> {
    let chained: AndThenServiceFactoryResponse<Maker, Maker, u32> =
        AndThenServiceFactoryResponse::refused(rt.alloc());
    is_denied(rt, chained, &Denial::Memory)
}

// Whether want of memory comes in place of a service of two parts, each result of the first handed to the second.
fn then_is_refused(rt: &HostRuntime) -> Result<bool, AllocError> {
    let handed: ThenServiceFactoryResponse<Maker, Maker, u32> = ThenServiceFactoryResponse::refused(
        rt.alloc(),
    );
    is_denied(rt, handed, &Denial::Memory)
}

#[test]
fn parts_that_cannot_be_shared_are_want_of_memory(rt: HostRuntime) -> Result<(), Fail> {
    hold(&rt, &[and_then_is_refused(&rt), then_is_refused(&rt)])
}

/// A closure that makes a service of settings, to which another is lent.
type Lent = fn(Settings, &Serving) -> Made;

#[test]
fn a_configuring_closure_that_cannot_be_shared_is_want_of_memory(
    rt: HostRuntime,
) -> Result<(), Fail> {
    let making: ApplyConfigServiceFactoryResponse<Makes<()>, u32, Lent, Settings, Made, Serving> =
        ApplyConfigServiceFactoryResponse::refused();
    holds(&rt, is_denied(&rt, making, &Denial::Memory))
}
