//! What transforms are asked, whatever they make.

use crate::making::{Asked, both, making_shows, task};
use crate::naming::blame;
use crate::services::{Serving, echo, service_of};
use crate::words::{Denial, Fault};
use crate::wrapping::Asking;
use service_combine::TransformExt;
use service_core::{NoMemory, Transform};
use std::alloc::{AllocError, AllocGlobal};
use std::rc::Rc;
use std::sync::Arc;

/// Whether a transform shows what it has to.
fn wraps<T>(
    rt: &HostRuntime,
    transform: &T,
    asked: &Asked<u32, u32, Fault, T::InitError>,
) -> Result<bool, AllocError>
where
    T: Transform<
        Serving,
        u32,
        Response = u32,
        Error = Fault,
        Transform: Drop,
        InitError: NoMemory + PartialEq,
    >,
    requires { (service : _) → T.can_make transform.now service }
{
    let task = task(rt)?;
    let mut making = transform.new_transform(service_of(echo()));
    making_shows(&task, &mut making, asked)
}

/// Whether a transform shows what it has to where it is lent, and where it is shared by `Rc`.
fn lent_and_counted<T>(
    rt: &HostRuntime,
    transform: T,
    asked: &Asked<u32, u32, Fault, T::InitError>,
) -> Result<bool, AllocError>
where
    T: Transform<
        Serving,
        u32,
        Response = u32,
        Error = Fault,
        Transform: Drop,
        InitError: NoMemory + PartialEq,
    >
        + Drop,
    requires { (service : _) → T.can_make transform service }
{
    let lent = wraps(rt, &transform, asked);
    match Rc::new(rt.alloc(), transform) {
        Ok(counted) => both(lent, wraps(rt, &counted, asked)),
        Err(_) => Err(AllocError),
    }
}

/// Whether a transform shows what it has to where it is lent, and where it is shared by `Arc`.
fn lent_and_shared<T>(
    rt: &HostRuntime,
    transform: T,
    asked: &Asked<u32, u32, Fault, T::InitError>,
) -> Result<bool, AllocError>
where
    T: Transform<
        Serving,
        u32,
        Response = u32,
        Error = Fault,
        Transform: Drop,
        InitError: NoMemory + PartialEq,
    >
        + Drop,
    requires { (service : _) → T.can_make transform service }
{
    let lent = wraps(rt, &transform, asked);
    match Arc::new(rt.alloc(), transform) {
        Ok(shared) => both(lent, wraps(rt, &shared, asked)),
        Err(_) => Err(AllocError),
    }
}

/// Whether a transform and its copy show what they have to each way.
fn wrap_each_way<T>(
    rt: &HostRuntime,
    transform: T,
    copy: Result<T, AllocError>,
    asked: &Asked<u32, u32, Fault, T::InitError>,
) -> Result<bool, AllocError>
where
    T: Transform<
        Serving,
        u32,
        Response = u32,
        Error = Fault,
        Transform: Drop,
        InitError: NoMemory + PartialEq,
    >
        + Drop,
    requires { (made : _) → (service : _) → T.can_make made service }
{
    match copy {
        Ok(copy) => both(
            lent_and_counted(rt, transform, asked),
            lent_and_shared(rt, copy, asked),
        ),
        Err(_) => Err(AllocError),
    }
}

/// Whether a transform and its copy show what they have to each way once it is built.
pub(crate) fn built_wraps<T>(
    rt: &HostRuntime,
    transform: Result<T, AllocError>,
    asked: &Asked<u32, u32, Fault, T::InitError>,
) -> Result<bool, AllocError>
where
    T: Transform<
        Serving,
        u32,
        Response = u32,
        Error = Fault,
        Transform: Drop,
        InitError: NoMemory + PartialEq,
    >
        + Clone
        + Drop,
    requires { (made : _) → (service : _) → T.can_make made service }
{
    match transform {
        Ok(transform) => {
            let copy: Result<_, _> = transform.clone();
            wrap_each_way(rt, transform, copy, asked)
        }
        Err(_) => Err(AllocError),
    }
}

/// Whether a transform whose own errors are changed, and a copy of it, show what they have to each way.
pub(crate) fn blamed(
    rt: &HostRuntime,
    transform: Asking,
    asked: &Asked<u32, u32, Fault, Denial>,
) -> Result<bool, AllocError> {
    built_wraps(
        rt,
        TransformExt::<Serving, u32>::map_init_err(transform, rt.alloc(), blame),
        asked,
    )
}
