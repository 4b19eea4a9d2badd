//! Copies of services that are built of any parts, and asked.
use crate::questions::{Question, built_holds};
use service_combine::{ServiceExt, pipeline};
use service_core::{NoMemory, Service};
use std::alloc::AllocError;

/// Whether a copy of a service answers so once the original is gone.
pub(crate) fn copied<S, Req>(
    rt: &HostRuntime,
    service: Result<S, AllocError>,
    questions: &[Question<Req, S::Response, S::Error>],
) -> Result<bool, AllocError>
where
    S: Service<Req, Response: PartialEq + Drop, Error: PartialEq + NoMemory> + Clone + Drop,
    Req: Copy,
    requires { (made : _) → S.can_call made }
{
    let service = service?;
    let copy: Result<_, _> = service.clone();
    drop(service);
    built_holds(rt, copy, questions)
}

/// Whether a copy of a pipeline answers so that has begun with a service.
pub(crate) fn begun<S, Req>(
    rt: &HostRuntime,
    service: S,
    questions: &[Question<Req, S::Response, S::Error>],
) -> Result<bool, AllocError>
where
    S: Service<Req, Response: PartialEq + Drop, Error: PartialEq + NoMemory> + Clone + Drop,
    Req: Copy,
    requires { (made : _) → S.can_call made }
{
    copied(rt, Ok(pipeline(service)), questions)
}

/// Whether a copy of two services answers so, one behind the other, once the original is gone.
pub(crate) fn chained<A, B, Req>(
    rt: &HostRuntime,
    first: A,
    second: B,
    questions: &[Question<Req, B::Response, A::Error>],
) -> Result<bool, AllocError>
where
    A: Service<Req, Error: PartialEq + NoMemory> + Drop,
    B: Service<A::Response, Response: PartialEq + Drop, Error = A::Error> + Drop,
    Req: Copy,
    requires first { (made : _) → A.can_call made }
    requires second { (made : _) → B.can_call made }
{
    copied(rt, first.and_then(rt.alloc(), second), questions)
}

/// Whether a copy of two services answers so, each result of the first handed to the second, once the original is gone.
pub(crate) fn handed<A, B, Req>(
    rt: &HostRuntime,
    first: A,
    second: B,
    questions: &[Question<Req, B::Response, A::Error>],
) -> Result<bool, AllocError>
where
    A: Service<Req, Response: Drop, Error: PartialEq + NoMemory> + Drop,
    B: Service<Result<A::Response, A::Error>, Response: PartialEq + Drop, Error = A::Error> + Drop,
    Req: Copy,
    requires first { (made : _) → A.can_call made }
    requires second { (made : _) → B.can_call made }
{
    copied(rt, pipeline(first).then(rt.alloc(), second), questions)
}
