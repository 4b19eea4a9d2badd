//! Services that are built of any parts, and asked.
ghost use Rattle.std.specs.Prelude.{IfOk};

use crate::questions::{Question, built_holds};
use service_combine::{ServiceExt, pipeline};
use service_core::{NoMemory, Service};
use std::alloc::AllocError;

/// Whether a service answers so whose responses are changed.
pub(crate) fn mapped<S, F, Req, R>(
    rt: &HostRuntime,
    service: S,
    f: F,
    questions: &[Question<Req, R, S::Error>],
) -> Result<bool, AllocError>
where
    S: Service<Req, Error: PartialEq + NoMemory> + Drop,
    F: Fn(S::Response) -> R + Drop,
    Req: Copy,
    R: PartialEq + Drop,
    requires service { S.can_call service }
    requires f { F.IsAlwaysCallable f }
{
    built_holds(rt, service.map(rt.alloc(), f), questions)
}

/// Whether a service answers so whose errors are changed.
pub(crate) fn renamed<S, F, Req, E>(
    rt: &HostRuntime,
    service: S,
    f: F,
    questions: &[Question<Req, S::Response, E>],
) -> Result<bool, AllocError>
where
    S: Service<Req, Response: PartialEq + Drop> + Drop,
    F: Fn(S::Error) -> E + Drop,
    Req: Copy,
    E: PartialEq + NoMemory,
    requires service { S.can_call service }
    requires f { F.IsAlwaysCallable f }
{
    built_holds(rt, service.map_err(rt.alloc(), f), questions)
}

/// Whether a service answers so whose errors are changed once it is built.
pub(crate) fn built_renamed<S, F, Req, E>(
    rt: &HostRuntime,
    service: Result<S, AllocError>,
    f: F,
    questions: &[Question<Req, S::Response, E>],
) -> Result<bool, AllocError>
where
    S: Service<Req, Response: PartialEq + Drop> + Drop,
    F: Fn(S::Error) -> E + Drop,
    Req: Copy,
    E: PartialEq + NoMemory,
    requires service { IfOk service S.can_call }
    requires f { F.IsAlwaysCallable f }
{
    renamed(rt, service?, f, questions)
}

/// Whether two services answer so, one behind the other.
pub(crate) fn chained<A, B, Req>(
    rt: &HostRuntime,
    first: A,
    second: B,
    questions: &[Question<Req, B::Response, A::Error>],
) -> Result<bool, AllocError>
where
    A: Service<Req, Error: PartialEq + NoMemory> + Drop,
    B: Service<A::Response, Response: PartialEq + Drop, Error = A::Error> + Drop,
    Req: Copy,
    requires first { A.can_call first }
    requires second { B.can_call second }
{
    built_holds(rt, first.and_then(rt.alloc(), second), questions)
}

/// Whether two services answer so, one behind the other, once both are built.
fn built_chained<A, B, Req>(
    rt: &HostRuntime,
    first: Result<A, AllocError>,
    second: Result<B, AllocError>,
    questions: &[Question<Req, B::Response, A::Error>],
) -> Result<bool, AllocError>
where
    A: Service<Req, Error: PartialEq + NoMemory> + Drop,
    B: Service<A::Response, Response: PartialEq + Drop, Error = A::Error> + Drop,
    Req: Copy,
    requires first { IfOk first A.can_call }
    requires second { IfOk second B.can_call }
{
    chained(rt, first?, second?, questions)
}

/// Whether three services answer so, bracketed to the left.
pub(crate) fn to_the_left<A, B, C, Req>(
    rt: &HostRuntime,
    first: A,
    second: B,
    third: C,
    questions: &[Question<Req, C::Response, A::Error>],
) -> Result<bool, AllocError>
where
    A: Service<Req, Error: PartialEq + NoMemory> + Drop,
    B: Service<A::Response, Error = A::Error> + Drop,
    C: Service<B::Response, Response: PartialEq + Drop, Error = A::Error> + Drop,
    Req: Copy,
    requires first { A.can_call first }
    requires second { B.can_call second }
    requires third { C.can_call third }
{
    built_chained(rt, first.and_then(rt.alloc(), second), Ok(third), questions)
}

/// Whether three services answer so, bracketed to the right.
pub(crate) fn to_the_right<A, B, C, Req>(
    rt: &HostRuntime,
    first: A,
    second: B,
    third: C,
    questions: &[Question<Req, C::Response, A::Error>],
) -> Result<bool, AllocError>
where
    A: Service<Req, Response: Drop, Error: PartialEq + NoMemory> + Drop,
    B: Service<A::Response, Error = A::Error> + Drop,
    C: Service<B::Response, Response: PartialEq + Drop, Error = A::Error> + Drop,
    Req: Copy,
    requires first { A.can_call first }
    requires second { B.can_call second }
    requires third { C.can_call third }
{
    built_chained(rt, Ok(first), second.and_then(rt.alloc(), third), questions)
}

/// Whether two services answer so, each result of the first handed to the second.
pub(crate) fn handed<A, B, Req>(
    rt: &HostRuntime,
    first: A,
    second: B,
    questions: &[Question<Req, B::Response, A::Error>],
) -> Result<bool, AllocError>
where
    A: Service<Req, Response: Drop, Error: PartialEq + NoMemory> + Drop,
    B: Service<Result<A::Response, A::Error>, Response: PartialEq + Drop, Error = A::Error> + Drop,
    Req: Copy,
    requires first { A.can_call first }
    requires second { B.can_call second }
{
    built_holds(rt, pipeline(first).then(rt.alloc(), second), questions)
}
