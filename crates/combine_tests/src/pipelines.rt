//! Pipelines that are built of any parts, and asked.
use crate::questions::{Question, built_holds};
use service_combine::pipeline;
use service_core::{NoMemory, Service};
use std::alloc::AllocError;

/// Whether a pipeline of two services answers so, one behind the other.
pub(crate) fn chained<A, B, Req>(
    rt: &HostRuntime,
    first: A,
    second: B,
    questions: &[Question<Req, B::Response, A::Error>],
) -> Result<bool, AllocError>
where
    A: Service<Req, Error: PartialEq + NoMemory> + Drop,
    B: Service<A::Response, Response: PartialEq + Drop, Error = A::Error> + Drop,
    Req: Copy,
    requires first { A.can_call first }
    requires second { B.can_call second }
{
    built_holds(rt, pipeline(first).and_then(rt.alloc(), second), questions)
}
