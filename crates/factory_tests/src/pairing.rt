//! Pairs of factories, whatever the parts.

use crate::asking::built_shows;
use crate::making::Asked;
use crate::words::{Denial, Fault, Settings};
use service_combine::{PipelineFactory, ServiceFactoryExt, pipeline_factory};
use service_core::ServiceFactory;
use std::alloc::{AllocError, AllocGlobal};

/// What is asked of services that answer a number with another.
pub(crate) type AskedNumber = Asked<u32, u32, Fault, Denial>;

/// Whether a factory of two parts shows what it has to.
pub(crate) fn paired<A, B>(
    rt: &HostRuntime,
    first: A,
    second: B,
    cfg: &Settings,
    asked: &AskedNumber,
) -> Result<bool, AllocError>
where
    A: ServiceFactory<
        u32,
        Config = Settings,
        Response = u32,
        Error = Fault,
        Service: Drop,
        InitError = Denial,
    >
        + Drop,
    B: ServiceFactory<
        u32,
        Config = Settings,
        Response = u32,
        Error = Fault,
        Service: Drop,
        InitError = Denial,
    >
        + Drop,
    requires first { (made : _) → A.can_make made }
    requires second { (made : _) → B.can_make made }
{
    let both = first.and_then(rt.alloc(), second);
    built_shows(rt, both, cfg, asked)
}

/// Whether a pipeline of two parts shows what it has to.
pub(crate) fn chained<A, B>(
    rt: &HostRuntime,
    first: A,
    second: B,
    cfg: &Settings,
    asked: &AskedNumber,
) -> Result<bool, AllocError>
where
    A: ServiceFactory<
        u32,
        Config = Settings,
        Response = u32,
        Error = Fault,
        Service: Drop,
        InitError = Denial,
    >
        + Drop,
    B: ServiceFactory<
        u32,
        Config = Settings,
        Response = u32,
        Error = Fault,
        Service: Drop,
        InitError = Denial,
    >
        + Drop,
    requires first { (made : _) → A.can_make made }
    requires second { (made : _) → B.can_make made }
{
    let chain: PipelineFactory<A, u32> = pipeline_factory(first);
    let both = chain.and_then(rt.alloc(), second);
    built_shows(rt, both, cfg, asked)
}

/// Whether a pipeline whose second part gets each result shows what it has to.
pub(crate) fn handed<A, B>(
    rt: &HostRuntime,
    first: A,
    second: B,
    cfg: &Settings,
    asked: &AskedNumber,
) -> Result<bool, AllocError>
where
    A: ServiceFactory<
        u32,
        Config = Settings,
        Response = u32,
        Error = Fault,
        Service: Drop,
        InitError = Denial,
    >
        + Drop,
    B: ServiceFactory<
        Result<u32, Fault>,
        Config = Settings,
        Response = u32,
        Error = Fault,
        Service: Drop,
        InitError = Denial,
    >
        + Drop,
    requires first { (made : _) → A.can_make made }
    requires second { (made : _) → B.can_make made }
{
    let chain: PipelineFactory<A, u32> = pipeline_factory(first);
    let both = chain.then(rt.alloc(), second);
    built_shows(rt, both, cfg, asked)
}
