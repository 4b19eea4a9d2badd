//! Factories and pipelines that change what their parts make.

use crate::asking::built_shows;
use crate::makers::Maker;
use crate::making::Asked;
use crate::naming::{excuse, failure, half_ok, one_more};
use crate::words::{Denial, Failure, Fault, Settings, stepping};
use service_combine::{PipelineFactory, ServiceFactoryExt, pipeline_factory};
use service_core::ServiceFactory;
use std::alloc::{AllocError, AllocGlobal};

/// What is asked where each response is half of a number, and a text.
pub(crate) type AskedHalf = Asked<u32, (u32, &'static str), Fault, Denial>;

/// What is asked where the services' errors are changed.
pub(crate) type AskedFailing = Asked<u32, u32, Failure, Denial>;

/// What is asked where what comes in place of a service is changed.
pub(crate) type AskedExcused = Asked<u32, u32, Fault, Failure>;

/// Whether a factory whose responses are halved shows what it has to.
pub(crate) fn halves(
    rt: &HostRuntime,
    factory: Maker,
    cfg: &Settings,
    asked: &AskedHalf,
) -> Result<bool, AllocError> {
    let halves = ServiceFactoryExt::<u32>::map(factory, rt.alloc(), half_ok);
    built_shows(rt, halves, cfg, asked)
}

/// Whether a factory whose services' errors are changed shows what it has to.
pub(crate) fn renames(
    rt: &HostRuntime,
    factory: Maker,
    cfg: &Settings,
    asked: &AskedFailing,
) -> Result<bool, AllocError> {
    let renames = ServiceFactoryExt::<u32>::map_err(factory, rt.alloc(), failure);
    built_shows(rt, renames, cfg, asked)
}

/// Whether a factory whose own errors are changed shows what it has to.
pub(crate) fn excuses(
    rt: &HostRuntime,
    factory: Maker,
    cfg: &Settings,
    asked: &AskedExcused,
) -> Result<bool, AllocError> {
    let excuses = ServiceFactoryExt::<u32>::map_init_err(factory, rt.alloc(), excuse);
    built_shows(rt, excuses, cfg, asked)
}

/// A pipeline of one part.
pub(crate) fn pipeline(factory: Maker) -> PipelineFactory<Maker, u32> {
    pipeline_factory(factory)
}

/// Whether a pipeline whose responses are halved shows what it has to.
pub(crate) fn pipeline_halves(
    rt: &HostRuntime,
    factory: Maker,
    asked: &AskedHalf,
) -> Result<bool, AllocError> {
    let halves = pipeline(factory).map(rt.alloc(), half_ok);
    built_shows(rt, halves, &stepping(1), asked)
}

/// Whether a pipeline whose services' errors are changed shows what it has to.
pub(crate) fn pipeline_renames(
    rt: &HostRuntime,
    factory: Maker,
    asked: &AskedFailing,
) -> Result<bool, AllocError> {
    let renames = pipeline(factory).map_err(rt.alloc(), failure);
    built_shows(rt, renames, &stepping(1), asked)
}

/// Whether a pipeline whose own errors are changed shows what it has to.
pub(crate) fn pipeline_excuses<F>(
    rt: &HostRuntime,
    chain: Result<PipelineFactory<F, u32>, AllocError>,
    cfg: &Settings,
    asked: &AskedExcused,
) -> Result<bool, AllocError>
where
    F: ServiceFactory<
        u32,
        Config = Settings,
        Response = u32,
        Error = Fault,
        InitError = Denial,
        Service: Drop,
    >
        + Clone
        + Drop,
    requires factory { (made : _) → F.can_make made }
{
    match chain {
        Ok(chain) => built_shows(rt, chain.map_init_err(rt.alloc(), excuse), cfg, asked),
        Err(_) => Err(AllocError),
    }
}

/// Whether a pipeline shows what it has to with one more for each response, and its errors in the program's own type.
pub(crate) fn pipeline_adds_one<F>(
    rt: &HostRuntime,
    chain: Result<PipelineFactory<F, u32>, AllocError>,
    cfg: &Settings,
    asked: &AskedExcused,
) -> Result<bool, AllocError>
where
    F: ServiceFactory<
        u32,
        Config = Settings,
        Response = u32,
        Error = Fault,
        InitError = Denial,
        Service: Drop,
    >
        + Clone
        + Drop,
    requires factory { (made : _) → F.can_make made }
{
    match chain {
        Ok(chain) => pipeline_excuses(rt, chain.map(rt.alloc(), one_more), cfg, asked),
        Err(_) => Err(AllocError),
    }
}
