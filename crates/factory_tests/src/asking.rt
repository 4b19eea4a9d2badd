//! What factories are asked, whatever they make.

use crate::making::{Asked, both, making_shows, task};
use crate::words::Settings;
use service_core::{NoMemory, ServiceFactory};
use std::alloc::{AllocError, AllocGlobal};
use std::rc::Rc;
use std::sync::Arc;

/// Whether a factory shows what it has to.
pub(crate) fn shows<F, Req>(
    rt: &HostRuntime,
    factory: &F,
    cfg: F::Config,
    asked: &Asked<Req, F::Response, F::Error, F::InitError>,
) -> Result<bool, AllocError>
where
    Req: Copy + Drop,
    F: ServiceFactory<
        Req,
        Config: Drop,
        Response: PartialEq + Drop,
        Error: NoMemory + PartialEq,
        Service: Drop,
        InitError: NoMemory + PartialEq,
    >,
    requires { F.can_make factory.now }
{
    let task = task(rt)?;
    let mut making = factory.new_service(cfg);
    making_shows(&task, &mut making, asked)
}

/// Whether a factory shows what it has to where it is lent, and where it is shared by `Rc`.
fn lent_and_counted<F>(
    rt: &HostRuntime,
    factory: F,
    cfg: &Settings,
    asked: &Asked<u32, F::Response, F::Error, F::InitError>,
) -> Result<bool, AllocError>
where
    F: ServiceFactory<
        u32,
        Config = Settings,
        Response: PartialEq + Drop,
        Error: NoMemory + PartialEq,
        Service: Drop,
        InitError: NoMemory + PartialEq,
    >
        + Drop,
    requires { F.can_make factory }
{
    let lent = shows(rt, &factory, cfg.again(), asked);
    match Rc::new(rt.alloc(), factory) {
        Ok(counted) => both(lent, shows(rt, &counted, cfg.again(), asked)),
        Err(_) => Err(AllocError),
    }
}

/// Whether a factory shows what it has to where it is lent, and where it is shared by `Arc`.
fn lent_and_shared<F>(
    rt: &HostRuntime,
    factory: F,
    cfg: &Settings,
    asked: &Asked<u32, F::Response, F::Error, F::InitError>,
) -> Result<bool, AllocError>
where
    F: ServiceFactory<
        u32,
        Config = Settings,
        Response: PartialEq + Drop,
        Error: NoMemory + PartialEq,
        Service: Drop,
        InitError: NoMemory + PartialEq,
    >
        + Drop,
    requires { F.can_make factory }
{
    let lent = shows(rt, &factory, cfg.again(), asked);
    match Arc::new(rt.alloc(), factory) {
        Ok(shared) => both(lent, shows(rt, &shared, cfg.again(), asked)),
        Err(_) => Err(AllocError),
    }
}

/// Whether a factory and its copy show what they have to each way.
fn show_each_way<F>(
    rt: &HostRuntime,
    factory: F,
    copy: Result<F, AllocError>,
    cfg: &Settings,
    asked: &Asked<u32, F::Response, F::Error, F::InitError>,
) -> Result<bool, AllocError>
where
    F: ServiceFactory<
        u32,
        Config = Settings,
        Response: PartialEq + Drop,
        Error: NoMemory + PartialEq,
        Service: Drop,
        InitError: NoMemory + PartialEq,
    >
        + Drop,
    requires factory { (made : _) → F.can_make made }
{
    match copy {
        Ok(copy) => both(
            lent_and_counted(rt, factory, cfg, asked),
            lent_and_shared(rt, copy, cfg, asked),
        ),
        Err(_) => Err(AllocError),
    }
}

/// Whether a factory shows what it has to once it is built. A service has to answer so each way: where the factory and
/// where a copy of it are lent, and where they are shared.
pub(crate) fn built_shows<F>(
    rt: &HostRuntime,
    factory: Result<F, AllocError>,
    cfg: &Settings,
    asked: &Asked<u32, F::Response, F::Error, F::InitError>,
) -> Result<bool, AllocError>
where
    F: ServiceFactory<
        u32,
        Config = Settings,
        Response: PartialEq + Drop,
        Error: NoMemory + PartialEq,
        Service: Drop,
        InitError: NoMemory + PartialEq,
    >
        + Clone
        + Drop,
    requires factory { (made : _) → F.can_make made }
{
    match factory {
        Ok(factory) if asked.is_of_each_way() => {
            let copy: Result<_, _> = factory.clone();
            show_each_way(rt, factory, copy, cfg, asked)
        }
        Ok(factory) => shows(rt, &factory, cfg.again(), asked),
        Err(_) => Err(AllocError),
    }
}
