//! Factories of closures and of configurations.

use crate::asking::built_shows;
use crate::makers::{Maker, Makes};
use crate::naming::{added, four, halved, quartered, told};
use crate::pairing::AskedNumber;
use crate::services::{Serving, echo, service_of};
use crate::words::{Denial, Fault, Settings};
use service_combine::{
    ApplyConfigService, ApplyConfigServiceFactory, ApplyFactory, FnServiceConfig,
    FnServiceNoConfig, MapConfig, UnitConfig, apply_cfg, apply_cfg_factory, apply_fn_factory,
    fn_factory, fn_factory_with_config, map_config, unit_config,
};
use std::alloc::{AllocError, AllocGlobal};

/// Whether a factory of a closure whose services tell the step of the settings shows what it has to.
pub(crate) fn tells(
    rt: &HostRuntime,
    cfg: &Settings,
    asked: &AskedNumber,
) -> Result<bool, AllocError> {
    let made: Result<FnServiceConfig<_, _, Settings, Serving, u32, Denial>, _> =
        fn_factory_with_config(rt.alloc(), told);
    built_shows(rt, made, cfg, asked)
}

/// Whether a factory of a closure that takes nothing, whose services tell one digit, shows what it has to.
pub(crate) fn says(
    rt: &HostRuntime,
    cfg: &Settings,
    asked: &AskedNumber,
) -> Result<bool, AllocError> {
    let made: Result<FnServiceNoConfig<_, Settings, Serving, u32, _, Denial>, _> = fn_factory(
        rt.alloc(),
        four,
    );
    built_shows(rt, made, cfg, asked)
}

/// Whether a factory of services that are lent to a closure, which asks for the result of a quarter, shows what it has to.
pub(crate) fn quarters(
    rt: &HostRuntime,
    factory: Maker,
    cfg: &Settings,
    asked: &AskedNumber,
) -> Result<bool, AllocError> {
    let applied: Result<ApplyFactory<Maker, _, u32, Result<u32, Fault>, u32, Fault>, _> =
        apply_fn_factory(rt.alloc(), factory, quartered);
    built_shows(rt, applied, cfg, asked)
}

/// Whether a factory of a service that is lent, which gives one that adds, shows what it has to.
pub(crate) fn adds(
    rt: &HostRuntime,
    cfg: &Settings,
    asked: &AskedNumber,
) -> Result<bool, AllocError> {
    let lent: Result<ApplyConfigService<Serving, u32, _, Settings, _, Serving, Denial>, _> =
        apply_cfg(rt.alloc(), service_of(echo()), added);
    built_shows(rt, lent, cfg, asked)
}

/// Whether a factory of ready services that are lent, which gives one that adds, shows what it has to.
pub(crate) fn adds_once_ready(
    rt: &HostRuntime,
    factory: Makes<()>,
    cfg: &Settings,
    asked: &AskedNumber,
) -> Result<bool, AllocError> {
    let awaited: Result<ApplyConfigServiceFactory<Makes<()>, u32, _, Settings, _, Serving>, _> =
        apply_cfg_factory(rt.alloc(), factory, added);
    built_shows(rt, awaited, cfg, asked)
}

/// Whether a factory whose settings are halved shows what it has to.
pub(crate) fn tells_half(
    rt: &HostRuntime,
    factory: Maker,
    cfg: &Settings,
    asked: &AskedNumber,
) -> Result<bool, AllocError> {
    let converted: Result<MapConfig<Maker, u32, _, Settings>, _> = map_config(
        rt.alloc(),
        factory,
        halved,
    );
    built_shows(rt, converted, cfg, asked)
}

/// Whether a factory for every configuration shows what it has to.
pub(crate) fn frees(
    rt: &HostRuntime,
    factory: Makes<()>,
    cfg: &Settings,
    asked: &AskedNumber,
) -> Result<bool, AllocError> {
    let freed: UnitConfig<Makes<()>, Settings, u32> = unit_config(factory);
    built_shows(rt, Ok(freed), cfg, asked)
}
