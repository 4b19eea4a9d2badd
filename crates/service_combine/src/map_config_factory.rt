ghost use Rattle.std.specs.Prelude.{◌≡◌, IfOk};
ghost use Rattle.service_core.specs.Meaning.{Follows, Through};
ghost use Rattle.service_combine.specs.Same.{MakesSame};
ghost use Rattle.service_combine.specs.Shown.{map_config_closure, map_config_part};

use crate::copies::copies;
use crate::sharing::shared;
use service_core::{IntoServiceFactory, ServiceFactory};
use std::alloc::{AllocError, Global};
use std::marker::PhantomData;
use std::sync::Arc;

/// The factory `factory`, to which `f(cfg)` is handed in place of the configuration (`actix_service::map_config`).
///
/// `AllocError` comes for want of memory alone.
pub fn map_config<I, SF, Req, F, Cfg>(
    alloc: Global,
    factory: I,
    f: F,
) -> Result<MapConfig<SF, Req, F, Cfg>, AllocError>
where
    I: IntoServiceFactory<SF, Req>,
    SF: ServiceFactory<Req> + Drop,
    F: Fn(Cfg) -> SF::Config + Drop,
    ensures { IfOk result (λ m. I.turns_into factory (map_config_part m) × (map_config_closure m ≡ f)) }
{
    let factory = factory.into_factory();
    match shared(alloc, f) {
        Ok(cfg_mapper) => Ok(MapConfig {
            factory,
            cfg_mapper,
            types: PhantomData,
        }),
        Err(e) => Err(e),
    }
}

/// Factory of `map_config` (`actix_service::MapConfig`).
#[derive(Drop)]
pub struct MapConfig<SF, Req, F, Cfg> {
    pub(crate) factory: SF,
    pub(crate) cfg_mapper: Arc<F>,
    pub(crate) types: PhantomData<(Req, Cfg)>,
}

impl<SF: Clone, Req, F: Drop, Cfg> Clone for MapConfig<SF, Req, F, Cfg> {
    ghost is_clone = { λ m copy. SF.is_clone (map_config_part m) (map_config_part copy)
        × (map_config_closure copy ≡ map_config_closure m) };

    fn clone(&self) -> Result<MapConfig<SF, Req, F, Cfg>, AllocError> {
        match copies(&self.factory, &self.cfg_mapper) {
            Ok((factory, cfg_mapper)) => Ok(MapConfig {
                factory,
                cfg_mapper,
                types: PhantomData,
            }),
            Err(e) => Err(e),
        }
    }
}

impl<SF, Req, F, Cfg> MapConfig<SF, Req, F, Cfg>
where
    SF: ServiceFactory<Req> + Clone,
    F: Fn(Cfg) -> SF::Config + Drop,
{
    /// A copy that shares the closure. It makes what this factory makes, where a clone of the part makes what the part
    /// makes.
    pub fn clone(&self) -> Result<MapConfig<SF, Req, F, Cfg>, AllocError>
        ensures clone { IfOk result (⟦<MapConfig<SF, Req, F, Cfg> as Clone>⟧.is_clone self.now) }
        ensures meaning { IfOk result (λ copy. MakesSame SF.ServiceFactory (map_config_part self.now) (map_config_part copy)
            → MakesSame ⟦<MapConfig<SF, Req, F, Cfg> as ServiceFactory<Req>>⟧ self.now copy) }
    {
        Clone::clone(self)
    }
}

impl<SF, Req, F, Cfg> ServiceFactory<Req> for MapConfig<SF, Req, F, Cfg>
where
    SF: ServiceFactory<Req>,
    F: Fn(Cfg) -> SF::Config + Drop,
{
    type Response = SF::Response;

    type Error = SF::Error;

    type Config = Cfg;

    type Service = SF::Service;

    type InitError = SF::InitError;

    type Future = SF::Future;

    ghost can_make = { λ m. SF.can_make (map_config_part m) × F.IsAlwaysCallable (map_config_closure m) };

    ghost may = { λ m c q. Follows (F.post (map_config_closure m) c) (λ to. SF.may (map_config_part m) to q) };

    ghost may_ready = { λ m c. Follows (F.post (map_config_closure m) c) (SF.may_ready (map_config_part m)) };

    ghost may_begin = { λ m c q. Follows (F.post (map_config_closure m) c) (λ to. SF.may_begin (map_config_part m) to q) };

    ghost may_init = { λ m c. Follows (F.post (map_config_closure m) c) (SF.may_init (map_config_part m)) };

    ghost may_make = { λ m c. Through (F.post (map_config_closure m) c) (SF.may_make (map_config_part m)) };

    ghost begun_gives = { λ m c q f begun.
        let gives = SF.begun_gives (map_config_part m) begun.value q f begun.holds in
        (gives.0, λ r given. record { value = begun.value; comes = begun.comes; holds = gives.1 r given }) };

    fn new_service(&self, cfg: Cfg) -> SF::Future {
        self.factory.new_service((self.cfg_mapper)(cfg))
    }
}
