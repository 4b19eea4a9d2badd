ghost use Rattle.std.specs.Prelude.{◌≡◌, IfOk};
ghost use Rattle.service_combine.specs.Same.{MakesSame};
ghost use Rattle.service_combine.specs.Shown.{unit_config_part};

use service_core::{IntoServiceFactory, ServiceFactory};
use std::alloc::AllocError;
use std::marker::PhantomData;

/// The factory `factory`, for every configuration (`actix_service::unit_config`).
pub fn unit_config<I, SF, Cfg, Req>(factory: I) -> UnitConfig<SF, Cfg, Req>
where
    I: IntoServiceFactory<SF, Req>,
    SF: ServiceFactory<Req, Config = ()>,
    ensures { I.turns_into factory (unit_config_part result) }
{
    UnitConfig {
        factory: factory.into_factory(),
        types: PhantomData,
    }
}

/// Factory of `unit_config` (`actix_service::UnitConfig`).
#[derive(Drop)]
pub struct UnitConfig<SF, Cfg, Req> {
    pub(crate) factory: SF,
    pub(crate) types: PhantomData<(Cfg, Req)>,
}

impl<SF: Clone, Cfg, Req> Clone for UnitConfig<SF, Cfg, Req> {
    ghost is_clone = { λ u copy. SF.is_clone (unit_config_part u) (unit_config_part copy) };

    fn clone(&self) -> Result<UnitConfig<SF, Cfg, Req>, AllocError> {
        match self.factory.clone() {
            Ok(factory) => Ok(UnitConfig {
                factory,
                types: PhantomData,
            }),
            Err(e) => Err(e),
        }
    }
}

impl<SF, Cfg, Req> UnitConfig<SF, Cfg, Req>
where
    Cfg: Drop,
    SF: ServiceFactory<Req, Config = ()> + Clone,
{
    /// A copy. It makes what this factory makes, where a clone of the part makes what the part makes.
    pub fn clone(&self) -> Result<UnitConfig<SF, Cfg, Req>, AllocError>
        ensures clone { IfOk result (⟦<UnitConfig<SF, Cfg, Req> as Clone>⟧.is_clone self.now) }
        ensures meaning { IfOk result (λ copy. MakesSame SF.ServiceFactory (unit_config_part self.now) (unit_config_part copy)
            → MakesSame ⟦<UnitConfig<SF, Cfg, Req> as ServiceFactory<Req>>⟧ self.now copy) }
    {
        Clone::clone(self)
    }
}

impl<SF, Cfg, Req> ServiceFactory<Req> for UnitConfig<SF, Cfg, Req>
where
    Cfg: Drop,
    SF: ServiceFactory<Req, Config = ()>,
{
    type Response = SF::Response;

    type Error = SF::Error;

    type Config = Cfg;

    type Service = SF::Service;

    type InitError = SF::InitError;

    type Future = SF::Future;

    ghost can_make = { λ u. SF.can_make (unit_config_part u) };

    ghost may = { λ u _. SF.may (unit_config_part u) tt };

    ghost may_ready = { λ u _. SF.may_ready (unit_config_part u) tt };

    ghost may_begin = { λ u _. SF.may_begin (unit_config_part u) tt };

    ghost may_init = { λ u _. SF.may_init (unit_config_part u) tt };

    ghost may_make = { λ u _. SF.may_make (unit_config_part u) tt };

    ghost begun_gives = { λ u _. SF.begun_gives (unit_config_part u) tt };

    fn new_service(&self, _cfg: Cfg) -> SF::Future {
        self.factory.new_service(())
    }
}
