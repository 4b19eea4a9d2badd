ghost use Rattle.std.specs.Prelude.{◌≡◌, IfOk};
ghost use Rattle.service_combine.specs.Same.{MakesSame};
ghost use Rattle.service_combine.specs.Shown.{and_then_first_factory, and_then_second_factory, map_err_factory, map_err_factory_closure};
ghost use Rattle.service_combine.specs.Shown.{map_factory, map_factory_closure, map_init_err_closure, map_init_err_factory};
ghost use Rattle.service_combine.specs.Shown.{pipeline_factory_part, then_first_factory, then_second_factory};

use crate::sharing::shared;
use crate::{
    AndThenServiceFactory, MapErrServiceFactory, MapInitErr, MapServiceFactory, ServiceFactoryExt,
    ThenServiceFactory,
};
use service_core::{IntoServiceFactory, ServiceFactory};
use std::alloc::{AllocError, Global};
use std::marker::PhantomData;

/// A factory to which others are added one by one (`actix_service::PipelineFactory`). It is that factory.
#[derive(Drop)]
pub struct PipelineFactory<SF, Req> {
    pub(crate) factory: SF,
    pub(crate) request: PhantomData<Req>,
}

impl<SF, Req> PipelineFactory<SF, Req>
where
    SF: ServiceFactory<Req> + Drop,
{
    /// Hands each Ok response to a service of a second factory. The first factory gets a clone of the configuration.
    pub fn and_then<I, SF1>(
        self,
        alloc: Global,
        factory: I,
    ) -> Result<PipelineFactory<AndThenServiceFactory<SF, SF1, Req>, Req>, AllocError>
    where
        I: IntoServiceFactory<SF1, SF::Response>,
        SF1: ServiceFactory<
            SF::Response,
            Config = SF::Config,
            Error = SF::Error,
            InitError = SF::InitError,
        >
            + Drop,
        ensures { IfOk result (λ p. (and_then_first_factory (pipeline_factory_part p) ≡ pipeline_factory_part self)
            × I.turns_into factory (and_then_second_factory (pipeline_factory_part p))) }
    {
        let PipelineFactory {
            factory: first,
            request: _,
        } = self;
        match first.and_then(alloc, factory) {
            Ok(factory) => Ok(PipelineFactory {
                factory,
                request: PhantomData,
            }),
            Err(e) => Err(e),
        }
    }

    /// Hands each result, Ok or not, to a service of a second factory. The first factory gets a clone of the configuration.
    pub fn then<I, SF1>(
        self,
        alloc: Global,
        factory: I,
    ) -> Result<PipelineFactory<ThenServiceFactory<SF, SF1, Req>, Req>, AllocError>
    where
        I: IntoServiceFactory<SF1, Result<SF::Response, SF::Error>>,
        SF1: ServiceFactory<
            Result<SF::Response, SF::Error>,
            Config = SF::Config,
            Error = SF::Error,
            InitError = SF::InitError,
        >
            + Drop,
        ensures { IfOk result (λ p. (then_first_factory (pipeline_factory_part p) ≡ pipeline_factory_part self)
            × I.turns_into factory (then_second_factory (pipeline_factory_part p))) }
    {
        let PipelineFactory {
            factory: first,
            request: _,
        } = self;
        match shared(alloc, (first, factory.into_factory())) {
            Ok(parts) => Ok(PipelineFactory {
                factory: ThenServiceFactory {
                    parts,
                    alloc,
                    request: PhantomData,
                },
                request: PhantomData,
            }),
            Err(e) => Err(e),
        }
    }

    /// Changes the Ok responses of the services by a closure.
    pub fn map<F, R>(
        self,
        alloc: Global,
        f: F,
    ) -> Result<PipelineFactory<MapServiceFactory<SF, F, Req, R>, Req>, AllocError>
    where
        F: Fn(SF::Response) -> R + Drop,
        ensures { IfOk result (λ p. (map_factory (pipeline_factory_part p) ≡ pipeline_factory_part self)
            × (map_factory_closure (pipeline_factory_part p) ≡ f)) }
    {
        let PipelineFactory {
            factory: first,
            request: _,
        } = self;
        match first.map(alloc, f) {
            Ok(factory) => Ok(PipelineFactory {
                factory,
                request: PhantomData,
            }),
            Err(e) => Err(e),
        }
    }

    /// Changes the errors of the services' calls and of their readiness by a closure.
    pub fn map_err<F, E>(
        self,
        alloc: Global,
        f: F,
    ) -> Result<PipelineFactory<MapErrServiceFactory<SF, Req, F, E>, Req>, AllocError>
    where
        F: Fn(SF::Error) -> E + Drop,
        ensures { IfOk result (λ p. (map_err_factory (pipeline_factory_part p) ≡ pipeline_factory_part self)
            × (map_err_factory_closure (pipeline_factory_part p) ≡ f)) }
    {
        let PipelineFactory {
            factory: first,
            request: _,
        } = self;
        match first.map_err(alloc, f) {
            Ok(factory) => Ok(PipelineFactory {
                factory,
                request: PhantomData,
            }),
            Err(e) => Err(e),
        }
    }

    /// Changes what comes in place of a service by a closure.
    pub fn map_init_err<F, E>(
        self,
        alloc: Global,
        f: F,
    ) -> Result<PipelineFactory<MapInitErr<SF, F, Req, E>, Req>, AllocError>
    where
        F: Fn(SF::InitError) -> E + Drop,
        ensures { IfOk result (λ p. (map_init_err_factory (pipeline_factory_part p) ≡ pipeline_factory_part self)
            × (map_init_err_closure (pipeline_factory_part p) ≡ f)) }
    {
        let PipelineFactory {
            factory: first,
            request: _,
        } = self;
        match first.map_init_err(alloc, f) {
            Ok(factory) => Ok(PipelineFactory {
                factory,
                request: PhantomData,
            }),
            Err(e) => Err(e),
        }
    }
}

impl<SF: Clone, Req> Clone for PipelineFactory<SF, Req> {
    ghost is_clone = { λ p copy. SF.is_clone (pipeline_factory_part p) (pipeline_factory_part copy) };

    fn clone(&self) -> Result<PipelineFactory<SF, Req>, AllocError> {
        match self.factory.clone() {
            Ok(factory) => Ok(PipelineFactory {
                factory,
                request: PhantomData,
            }),
            Err(e) => Err(e),
        }
    }
}

impl<SF, Req> PipelineFactory<SF, Req>
where
    SF: ServiceFactory<Req> + Clone,
{
    /// A copy. It makes what this factory makes, where a clone of the part makes what the part makes.
    pub fn clone(&self) -> Result<PipelineFactory<SF, Req>, AllocError>
        ensures clone { IfOk result (⟦<PipelineFactory<SF, Req> as Clone>⟧.is_clone self.now) }
        ensures meaning { IfOk result (λ copy. MakesSame SF.ServiceFactory (pipeline_factory_part self.now) (pipeline_factory_part copy)
            → MakesSame ⟦<PipelineFactory<SF, Req> as ServiceFactory<Req>>⟧ self.now copy) }
    {
        Clone::clone(self)
    }
}

impl<SF: ServiceFactory<Req>, Req> ServiceFactory<Req> for PipelineFactory<SF, Req> {
    type Response = SF::Response;

    type Error = SF::Error;

    type Config = SF::Config;

    type Service = SF::Service;

    type InitError = SF::InitError;

    type Future = SF::Future;

    ghost can_make = { λ p. SF.can_make (pipeline_factory_part p) };

    ghost may = { λ p. SF.may (pipeline_factory_part p) };

    ghost may_ready = { λ p. SF.may_ready (pipeline_factory_part p) };

    ghost may_begin = { λ p. SF.may_begin (pipeline_factory_part p) };

    ghost may_init = { λ p. SF.may_init (pipeline_factory_part p) };

    ghost may_make = { λ p. SF.may_make (pipeline_factory_part p) };

    ghost begun_gives = { λ p. SF.begun_gives (pipeline_factory_part p) };

    fn new_service(&self, cfg: SF::Config) -> SF::Future {
        self.factory.new_service(cfg)
    }
}
