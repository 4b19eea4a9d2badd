ghost use Rattle.std.specs.Prelude.{◌≡◌, IfOk};
ghost use Rattle.service_combine.specs.Same.{MeansSame};
ghost use Rattle.service_combine.specs.Shown.{and_then_first, and_then_second, map_closure, map_err_closure, map_err_part, map_part};
ghost use Rattle.service_combine.specs.Shown.{pipeline_part, then_first, then_second};

use crate::sharing::shared;
use crate::{AndThenService, Map, MapErr, ServiceExt, ThenService};
use futures::task::{Context, Poll};
use service_core::{IntoService, Service};
use std::alloc::{AllocError, Global};
use std::marker::PhantomData;

/// A service to which others are added one by one (`actix_service::Pipeline`). It is that service.
#[derive(Drop)]
pub struct Pipeline<S, Req> {
    pub(crate) service: S,
    pub(crate) request: PhantomData<Req>,
}

impl<S, Req> Pipeline<S, Req>
where
    S: Service<Req> + Drop,
{
    /// Hands each Ok response to a second service.
    pub fn and_then<I, S1>(
        self,
        alloc: Global,
        service: I,
    ) -> Result<Pipeline<AndThenService<S, S1, Req>, Req>, AllocError>
    where
        I: IntoService<S1, S::Response>,
        S1: Service<S::Response, Error = S::Error> + Drop,
        ensures { IfOk result (λ p. (and_then_first (pipeline_part p) ≡ pipeline_part self)
            × I.turns_into service (and_then_second (pipeline_part p))) }
    {
        let Pipeline {
            service: first,
            request: _,
        } = self;
        match first.and_then(alloc, service) {
            Ok(service) => Ok(Pipeline {
                service,
                request: PhantomData,
            }),
            Err(e) => Err(e),
        }
    }

    /// Hands each result, Ok or not, to a second service.
    pub fn then<F, S1>(
        self,
        alloc: Global,
        service: F,
    ) -> Result<Pipeline<ThenService<S, S1, Req>, Req>, AllocError>
    where
        F: IntoService<S1, Result<S::Response, S::Error>>,
        S1: Service<Result<S::Response, S::Error>, Error = S::Error> + Drop,
        ensures { IfOk result (λ p. (then_first (pipeline_part p) ≡ pipeline_part self)
            × F.turns_into service (then_second (pipeline_part p))) }
    {
        let Pipeline {
            service: first,
            request: _,
        } = self;
        match shared(alloc, (first, service.into_service())) {
            Ok(parts) => Ok(Pipeline {
                service: ThenService {
                    parts,
                    request: PhantomData,
                },
                request: PhantomData,
            }),
            Err(e) => Err(e),
        }
    }

    /// Changes the Ok responses by a closure.
    pub fn map<F, R>(
        self,
        alloc: Global,
        f: F,
    ) -> Result<Pipeline<Map<S, F, Req, R>, Req>, AllocError>
    where
        F: Fn(S::Response) -> R + Drop,
        ensures { IfOk result (λ p. (map_part (pipeline_part p) ≡ pipeline_part self) × (map_closure (pipeline_part p) ≡ f)) }
    {
        let Pipeline {
            service: first,
            request: _,
        } = self;
        match first.map(alloc, f) {
            Ok(service) => Ok(Pipeline {
                service,
                request: PhantomData,
            }),
            Err(e) => Err(e),
        }
    }

    /// Changes the errors of calls and of readiness by a closure.
    pub fn map_err<F, E>(
        self,
        alloc: Global,
        f: F,
    ) -> Result<Pipeline<MapErr<S, Req, F, E>, Req>, AllocError>
    where
        F: Fn(S::Error) -> E + Drop,
        ensures { IfOk result (λ p. (map_err_part (pipeline_part p) ≡ pipeline_part self) × (map_err_closure (pipeline_part p) ≡ f)) }
    {
        let Pipeline {
            service: first,
            request: _,
        } = self;
        match first.map_err(alloc, f) {
            Ok(service) => Ok(Pipeline {
                service,
                request: PhantomData,
            }),
            Err(e) => Err(e),
        }
    }
}

impl<S: Clone, Req> Clone for Pipeline<S, Req> {
    ghost is_clone = { λ p copy. S.is_clone (pipeline_part p) (pipeline_part copy) };

    fn clone(&self) -> Result<Pipeline<S, Req>, AllocError> {
        match self.service.clone() {
            Ok(service) => Ok(Pipeline {
                service,
                request: PhantomData,
            }),
            Err(e) => Err(e),
        }
    }
}

impl<S, Req> Pipeline<S, Req>
where
    S: Service<Req> + Clone,
{
    /// A copy. It means what this service means, where a clone of the part means what the part means.
    pub fn clone(&self) -> Result<Pipeline<S, Req>, AllocError>
        ensures clone { IfOk result (⟦<Pipeline<S, Req> as Clone>⟧.is_clone self.now) }
        ensures meaning { IfOk result (λ copy. MeansSame S.Service (pipeline_part self.now) (pipeline_part copy)
            → MeansSame ⟦<Pipeline<S, Req> as Service<Req>>⟧ self.now copy) }
    {
        Clone::clone(self)
    }
}

impl<S: Service<Req>, Req> Service<Req> for Pipeline<S, Req> {
    type Response = S::Response;

    type Error = S::Error;

    type Future = S::Future;

    ghost can_call = { λ p. S.can_call (pipeline_part p) };

    ghost may = { λ p. S.may (pipeline_part p) };

    ghost may_ready = { λ p. S.may_ready (pipeline_part p) };

    ghost may_begin = { λ p. S.may_begin (pipeline_part p) };

    ghost begun_gives = { λ p. S.begun_gives (pipeline_part p) };

    fn poll_ready(&self, cx: &mut Context<'_>) -> Poll<Result<(), S::Error>> {
        self.service.poll_ready(cx)
    }

    fn call(&self, req: Req) -> S::Future {
        self.service.call(req)
    }
}
