ghost use Rattle.std.specs.Prelude.{◌≡◌, ◌⊎◌};
ghost use Rattle.service_core.specs.Meaning.{Follows, GivesOnly, Through};
ghost use Rattle.service_combine.specs.Equations.{ThenMakes};
ghost use Rattle.service_combine.specs.Readying.{BothReady};
ghost use Rattle.service_combine.specs.Shown.{then_first_factory, then_second_factory};

use crate::both::Both;
use crate::{ThenService, ThenServiceFactoryResponse, ThenServiceResponse};
use futures::Future;
use service_core::{NoMemory, Service, ServiceFactory};
use std::alloc::{AllocError, Global};
use std::marker::PhantomData;
use std::sync::Arc;

/// Factory of `PipelineFactory::then`: it makes a service of each of its parts, and hands the whole results of the first
/// to the second (`actix_service::ThenServiceFactory`).
///
/// The first part gets a clone of the configuration, the second the configuration. A clone that is refused is want of
/// memory. A clone of the factory shares both parts.
#[derive(Drop)]
pub struct ThenServiceFactory<A, B, Req> {
    pub(crate) parts: Arc<(A, B)>,
    pub(crate) alloc: Global,
    pub(crate) request: PhantomData<Req>,
}

impl<A: Drop, B: Drop, Req> Clone for ThenServiceFactory<A, B, Req> {
    ghost is_clone = { λ f copy. (then_first_factory copy ≡ then_first_factory f) × (then_second_factory copy ≡ then_second_factory f) };

    fn clone(&self) -> Result<ThenServiceFactory<A, B, Req>, AllocError> {
        match Arc::try_clone(&self.parts) {
            Ok(parts) => Ok(ThenServiceFactory {
                parts,
                alloc: self.alloc,
                request: PhantomData,
            }),
            Err(e) => Err(e),
        }
    }
}

impl<A, B, Req> ServiceFactory<Req> for ThenServiceFactory<A, B, Req>
where
    Req: Drop,
    A: ServiceFactory<Req, Config: Clone, Error: NoMemory, InitError: NoMemory, Service: Drop>
        + Drop,
    B: ServiceFactory<
        Result<A::Response, A::Error>,
        Config = A::Config,
        Error = A::Error,
        InitError = A::InitError,
        Service: Drop,
    >
        + Drop,
{
    type Response = B::Response;

    type Error = A::Error;

    type Config = A::Config;

    type Service = ThenService<A::Service, B::Service, Req>;

    type InitError = A::InitError;

    type Future = ThenServiceFactoryResponse<A, B, Req>;

    ghost can_make = { λ f. A.can_make (then_first_factory f) × B.can_make (then_second_factory f) };

    ghost may = { ThenMakes A.ServiceFactory B.ServiceFactory A.Config.is_clone A.Error.refusal };

    ghost may_ready = { λ f c. BothReady (Follows (A.Config.is_clone c) (A.may_ready (then_first_factory f))) (B.may_ready (then_second_factory f) c) };

    ghost may_begin = { λ f c q fut. GivesOnly ⟦<ThenServiceResponse<A::Service, B::Service, Req> as Future>⟧ fut
        (ThenMakes A.ServiceFactory B.ServiceFactory A.Config.is_clone A.Error.refusal f c q) };

    ghost may_init = { λ f c e. Follows (A.Config.is_clone c) (A.may_init (then_first_factory f)) e
        ⊎ (B.may_init (then_second_factory f) c e ⊎ (e ≡ A.InitError.refusal)) };

    ghost may_make = { λ f c. Through (A.Config.is_clone c) (A.may_make (then_first_factory f)) × B.may_make (then_second_factory f) c };

    ghost begun_gives = { λ f c q fut begun. begun };

    fn new_service(&self, cfg: A::Config) -> ThenServiceFactoryResponse<A, B, Req> {
        match cfg.clone() {
            Ok(copy) => ThenServiceFactoryResponse {
                making: Both::of(
                    self.parts.0.new_service(copy),
                    self.parts.1.new_service(cfg),
                ),
                alloc: self.alloc,
            },
            Err(_) => ThenServiceFactoryResponse::refused(self.alloc),
        }
    }
}
