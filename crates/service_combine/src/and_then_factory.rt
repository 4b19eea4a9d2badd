ghost use Rattle.std.specs.Prelude.{◌≡◌, ◌⊎◌};
ghost use Rattle.service_core.specs.Meaning.{Follows, GivesOnly, Through};
ghost use Rattle.service_combine.specs.Equations.{AndThenMakes};
ghost use Rattle.service_combine.specs.Readying.{BothReady};
ghost use Rattle.service_combine.specs.Shown.{and_then_first_factory, and_then_second_factory};

use crate::both::Both;
use crate::{AndThenService, AndThenServiceFactoryResponse, AndThenServiceResponse};
use futures::Future;
use service_core::{NoMemory, Service, ServiceFactory};
use std::alloc::{AllocError, Global};
use std::marker::PhantomData;
use std::sync::Arc;

/// Factory of `ServiceFactoryExt::and_then`: it makes a service of each of its parts, and hands the Ok responses of the
/// first to the second (`actix_service::AndThenServiceFactory`).
///
/// The first part gets a clone of the configuration, the second the configuration. A clone that is refused is want of
/// memory. A clone of the factory shares both parts.
#[derive(Drop)]
pub struct AndThenServiceFactory<A, B, Req> {
    pub(crate) parts: Arc<(A, B)>,
    pub(crate) alloc: Global,
    pub(crate) request: PhantomData<Req>,
}

impl<A: Drop, B: Drop, Req> Clone for AndThenServiceFactory<A, B, Req> {
    ghost is_clone = { λ f copy. (and_then_first_factory copy ≡ and_then_first_factory f) × (and_then_second_factory copy ≡ and_then_second_factory f) };

    fn clone(&self) -> Result<AndThenServiceFactory<A, B, Req>, AllocError> {
        match Arc::try_clone(&self.parts) {
            Ok(parts) => Ok(AndThenServiceFactory {
                parts,
                alloc: self.alloc,
                request: PhantomData,
            }),
            Err(e) => Err(e),
        }
    }
}

impl<A, B, Req> ServiceFactory<Req> for AndThenServiceFactory<A, B, Req>
where
    Req: Drop,
    A: ServiceFactory<Req, Config: Clone, Error: NoMemory, InitError: NoMemory, Service: Drop>
        + Drop,
    B: ServiceFactory<
        A::Response,
        Config = A::Config,
        Error = A::Error,
        InitError = A::InitError,
        Service: Drop,
    >
        + Drop,
{
    type Response = B::Response;

    type Error = A::Error;

    type Config = A::Config;

    type Service = AndThenService<A::Service, B::Service, Req>;

    type InitError = A::InitError;

    type Future = AndThenServiceFactoryResponse<A, B, Req>;

    ghost can_make = { λ f. A.can_make (and_then_first_factory f) × B.can_make (and_then_second_factory f) };

    ghost may = { AndThenMakes A.ServiceFactory B.ServiceFactory A.Config.is_clone A.Error.refusal };

    ghost may_ready = { λ f c. BothReady (Follows (A.Config.is_clone c) (A.may_ready (and_then_first_factory f))) (B.may_ready (and_then_second_factory f) c) };

    ghost may_begin = { λ f c q fut. GivesOnly ⟦<AndThenServiceResponse<A::Service, B::Service, Req> as Future>⟧ fut
        (AndThenMakes A.ServiceFactory B.ServiceFactory A.Config.is_clone A.Error.refusal f c q) };

    ghost may_init = { λ f c e. Follows (A.Config.is_clone c) (A.may_init (and_then_first_factory f)) e
        ⊎ (B.may_init (and_then_second_factory f) c e ⊎ (e ≡ A.InitError.refusal)) };

    ghost may_make = { λ f c. Through (A.Config.is_clone c) (A.may_make (and_then_first_factory f)) × B.may_make (and_then_second_factory f) c };

    ghost begun_gives = { λ f c q fut begun. begun };

    fn new_service(&self, cfg: A::Config) -> AndThenServiceFactoryResponse<A, B, Req> {
        match cfg.clone() {
            Ok(copy) => AndThenServiceFactoryResponse {
                making: Both::of(
                    self.parts.0.new_service(copy),
                    self.parts.1.new_service(cfg),
                ),
                alloc: self.alloc,
            },
            Err(_) => AndThenServiceFactoryResponse::refused(self.alloc),
        }
    }
}
