ghost use Rattle.std.specs.Prelude.{◌≡◌, ◌⊎◌, IfOk};
ghost use Rattle.service_core.specs.Made.{MadeBy};
ghost use Rattle.service_core.specs.Meaning.{Follows};
ghost use Rattle.service_combine.specs.Applying.{Answers, TakesLent};
ghost use Rattle.service_combine.specs.Same.{MakesSame};
ghost use Rattle.service_combine.specs.Shown.{apply_factory_closure, apply_factory_part};

use crate::copies::copies;
use crate::making::Making;
use crate::sharing::shared;
use crate::{Apply, ApplyServiceFactoryResponse};
use futures::Future;
use service_core::{IntoServiceFactory, NoMemory, Service, ServiceFactory};
use std::alloc::{AllocError, Global};
use std::marker::PhantomData;
use std::sync::Arc;

/// A factory whose services answer what the future of `f(req, &service)` gives, over a service of `service`
/// (`actix_service::apply_fn_factory`).
///
/// `AllocError` comes for want of memory alone.
pub fn apply_fn_factory<I, SF, F, Fut, Req, In, Res, Err>(
    alloc: Global,
    service: I,
    f: F,
) -> Result<ApplyFactory<SF, F, Req, In, Res, Err>, AllocError>
where
    I: IntoServiceFactory<SF, In>,
    SF: ServiceFactory<In, Error = Err> + Drop,
    F: Fn(Req, &SF::Service) -> Fut + Drop,
    Fut: Future<Output = Result<Res, Err>>,
    ensures { IfOk result (λ a. I.turns_into service (apply_factory_part a) × (apply_factory_closure a ≡ f)) }
{
    let factory = service.into_factory();
    match shared(alloc, f) {
        Ok(wrap_fn) => Ok(ApplyFactory {
            factory,
            wrap_fn,
            types: PhantomData,
        }),
        Err(e) => Err(e),
    }
}

/// Factory of `apply_fn_factory`: its services are its factory's, wrapped as by `apply_fn` (`actix_service::ApplyFactory`).
#[derive(Drop)]
pub struct ApplyFactory<SF, F, Req, In, Res, Err> {
    pub(crate) factory: SF,
    pub(crate) wrap_fn: Arc<F>,
    pub(crate) types: PhantomData<(Req, In, Res, Err)>,
}

impl<SF: Clone, F: Drop, Req, In, Res, Err> Clone for ApplyFactory<SF, F, Req, In, Res, Err> {
    ghost is_clone = { λ a copy. SF.is_clone (apply_factory_part a) (apply_factory_part copy)
        × (apply_factory_closure copy ≡ apply_factory_closure a) };

    fn clone(&self) -> Result<ApplyFactory<SF, F, Req, In, Res, Err>, AllocError> {
        match copies(&self.factory, &self.wrap_fn) {
            Ok((factory, wrap_fn)) => Ok(ApplyFactory {
                factory,
                wrap_fn,
                types: PhantomData,
            }),
            Err(e) => Err(e),
        }
    }
}

impl<SF, F, Fut, Req, In, Res, Err> ApplyFactory<SF, F, Req, In, Res, Err>
where
    Req: Drop,
    In: Drop,
    Res: Drop,
    Err: Drop,
    SF: ServiceFactory<In, Config: Drop, Error = Err, InitError: NoMemory> + Clone,
    F: Fn(Req, &SF::Service) -> Fut + Drop,
    Fut: Future<Output = Result<Res, Err>>,
{
    /// A copy that shares the closure. It makes what this factory makes, where a clone of the part makes what the part
    /// makes.
    pub fn clone(&self) -> Result<ApplyFactory<SF, F, Req, In, Res, Err>, AllocError>
        ensures clone { IfOk result (⟦<ApplyFactory<SF, F, Req, In, Res, Err> as Clone>⟧.is_clone self.now) }
        ensures meaning { IfOk result (λ copy. MakesSame SF.ServiceFactory (apply_factory_part self.now) (apply_factory_part copy)
            → MakesSame ⟦<ApplyFactory<SF, F, Req, In, Res, Err> as ServiceFactory<Req>>⟧ self.now copy) }
    {
        Clone::clone(self)
    }
}

impl<SF, F, Fut, Req, In, Res, Err> ServiceFactory<Req> for ApplyFactory<SF, F, Req, In, Res, Err>
where
    Req: Drop,
    In: Drop,
    Res: Drop,
    Err: Drop,
    SF: ServiceFactory<In, Config: Drop, Error = Err, InitError: NoMemory>,
    F: Fn(Req, &SF::Service) -> Fut + Drop,
    Fut: Future<Output = Result<Res, Err>>,
{
    type Response = Res;

    type Error = Err;

    type Config = SF::Config;

    type Service = Apply<SF::Service, F, Req, In, Res, Err>;

    type InitError = SF::InitError;

    type Future = ApplyServiceFactoryResponse<SF::Future, F, Req, In, Res, Err>;

    ghost can_make = { λ a. SF.can_make (apply_factory_part a) × ((s : SF.Service) → SF.Service.can_call s
        → TakesLent Fut.Future (F.pre (apply_factory_closure a)) (F.post (apply_factory_closure a)) s) };

    ghost may = { λ a c q. Follows (MadeBy SF.ServiceFactory SF.Service.Service (apply_factory_part a) c)
        (λ s. Follows (Answers (F.post (apply_factory_closure a)) s q) Fut.gives) };

    ghost may_ready = { λ a c. SF.may_ready (apply_factory_part a) c };

    ghost may_begin = { λ a c q fut. Follows (MadeBy SF.ServiceFactory SF.Service.Service (apply_factory_part a) c)
        (λ s. Answers (F.post (apply_factory_closure a)) s q) fut × Fut.can_poll fut };

    ghost may_init = { λ a c e. SF.may_init (apply_factory_part a) c e ⊎ (e ≡ SF.InitError.refusal) };

    ghost may_make = { λ a c. SF.may_make (apply_factory_part a) c };

    ghost begun_gives = { λ a c q fut begun. (
      begun.1,
      λ r given. record {
        value = begun.0.value;
        comes = begun.0.comes;
        holds = record { value = fut; comes = begun.0.holds; holds = given };
      },
    ) };

    fn new_service(
        &self,
        cfg: SF::Config,
    ) -> ApplyServiceFactoryResponse<SF::Future, F, Req, In, Res, Err> {
        match Arc::try_clone(&self.wrap_fn) {
            Ok(f) => ApplyServiceFactoryResponse {
                making: Making::of(self.factory.new_service(cfg), f),
                types: PhantomData,
            },
            Err(_) => ApplyServiceFactoryResponse::refused(),
        }
    }
}
