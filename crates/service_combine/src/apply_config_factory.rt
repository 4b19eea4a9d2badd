ghost use Rattle.std.specs.Prelude.{◌≡◌, ◌⊎◌, Ok as Gives, Err as Fails, IfOk};
ghost use Rattle.futures.specs.declared.task.Poll.TheVariants.{Ready as PollReady};
ghost use Rattle.service_core.specs.Meaning.{Follows};
ghost use Rattle.service_combine.specs.Configuring.{OfOk};
ghost use Rattle.service_combine.specs.Shown.{apply_cfg_factory_closure, apply_cfg_factory_part};
ghost use Rattle.service_combine.specs.Staging.{MakesFrom, ReadyGives};

use crate::ApplyConfigServiceFactoryResponse;
use crate::config_stage::ConfigStage;
use crate::made_ready::MadeReady;
use crate::sharing::shared;
use futures::Future;
use service_core::{NoMemory, Service, ServiceFactory, Watched};
use std::alloc::{AllocError, Global};
use std::marker::PhantomData;
use std::sync::Arc;

/// A factory that makes a service of `factory`, awaits its readiness, and then gives the service that the future of
/// `f(cfg, &service)` gives (`actix_service::apply_cfg_factory`).
///
/// An error of the readiness is turned by `From`. `AllocError` comes for want of memory alone.
pub fn apply_cfg_factory<SF, Req, F, Cfg, Fut, S>(
    alloc: Global,
    factory: SF,
    f: F,
) -> Result<ApplyConfigServiceFactory<SF, Req, F, Cfg, Fut, S>, AllocError>
where
    SF: ServiceFactory<Req, Config = ()> + Drop,
    F: Fn(Cfg, &SF::Service) -> Fut + Drop,
    Fut: Future<Output = Result<S, SF::InitError>>,
    S: Service<Req>,
    ensures { IfOk result (λ a. (apply_cfg_factory_part a ≡ factory) × (apply_cfg_factory_closure a ≡ f)) }
{
    match shared(alloc, (factory, f)) {
        Ok(srv) => Ok(ApplyConfigServiceFactory {
            srv,
            types: PhantomData,
        }),
        Err(e) => Err(e),
    }
}

/// Factory of `apply_cfg_factory` (`actix_service::ApplyConfigServiceFactory`).
///
/// A clone shares the factory and the closure.
#[derive(Drop)]
pub struct ApplyConfigServiceFactory<SF, Req, F, Cfg, Fut, S> {
    pub(crate) srv: Arc<(SF, F)>,
    pub(crate) types: PhantomData<(Req, Cfg, Fut, S)>,
}

impl<SF: Drop, Req, F: Drop, Cfg, Fut, S> Clone
    for ApplyConfigServiceFactory<SF, Req, F, Cfg, Fut, S> {
    ghost is_clone = { λ a copy. (apply_cfg_factory_part copy ≡ apply_cfg_factory_part a)
        × (apply_cfg_factory_closure copy ≡ apply_cfg_factory_closure a) };

    fn clone(&self) -> Result<ApplyConfigServiceFactory<SF, Req, F, Cfg, Fut, S>, AllocError> {
        match Arc::try_clone(&self.srv) {
            Ok(srv) => Ok(ApplyConfigServiceFactory {
                srv,
                types: PhantomData,
            }),
            Err(e) => Err(e),
        }
    }
}

impl<SF, Req, F, Cfg, Fut, S> ServiceFactory<Req>
    for ApplyConfigServiceFactory<SF, Req, F, Cfg, Fut, S>
where
    Req: Drop,
    Cfg: Drop,
    S: Service<Req> + Drop,
    SF: ServiceFactory<Req, Config = (), InitError: From<SF::Error> + NoMemory, Service: Drop>
        + Drop,
    F: Fn(Cfg, &SF::Service) -> Fut + Drop,
    Fut: Future<Output = Result<S, SF::InitError>>,
{
    type Response = S::Response;

    type Error = S::Error;

    type Config = Cfg;

    type Service = S;

    type InitError = SF::InitError;

    type Future = ApplyConfigServiceFactoryResponse<SF, Req, F, Cfg, Fut, S>;

    ghost can_make = { λ a. SF.can_make (apply_cfg_factory_part a) × ((c : Cfg) (s : SF.Service) → SF.Service.can_call s
        → MakesFrom Fut.Future (F.pre (apply_cfg_factory_closure a)) (F.post (apply_cfg_factory_closure a)) S.can_call c s) };

    ghost may = { λ a c q. OfOk (ReadyGives SF.ServiceFactory SF.Service.Service F.post Fut.gives a c) (λ made. S.may made q) };

    ghost may_ready = { λ a c. OfOk (ReadyGives SF.ServiceFactory SF.Service.Service F.post Fut.gives a c) S.may_ready };

    ghost may_begin = { λ a c q. OfOk (ReadyGives SF.ServiceFactory SF.Service.Service F.post Fut.gives a c) (λ made. S.may_begin made q) };

    ghost may_init = { λ a c e. SF.may_init (apply_cfg_factory_part a) tt e
        ⊎ (Follows (λ from. SF.may_ready (apply_cfg_factory_part a) tt (PollReady (Fails from))) SF.InitError.From.from_gives e
        ⊎ (ReadyGives SF.ServiceFactory SF.Service.Service F.post Fut.gives a c (Fails e) ⊎ (e ≡ SF.InitError.refusal))) };

    ghost may_make = { λ a c. SF.may_make (apply_cfg_factory_part a) tt
        × ((made : S) × ReadyGives SF.ServiceFactory SF.Service.Service F.post Fut.gives a c (Gives made)) };

    ghost begun_gives = { λ a c q f begun.
        let gives = S.begun_gives begun.value q f begun.holds in
        (gives.0, λ r given. record { value = begun.value; comes = begun.comes; holds = gives.1 r given }) };

    fn new_service(&self, cfg: Cfg) -> ApplyConfigServiceFactoryResponse<SF, Req, F, Cfg, Fut, S> {
        match Arc::try_clone(&self.srv) {
            Ok(parts) => ApplyConfigServiceFactoryResponse {
                state: ConfigStage::First {
                    making: MadeReady::Making {
                        future: Watched::new(self.srv.0.new_service(())),
                    },
                    cfg,
                    parts,
                },
                made: PhantomData,
            },
            Err(_) => ApplyConfigServiceFactoryResponse::refused(),
        }
    }
}
