ghost use Rattle.std.specs.Prelude.{◌≡◌, Ok as Gives, Err as Fails, IfOk};
ghost use Rattle.service_combine.specs.Applying.{Answers, LentGives, MayBeLent};
ghost use Rattle.service_combine.specs.Configuring.{GivesCallable, OfOk};
ghost use Rattle.service_combine.specs.Shown.{apply_cfg_closure, apply_cfg_part};

use crate::sharing::shared;
use futures::Future;
use service_core::{Service, ServiceFactory};
use std::alloc::{AllocError, Global};
use std::marker::PhantomData;
use std::sync::Arc;

/// A factory of the services that the future of `f(cfg, &srv)` gives (`actix_service::apply_cfg`).
///
/// `AllocError` comes for want of memory alone.
pub fn apply_cfg<S1, Req, F, Cfg, Fut, S2, Err>(
    alloc: Global,
    srv: S1,
    f: F,
) -> Result<ApplyConfigService<S1, Req, F, Cfg, Fut, S2, Err>, AllocError>
where
    S1: Service<Req> + Drop,
    F: Fn(Cfg, &S1) -> Fut + Drop,
    Fut: Future<Output = Result<S2, Err>>,
    S2: Service<Req>,
    ensures { IfOk result (λ a. (apply_cfg_part a ≡ srv) × (apply_cfg_closure a ≡ f)) }
{
    match shared(alloc, (srv, f)) {
        Ok(srv) => Ok(ApplyConfigService {
            srv,
            types: PhantomData,
        }),
        Err(e) => Err(e),
    }
}

/// Factory of `apply_cfg` (`actix_service::ApplyConfigService`).
///
/// A clone shares the service and the closure.
#[derive(Drop)]
pub struct ApplyConfigService<S1, Req, F, Cfg, Fut, S2, Err> {
    pub(crate) srv: Arc<(S1, F)>,
    pub(crate) types: PhantomData<(Req, Cfg, Fut, S2, Err)>,
}

impl<S1: Drop, Req, F: Drop, Cfg, Fut, S2, Err> Clone
    for ApplyConfigService<S1, Req, F, Cfg, Fut, S2, Err> {
    ghost is_clone = { λ a copy. (apply_cfg_part copy ≡ apply_cfg_part a) × (apply_cfg_closure copy ≡ apply_cfg_closure a) };

    fn clone(&self) -> Result<ApplyConfigService<S1, Req, F, Cfg, Fut, S2, Err>, AllocError> {
        match Arc::try_clone(&self.srv) {
            Ok(srv) => Ok(ApplyConfigService {
                srv,
                types: PhantomData,
            }),
            Err(e) => Err(e),
        }
    }
}

impl<S1, Req, F, Cfg, Fut, S2, Err> ServiceFactory<Req>
    for ApplyConfigService<S1, Req, F, Cfg, Fut, S2, Err>
where
    S1: Service<Req> + Drop,
    F: Fn(Cfg, &S1) -> Fut + Drop,
    Fut: Future<Output = Result<S2, Err>>,
    S2: Service<Req>,
{
    type Response = S2::Response;

    type Error = S2::Error;

    type Config = Cfg;

    type Service = S2;

    type InitError = Err;

    type Future = Fut;

    ghost can_make = { λ a. MayBeLent (F.pre (apply_cfg_closure a)) (apply_cfg_part a)
        × ((c : Cfg) → GivesCallable Fut.Future S2.can_call (Answers (F.post (apply_cfg_closure a)) (apply_cfg_part a) c)) };

    ghost may = { λ a c q. OfOk (LentGives F.post Fut.gives a c) (λ made. S2.may made q) };

    ghost may_ready = { λ a c. OfOk (LentGives F.post Fut.gives a c) S2.may_ready };

    ghost may_begin = { λ a c q. OfOk (LentGives F.post Fut.gives a c) (λ made. S2.may_begin made q) };

    ghost may_init = { λ a c e. LentGives F.post Fut.gives a c (Fails e) };

    ghost may_make = { λ a c. (made : S2) × LentGives F.post Fut.gives a c (Gives made) };

    ghost begun_gives = { λ a c q f begun.
        let gives = S2.begun_gives begun.value q f begun.holds in
        (gives.0, λ r given. record { value = begun.value; comes = begun.comes; holds = gives.1 r given }) };

    fn new_service(&self, cfg: Cfg) -> Fut {
        (self.srv.1)(cfg, &self.srv.0)
    }
}
