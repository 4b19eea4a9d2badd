ghost use Rattle.std.specs.Prelude.{◌≡◌, Ok as Gives, Err as Fails, IfOk};
ghost use Rattle.service_core.specs.Meaning.{Follows};
ghost use Rattle.service_combine.specs.Configuring.{GivesCallable, OfOk};
ghost use Rattle.service_combine.specs.Shown.{config_closure};

use crate::sharing::shared;
use futures::Future;
use service_core::{Service, ServiceFactory};
use std::alloc::{AllocError, Global};
use std::marker::PhantomData;
use std::sync::Arc;

/// A factory of the services that the future of `f(cfg)` gives (`actix_service::fn_factory_with_config`).
///
/// `AllocError` comes for want of memory alone.
pub fn fn_factory_with_config<F, Fut, Cfg, Srv, Req, Err>(
    alloc: Global,
    f: F,
) -> Result<FnServiceConfig<F, Fut, Cfg, Srv, Req, Err>, AllocError>
where
    F: Fn(Cfg) -> Fut + Drop,
    Fut: Future<Output = Result<Srv, Err>>,
    Srv: Service<Req>,
    ensures { IfOk result (λ s. config_closure s ≡ f) }
{
    match shared(alloc, f) {
        Ok(f) => Ok(FnServiceConfig {
            f,
            types: PhantomData,
        }),
        Err(e) => Err(e),
    }
}

/// Factory of `fn_factory_with_config` (`actix_service::FnServiceConfig`).
///
/// A clone shares the closure.
#[derive(Drop)]
pub struct FnServiceConfig<F, Fut, Cfg, Srv, Req, Err> {
    pub(crate) f: Arc<F>,
    pub(crate) types: PhantomData<(Fut, Cfg, Srv, Req, Err)>,
}

impl<F: Drop, Fut, Cfg, Srv, Req, Err> Clone for FnServiceConfig<F, Fut, Cfg, Srv, Req, Err> {
    ghost is_clone = { λ s copy. config_closure copy ≡ config_closure s };

    fn clone(&self) -> Result<FnServiceConfig<F, Fut, Cfg, Srv, Req, Err>, AllocError> {
        match Arc::try_clone(&self.f) {
            Ok(f) => Ok(FnServiceConfig {
                f,
                types: PhantomData,
            }),
            Err(e) => Err(e),
        }
    }
}

impl<F, Fut, Cfg, Srv, Req, Err> ServiceFactory<Req> for FnServiceConfig<F, Fut, Cfg, Srv, Req, Err>
where
    F: Fn(Cfg) -> Fut + Drop,
    Fut: Future<Output = Result<Srv, Err>>,
    Srv: Service<Req>,
{
    type Response = Srv::Response;

    type Error = Srv::Error;

    type Config = Cfg;

    type Service = Srv;

    type InitError = Err;

    type Future = Fut;

    ghost can_make = { λ s. F.IsAlwaysCallable (config_closure s)
        × ((c : Cfg) → GivesCallable Fut.Future Srv.can_call (F.post (config_closure s) c)) };

    ghost may = { λ s c q. OfOk (Follows (F.post (config_closure s) c) Fut.gives) (λ made. Srv.may made q) };

    ghost may_ready = { λ s c. OfOk (Follows (F.post (config_closure s) c) Fut.gives) Srv.may_ready };

    ghost may_begin = { λ s c q. OfOk (Follows (F.post (config_closure s) c) Fut.gives) (λ made. Srv.may_begin made q) };

    ghost may_init = { λ s c e. Follows (F.post (config_closure s) c) Fut.gives (Fails e) };

    ghost may_make = { λ s c. (made : Srv) × Follows (F.post (config_closure s) c) Fut.gives (Gives made) };

    ghost begun_gives = { λ s c q f begun.
        let gives = Srv.begun_gives begun.value q f begun.holds in
        (gives.0, λ r given. record { value = begun.value; comes = begun.comes; holds = gives.1 r given }) };

    fn new_service(&self, cfg: Cfg) -> Fut {
        (self.f)(cfg)
    }
}
