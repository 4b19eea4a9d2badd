ghost use Rattle.std.specs.Prelude.{◌≡◌, Ok as Gives, Err as Fails, IfOk};
ghost use Rattle.service_core.specs.Meaning.{Follows};
ghost use Rattle.service_combine.specs.Configuring.{GivesCallable, OfOk};
ghost use Rattle.service_combine.specs.Shown.{no_config_closure};

use crate::sharing::shared;
use futures::Future;
use service_core::{Service, ServiceFactory};
use std::alloc::{AllocError, Global};
use std::marker::PhantomData;
use std::sync::Arc;

/// A factory of the services that the future of `f()` gives, whatever the configuration (`actix_service::fn_factory`).
///
/// `AllocError` comes for want of memory alone.
pub fn fn_factory<F, Cfg, Srv, Req, Fut, Err>(
    alloc: Global,
    f: F,
) -> Result<FnServiceNoConfig<F, Cfg, Srv, Req, Fut, Err>, AllocError>
where
    F: Fn() -> Fut + Drop,
    Fut: Future<Output = Result<Srv, Err>>,
    Srv: Service<Req>,
    ensures { IfOk result (λ s. no_config_closure s ≡ f) }
{
    match shared(alloc, f) {
        Ok(f) => Ok(FnServiceNoConfig {
            f,
            types: PhantomData,
        }),
        Err(e) => Err(e),
    }
}

/// Factory of `fn_factory` (`actix_service::FnServiceNoConfig`).
///
/// A clone shares the closure.
#[derive(Drop)]
pub struct FnServiceNoConfig<F, Cfg, Srv, Req, Fut, Err> {
    pub(crate) f: Arc<F>,
    pub(crate) types: PhantomData<(Cfg, Srv, Req, Fut, Err)>,
}

impl<F: Drop, Cfg, Srv, Req, Fut, Err> Clone for FnServiceNoConfig<F, Cfg, Srv, Req, Fut, Err> {
    ghost is_clone = { λ s copy. no_config_closure copy ≡ no_config_closure s };

    fn clone(&self) -> Result<FnServiceNoConfig<F, Cfg, Srv, Req, Fut, Err>, AllocError> {
        match Arc::try_clone(&self.f) {
            Ok(f) => Ok(FnServiceNoConfig {
                f,
                types: PhantomData,
            }),
            Err(e) => Err(e),
        }
    }
}

impl<F, Cfg, Srv, Req, Fut, Err> ServiceFactory<Req>
    for FnServiceNoConfig<F, Cfg, Srv, Req, Fut, Err>
where
    F: Fn() -> Fut + Drop,
    Fut: Future<Output = Result<Srv, Err>>,
    Srv: Service<Req>,
    Cfg: Drop,
{
    type Response = Srv::Response;

    type Error = Srv::Error;

    type Config = Cfg;

    type Service = Srv;

    type InitError = Err;

    type Future = Fut;

    ghost can_make = { λ s. F.IsAlwaysCallable (no_config_closure s)
        × GivesCallable Fut.Future Srv.can_call (F.post (no_config_closure s)) };

    ghost may = { λ s c q. OfOk (Follows (F.post (no_config_closure s)) Fut.gives) (λ made. Srv.may made q) };

    ghost may_ready = { λ s c. OfOk (Follows (F.post (no_config_closure s)) Fut.gives) Srv.may_ready };

    ghost may_begin = { λ s c q. OfOk (Follows (F.post (no_config_closure s)) Fut.gives) (λ made. Srv.may_begin made q) };

    ghost may_init = { λ s c e. Follows (F.post (no_config_closure s)) Fut.gives (Fails e) };

    ghost may_make = { λ s c. (made : Srv) × Follows (F.post (no_config_closure s)) Fut.gives (Gives made) };

    ghost begun_gives = { λ s c q f begun.
        let gives = Srv.begun_gives begun.value q f begun.holds in
        (gives.0, λ r given. record { value = begun.value; comes = begun.comes; holds = gives.1 r given }) };

    fn new_service(&self, _cfg: Cfg) -> Fut {
        (self.f)()
    }
}
