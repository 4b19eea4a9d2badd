ghost use Rattle.std.specs.Prelude.{◌≡◌, IfOk};
ghost use Rattle.service_core.specs.Meaning.{Follows};
ghost use Rattle.service_combine.specs.Applying.{Answers, TakesLent};
ghost use Rattle.service_combine.specs.Same.{MeansSame, TakesSame};
ghost use Rattle.service_combine.specs.Shown.{apply_closure, apply_part};

use crate::copies::copies;
use crate::sharing::shared;
use futures::Future;
use futures::task::{Context, Poll};
use service_core::{IntoService, Service};
use std::alloc::{AllocError, Global};
use std::marker::PhantomData;
use std::sync::Arc;

/// A service that answers what the future of `wrap_fn(req, &service)` gives (`actix_service::apply_fn`).
///
/// `AllocError` comes for want of memory alone.
pub fn apply_fn<I, S, F, Fut, Req, In, Res, Err>(
    alloc: Global,
    service: I,
    wrap_fn: F,
) -> Result<Apply<S, F, Req, In, Res, Err>, AllocError>
where
    I: IntoService<S, In>,
    S: Service<In, Error = Err> + Drop,
    F: Fn(Req, &S) -> Fut + Drop,
    Fut: Future<Output = Result<Res, Err>>,
    ensures { IfOk result (λ a. I.turns_into service (apply_part a) × (apply_closure a ≡ wrap_fn)) }
{
    let service = service.into_service();
    match shared(alloc, wrap_fn) {
        Ok(wrap_fn) => Ok(Apply {
            service,
            wrap_fn,
            types: PhantomData,
        }),
        Err(e) => Err(e),
    }
}

/// Service of `apply_fn`: it answers what the future of its closure gives, to which it hands each request with its
/// service, and is ready when its service is (`actix_service::Apply`).
#[derive(Drop)]
pub struct Apply<S, F, Req, In, Res, Err> {
    pub(crate) service: S,
    pub(crate) wrap_fn: Arc<F>,
    pub(crate) types: PhantomData<(Req, In, Res, Err)>,
}

impl<S: Clone, F: Drop, Req, In, Res, Err> Clone for Apply<S, F, Req, In, Res, Err> {
    ghost is_clone = { λ a copy. S.is_clone (apply_part a) (apply_part copy) × (apply_closure copy ≡ apply_closure a) };

    fn clone(&self) -> Result<Apply<S, F, Req, In, Res, Err>, AllocError> {
        match copies(&self.service, &self.wrap_fn) {
            Ok((service, wrap_fn)) => Ok(Apply {
                service,
                wrap_fn,
                types: PhantomData,
            }),
            Err(e) => Err(e),
        }
    }
}

impl<S, F, Fut, Req, In, Res, Err> Apply<S, F, Req, In, Res, Err>
where
    S: Service<In, Error = Err> + Clone,
    F: Fn(Req, &S) -> Fut + Drop,
    Fut: Future<Output = Result<Res, Err>>,
{
    /// A copy that shares the closure. It means what this service means, where a clone of the part means what the part
    /// means and the closure answers alike with either lent.
    pub fn clone(&self) -> Result<Apply<S, F, Req, In, Res, Err>, AllocError>
        ensures clone { IfOk result (⟦<Apply<S, F, Req, In, Res, Err> as Clone>⟧.is_clone self.now) }
        ensures meaning { IfOk result (λ copy. MeansSame S.Service (apply_part self.now) (apply_part copy)
            → TakesSame (F.pre (apply_closure self.now)) (F.post (apply_closure self.now)) (apply_part self.now) (apply_part copy)
            → MeansSame ⟦<Apply<S, F, Req, In, Res, Err> as Service<Req>>⟧ self.now copy) }
    {
        Clone::clone(self)
    }
}

impl<S, F, Fut, Req, In, Res, Err> Service<Req> for Apply<S, F, Req, In, Res, Err>
where
    S: Service<In, Error = Err>,
    F: Fn(Req, &S) -> Fut + Drop,
    Fut: Future<Output = Result<Res, Err>>,
{
    type Response = Res;

    type Error = Err;

    type Future = Fut;

    ghost can_call = { λ a. S.can_call (apply_part a)
        × TakesLent Fut.Future (F.pre (apply_closure a)) (F.post (apply_closure a)) (apply_part a) };

    ghost may = { λ a q. Follows (Answers (F.post (apply_closure a)) (apply_part a) q) Fut.gives };

    ghost may_ready = { λ a. S.may_ready (apply_part a) };

    ghost may_begin = { λ a q fut. Answers (F.post (apply_closure a)) (apply_part a) q fut × Fut.can_poll fut };

    ghost begun_gives = { λ a q fut begun. (begun.1, λ r given. record { value = fut; comes = begun.0; holds = given }) };

    fn poll_ready(&self, cx: &mut Context<'_>) -> Poll<Result<(), Err>> {
        self.service.poll_ready(cx)
    }

    fn call(&self, req: Req) -> Fut {
        (self.wrap_fn)(req, &self.service)
    }
}
