ghost use Rattle.std.specs.Prelude.{◌≡◌, IfOk};
ghost use Rattle.service_core.specs.Meaning.{GivesOnly};
ghost use Rattle.service_combine.specs.Equations.{MapErrMay};
ghost use Rattle.service_combine.specs.Readying.{ReadyErrBy};
ghost use Rattle.service_combine.specs.Same.{MeansSame};
ghost use Rattle.service_combine.specs.Shown.{map_err_closure, map_err_part};

use crate::MapErrFuture;
use crate::copies::copies;
use crate::one_stage::OneStage;
use futures::Future;
use futures::task::{Context, Poll};
use service_core::{NoMemory, Service, Watched};
use std::alloc::AllocError;
use std::marker::PhantomData;
use std::sync::Arc;

/// Service of `ServiceExt::map_err`: its closure changes the errors of its service's calls and of its readiness
/// (`actix_service::MapErr`).
#[derive(Drop)]
pub struct MapErr<A, Req, F, E> {
    pub(crate) service: A,
    pub(crate) f: Arc<F>,
    pub(crate) types: PhantomData<(Req, E)>,
}

impl<A: Clone, Req, F: Drop, E> Clone for MapErr<A, Req, F, E> {
    ghost is_clone = { λ m copy. A.is_clone (map_err_part m) (map_err_part copy) × (map_err_closure copy ≡ map_err_closure m) };

    fn clone(&self) -> Result<MapErr<A, Req, F, E>, AllocError> {
        match copies(&self.service, &self.f) {
            Ok((service, f)) => Ok(MapErr {
                service,
                f,
                types: PhantomData,
            }),
            Err(e) => Err(e),
        }
    }
}

impl<A, Req, F, E> MapErr<A, Req, F, E>
where
    Req: Drop,
    A: Service<Req> + Clone,
    E: NoMemory,
    F: Fn(A::Error) -> E + Drop,
{
    /// A copy that shares the closure. It means what this service means, where a clone of the part means what the part
    /// means.
    pub fn clone(&self) -> Result<MapErr<A, Req, F, E>, AllocError>
        ensures clone { IfOk result (⟦<MapErr<A, Req, F, E> as Clone>⟧.is_clone self.now) }
        ensures meaning { IfOk result (λ copy. MeansSame A.Service (map_err_part self.now) (map_err_part copy)
            → MeansSame ⟦<MapErr<A, Req, F, E> as Service<Req>>⟧ self.now copy) }
    {
        Clone::clone(self)
    }
}

impl<A, Req, F, E> Service<Req> for MapErr<A, Req, F, E>
where
    Req: Drop,
    A: Service<Req>,
    E: NoMemory,
    F: Fn(A::Error) -> E + Drop,
{
    type Response = A::Response;

    type Error = E;

    type Future = MapErrFuture<A::Future, F>;

    ghost can_call = { λ m. A.can_call (map_err_part m) × F.IsAlwaysCallable (map_err_closure m) };

    ghost may = { MapErrMay A.Service F.post E.refusal };

    ghost may_begin = { λ m q f. GivesOnly ⟦<MapErrFuture<A::Future, F> as Future>⟧ f
        (MapErrMay A.Service F.post E.refusal m q) };

    ghost may_ready = { λ m. ReadyErrBy (F.post (map_err_closure m)) (A.may_ready (map_err_part m)) };

    ghost begun_gives = { λ m q f begun. begun };

    fn poll_ready(&self, cx: &mut Context<'_>) -> Poll<Result<(), E>> {
        match self.service.poll_ready(cx) {
            Poll::Pending => Poll::Pending,
            Poll::Ready(Ok(())) => Poll::Ready(Ok(())),
            Poll::Ready(Err(e)) => Poll::Ready(Err((self.f)(e))),
        }
    }

    fn call(&self, req: Req) -> MapErrFuture<A::Future, F> {
        match Arc::try_clone(&self.f) {
            Ok(f) => MapErrFuture {
                state: OneStage::Waiting {
                    future: Watched::new(self.service.call(req)),
                    f,
                },
            },
            Err(_) => MapErrFuture::refused(),
        }
    }
}
