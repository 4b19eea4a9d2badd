ghost use Rattle.std.specs.Prelude.{◌≡◌, IfOk};
ghost use Rattle.service_core.specs.Meaning.{GivesOnly};
ghost use Rattle.service_combine.specs.Equations.{MapMay};
ghost use Rattle.service_combine.specs.Same.{MeansSame};
ghost use Rattle.service_combine.specs.Shown.{map_closure, map_part};

use crate::MapFuture;
use crate::copies::copies;
use crate::one_stage::OneStage;
use futures::Future;
use futures::task::{Context, Poll};
use service_core::{NoMemory, Service, Watched};
use std::alloc::AllocError;
use std::marker::PhantomData;
use std::sync::Arc;

/// Service of `ServiceExt::map`: its closure changes the Ok responses of its service (`actix_service::Map`).
#[derive(Drop)]
pub struct Map<A, F, Req, Res> {
    pub(crate) service: A,
    pub(crate) f: Arc<F>,
    pub(crate) types: PhantomData<(Req, Res)>,
}

impl<A: Clone, F: Drop, Req, Res> Clone for Map<A, F, Req, Res> {
    ghost is_clone = { λ m copy. A.is_clone (map_part m) (map_part copy) × (map_closure copy ≡ map_closure m) };

    fn clone(&self) -> Result<Map<A, F, Req, Res>, AllocError> {
        match copies(&self.service, &self.f) {
            Ok((service, f)) => Ok(Map {
                service,
                f,
                types: PhantomData,
            }),
            Err(e) => Err(e),
        }
    }
}

impl<A, F, Req, Res> Map<A, F, Req, Res>
where
    Req: Drop,
    A: Service<Req, Error: NoMemory> + Clone,
    F: Fn(A::Response) -> Res + Drop,
{
    /// A copy that shares the closure. It means what this service means, where a clone of the part means what the part
    /// means.
    pub fn clone(&self) -> Result<Map<A, F, Req, Res>, AllocError>
        ensures clone { IfOk result (⟦<Map<A, F, Req, Res> as Clone>⟧.is_clone self.now) }
        ensures meaning { IfOk result (λ copy. MeansSame A.Service (map_part self.now) (map_part copy)
            → MeansSame ⟦<Map<A, F, Req, Res> as Service<Req>>⟧ self.now copy) }
    {
        Clone::clone(self)
    }
}

impl<A, F, Req, Res> Service<Req> for Map<A, F, Req, Res>
where
    Req: Drop,
    A: Service<Req, Error: NoMemory>,
    F: Fn(A::Response) -> Res + Drop,
{
    type Response = Res;

    type Error = A::Error;

    type Future = MapFuture<A::Future, F>;

    ghost can_call = { λ m. A.can_call (map_part m) × F.IsAlwaysCallable (map_closure m) };

    ghost may = { MapMay A.Service F.post A.Error.refusal };

    ghost may_begin = { λ m q f. GivesOnly ⟦<MapFuture<A::Future, F> as Future>⟧ f
        (MapMay A.Service F.post A.Error.refusal m q) };

    ghost may_ready = { λ m. A.may_ready (map_part m) };

    ghost begun_gives = { λ m q f begun. begun };

    fn poll_ready(&self, cx: &mut Context<'_>) -> Poll<Result<(), A::Error>> {
        self.service.poll_ready(cx)
    }

    fn call(&self, req: Req) -> MapFuture<A::Future, F> {
        match Arc::try_clone(&self.f) {
            Ok(f) => MapFuture {
                state: OneStage::Waiting {
                    future: Watched::new(self.service.call(req)),
                    f,
                },
            },
            Err(_) => MapFuture::refused(),
        }
    }
}
