ghost use Rattle.std.specs.Prelude.{◌≡◌, ◌⊎◌, IfOk};
ghost use Rattle.service_core.specs.Meaning.{GivesOnly};
ghost use Rattle.service_combine.specs.Equations.{MapErrMakes};
ghost use Rattle.service_combine.specs.Readying.{ReadyErrBy};
ghost use Rattle.service_combine.specs.Same.{MakesSame};
ghost use Rattle.service_combine.specs.Shown.{map_err_factory, map_err_factory_closure};

use crate::copies::copies;
use crate::making::Making;
use crate::{MapErr, MapErrFuture, MapErrServiceFuture};
use futures::Future;
use service_core::{NoMemory, Service, ServiceFactory};
use std::alloc::AllocError;
use std::marker::PhantomData;
use std::sync::Arc;

/// Factory of `ServiceFactoryExt::map_err`: its closure changes the errors of its factory's services
/// (`actix_service::MapErrServiceFactory`).
#[derive(Drop)]
pub struct MapErrServiceFactory<A, Req, F, E> {
    pub(crate) factory: A,
    pub(crate) f: Arc<F>,
    pub(crate) types: PhantomData<(Req, E)>,
}

impl<A: Clone, Req, F: Drop, E> Clone for MapErrServiceFactory<A, Req, F, E> {
    ghost is_clone = { λ m copy. A.is_clone (map_err_factory m) (map_err_factory copy)
        × (map_err_factory_closure copy ≡ map_err_factory_closure m) };

    fn clone(&self) -> Result<MapErrServiceFactory<A, Req, F, E>, AllocError> {
        match copies(&self.factory, &self.f) {
            Ok((factory, f)) => Ok(MapErrServiceFactory {
                factory,
                f,
                types: PhantomData,
            }),
            Err(e) => Err(e),
        }
    }
}

impl<A, Req, F, E> MapErrServiceFactory<A, Req, F, E>
where
    Req: Drop,
    E: NoMemory,
    A: ServiceFactory<Req, Config: Drop, InitError: NoMemory> + Clone,
    F: Fn(A::Error) -> E + Drop,
{
    /// A copy that shares the closure. It makes what this factory makes, where a clone of the part makes what the part
    /// makes.
    pub fn clone(&self) -> Result<MapErrServiceFactory<A, Req, F, E>, AllocError>
        ensures clone { IfOk result (⟦<MapErrServiceFactory<A, Req, F, E> as Clone>⟧.is_clone self.now) }
        ensures meaning { IfOk result (λ copy. MakesSame A.ServiceFactory (map_err_factory self.now) (map_err_factory copy)
            → MakesSame ⟦<MapErrServiceFactory<A, Req, F, E> as ServiceFactory<Req>>⟧ self.now copy) }
    {
        Clone::clone(self)
    }
}

impl<A, Req, F, E> ServiceFactory<Req> for MapErrServiceFactory<A, Req, F, E>
where
    Req: Drop,
    E: NoMemory,
    A: ServiceFactory<Req, Config: Drop, InitError: NoMemory>,
    F: Fn(A::Error) -> E + Drop,
{
    type Response = A::Response;

    type Error = E;

    type Config = A::Config;

    type Service = MapErr<A::Service, Req, F, E>;

    type InitError = A::InitError;

    type Future = MapErrServiceFuture<A::Future, F, Req, E>;

    ghost can_make = { λ m. A.can_make (map_err_factory m) × F.IsAlwaysCallable (map_err_factory_closure m) };

    ghost may = { MapErrMakes A.ServiceFactory F.post E.refusal };

    ghost may_ready = { λ m c. ReadyErrBy (F.post (map_err_factory_closure m)) (A.may_ready (map_err_factory m) c) };

    ghost may_begin = { λ m c q f. GivesOnly ⟦<MapErrFuture<<<A as ServiceFactory<Req>>::Service as Service<Req>>::Future, F> as Future>⟧ f
        (MapErrMakes A.ServiceFactory F.post E.refusal m c q) };

    ghost may_init = { λ m c e. A.may_init (map_err_factory m) c e ⊎ (e ≡ A.InitError.refusal) };

    ghost may_make = { λ m c. A.may_make (map_err_factory m) c };

    ghost begun_gives = { λ m c q f begun. begun };

    fn new_service(&self, cfg: A::Config) -> MapErrServiceFuture<A::Future, F, Req, E> {
        match Arc::try_clone(&self.f) {
            Ok(f) => MapErrServiceFuture {
                making: Making::of(self.factory.new_service(cfg), f),
                types: PhantomData,
            },
            Err(_) => MapErrServiceFuture::refused(),
        }
    }
}
