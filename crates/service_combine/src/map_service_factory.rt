ghost use Rattle.std.specs.Prelude.{◌≡◌, ◌⊎◌, IfOk};
ghost use Rattle.service_core.specs.Meaning.{GivesOnly};
ghost use Rattle.service_combine.specs.Equations.{MapMakes};
ghost use Rattle.service_combine.specs.Same.{MakesSame};
ghost use Rattle.service_combine.specs.Shown.{map_factory, map_factory_closure};

use crate::copies::copies;
use crate::making::Making;
use crate::{Map, MapFuture, MapServiceFuture};
use futures::Future;
use service_core::{NoMemory, Service, ServiceFactory};
use std::alloc::AllocError;
use std::marker::PhantomData;
use std::sync::Arc;

/// Factory of `ServiceFactoryExt::map`: its closure changes the Ok responses of its factory's services
/// (`actix_service::MapServiceFactory`).
#[derive(Drop)]
pub struct MapServiceFactory<A, F, Req, Res> {
    pub(crate) factory: A,
    pub(crate) f: Arc<F>,
    pub(crate) types: PhantomData<(Req, Res)>,
}

impl<A: Clone, F: Drop, Req, Res> Clone for MapServiceFactory<A, F, Req, Res> {
    ghost is_clone = { λ m copy. A.is_clone (map_factory m) (map_factory copy) × (map_factory_closure copy ≡ map_factory_closure m) };

    fn clone(&self) -> Result<MapServiceFactory<A, F, Req, Res>, AllocError> {
        match copies(&self.factory, &self.f) {
            Ok((factory, f)) => Ok(MapServiceFactory {
                factory,
                f,
                types: PhantomData,
            }),
            Err(e) => Err(e),
        }
    }
}

impl<A, F, Req, Res> MapServiceFactory<A, F, Req, Res>
where
    Req: Drop,
    Res: Drop,
    A: ServiceFactory<Req, Config: Drop, Error: NoMemory, InitError: NoMemory> + Clone,
    F: Fn(A::Response) -> Res + Drop,
{
    /// A copy that shares the closure. It makes what this factory makes, where a clone of the part makes what the part
    /// makes.
    pub fn clone(&self) -> Result<MapServiceFactory<A, F, Req, Res>, AllocError>
        ensures clone { IfOk result (⟦<MapServiceFactory<A, F, Req, Res> as Clone>⟧.is_clone self.now) }
        ensures meaning { IfOk result (λ copy. MakesSame A.ServiceFactory (map_factory self.now) (map_factory copy)
            → MakesSame ⟦<MapServiceFactory<A, F, Req, Res> as ServiceFactory<Req>>⟧ self.now copy) }
    {
        Clone::clone(self)
    }
}

impl<A, F, Req, Res> ServiceFactory<Req> for MapServiceFactory<A, F, Req, Res>
where
    Req: Drop,
    Res: Drop,
    A: ServiceFactory<Req, Config: Drop, Error: NoMemory, InitError: NoMemory>,
    F: Fn(A::Response) -> Res + Drop,
{
    type Response = Res;

    type Error = A::Error;

    type Config = A::Config;

    type Service = Map<A::Service, F, Req, Res>;

    type InitError = A::InitError;

    type Future = MapServiceFuture<A::Future, F, Req, Res>;

    ghost can_make = { λ m. A.can_make (map_factory m) × F.IsAlwaysCallable (map_factory_closure m) };

    ghost may = { MapMakes A.ServiceFactory F.post A.Error.refusal };

    ghost may_ready = { λ m c. A.may_ready (map_factory m) c };

    ghost may_begin = { λ m c q f. GivesOnly ⟦<MapFuture<<<A as ServiceFactory<Req>>::Service as Service<Req>>::Future, F> as Future>⟧ f
        (MapMakes A.ServiceFactory F.post A.Error.refusal m c q) };

    ghost may_init = { λ m c e. A.may_init (map_factory m) c e ⊎ (e ≡ A.InitError.refusal) };

    ghost may_make = { λ m c. A.may_make (map_factory m) c };

    ghost begun_gives = { λ m c q f begun. begun };

    fn new_service(&self, cfg: A::Config) -> MapServiceFuture<A::Future, F, Req, Res> {
        match Arc::try_clone(&self.f) {
            Ok(f) => MapServiceFuture {
                making: Making::of(self.factory.new_service(cfg), f),
                types: PhantomData,
            },
            Err(_) => MapServiceFuture::refused(),
        }
    }
}
