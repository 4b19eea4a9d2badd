ghost use Rattle.std.specs.Prelude.{◌≡◌, ◌⊎◌, IfOk};
ghost use Rattle.service_core.specs.Meaning.{Follows};
ghost use Rattle.service_combine.specs.Same.{MakesSame};
ghost use Rattle.service_combine.specs.Shown.{map_init_err_closure, map_init_err_factory};

use crate::copies::copies;
use crate::one_stage::OneStage;
use crate::{MapErrFuture, MapInitErrFuture};
use service_core::{NoMemory, ServiceFactory, Watched};
use std::alloc::AllocError;
use std::marker::PhantomData;
use std::sync::Arc;

/// Factory of `ServiceFactoryExt::map_init_err`: its services are its factory's, and its closure changes what comes in
/// place of a service (`actix_service::MapInitErr`).
#[derive(Drop)]
pub struct MapInitErr<A, F, Req, E> {
    pub(crate) factory: A,
    pub(crate) f: Arc<F>,
    pub(crate) types: PhantomData<(Req, E)>,
}

impl<A: Clone, F: Drop, Req, E> Clone for MapInitErr<A, F, Req, E> {
    ghost is_clone = { λ m copy. A.is_clone (map_init_err_factory m) (map_init_err_factory copy)
        × (map_init_err_closure copy ≡ map_init_err_closure m) };

    fn clone(&self) -> Result<MapInitErr<A, F, Req, E>, AllocError> {
        match copies(&self.factory, &self.f) {
            Ok((factory, f)) => Ok(MapInitErr {
                factory,
                f,
                types: PhantomData,
            }),
            Err(e) => Err(e),
        }
    }
}

impl<A, F, Req, E> MapInitErr<A, F, Req, E>
where
    A: ServiceFactory<Req, Config: Drop> + Clone,
    F: Fn(A::InitError) -> E + Drop,
    E: NoMemory,
{
    /// A copy that shares the closure. It makes what this factory makes, where a clone of the part makes what the part
    /// makes.
    pub fn clone(&self) -> Result<MapInitErr<A, F, Req, E>, AllocError>
        ensures clone { IfOk result (⟦<MapInitErr<A, F, Req, E> as Clone>⟧.is_clone self.now) }
        ensures meaning { IfOk result (λ copy. MakesSame A.ServiceFactory (map_init_err_factory self.now) (map_init_err_factory copy)
            → MakesSame ⟦<MapInitErr<A, F, Req, E> as ServiceFactory<Req>>⟧ self.now copy) }
    {
        Clone::clone(self)
    }
}

impl<A, F, Req, E> ServiceFactory<Req> for MapInitErr<A, F, Req, E>
where
    A: ServiceFactory<Req, Config: Drop>,
    F: Fn(A::InitError) -> E + Drop,
    E: NoMemory,
{
    type Response = A::Response;

    type Error = A::Error;

    type Config = A::Config;

    type Service = A::Service;

    type InitError = E;

    type Future = MapInitErrFuture<A::Future, F>;

    ghost can_make = { λ m. A.can_make (map_init_err_factory m) × F.IsAlwaysCallable (map_init_err_closure m) };

    ghost may = { λ m. A.may (map_init_err_factory m) };

    ghost may_ready = { λ m. A.may_ready (map_init_err_factory m) };

    ghost may_begin = { λ m. A.may_begin (map_init_err_factory m) };

    ghost may_init = { λ m c e. Follows (A.may_init (map_init_err_factory m) c) (F.post (map_init_err_closure m)) e ⊎ (e ≡ E.refusal) };

    ghost may_make = { λ m. A.may_make (map_init_err_factory m) };

    ghost begun_gives = { λ m. A.begun_gives (map_init_err_factory m) };

    fn new_service(&self, cfg: A::Config) -> MapInitErrFuture<A::Future, F> {
        match Arc::try_clone(&self.f) {
            Ok(f) => MapErrFuture {
                state: OneStage::Waiting {
                    future: Watched::new(self.factory.new_service(cfg)),
                    f,
                },
            },
            Err(_) => MapErrFuture::refused(),
        }
    }
}
