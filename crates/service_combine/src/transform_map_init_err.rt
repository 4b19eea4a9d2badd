ghost use Rattle.std.specs.Prelude.{◌≡◌, ◌⊎◌, IfOk};
ghost use Rattle.service_core.specs.Meaning.{Follows};
ghost use Rattle.service_combine.specs.Same.{WrapsSame};
ghost use Rattle.service_combine.specs.Shown.{map_init_err_transform, map_init_err_transform_closure};

use crate::copies::copies;
use crate::one_stage::OneStage;
use crate::{MapErrFuture, TransformMapInitErrFuture};
use service_core::{NoMemory, Transform, Watched};
use std::alloc::AllocError;
use std::marker::PhantomData;
use std::sync::Arc;

/// Transform of `TransformExt::map_init_err`: it wraps as its transform does, and its closure changes what comes in place
/// of a wrapped service (`actix_service::TransformMapInitErr`).
#[derive(Drop)]
pub struct TransformMapInitErr<T, S, Req, F, E> {
    pub(crate) transform: T,
    pub(crate) f: Arc<F>,
    pub(crate) types: PhantomData<(S, Req, E)>,
}

impl<T: Clone, S, Req, F: Drop, E> Clone for TransformMapInitErr<T, S, Req, F, E> {
    ghost is_clone = { λ m copy. T.is_clone (map_init_err_transform m) (map_init_err_transform copy)
        × (map_init_err_transform_closure copy ≡ map_init_err_transform_closure m) };

    fn clone(&self) -> Result<TransformMapInitErr<T, S, Req, F, E>, AllocError> {
        match copies(&self.transform, &self.f) {
            Ok((transform, f)) => Ok(TransformMapInitErr {
                transform,
                f,
                types: PhantomData,
            }),
            Err(e) => Err(e),
        }
    }
}

impl<T, S, Req, F, E> TransformMapInitErr<T, S, Req, F, E>
where
    S: Drop,
    T: Transform<S, Req> + Clone,
    F: Fn(T::InitError) -> E + Drop,
    E: NoMemory,
{
    /// A copy that shares the closure. It wraps as this transform wraps, where a clone of the part wraps as the part
    /// wraps.
    pub fn clone(&self) -> Result<TransformMapInitErr<T, S, Req, F, E>, AllocError>
        ensures clone { IfOk result (⟦<TransformMapInitErr<T, S, Req, F, E> as Clone>⟧.is_clone self.now) }
        ensures meaning { IfOk result (λ copy. WrapsSame ⟦<T as Transform<S, Req>>⟧ (map_init_err_transform self.now) (map_init_err_transform copy)
            → WrapsSame ⟦<TransformMapInitErr<T, S, Req, F, E> as Transform<S, Req>>⟧ self.now copy) }
    {
        Clone::clone(self)
    }
}

impl<T, S, Req, F, E> Transform<S, Req> for TransformMapInitErr<T, S, Req, F, E>
where
    S: Drop,
    T: Transform<S, Req>,
    F: Fn(T::InitError) -> E + Drop,
    E: NoMemory,
{
    type Response = T::Response;

    type Error = T::Error;

    type Transform = T::Transform;

    type InitError = E;

    type Future = TransformMapInitErrFuture<T::Future, F>;

    ghost can_make = { λ m s. T.can_make (map_init_err_transform m) s × F.IsAlwaysCallable (map_init_err_transform_closure m) };

    ghost may = { λ m. T.may (map_init_err_transform m) };

    ghost may_ready = { λ m. T.may_ready (map_init_err_transform m) };

    ghost may_init = { λ m e. Follows (T.may_init (map_init_err_transform m)) (F.post (map_init_err_transform_closure m)) e
        ⊎ (e ≡ E.refusal) };

    ghost may_make = { λ m. T.may_make (map_init_err_transform m) };

    fn new_transform(&self, service: S) -> TransformMapInitErrFuture<T::Future, F> {
        match Arc::try_clone(&self.f) {
            Ok(f) => MapErrFuture {
                state: OneStage::Waiting {
                    future: Watched::new(self.transform.new_transform(service)),
                    f,
                },
            },
            Err(_) => MapErrFuture::refused(),
        }
    }
}
