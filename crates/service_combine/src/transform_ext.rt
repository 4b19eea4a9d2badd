ghost use Rattle.std.specs.Prelude.{◌≡◌, IfOk};
ghost use Rattle.service_combine.specs.Shown.{map_init_err_transform, map_init_err_transform_closure};

use crate::TransformMapInitErr;
use crate::sharing::shared;
use service_core::Transform;
use std::alloc::{AllocError, Global};
use std::marker::PhantomData;

/// The combinators of every transform (`actix_service::TransformExt`). `AllocError` comes for want of memory alone.
pub trait TransformExt<S, Req>: Transform<S, Req> {
    /// Changes what comes in place of a wrapped service by a closure.
    final fn map_init_err<F, E>(
        self,
        alloc: Global,
        f: F,
    ) -> Result<TransformMapInitErr<Self, S, Req, F, E>, AllocError>
    where
        Self: Sized + Drop,
        F: Fn(Self::InitError) -> E + Drop,
        ensures { IfOk result (λ m. (map_init_err_transform m ≡ self) × (map_init_err_transform_closure m ≡ f)) }
    {
        match shared(alloc, f) {
            Ok(f) => Ok(TransformMapInitErr {
                transform: self,
                f,
                types: PhantomData,
            }),
            Err(e) => Err(e),
        }
    }
}

impl<T: Transform<S, Req>, S, Req> TransformExt<S, Req> for T {}
