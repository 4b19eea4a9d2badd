ghost use Rattle.std.specs.Prelude.{◌≡◌, IfOk};
ghost use Rattle.service_combine.specs.Shown.{and_then_first, and_then_second, map_closure, map_err_closure, map_err_part, map_part};

use crate::sharing::shared;
use crate::{AndThenService, Map, MapErr};
use service_core::{IntoService, Service};
use std::alloc::{AllocError, Global};
use std::marker::PhantomData;

/// The combinators of every service (`actix_service::ServiceExt`). `AllocError` comes for want of memory alone.
pub trait ServiceExt<Req>: Service<Req> {
    /// Changes the Ok responses by a closure.
    final fn map<F, R>(self, alloc: Global, f: F) -> Result<Map<Self, F, Req, R>, AllocError>
    where
        Self: Sized + Drop,
        F: Fn(Self::Response) -> R + Drop,
        ensures { IfOk result (λ m. (map_part m ≡ self) × (map_closure m ≡ f)) }
    {
        match shared(alloc, f) {
            Ok(f) => Ok(Map {
                service: self,
                f,
                types: PhantomData,
            }),
            Err(e) => Err(e),
        }
    }

    /// Changes the errors of calls and of readiness by a closure.
    final fn map_err<F, E>(self, alloc: Global, f: F) -> Result<MapErr<Self, Req, F, E>, AllocError>
    where
        Self: Sized + Drop,
        F: Fn(Self::Error) -> E + Drop,
        ensures { IfOk result (λ m. (map_err_part m ≡ self) × (map_err_closure m ≡ f)) }
    {
        match shared(alloc, f) {
            Ok(f) => Ok(MapErr {
                service: self,
                f,
                types: PhantomData,
            }),
            Err(e) => Err(e),
        }
    }

    /// Hands each Ok response to a second service.
    final fn and_then<I, S1>(
        self,
        alloc: Global,
        service: I,
    ) -> Result<AndThenService<Self, S1, Req>, AllocError>
    where
        Self: Sized + Drop,
        I: IntoService<S1, Self::Response>,
        S1: Service<Self::Response, Error = Self::Error> + Drop,
        ensures { IfOk result (λ s. (and_then_first s ≡ self) × I.turns_into service (and_then_second s)) }
    {
        match shared(alloc, (self, service.into_service())) {
            Ok(parts) => Ok(AndThenService {
                parts,
                request: PhantomData,
            }),
            Err(e) => Err(e),
        }
    }
}

impl<S: Service<Req>, Req> ServiceExt<Req> for S {}
