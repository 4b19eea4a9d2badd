ghost use Rattle.std.specs.Prelude.{◌≡◌, IfOk};
ghost use Rattle.service_combine.specs.Shown.{and_then_first_factory, and_then_second_factory, map_err_factory, map_err_factory_closure};
ghost use Rattle.service_combine.specs.Shown.{map_factory, map_factory_closure, map_init_err_closure, map_init_err_factory};

use crate::sharing::shared;
use crate::{AndThenServiceFactory, MapErrServiceFactory, MapInitErr, MapServiceFactory};
use service_core::{IntoServiceFactory, ServiceFactory};
use std::alloc::{AllocError, Global};
use std::marker::PhantomData;

/// The combinators of every factory (`actix_service::ServiceFactoryExt`). `AllocError` comes for want of memory alone.
pub trait ServiceFactoryExt<Req>: ServiceFactory<Req> {
    /// Changes the Ok responses of the services by a closure.
    final fn map<F, R>(
        self,
        alloc: Global,
        f: F,
    ) -> Result<MapServiceFactory<Self, F, Req, R>, AllocError>
    where
        Self: Sized + Drop,
        F: Fn(Self::Response) -> R + Drop,
        ensures { IfOk result (λ m. (map_factory m ≡ self) × (map_factory_closure m ≡ f)) }
    {
        match shared(alloc, f) {
            Ok(f) => Ok(MapServiceFactory {
                factory: self,
                f,
                types: PhantomData,
            }),
            Err(e) => Err(e),
        }
    }

    /// Changes the errors of the services' calls and of their readiness by a closure.
    final fn map_err<F, E>(
        self,
        alloc: Global,
        f: F,
    ) -> Result<MapErrServiceFactory<Self, Req, F, E>, AllocError>
    where
        Self: Sized + Drop,
        F: Fn(Self::Error) -> E + Drop,
        ensures { IfOk result (λ m. (map_err_factory m ≡ self) × (map_err_factory_closure m ≡ f)) }
    {
        match shared(alloc, f) {
            Ok(f) => Ok(MapErrServiceFactory {
                factory: self,
                f,
                types: PhantomData,
            }),
            Err(e) => Err(e),
        }
    }

    /// Changes what comes in place of a service by a closure.
    final fn map_init_err<F, E>(
        self,
        alloc: Global,
        f: F,
    ) -> Result<MapInitErr<Self, F, Req, E>, AllocError>
    where
        Self: Sized + Drop,
        F: Fn(Self::InitError) -> E + Drop,
        ensures { IfOk result (λ m. (map_init_err_factory m ≡ self) × (map_init_err_closure m ≡ f)) }
    {
        match shared(alloc, f) {
            Ok(f) => Ok(MapInitErr {
                factory: self,
                f,
                types: PhantomData,
            }),
            Err(e) => Err(e),
        }
    }

    /// Hands each Ok response to a service of a second factory. The first factory gets a clone of the configuration.
    final fn and_then<I, SF1>(
        self,
        alloc: Global,
        factory: I,
    ) -> Result<AndThenServiceFactory<Self, SF1, Req>, AllocError>
    where
        Self: Sized + Drop,
        I: IntoServiceFactory<SF1, Self::Response>,
        SF1: ServiceFactory<
            Self::Response,
            Config = Self::Config,
            Error = Self::Error,
            InitError = Self::InitError,
        >
            + Drop,
        ensures { IfOk result (λ f. (and_then_first_factory f ≡ self) × I.turns_into factory (and_then_second_factory f)) }
    {
        match shared(alloc, (self, factory.into_factory())) {
            Ok(parts) => Ok(AndThenServiceFactory {
                parts,
                alloc,
                request: PhantomData,
            }),
            Err(e) => Err(e),
        }
    }
}

impl<SF: ServiceFactory<Req>, Req> ServiceFactoryExt<Req> for SF {}
