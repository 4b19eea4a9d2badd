//! The builder of services of connections.
ghost use Rattle.std.specs.Prelude.{◌≡◌, IsSomeAnd};
ghost use Rattle.http_service.specs.Composed.{fresh, with_expect, with_upgrade, composed};

mod settings;

use crate::h1_service::H1Service;
use crate::service::HttpService;
use crate::service_config::ServiceConfig;
use http_flow::{ExpectHandler, Framed, HttpFlow, UpgradeHandler};
use http1_plain::Request;
use service_core::{IntoServiceFactory, ServiceFactory};
use std::alloc::Global;
use std::marker::{Model, PhantomData};

/// A builder of services of connections over links of the type `T` (actix-http, `HttpServiceBuilder`). A contract sees its
/// settings and its factories of expect and upgrade services.
#[derive(Drop)]
pub struct HttpServiceBuilder<T, S, X = ExpectHandler, U = UpgradeHandler> {
    pub(crate) alloc: Global,
    pub(crate) config: ServiceConfig,
    pub(crate) expect: X,
    pub(crate) upgrade: Option<U>,
    pub(crate) types: PhantomData<(T, S)>,
}

impl<T, S, X, U> Model for HttpServiceBuilder<T, S, X, U> {
    ghost use Rattle.http_service.specs.Composed.{Building};

    ghost Value = { Building X U };

    ghost view = { λ b. record { config = b.config; expect = b.expect; upgrade = b.upgrade } };
}

impl<T, S> HttpServiceBuilder<T, S, ExpectHandler, UpgradeHandler> {
    /// Nothing is set (actix-http, `HttpServiceBuilder::default`).
    pub fn default(alloc: Global) -> HttpServiceBuilder<T, S, ExpectHandler, UpgradeHandler>
        ensures { result ≡ fresh }
    {
        HttpServiceBuilder {
            alloc,
            config: ServiceConfig::default(),
            expect: ExpectHandler,
            upgrade: None,
            types: PhantomData,
        }
    }
}

impl<T, S, X, U> HttpServiceBuilder<T, S, X, U> {
    /// Takes this factory of the services that say whether the body of a request may come, in place of the one before
    /// (actix-http, `HttpServiceBuilder::expect`).
    pub fn expect<F, X1>(self, expect: F) -> HttpServiceBuilder<T, S, X1, U>
    where
        F: IntoServiceFactory<X1, Request>,
        X1: ServiceFactory<Request>,
        X: Drop,
        ensures factory { F.turns_into expect result.expect }
        ensures rest { result ≡ with_expect self result.expect }
    {
        HttpServiceBuilder {
            alloc: self.alloc,
            config: self.config,
            expect: expect.into_factory(),
            upgrade: self.upgrade,
            types: PhantomData,
        }
    }

    /// Takes this factory of the services that take links over for another protocol, in place of the one before
    /// (actix-http, `HttpServiceBuilder::upgrade`).
    pub fn upgrade<F, U1>(self, upgrade: F) -> HttpServiceBuilder<T, S, X, U1>
    where
        F: IntoServiceFactory<U1, (Request, Framed<T>)>,
        U1: ServiceFactory<(Request, Framed<T>)>,
        U: Drop,
        ensures factory { IsSomeAnd result.upgrade (F.turns_into upgrade) }
        ensures rest { result ≡ with_upgrade self result.upgrade }
    {
        HttpServiceBuilder {
            alloc: self.alloc,
            config: self.config,
            expect: self.expect,
            upgrade: Some(upgrade.into_factory()),
            types: PhantomData,
        }
    }

    /// The service of HTTP/1 connections, with all that was set (actix-http, `HttpServiceBuilder::h1`).
    pub fn h1<F>(self, service: F) -> H1Service<T, S, X, U>
    where
        F: IntoServiceFactory<S, Request>,
        S: ServiceFactory<Request>,
        ensures factory { F.turns_into service result.service }
        ensures rest { result ≡ composed self result.service }
    {
        H1Service {
            alloc: self.alloc,
            config: self.config,
            flow: HttpFlow {
                service: service.into_factory(),
                expect: self.expect,
                upgrade: self.upgrade,
            },
            link: PhantomData,
        }
    }

    /// The service of connections, with all that was set (actix-http, `HttpServiceBuilder::finish`).
    pub fn finish<F>(self, service: F) -> HttpService<T, S, X, U>
    where
        F: IntoServiceFactory<S, Request>,
        S: ServiceFactory<Request>,
        ensures factory { F.turns_into service result.service }
        ensures rest { result ≡ composed self result.service }
    {
        HttpService {
            alloc: self.alloc,
            config: self.config,
            flow: HttpFlow {
                service: service.into_factory(),
                expect: self.expect,
                upgrade: self.upgrade,
            },
            link: PhantomData,
        }
    }
}
