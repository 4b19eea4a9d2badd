//! The service of HTTP/1 connections.
ghost use Rattle.std.specs.Prelude.{◌≡◌};
ghost use Rattle.http1_dispatcher.specs.Dispatching.{BeginsWith};
ghost use Rattle.http_service.specs.Composed.{serving_expect, serving_upgrade};
ghost use Rattle.http_service.specs.Making.{CanMake, MayFail, MayMake, OfMade, ReadyByMade, serving_made};
ghost use Rattle.http_service.specs.Serving.{BeginsServing, Serves};

use crate::http_service_factory_response::HttpServiceFactoryResponse;
use crate::http_service_handler::HttpServiceHandler;
use crate::http_tcp_factory::HttpTcpFactory;
use crate::making::make;
use crate::service_config::ServiceConfig;
use futures::Future;
use http_flow::{
    DispatchError, ExpectHandler, Framed, Handed, HttpFlow, HttpInitError, UpgradeHandler,
};
use http1_dispatcher::Dispatcher;
use http1_plain::{ErrorResponse, Request, Response};
use service_core::{Ended, Link, LinkHolder, Peer, Service, ServiceFactory};
use std::alloc::Global;
use std::marker::{Model, PhantomData};

/// The handler of connections of HTTP/1 (actix-http, `H1ServiceHandler`).
pub type H1ServiceHandler<T, S, X, U> = HttpServiceHandler<T, S, X, U>;

/// A service of HTTP/1 connections over links of the type `T` (actix-http, `H1Service`). A contract sees its settings and its three
/// factories.
#[derive(Drop)]
pub struct H1Service<T, S, X = ExpectHandler, U = UpgradeHandler> {
    pub(crate) alloc: Global,
    pub(crate) config: ServiceConfig,
    pub(crate) flow: HttpFlow<S, X, U>,
    pub(crate) link: PhantomData<T>,
}

impl<T, S, X, U> Model for H1Service<T, S, X, U> {
    ghost use Rattle.http_service.specs.Composed.{Composed};

    ghost Value = { Composed S X U };

    ghost view = { λ h. record {
      config = h.config;
      service = h.flow.service;
      expect = h.flow.expect;
      upgrade = h.flow.upgrade;
    } };
}

impl<T, S, X, U> H1Service<T, S, X, U> {
    /// Its settings.
    pub fn config(&self) -> &ServiceConfig
        ensures { result.now ≡ self.now.config }
    {
        &self.config
    }

    /// Takes this factory of the services that say whether the body of a request may come, in place of the one before
    /// (actix-http, `H1Service::expect`).
    pub fn expect<X1>(self, expect: X1) -> H1Service<T, S, X1, U>
    where
        X: Drop,
        ensures { result ≡ serving_expect self expect }
    {
        H1Service {
            alloc: self.alloc,
            config: self.config,
            flow: HttpFlow {
                service: self.flow.service,
                expect,
                upgrade: self.flow.upgrade,
            },
            link: PhantomData,
        }
    }

    /// Takes this factory of the services that take links over for another protocol, or none, in place of the one before
    /// (actix-http, `H1Service::upgrade`).
    pub fn upgrade<U1>(self, upgrade: Option<U1>) -> H1Service<T, S, X, U1>
    where
        U: Drop,
        ensures { result ≡ serving_upgrade self upgrade }
    {
        H1Service {
            alloc: self.alloc,
            config: self.config,
            flow: HttpFlow {
                service: self.flow.service,
                expect: self.flow.expect,
                upgrade,
            },
            link: PhantomData,
        }
    }

    /// The factory of the handlers of its connections (actix-http, `H1Service::tcp`).
    pub fn tcp(self) -> HttpTcpFactory<T, S, X, U>
        ensures { result ≡ self }
    {
        HttpTcpFactory {
            alloc: self.alloc,
            config: self.config,
            flow: self.flow,
            link: PhantomData,
        }
    }
}

/// The factory of handlers of connections of HTTP/1.
impl<T, S, X, U> ServiceFactory<(T, Peer)> for H1Service<T, S, X, U>
where
    T: Link,
    S: ServiceFactory<
        Request,
        Response = Response,
        Error: ErrorResponse,
        Config = (),
        Service: Drop,
    >,
    X: ServiceFactory<
        Request,
        Response = Request,
        Error: ErrorResponse,
        Config = (),
        Service: Drop,
    >,
    U: ServiceFactory<
        (Request, Framed<T>),
        Response = Handed<T>,
        Error: Drop,
        Config = (),
        Service: Service<(Request, Framed<T>), Future: LinkHolder<T>> + Drop,
    >,
{
    type Response = Ended<T>;

    type Error = DispatchError<T, S::Error, X::Error, U::Error>;

    type Config = ();

    type Service = HttpServiceHandler<T, S::Service, X::Service, U::Service>;

    type InitError = HttpInitError<S::InitError, X::InitError, U::InitError>;

    type Future = HttpServiceFactoryResponse<T, S, X, U>;

    ghost can_make = { CanMake S.ServiceFactory X.ServiceFactory U.ServiceFactory T.Link U.Service.Future.may_stand };

    ghost may = { λ f _ asked. Serves T.Link
        (serving_made S.ServiceFactory S.Error.response X.ServiceFactory X.Error.response U.ServiceFactory f)
        asked.1 asked.0 };

    ghost may_ready = { λ f _. ReadyByMade S.ServiceFactory X.ServiceFactory U.ServiceFactory f };

    ghost may_begin = { λ f _ asked. BeginsServing ⟦<Dispatcher<T, S::Service, X::Service, U::Service> as Future>⟧
        ⟦<Dispatcher<T, S::Service, X::Service, U::Service> as LinkHolder<T>>⟧.may_stand T.Link
        (serving_made S.ServiceFactory S.Error.response X.ServiceFactory X.Error.response U.ServiceFactory f)
        (λ start future. OfMade S.ServiceFactory X.ServiceFactory U.ServiceFactory S.Service.Service X.Service.Service U.Service.Service f
        (λ flow. BeginsWith start flow future)) asked.1 asked.0 };

    ghost may_init = { λ f _. MayFail S.ServiceFactory X.ServiceFactory U.ServiceFactory f };

    ghost may_make = { λ f _. MayMake S.ServiceFactory X.ServiceFactory U.ServiceFactory f };

    ghost begun_gives = { λ f _ asked future begun. begun.fits };

    fn new_service(&self, _cfg: ()) -> HttpServiceFactoryResponse<T, S, X, U> {
        make(self.alloc, self.config, &self.flow)
    }
}
