//! The factory of the handlers of connections.
ghost use Rattle.std.specs.Prelude.{◌≡◌};
ghost use Rattle.http1_dispatcher.specs.Dispatching.{BeginsWith};
ghost use Rattle.http_service.specs.Making.{CanMake, MayFail, MayMake, OfMade, ReadyByMade, serving_made};
ghost use Rattle.http_service.specs.Serving.{BeginsServing, Serves};

use crate::http_service_factory_response::HttpServiceFactoryResponse;
use crate::http_service_handler::HttpServiceHandler;
use crate::making::make;
use crate::service_config::ServiceConfig;
use futures::Future;
use http_flow::{
    DispatchError, ExpectHandler, Framed, Handed, HttpFlow, HttpInitError, UpgradeHandler,
};
use http1_dispatcher::Dispatcher;
use http1_plain::{ErrorResponse, Request, Response};
use service_core::{Ended, Link, LinkHolder, Service, ServiceFactory};
use std::alloc::Global;
use std::marker::{Model, PhantomData};

/// The factory of the handlers of connections over links of the type `T`, which `tcp` makes of a service of connections. A contract
/// sees its settings and its three factories.
#[derive(Drop)]
pub struct HttpTcpFactory<T, S, X = ExpectHandler, U = UpgradeHandler> {
    pub(crate) alloc: Global,
    pub(crate) config: ServiceConfig,
    pub(crate) flow: HttpFlow<S, X, U>,
    pub(crate) link: PhantomData<T>,
}

impl<T, S, X, U> Model for HttpTcpFactory<T, S, X, U> {
    ghost use Rattle.http_service.specs.Composed.{Composed};

    ghost Value = { Composed S X U };

    ghost view = { λ h. record {
      config = h.config;
      service = h.flow.service;
      expect = h.flow.expect;
      upgrade = h.flow.upgrade;
    } };
}

impl<T, S, X, U> HttpTcpFactory<T, S, X, U> {
    /// Its settings.
    pub fn config(&self) -> &ServiceConfig
        ensures { result.now ≡ self.now.config }
    {
        &self.config
    }
}

/// The factory of handlers of links. The peer of a connection is the link's.
impl<T, S, X, U> ServiceFactory<T> for HttpTcpFactory<T, S, X, U>
where
    T: Link,
    S: ServiceFactory<
        Request,
        Response = Response,
        Error: ErrorResponse,
        Config = (),
        Service: Drop,
    >,
    X: ServiceFactory<
        Request,
        Response = Request,
        Error: ErrorResponse,
        Config = (),
        Service: Drop,
    >,
    U: ServiceFactory<
        (Request, Framed<T>),
        Response = Handed<T>,
        Error: Drop,
        Config = (),
        Service: Service<(Request, Framed<T>), Future: LinkHolder<T>> + Drop,
    >,
{
    type Response = Ended<T>;

    type Error = DispatchError<T, S::Error, X::Error, U::Error>;

    type Config = ();

    type Service = HttpServiceHandler<T, S::Service, X::Service, U::Service>;

    type InitError = HttpInitError<S::InitError, X::InitError, U::InitError>;

    type Future = HttpServiceFactoryResponse<T, S, X, U>;

    ghost can_make = { CanMake S.ServiceFactory X.ServiceFactory U.ServiceFactory T.Link U.Service.Future.may_stand };

    ghost may = { λ f _ link. Serves T.Link
        (serving_made S.ServiceFactory S.Error.response X.ServiceFactory X.Error.response U.ServiceFactory f)
        (T.identity link).peer link };

    ghost may_ready = { λ f _. ReadyByMade S.ServiceFactory X.ServiceFactory U.ServiceFactory f };

    ghost may_begin = { λ f _ link. BeginsServing ⟦<Dispatcher<T, S::Service, X::Service, U::Service> as Future>⟧
        ⟦<Dispatcher<T, S::Service, X::Service, U::Service> as LinkHolder<T>>⟧.may_stand T.Link
        (serving_made S.ServiceFactory S.Error.response X.ServiceFactory X.Error.response U.ServiceFactory f)
        (λ start future. OfMade S.ServiceFactory X.ServiceFactory U.ServiceFactory S.Service.Service X.Service.Service U.Service.Service f
        (λ flow. BeginsWith start flow future)) (T.identity link).peer link };

    ghost may_init = { λ f _. MayFail S.ServiceFactory X.ServiceFactory U.ServiceFactory f };

    ghost may_make = { λ f _. MayMake S.ServiceFactory X.ServiceFactory U.ServiceFactory f };

    ghost begun_gives = { λ f _ link future begun. begun.fits };

    fn new_service(&self, _cfg: ()) -> HttpServiceFactoryResponse<T, S, X, U> {
        make(self.alloc, self.config, &self.flow)
    }
}
