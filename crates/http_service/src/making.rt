//! The making of handlers, which is the same for each factory of them.
ghost use Rattle.service_core.specs.Meaning.{Within};
ghost use Rattle.http_service.specs.Composed.{flow_with};
ghost use Rattle.http_service.specs.Making.{CanMake, HandlesBy, MakesFlow};

use crate::http_service_factory_response::HttpServiceFactoryResponse;
use crate::service_config::ServiceConfig;
use futures::Future;
use http_flow::{Framed, Handed, HttpFlow};
use http1_plain::{ErrorResponse, Request, Response};
use service_core::{Link, LinkHolder, Service, ServiceFactory};
use std::alloc::Global;

// Begins to make a handler with these settings.
pub(crate) fn make<T, S, X, U>(
    alloc: Global,
    config: ServiceConfig,
    flow: &HttpFlow<S, X, U>,
) -> HttpServiceFactoryResponse<T, S, X, U>
where
    T: Link,
    S: ServiceFactory<
        Request,
        Response = Response,
        Error: ErrorResponse,
        Config = (),
        Service: Drop,
    >,
    X: ServiceFactory<
        Request,
        Response = Request,
        Error: ErrorResponse,
        Config = (),
        Service: Drop,
    >,
    U: ServiceFactory<
        (Request, Framed<T>),
        Response = Handed<T>,
        Error: Drop,
        Config = (),
        Service: Service<(Request, Framed<T>), Future: LinkHolder<T>> + Drop,
    >,
    requires { CanMake S.ServiceFactory X.ServiceFactory U.ServiceFactory T.Link U.Service.Future.may_stand
        (flow_with config flow.now) }
    ensures pollable { ⟦<HttpServiceFactoryResponse<T, S, X, U> as Future>⟧.can_poll result }
    ensures made { Within (⟦<HttpServiceFactoryResponse<T, S, X, U> as Future>⟧.gives result) (HandlesBy config
        (MakesFlow S.ServiceFactory X.ServiceFactory U.ServiceFactory S.Service.Service X.Service.Service U.Service.Service
        (flow_with config flow.now))) }
{
    HttpServiceFactoryResponse {
        alloc,
        config,
        making: flow.make(),
    }
}
