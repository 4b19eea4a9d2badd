//! The handler of connections.
ghost use Rattle.std.specs.Prelude.{◌≡◌, IfOk};
ghost use Rattle.futures.specs.Poll.{OnPending};
ghost use Rattle.futures.specs.Task.{IsArmed, Keeps};
ghost use Rattle.service_core.specs.Meaning.{GivesOnly};
ghost use Rattle.http1_dispatcher.specs.Dispatching.{BeginsWith};
ghost use Rattle.http_service.specs.Composed.{flow_of};
ghost use Rattle.http_service.specs.Handling.{CanServe, ReadyBy, serving_of};
ghost use Rattle.http_service.specs.Serving.{Serves, given_to};

mod services;

use crate::service_config::ServiceConfig;
use futures::Future;
use futures::task::{Context, Poll};
use http_flow::{DispatchError, Framed, Handed, HttpFlow};
use http1_dispatcher::Dispatcher;
use http1_plain::{ErrorResponse, Request, Response};
use service_core::{Link, LinkHolder, Peer, Service};
use std::alloc::{AllocError, Global};
use std::marker::{Model, PhantomData};
use std::sync::Arc;

/// Serves connections over links of the type `T` (actix-http, `HttpServiceHandler`). A contract sees its settings and its three
/// services.
#[derive(Drop)]
pub struct HttpServiceHandler<T, S, X, U> {
    pub(crate) alloc: Global,
    pub(crate) config: ServiceConfig,
    pub(crate) flow: Arc<HttpFlow<S, X, U>>,
    pub(crate) link: PhantomData<T>,
}

impl<T, S, X, U> Model for HttpServiceHandler<T, S, X, U> {
    ghost use Rattle.std.specs.Arc.{arc_value};
    ghost use Rattle.http_service.specs.Composed.{Composed};

    ghost Value = { Composed S X U };

    ghost view = { λ h. record {
      config = h.config;
      service = (arc_value h.flow).service;
      expect = (arc_value h.flow).expect;
      upgrade = (arc_value h.flow).upgrade;
    } };
}

impl<T, S: Drop, X: Drop, U: Drop> HttpServiceHandler<T, S, X, U> {
    // Serves by these settings and services, or errs where memory ran out.
    pub(crate) fn new(
        alloc: Global,
        config: ServiceConfig,
        flow: HttpFlow<S, X, U>,
    ) -> Result<HttpServiceHandler<T, S, X, U>, AllocError>
        ensures config { IfOk result (λ h. h.config ≡ config) }
        ensures flow { IfOk result (λ h. flow_of h ≡ flow) }
    {
        Ok(HttpServiceHandler {
            alloc,
            config,
            flow: Arc::new(alloc, flow)?,
            link: PhantomData,
        })
    }
}

impl<T, S, X, U> HttpServiceHandler<T, S, X, U>
where
    T: Link,
    S: Service<Request, Response = Response, Error: ErrorResponse> + Drop,
    X: Service<Request, Response = Request, Error: ErrorResponse> + Drop,
    U: Service<(Request, Framed<T>), Response = Handed<T>, Error: Drop, Future: LinkHolder<T>>
        + Drop,
{
    // Whether a connection may be served now (actix-http, `HttpServiceHandler::_poll_ready`).
    fn poll_services(
        &self,
        cx: &mut Context<'_>,
    ) -> Poll<Result<(), DispatchError<T, S::Error, X::Error, U::Error>>>
        requires { CanServe S.Service X.Service U.Service T.Link U.Future.may_stand self.now }
        ensures answer { ReadyBy S.Service X.Service U.Service self.now result }
        ensures armed { OnPending result (IsArmed cx.new) }
        ensures kept { Keeps cx.old cx.new }
    {
        match self.flow.poll_ready::<T>(cx) {
            Poll::Pending => Poll::Pending,
            Poll::Ready(Err(fault)) => Poll::Ready(Err(DispatchError::Service(fault))),
            Poll::Ready(Ok(())) => Poll::Ready(Ok(())),
        }
    }

    // Serves a connection. The peer is the one that its requests have.
    fn serve(&self, peer: Peer, link: T) -> Dispatcher<T, S, X, U>
        requires { CanServe S.Service X.Service U.Service T.Link U.Future.may_stand self.now }
        ensures gives { GivesOnly ⟦<Dispatcher<T, S, X, U> as Future>⟧ result
            (Serves T.Link (serving_of S.Service S.Error.response X.Service X.Error.response U.Service self.now) peer link) }
        ensures begins { BeginsWith (given_to (serving_of S.Service S.Error.response X.Service X.Error.response U.Service self.now) peer link)
            (flow_of self.now) result }
    {
        let limits = self.config.limits();
        let keeps_alive = self.config.keep_alive().stays_open();
        Dispatcher::new(self.alloc, &self.flow, limits, keeps_alive, peer, link)
    }
}
