//! A handler is a service of connections that say what they speak, of connections of HTTP/1, and of links.
ghost use Rattle.http1_dispatcher.specs.Dispatching.{BeginsWith};
ghost use Rattle.http_service.specs.Composed.{flow_of};
ghost use Rattle.http_service.specs.Handling.{CanServe, ReadyBy, serving_of};
ghost use Rattle.http_service.specs.Responding.{IsDispatching, IsRefusing};
ghost use Rattle.http_service.specs.Serving.{BeginsProtocol, BeginsServing, Serves, ServesProtocol};

use crate::http_service_handler::HttpServiceHandler;
use crate::http_service_handler_response::HttpServiceHandlerResponse;
use futures::Future;
use futures::task::{Context, Poll};
use http_flow::{DispatchError, Framed, Handed, Protocol};
use http1_dispatcher::Dispatcher;
use http1_plain::{ErrorResponse, Request, Response};
use service_core::{Ended, Link, LinkHolder, Peer, Service};

/// Serves connections that say what they speak (actix-http, `HttpServiceHandler`).
impl<T, S, X, U> Service<(T, Protocol, Peer)> for HttpServiceHandler<T, S, X, U>
where
    T: Link,
    S: Service<Request, Response = Response, Error: ErrorResponse> + Drop,
    X: Service<Request, Response = Request, Error: ErrorResponse> + Drop,
    U: Service<(Request, Framed<T>), Response = Handed<T>, Error: Drop, Future: LinkHolder<T>>
        + Drop,
{
    type Response = Ended<T>;

    type Error = DispatchError<T, S::Error, X::Error, U::Error>;

    type Future = HttpServiceHandlerResponse<T, S, X, U>;

    ghost can_call = { CanServe S.Service X.Service U.Service T.Link U.Future.may_stand };

    ghost may = { λ h asked. ServesProtocol T.Link
        (serving_of S.Service S.Error.response X.Service X.Error.response U.Service h)
        asked.1 asked.2 asked.0 };

    ghost may_ready = { ReadyBy S.Service X.Service U.Service };

    ghost may_begin = { λ h asked. BeginsProtocol ⟦<HttpServiceHandlerResponse<T, S, X, U> as Future>⟧
        ⟦<HttpServiceHandlerResponse<T, S, X, U> as LinkHolder<T>>⟧.may_stand T.Link
        (serving_of S.Service S.Error.response X.Service X.Error.response U.Service h)
        (λ start. IsDispatching (BeginsWith start (flow_of h))) IsRefusing asked.1 asked.2 asked.0 };

    ghost begun_gives = { λ h asked future begun. begun.fits };

    fn poll_ready(
        &self,
        cx: &mut Context<'_>,
    ) -> Poll<Result<(), DispatchError<T, S::Error, X::Error, U::Error>>> {
        self.poll_services(cx)
    }

    /// The link of a connection that speaks another protocol than HTTP/1 comes back as it was given.
    fn call(&self, asked: (T, Protocol, Peer)) -> HttpServiceHandlerResponse<T, S, X, U> {
        let (link, protocol, peer) = asked;
        match protocol {
            Protocol::Http1 => HttpServiceHandlerResponse::Dispatching(self.serve(peer, link)),
            Protocol::Http2 | Protocol::Http3 => {
                HttpServiceHandlerResponse::Unsupported(Some((protocol, link)))
            }
        }
    }
}

/// Serves connections of HTTP/1 (actix-http, `H1ServiceHandler`).
impl<T, S, X, U> Service<(T, Peer)> for HttpServiceHandler<T, S, X, U>
where
    T: Link,
    S: Service<Request, Response = Response, Error: ErrorResponse> + Drop,
    X: Service<Request, Response = Request, Error: ErrorResponse> + Drop,
    U: Service<(Request, Framed<T>), Response = Handed<T>, Error: Drop, Future: LinkHolder<T>>
        + Drop,
{
    type Response = Ended<T>;

    type Error = DispatchError<T, S::Error, X::Error, U::Error>;

    type Future = Dispatcher<T, S, X, U>;

    ghost can_call = { CanServe S.Service X.Service U.Service T.Link U.Future.may_stand };

    ghost may = { λ h asked. Serves T.Link
        (serving_of S.Service S.Error.response X.Service X.Error.response U.Service h)
        asked.1 asked.0 };

    ghost may_ready = { ReadyBy S.Service X.Service U.Service };

    ghost may_begin = { λ h asked. BeginsServing ⟦<Dispatcher<T, S, X, U> as Future>⟧
        ⟦<Dispatcher<T, S, X, U> as LinkHolder<T>>⟧.may_stand T.Link
        (serving_of S.Service S.Error.response X.Service X.Error.response U.Service h)
        (λ start. BeginsWith start (flow_of h)) asked.1 asked.0 };

    ghost begun_gives = { λ h asked future begun. begun.fits };

    fn poll_ready(
        &self,
        cx: &mut Context<'_>,
    ) -> Poll<Result<(), DispatchError<T, S::Error, X::Error, U::Error>>> {
        self.poll_services(cx)
    }

    fn call(&self, asked: (T, Peer)) -> Dispatcher<T, S, X, U> {
        let (link, peer) = asked;
        self.serve(peer, link)
    }
}

/// Serves links. The peer of a connection is its link's.
impl<T, S, X, U> Service<T> for HttpServiceHandler<T, S, X, U>
where
    T: Link,
    S: Service<Request, Response = Response, Error: ErrorResponse> + Drop,
    X: Service<Request, Response = Request, Error: ErrorResponse> + Drop,
    U: Service<(Request, Framed<T>), Response = Handed<T>, Error: Drop, Future: LinkHolder<T>>
        + Drop,
{
    type Response = Ended<T>;

    type Error = DispatchError<T, S::Error, X::Error, U::Error>;

    type Future = Dispatcher<T, S, X, U>;

    ghost can_call = { CanServe S.Service X.Service U.Service T.Link U.Future.may_stand };

    ghost may = { λ h link. Serves T.Link
        (serving_of S.Service S.Error.response X.Service X.Error.response U.Service h)
        (T.identity link).peer link };

    ghost may_ready = { ReadyBy S.Service X.Service U.Service };

    ghost may_begin = { λ h link. BeginsServing ⟦<Dispatcher<T, S, X, U> as Future>⟧
        ⟦<Dispatcher<T, S, X, U> as LinkHolder<T>>⟧.may_stand T.Link
        (serving_of S.Service S.Error.response X.Service X.Error.response U.Service h)
        (λ start. BeginsWith start (flow_of h)) (T.identity link).peer link };

    ghost begun_gives = { λ h link future begun. begun.fits };

    fn poll_ready(
        &self,
        cx: &mut Context<'_>,
    ) -> Poll<Result<(), DispatchError<T, S::Error, X::Error, U::Error>>> {
        self.poll_services(cx)
    }

    fn call(&self, link: T) -> Dispatcher<T, S, X, U> {
        self.serve(link.peer(), link)
    }
}
