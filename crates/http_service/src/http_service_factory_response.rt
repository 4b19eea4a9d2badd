//! The future of a handler that is being made.
ghost use Rattle.futures.specs.Poll.{OnPending};
ghost use Rattle.service_core.specs.Polls.{Polls};
ghost use Rattle.http_flow.specs.Making.{Waited};
ghost use Rattle.http_service.specs.Making.{HandlesBy};

use crate::http_service_handler::HttpServiceHandler;
use crate::service_config::ServiceConfig;
use futures::Future;
use futures::task::{Context, Poll};
use http_flow::{Framed, HttpFlowFuture, HttpInitError};
use http1_plain::Request;
use service_core::ServiceFactory;
use std::alloc::Global;

/// Future of a handler of connections: its services are made, the expect service, then the upgrade service, then the service of
/// requests. The first error is the answer, or that of want of memory (actix-http, the future of `HttpService::new_service`).
#[derive(Drop)]
pub struct HttpServiceFactoryResponse<T, S, X, U>
where
    S: ServiceFactory<Request>,
    X: ServiceFactory<Request>,
    U: ServiceFactory<(Request, Framed<T>)>,
{
    pub(crate) alloc: Global,
    pub(crate) config: ServiceConfig,
    pub(crate) making: HttpFlowFuture<T, S, X, U>,
}

impl<T, S, X, U> Future for HttpServiceFactoryResponse<T, S, X, U>
where
    S: ServiceFactory<Request, Service: Drop>,
    X: ServiceFactory<Request, Service: Drop>,
    U: ServiceFactory<(Request, Framed<T>), Service: Drop>,
{
    type Output = Result<
        HttpServiceHandler<T, S::Service, X::Service, U::Service>,
        HttpInitError<S::InitError, X::InitError, U::InitError>,
    >;

    ghost can_poll = { λ m. ⟦<HttpFlowFuture<T, S, X, U> as Future>⟧.can_poll m.making };

    ghost needs = { λ m. ⟦<HttpFlowFuture<T, S, X, U> as Future>⟧.needs m.making };

    ghost gives = { λ m. HandlesBy m.config (⟦<HttpFlowFuture<T, S, X, U> as Future>⟧.gives m.making) };

    fn poll(
        &mut self,
        cx: &mut Context<'_>,
    ) -> Poll<
        Result<
            HttpServiceHandler<T, S::Service, X::Service, U::Service>,
            HttpInitError<S::InitError, X::InitError, U::InitError>,
        >,
    >
        requires { ⟦<HttpServiceFactoryResponse<T, S, X, U> as Future>⟧.can_poll self.old }
        ensures polls { Polls ⟦<HttpServiceFactoryResponse<T, S, X, U> as Future>⟧ self.old self.new cx.old cx.new result }
        ensures waited { OnPending result (Waited self.old.making.parts self.new.making.parts) }
    {
        match self.making.poll(cx) {
            Poll::Pending => Poll::Pending,
            Poll::Ready(Err(e)) => Poll::Ready(Err(e)),
            Poll::Ready(Ok(flow)) => {
                match HttpServiceHandler::new(self.alloc, self.config, flow) {
                    Ok(handler) => Poll::Ready(Ok(handler)),
                    Err(_) => Poll::Ready(Err(HttpInitError::Memory)),
                }
            }
        }
    }
}
