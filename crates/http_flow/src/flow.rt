ghost use Rattle.futures.specs.Poll.{OnPending};
ghost use Rattle.futures.specs.Task.{IsArmed, Keeps};
ghost use Rattle.service_core.specs.Meaning.{Within};
ghost use Rattle.http_flow.specs.Creating.{MadeInOrder, OfPart};
ghost use Rattle.http_flow.specs.Making.{Promises};
ghost use Rattle.http_flow.specs.Readying.{OrReady, ReadyInOrder};

use crate::part::{begin, begin_some};
use crate::{Framed, HttpFlowFuture, ReadyFault};
use futures::Future;
use futures::task::{Context, Poll};
use http1_plain::Request;
use service_core::{Service, ServiceFactory};

/// What serves a connection, or makes what does (actix-http, `HttpFlow`).
#[derive(Drop)]
pub struct HttpFlow<S, X, U> {
    /// It answers requests.
    pub service: S,
    /// It says whether the body of a request may come that waits for that.
    pub expect: X,
    /// It takes over the links of connections that ask for another protocol.
    pub upgrade: Option<U>,
}

impl<S, X, U> HttpFlow<S, X, U> {
    /// Whether a request may be served now: the readiness of the first service that is not ready, in the order expect, service,
    /// upgrade (actix-http, `HttpServiceHandler::_poll_ready`).
    pub fn poll_ready<L>(
        &self,
        cx: &mut Context<'_>,
    ) -> Poll<Result<(), ReadyFault<S::Error, X::Error, U::Error>>>
    where
        S: Service<Request>,
        X: Service<Request>,
        U: Service<(Request, Framed<L>)>,
        requires service { S.can_call self.now.service }
        requires expect { X.can_call self.now.expect }
        requires upgrade { OfPart self.now.upgrade U.can_call }
        ensures answer { ReadyInOrder (S.may_ready self.now.service) (X.may_ready self.now.expect)
            (OrReady self.now.upgrade U.may_ready) result }
        ensures armed { OnPending result (IsArmed cx.new) }
        ensures kept { Keeps cx.old cx.new }
    {
        match self.expect.poll_ready(cx) {
            Poll::Pending => Poll::Pending,
            Poll::Ready(Err(e)) => Poll::Ready(Err(ReadyFault::Expect(e))),
            Poll::Ready(Ok(())) => match self.service.poll_ready(cx) {
                Poll::Pending => Poll::Pending,
                Poll::Ready(Err(e)) => Poll::Ready(Err(ReadyFault::Service(e))),
                Poll::Ready(Ok(())) => match part_ready(&self.upgrade, cx) {
                    Poll::Pending => Poll::Pending,
                    Poll::Ready(Err(e)) => Poll::Ready(Err(ReadyFault::Upgrade(e))),
                    Poll::Ready(Ok(())) => Poll::Ready(Ok(())),
                },
            },
        }
    }

    /// Begins to make the services of a connection: the expect service, the upgrade service, and the service of requests
    /// (actix-http, `H1Service::new_service`).
    pub fn make<L>(&self) -> HttpFlowFuture<L, S, X, U>
    where
        S: ServiceFactory<Request, Config = (), Service: Drop>,
        X: ServiceFactory<Request, Config = (), Service: Drop>,
        U: ServiceFactory<(Request, Framed<L>), Config = (), Service: Drop>,
        requires service { S.can_make self.now.service }
        requires expect { X.can_make self.now.expect }
        requires upgrade { OfPart self.now.upgrade U.can_make }
        ensures pollable { ⟦<HttpFlowFuture<L, S, X, U> as Future>⟧.can_poll result }
        ensures made { Within (⟦<HttpFlowFuture<L, S, X, U> as Future>⟧.gives result) (MadeInOrder
            (Promises S.ServiceFactory S.Service.Service self.now.service tt)
            (Promises X.ServiceFactory X.Service.Service self.now.expect tt)
            (λ upgrade. Promises U.ServiceFactory U.Service.Service upgrade tt) self.now.upgrade) }
    {
        let expect = begin(&self.expect);
        let upgrade = begin_some(&self.upgrade);
        let service = begin(&self.service);
        HttpFlowFuture {
            parts: HttpFlow {
                service,
                expect,
                upgrade,
            },
        }
    }
}

// The readiness of a service that may be none: none is always ready.
fn part_ready<P, Q>(part: &Option<P>, cx: &mut Context<'_>) -> Poll<Result<(), P::Error>>
where
    P: Service<Q>,
    requires { OfPart part.now P.can_call }
    ensures answer { OrReady part.now P.may_ready result }
    ensures armed { OnPending result (IsArmed cx.new) }
    ensures kept { Keeps cx.old cx.new }
{
    match part {
        Some(part) => part.poll_ready(cx),
        None => Poll::Ready(Ok(())),
    }
}
