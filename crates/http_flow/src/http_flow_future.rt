ghost use Rattle.std.specs.Prelude.{⊤};
ghost use Rattle.futures.specs.Poll.{IfReady, OnPending};
ghost use Rattle.futures.specs.Task.{Covers, Keeps};
ghost use Rattle.http_flow.specs.Creating.{MadeInOrder, OfPart};
ghost use Rattle.http_flow.specs.Making.{IsLive, PartGives, PartNeeds, SomeNeeds, Waited};

use crate::part::{Part, advance_some, take_some};
use crate::{Framed, HttpFlow, HttpInitError};
use futures::Future;
use futures::task::{Context, Poll};
use http1_plain::Request;
use service_core::{Service, ServiceFactory};

/// Future of `HttpFlow::make`: the expect service is made, then the upgrade service, then the service of requests. The first
/// error is the answer (actix-http, the future of `H1Service::new_service`).
#[derive(Drop)]
pub struct HttpFlowFuture<L, S, X, U>
where
    S: ServiceFactory<Request>,
    X: ServiceFactory<Request>,
    U: ServiceFactory<(Request, Framed<L>)>,
{
    pub(crate) parts: HttpFlow<
        Part<S::Future, S::Service>,
        Part<X::Future, X::Service>,
        Part<U::Future, U::Service>,
    >,
}

impl<L, S, X, U> Future for HttpFlowFuture<L, S, X, U>
where
    S: ServiceFactory<Request, Service: Drop>,
    X: ServiceFactory<Request, Service: Drop>,
    U: ServiceFactory<(Request, Framed<L>), Service: Drop>,
{
    type Output = Result<
        HttpFlow<S::Service, X::Service, U::Service>,
        HttpInitError<S::InitError, X::InitError, U::InitError>,
    >;

    ghost can_poll = { λ m. IsLive X.Future.can_poll m.parts.expect × OfPart m.parts.upgrade (IsLive U.Future.can_poll)
        × IsLive S.Future.can_poll m.parts.service };

    ghost needs = { λ m. PartNeeds X.Future.needs m.parts.expect
        (SomeNeeds U.Future.needs m.parts.upgrade (PartNeeds S.Future.needs m.parts.service (λ _. ⊥))) };

    ghost gives = { λ m. MadeInOrder (PartGives S.Future.gives m.parts.service) (PartGives X.Future.gives m.parts.expect)
        (PartGives U.Future.gives) m.parts.upgrade };

    fn poll(
        &mut self,
        cx: &mut Context<'_>,
    ) -> Poll<
        Result<
            HttpFlow<S::Service, X::Service, U::Service>,
            HttpInitError<S::InitError, X::InitError, U::InitError>,
        >,
    >
        requires { ⟦<HttpFlowFuture<L, S, X, U> as Future>⟧.can_poll self.old }
        ensures value { IfReady result (⟦<HttpFlowFuture<L, S, X, U> as Future>⟧.gives self.old) }
        ensures again { OnPending result (⟦<HttpFlowFuture<L, S, X, U> as Future>⟧.can_poll self.new) }
        ensures same { OnPending result ((x : _) → ⟦<HttpFlowFuture<L, S, X, U> as Future>⟧.gives self.new x
            → ⟦<HttpFlowFuture<L, S, X, U> as Future>⟧.gives self.old x) }
        ensures registered { OnPending result (Covers cx.new (⟦<HttpFlowFuture<L, S, X, U> as Future>⟧.needs self.new)) }
        ensures kept { Keeps cx.old cx.new }
        ensures waited { OnPending result (Waited self.old.parts self.new.parts) }
    {
        match self.parts.expect.advance(cx) {
            Poll::Pending => Poll::Pending,
            Poll::Ready(Err(e)) => Poll::Ready(Err(HttpInitError::Expect(e))),
            Poll::Ready(Ok(())) => match advance_some(&mut self.parts.upgrade, cx) {
                Poll::Pending => Poll::Pending,
                Poll::Ready(Err(e)) => Poll::Ready(Err(HttpInitError::Upgrade(e))),
                Poll::Ready(Ok(())) => match self.parts.service.advance(cx) {
                    Poll::Pending => Poll::Pending,
                    Poll::Ready(Err(e)) => Poll::Ready(Err(HttpInitError::Service(e))),
                    Poll::Ready(Ok(())) => Poll::Ready(Ok(HttpFlow {
                        service: self.parts.service.take(),
                        expect: self.parts.expect.take(),
                        upgrade: take_some(&mut self.parts.upgrade),
                    })),
                },
            },
        }
    }
}
