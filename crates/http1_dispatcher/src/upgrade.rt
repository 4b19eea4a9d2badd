ghost use Rattle.std.specs.Prelude.{◌≡◌, Ok};
ghost use Rattle.std.specs.Arc.{arc_value};
ghost use Rattle.futures.specs.Poll.{IfReady, OnPending};
ghost use Rattle.futures.specs.Task.{IsArmed, Keeps};
ghost use Rattle.service_core.specs.Counts.{Rose};
ghost use Rattle.service_core.specs.Shown.{wait_count};
ghost use Rattle.service_core.specs.declared.ended.How.TheVariants.{Memory};
ghost use Rattle.http1_dispatcher.specs.Connecting.{MayUpgrade};
ghost use Rattle.http1_dispatcher.specs.Dispatching.{GivesBy, Goes, IsLate, MayCall, Upgrades, how_of};
ghost use Rattle.http1_dispatcher.specs.Going.{IsHandingOver};

use crate::exchange::{Exchange, Stage};
use crate::inner_dispatcher::InnerDispatcher;
use crate::terms::Terms;
use futures::Future;
use futures::task::{Context, Poll};
use http_flow::{Framed, Handed, HandedEnd};
use http1_plain::{ErrorResponse, Request, Response};
use service_core::{Ended, How, Link, LinkHolder, Octets, Service, Watched};
use std::snapshot::Snapshot;

/// A connection whose link another protocol has.
#[derive(Drop)]
pub(crate) struct Upgrade<L, S, X, U: Service<(Request, Framed<L>)>> {
    pub(crate) terms: Terms<L, S, X, U>,
    /// What the upgrade service was asked.
    pub(crate) asked: Snapshot<(Request, Framed<L>)>,
    pub(crate) future: Watched<U::Future>,
}

// How the connection has ended, by how the service that had its link was done with it.
fn how_of(end: HandedEnd) -> How
    ensures { result ≡ how_of end }
{
    match end {
        HandedEnd::Done | HandedEnd::Fault => How::Upgraded,
        HandedEnd::Memory => How::Memory,
    }
}

impl<L, S, X, U> Upgrade<L, S, X, U>
where
    L: Link,
    S: Service<Request, Response = Response, Error: ErrorResponse> + Drop,
    X: Service<Request, Response = Request, Error: ErrorResponse> + Drop,
    U: Service<(Request, Framed<L>), Response = Handed<L>, Error: Drop, Future: LinkHolder<L>>
        + Drop,
{
    /// Polls the service that has the link.
    pub(crate) fn poll(&mut self, cx: &mut Context<'_>) -> Poll<Ended<L>>
        requires { Upgrades L.Link S.Service S.Error.response X.Service X.Error.response U.Service U.Future.Future U.Future.may_stand self.old }
        ensures terms { self.new.terms ≡ self.old.terms }
        ensures gives { IfReady result (λ ended. GivesBy L.Link S.Service S.Error.response X.Service X.Error.response U.Service {A = U.Error} self.old.terms (Ok ended)) }
        ensures late { IfReady result (λ ended. IsLate ended.how) }
        ensures again { OnPending result (Upgrades L.Link S.Service S.Error.response X.Service X.Error.response U.Service U.Future.Future U.Future.may_stand self.new) }
        ensures waits { OnPending result (Rose (wait_count self.old.future) (wait_count self.new.future)) }
        ensures armed { OnPending result (IsArmed cx.new) }
        ensures kept { Keeps cx.old cx.new }
    {
        match self.future.poll(cx) {
            Poll::Pending => Poll::Pending,
            Poll::Ready(Ok(handed)) => Poll::Ready(Ended {
                link: handed.link,
                how: how_of(handed.end),
            }),
            Poll::Ready(Err(_)) => unreachable!(),
        }
    }

    /// The link as the service that has it leaves it.
    pub(crate) fn into_link(self) -> L
        requires { Upgrades L.Link S.Service S.Error.response X.Service X.Error.response U.Service U.Future.Future U.Future.may_stand self }
        ensures { GivesBy L.Link S.Service S.Error.response X.Service X.Error.response U.Service {A = U.Error} self.terms (Ok (record { link = result; how = Memory })) }
    {
        let Upgrade {
            terms: _,
            asked: _,
            future,
        } = self;
        future.into_inner().into_link()
    }
}

/// Hands the link over, with the bytes that were read behind the head.
pub(crate) fn hand_over<L, S, X, U>(inner: InnerDispatcher<L, S, X, U>) -> Upgrade<L, S, X, U>
where
    L: Link,
    S: Service<Request, Response = Response, Error: ErrorResponse> + Drop,
    X: Service<Request, Response = Request, Error: ErrorResponse> + Drop,
    U: Service<(Request, Framed<L>), Response = Handed<L>, Error: Drop, Future: LinkHolder<L>>
        + Drop,
    requires can { MayCall S.Service X.Service inner.terms }
    requires upgradable { MayUpgrade U.Service L.Link U.Future.may_stand (arc_value inner.terms.flow) }
    requires going { Goes L.Link S.Service S.Error.response S.Future.Future X.Service X.Error.response X.Future.Future inner }
    requires handing { IsHandingOver inner.exchange }
    ensures terms { result.terms ≡ inner.terms }
    ensures waits { wait_count result.future ≡ 0 }
    ensures upgrades { Upgrades L.Link S.Service S.Error.response X.Service X.Error.response U.Service U.Future.Future U.Future.may_stand result }
{
    let InnerDispatcher {
        terms,
        link,
        buffer: _,
        exchange,
        awaited: _,
        waits: _,
    } = inner;
    let Exchange {
        reader,
        out: _,
        stage,
        request: _,
    } = exchange;
    let Stage::Upgrading { head } = stage else {
        unreachable!()
    };
    let request = Request {
        head: head.into_inner(),
        body: Octets::new(terms.alloc),
        peer: terms.peer,
    };
    let asked = (
        request,
        Framed {
            link,
            unread: reader.into_unread(),
        },
    );
    let seen = Snapshot::of(&asked);
    let Some(upgrade) = &terms.flow.upgrade else {
        unreachable!()
    };
    let future = Watched::new(upgrade.call(asked));
    Upgrade {
        terms,
        asked: seen,
        future,
    }
}
