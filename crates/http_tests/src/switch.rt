//! The upgrade service of the tests.
ghost use Rattle.std.specs.Prelude.{◌≡◌, ⊤, IsSome, Ok, refl};
ghost use Rattle.std.proofs.Common.{rules};
ghost use Rattle.service_core.specs.Holding.{OfKept};
ghost use Rattle.http_flow.specs.Upgrading.{HandsBack};
ghost use Rattle.http_flow.specs.declared.never.Never.{Never};

use crate::test_link::TestLink;
use futures::Future;
use futures::task::{Context, Poll};
use http_flow::{Framed, Handed, HandedEnd, Never};
use http1_plain::Request;
use service_core::{Link, LinkHolder, Service};

/// Writes all bytes behind the head to the link, and hands it back at once, or waits without end.
#[derive(Drop)]
pub(crate) struct Switch {
    pub(crate) waits: bool,
}

impl Service<(Request, Framed<TestLink>)> for Switch {
    type Response = Handed<TestLink>;

    type Error = Never;

    type Future = Switching;

    ghost may = { λ _ asked r. HandsBack ⟦<TestLink as Link>⟧ asked.1.link r };

    ghost may_ready = { λ _ _. ⊤ };

    ghost may_begin = { λ _ asked f. OfKept f.handed (λ handed. HandsBack {E = Never} ⟦<TestLink as Link>⟧ asked.1.link (Ok handed)) };

    ghost begun_gives = { Prim.search rules };

    fn poll_ready(&self, _cx: &mut Context<'_>) -> Poll<Result<(), Never>> {
        Poll::Ready(Ok(()))
    }

    fn call(&self, asked: (Request, Framed<TestLink>)) -> Switching {
        let (_, framed) = asked;
        let Framed { link, unread } = framed;
        let mut link = link;
        let end = match link.write_rest(unread.as_bytes()) {
            Ok(()) => HandedEnd::Done,
            Err(_) => HandedEnd::Memory,
        };
        Switching {
            handed: Some(Handed { link, end }),
            waits: self.waits,
        }
    }
}

/// Hands the link back at once, or waits without end where memory sufficed.
#[derive(Drop)]
pub(crate) struct Switching {
    handed: Option<Handed<TestLink>>,
    waits: bool,
}

impl Switching {
    // Whether all bytes were written.
    fn is_done(&self) -> bool {
        match &self.handed {
            Some(handed) => handed.end == HandedEnd::Done,
            None => false,
        }
    }
}

impl Future for Switching {
    type Output = Result<Handed<TestLink>, Never>;

    ghost can_poll = { λ f. IsSome f.handed };

    ghost gives = { λ f r. OfKept f.handed (λ handed. r ≡ Ok handed) };

    fn poll(&mut self, cx: &mut Context<'_>) -> Poll<Result<Handed<TestLink>, Never>> {
        if self.waits && self.is_done() {
            return cx.yield_now();
        }
        Poll::Ready(Ok(self.handed.take().unwrap()))
    }
}

impl LinkHolder<TestLink> for Switching {
    ghost may_stand = { λ f link. OfKept f.handed (λ handed. link ≡ handed.link) };

    ghost stands_by_gives = { λ wide narrow within link h.
        let given = within (Ok h.value) (record { value = h.value; is = h.is; holds = refl }) in
        record { value = given.value; is = given.is; holds = Prim.search rules } };

    fn into_link(self) -> TestLink {
        let Switching { handed, waits: _ } = self;
        let Handed { link, end: _ } = handed.unwrap();
        link
    }
}
