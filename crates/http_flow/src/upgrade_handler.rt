ghost use Rattle.std.specs.Prelude.{◌≡◌, ⊤, Ok, Some};
ghost use Rattle.std.proofs.Common.{rules};
ghost use Rattle.futures.specs.declared.task.Poll.TheVariants.{Ready as PollReady};
ghost use Rattle.http_flow.specs.Handling.{as_given, handed_by};

use crate::{Framed, Handed, HandedEnd, Never, UpgradeHandlerFuture};
use futures::task::{Context, Poll};
use http1_plain::Request;
use service_core::{Link, Ready, Service, ServiceFactory, ok};

/// An upgrade service that serves no other protocol: it hands each link back as it is (actix-http, `h1::UpgradeHandler`).
///
/// It is the factory of such services too.
#[derive(Clone, Copy, Debug)]
pub struct UpgradeHandler;

impl<L: Link> Service<(Request, Framed<L>)> for UpgradeHandler {
    type Response = Handed<L>;

    type Error = Never;

    type Future = UpgradeHandlerFuture<L>;

    ghost may = { λ _ asked r. r ≡ Ok (as_given asked) };

    ghost may_ready = { λ _ answer. answer ≡ PollReady (Ok tt) };

    ghost may_begin = { λ _ asked f. handed_by f ≡ Some (as_given asked) };

    ghost begun_gives = { Prim.search rules };

    fn poll_ready(&self, _cx: &mut Context<'_>) -> Poll<Result<(), Never>> {
        Poll::Ready(Ok(()))
    }

    fn call(&self, asked: (Request, Framed<L>)) -> UpgradeHandlerFuture<L> {
        let (_, framed) = asked;
        let Framed { link, unread: _ } = framed;
        UpgradeHandlerFuture {
            handed: Some(Handed {
                link,
                end: HandedEnd::Done,
            }),
        }
    }
}

impl<L: Link> ServiceFactory<(Request, Framed<L>)> for UpgradeHandler {
    type Response = Handed<L>;

    type Error = Never;

    type Config = ();

    type Service = UpgradeHandler;

    type InitError = Never;

    type Future = Ready<Result<UpgradeHandler, Never>>;

    ghost may = { λ _ _ asked r. r ≡ Ok (as_given asked) };

    ghost may_ready = { λ _ _ answer. answer ≡ PollReady (Ok tt) };

    ghost may_begin = { λ _ _ asked f. handed_by f ≡ Some (as_given asked) };

    ghost may_init = { λ _ _ _. ⊥ };

    ghost may_make = { λ _ _. ⊤ };

    ghost begun_gives = { Prim.search rules };

    fn new_service(&self, _cfg: ()) -> Ready<Result<UpgradeHandler, Never>> {
        ok(*self)
    }
}
