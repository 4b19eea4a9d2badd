//! The upgrade service of the tests.
ghost use Rattle.std.specs.Prelude.{◌≡◌, ⊤, Ok, Some};
ghost use Rattle.std.proofs.Common.{rules};
ghost use Rattle.http_flow.specs.Handling.{as_given, handed_by};

use crate::late::Late;
use crate::mood::{Fault, Mood};
use futures::task::{Context, Poll};
use http_flow::{Framed, Handed, Never, UpgradeHandler, UpgradeHandlerFuture};
use http1_plain::Request;
use service_core::{Link, Service, ServiceFactory};

/// Hands each link back as `UpgradeHandler` does. It is the factory of such services too.
#[derive(Clone, Copy)]
pub(crate) struct Switch {
    pub(crate) making: Mood,
    pub(crate) readiness: Mood,
}

impl<L: Link> Service<(Request, Framed<L>)> for Switch {
    type Response = Handed<L>;

    type Error = Never;

    type Future = UpgradeHandlerFuture<L>;

    ghost may = { λ _ asked r. r ≡ Ok (as_given asked) };

    ghost may_ready = { λ _ _. ⊤ };

    ghost may_begin = { λ _ asked f. handed_by f ≡ Some (as_given asked) };

    ghost begun_gives = { Prim.search rules };

    fn poll_ready(&self, cx: &mut Context<'_>) -> Poll<Result<(), Never>> {
        match self.readiness.ready(cx) {
            Poll::Pending => Poll::Pending,
            Poll::Ready(Ok(())) => Poll::Ready(Ok(())),
            Poll::Ready(Err(Fault)) => Poll::Ready(Err(Never)),
        }
    }

    fn call(&self, asked: (Request, Framed<L>)) -> UpgradeHandlerFuture<L> {
        UpgradeHandler.call(asked)
    }
}

impl<L: Link> ServiceFactory<(Request, Framed<L>)> for Switch {
    type Response = Handed<L>;

    type Error = Never;

    type Config = ();

    type Service = Switch;

    type InitError = Fault;

    type Future = Late<Switch>;

    ghost may = { λ _ _ asked r. r ≡ Ok (as_given asked) };

    ghost may_ready = { λ _ _ _. ⊤ };

    ghost may_begin = { λ _ _ asked f. handed_by f ≡ Some (as_given asked) };

    ghost may_init = { λ _ _ _. ⊤ };

    ghost may_make = { λ _ _. ⊤ };

    ghost begun_gives = { Prim.search rules };

    fn new_service(&self, _cfg: ()) -> Late<Switch> {
        self.making.make(*self)
    }
}
