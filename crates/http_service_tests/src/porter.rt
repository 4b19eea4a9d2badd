//! The expect service of the tests.
ghost use Rattle.std.specs.Prelude.{⊤};
ghost use Rattle.service_core.specs.Meaning.{GivesOnly};

use crate::late::Late;
use crate::mood::{Fault, Mood};
use futures::Future;
use futures::task::{Context, Poll};
use http1_plain::Request;
use service_core::{Ready, Service, ServiceFactory, ok};

/// Lets each body come. It is the factory of such services too.
#[derive(Clone, Copy)]
pub(crate) struct Porter {
    pub(crate) making: Mood,
    pub(crate) readiness: Mood,
}

impl Service<Request> for Porter {
    type Response = Request;

    type Error = Fault;

    type Future = Ready<Result<Request, Fault>>;

    ghost may = { λ _ _ _. ⊤ };

    ghost may_ready = { λ _ _. ⊤ };

    ghost may_begin = { λ _ _ f. GivesOnly ⟦<Ready<Result<Request, Fault>> as Future>⟧ f (λ _. ⊤) };

    ghost begun_gives = { λ _ _ _ begun. begun };

    fn poll_ready(&self, cx: &mut Context<'_>) -> Poll<Result<(), Fault>> {
        self.readiness.ready(cx)
    }

    fn call(&self, req: Request) -> Ready<Result<Request, Fault>> {
        ok(req)
    }
}

impl ServiceFactory<Request> for Porter {
    type Response = Request;

    type Error = Fault;

    type Config = ();

    type Service = Porter;

    type InitError = Fault;

    type Future = Late<Porter>;

    ghost may = { λ _ _ _ _. ⊤ };

    ghost may_ready = { λ _ _ _. ⊤ };

    ghost may_begin = { λ _ _ _ f. GivesOnly ⟦<Ready<Result<Request, Fault>> as Future>⟧ f (λ _. ⊤) };

    ghost may_init = { λ _ _ _. ⊤ };

    ghost may_make = { λ _ _. ⊤ };

    ghost begun_gives = { λ _ _ _ _ begun. begun };

    fn new_service(&self, _cfg: ()) -> Late<Porter> {
        self.making.make(*self)
    }
}
