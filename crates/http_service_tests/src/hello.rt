//! The service of requests of the tests.
ghost use Rattle.std.specs.Prelude.{⊤};
ghost use Rattle.service_core.specs.Meaning.{GivesOnly};

use crate::late::Late;
use crate::mood::{Fault, Mood};
use futures::Future;
use futures::task::{Context, Poll};
use http1_plain::{Request, Response};
use service_core::{Ready, Service, ServiceFactory, ok};
use std::alloc::Global;

/// Answers each request by `hello`. It is the factory of such services too.
#[derive(Clone, Copy)]
pub(crate) struct Hello {
    pub(crate) alloc: Global,
    pub(crate) making: Mood,
    pub(crate) readiness: Mood,
}

impl Hello {
    /// Made at once, and always ready.
    pub(crate) fn new(alloc: Global) -> Hello {
        Hello {
            alloc,
            making: Mood::Fine,
            readiness: Mood::Fine,
        }
    }
}

impl Service<Request> for Hello {
    type Response = Response;

    type Error = Fault;

    type Future = Ready<Result<Response, Fault>>;

    ghost may = { λ _ _ _. ⊤ };

    ghost may_ready = { λ _ _. ⊤ };

    ghost may_begin = { λ _ _ f. GivesOnly ⟦<Ready<Result<Response, Fault>> as Future>⟧ f (λ _. ⊤) };

    ghost begun_gives = { λ _ _ _ begun. begun };

    fn poll_ready(&self, cx: &mut Context<'_>) -> Poll<Result<(), Fault>> {
        self.readiness.ready(cx)
    }

    fn call(&self, _req: Request) -> Ready<Result<Response, Fault>> {
        let mut response = Response::new(self.alloc, 200);
        response.set_static_body(b"hello");
        ok(response)
    }
}

impl ServiceFactory<Request> for Hello {
    type Response = Response;

    type Error = Fault;

    type Config = ();

    type Service = Hello;

    type InitError = Fault;

    type Future = Late<Hello>;

    ghost may = { λ _ _ _ _. ⊤ };

    ghost may_ready = { λ _ _ _. ⊤ };

    ghost may_begin = { λ _ _ _ f. GivesOnly ⟦<Ready<Result<Response, Fault>> as Future>⟧ f (λ _. ⊤) };

    ghost may_init = { λ _ _ _. ⊤ };

    ghost may_make = { λ _ _. ⊤ };

    ghost begun_gives = { λ _ _ _ _ begun. begun };

    fn new_service(&self, _cfg: ()) -> Late<Hello> {
        self.making.make(*self)
    }
}
