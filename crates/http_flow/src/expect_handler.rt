ghost use Rattle.std.specs.Prelude.{◌≡◌, ⊤, Ok, Some};
ghost use Rattle.std.proofs.Common.{rules};
ghost use Rattle.futures.specs.declared.task.Poll.TheVariants.{Ready as PollReady};
ghost use Rattle.service_core.specs.Shown.{ready_value};

use crate::Never;
use futures::task::{Context, Poll};
use http1_plain::Request;
use service_core::{Ready, Service, ServiceFactory, ok};

/// The expect service of a connection that has none of its own: each body may come (actix-http, `h1::ExpectHandler`).
///
/// It is the factory of such services too.
#[derive(Clone, Copy, Debug)]
pub struct ExpectHandler;

impl Service<Request> for ExpectHandler {
    type Response = Request;

    type Error = Never;

    type Future = Ready<Result<Request, Never>>;

    ghost may = { λ _ q r. r ≡ Ok q };

    ghost may_ready = { λ _ answer. answer ≡ PollReady (Ok tt) };

    ghost may_begin = { λ _ q f. ready_value f ≡ Some (Ok q) };

    ghost begun_gives = { Prim.search rules };

    fn poll_ready(&self, _cx: &mut Context<'_>) -> Poll<Result<(), Never>> {
        Poll::Ready(Ok(()))
    }

    fn call(&self, req: Request) -> Ready<Result<Request, Never>> {
        ok(req)
    }
}

impl ServiceFactory<Request> for ExpectHandler {
    type Response = Request;

    type Error = Never;

    type Config = ();

    type Service = ExpectHandler;

    type InitError = Never;

    type Future = Ready<Result<ExpectHandler, Never>>;

    ghost may = { λ _ _ q r. r ≡ Ok q };

    ghost may_ready = { λ _ _ answer. answer ≡ PollReady (Ok tt) };

    ghost may_begin = { λ _ _ q f. ready_value f ≡ Some (Ok q) };

    ghost may_init = { λ _ _ _. ⊥ };

    ghost may_make = { λ _ _. ⊤ };

    ghost begun_gives = { Prim.search rules };

    fn new_service(&self, _cfg: ()) -> Ready<Result<ExpectHandler, Never>> {
        ok(*self)
    }
}
