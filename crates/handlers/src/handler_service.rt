ghost use Rattle.std.specs.Prelude.{◌≡◌, ⊤, Ok};
ghost use Rattle.futures.specs.declared.task.Poll.TheVariants.{Ready as PollReady};
ghost use Rattle.http1_plain.specs.Views.{request_of};
ghost use Rattle.service_core.specs.Meaning.{GivesOnly};
ghost use Rattle.handlers.specs.Handlers.{HandlerGives};

use crate::{HandlerFault, answer};
use futures::Future;
use futures::task::{Context, Poll};
use http1_plain::{Request, Response};
use script::Handler;
use service_core::{Ready, Service, ServiceFactory, err, ok};
use std::alloc::{AllocError, Global};

/// The service of a handler, which is always ready.
///
/// It is the factory of such services too.
#[derive(Drop)]
pub struct HandlerService {
    /// Where its responses take their memory.
    pub alloc: Global,
    /// What answers each request.
    pub handler: Handler,
}

impl Service<Request> for HandlerService {
    type Response = Response;

    type Error = HandlerFault;

    type Future = Ready<Result<Response, HandlerFault>>;

    ghost may = { λ s q r. HandlerGives s.handler (request_of q) r };

    ghost may_ready = { λ _ answer. answer ≡ PollReady (Ok tt) };

    ghost may_begin = { λ s q f. GivesOnly ⟦<Ready<Result<Response, HandlerFault>> as Future>⟧ f (HandlerGives s.handler (request_of q)) };

    ghost begun_gives = { λ s q f h. h };

    fn poll_ready(&self, _cx: &mut Context<'_>) -> Poll<Result<(), HandlerFault>> {
        Poll::Ready(Ok(()))
    }

    fn call(&self, req: Request) -> Ready<Result<Response, HandlerFault>> {
        let answered = answer(self.handler, self.alloc, &req);
        drop(req);
        match answered {
            Ok(response) => ok(response),
            Err(fault) => err(fault),
        }
    }
}

impl ServiceFactory<Request> for HandlerService {
    type Response = Response;

    type Error = HandlerFault;

    type Config = ();

    type Service = HandlerService;

    type InitError = AllocError;

    type Future = Ready<Result<HandlerService, AllocError>>;

    ghost may = { λ f _ q r. HandlerGives f.handler (request_of q) r };

    ghost may_ready = { λ _ _ answer. answer ≡ PollReady (Ok tt) };

    ghost may_begin = { λ f _ q future. GivesOnly ⟦<Ready<Result<Response, HandlerFault>> as Future>⟧ future (HandlerGives f.handler (request_of q)) };

    ghost may_init = { λ _ _ _. ⊥ };

    ghost may_make = { λ _ _. ⊤ };

    ghost begun_gives = { λ f c q future h. h };

    fn new_service(&self, _cfg: ()) -> Ready<Result<HandlerService, AllocError>> {
        ok(HandlerService {
            alloc: self.alloc,
            handler: self.handler,
        })
    }
}
