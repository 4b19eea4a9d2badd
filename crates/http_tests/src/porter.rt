//! The expect service of the tests.
ghost use Rattle.std.specs.Prelude.{⊤, IsSome, None, Some, [], codes};
ghost use Rattle.http_tests.specs.declared.porter.Refusal.TheVariants.{Unwanted, Memory};

use futures::Future;
use futures::task::{Context, Poll};
use http1_plain::{ErrorResponse, Request, RequestHead, RequestHeaders, Response};
use service_core::{Octets, Service};
use std::alloc::{AllocError, Global};

/// Why the body of a request may not come.
#[derive(Drop)]
pub(crate) enum Refusal {
    /// It is not wanted.
    Unwanted,
    /// Memory ran out.
    Memory,
}

impl ErrorResponse for Refusal {
    ghost response = { λ e. elim e [
      | Unwanted ↦ Some (record { status = 417; headers = []; body = codes "refused" })
      | Memory ↦ None
    ] };

    fn into_response(self, alloc: Global) -> Result<Response, AllocError> {
        match self {
            Refusal::Unwanted => Response::text(alloc, 417, "refused"),
            Refusal::Memory => Err(AllocError),
        }
    }
}

/// Refuses the body of a request for `/no`. All others may come, behind one wait: those of requests for `/let` with no headers.
#[derive(Drop)]
pub(crate) struct Porter {
    pub(crate) alloc: Global,
}

// Makes it the head of the request for `/let`, with no headers.
fn redirect(alloc: Global, head: &mut RequestHead) -> Result<(), AllocError> {
    head.target = Octets::of(alloc, b"/let")?;
    head.headers = RequestHeaders::new(alloc);
    Ok(())
}

// Makes the request what is answered to it.
fn let_in(alloc: Global, req: &mut Request) -> Result<(), Refusal> {
    let unwanted: &[u8] = b"/no";
    if req.head.target.as_bytes() == unwanted {
        return Err(Refusal::Unwanted);
    }
    match redirect(alloc, &mut req.head) {
        Ok(()) => Ok(()),
        Err(_) => Err(Refusal::Memory),
    }
}

// What is answered to the request.
fn answer(alloc: Global, req: Request) -> Result<Request, Refusal> {
    let mut req = req;
    match let_in(alloc, &mut req) {
        Ok(()) => Ok(req),
        Err(refusal) => {
            drop(req);
            Err(refusal)
        }
    }
}

impl Service<Request> for Porter {
    type Response = Request;

    type Error = Refusal;

    type Future = Portal;

    ghost may = { λ _ _ _. ⊤ };

    ghost may_ready = { λ _ _. ⊤ };

    ghost may_begin = { λ _ _ f. IsSome f.answer };

    ghost begun_gives = { λ _ _ _ begun. (begun, λ _ _. tt) };

    fn poll_ready(&self, _cx: &mut Context<'_>) -> Poll<Result<(), Refusal>> {
        Poll::Ready(Ok(()))
    }

    fn call(&self, req: Request) -> Portal {
        Portal {
            answer: Some(answer(self.alloc, req)),
            waits: true,
        }
    }
}

/// Gives its answer behind one wait.
#[derive(Drop)]
pub(crate) struct Portal {
    answer: Option<Result<Request, Refusal>>,
    waits: bool,
}

impl Future for Portal {
    type Output = Result<Request, Refusal>;

    ghost can_poll = { λ f. IsSome f.answer };

    ghost gives = { λ _ _. ⊤ };

    fn poll(&mut self, cx: &mut Context<'_>) -> Poll<Result<Request, Refusal>> {
        if self.waits {
            self.waits = false;
            return cx.yield_now();
        }
        Poll::Ready(self.answer.take().unwrap())
    }
}
