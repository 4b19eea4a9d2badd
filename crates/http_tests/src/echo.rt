//! The service of the tests.
ghost use Rattle.std.specs.Prelude.{◌≤◌, ⊤, None, Some, []};
ghost use Rattle.service_core.specs.Meaning.{GivesOnly};
ghost use Rattle.http_tests.specs.declared.echo.EchoError.TheVariants.{Missing, Memory};

use futures::Future;
use futures::task::{Context, Poll};
use http1_plain::{ErrorResponse, Request, Response};
use service_core::{Octets, Ready, Service, err, ok};
use std::alloc::{AllocError, Global};

/// Why a request has no answer of its own.
#[derive(Drop)]
pub(crate) enum EchoError {
    /// Nothing is there.
    Missing,
    /// Memory ran out.
    Memory,
}

impl ErrorResponse for EchoError {
    ghost response = { λ e. elim e [
      | Missing ↦ Some (record { status = 404; headers = []; body = [] })
      | Memory ↦ None
    ] };

    fn into_response(self, alloc: Global) -> Result<Response, AllocError> {
        match self {
            EchoError::Missing => Ok(Response::new(alloc, 404)),
            EchoError::Memory => Err(AllocError),
        }
    }
}

/// Answers each request with its target, LF and its body, `/none` with an error, and `/empty` by the status 204.
#[derive(Drop)]
pub(crate) struct Echo {
    pub(crate) alloc: Global,
}

// The target and the body, with LF between them.
fn text_of(req: &Request) -> Result<Octets, AllocError> {
    let mut text = req.head.target.copy()?;
    text.push_all(b"\n")?;
    text.push_all(req.body.as_bytes())?;
    Ok(text)
}

// The response of this status, with the text.
fn texted(alloc: Global, status: u16, req: &Request) -> Result<Response, EchoError>
    requires low { 200 ≤ status }
    requires high { status ≤ 999 }
{
    match text_of(req) {
        Ok(text) => {
            let mut response = Response::new(alloc, status);
            response.set_body(text);
            Ok(response)
        }
        Err(_) => Err(EchoError::Memory),
    }
}

fn echoed(alloc: Global, req: &Request) -> Result<Response, EchoError> {
    match req.head.target.as_bytes() {
        b"/none" => Err(EchoError::Missing),
        b"/empty" => texted(alloc, 204, req),
        _ => texted(alloc, 200, req),
    }
}

impl Service<Request> for Echo {
    type Response = Response;

    type Error = EchoError;

    type Future = Ready<Result<Response, EchoError>>;

    ghost may = { λ _ _ _. ⊤ };

    ghost may_ready = { λ _ _. ⊤ };

    ghost may_begin = { λ _ _ f. GivesOnly ⟦<Ready<Result<Response, EchoError>> as Future>⟧ f (λ _. ⊤) };

    ghost begun_gives = { λ s q f h. h };

    fn poll_ready(&self, _cx: &mut Context<'_>) -> Poll<Result<(), EchoError>> {
        Poll::Ready(Ok(()))
    }

    fn call(&self, req: Request) -> Ready<Result<Response, EchoError>> {
        match echoed(self.alloc, &req) {
            Ok(response) => ok(response),
            Err(error) => err(error),
        }
    }
}
