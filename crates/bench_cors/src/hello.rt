//! The service that stands under the policy.
ghost use Rattle.std.specs.Prelude.{◌≡◌, ◌∷◌, [], IfOk, codes};
ghost use Rattle.service_core.specs.Meaning.{GivesOnly};

use futures::Future;
use futures::task::{Context, Poll};
use http_header::CONTENT_TYPE;
use http1_plain::{FieldValue, Request, Response};
use service_core::{Ready, Service, ready};
use std::alloc::{AllocError, Global};

/// It answers each request with `Hello world!` as plain text.
#[derive(Drop)]
pub struct Hello {
    /// Where its answers take memory.
    pub alloc: Global,
}

// The response to every request.
fn response(alloc: Global) -> Result<Response, AllocError>
    ensures { IfOk result (λ r. r ≡ record {
      status = 200;
      headers = (codes "content-type", codes "text/plain") ∷ [];
      body = codes "Hello world!";
    }) }
{
    let mut response = Response::new(alloc, 200);
    response.set_static_body(b"Hello world!");
    let value = FieldValue::from_static(alloc, b"text/plain");
    response.headers_mut().append(CONTENT_TYPE, value)?;
    Ok(response)
}

impl Service<Request> for Hello {
    type Response = Response;

    type Error = AllocError;

    type Future = Ready<Result<Response, AllocError>>;

    ghost may = { λ _ _ _. Unit {0} };

    ghost may_ready = { λ _ _. Unit {0} };

    ghost may_begin = { λ _ _ f. GivesOnly ⟦<Ready<Result<Response, AllocError>> as Future>⟧ f (λ _. Unit {0}) };

    ghost begun_gives = { λ s q f h. h };

    fn poll_ready(&self, _cx: &mut Context<'_>) -> Poll<Result<(), AllocError>> {
        Poll::Ready(Ok(()))
    }

    fn call(&self, _req: Request) -> Ready<Result<Response, AllocError>> {
        ready(response(self.alloc))
    }
}
