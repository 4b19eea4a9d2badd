//! The service under the policies.
ghost use Rattle.std.specs.Prelude.{None};
ghost use Rattle.service_core.specs.Meaning.{GivesOnly};

use crate::asking::list_of;
use futures::Future;
use futures::task::{Context, Poll};
use http1_plain::{ErrorResponse, HeaderList, Request, Response};
use service_core::{Ready, Service, ready};
use std::alloc::{AllocError, Global};

/// 200 and `Hello world!` as plain text to every request, or else 204.
#[derive(Clone, Drop)]
pub(crate) struct Inner {
    pub(crate) alloc: Global,
    pub(crate) is_empty: bool,
}

/// Want of memory.
#[derive(Drop)]
pub(crate) struct Failed;

impl ErrorResponse for Failed {
    ghost response = { λ _. None };

    fn into_response(self, _alloc: Global) -> Result<Response, AllocError> {
        Err(AllocError)
    }
}

fn plain_text(alloc: Global) -> Result<HeaderList, AllocError> {
    list_of(alloc, &[("content-type", "text/plain")])
}

// The response, as plain text.
fn with_type(alloc: Global, mut response: Response) -> Result<Response, AllocError> {
    match plain_text(alloc) {
        Ok(headers) => {
            response.set_headers(headers);
            Ok(response)
        }
        Err(error) => {
            drop(response);
            Err(error)
        }
    }
}

fn hello(alloc: Global) -> Result<Response, AllocError> {
    match Response::text(alloc, 200, "Hello world!") {
        Ok(response) => with_type(alloc, response),
        Err(error) => Err(error),
    }
}

fn reply(alloc: Global, is_empty: bool) -> Result<Response, AllocError> {
    if is_empty {
        Ok(Response::new(alloc, 204))
    } else {
        hello(alloc)
    }
}

fn given(reply: Result<Response, AllocError>) -> Result<Response, Failed> {
    match reply {
        Ok(response) => Ok(response),
        Err(_) => Err(Failed),
    }
}

impl Service<Request> for Inner {
    type Response = Response;

    type Error = Failed;

    type Future = Ready<Result<Response, Failed>>;

    ghost may = { λ s q r. Unit {0} };

    ghost may_ready = { λ s a. Unit {0} };

    ghost may_begin = { λ s q f. GivesOnly ⟦<Ready<Result<Response, Failed>> as Future>⟧ f (λ _. Unit {0}) };

    ghost begun_gives = { λ s q f h. h };

    fn poll_ready(&self, _cx: &mut Context<'_>) -> Poll<Result<(), Failed>> {
        Poll::Ready(Ok(()))
    }

    fn call(&self, _req: Request) -> Ready<Result<Response, Failed>> {
        ready(given(reply(self.alloc, self.is_empty)))
    }
}
