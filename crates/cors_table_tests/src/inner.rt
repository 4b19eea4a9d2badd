//! The service under the policy.
ghost use Rattle.service_core.specs.Meaning.{GivesOnly};

use crate::requests::{Field, header_list, pairs};
use cors_plain::{Header, Response as Plain};
use futures::Future;
use futures::task::{Context, Poll};
use http1_plain::{ErrorResponse, HeaderList, Request, Response};
use service_core::{Octets, Ready, Service, ready};
use std::alloc::{AllocError, Global};

/// What the service gives to every request.
#[derive(Clone, Copy)]
pub(crate) struct Reply {
    pub(crate) is_error: bool,
    status: u16,
    fields: &'static [Field],
    body: &'static str,
}

pub(crate) const REPLIES: [Reply; 4] = [
    Reply {
        is_error: false,
        status: 200,
        fields: &[("Content-Type", b"text/plain")],
        body: "Hello world!",
    },
    Reply {
        is_error: false,
        status: 206,
        fields: &[
            ("X-One", b"1"),
            ("Access-Control-Allow-Origin", b"https://own.example"),
            ("Vary", b"Accept, \xe9"),
            ("Access-Control-Allow-Origin", b"*"),
            ("ETag", b"\"x\""),
            ("Access-Control-Expose-Headers", b"own"),
            ("VARY", b"Cookie"),
            ("access-control-allow-credentials", b"false"),
            ("Access-Control-Expose-Headers", b"x-one"),
            ("x-one", b"2"),
        ],
        body: "own",
    },
    Reply {
        is_error: false,
        status: 204,
        fields: &[],
        body: "",
    },
    Reply {
        is_error: true,
        status: 503,
        fields: &[("vary", b""), ("Retry-After", b"7")],
        body: "later",
    },
];

/// An empty response, where there is such a status.
pub(crate) fn empty_response(alloc: Global, status: u16) -> Result<Response, AllocError> {
    if status < 200 || status > 999 {
        return Err(AllocError);
    }
    Ok(Response::new(alloc, status))
}

fn text_response(alloc: Global, status: u16, body: &str) -> Result<Response, AllocError> {
    if status < 200 || status > 999 {
        return Err(AllocError);
    }
    Response::text(alloc, status, body)
}

/// The response gets these headers.
pub(crate) fn set_headers(
    response: &mut Response,
    headers: Result<HeaderList, AllocError>,
) -> Result<(), AllocError> {
    match headers {
        Ok(headers) => Ok(response.set_headers(headers)),
        Err(error) => Err(error),
    }
}

/// The response, where all of it was set.
pub(crate) fn once_set(
    response: Response,
    set: Result<(), AllocError>,
) -> Result<Response, AllocError> {
    match set {
        Ok(()) => Ok(response),
        Err(error) => {
            drop(response);
            Err(error)
        }
    }
}

fn with_headers(
    mut response: Response,
    headers: Result<HeaderList, AllocError>,
) -> Result<Response, AllocError> {
    let set = set_headers(&mut response, headers);
    once_set(response, set)
}

impl Reply {
    // The response as the service gives it.
    fn response(self, alloc: Global) -> Result<Response, AllocError> {
        match text_response(alloc, self.status, self.body) {
            Ok(response) => with_headers(response, header_list(alloc, self.fields)),
            Err(error) => Err(error),
        }
    }

    // What the service gives.
    fn given(self, alloc: Global) -> Result<Response, Failed> {
        match self.response(alloc) {
            Ok(response) => as_given(self.is_error, response),
            Err(_) => Err(Failed { response: None }),
        }
    }

    /// The response as the plain program is given it.
    pub(crate) fn plain(self, alloc: Global) -> Result<Plain, AllocError> {
        match pairs(alloc, self.fields) {
            Ok(headers) => plain_of(
                self.status,
                headers,
                Octets::of(alloc, self.body.as_bytes()),
            ),
            Err(error) => Err(error),
        }
    }
}

fn plain_of(
    status: u16,
    headers: Vec<Header>,
    body: Result<Octets, AllocError>,
) -> Result<Plain, AllocError> {
    match body {
        Ok(body) => Ok(Plain {
            status,
            headers,
            body,
        }),
        Err(error) => {
            drop(headers);
            Err(error)
        }
    }
}

/// An error with its response, or want of memory.
#[derive(Drop)]
pub(crate) struct Failed {
    response: Option<Response>,
}

impl ErrorResponse for Failed {
    ghost response = { λ failed. failed.response };

    fn into_response(self, _alloc: Global) -> Result<Response, AllocError> {
        match self.response {
            Some(response) => Ok(response),
            None => Err(AllocError),
        }
    }
}

// The response, or an error with it.
fn as_given(is_error: bool, response: Response) -> Result<Response, Failed> {
    if is_error {
        Err(Failed {
            response: Some(response),
        })
    } else {
        Ok(response)
    }
}

/// Gives the reply.
#[derive(Drop)]
pub(crate) struct Giving {
    pub(crate) alloc: Global,
    pub(crate) reply: Reply,
}

impl Service<Request> for Giving {
    type Response = Response;

    type Error = Failed;

    type Future = Ready<Result<Response, Failed>>;

    ghost may = { λ s q r. Unit {0} };

    ghost may_ready = { λ s a. Unit {0} };

    ghost may_begin = { λ s q f. GivesOnly ⟦<Ready<Result<Response, Failed>> as Future>⟧ f (λ _. Unit {0}) };

    ghost begun_gives = { λ s q f h. h };

    fn poll_ready(&self, _cx: &mut Context<'_>) -> Poll<Result<(), Failed>> {
        Poll::Ready(Ok(()))
    }

    fn call(&self, _req: Request) -> Ready<Result<Response, Failed>> {
        ready(self.reply.given(self.alloc))
    }
}
