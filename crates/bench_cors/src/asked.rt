//! The requests, which name what the policy was given last.
ghost use Rattle.std.specs.Prelude.{◌≤◌};

use crate::allowing::{Text, method, origin, two_headers};
use crate::failure::Failure;
use crate::kind::Kind;
use http::method::Method;
use http_header::{ACCESS_CONTROL_REQUEST_HEADERS, ACCESS_CONTROL_REQUEST_METHOD, ORIGIN};
use http1_plain::{FieldFault, FieldValue, HttpVersion, Request, RequestHead, RequestHeaders};
use service_core::{Octets, Peer};
use std::alloc::{AllocError, Global};

// At least as many bytes as the names and values of a request have here: more would be asked for where they are not enough.
const SIMPLE_BYTES: usize = 64;

const PREFLIGHT_BYTES: usize = 192;

/// What each request says.
#[derive(Drop)]
pub struct Asked {
    kind: Kind,
    origin: FieldValue,
    method: FieldValue,
    headers: FieldValue,
}

// The text as a header's value.
fn value(alloc: Global, text: &str) -> Result<FieldValue, Failure> {
    match FieldValue::new(alloc, text.as_bytes()) {
        Ok(value) => Ok(value),
        Err(FieldFault::Memory) => Err(Failure::Memory),
        Err(FieldFault::BadByte { .. }) => Err(Failure::Refused),
    }
}

// The same of a text that was made.
fn value_of(alloc: Global, text: &Text) -> Result<FieldValue, Failure> {
    match text {
        Ok(text) => value(alloc, text),
        Err(_) => Err(Failure::Memory),
    }
}

// A request with no body for `/`.
fn bare(alloc: Global, method: Method, headers: RequestHeaders) -> Result<Request, AllocError> {
    match Octets::of(alloc, b"/") {
        Ok(target) => Ok(Request {
            head: RequestHead {
                method,
                target,
                version: HttpVersion::Http11,
                headers,
            },
            body: Octets::new(alloc),
            peer: Peer::Local,
        }),
        Err(error) => Err(error),
    }
}

impl Asked {
    // By its origin and its method, with the header that has the number, and the one in the middle.
    fn by(
        alloc: Global,
        kind: Kind,
        named: (FieldValue, FieldValue),
        last: u64,
    ) -> Result<Asked, Failure> {
        match value_of(alloc, &two_headers(alloc, last, last / 2)) {
            Ok(headers) => Ok(Asked {
                kind,
                origin: named.0,
                method: named.1,
                headers,
            }),
            Err(failure) => Err(failure),
        }
    }

    // By its origin, with what has the number.
    fn of_origin(
        alloc: Global,
        kind: Kind,
        origin: FieldValue,
        last: u64,
    ) -> Result<Asked, Failure> {
        match value_of(alloc, &method(alloc, last)) {
            Ok(method) => Asked::by(alloc, kind, (origin, method), last),
            Err(failure) => Err(failure),
        }
    }

    /// For a policy of as many origins, methods and headers: the last of each, and the header in the middle.
    pub fn new(alloc: Global, kind: Kind, count: u64) -> Result<Asked, Failure>
        requires { 1 ≤ count }
    {
        let last = count - 1;
        match value_of(alloc, &origin(alloc, last)) {
            Ok(origin) => Asked::of_origin(alloc, kind, origin, last),
            Err(failure) => Err(failure),
        }
    }

    // The headers go on with the origin of a page.
    fn put_origin(&self, headers: &mut RequestHeaders) -> Result<(), AllocError> {
        headers.append(&ORIGIN, &self.origin)
    }

    // The headers go on with the origin of a page, and the method and the headers that it asks for.
    fn put_all(&self, headers: &mut RequestHeaders) -> Result<(), AllocError> {
        self.put_origin(headers)?;
        headers.append(&ACCESS_CONTROL_REQUEST_METHOD, &self.method)?;
        headers.append(&ACCESS_CONTROL_REQUEST_HEADERS, &self.headers)
    }

    // A page of the origin reads `/`.
    fn simple(&self, alloc: Global) -> Result<Request, AllocError> {
        let mut headers = RequestHeaders::with_capacity(alloc, 1, SIMPLE_BYTES)?;
        match self.put_origin(&mut headers) {
            Ok(()) => bare(alloc, Method::GET, headers),
            Err(error) => Err(error),
        }
    }

    // A page of the origin asks whether it may send the method with the headers.
    fn preflight(&self, alloc: Global) -> Result<Request, AllocError> {
        let mut headers = RequestHeaders::with_capacity(alloc, 3, PREFLIGHT_BYTES)?;
        match self.put_all(&mut headers) {
            Ok(()) => bare(alloc, Method::OPTIONS, headers),
            Err(error) => Err(error),
        }
    }

    /// The next request.
    pub fn request(&self, alloc: Global) -> Result<Request, AllocError> {
        match self.kind {
            Kind::Simple => self.simple(alloc),
            Kind::Preflight => self.preflight(alloc),
        }
    }
}
