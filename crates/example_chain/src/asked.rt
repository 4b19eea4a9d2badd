//! The requests.
use http::method::Method;
use http_header::ORIGIN;
use http1_plain::{FieldValue, HttpVersion, Request, RequestHead, RequestHeaders};
use service_core::{Octets, Peer};
use std::alloc::{AllocError, Global};

// A GET of `/` with the headers.
fn get(alloc: Global, headers: RequestHeaders) -> Result<Request, AllocError> {
    match Octets::of(alloc, b"/") {
        Ok(target) => Ok(Request {
            head: RequestHead {
                method: Method::GET,
                target,
                version: HttpVersion::Http11,
                headers,
            },
            body: Octets::new(alloc),
            peer: Peer::Local,
        }),
        Err(error) => Err(error),
    }
}

// The headers go on with the origin.
fn put_shop(alloc: Global, headers: &mut RequestHeaders) -> Result<(), AllocError> {
    match FieldValue::of_field_bytes(alloc, b"https://shop.example") {
        Ok(origin) => headers.append(&ORIGIN, &origin),
        Err(error) => Err(error),
    }
}

/// What a browser asks for a page of `https://shop.example`.
pub fn of_the_shop(alloc: Global) -> Result<Request, AllocError> {
    let mut headers = RequestHeaders::new(alloc);
    match put_shop(alloc, &mut headers) {
        Ok(()) => get(alloc, headers),
        Err(error) => Err(error),
    }
}

/// A request that names no origin.
pub fn of_no_origin(alloc: Global) -> Result<Request, AllocError> {
    get(alloc, RequestHeaders::new(alloc))
}
