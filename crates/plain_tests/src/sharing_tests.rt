//! Values and bodies whose bytes lie in the program, in the value itself, or in memory that others share.
use crate::bytes::{empty, is as is_text};
use crate::headers::value_of;
use crate::shown::{hold, holds};
use http::method::Method;
use http1_plain::{FieldValue, HttpVersion, Response, write_response};
use service_core::Octets;
use std::alloc::{AllocError, Global};
use std::test::Fail;

// More bytes than lie in a value itself.
fn long() -> &'static [u8] {
    b"more bytes than lie in a value itself"
}

// Whether the value is of these bytes.
fn is(value: &FieldValue, bytes: &[u8]) -> bool {
    value.as_bytes() == bytes
}

// A value whose copies share its bytes.
fn shared(alloc: Global, bytes: &[u8]) -> Result<FieldValue, AllocError> {
    value_of(alloc, bytes)?.into_shared()
}

// Whether the value is of these bytes once another went behind it.
fn grows(
    copy: Result<FieldValue, AllocError>,
    more: &FieldValue,
    longer: &[u8],
) -> Result<bool, AllocError> {
    let mut value = copy?;
    value.push_value(more)?;
    let shown = is(&value, longer);
    drop(value);
    Ok(shown)
}

// Whether a copy that grows is of these bytes, and leaves the value as it was.
fn grows_alone(value: &FieldValue, bytes: &[u8], longer: &[u8]) -> Result<bool, AllocError> {
    let grown = grows(value.copy(), value, longer);
    Ok(grown? && is(value, bytes))
}

// The same of a value that is given up.
fn grow_alone(
    value: Result<FieldValue, AllocError>,
    bytes: &[u8],
    longer: &[u8],
) -> Result<bool, AllocError> {
    match value {
        Ok(value) => {
            let shown = grows_alone(&value, bytes, longer);
            drop(value);
            shown
        }
        Err(error) => Err(error),
    }
}

fn few_bytes_grow(alloc: Global) -> Result<bool, AllocError> {
    grow_alone(shared(alloc, b"gzip"), b"gzip", b"gzipgzip")
}

fn shared_bytes_grow(alloc: Global) -> Result<bool, AllocError> {
    let twice =
        b"more bytes than lie in a value itselfmore bytes than lie in a value itself".as_slice();
    grow_alone(shared(alloc, long()), long(), twice)
}

fn static_bytes_grow(alloc: Global) -> Result<bool, AllocError> {
    grow_alone(
        Ok(FieldValue::from_static(alloc, b"GET")),
        b"GET",
        b"GETGET",
    )
}

#[test]
fn a_copy_that_grows_leaves_what_it_shared(rt: HostRuntime) -> Result<(), Fail> {
    let alloc = rt.alloc();
    hold(
        &rt,
        &[
            few_bytes_grow(alloc),
            shared_bytes_grow(alloc),
            static_bytes_grow(alloc),
        ],
    )
}

// A response with a body of the program.
fn static_response(alloc: Global) -> Response {
    let mut response = Response::new(alloc, 200);
    response.set_static_body(b"Hello world!");
    response
}

fn written(alloc: Global) -> Result<Octets, AllocError> {
    let mut out = empty(alloc);
    let response = static_response(alloc);
    let wrote = write_response(
        &mut out,
        &Method::GET,
        HttpVersion::Http11,
        &response,
        false,
    );
    drop(response);
    wrote?;
    Ok(out)
}

fn a_static_body_is_written(alloc: Global) -> Result<bool, AllocError> {
    Ok(is_text(
        &written(alloc)?,
        b"HTTP/1.1 200 OK\r\ncontent-length: 12\r\n\r\nHello world!",
    ))
}

#[test]
fn a_body_of_the_program_is_written(rt: HostRuntime) -> Result<(), Fail> {
    holds(&rt, a_static_body_is_written(rt.alloc()))
}
