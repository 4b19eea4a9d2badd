//! A request's origin, and a copy of it.
use crate::asking::{Asked, Verb, head};
use crate::shown::hold;
use cors_policy::{copied, origin_in};
use http1_plain::{FieldValue, RequestHead};
use std::alloc::{AllocError, Global};
use std::test::Fail;

// Whether the copy is these bytes, or there is none as here.
fn is_copy(
    copy: &Result<Option<FieldValue>, AllocError>,
    wanted: Option<&[u8]>,
) -> Result<bool, AllocError> {
    match copy {
        Ok(Some(value)) => Ok(Some(value.as_bytes()) == wanted),
        Ok(None) => Ok(wanted.is_none()),
        Err(error) => Err(*error),
    }
}

fn has_origin(
    alloc: Global,
    head: &RequestHead,
    wanted: Option<&[u8]>,
) -> Result<bool, AllocError> {
    is_copy(&copied(alloc, origin_in(head)), wanted)
}

// Whether a copy of the origin of such a request is these bytes.
fn origin_is(alloc: Global, asked: Asked, wanted: Option<&[u8]>) -> Result<bool, AllocError> {
    match head(alloc, asked) {
        Ok(head) => {
            let shown = has_origin(alloc, &head, wanted);
            drop(head);
            shown
        }
        Err(error) => Err(error),
    }
}

#[test]
fn the_first_origin_of_a_request_is_copied(rt: HostRuntime) -> Result<(), Fail> {
    let alloc = rt.alloc();
    let two = [
        ("host", "x"),
        ("origin", "https://a"),
        ("origin", "https://b"),
    ];
    let first = origin_is(alloc, (Verb::Get, &two), Some(b"https://a"));
    let none = origin_is(alloc, (Verb::Get, &[("host", "x")]), None);
    hold(&rt, &[first, none])
}
