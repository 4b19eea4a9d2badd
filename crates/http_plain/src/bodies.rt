//! The bodies of requests.
ghost use Rattle.std.specs.Prelude.{◌≡◌, drop, length, take, if◌then◌else◌, nat_lt, IfOk};
ghost use Rattle.http1_grammar.specs.Body.{body, unfinished, whole};
ghost use Rattle.http_plain.specs.HandedOn.{body_of};

use crate::body::Body;
use crate::chunks::chunks;
use crate::framing::framing;
use crate::head::Head;
use crate::status::Status;
use http1_head::Framing;
use http1_plain::Limits;
use service_core::Octets;
use std::alloc::{AllocError, Global};

// The body of so many bytes.
fn sized(alloc: Global, size: usize, bytes: &[u8]) -> Result<Body, AllocError>
    ensures { IfOk result (λ found. body_of found ≡ (if nat_lt (length bytes.now) size then unfinished
        else whole (take size bytes.now) (drop size bytes.now))) }
{
    if bytes.len() < size {
        return Ok(Body::Unfinished);
    }
    let content = Octets::of(alloc, &bytes[..size])?;
    let rest = Octets::of(alloc, &bytes[size..])?;
    Ok(Body::Whole(content, rest))
}

/// The body of a request with this head, from all bytes behind it. A length is read up to how many there are: more bytes decide
/// a body that is longer.
pub(crate) fn body(
    alloc: Global,
    limits: Limits,
    head: &Head,
    bytes: &[u8],
) -> Result<Body, AllocError>
    ensures { IfOk result (λ found. body_of found ≡ body limits head.now bytes.now) }
{
    match framing(alloc, head, bytes.len())? {
        Framing::Empty => sized(alloc, 0, bytes),
        Framing::Sized(size) => sized(alloc, size, bytes),
        Framing::TooLarge => Ok(Body::Unfinished),
        Framing::Chunked => chunks(alloc, limits, bytes),
        Framing::Faulty => Ok(Body::Malformed(Status::BadRequest)),
    }
}
