//! The service that echoes requests.
ghost use Rattle.std.specs.Prelude.{◌≡◌, bytes_eq, codes, if◌then◌else◌, IfOk};
ghost use Rattle.http_plain.specs.Echo.{echoed};
ghost use Rattle.http_plain.specs.Statuses.{number_of, response_of};

use crate::status::Status;
use service_core::Octets;
use std::alloc::{AllocError, Global};

fn is_missing(target: &[u8]) -> bool
    ensures { result ≡ bytes_eq target.now (codes "/none") }
{
    target == b"/none".as_slice()
}

fn is_empty(target: &[u8]) -> bool
    ensures { result ≡ bytes_eq target.now (codes "/empty") }
{
    target == b"/empty".as_slice()
}

// The status of what is not missing.
fn status_of(target: &[u8]) -> Status
    ensures { number_of result ≡ (if bytes_eq target.now (codes "/empty") then 204 else 200) }
{
    if is_empty(target) {
        Status::NoContent
    } else {
        Status::Ok
    }
}

/// The status and the body of its response to a target and a body.
pub(crate) fn echoed(
    alloc: Global,
    target: &[u8],
    body: &[u8],
) -> Result<(Status, Octets), AllocError>
    ensures { IfOk result (λ answer. response_of (number_of answer.0) answer.1 ≡ echoed target.now body.now) }
{
    if is_missing(target) {
        return Ok((Status::NotFound, Octets::new(alloc)));
    }
    let mut text = Octets::of(alloc, target)?;
    text.push_all(b"\n")?;
    text.push_all(body)?;
    Ok((status_of(target), text))
}
