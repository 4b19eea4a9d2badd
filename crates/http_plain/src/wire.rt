//! The bytes of responses.
ghost use Rattle.std.specs.Prelude.{◌≡◌, bytes_eq, codes, IfOk};
ghost use Rattle.http1_grammar.specs.Wire.{body_part, connection_line, has_no_length, length_line, refusal, status_line, wire_of};
ghost use Rattle.http_plain.specs.Statuses.{number_of, response_of};

use crate::status::Status;
use service_core::Octets;
use std::alloc::{AllocError, Global};

fn status_line(status: Status) -> &'static [u8]
    ensures { result.now ≡ status_line (number_of status) }
{
    match status {
        Status::Ok => b"HTTP/1.1 200 OK\r\n",
        Status::NoContent => b"HTTP/1.1 204 No Content\r\n",
        Status::BadRequest => b"HTTP/1.1 400 Bad Request\r\n",
        Status::NotFound => b"HTTP/1.1 404 Not Found\r\n",
        Status::TooLarge => b"HTTP/1.1 413 Payload Too Large\r\n",
        Status::FieldsTooLarge => b"HTTP/1.1 431 Request Header Fields Too Large\r\n",
    }
}

fn has_no_length(status: Status) -> bool
    ensures { result ≡ has_no_length (number_of status) }
{
    match status {
        Status::NoContent => true,
        Status::Ok => false,
        Status::BadRequest => false,
        Status::NotFound => false,
        Status::TooLarge => false,
        Status::FieldsTooLarge => false,
    }
}

fn length_line(alloc: Global, status: Status, size: usize) -> Result<Octets, AllocError>
    ensures { IfOk result (λ line. line ≡ length_line (number_of status) size) }
{
    if has_no_length(status) {
        return Ok(Octets::new(alloc));
    }
    let line = format!(in alloc; "content-length: {size}\r\n")?;
    Octets::of(alloc, line.as_bytes())
}

#[tactic(auto, unfolding(http1_grammar::specs::Wire::connection_line))]
fn connection_line(minor: u8, closing: bool) -> &'static [u8]
    ensures { result.now ≡ connection_line minor closing }
{
    if closing {
        b"connection: close\r\n"
    } else if minor == 0 {
        b"connection: keep-alive\r\n"
    } else {
        b""
    }
}

fn body_part(answers_head: bool, status: Status, body: &[u8]) -> &[u8]
    ensures { result.now ≡ body_part answers_head (number_of status) body.now }
{
    if answers_head {
        return b"";
    }
    if has_no_length(status) { b"" } else { body }
}

fn is_head(method: &[u8]) -> bool
    ensures { result ≡ bytes_eq method.now (codes "HEAD") }
{
    method == b"HEAD".as_slice()
}

/// The response of this status and body to a request of this method and version.
pub(crate) fn wire_of(
    alloc: Global,
    method: &[u8],
    minor: u8,
    status: Status,
    body: &[u8],
    closing: bool,
) -> Result<Octets, AllocError>
    ensures { IfOk result (λ written. written
        ≡ wire_of method.now minor (response_of (number_of status) body.now) closing) }
{
    let mut written = Octets::of(alloc, status_line(status))?;
    let length = length_line(alloc, status, body.len())?;
    written.push_all(length.as_bytes())?;
    written.push_all(connection_line(minor, closing))?;
    written.push_all(b"\r\n")?;
    written.push_all(body_part(is_head(method), status, body))?;
    Ok(written)
}

/// The response that refuses a request.
#[tactic(auto, unfolding(http1_grammar::specs::Wire::refusal))]
pub(crate) fn refusal(alloc: Global, status: Status) -> Result<Octets, AllocError>
    ensures { IfOk result (λ written. written ≡ refusal (number_of status)) }
{
    wire_of(alloc, b"GET", 1, status, b"", true)
}
