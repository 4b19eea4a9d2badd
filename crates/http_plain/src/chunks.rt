//! A body in chunks (RFC 9112, section 7.1).
ghost use Rattle.std.specs.Prelude.{◌≡◌, ◌≤◌, [], bytes_eq, codes, length, take, IfOk, IfSome};
ghost use Rattle.http1_grammar.specs.Body.{chunk_by, chunk_size, chunks, chunks_within, piece, sized_chunk, trailer};
ghost use Rattle.http1_grammar.specs.Lines.{empty_line, head_len, or_else};
ghost use Rattle.http_plain.specs.HandedOn.{body_of, piece_of};

use crate::body::Body;
use crate::chunk_line::chunk_size;
use crate::lines::{empty_line, head_len, position};
use crate::piece::Piece;
use crate::status::Status;
use http1_plain::Limits;
use service_core::Octets;
use std::alloc::{AllocError, Global};

// Whether the bytes begin with CR LF.
fn begins_with_crlf(bytes: &[u8]) -> bool
    ensures { result ≡ bytes_eq (take 2 bytes.now) (codes "\r\n") }
{
    match bytes {
        [b'\r', b'\n', ..] => true,
        _ => false,
    }
}

// A chunk of this size and its CR LF.
fn sized_chunk(size: usize, bytes: &[u8]) -> Piece<'_>
    ensures { piece_of result ≡ sized_chunk size bytes.now }
{
    if bytes.len() < 2 || bytes.len() - 2 < size {
        return Piece::Undecided;
    }
    if !begins_with_crlf(&bytes[size..]) {
        return Piece::Refused(Status::BadRequest);
    }
    Piece::Chunk(&bytes[..size], &bytes[size + 2..])
}

// The chunk behind its line, where there is room for so many bytes.
fn chunk_by<'a>(room: usize, line: &[u8], bytes: &'a [u8]) -> Piece<'a>
    ensures { piece_of result ≡ chunk_by room bytes.now (chunk_size line.now) }
{
    match chunk_size(line) {
        None => Piece::Refused(Status::BadRequest),
        Some(0) => Piece::Last(bytes),
        Some(size) => {
            if size > room {
                Piece::Refused(Status::TooLarge)
            } else {
                sized_chunk(size, bytes)
            }
        }
    }
}

const MOST_OF_LINE: usize = 256;

// What stands at the front, where there is room for so many bytes.
fn piece(room: usize, bytes: &[u8]) -> Piece<'_>
    ensures { piece_of result ≡ piece room bytes.now }
{
    let window = &bytes[..MOST_OF_LINE.min(bytes.len())];
    match position(b'\n', window) {
        Some(at) => chunk_by(room, &window[..at], &bytes[at + 1..]),
        None => {
            if MOST_OF_LINE <= bytes.len() {
                Piece::Refused(Status::BadRequest)
            } else {
                Piece::Undecided
            }
        }
    }
}

// How many bytes a trailer part at the front has.
fn trailer_len(bytes: &[u8]) -> Option<usize>
    ensures value { result ≡ or_else (empty_line bytes.now) (head_len bytes.now) }
    ensures within { IfSome result (λ len. len ≤ length bytes.now) }
{
    match empty_line(bytes) {
        Some(len) => Some(len),
        None => head_len(bytes),
    }
}

// The body with these data, from its trailer part on.
fn trailer(alloc: Global, limits: Limits, content: Octets, bytes: &[u8]) -> Result<Body, AllocError>
    ensures { IfOk result (λ body. body_of body ≡ trailer limits content bytes.now) }
{
    let most = limits.head();
    match trailer_len(&bytes[..most.min(bytes.len())]) {
        Some(len) => Ok(Body::Whole(content, Octets::of(alloc, &bytes[len..])?)),
        None => {
            drop(content);
            if most <= bytes.len() {
                Ok(Body::Malformed(Status::FieldsTooLarge))
            } else {
                Ok(Body::Unfinished)
            }
        }
    }
}

// The body behind these data, over at most so many pieces.
fn chunks_within(
    alloc: Global,
    count: usize,
    limits: Limits,
    mut content: Octets,
    bytes: &[u8],
) -> Result<Body, AllocError>
    ensures { IfOk result (λ body. body_of body ≡ chunks_within count limits content bytes.now) }
{
    if count == 0 {
        return Ok(Body::Unfinished);
    }
    match piece(limits.body().saturating_sub(content.len()), bytes) {
        Piece::Undecided => Ok(Body::Unfinished),
        Piece::Refused(status) => Ok(Body::Malformed(status)),
        Piece::Chunk(more, rest) => {
            content.push_all(more)?;
            chunks_within(alloc, count - 1, limits, content, rest)
        }
        Piece::Last(rest) => trailer(alloc, limits, content, rest),
    }
}

/// The body in chunks at the front of the bytes.
pub(crate) fn chunks(alloc: Global, limits: Limits, bytes: &[u8]) -> Result<Body, AllocError>
    ensures { IfOk result (λ body. body_of body ≡ chunks limits [] bytes.now) }
{
    chunks_within(alloc, bytes.len() + 1, limits, Octets::new(alloc), bytes)
}
