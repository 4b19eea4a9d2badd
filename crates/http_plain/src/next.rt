//! The next request head of a connection.
ghost use Rattle.std.specs.Prelude.{◌≡◌, IfOk};
ghost use Rattle.http1_grammar.specs.Next.{judge, next, next_head};
ghost use Rattle.http_plain.specs.HandedOn.{step_by};

use crate::framing::framing;
use crate::head::Head;
use crate::lines::{count_lines, head_len, skip_empty_lines};
use crate::request_text::request_head;
use crate::status::Status;
use http1_head::Framing;
use http1_plain::Limits;
use service_core::Octets;
use std::alloc::{AllocError, Global};

/// A head and the bytes behind it, nothing where more bytes decide it, or the status that refuses it.
pub(crate) type Step = Result<Option<(Head, Octets)>, Status>;

const MOST_LINES: usize = 98;

// The step of a head's text and of the bytes behind it.
fn judge(alloc: Global, limits: Limits, text: &[u8], rest: &[u8]) -> Result<Step, AllocError>
    ensures { IfOk result (λ step. step_by step ≡ judge limits text.now rest.now) }
{
    if count_lines(text) > MOST_LINES {
        return Ok(Err(Status::FieldsTooLarge));
    }
    let Some(head) = request_head(alloc, text)? else {
        return Ok(Err(Status::BadRequest));
    };
    match framing(alloc, &head, limits.body())? {
        Framing::Empty | Framing::Sized(_) | Framing::Chunked => {
            let rest = Octets::of(alloc, rest)?;
            Ok(Ok(Some((head, rest))))
        }
        Framing::TooLarge => Ok(Err(Status::TooLarge)),
        Framing::Faulty => Ok(Err(Status::BadRequest)),
    }
}

// The step of bytes with no empty line before them.
#[tactic(auto, unfolding(http1_grammar::specs::Next::next_head))]
fn next_head(alloc: Global, limits: Limits, bytes: &[u8]) -> Result<Step, AllocError>
    ensures { IfOk result (λ step. step_by step ≡ next_head limits bytes.now) }
{
    if bytes == b"\r".as_slice() {
        return Ok(Ok(None));
    }
    let most = limits.head();
    match head_len(&bytes[..most.min(bytes.len())]) {
        Some(len) => judge(alloc, limits, &bytes[..len], &bytes[len..]),
        None => {
            if most <= bytes.len() {
                Ok(Err(Status::FieldsTooLarge))
            } else {
                Ok(Ok(None))
            }
        }
    }
}

/// The step of all bytes that were not used yet. Empty lines before a head are dropped.
#[tactic(auto, unfolding(http1_grammar::specs::Next::next))]
pub(crate) fn next(alloc: Global, limits: Limits, bytes: &[u8]) -> Result<Step, AllocError>
    ensures { IfOk result (λ step. step_by step ≡ next limits bytes.now) }
{
    next_head(alloc, limits, skip_empty_lines(bytes))
}
