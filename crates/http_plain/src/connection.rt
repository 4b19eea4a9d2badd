//! The answers to all the bytes of a connection.
ghost use Rattle.std.specs.Prelude.{◌≡◌, ◌++◌, ℕ, List, [], None, Some, if◌then◌else◌, IfOk};
ghost use Rattle.http1_grammar.specs.Answers.{Answers, answers, answers_within, bare, done, on_body, on_head, on_next, wire};
ghost use Rattle.http1_grammar.specs.Limits.{Limits};
ghost use Rattle.http1_grammar.specs.Tokens.{expects};
ghost use Rattle.http1_grammar.specs.Wire.{continue_line, refusal};
ghost use Rattle.service_core.specs.declared.peer.Peer.{Peer};
ghost use Rattle.http_plain.specs.Echo.{echoed, echoing};
ghost use Rattle.http_plain.specs.HandedOn.{body_of, step_by, turned};
ghost use Rattle.http_plain.specs.Statuses.{number_of};

use crate::bodies::body;
use crate::body::Body;
use crate::echo::echoed;
use crate::head::Head;
use crate::next::{Step, next};
use crate::status::Status;
use crate::tokens::{closes, expects};
use crate::turn::Turn;
use crate::wire::{refusal, wire_of};
use http1_plain::Limits;
use service_core::Octets;
use std::alloc::{AllocError, Global};

// The answer to a request that is whole.
fn answer(alloc: Global, head: &Head, content: &[u8], closing: bool) -> Result<Octets, AllocError>
    ensures { IfOk result (λ written. written ≡ wire head.now (echoed head.now.target content.now) closing) }
{
    let (status, text) = echoed(alloc, head.target(), content)?;
    let method = head.method();
    wire_of(
        alloc,
        method,
        head.minor(),
        status,
        text.as_bytes(),
        closing,
    )
}

// The bytes with an answer behind them.
fn with_answer(alloc: Global, before: &[u8], answer: &[u8]) -> Result<Octets, AllocError>
    ensures { IfOk result (λ written. written ≡ before.now ++ answer.now) }
{
    let mut written = Octets::of(alloc, before)?;
    written.push_all(answer)?;
    Ok(written)
}

// The bytes with the answer behind them that refuses a request.
fn on_malformed(alloc: Global, before: &[u8], status: Status) -> Result<Octets, AllocError>
    ensures { IfOk result (λ written. written ≡ before.now ++ refusal (number_of status)) }
{
    let answer = refusal(alloc, status)?;
    with_answer(alloc, before, answer.as_bytes())
}

// The bytes with the answer behind them to a request that is whole.
fn on_whole(
    alloc: Global,
    head: &Head,
    before: &[u8],
    content: &[u8],
    closing: bool,
) -> Result<Octets, AllocError>
    ensures { IfOk result (λ written. written
        ≡ before.now ++ wire head.now (echoed head.now.target content.now) closing) }
{
    let answer = answer(alloc, head, content, closing)?;
    with_answer(alloc, before, answer.as_bytes())
}

// The bytes behind the request, unless the connection closes.
fn rest_of(rest: Octets, closing: bool) -> Option<Octets>
    ensures { result ≡ (if closing then None else Some rest) }
{
    if closing { None } else { Some(rest) }
}

// The turn of a request with this head behind these bytes, from what its body reads as.
fn on_body(alloc: Global, head: &Head, before: &[u8], body: Body) -> Result<Turn, AllocError>
    ensures { IfOk result (λ turn. (limits : Limits) (peer : Peer) (answers : List ℕ → Answers)
        → turned answers turn.written turn.rest
        ≡ on_body (echoing limits) answers head.now before.now (bare head.now peer) (body_of body)) }
{
    match body {
        Body::Unfinished => Ok(Turn {
            written: Octets::of(alloc, before)?,
            rest: None,
        }),
        Body::Malformed(status) => Ok(Turn {
            written: on_malformed(alloc, before, status)?,
            rest: None,
        }),
        Body::Whole(content, rest) => {
            let closing = closes(alloc, head)?;
            let written = on_whole(alloc, head, before, content.as_bytes(), closing)?;
            Ok(Turn {
                written,
                rest: rest_of(rest, closing),
            })
        }
    }
}

const CONTINUE: &[u8] = b"HTTP/1.1 100 Continue\r\n\r\n";

// What is written before the answer.
fn before_body(alloc: Global, head: &Head) -> Result<&'static [u8], AllocError>
    ensures { IfOk result (λ before. before.now ≡ (if expects head.now then continue_line else [])) }
{
    if expects(alloc, head)? {
        Ok(CONTINUE)
    } else {
        Ok(b"")
    }
}

// The turn of a request, from its head on.
fn on_head(alloc: Global, limits: Limits, head: &Head, rest: &[u8]) -> Result<Turn, AllocError>
    ensures { IfOk result (λ turn. (peer : Peer) (answers : List ℕ → Answers)
        → turned answers turn.written turn.rest ≡ on_head (echoing limits) answers peer head.now rest.now) }
{
    let before = before_body(alloc, head)?;
    let body = body(alloc, limits, head, rest)?;
    on_body(alloc, head, before, body)
}

// The turn of a request, from the next step on.
fn on_next(alloc: Global, limits: Limits, step: Step) -> Result<Turn, AllocError>
    ensures { IfOk result (λ turn. (peer : Peer) (answers : List ℕ → Answers)
        → turned answers turn.written turn.rest ≡ on_next (echoing limits) answers peer (step_by step)) }
{
    match step {
        Ok(None) => Ok(Turn {
            written: Octets::new(alloc),
            rest: None,
        }),
        Ok(Some((head, rest))) => on_head(alloc, limits, &head, rest.as_bytes()),
        Err(status) => Ok(Turn {
            written: refusal(alloc, status)?,
            rest: None,
        }),
    }
}

// The answers to at most so many requests.
fn answers_within(
    alloc: Global,
    count: usize,
    limits: Limits,
    bytes: &[u8],
) -> Result<Octets, AllocError>
    ensures { IfOk result (λ written. (peer : Peer)
        → (written, done) ≡ answers_within count (echoing limits) peer bytes.now) }
{
    if count == 0 {
        return Ok(Octets::new(alloc));
    }
    let step = next(alloc, limits, bytes)?;
    let Turn { mut written, rest } = on_next(alloc, limits, step)?;
    let Some(rest) = rest else {
        return Ok(written);
    };
    let behind = answers_within(alloc, count - 1, limits, rest.as_bytes())?;
    written.push_all(behind.as_bytes())?;
    Ok(written)
}

/// What a connection of the service that echoes requests writes, once it was given all these bytes, by the definition.
pub fn answers(alloc: Global, limits: Limits, bytes: &[u8]) -> Result<Octets, AllocError>
    ensures { IfOk result (λ written. (peer : Peer) → (written, done) ≡ answers (echoing limits) bytes.now peer) }
{
    answers_within(alloc, bytes.len() + 1, limits, bytes)
}
