//! The next request head of a connection.
ghost use Rattle.std.specs.Prelude.{◌≡◌, ◌≤◌, ℕ, List, None, length, drop, count_by, IfOk};
ghost use Rattle.http1_grammar.specs.Lines.{empty_line, is_line_feed};
ghost use Rattle.http1_grammar.specs.Next.{judge, next_head, next};
ghost use Rattle.http1_head.specs.Passing.{HasSeen, LooksAtAll};
ghost use Rattle.http1_head.specs.Steps.{step_of, IsWithin, FramesBody};

use crate::fields::Fields;
use crate::framing::Framing;
use crate::head::read_head;
use crate::read_head::ReadHead;
use crate::scan::{empty_lines, head_size_from};
use http1_plain::Limits;
use std::alloc::{AllocError, Global};

/// How the body behind a head is framed (RFC 9112, section 6).
#[derive(Clone, Copy, Debug, PartialEq, Eq)]
pub enum BodyFraming {
    /// So many bytes, which may be none.
    Sized(usize),
    /// Chunks.
    Chunked,
}

/// What the bytes at the front of a connection are.
#[derive(Drop)]
pub enum NextHead {
    /// More bytes decide it.
    Nothing,
    /// The connection is answered this status, and closed.
    Refused(u16),
    /// A head with what it asks, how its body is framed, and how many bytes it took.
    Found(ReadHead, BodyFraming, usize),
}

const MOST_LINES: usize = 98;

// The step of a head's text of so many lines, which ends after so many bytes.
fn judge(
    alloc: Global,
    limits: Limits,
    text: &[u8],
    lines: usize,
    used: usize,
) -> Result<NextHead, AllocError>
    requires lines { lines ≡ count_by is_line_feed text.now }
    requires size { length text.now ≤ 65535 }
    requires begins { empty_line text.now ≡ None }
    ensures step { (bytes : List ℕ) → IfOk result (λ found. step_of bytes found
        ≡ judge limits text.now (drop used bytes)) }
    ensures within { IfOk result (IsWithin used) }
    ensures framed { IfOk result FramesBody }
{
    if lines > MOST_LINES {
        return Ok(NextHead::Refused(431));
    }
    let Some(head) = read_head(alloc, text, lines)? else {
        return Ok(NextHead::Refused(400));
    };
    let fields = Fields::of(&head.headers);
    let framing = fields.framing(head.version, limits.body());
    let asks = fields.asks(head.version);
    let head = ReadHead::new(head, asks);
    match framing {
        Framing::Empty => Ok(NextHead::Found(head, BodyFraming::Sized(0), used)),
        Framing::Sized(size) => Ok(NextHead::Found(head, BodyFraming::Sized(size), used)),
        Framing::Chunked => Ok(NextHead::Found(head, BodyFraming::Chunked, used)),
        Framing::TooLarge => Ok(NextHead::Refused(413)),
        Framing::Faulty => Ok(NextHead::Refused(400)),
    }
}

/// Cuts the head (RFC 9112, section 3) from bytes with no empty line before it, of which so many were looked at before, or
/// errs where memory ran out.
pub fn head_at_front(
    alloc: Global,
    limits: Limits,
    text: &[u8],
    seen: usize,
) -> Result<NextHead, AllocError>
    requires begins { empty_line text.now ≡ None }
    requires seen { HasSeen limits text.now seen }
    ensures step { IfOk result (λ found. step_of text.now found ≡ next_head limits text.now) }
    ensures within { IfOk result (IsWithin (length text.now)) }
    ensures framed { IfOk result FramesBody }
    ensures looks { IfOk result (LooksAtAll limits text.now) }
{
    let most = limits.head();
    if text == b"\r".as_slice() {
        return Ok(NextHead::Nothing);
    }
    match head_size_from(&text[..most.min(text.len())], seen.saturating_sub(2)) {
        Some(size) => judge(alloc, limits, &text[..size.len], size.lines, size.len),
        None => {
            if text.len() >= most {
                Ok(NextHead::Refused(431))
            } else {
                Ok(NextHead::Nothing)
            }
        }
    }
}

/// Cuts the next request head (RFC 9112, sections 2 and 3) from the bytes that were not used yet, or errs where memory ran out.
pub fn next_head(alloc: Global, limits: Limits, bytes: &[u8]) -> Result<NextHead, AllocError>
    ensures step { IfOk result (λ found. step_of bytes.now found ≡ next limits bytes.now) }
    ensures within { IfOk result (IsWithin (length bytes.now)) }
    ensures framed { IfOk result FramesBody }
{
    let skipped = empty_lines(bytes);
    match head_at_front(alloc, limits, &bytes[skipped..], 0)? {
        NextHead::Nothing => Ok(NextHead::Nothing),
        NextHead::Refused(status) => Ok(NextHead::Refused(status)),
        NextHead::Found(head, body, used) => Ok(NextHead::Found(head, body, skipped + used)),
    }
}
