//! The head of a request, read from its text.
ghost use Rattle.std.specs.Prelude.{◌≡◌, ◌≤◌, ◌+◌, length, count_by, IfOk, option_map};
ghost use Rattle.http_header.specs.Token.{IsToken};
ghost use Rattle.httparse.specs.Grammar.{RequestHead as Tree};
ghost use Rattle.httparse.specs.Spans.{IsRequestWithin, IsRequestOf, IsRequestAt};
ghost use Rattle.http1_grammar.specs.Lines.{is_line_feed, empty_line};
ghost use Rattle.http1_grammar.specs.Head.{head_of};
ghost use Rattle.http1_grammar.specs.RequestText.{request_head};
ghost use Rattle.http1_plain.specs.Views.{minor_version, view};

use http::method::{Method, MethodError};
use http1_plain::{HttpVersion, RequestHead, RequestHeaders};
use httparse::Status;
use httparse::spans::{EMPTY_HEADER_SPAN, HeaderSpan, RequestSpans, parse_request};
use service_core::Octets;
use std::alloc::{AllocError, Global};

fn version_of(minor: u8) -> HttpVersion
    requires { minor ≤ 1 }
    ensures { minor_version result ≡ minor }
{
    if minor == 0 {
        HttpVersion::Http10
    } else {
        HttpVersion::Http11
    }
}

// The method that the bytes spell.
fn method_of(alloc: Global, bytes: &[u8]) -> Result<Method, AllocError>
    requires { IsToken bytes.now }
    ensures { IfOk result (λ method. method ≡ bytes.now) }
{
    match Method::from_bytes(alloc, bytes) {
        Ok(method) => Ok(method),
        Err(MethodError::Invalid) => unreachable!(),
        Err(MethodError::OutOfMemory) => Err(AllocError),
    }
}

// The head that the spans cover.
fn head_at(
    alloc: Global,
    text: &[u8],
    spans: &[HeaderSpan],
    found: RequestSpans,
) -> Result<RequestHead, AllocError>
    requires within { IsRequestWithin text.now spans.now found }
    requires tree { IsRequestOf text.now spans.now found }
    requires size { length text.now ≤ 65535 }
    ensures { (tree : Tree) → IsRequestAt text.now spans.now found tree
        → IfOk result (λ head. view head ≡ head_of tree) }
{
    let method = method_of(alloc, found.method.of(text))?;
    let target = Octets::of(alloc, found.path.of(text))?;
    let version = version_of(found.version);
    let headers = RequestHeaders::of_spans(alloc, text, &spans[..found.headers])?;
    Ok(RequestHead {
        method,
        target,
        version,
        headers,
    })
}

// The request head that the text is, if it is one, by way of spans that are enough for its lines.
fn read_by(
    alloc: Global,
    text: &[u8],
    spans: &mut [HeaderSpan],
) -> Result<Option<RequestHead>, AllocError>
    requires few_lines { count_by is_line_feed text.now ≤ length spans.old + 2 }
    requires size { length text.now ≤ 65535 }
    requires begins { empty_line text.now ≡ None }
    ensures { IfOk result (λ head. option_map view head ≡ option_map head_of (request_head text.now)) }
{
    match parse_request(text, spans) {
        Ok(Status::Complete(found)) => {
            if found.len == text.len() {
                Ok(Some(head_at(alloc, text, spans, found)?))
            } else {
                Ok(None)
            }
        }
        Ok(Status::Partial) => Ok(None),
        Err(_) => Ok(None),
    }
}

const FEW_HEADERS: usize = 24;

// A function clears all its spans when it begins, so a head of few lines has a function of its own.
#[inline(never)]
fn read_short(alloc: Global, text: &[u8]) -> Result<Option<RequestHead>, AllocError>
    requires few_lines { count_by is_line_feed text.now ≤ 26 }
    requires size { length text.now ≤ 65535 }
    requires begins { empty_line text.now ≡ None }
    ensures { IfOk result (λ head. option_map view head ≡ option_map head_of (request_head text.now)) }
{
    let mut spans = [EMPTY_HEADER_SPAN; FEW_HEADERS];
    read_by(alloc, text, &mut spans)
}

const MOST_HEADERS: usize = 96;

#[inline(never)]
fn read_long(alloc: Global, text: &[u8]) -> Result<Option<RequestHead>, AllocError>
    requires few_lines { count_by is_line_feed text.now ≤ 98 }
    requires size { length text.now ≤ 65535 }
    requires begins { empty_line text.now ≡ None }
    ensures { IfOk result (λ head. option_map view head ≡ option_map head_of (request_head text.now)) }
{
    let mut spans = [EMPTY_HEADER_SPAN; MOST_HEADERS];
    read_by(alloc, text, &mut spans)
}

/// The request head that the text of so many lines is, if it is one.
pub fn read_head(
    alloc: Global,
    text: &[u8],
    lines: usize,
) -> Result<Option<RequestHead>, AllocError>
    requires lines { lines ≡ count_by is_line_feed text.now }
    requires few_lines { lines ≤ 98 }
    requires size { length text.now ≤ 65535 }
    requires begins { empty_line text.now ≡ None }
    ensures { IfOk result (λ head. option_map view head ≡ option_map head_of (request_head text.now)) }
{
    if lines <= FEW_HEADERS + 2 {
        read_short(alloc, text)
    } else {
        read_long(alloc, text)
    }
}
