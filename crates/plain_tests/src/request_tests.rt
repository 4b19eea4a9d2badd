//! Requests cut from bytes.
use crate::bytes::{add, empty};
use crate::shown::{every, hold, holds};
use http1_head::{Framing, NextHead, framing_of, next_head};
use http1_plain::Limits;
use service_core::Octets;
use std::alloc::{AllocError, Global};
use std::test::Fail;

// These limits, or the nearest that there are.
fn limits(head: usize, body: usize) -> Limits {
    Limits::new(head.clamp(1, 65_535), body.clamp(1, 16_777_216))
}

// The limits of most tests.
fn wide() -> Limits {
    limits(32_768, 1_048_576)
}

// 0 where more bytes are needed, the status of a refusal, and 1000 more than the length of a head.
fn outcome_of(next: &NextHead) -> usize {
    match next {
        NextHead::Nothing => 0,
        NextHead::Refused(status) => usize::from(*status),
        NextHead::Found(_, _, used) => 1000usize.saturating_add(*used),
    }
}

fn outcome(alloc: Global, limits: Limits, bytes: &[u8]) -> Result<usize, AllocError> {
    match next_head(alloc, limits, bytes) {
        Ok(next) => {
            let outcome = outcome_of(&next);
            drop(next);
            Ok(outcome)
        }
        Err(error) => Err(error),
    }
}

// Whether each shorter front of the bytes is undecided.
fn are_undecided(alloc: Global, bytes: &[u8]) -> Result<bool, AllocError> {
    for len in 0..bytes.len() {
        if !is_cut_so(alloc, &bytes[..len], 0)? {
            return Ok(false);
        }
    }
    Ok(true)
}

fn is_cut_so(alloc: Global, bytes: &[u8], wanted: usize) -> Result<bool, AllocError> {
    match outcome(alloc, wide(), bytes) {
        Ok(found) => Ok(found == wanted),
        Err(error) => Err(error),
    }
}

// Whether each text is cut as told by `outcome`.
fn are_cut_so(alloc: Global, rows: &[(&str, usize)]) -> Result<bool, AllocError> {
    for (text, wanted) in rows {
        if !is_cut_so(alloc, text.as_bytes(), *wanted)? {
            return Ok(false);
        }
    }
    Ok(true)
}

#[test]
fn a_head_byte_by_byte(rt: HostRuntime) -> Result<(), Fail> {
    let alloc = rt.alloc();
    let bytes = b"GET / HTTP/1.1\r\n\r\n";
    hold(
        &rt,
        &[are_undecided(alloc, bytes), is_cut_so(alloc, bytes, 1018)],
    )
}

#[test]
fn empty_lines_before_a_head_are_passed_over(rt: HostRuntime) -> Result<(), Fail> {
    let rows = [
        ("\r\n\n\r\nGET / HTTP/1.1\nA: b\n\n", 1026),
        ("\r", 0),
        ("\r\rGET / HTTP/1.1\r\n\r\n", 400),
    ];
    holds(&rt, are_cut_so(rt.alloc(), &rows))
}

#[test]
fn heads_of_no_request_are_refused(rt: HostRuntime) -> Result<(), Fail> {
    let rows = [
        ("G@T / HTTP/1.1\r\n\r\n", 400),
        ("GET / HTTP/1.1\r\nA: b\r\n c\r\n\r\n", 400),
        ("GET / HTTP/1.1\r\nA : b\r\n\r\n", 400),
        ("GET / HTTP/2.0\r\n\r\n", 400),
        ("GET / HTTP/1.1\r\nA: b\rc\r\n\r\n", 400),
    ];
    holds(&rt, are_cut_so(rt.alloc(), &rows))
}

#[test]
fn bodies_of_unclear_length_are_refused(rt: HostRuntime) -> Result<(), Fail> {
    let rows = [
        (
            "POST / HTTP/1.1\r\nHost: a\r\nContent-Length: 1\r\nTransfer-Encoding: chunked\r\n\r\n",
            400,
        ),
        (
            "POST / HTTP/1.1\r\nTransfer-Encoding: chunked\r\nTransfer-Encoding: chunked\r\n\r\n",
            400,
        ),
        ("POST / HTTP/1.0\r\nTransfer-Encoding: chunked\r\n\r\n", 400),
        ("POST / HTTP/1.1\r\nContent-Length: +4\r\n\r\n", 400),
        (
            "POST / HTTP/1.1\r\nTransfer-Encoding: CHUNKED\r\n\r\n",
            1047,
        ),
    ];
    holds(&rt, are_cut_so(rt.alloc(), &rows))
}

#[test]
fn bodies_above_the_limit_are_refused(rt: HostRuntime) -> Result<(), Fail> {
    let rows = [
        ("POST / HTTP/1.1\r\nContent-Length: 1048577\r\n\r\n", 413),
        (
            "POST / HTTP/1.1\r\nContent-Length: 0001048576\r\n\r\n",
            1047,
        ),
        (
            "POST / HTTP/1.1\r\nContent-Length: 9999999999999999999999999999999999999999\r\n\r\n",
            413,
        ),
    ];
    holds(&rt, are_cut_so(rt.alloc(), &rows))
}

// A text, so many times.
fn repeated(out: &mut Octets, text: &str, times: u8) -> Result<(), AllocError> {
    for _ in 0..times {
        add(out, text.as_bytes())?;
    }
    Ok(())
}

// To the text go a front, a text so many times, and an end.
fn add_parts(out: &mut Octets, parts: (&str, &str, u8, &str)) -> Result<(), AllocError> {
    add(out, parts.0.as_bytes())?;
    repeated(out, parts.1, parts.2)?;
    add(out, parts.3.as_bytes())
}

// A front, a text so many times, and an end.
fn of_parts(alloc: Global, parts: (&str, &str, u8, &str)) -> Result<Octets, AllocError> {
    let mut bytes = empty(alloc);
    add_parts(&mut bytes, parts)?;
    Ok(bytes)
}

fn is_cut(
    alloc: Global,
    limits: Limits,
    bytes: &Octets,
    wanted: usize,
) -> Result<bool, AllocError> {
    match outcome(alloc, limits, bytes.as_bytes()) {
        Ok(found) => Ok(found == wanted),
        Err(error) => Err(error),
    }
}

// Whether a front, a text so many times, and an end are cut so.
fn are_cut(
    alloc: Global,
    limits: Limits,
    parts: (&str, &str, u8, &str),
    wanted: usize,
) -> Result<bool, AllocError> {
    match of_parts(alloc, parts) {
        Ok(bytes) => {
            let shown = is_cut(alloc, limits, &bytes, wanted);
            drop(bytes);
            shown
        }
        Err(error) => Err(error),
    }
}

// Whether heads of 63 and 64 bytes are cut by a limit of 64.
fn are_cut_by_bytes(alloc: Global) -> Result<bool, AllocError> {
    let header = "GET / HTTP/1.1\r\nA: ";
    every(&[
        are_cut(alloc, limits(64, 1), (header, "x", 44, ""), 0),
        are_cut(alloc, limits(64, 1), (header, "x", 45, ""), 431),
    ])
}

// Whether heads of 96 header lines and of 97 are cut by the limit of lines.
fn are_cut_by_lines(alloc: Global) -> Result<bool, AllocError> {
    let line = "GET / HTTP/1.1\r\n";
    every(&[
        are_cut(alloc, wide(), (line, "a:\r\n", 96, "\r\n"), 1402),
        are_cut(alloc, wide(), (line, "a:\r\n", 97, "\r\n"), 431),
    ])
}

// Whether heads of 24 header lines and of 25 are cut, for which there is room for few and for many.
fn are_cut_by_room(alloc: Global) -> Result<bool, AllocError> {
    let line = "GET / HTTP/1.1\r\n";
    every(&[
        are_cut(alloc, wide(), (line, "a:\r\n", 24, "\r\n"), 1114),
        are_cut(alloc, wide(), (line, "a:\r\n", 25, "\r\n"), 1118),
    ])
}

#[test]
fn heads_of_few_headers_and_of_many(rt: HostRuntime) -> Result<(), Fail> {
    holds(&rt, are_cut_by_room(rt.alloc()))
}

#[test]
fn heads_at_the_limit(rt: HostRuntime) -> Result<(), Fail> {
    let alloc = rt.alloc();
    hold(&rt, &[are_cut_by_bytes(alloc), are_cut_by_lines(alloc)])
}

// Whether the limits are these.
fn are_limits(limits: Limits, head: usize, body: usize) -> bool {
    limits.head() == head && limits.body() == body
}

fn is_framed_head(next: &NextHead, wanted: Framing) -> bool {
    match next {
        NextHead::Found(head, _, _) => framing_of(head.head(), 9) == wanted,
        _ => false,
    }
}

// Whether the body of the request is framed so.
fn is_framed(alloc: Global, bytes: &[u8], wanted: Framing) -> Result<bool, AllocError> {
    match next_head(alloc, limits(512, 9), bytes) {
        Ok(next) => {
            let shown = is_framed_head(&next, wanted);
            drop(next);
            Ok(shown)
        }
        Err(error) => Err(error),
    }
}

fn is_empty(alloc: Global) -> Result<bool, AllocError> {
    is_framed(alloc, b"GET / HTTP/1.1\r\n\r\n", Framing::Empty)
}

fn is_sized(alloc: Global) -> Result<bool, AllocError> {
    let bytes = b"GET / HTTP/1.1\r\nContent-Length: 9\r\n\r\n";
    is_framed(alloc, bytes, Framing::Sized(9))
}

fn is_chunked(alloc: Global) -> Result<bool, AllocError> {
    let bytes = b"GET / HTTP/1.1\r\nTransfer-Encoding: chunked\r\n\r\n";
    is_framed(alloc, bytes, Framing::Chunked)
}

#[test]
fn framings(rt: HostRuntime) -> Result<(), Fail> {
    let alloc = rt.alloc();
    let are_kept = are_limits(limits(512, 9), 512, 9);
    hold(
        &rt,
        &[
            Ok(are_kept),
            is_empty(alloc),
            is_sized(alloc),
            is_chunked(alloc),
        ],
    )
}
