//! Limits on heads and trailer parts.
use crate::shown::holds;
use crate::steps::{are_steps, limits};
use http1_plain::Limits;
use std::alloc::{AllocError, Global};
use std::test::Fail;

fn are(alloc: Global, head: usize, rows: &[(&str, &str)]) -> Result<bool, AllocError> {
    for (text, wanted) in rows {
        if !are_steps(alloc, limits(head, 10), text.as_bytes(), wanted.as_bytes())? {
            return Ok(false);
        }
    }
    Ok(true)
}

#[test]
fn a_head_of_its_limit_is_read(rt: HostRuntime) -> Result<(), Fail> {
    let rows = [
        ("GET / HTTP/1.1\r\n\r\n", "GET/|=|"),
        (
            "\r\n\r\n\r\n\r\n\r\n\r\n\r\n\r\n\r\nGET / HTTP/1.1\r\n\r\n",
            "GET/|=|",
        ),
        ("HEAD / HTTP/1.1\r\n\r\n", "431|"),
    ];
    holds(&rt, are(rt.alloc(), 18, &rows))
}

#[test]
fn a_trailer_part_has_the_limit_of_heads(rt: HostRuntime) -> Result<(), Fail> {
    let rows = [
        (
            "P / HTTP/1.1\r\ntransfer-encoding:chunked\r\n\r\n0\r\nA: 2345678901234567890123456789012345678901\r\n\r\n",
            "P/|=|",
        ),
        (
            "P / HTTP/1.1\r\ntransfer-encoding:chunked\r\n\r\n0\r\nA: 23456789012345678901234567890123456789012\r\n\r\n",
            "P/|431|",
        ),
    ];
    holds(&rt, are(rt.alloc(), 47, &rows))
}

fn are_usual(limits: Limits) -> bool {
    limits.head() == 32_768 && limits.body() == 1_048_576
}

#[test]
fn the_usual_limits(rt: HostRuntime) -> Result<(), Fail> {
    holds(&rt, Ok(are_usual(Limits::default())))
}
