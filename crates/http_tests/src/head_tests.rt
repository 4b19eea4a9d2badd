//! Heads, sound and broken, and what a connection answers to them.
use crate::answering::{answered, answered_alike};
use crate::serving::{BAD, OK};
use std::test::Fail;

#[test]
fn lines_may_end_in_lf_and_values_may_have_white_space(rt: HostRuntime) -> Result<(), Fail> {
    let rows: [&[u8]; 6] = [
        b"GET /a HTTP/1.1\n\n",
        b"GET /a HTTP/1.1\nHost: x\r\n\n",
        b"\r\n\r\nGET /a HTTP/1.1\r\n\r\n",
        b"GET /a HTTP/1.1\r\nHost:x\r\n\r\n",
        b"GET /a HTTP/1.1\r\nHost: \t x\t \r\n\r\n",
        b"GET /a HTTP/1.1\r\nX:\r\nX: \xa0\r\n\r\n",
    ];
    answered_alike(&rt, &rows, OK)
}

#[test]
fn a_request_line_has_three_parts_and_single_spaces(rt: HostRuntime) -> Result<(), Fail> {
    let rows: [&[u8]; 11] = [
        b"GET HTTP/1.1\r\n\r\n",
        b"GET  /a HTTP/1.1\r\n\r\n",
        b"GET /a  HTTP/1.1\r\n\r\n",
        b"GET /a HTTP/1.1 \r\n\r\n",
        b" GET /a HTTP/1.1\r\n\r\n",
        b"GET\t/a HTTP/1.1\r\n\r\n",
        b"GET /a http/1.1\r\n\r\n",
        b"GET /a HTTP/1.10\r\n\r\n",
        b"G@T /a HTTP/1.1\r\n\r\n",
        b"GET /\x7f HTTP/1.1\r\n\r\n",
        b"GET /\xc3 HTTP/1.1\r\n\r\n",
    ];
    answered_alike(&rt, &rows, BAD)
}

#[test]
fn a_field_line_is_a_token_and_a_value_without_controls(rt: HostRuntime) -> Result<(), Fail> {
    let rows: [&[u8]; 8] = [
        b"GET /a HTTP/1.1\r\nHost : x\r\n\r\n",
        b"GET /a HTTP/1.1\r\nHost\r\n\r\n",
        b"GET /a HTTP/1.1\r\n: x\r\n\r\n",
        b"GET /a HTTP/1.1\r\n Host: x\r\n\r\n",
        b"GET /a HTTP/1.1\r\nX: a\r\n b\r\n\r\n",
        b"GET /a HTTP/1.1\r\nX: a\rb\r\n\r\n",
        b"GET /a HTTP/1.1\r\nX: \0\r\n\r\n",
        b"GET /a HTTP/1.1\r\nX(y): z\r\n\r\n",
    ];
    answered_alike(&rt, &rows, BAD)
}

#[test]
fn methods_are_case_sensitive_and_names_are_not(rt: HostRuntime) -> Result<(), Fail> {
    let rows: [(&[u8], &[u8]); 3] = [
        (b"head /a HTTP/1.1\r\n\r\n", OK),
        (
            b"GET /a HTTP/1.1\r\nCONNECTION: CLOSE\r\n\r\n",
            b"HTTP/1.1 200 OK\r\ncontent-length: 3\r\nconnection: close\r\n\r\n/a\n",
        ),
        (
            b"GET /a HTTP/1.1\r\ncontent-LENGTH: 1\r\n\r\nx",
            b"HTTP/1.1 200 OK\r\ncontent-length: 4\r\n\r\n/a\nx",
        ),
    ];
    answered(&rt, &rows)
}

#[test]
fn a_head_ends_at_an_empty_line(rt: HostRuntime) -> Result<(), Fail> {
    let rows: [(&[u8], &[u8]); 7] = [
        (b"\r", b""),
        (b"\r\n\r\n\r\n", b""),
        (b"GET /a HTTP/1.1\r\n", b""),
        (b"GET /a HTTP/1.1\r\nHost: x\r\n\r", b""),
        (b"GET /a HTTP/1.1\r\n\r\n\r\n", OK),
        (
            b"GET /a HTTP/1.1\r\n\r\nHost: x\r\n\r\n",
            b"HTTP/1.1 200 OK\r\ncontent-length: 3\r\n\r\n/a\n\
HTTP/1.1 400 Bad Request\r\ncontent-length: 0\r\nconnection: close\r\n\r\n",
        ),
        (
            b"GET /a HTTP/1.1\n\r\nGET /a HTTP/1.1\n\n",
            b"HTTP/1.1 200 OK\r\ncontent-length: 3\r\n\r\n/a\n\
HTTP/1.1 200 OK\r\ncontent-length: 3\r\n\r\n/a\n",
        ),
    ];
    answered(&rt, &rows)
}
