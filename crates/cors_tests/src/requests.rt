//! Worked requests, after the tests and the documents of the crate actix-cors.
use crate::asking::{Asked, Verb};
use crate::asks::answers;
use crate::building::Call;
use crate::building::Call::{
    Age, AnyHeader, AnyMethod, AnyOrigin, Block, Header, Headers, Methods, Origin, Permissive,
    Wildcard,
};
use crate::shown::holds;
use std::alloc::AllocError;
use std::test::Fail;

#[test]
fn everything_is_allowed(rt: HostRuntime) -> Result<(), Fail> {
    let fields = [("Origin", "https://a.example")];
    let text =
        "HTTP/1.1 200 OK\r\ncontent-type: text/plain\r\naccess-control-allow-origin: https://a.example\r\naccess-control-expose-headers: access-control-allow-origin, content-type\r\naccess-control-allow-credentials: true\r\nvary: Origin, Access-Control-Request-Method, Access-Control-Request-Headers\r\ncontent-length: 12\r\n\r\nHello world!";
    holds(&rt, answers(&rt, &[Permissive], (Verb::Get, &fields), text))
}

// Every origin, as `*`, three methods and three headers.
const WILDCARD: [Call; 6] = [
    AnyOrigin,
    Wildcard,
    Age(Some(3600)),
    Methods(&["GET", "OPTIONS", "POST"]),
    Headers(&["authorization", "accept"]),
    Header("content-type"),
];

fn answers_by_wildcard(rt: &HostRuntime, asked: Asked, text: &str) -> Result<bool, AllocError> {
    answers(rt, &WILDCARD, asked, text)
}

#[test]
fn a_preflight_with_a_wildcard(rt: HostRuntime) -> Result<(), Fail> {
    let fields = [
        ("Origin", "https://www.example.com"),
        ("Access-Control-Request-Method", "POST"),
        ("Access-Control-Request-Headers", "AUTHORIZATION,ACCEPT"),
    ];
    let text =
        "HTTP/1.1 200 OK\r\naccess-control-allow-origin: *\r\naccess-control-allow-methods: GET, OPTIONS, POST\r\naccess-control-allow-headers: accept, authorization, content-type\r\naccess-control-max-age: 3600\r\nvary: Origin, Access-Control-Request-Method, Access-Control-Request-Headers\r\ncontent-length: 0\r\n\r\n";
    holds(
        &rt,
        answers_by_wildcard(&rt, (Verb::Options, &fields), text),
    )
}

#[test]
fn a_preflight_for_another_method(rt: HostRuntime) -> Result<(), Fail> {
    let fields = [
        ("Origin", "https://www.example.com"),
        ("Access-Control-Request-Method", "put"),
    ];
    let text =
        "HTTP/1.1 400 Bad Request\r\ncontent-length: 31\r\n\r\nRequested method is not allowed";
    holds(
        &rt,
        answers_by_wildcard(&rt, (Verb::Options, &fields), text),
    )
}

#[test]
fn a_request_that_asks_for_no_method_is_no_preflight(rt: HostRuntime) -> Result<(), Fail> {
    let fields = [
        ("Origin", "https://www.example.com"),
        ("Access-Control-Request-Headers", "X-Not-Allowed"),
    ];
    let text =
        "HTTP/1.1 200 OK\r\ncontent-type: text/plain\r\naccess-control-allow-origin: *\r\nvary: Origin, Access-Control-Request-Method, Access-Control-Request-Headers\r\ncontent-length: 12\r\n\r\nHello world!";
    holds(
        &rt,
        answers_by_wildcard(&rt, (Verb::Options, &fields), text),
    )
}

// One origin, and all others are refused.
const BLOCKING: [Call; 2] = [Origin("https://a.example"), Block];

fn answers_blocking(rt: &HostRuntime, asked: Asked, text: &str) -> Result<bool, AllocError> {
    answers(rt, &BLOCKING, asked, text)
}

#[test]
fn a_request_without_an_origin_is_not_blocked(rt: HostRuntime) -> Result<(), Fail> {
    let text =
        "HTTP/1.1 200 OK\r\ncontent-type: text/plain\r\nvary: Origin, Access-Control-Request-Method, Access-Control-Request-Headers\r\ncontent-length: 12\r\n\r\nHello world!";
    holds(&rt, answers_blocking(&rt, (Verb::Get, &[]), text))
}

#[test]
fn another_origin_is_blocked(rt: HostRuntime) -> Result<(), Fail> {
    let fields = [("Origin", "https://b.example")];
    let text =
        "HTTP/1.1 400 Bad Request\r\nvary: Origin, Access-Control-Request-Method, Access-Control-Request-Headers\r\ncontent-length: 42\r\n\r\nOrigin is not allowed to make this request";
    holds(&rt, answers_blocking(&rt, (Verb::Get, &fields), text))
}

#[test]
fn an_allowed_origin_is_not_blocked(rt: HostRuntime) -> Result<(), Fail> {
    let fields = [("Origin", "https://a.example")];
    let text =
        "HTTP/1.1 200 OK\r\ncontent-type: text/plain\r\naccess-control-allow-origin: https://a.example\r\nvary: Origin, Access-Control-Request-Method, Access-Control-Request-Headers\r\ncontent-length: 12\r\n\r\nHello world!";
    holds(&rt, answers_blocking(&rt, (Verb::Get, &fields), text))
}

const ASKED: [(&str, &str); 3] = [
    ("Origin", "https://a.example"),
    ("Access-Control-Request-Method", "PUT"),
    ("Access-Control-Request-Headers", "a,,b"),
];

fn answers_asked(rt: &HostRuntime, calls: &[Call], text: &str) -> Result<bool, AllocError> {
    answers(rt, calls, (Verb::Options, &ASKED), text)
}

#[test]
fn an_empty_name_is_asked_for(rt: HostRuntime) -> Result<(), Fail> {
    let calls = [AnyOrigin, AnyMethod, Headers(&["a"])];
    let text =
        "HTTP/1.1 400 Bad Request\r\ncontent-length: 68\r\n\r\nRequest header `Access-Control-Request-Headers` has an invalid value";
    holds(&rt, answers_asked(&rt, &calls, text))
}

#[test]
fn asked_headers_are_echoed(rt: HostRuntime) -> Result<(), Fail> {
    let calls = [AnyOrigin, AnyMethod, AnyHeader];
    let text =
        "HTTP/1.1 200 OK\r\naccess-control-allow-origin: https://a.example\r\naccess-control-allow-methods: CONNECT, DELETE, GET, HEAD, OPTIONS, PATCH, POST, PUT, TRACE\r\naccess-control-allow-headers: a,,b\r\nvary: Origin, Access-Control-Request-Method, Access-Control-Request-Headers\r\ncontent-length: 0\r\n\r\n";
    holds(&rt, answers_asked(&rt, &calls, text))
}
