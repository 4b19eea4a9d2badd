//! A connection from its bytes to its answers.
ghost use Rattle.std.specs.Prelude.{◌≡◌, None};
ghost use Rattle.std.specs.Arc.{arc_value};

use crate::answering::{answered, answered_alike};
use crate::echo::Echo;
use crate::serving::{BAD, FIELDS_TOO_LARGE, OK, TOO_LARGE, Wanted, echoing, is_served};
use crate::shown::holds;
use crate::test_link::{TestLink, Way};
use futures::task::Poll;
use futures::test::MockTask;
use http_flow::{ExpectHandler, HttpFlow, UpgradeHandler};
use http1_dispatcher::{
    an_upgrade_ends_the_answers, answers_come_in_order, nothing_follows_a_closing_answer,
    nothing_follows_a_refusal, nothing_follows_a_refused_body,
    nothing_follows_a_refused_expectation, nothing_is_upgraded_unasked, served_writes,
};
use service_core::Octets;
use std::alloc::{AllocError, Global};
use std::sync::Arc;
use std::test::Fail;

const GET: &[u8] = b"GET /a HTTP/1.1\r\n\r\n";

#[test]
fn a_get_is_answered_by_the_service(rt: HostRuntime) -> Result<(), Fail> {
    let rows: [(&[u8], &[u8]); 2] = [
        (GET, OK),
        (
            b"GET /none HTTP/1.1\r\n\r\n",
            b"HTTP/1.1 404 Not Found\r\ncontent-length: 0\r\n\r\n",
        ),
    ];
    answered(&rt, &rows)
}

#[test]
fn pipelined_requests_are_answered_in_order(rt: HostRuntime) -> Result<(), Fail> {
    let rows: [(&[u8], &[u8]); 2] = [
        (
            b"GET /a HTTP/1.1\r\n\r\nOPTIONS * HTTP/1.1\r\nHost: x\r\n\r\nGET /none HTTP/1.1\r\n\r\n",
            b"HTTP/1.1 200 OK\r\ncontent-length: 3\r\n\r\n/a\n\
HTTP/1.1 200 OK\r\ncontent-length: 2\r\n\r\n*\n\
HTTP/1.1 404 Not Found\r\ncontent-length: 0\r\n\r\n",
        ),
        (
            b"POST /b HTTP/1.1\r\nContent-Length: 2\r\n\r\nxyGET /a HTTP/1.1\r\n\r\n",
            b"HTTP/1.1 200 OK\r\ncontent-length: 5\r\n\r\n/b\nxy\
HTTP/1.1 200 OK\r\ncontent-length: 3\r\n\r\n/a\n",
        ),
    ];
    answered(&rt, &rows)
}

// The answer to a request with the target `/a` and the body `hello`.
const HELLO: &[u8] = b"HTTP/1.1 200 OK\r\ncontent-length: 8\r\n\r\n/a\nhello";

#[test]
fn bodies_are_read_by_their_length(rt: HostRuntime) -> Result<(), Fail> {
    let rows: [&[u8]; 3] = [
        b"POST /a HTTP/1.1\r\nContent-Length: 5\r\n\r\nhello",
        b"PUT /a HTTP/1.1\r\ncontent-length:005 \r\n\r\nhello\r\n",
        b"GET /a HTTP/1.1\nContent-Length: 5\n\nhelloGET /b HTTP/1.1\r\n",
    ];
    answered_alike(&rt, &rows, HELLO)
}

#[test]
fn bodies_are_read_in_chunks(rt: HostRuntime) -> Result<(), Fail> {
    let rows: [&[u8]; 6] = [
        b"POST /a HTTP/1.1\r\nTransfer-Encoding: chunked\r\n\r\n5\r\nhello\r\n0\r\n\r\n",
        b"POST /a HTTP/1.1\r\nTransfer-Encoding: Chunked\r\n\r\n2\r\nhe\r\n03\r\nllo\r\n00\r\n\n",
        b"POST /a HTTP/1.1\r\nTransfer-Encoding: chunked\r\n\r\n5;a=\"b\"\r\nhello\r\n0;last\r\n\r\n",
        b"POST /a HTTP/1.1\r\nTransfer-Encoding: chunked\r\n\r\n5 junk\r\nhello\r\n0\t\r\n\r\n",
        b"POST /a HTTP/1.1\r\nTransfer-Encoding: chunked\r\n\r\n5\r\nhello\r\n0\r\nA: b\r\nC: d\r\n\r\n",
        b"POST /a HTTP/1.1\r\nTransfer-Encoding: chunked\r\n\r\n5\r\nhello\r\n0\r\nA: b\n\nGET",
    ];
    answered_alike(&rt, &rows, HELLO)
}

#[test]
fn a_head_request_and_no_content_have_no_body(rt: HostRuntime) -> Result<(), Fail> {
    let rows: [(&[u8], &[u8]); 3] = [
        (
            b"HEAD /a HTTP/1.1\r\n\r\nGET /a HTTP/1.1\r\n\r\n",
            b"HTTP/1.1 200 OK\r\ncontent-length: 3\r\n\r\nHTTP/1.1 200 OK\r\ncontent-length: 3\r\n\r\n/a\n",
        ),
        (
            b"GET /empty HTTP/1.1\r\n\r\nGET /a HTTP/1.1\r\n\r\n",
            b"HTTP/1.1 204 No Content\r\n\r\nHTTP/1.1 200 OK\r\ncontent-length: 3\r\n\r\n/a\n",
        ),
        (
            b"HEAD /empty HTTP/1.1\r\nConnection: close\r\n\r\n",
            b"HTTP/1.1 204 No Content\r\nconnection: close\r\n\r\n",
        ),
    ];
    answered(&rt, &rows)
}

// The answer to a request with the target `/a` and no body, behind which the connection closes.
const OK_CLOSING: &[u8] = b"HTTP/1.1 200 OK\r\ncontent-length: 3\r\nconnection: close\r\n\r\n/a\n";

#[test]
fn nothing_behind_a_closing_answer_is_answered(rt: HostRuntime) -> Result<(), Fail> {
    let rows: [&[u8]; 4] = [
        b"GET /a HTTP/1.1\r\nConnection: close\r\n\r\nGET /b HTTP/1.1\r\n\r\n",
        b"GET /a HTTP/1.1\r\nConnection: x, Close\r\n\r\nG",
        b"GET /a HTTP/1.0\r\n\r\nGET /b HTTP/1.0\r\n\r\n",
        b"GET /a HTTP/1.0\r\nConnection: close, keep-alive\r\n\r\n",
    ];
    answered_alike(&rt, &rows, OK_CLOSING)
}

#[test]
fn version_1_0_stays_where_it_asks(rt: HostRuntime) -> Result<(), Fail> {
    let rows: [(&[u8], &[u8]); 1] = [(
        b"GET /a HTTP/1.0\r\nConnection: Keep-Alive\r\n\r\nGET /a HTTP/1.0\r\n\r\n",
        b"HTTP/1.1 200 OK\r\ncontent-length: 3\r\nconnection: keep-alive\r\n\r\n/a\n\
HTTP/1.1 200 OK\r\ncontent-length: 3\r\nconnection: close\r\n\r\n/a\n",
    )];
    answered(&rt, &rows)
}

#[test]
fn continue_is_written_once(rt: HostRuntime) -> Result<(), Fail> {
    let rows: [(&[u8], &[u8]); 4] = [
        (
            b"POST /a HTTP/1.1\r\nExpect: 100-continue\r\nContent-Length: 1\r\n\r\n",
            b"HTTP/1.1 100 Continue\r\n\r\n",
        ),
        (
            b"POST /a HTTP/1.1\r\nExpect: 100-Continue\r\nContent-Length: 1\r\n\r\nxGET /a HTTP/1.1\r\n\r\n",
            b"HTTP/1.1 100 Continue\r\n\r\nHTTP/1.1 200 OK\r\ncontent-length: 4\r\n\r\n/a\nx\
HTTP/1.1 200 OK\r\ncontent-length: 3\r\n\r\n/a\n",
        ),
        (
            b"GET /a HTTP/1.1\r\nExpect: 100-continue\r\n\r\n",
            b"HTTP/1.1 100 Continue\r\n\r\nHTTP/1.1 200 OK\r\ncontent-length: 3\r\n\r\n/a\n",
        ),
        (
            b"GET /a HTTP/1.0\r\nExpect: 100-continue\r\n\r\n",
            OK_CLOSING,
        ),
    ];
    answered(&rt, &rows)
}

#[test]
fn what_has_no_form_is_refused(rt: HostRuntime) -> Result<(), Fail> {
    let rows: [&[u8]; 7] = [
        b"GET\r\n\r\nGET /a HTTP/1.1\r\n\r\n",
        b"POST /a HTTP/1.1\r\nContent-Length: +1\r\n\r\nx",
        b"POST /a HTTP/1.1\r\nContent-Length: 1\r\nContent-Length: 1\r\n\r\nx",
        b"POST /a HTTP/1.1\r\nTransfer-Encoding: gzip, chunked\r\n\r\n",
        b"POST /a HTTP/1.0\r\nTransfer-Encoding: chunked\r\n\r\n0\r\n\r\n",
        b"POST /a HTTP/1.1\r\nTransfer-Encoding: chunked\r\n\r\n5\nhello\r\n0\r\n\r\n",
        b"POST /a HTTP/1.1\r\nTransfer-Encoding: chunked\r\n\r\n1\r\nhello\r\n0\r\n\r\n",
    ];
    answered_alike(&rt, &rows, BAD)
}

#[test]
fn a_body_above_the_limit_is_refused(rt: HostRuntime) -> Result<(), Fail> {
    let rows: [&[u8]; 4] = [
        b"POST /a HTTP/1.1\r\nContent-Length: 1025\r\n\r\n",
        b"POST /a HTTP/1.1\r\nContent-Length: 99999999999999999999\r\n\r\n",
        b"POST /a HTTP/1.1\r\nTransfer-Encoding: chunked\r\n\r\n401\r\n",
        b"POST /a HTTP/1.1\r\nTransfer-Encoding: chunked\r\n\r\n1\r\nx\r\nffffffffffffffff\r\n",
    ];
    answered_alike(&rt, &rows, TOO_LARGE)
}

#[test]
fn a_head_above_the_limit_is_refused_before_it_is_read(rt: HostRuntime) -> Result<(), Fail> {
    let rows: [&[u8]; 3] = [
        b"GET /aaaaaaaaaaaaaaaaaaaaaaaaaaaaaaaaaaaaaaaaaaaaaaaaaaaaaaaaaaaaaaaaaaa HTTP/1.1\r\n\r\n",
        b"G@T\r\naaaaaaaaaaaaaaaaaaaaaaaaaaaaaaaaaaaaaaaaaaaaaaaaaaaaaaaaaaa\r\n\r\n",
        b"POST /a HTTP/1.1\r\nTransfer-Encoding: chunked\r\n\r\n0\r\n\
A: 0123456789012345678901234567890123456789012345678901234567890123456789",
    ];
    answered_alike(&rt, &rows, FIELDS_TOO_LARGE)
}

// So many times the text.
fn repeated(alloc: Global, text: &[u8], count: usize) -> Result<Octets, AllocError> {
    let mut all = Octets::new(alloc);
    for _ in 0..count {
        all.push_all(text)?;
    }
    Ok(all)
}

// Whether so many polls of a connection with so many requests take so many bytes, and write by so many calls.
fn are_moved(
    task: &MockTask,
    alloc: Global,
    served: (usize, usize),
    wanted: (usize, u64),
) -> Result<bool, AllocError> {
    let way = Way::of(usize::MAX, false);
    let wanted = Wanted::Moves(wanted.0, wanted.1);
    match repeated(alloc, GET, served.0) {
        Ok(bytes) => is_served(task, alloc, (bytes.as_bytes(), way, served.1), &wanted),
        Err(error) => Err(error),
    }
}

#[test]
fn forty_pipelined_requests_are_answered_by_one_write(rt: HostRuntime) -> Result<(), Fail> {
    let task = MockTask::new(&rt)?;
    holds(&rt, are_moved(&task, rt.alloc(), (40, 9), (760, 1)))
}

#[test]
fn a_poll_takes_at_most_4096_bytes_and_the_first_1024(rt: HostRuntime) -> Result<(), Fail> {
    let task = MockTask::new(&rt)?;
    holds(&rt, are_moved(&task, rt.alloc(), (300, 1), (1024, 1)))?;
    holds(&rt, are_moved(&task, rt.alloc(), (300, 2), (5120, 2)))?;
    holds(&rt, are_moved(&task, rt.alloc(), (300, 3), (5700, 3)))
}

// Whether the connection waits behind so many polls, and wrote this.
fn is_waiting(
    task: &MockTask,
    alloc: Global,
    polls: usize,
    text: &[u8],
) -> Result<bool, AllocError> {
    let wanted = Wanted::Writes(None, text);
    is_served(task, alloc, (GET, Way::of(4096, false), polls), &wanted)
}

#[test]
fn a_connection_that_waits_hands_its_link_back(rt: HostRuntime) -> Result<(), Fail> {
    let task = MockTask::new(&rt)?;
    holds(&rt, is_waiting(&task, rt.alloc(), 1, OK))?;
    holds(&rt, is_waiting(&task, rt.alloc(), 0, b""))
}

// Whether the services are ready at the first poll.
fn are_ready(task: &MockTask, flow: &Arc<HttpFlow<Echo, ExpectHandler, UpgradeHandler>>) -> bool
    requires { (arc_value flow.now).upgrade ≡ None }
{
    let ready = task.enter(|cx| flow.poll_ready::<TestLink>(cx));
    matches!(ready, Poll::Ready(Ok(())))
}

// The same of `Echo` alone.
fn is_ready(task: &MockTask, alloc: Global) -> Result<bool, AllocError> {
    match echoing(alloc) {
        Ok(flow) => Ok(are_ready(task, &flow)),
        Err(error) => Err(error),
    }
}

#[test]
fn it_is_ready_when_its_service_is(rt: HostRuntime) -> Result<(), Fail> {
    let task = MockTask::new(&rt)?;
    holds(&rt, is_ready(&task, rt.alloc()))
}

#[test]
fn the_laws_run(rt: HostRuntime) {
    answers_come_in_order();
    nothing_follows_a_closing_answer();
    nothing_follows_a_refusal();
    nothing_follows_a_refused_body();
    nothing_follows_a_refused_expectation();
    an_upgrade_ends_the_answers();
    nothing_is_upgraded_unasked();
    served_writes::<TestLink, Echo, ExpectHandler, UpgradeHandler>();
    assert!(rt; true);
}
