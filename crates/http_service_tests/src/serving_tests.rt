//! Connections that are served by each form of a service.
ghost use Rattle.std.specs.Prelude.{◌≡◌, None};

use crate::hello::Hello;
use crate::making::{FINE, parts};
use crate::serving::{
    GET, HELLO, hands_back_through, hello, link, refuses_through, serves_through, silent_link,
};
use futures::test::MockTask;
use http_flow::Protocol;
use http_service::{HttpService, HttpTcpFactory, KeepAlive};
use http1_plain::Limits;
use server_run::MemoryLink;
use service_core::{How, Peer};
use std::alloc::{AllocError, AllocGlobal, Global};
use std::test::Fail;

// A factory of handlers of links.
type Links = HttpTcpFactory<MemoryLink, Hello>;

// Whether a service of the factory answers these bytes so, and has served the link then.
fn answers(
    task: &MockTask,
    alloc: Global,
    factory: &Links,
    bytes: &[u8],
    text: &[u8],
) -> Result<bool, AllocError>
    requires { factory.now.upgrade ≡ None }
{
    serves_through(task, factory, link(alloc, bytes)?, How::Served, text)
}

#[test]
fn a_link_is_answered(rt: HostRuntime) -> Result<(), Fail> {
    let task = MockTask::new(&rt)?;
    let alloc = rt.alloc();
    assert!(rt; answers(&task, alloc, &hello(alloc).tcp(), GET, HELLO)?);
    Ok(())
}

#[test]
fn a_connection_that_says_what_it_speaks_is_answered(rt: HostRuntime) -> Result<(), Fail> {
    let task = MockTask::new(&rt)?;
    let alloc = rt.alloc();
    let asked = (link(alloc, GET)?, Protocol::Http1, Peer::Local);
    assert!(rt; serves_through(&task, &hello(alloc), asked, How::Served, HELLO)?);
    Ok(())
}

#[test]
fn a_connection_of_http_1_is_answered(rt: HostRuntime) -> Result<(), Fail> {
    let task = MockTask::new(&rt)?;
    let alloc = rt.alloc();
    let service = HttpService::build(alloc).h1(Hello::new(alloc));
    let asked = (link(alloc, GET)?, Peer::Local);
    assert!(rt; serves_through(&task, &service, asked, How::Served, HELLO)?);
    Ok(())
}

#[test]
fn a_link_that_speaks_another_protocol_comes_back(rt: HostRuntime) -> Result<(), Fail> {
    let task = MockTask::new(&rt)?;
    let alloc = rt.alloc();
    let service = hello(alloc);
    for protocol in [Protocol::Http2, Protocol::Http3] {
        assert!(rt; refuses_through(&task, &service, protocol, link(alloc, GET)?)?);
    }
    Ok(())
}

#[test]
fn a_link_can_be_taken_back_while_it_waits(rt: HostRuntime) -> Result<(), Fail> {
    let task = MockTask::new(&rt)?;
    let alloc = rt.alloc();
    let asked = (silent_link(alloc)?, Protocol::Http1, Peer::Local);
    assert!(rt; hands_back_through(&task, &hello(alloc), asked)?);
    Ok(())
}

// Two requests.
const GETS: &[u8] = b"GET /a HTTP/1.1\r\n\r\nGET /b HTTP/1.1\r\n\r\n";

// The answer behind which a connection is closed.
const CLOSING: &[u8] = b"HTTP/1.1 200 OK\r\ncontent-length: 5\r\nconnection: close\r\n\r\nhello";

#[test]
fn a_service_with_no_keep_alive_answers_once(rt: HostRuntime) -> Result<(), Fail> {
    let task = MockTask::new(&rt)?;
    let alloc = rt.alloc();
    let once: Links = HttpService::build(alloc)
        .keep_alive(KeepAlive::Disabled)
        .finish(Hello::new(alloc))
        .tcp();
    assert!(rt; answers(&task, alloc, &once, GETS, CLOSING)?);
    Ok(())
}

// A request whose body has five bytes.
const POST: &[u8] = b"POST /a HTTP/1.1\r\nContent-Length: 5\r\n\r\nabcde";

// The answer to a body above its limit.
const TOO_LARGE: &[u8] =
    b"HTTP/1.1 413 Payload Too Large\r\ncontent-length: 0\r\nconnection: close\r\n\r\n";

#[test]
fn a_service_keeps_its_limits(rt: HostRuntime) -> Result<(), Fail> {
    let task = MockTask::new(&rt)?;
    let alloc = rt.alloc();
    let small: Links = HttpService::build(alloc)
        .limits(Limits::new(64, 4))
        .finish(Hello::new(alloc))
        .tcp();
    assert!(rt; answers(&task, alloc, &small, POST, TOO_LARGE)?);
    Ok(())
}

// A request whose body is awaited, and the answers to it.
const AWAITED: &[u8] = b"POST /a HTTP/1.1\r\nExpect: 100-continue\r\nContent-Length: 1\r\n\r\nx";

const CONTINUED: &[u8] =
    b"HTTP/1.1 100 Continue\r\n\r\nHTTP/1.1 200 OK\r\ncontent-length: 5\r\n\r\nhello";

// A request for another protocol.
const UPGRADE: &[u8] = b"GET /a HTTP/1.1\r\nConnection: Upgrade\r\nUpgrade: x\r\n\r\nabc";

// How a service of three parts ends a link with these bytes.
fn three_answer(
    task: &MockTask,
    alloc: Global,
    bytes: &[u8],
    how: How,
    text: &[u8],
) -> Result<bool, AllocError> {
    serves_through(
        task,
        &parts(alloc, FINE, FINE),
        link(alloc, bytes)?,
        how,
        text,
    )
}

#[test]
fn a_service_asks_its_expect_service_and_its_upgrade_service(rt: HostRuntime) -> Result<(), Fail> {
    let task = MockTask::new(&rt)?;
    let alloc = rt.alloc();
    assert!(rt; three_answer(&task, alloc, AWAITED, How::Served, CONTINUED)?);
    assert!(rt; three_answer(&task, alloc, UPGRADE, How::Upgraded, b"")?);
    Ok(())
}
