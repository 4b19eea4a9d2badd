//! Responses written.
use crate::bytes::{empty, is_made};
use crate::headers::{list_of, value_of};
use crate::shown::{every, hold, holds};
use http::method::Method;
use http_header::VARY;
use http1_plain::{
    ErrorResponse, HeaderList, HttpVersion, Response, write_continue, write_refusal, write_response,
};
use service_core::Octets;
use std::alloc::{AllocError, Global};
use std::test::Fail;

// The refusal of a bad request.
fn refusal(alloc: Global) -> Result<Octets, AllocError> {
    let mut out = empty(alloc);
    write_refusal(&mut out, 400)?;
    Ok(out)
}

// Two refusals and a request to go on, one behind the other.
fn refusals_and_more(alloc: Global) -> Result<Octets, AllocError> {
    let mut out = empty(alloc);
    write_refusal(&mut out, 431)?;
    write_refusal(&mut out, 413)?;
    write_continue(&mut out)?;
    Ok(out)
}

fn is_refusal(alloc: Global) -> Result<bool, AllocError> {
    is_made(
        &refusal(alloc),
        b"HTTP/1.1 400 Bad Request\r\ncontent-length: 0\r\nconnection: close\r\n\r\n",
    )
}

fn are_refusals_and_more(alloc: Global) -> Result<bool, AllocError> {
    is_made(
        &refusals_and_more(alloc),
        b"HTTP/1.1 431 Request Header Fields Too Large\r\ncontent-length: 0\r\nconnection: close\r\n\r\nHTTP/1.1 413 Payload Too Large\r\ncontent-length: 0\r\nconnection: close\r\n\r\nHTTP/1.1 100 Continue\r\n\r\n",
    )
}

#[test]
fn refusals(rt: HostRuntime) -> Result<(), Fail> {
    let alloc = rt.alloc();
    hold(&rt, &[is_refusal(alloc), are_refusals_and_more(alloc)])
}

// What a response is written for: the method of its request, the version, and whether the connection is closed.
type Asked<'a> = (&'a Method, HttpVersion, bool);

fn written(alloc: Global, response: &Response, asked: Asked) -> Result<Octets, AllocError> {
    let mut out = empty(alloc);
    write_response(&mut out, asked.0, asked.1, response, asked.2)?;
    Ok(out)
}

// Whether the response is written so.
fn is_written(
    response: &Response,
    asked: Asked,
    alloc: Global,
    text: &[u8],
) -> Result<bool, AllocError> {
    is_made(&written(alloc, response, asked), text)
}

// The headers of a page, and one that only the connection may write.
fn page_headers(alloc: Global) -> Result<HeaderList, AllocError> {
    list_of(
        alloc,
        &[
            ("Content-Type", "text/plain"),
            ("Connection", "close"),
            ("vary", "Origin"),
        ],
    )
}

fn set_headers(alloc: Global, response: &mut Response) -> Result<(), AllocError> {
    match page_headers(alloc) {
        Ok(headers) => Ok(response.set_headers(headers)),
        Err(error) => Err(error),
    }
}

fn set_body(alloc: Global, response: &mut Response) -> Result<(), AllocError> {
    match Octets::of(alloc, b"Hello world!") {
        Ok(body) => Ok(response.set_body(body)),
        Err(error) => Err(error),
    }
}

// The response becomes a page.
fn write_page(alloc: Global, response: &mut Response) -> Result<(), AllocError> {
    set_headers(alloc, response)?;
    set_body(alloc, response)
}

// 200 with a page.
fn page(alloc: Global) -> Result<Response, AllocError> {
    let mut response = Response::new(alloc, 200);
    write_page(alloc, &mut response)?;
    Ok(response)
}

// Whether the page is written so.
fn is_page(alloc: Global, asked: Asked, text: &[u8]) -> Result<bool, AllocError> {
    match page(alloc) {
        Ok(page) => {
            let shown = is_written(&page, asked, alloc, text);
            drop(page);
            shown
        }
        Err(error) => Err(error),
    }
}

#[test]
fn an_answer_to_head_has_no_body(rt: HostRuntime) -> Result<(), Fail> {
    holds(
        &rt,
        is_page(
            rt.alloc(),
            (&Method::HEAD, HttpVersion::Http11, false),
            b"HTTP/1.1 200 OK\r\ncontent-type: text/plain\r\nvary: Origin\r\ncontent-length: 12\r\n\r\n",
        ),
    )
}

#[test]
fn an_old_client_is_told_that_the_connection_stays(rt: HostRuntime) -> Result<(), Fail> {
    holds(
        &rt,
        is_page(
            rt.alloc(),
            (&Method::GET, HttpVersion::Http10, false),
            b"HTTP/1.1 200 OK\r\ncontent-type: text/plain\r\nvary: Origin\r\ncontent-length: 12\r\nconnection: keep-alive\r\n\r\nHello world!",
        ),
    )
}

// An empty response, where there is such a status.
fn empty_response(alloc: Global, status: u16) -> Option<Response> {
    if status < 200 || status > 999 {
        return None;
    }
    Some(Response::new(alloc, status))
}

// Whether an empty response of the status is written so, to a request of this version.
fn is_empty_response(
    alloc: Global,
    status: u16,
    told: (HttpVersion, bool),
    text: &str,
) -> Result<bool, AllocError> {
    let asked = (&Method::GET, told.0, told.1);
    match empty_response(alloc, status) {
        Some(response) => {
            let shown = is_written(&response, asked, alloc, text.as_bytes());
            drop(response);
            shown
        }
        None => Ok(false),
    }
}

fn has_no_content(alloc: Global) -> Result<bool, AllocError> {
    let stays = "HTTP/1.1 204 No Content\r\nconnection: keep-alive\r\n\r\n";
    let closes = "HTTP/1.1 204 No Content\r\nconnection: close\r\n\r\n";
    every(&[
        is_empty_response(alloc, 204, (HttpVersion::Http10, false), stays),
        is_empty_response(alloc, 204, (HttpVersion::Http10, true), closes),
    ])
}

fn has_empty_content(alloc: Global) -> Result<bool, AllocError> {
    let reset = "HTTP/1.1 205 Reset Content\r\ncontent-length: 0\r\n\r\n";
    let unknown = "HTTP/1.1 999 \r\ncontent-length: 0\r\n\r\n";
    every(&[
        is_empty_response(alloc, 205, (HttpVersion::Http11, false), reset),
        is_empty_response(alloc, 999, (HttpVersion::Http11, false), unknown),
    ])
}

#[test]
fn statuses_without_a_body(rt: HostRuntime) -> Result<(), Fail> {
    let alloc = rt.alloc();
    hold(&rt, &[has_no_content(alloc), has_empty_content(alloc)])
}

// The response varies by `Origin`.
fn vary(response: &mut Response, alloc: Global) -> Result<(), AllocError> {
    let value = value_of(alloc, b"Origin")?;
    response.headers_mut().append(VARY, value)
}

// A text with a header.
fn no_such_page(alloc: Global) -> Result<Response, AllocError> {
    let mut response = Response::text(alloc, 404, "no such page")?;
    vary(&mut response, alloc)?;
    Ok(response)
}

// Whether the response has this status, so many headers and this body.
fn has_parts(response: &Response, status: u16, headers: usize, body: &[u8]) -> bool {
    response.status() == status && response.headers().len() == headers && response.body() == body
}

// Whether the text with a header is written with it.
fn is_written_so(alloc: Global, response: &Response) -> Result<bool, AllocError> {
    is_written(
        response,
        (&Method::GET, HttpVersion::Http11, true),
        alloc,
        b"HTTP/1.1 404 Not Found\r\nvary: Origin\r\ncontent-length: 12\r\nconnection: close\r\n\r\nno such page",
    )
}

// Whether the text has the header, and is written with it.
fn is_changed(alloc: Global, response: &Response) -> Result<bool, AllocError> {
    every(&[
        Ok(has_parts(response, 404, 1, b"no such page")),
        is_written_so(alloc, response),
    ])
}

fn no_such_page_is_changed(alloc: Global) -> Result<bool, AllocError> {
    match no_such_page(alloc) {
        Ok(response) => {
            let shown = is_changed(alloc, &response);
            drop(response);
            shown
        }
        Err(error) => Err(error),
    }
}

#[test]
fn a_response_is_changed(rt: HostRuntime) -> Result<(), Fail> {
    holds(&rt, no_such_page_is_changed(rt.alloc()))
}

#[test]
fn want_of_memory_has_no_response(rt: HostRuntime) {
    assert!(rt; AllocError.into_response(rt.alloc()).is_err());
}
