//! The headers of a request, over its text.
use crate::bytes::{add, empty, is_made};
use crate::headers::{add_line, lines, list_of, name_of, value_of};
use crate::shown::hold;
use http_header::{AGE, HOST, HeaderName};
use http1_head::{NextHead, next_head};
use http1_plain::{Limits, RequestHeaders, is_name};
use service_core::Octets;
use std::alloc::{AllocError, Global};
use std::test::Fail;

// The headers as they were sent, told as lines.
fn sent_lines(alloc: Global, headers: &RequestHeaders) -> Result<Octets, AllocError> {
    let mut lines = empty(alloc);
    for (name, value) in headers.iter() {
        add_line(&mut lines, name, value)?;
    }
    Ok(lines)
}

// The same headers as a list, told as lines.
fn listed_lines(alloc: Global, headers: &RequestHeaders) -> Result<Octets, AllocError> {
    match headers.to_list() {
        Ok(list) => {
            let told = lines(alloc, &list);
            drop(list);
            told
        }
        Err(error) => Err(error),
    }
}

fn are_sent_so(alloc: Global, headers: &RequestHeaders, wanted: &[u8]) -> Result<bool, AllocError> {
    is_made(&sent_lines(alloc, headers), wanted)
}

fn are_listed_so(
    alloc: Global,
    headers: &RequestHeaders,
    wanted: &[u8],
) -> Result<bool, AllocError> {
    is_made(&listed_lines(alloc, headers), wanted)
}

// A head of four headers, with more than a few bytes in some.
const HEAD: &[u8] =
    b"GET / HTTP/1.1\r\nHOST: A Host of More than 24 Bytes\r\nX-One: Another VALUE of so many\r\nx-TWO: b\r\nx-one:\r\n\r\n";

// The four headers as they were sent, and with their names in lower case.
const SENT: &[u8] =
    b"HOST=A Host of More than 24 Bytes;X-One=Another VALUE of so many;x-TWO=b;x-one=;";

const LISTED: &[u8] =
    b"host=A Host of More than 24 Bytes;x-one=Another VALUE of so many;x-two=b;x-one=;";

// What is shown of the headers of a request.
#[derive(Clone, Copy)]
enum Shown {
    // They are told as they were sent.
    Sent,
    // So is a copy.
    Copied,
    // A list of them has their names in lower case.
    Listed,
    // They are found in any case.
    Found,
}

fn copy_is_sent_so(alloc: Global, headers: &RequestHeaders) -> Result<bool, AllocError> {
    match headers.copy() {
        Ok(copy) => {
            let shown = are_sent_so(alloc, &copy, SENT);
            drop(copy);
            shown
        }
        Err(error) => Err(error),
    }
}

// Whether the first value of the name is this one.
fn begins_with(headers: &RequestHeaders, name: &HeaderName, wanted: &[u8]) -> bool {
    headers.get(name) == Some(wanted)
}

// The values of the name, one behind the other.
fn values(
    alloc: Global,
    headers: &RequestHeaders,
    name: &HeaderName,
) -> Result<Octets, AllocError> {
    let mut text = empty(alloc);
    for value in headers.get_all(name) {
        add(&mut text, value)?;
        add(&mut text, b";")?;
    }
    Ok(text)
}

fn has_both(alloc: Global, headers: &RequestHeaders) -> Result<bool, AllocError> {
    match name_of(alloc, b"X-One") {
        Ok(name) => {
            let shown = is_made(
                &values(alloc, headers, &name),
                b"Another VALUE of so many;;",
            );
            drop(name);
            shown
        }
        Err(error) => Err(error),
    }
}

// Whether the last line is this one.
fn ends_with(headers: &RequestHeaders, name: &[u8], value: &[u8]) -> bool {
    if headers.is_empty() {
        return false;
    }
    let line = headers.line(headers.len() - 1);
    line.0 == name && line.1 == value
}

fn are_found(alloc: Global, headers: &RequestHeaders) -> Result<bool, AllocError> {
    let found = headers.len() == 4
        && ends_with(headers, b"x-one", b"")
        && begins_with(headers, &HOST, b"A Host of More than 24 Bytes")
        && headers.get(&AGE).is_none();
    Ok(found && has_both(alloc, headers)?)
}

fn is_shown(alloc: Global, headers: &RequestHeaders, shown: Shown) -> Result<bool, AllocError> {
    match shown {
        Shown::Sent => are_sent_so(alloc, headers, SENT),
        Shown::Copied => copy_is_sent_so(alloc, headers),
        Shown::Listed => are_listed_so(alloc, headers, LISTED),
        Shown::Found => are_found(alloc, headers),
    }
}

fn of_next(alloc: Global, next: &NextHead, shown: Shown) -> Result<bool, AllocError> {
    match next {
        NextHead::Found(head, _, _) => is_shown(alloc, &head.head().headers, shown),
        _ => Ok(false),
    }
}

// Whether this is shown of the headers of the head.
fn of_head(alloc: Global, shown: Shown) -> Result<bool, AllocError> {
    match next_head(alloc, Limits::new(32_768, 1), HEAD) {
        Ok(next) => {
            let holds = of_next(alloc, &next, shown);
            drop(next);
            holds
        }
        Err(error) => Err(error),
    }
}

#[test]
fn headers_of_a_head_are_those_of_its_text(rt: HostRuntime) -> Result<(), Fail> {
    let alloc = rt.alloc();
    hold(
        &rt,
        &[
            of_head(alloc, Shown::Sent),
            of_head(alloc, Shown::Copied),
            of_head(alloc, Shown::Listed),
        ],
    )
}

#[test]
fn headers_of_a_head_are_found_in_any_case(rt: HostRuntime) -> Result<(), Fail> {
    hold(&rt, &[of_head(rt.alloc(), Shown::Found)])
}

// Names that are as long as another and begin or end as it does, and one that it begins.
fn are_told_apart() -> bool {
    !is_name(b"accept", b"expect")
        && !is_name(b"Accent", b"accept")
        && !is_name(b"accept", b"accepts")
}

#[test]
fn names_are_equal_in_any_case_and_no_others_are(rt: HostRuntime) -> Result<(), Fail> {
    let equal = is_name(b"ACCEPT", b"accept") && is_name(b"", b"");
    hold(&rt, &[Ok(equal), Ok(are_told_apart())])
}

fn append(
    alloc: Global,
    headers: &mut RequestHeaders,
    name: &HeaderName,
    value: &[u8],
) -> Result<(), AllocError> {
    match value_of(alloc, value) {
        Ok(value) => {
            let appended = headers.append(name, &value);
            drop(value);
            appended
        }
        Err(error) => Err(error),
    }
}

fn append_both(alloc: Global, headers: &mut RequestHeaders) -> Result<bool, AllocError> {
    let were_none = headers.is_empty();
    append(alloc, headers, &HOST, b"a")?;
    append(alloc, headers, &AGE, b"")?;
    Ok(were_none && !headers.is_empty())
}

// Whether two headers that go behind those of none are told.
fn appended_are_told(
    alloc: Global,
    none: Result<RequestHeaders, AllocError>,
) -> Result<bool, AllocError> {
    let mut headers = none?;
    let appended = append_both(alloc, &mut headers);
    let told = are_sent_so(alloc, &headers, b"host=a;age=;");
    drop(headers);
    Ok(appended? && told?)
}

fn of_a_list_are_told(alloc: Global) -> Result<bool, AllocError> {
    match list_of(alloc, &[("B", "2"), ("a", "1")]) {
        Ok(list) => {
            let headers = RequestHeaders::from_list(&list);
            drop(list);
            told(alloc, headers, b"b=2;a=1;")
        }
        Err(error) => Err(error),
    }
}

fn told(
    alloc: Global,
    headers: Result<RequestHeaders, AllocError>,
    wanted: &[u8],
) -> Result<bool, AllocError> {
    match headers {
        Ok(headers) => {
            let shown = are_listed_so(headers.allocator(), &headers, wanted);
            let sent = are_sent_so(alloc, &headers, wanted);
            drop(headers);
            Ok(shown? && sent?)
        }
        Err(error) => Err(error),
    }
}

#[test]
fn headers_are_put_behind_those_of_a_request(rt: HostRuntime) -> Result<(), Fail> {
    let alloc = rt.alloc();
    hold(
        &rt,
        &[
            appended_are_told(alloc, Ok(RequestHeaders::new(alloc))),
            appended_are_told(alloc, RequestHeaders::with_capacity(alloc, 1, 3)),
            of_a_list_are_told(alloc),
        ],
    )
}
