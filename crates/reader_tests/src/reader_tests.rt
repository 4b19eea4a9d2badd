//! Heads and bodies, one behind the other.
use crate::shown::{hold, holds};
use crate::steps::{add_next, are_all_steps, pass_over};
use http1_plain::Limits;
use http1_reader::Reader;
use service_core::Octets;
use std::alloc::{AllocError, Global};
use std::test::Fail;

fn add_steps_behind_bytes(
    reader: &mut Reader,
    log: &mut Octets,
    bytes: &[u8],
) -> Result<(), AllocError> {
    for piece in bytes.chunks(1) {
        log.push_all(b".")?;
        reader.feed(piece)?;
        add_next(reader, log)?;
    }
    Ok(())
}

// The text of the steps behind each byte, and of the step behind these.
fn steps_behind_bytes(alloc: Global, bytes: &[u8]) -> Result<Octets, AllocError> {
    let mut reader = Reader::new(alloc, Limits::default());
    let mut log = Octets::new(alloc);
    add_steps_behind_bytes(&mut reader, &mut log, bytes)?;
    add_next(&mut reader, &mut log)?;
    Ok(log)
}

fn waits_for_the_end(alloc: Global) -> Result<bool, AllocError> {
    let log = steps_behind_bytes(alloc, b"GET / HTTP/1.1\r\n\r\n")?;
    Ok(log.as_bytes() == b"..................GET/|=|".as_slice())
}

#[test]
fn a_head_is_there_with_its_last_byte(rt: HostRuntime) -> Result<(), Fail> {
    holds(&rt, waits_for_the_end(rt.alloc()))
}

#[test]
fn many_requests_follow_each_other(rt: HostRuntime) -> Result<(), Fail> {
    let rows = [(
        "\r\n\nGET /a HTTP/1.1\r\n\r\n\r\nPOST /b HTTP/1.1\r\nContent-Length: 003\r\n\r\nabcPOST /c HTTP/1.1\r\nTransfer-Encoding: Chunked\r\n\r\n2\r\nde\r\n1;x=y\r\nf\r\n0 \r\nA: b\r\n\r\nHEAD / HTTP/1.0\n\n\r",
        "GET/a|=|POST/b|=abc|POST/c|=def|HEAD/|=|",
    )];
    holds(&rt, are_all_steps(rt.alloc(), &rows))
}

#[test]
fn doubtful_framings_are_refused(rt: HostRuntime) -> Result<(), Fail> {
    let rows = [
        ("POST / HTTP/1.1\r\nContent-Length: +4\r\n\r\nabcd", "400|"),
        (
            "POST / HTTP/1.1\r\nContent-Length: 4\r\nContent-Length: 4\r\n\r\nabcd",
            "400|",
        ),
        (
            "POST / HTTP/1.1\r\nContent-Length: 4, 4\r\n\r\nabcd",
            "400|",
        ),
        ("POST / HTTP/1.1\r\nContent-Length:\r\n\r\n", "400|"),
        (
            "POST / HTTP/1.1\r\nContent-Length: 4\r\nTransfer-Encoding: chunked\r\n\r\n0\r\n\r\n",
            "400|",
        ),
        (
            "POST / HTTP/1.1\r\nTransfer-Encoding: chunked\r\nTransfer-Encoding: chunked\r\n\r\n",
            "400|",
        ),
        (
            "POST / HTTP/1.1\r\nTransfer-Encoding: gzip, chunked\r\n\r\n",
            "400|",
        ),
        (
            "POST / HTTP/1.0\r\nTransfer-Encoding: chunked\r\n\r\n",
            "400|",
        ),
        (
            "POST / HTTP/1.1\r\nContent-Length: 99999999999999999999999999999999999999\r\n\r\n",
            "413|",
        ),
        ("POST / HTTP/1.1\r\nContent-Length: 1048577\r\n\r\n", "413|"),
        ("GET /\r\n\r\n", "400|"),
        ("GET / HTTP/2.0\r\n\r\n", "400|"),
        ("GET / HTTP/1.1\r\n folded: x\r\n\r\n", "400|"),
        ("GET / HTTP/1.1\r\na : x\r\n\r\n", "400|"),
    ];
    holds(&rt, are_all_steps(rt.alloc(), &rows))
}

fn add_later_steps(reader: &mut Reader, log: &mut Octets) -> Result<(), AllocError> {
    for _ in 0..3 {
        add_next(reader, log)?;
        reader.feed(b"GET / HTTP/1.1\r\n\r\n")?;
    }
    Ok(())
}

fn refuses_for_ever(alloc: Global, bytes: &[u8]) -> Result<bool, AllocError> {
    let mut reader = Reader::new(alloc, Limits::default());
    let mut log = Octets::new(alloc);
    reader.feed(bytes)?;
    add_later_steps(&mut reader, &mut log)?;
    drop(reader);
    Ok(log.as_bytes() == b"400|400|400|".as_slice())
}

#[test]
fn a_refusal_stays(rt: HostRuntime) -> Result<(), Fail> {
    let alloc = rt.alloc();
    hold(
        &rt,
        &[
            refuses_for_ever(alloc, b"GET\r\n\r\n"),
            refuses_for_ever(alloc, b"GET / HTTP/1.1\r\nContent-Length: x\r\n\r\n"),
        ],
    )
}

// The reader behind a head.
fn behind_head(alloc: Global, bytes: &[u8]) -> Result<Reader, AllocError> {
    let mut reader = Reader::new(alloc, Limits::default());
    pass_over(&mut reader, bytes)?;
    Ok(reader)
}

fn hands_on(alloc: Global) -> Result<bool, AllocError> {
    let reader = behind_head(alloc, b"GET / HTTP/1.1\r\n\r\n\x01\x02\r\n")?;
    let lent = reader.unread() == b"\x01\x02\r\n".as_slice() && reader.limits().head() == 32_768;
    let rest = reader.into_unread();
    Ok(lent && rest.as_bytes() == b"\x01\x02\r\n".as_slice())
}

#[test]
fn the_bytes_behind_a_head_are_handed_on(rt: HostRuntime) -> Result<(), Fail> {
    holds(&rt, hands_on(rt.alloc()))
}
