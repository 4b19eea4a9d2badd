//! Requests, whole and damaged, and what a connection answers to them.
ghost use Rattle.std.specs.Prelude.{◌<◌, length};

use crate::answering::{defined, is_written};
use crate::shown::holds;
use crate::test_link::Way;
use futures::test::MockTask;
use service_core::Octets;
use std::alloc::{AllocError, AllocGlobal, Global};
use std::process::Abort;
use std::random::RandomSource;
use std::test::Fail;

// Requests as RFC 9112 writes them: heads alone, and then bodies, chunks, what they ask of the connection, and several of them.
const TEXTS: [&[u8]; 32] = [
    b"GET / HTTP/1.1\r\n\r\n",
    b"GET /a HTTP/1.1\r\nHost: x\r\nAccept: */*\r\n\r\n",
    b"\r\n\n\r\nGET /a HTTP/1.1\r\nHost: x\r\n\r\n",
    b"GET /a HTTP/1.1\nHost: x\n\n",
    b"GET /a HTTP/1.1\r\nX: \t \x80,\"a b\";\xff \t\r\n\r\n",
    b"GET /a HTTP/1.1\r\nhost:x\r\nx-!#$%&'*+.^_`|~0:\r\n\r\n",
    b"GET /none HTTP/1.1\r\n\r\n",
    b"GET http://x/caf\xc3\xa9?q=%20 HTTP/1.1\r\n\r\n",
    b"GET /a HTTP/1.1\r\nConnection: close\r\n\r\n",
    b"GET /a HTTP/1.1\r\nContent-Length: 1024\r\n\r\n",
    b"GET /a HTTP/1.1\r\nTransfer-Encoding: Chunked\r\n\r\n",
    b"GET /a HTTP/1.0\r\nHost: x\r\n\r\n",
    b"POST /a HTTP/1.1\r\nContent-Length: 3\r\n\r\nxyz",
    b"OPTIONS * HTTP/1.1\r\nHost: x\r\n\r\n",
    b"GET /a HTTP/1.1\r\n\r\nGET /b HTTP/1.1\r\n\r\n",
    b"GET /a HTTP/1.1\r\nHost: 0123456789012345678901234567890123456\r\n\r\n",
    b"POST /a HTTP/1.1\r\nContent-Length: 3\r\n\r\nxyzGET /b HTTP/1.1\r\n\r\n",
    b"POST /a HTTP/1.1\r\nTransfer-Encoding: chunked\r\n\r\n3\r\nabc\r\n0\r\n\r\n",
    b"POST /a HTTP/1.1\r\nTransfer-Encoding: chunked\r\n\r\n2;x=\"y\"\r\nab\r\n1 z\r\nc\r\n00\r\nA: b\r\n\r\nGET",
    b"PUT /a HTTP/1.1\nTransfer-Encoding: chunked\n\nA\r\n0123456789\r\n0\r\nA: b\n\nGET /b HTTP/1.1\n\n",
    b"POST /a HTTP/1.1\r\nTransfer-Encoding: chunked\r\n\r\n1\r\nx\r\n3fe\r\nyz",
    b"POST /a HTTP/1.1\r\nTransfer-Encoding: chunked\r\n\r\n0\r\nA: 012345678901234567890123456789012345678901234567890123456789",
    b"HEAD /a HTTP/1.1\r\n\r\nGET /none HTTP/1.1\r\n\r\nGET /empty HTTP/1.1\r\n\r\n",
    b"GET /a HTTP/1.1\r\nConnection: close\r\n\r\nGET /b HTTP/1.1\r\n\r\n",
    b"GET /a HTTP/1.1\r\nConnection: x,\tClose\r\n\r\nGET /b HTTP/1.1\r\n\r\n",
    b"GET /a HTTP/1.0\r\nConnection: keep-alive\r\n\r\nGET /b HTTP/1.0\r\n\r\n",
    b"POST /a HTTP/1.1\r\nExpect: 100-continue\r\nContent-Length: 2\r\n\r\nxy",
    b"POST /a HTTP/1.1\r\nExpect: 100-continue\r\nContent-Length: 2\r\n\r\nx",
    b"GET /a HTTP/1.1\r\nExpect: 100-Continue\r\n\r\nGET /b HTTP/1.1\r\n\r\n",
    b"POST /a HTTP/1.1\r\nContent-Length: 1\r\nContent-Length: 1\r\n\r\nx",
    b"GET /a HTTP/1.1\r\nConnection: upgrade\r\nUpgrade: h2c\r\n\r\nx",
    b"DELETE /a HTTP/1.1\r\n\r\n\r\nPOST /b HTTP/1.1\nContent-Length: 1\n\nx\r\n",
];

// What stands in place of a byte.
const ODD: [u8; 12] = [
    0, b'\t', b'\n', b'\r', b' ', b':', b'/', b'0', b'Z', b'{', 0x7f, 0xc3,
];

// Whether what the connection of the bytes writes is what the definition says.
fn is_by_definition(task: &MockTask, alloc: Global, bytes: &[u8]) -> Result<bool, AllocError> {
    match defined(alloc, bytes) {
        Ok(defined) => is_written(task, alloc, bytes, Way::of(4096, false), defined.as_bytes()),
        Err(error) => Err(error),
    }
}

// The bytes with others in place of one.
fn damaged(alloc: Global, bytes: &[u8], at: usize, instead: &[u8]) -> Result<Octets, AllocError>
    requires { at < length bytes.now }
{
    let mut copy = Octets::of(alloc, &bytes[..at])?;
    copy.push_all(instead)?;
    copy.push_all(&bytes[at + 1..])?;
    Ok(copy)
}

// Whether the bytes are answered by the definition with others in place of one.
fn is_by_definition_when_damaged(
    task: &MockTask,
    alloc: Global,
    place: (&[u8], usize),
    instead: &[u8],
) -> Result<bool, AllocError>
    requires { place.1 < length place.0.now }
{
    match damaged(alloc, place.0, place.1, instead) {
        Ok(copy) => is_by_definition(task, alloc, copy.as_bytes()),
        Err(error) => Err(error),
    }
}

// The same with each odd byte in place of one.
fn is_by_definition_when_odd(
    task: &MockTask,
    alloc: Global,
    place: (&[u8], usize),
) -> Result<bool, AllocError>
    requires { place.1 < length place.0.now }
{
    for byte in ODD {
        if !is_by_definition_when_damaged(task, alloc, place, &[byte])? {
            return Ok(false);
        }
    }
    Ok(true)
}

/// What is done to a text at one byte.
#[derive(Clone, Copy)]
enum Damage {
    /// It is cut there.
    Cut,
    /// The byte is replaced by each odd one.
    Replaced,
    /// The byte is dropped.
    Dropped,
    /// The byte stands twice.
    Doubled,
}

// Whether the text is answered by the definition with such a damage at one byte.
fn is_by_definition_with(
    task: &MockTask,
    alloc: Global,
    damage: Damage,
    place: (&[u8], usize),
) -> Result<bool, AllocError>
    requires { place.1 < length place.0.now }
{
    let (text, at) = place;
    match damage {
        Damage::Cut => is_by_definition(task, alloc, &text[..at]),
        Damage::Replaced => is_by_definition_when_odd(task, alloc, place),
        Damage::Dropped => is_by_definition_when_damaged(task, alloc, place, &[]),
        Damage::Doubled => {
            is_by_definition_when_damaged(task, alloc, place, &[text[at], text[at]])
        }
    }
}

// The same at each byte.
fn is_by_definition_anywhere(
    task: &MockTask,
    alloc: Global,
    damage: Damage,
    text: &[u8],
) -> Result<bool, AllocError> {
    for at in 0..text.len() {
        if !is_by_definition_with(task, alloc, damage, (text, at))? {
            return Ok(false);
        }
    }
    Ok(true)
}

// Whether the text is answered by the definition as it stands, or with such a damage at each byte.
fn is_by_definition_so(
    task: &MockTask,
    alloc: Global,
    damage: Option<Damage>,
    text: &[u8],
) -> Result<bool, AllocError> {
    match damage {
        None => is_by_definition(task, alloc, text),
        Some(damage) => is_by_definition_anywhere(task, alloc, damage, text),
    }
}

// The same for each text.
fn are_by_definition(
    task: &MockTask,
    alloc: Global,
    damage: Option<Damage>,
) -> Result<bool, AllocError> {
    for text in TEXTS {
        if !is_by_definition_so(task, alloc, damage, text)? {
            return Ok(false);
        }
    }
    Ok(true)
}

// Each text is answered so.
fn by_definition<R: Abort + RandomSource + AllocGlobal>(
    rt: &R,
    damage: Option<Damage>,
) -> Result<(), Fail> {
    let task = MockTask::new(rt)?;
    holds(rt, are_by_definition(&task, rt.alloc(), damage))
}

#[test]
fn requests_are_answered_by_the_definition(rt: HostRuntime) -> Result<(), Fail> {
    by_definition(&rt, None)
}

#[test]
fn requests_cut_anywhere_are_answered_by_the_definition(rt: HostRuntime) -> Result<(), Fail> {
    by_definition(&rt, Some(Damage::Cut))
}

#[test]
fn requests_with_a_byte_replaced_are_answered_by_the_definition(
    rt: HostRuntime,
) -> Result<(), Fail> {
    by_definition(&rt, Some(Damage::Replaced))
}

#[test]
fn requests_with_a_byte_dropped_are_answered_by_the_definition(
    rt: HostRuntime,
) -> Result<(), Fail> {
    by_definition(&rt, Some(Damage::Dropped))
}

#[test]
fn requests_with_a_byte_doubled_are_answered_by_the_definition(
    rt: HostRuntime,
) -> Result<(), Fail> {
    by_definition(&rt, Some(Damage::Doubled))
}
