//! Reads the lines of listeners and their connections.
ghost use Rattle.std.specs.Prelude.{◌≡◌, IfOk};
ghost use Rattle.script.specs.Script.{bare_line, conn_line, give_line, place_line, some_bytes, take_line};

use crate::place::PlaceLine;
use crate::text::{number_behind, read_peer, unescaped};
use std::alloc::{AllocError, Global};

/// What a line says of a listener or a connection. None where it says nothing of them.
pub(crate) fn read_place_line(alloc: Global, line: &[u8]) -> Result<Option<PlaceLine>, AllocError>
    ensures { IfOk result (λ said. said ≡ place_line line.now) }
{
    if let Some(said) = bare_line(line) {
        return Ok(Some(said));
    }
    if let Some(said) = conn_line(line) {
        return Ok(Some(said));
    }
    if let Some(said) = take_line(line) {
        return Ok(Some(said));
    }
    give_line(alloc, line)
}

fn bare_line(line: &[u8]) -> Option<PlaceLine>
    ensures { result ≡ bare_line line.now }
{
    if line == b"listener".as_slice() {
        return Some(PlaceLine::Listener);
    }
    if line == b"late".as_slice() {
        return Some(PlaceLine::Late);
    }
    if line == b"skip".as_slice() {
        return Some(PlaceLine::Skip);
    }
    if line == b"fail-listener".as_slice() {
        return Some(PlaceLine::FailListener);
    }
    if line == b"wait".as_slice() {
        return Some(PlaceLine::Wait);
    }
    if line == b"write-wait".as_slice() {
        return Some(PlaceLine::WriteWait);
    }
    if line == b"fail-read".as_slice() {
        return Some(PlaceLine::FailRead);
    }
    if line == b"fail-write".as_slice() {
        return Some(PlaceLine::FailWrite);
    }
    None
}

fn conn_line(line: &[u8]) -> Option<PlaceLine>
    ensures { result ≡ conn_line line.now }
{
    if !line.starts_with(b"conn ".as_slice()) {
        return None;
    }
    let peer = read_peer(&line[5..])?;
    Some(PlaceLine::Conn(peer))
}

fn take_line(line: &[u8]) -> Option<PlaceLine>
    ensures { result ≡ take_line line.now }
{
    let most = number_behind(b"take ".as_slice(), 1, 65_536, line)?;
    Some(PlaceLine::Take(most))
}

fn give_line(alloc: Global, line: &[u8]) -> Result<Option<PlaceLine>, AllocError>
    ensures { IfOk result (λ said. said ≡ give_line line.now) }
{
    if !line.starts_with(b"give ".as_slice()) {
        return Ok(None);
    }
    some_bytes(alloc, &line[5..])
}

// The bytes that a text stands for, which is not empty.
fn some_bytes(alloc: Global, text: &[u8]) -> Result<Option<PlaceLine>, AllocError>
    ensures { IfOk result (λ said. said ≡ some_bytes text.now) }
{
    if text.is_empty() {
        return Ok(None);
    }
    let Some(bytes) = unescaped(alloc, text)? else {
        return Ok(None);
    };
    Ok(Some(PlaceLine::Give(bytes)))
}
