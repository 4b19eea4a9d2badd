//! What a script is read as.
use crate::shown::{hold, holds, not};
use cors_answer::Cors;
use script::{Connection, PlainText, Reading, Script, ScriptRule, build_policy, read_script};
use server_run::ReadStep;
use service_core::Peer;
use std::alloc::{AllocError, Global};
use std::test::Fail;

// Whether a script is good, has a listener or has none, as told, and has no connection.
fn has_only_a_listener(reading: &Reading, listening: bool) -> bool {
    match reading {
        Reading::Good(script) => {
            script.listeners.is_empty() != listening && connection_of(script).is_none()
        }
        Reading::BadLine(_) => false,
    }
}

/// The first connection of a script's first listener.
pub(crate) fn connection_of(script: &Script) -> Option<&Connection> {
    script.listeners.first()?.connections().first()
}

// The same of a text.
fn asks_for_a_listener(alloc: Global, text: &str, listening: bool) -> Result<bool, AllocError> {
    match read_script(alloc, text.as_bytes()) {
        Ok(reading) => {
            let shown = has_only_a_listener(&reading, listening);
            drop(reading);
            Ok(shown)
        }
        Err(error) => Err(error),
    }
}

#[test]
fn a_script_asks_for_a_listener(rt: HostRuntime) -> Result<(), Fail> {
    let alloc = rt.alloc();
    hold(
        &rt,
        &[
            asks_for_a_listener(alloc, "", false),
            asks_for_a_listener(alloc, "# listener\n", false),
            asks_for_a_listener(alloc, "listener", true),
        ],
    )
}

// Whether the steps hand over these bytes together.
fn hand_over(reads: &[ReadStep], bytes: &[u8]) -> bool {
    let mut rest = bytes;
    for step in reads {
        if let ReadStep::Give(piece) = step {
            if !rest.starts_with(piece.as_bytes()) {
                return false;
            }
            rest = &rest[piece.len()..];
        }
    }
    rest.is_empty()
}

fn gives(connection: &Connection, peer: Peer, bytes: &[u8]) -> bool {
    connection.peer() == peer && hand_over(connection.reads(), bytes)
}

fn has_connection(script: &Script, peer: Peer, bytes: &[u8]) -> bool {
    match connection_of(script) {
        Some(connection) => gives(connection, peer, bytes),
        None => false,
    }
}

fn is_of_connection(reading: &Reading, peer: Peer, bytes: &[u8]) -> bool {
    match reading {
        Reading::Good(script) => has_connection(script, peer, bytes),
        Reading::BadLine(_) => false,
    }
}

// Whether a script has a connection of this peer that gives these bytes.
fn connects(alloc: Global, text: &[u8], peer: Peer, bytes: &[u8]) -> Result<bool, AllocError> {
    match read_script(alloc, text) {
        Ok(reading) => {
            let shown = is_of_connection(&reading, peer, bytes);
            drop(reading);
            Ok(shown)
        }
        Err(error) => Err(error),
    }
}

#[test]
fn a_script_asks_for_a_connection(rt: HostRuntime) -> Result<(), Fail> {
    let text = b"# first\n\nlistener\nconn 10.0.0.1:80\ngive ab\n#give x\ngive cd \n";
    let peer = Peer::V4 {
        host: 0x0a00_0001,
        port: 80,
    };
    holds(&rt, connects(rt.alloc(), text, peer, b"abcd "))
}

// What a `give` line gives.
const ESCAPES: [(&str, &[u8]); 11] = [
    ("give \\r", b"\r"),
    ("give \\n", b"\n"),
    ("give \\t", b"\t"),
    ("give \\\"", b"\""),
    ("give \"", b"\""),
    ("give \\\\", b"\\"),
    ("give \\\\n", b"\\n"),
    ("give \\x00", b"\x00"),
    ("give \\x41\\x6a\\x6A", b"Ajj"),
    ("give \\xfF\\xAa", b"\xff\xaa"),
    ("give  a b ", b" a b "),
];

// A text in two parts.
fn joined(alloc: Global, front: &[u8], end: &str) -> Result<Vec<u8>, AllocError> {
    let mut text = Vec::from_slice(alloc, front)?;
    text.extend_from_slice(end.as_bytes())?;
    Ok(text)
}

// Whether a script that was made has a connection of this peer that gives these bytes.
fn connects_by(
    alloc: Global,
    text: &Result<Vec<u8>, AllocError>,
    peer: Peer,
    bytes: &[u8],
) -> Result<bool, AllocError> {
    match text {
        Ok(text) => connects(alloc, text, peer, bytes),
        Err(error) => Err(*error),
    }
}

// Whether the connection with the line holds these bytes.
fn is_held(alloc: Global, line: &str, wanted: &[u8]) -> Result<bool, AllocError> {
    let text = joined(alloc, b"listener\nconn local\n", line);
    let shown = connects_by(alloc, &text, Peer::Local, wanted);
    drop(text);
    shown
}

// Whether each line gives its bytes.
fn are_held(alloc: Global, rows: &[(&str, &[u8])]) -> Result<bool, AllocError> {
    for (line, wanted) in rows {
        if !is_held(alloc, line, wanted)? {
            return Ok(false);
        }
    }
    Ok(true)
}

#[test]
fn each_escape_stands_for_its_byte(rt: HostRuntime) -> Result<(), Fail> {
    holds(&rt, are_held(rt.alloc(), &ESCAPES))
}

// Whether the text in a `conn` line names the peer.
fn is_named(alloc: Global, text: &str, peer: Peer) -> Result<bool, AllocError> {
    let text = joined(alloc, b"listener\nconn ", text);
    let shown = connects_by(alloc, &text, peer, b"");
    drop(text);
    shown
}

// The peer of an address and a port.
fn v4(host: u32, port: u16) -> Peer {
    Peer::V4 { host, port }
}

#[test]
fn a_peer_is_local_or_an_address_with_a_port(rt: HostRuntime) -> Result<(), Fail> {
    let alloc = rt.alloc();
    hold(
        &rt,
        &[
            is_named(alloc, "local", Peer::Local),
            is_named(alloc, "0.0.0.0:0", v4(0, 0)),
            is_named(alloc, "1.2.3.4:5", v4(0x0102_0304, 5)),
            is_named(alloc, "127.0.0.1:8080", v4(0x7f00_0001, 8080)),
            is_named(alloc, "255.255.255.255:65535", v4(0xffff_ffff, 65535)),
        ],
    )
}

// A policy that was built.
type Built = Result<Cors<ScriptRule>, AllocError>;

fn policy_in(alloc: Global, reading: &Reading) -> Built {
    match reading {
        Reading::Good(script) => build_policy(alloc, &script.policy),
        Reading::BadLine(_) => Ok(Cors::default(alloc)),
    }
}

// The policy of a script, and the default one of a bad script.
fn policy_of(alloc: Global, text: &str) -> Built {
    match read_script(alloc, text.as_bytes()) {
        Ok(reading) => {
            let policy = policy_in(alloc, &reading);
            drop(reading);
            policy
        }
        Err(error) => Err(error),
    }
}

fn equals(one: &Cors<ScriptRule>, other: &Built) -> Result<bool, AllocError> {
    match other {
        Ok(other) => Ok(*one == *other),
        Err(error) => Err(*error),
    }
}

fn are_equal(one: &Built, other: &Built) -> Result<bool, AllocError> {
    match one {
        Ok(one) => equals(one, other),
        Err(error) => Err(*error),
    }
}

fn has_policy_of(alloc: Global, one: &Built, other: &str) -> Result<bool, AllocError> {
    let other = policy_of(alloc, other);
    let shown = are_equal(one, &other);
    drop(other);
    shown
}

// Whether two scripts have one policy.
fn have_one_policy(alloc: Global, one: &str, other: &str) -> Result<bool, AllocError> {
    let one = policy_of(alloc, one);
    let shown = has_policy_of(alloc, &one, other);
    drop(one);
    shown
}

fn has_no_error(cors: &Built) -> Result<bool, AllocError> {
    match cors {
        Ok(cors) => Ok(cors.error().is_none()),
        Err(error) => Err(*error),
    }
}

// Whether the policy of a script is without an error.
fn is_sound(alloc: Global, text: &str) -> Result<bool, AllocError> {
    let policy = policy_of(alloc, text);
    let shown = has_no_error(&policy);
    drop(policy);
    shown
}

const TWO: &str = "origin https://b.example\norigin https://a.example\n";

#[test]
fn origin_lines_make_a_policy(rt: HostRuntime) -> Result<(), Fail> {
    let alloc = rt.alloc();
    let reversed = "origin https://a.example\n\norigin https://b.example";
    hold(
        &rt,
        &[
            have_one_policy(alloc, TWO, reversed),
            not(have_one_policy(alloc, TWO, "origin https://a.example")),
            is_sound(alloc, TWO),
        ],
    )
}

// Whether a plain text is made of these bytes, and is this text.
fn is_plain_text(alloc: Global, text: &str) -> Result<bool, AllocError> {
    match PlainText::of(alloc, b" a~") {
        Ok(plain) => {
            let shown = plain.as_str() == text;
            drop(plain);
            Ok(shown)
        }
        Err(error) => Err(error),
    }
}

#[test]
fn a_plain_text_is_its_bytes(rt: HostRuntime) -> Result<(), Fail> {
    holds(&rt, is_plain_text(rt.alloc(), " a~"))
}
