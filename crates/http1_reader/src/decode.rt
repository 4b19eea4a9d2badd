//! A body in chunks, decoded as its bytes come (RFC 9112, section 7.1).
ghost use Rattle.std.specs.Prelude.{◌≡◌, ◌≤◌, ◌-◌, IfOk, OnErr, length, drop};
ghost use Rattle.http1_plain.specs.Kept.{Kept};
ghost use Rattle.http1_reader.specs.Decoding.{Turned, IsAt, Decodes};
ghost use Rattle.http1_reader.specs.Pieces.{IsPassed, IsSized, IsLast};
ghost use Rattle.http1_head.specs.Passing.{HasSeen};

use crate::piece::{Content, Line, Trailer, read_content, read_line, read_trailer};
use http1_plain::Limits;
use service_core::Octets;
use std::alloc::AllocError;

/// What comes next in a body.
#[derive(Clone, Copy)]
pub(crate) enum Part {
    /// A chunk line, of which so many bytes were looked at.
    Line(usize),
    /// A chunk: of how many bytes its line is, and its size.
    Content(usize, usize),
    /// The trailer part: of how many bytes the last chunk's line is, and how many behind it were looked at.
    Trailer(usize, usize),
}

/// What a part led to.
#[derive(Clone, Copy)]
pub(crate) enum Turn {
    /// The next chunk line, behind so many bytes.
    On(usize),
    /// More bytes decide this part.
    Wait(Part),
    /// The body is refused by this status.
    Refused(u16),
    /// The body is whole, and ends behind so many bytes.
    Done(usize),
}

/// How far a body was decoded.
#[derive(Clone, Copy)]
pub(crate) enum Decoded {
    /// The chunks that are whole have so many bytes. More bytes decide this part behind them.
    Open(usize, Part),
    /// It is refused by this status.
    Refused(u16),
    /// It is whole, and has so many bytes.
    Whole(usize),
}

// The data of this size, behind a line of so many bytes.
fn content_turn(
    limits: Limits,
    left: &[u8],
    decoded: &mut Octets,
    line: usize,
    size: usize,
) -> Result<Turn, AllocError>
    requires fits { length decoded.old ≤ limits.body }
    requires sized { IsSized (limits.body - length decoded.old) left.now line size }
    ensures ok { IfOk result (Turned limits left.now decoded.old decoded.new) }
    ensures err { OnErr result (decoded.new ≡ decoded.old) }
{
    let behind = &left[line..];
    match read_content(behind, size) {
        Content::Open => Ok(Turn::Wait(Part::Content(line, size))),
        Content::Faulty => Ok(Turn::Refused(400)),
        Content::Whole => {
            decoded.push_all(&behind[..size])?;
            Ok(Turn::On(line + size + 2))
        }
    }
}

// The trailer part behind the last chunk's line.
fn trailer_turn(limits: Limits, left: &[u8], decoded: &Octets, line: usize, seen: usize) -> Turn
    requires fits { length decoded.now ≤ limits.body }
    requires last { IsLast (limits.body - length decoded.now) left.now line }
    requires seen { HasSeen limits (drop line left.now) seen }
    ensures { Turned limits left.now decoded.now decoded.now result }
{
    let behind = &left[line..];
    match read_trailer(limits, behind, seen) {
        Trailer::Open => Turn::Wait(Part::Trailer(line, behind.len())),
        Trailer::TooLarge => Turn::Refused(431),
        Trailer::Whole(len) => Turn::Done(line + len),
    }
}

// The chunk line, of which so many bytes were looked at, and what stands behind it.
fn line_turn(
    limits: Limits,
    left: &[u8],
    decoded: &mut Octets,
    seen: usize,
) -> Result<Turn, AllocError>
    requires fits { length decoded.old ≤ limits.body }
    requires passed { IsPassed left.now seen }
    ensures ok { IfOk result (Turned limits left.now decoded.old decoded.new) }
    ensures err { OnErr result (decoded.new ≡ decoded.old) }
{
    match read_line(left, limits.body() - decoded.len(), seen) {
        Line::Open => Ok(Turn::Wait(Part::Line(left.len()))),
        Line::Refused(status) => Ok(Turn::Refused(status)),
        Line::Last(line) => Ok(trailer_turn(limits, left, decoded, line, 0)),
        Line::Sized(line, size) => content_turn(limits, left, decoded, line, size),
    }
}

fn take_turn(
    limits: Limits,
    left: &[u8],
    decoded: &mut Octets,
    part: Part,
) -> Result<Turn, AllocError>
    requires fits { length decoded.old ≤ limits.body }
    requires at { IsAt limits left.now decoded.old part }
    ensures ok { IfOk result (Turned limits left.now decoded.old decoded.new) }
    ensures err { OnErr result (decoded.new ≡ decoded.old) }
{
    match part {
        Part::Line(seen) => line_turn(limits, left, decoded, seen),
        Part::Content(line, size) => content_turn(limits, left, decoded, line, size),
        Part::Trailer(line, seen) => Ok(trailer_turn(limits, left, decoded, line, seen)),
    }
}

/// Decodes on from this part, until more bytes are needed or the body is decided. The data of each whole chunk go behind
/// those decoded before, also where memory runs out for a later one.
pub(crate) fn decode(
    limits: Limits,
    bytes: &[u8],
    decoded: &mut Octets,
    part: Part,
) -> Result<Decoded, AllocError>
    requires fits { length decoded.old ≤ limits.body }
    requires at { IsAt limits bytes.now decoded.old part }
    ensures kept { Kept decoded.old decoded.new }
    ensures ok { IfOk result (Decodes limits bytes.now decoded.old decoded.new) }
{
    let mut at = 0;
    let mut next = part;
    loop {
        match take_turn(limits, &bytes[at..], decoded, next)? {
            Turn::On(used) => {
                at += used;
                next = Part::Line(0);
            }
            Turn::Wait(part) => return Ok(Decoded::Open(at, part)),
            Turn::Refused(status) => return Ok(Decoded::Refused(status)),
            Turn::Done(used) => return Ok(Decoded::Whole(at + used)),
        }
    }
}
