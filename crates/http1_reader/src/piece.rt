//! The pieces of a body in chunks: a chunk line, a chunk's data, the trailer part (RFC 9112, section 7.1).
ghost use Rattle.std.specs.Prelude.{◌<◌, ◌^◌};
ghost use Rattle.http1_head.specs.Passing.{HasSeen};
ghost use Rattle.http1_reader.specs.Pieces.{IsPassed, IsLine, IsContent, IsTrailer};

use crate::chunk_line::{ChunkLine, chunk_line};
use crate::line_feed::line_feed_from;
use http1_head::{empty_line, head_size_from};
use http1_plain::Limits;

/// A chunk line at the front of bytes.
#[derive(Clone, Copy)]
pub(crate) enum Line {
    /// More bytes decide it.
    Open,
    /// It is refused by this status.
    Refused(u16),
    /// That of the last chunk, of so many bytes.
    Last(usize),
    /// One of so many bytes, and the size of its chunk.
    Sized(usize, usize),
}

/// The data of a chunk at the front of bytes.
#[derive(Clone, Copy)]
pub(crate) enum Content {
    /// More bytes decide it.
    Open,
    /// No CR LF stands behind it.
    Faulty,
    /// It is there, with its CR LF.
    Whole,
}

/// A trailer part at the front of bytes.
#[derive(Clone, Copy)]
pub(crate) enum Trailer {
    /// More bytes decide it.
    Open,
    /// It doesn't end within the limit of heads.
    TooLarge,
    /// It has so many bytes.
    Whole(usize),
}

const MOST_OF_LINE: usize = 256;

/// The chunk line at the front, of which so many bytes were looked at, where there is room for so much data.
pub(crate) fn read_line(left: &[u8], room: usize, seen: usize) -> Line
    requires room { room < 2 ^ 32 }
    requires passed { IsPassed left.now seen }
    ensures { IsLine room left.now result }
{
    let window = &left[..MOST_OF_LINE.min(left.len())];
    let Some(at) = line_feed_from(window, seen) else {
        return if left.len() >= MOST_OF_LINE {
            Line::Refused(400)
        } else {
            Line::Open
        };
    };
    match chunk_line(&window[..at], room) {
        ChunkLine::Bad => Line::Refused(400),
        ChunkLine::TooLarge => Line::Refused(413),
        ChunkLine::Last => Line::Last(at + 1),
        ChunkLine::Sized(size) => Line::Sized(at + 1, size),
    }
}

/// The data of this size, and their CR LF.
pub(crate) fn read_content(left: &[u8], size: usize) -> Content
    ensures { IsContent size left.now result }
{
    if left.len() < 2 || left.len() - 2 < size {
        return Content::Open;
    }
    let end = &left[size..size + 2];
    if end == b"\r\n".as_slice() {
        Content::Whole
    } else {
        Content::Faulty
    }
}

/// The trailer part, of which so many bytes were looked at.
pub(crate) fn read_trailer(limits: Limits, left: &[u8], seen: usize) -> Trailer
    requires { HasSeen limits left.now seen }
    ensures { IsTrailer limits left.now result }
{
    let most = limits.head();
    let window = &left[..most.min(left.len())];
    if let Some(len) = empty_line(window) {
        return Trailer::Whole(len);
    }
    match head_size_from(window, seen.saturating_sub(2)) {
        Some(size) => Trailer::Whole(size.len),
        None => {
            if left.len() >= most {
                Trailer::TooLarge
            } else {
                Trailer::Open
            }
        }
    }
}
