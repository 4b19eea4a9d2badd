//! Bodies in chunks.
use crate::shown::holds;
use crate::steps::{are_steps, limits, pass_over};
use http1_plain::Limits;
use http1_reader::{Reader, Step};
use service_core::Octets;
use std::alloc::{AllocError, Global};
use std::test::Fail;

const POST: &[u8] = b"POST / HTTP/1.1\r\nTransfer-Encoding: chunked\r\n\r\n";

fn joined(alloc: Global, parts: &[&[u8]]) -> Result<Octets, AllocError> {
    let mut text = Octets::new(alloc);
    for part in parts {
        text.push_all(part)?;
    }
    Ok(text)
}

// Whether the steps of a POST with these chunks are its head, and these.
fn are_chunks(
    alloc: Global,
    limits: Limits,
    chunks: &[u8],
    wanted: &[u8],
) -> Result<bool, AllocError> {
    let text = joined(alloc, &[POST, chunks])?;
    let steps = joined(alloc, &[b"POST/|", wanted])?;
    are_steps(alloc, limits, text.as_bytes(), steps.as_bytes())
}

fn are_all_chunks(alloc: Global, rows: &[(&str, &str)]) -> Result<bool, AllocError> {
    for (chunks, wanted) in rows {
        if !are_chunks(
            alloc,
            Limits::default(),
            chunks.as_bytes(),
            wanted.as_bytes(),
        )? {
            return Ok(false);
        }
    }
    Ok(true)
}

#[test]
fn chunks_are_read_as_their_data(rt: HostRuntime) -> Result<(), Fail> {
    let rows = [
        ("0\r\n\r\n", "=|"),
        ("5\r\nhello\r\n0\r\n\r\n", "=hello|"),
        ("5\r\nhello\r\n6\r\n world\r\n0\r\n\r\n", "=hello world|"),
        (
            "000000000000000a\r\n0123456789\r\n0\r\n\r\n",
            "=0123456789|",
        ),
        ("A\r\n0123456789\r\n0\r\n\r\n", "=0123456789|"),
        ("5 junk\r\nhello\r\n0\r\n\r\n", "=hello|"),
        ("5;a=\"b\"\r\nhello\r\n0;last\r\n\r\n", "=hello|"),
        ("2\r\n\r\n\r\n0\r\n\r\n", "=\r\n|"),
        ("5\r\nhello\r\n0\r\n\n", "=hello|"),
        ("0\r\nA: b\r\nC: d\r\n\r\n", "=|"),
        (
            "1\r\na\r\n0\r\nExpires: never\n\nGET /x HTTP/1.1\r\n\r\n",
            "=a|GET/x|=|",
        ),
        ("aA\r\n", ""),
    ];
    holds(&rt, are_all_chunks(rt.alloc(), &rows))
}

#[test]
fn bad_chunks_are_refused(rt: HostRuntime) -> Result<(), Fail> {
    let rows = [
        ("\r\n", "400|"),
        ("g\r\n", "400|"),
        ("1x\r\na\r\n0\r\n\r\n", "400|"),
        ("-1\r\na\r\n0\r\n\r\n", "400|"),
        ("+1\r\na\r\n0\r\n\r\n", "400|"),
        (" 1\r\na\r\n0\r\n\r\n", "400|"),
        ("0x1\r\na\r\n0\r\n\r\n", "400|"),
        ("5\nhello\r\n0\r\n\r\n", "400|"),
        ("1\r\naXY", "400|"),
        ("1\r\na\n0\r\n\r\n", "400|"),
        ("1;a\rb\r\na\r\n0\r\n\r\n", "400|"),
        ("00000000000000001\r\na\r\n0\r\n\r\n", "400|"),
        ("ffffffffffffffff\r\n", "413|"),
        ("10000000000000001\r\na\r\n", "400|"),
        ("1\r\na\r\nffffffffffffffff\r\n", "413|"),
    ];
    holds(&rt, are_all_chunks(rt.alloc(), &rows))
}

// A chunk line with an extension, of so many bytes with its LF.
fn long_line(alloc: Global, len: usize) -> Result<Octets, AllocError> {
    let mut line = joined(alloc, &[b"1;"])?;
    for _ in 4..len {
        line.push_all(b"x")?;
    }
    line.push_all(b"\r\n")?;
    Ok(line)
}

fn is_line_read(alloc: Global, len: usize, wanted: &[u8]) -> Result<bool, AllocError> {
    let line = long_line(alloc, len)?;
    let chunks = joined(alloc, &[line.as_bytes(), b"a\r\n0\r\n\r\n"])?;
    are_chunks(alloc, Limits::default(), chunks.as_bytes(), wanted)
}

#[test]
fn a_chunk_line_has_at_most_256_bytes(rt: HostRuntime) -> Result<(), Fail> {
    holds(&rt, is_line_read(rt.alloc(), 256, b"=a|"))?;
    holds(&rt, is_line_read(rt.alloc(), 257, b"400|"))
}

#[test]
fn a_body_in_chunks_has_a_limit(rt: HostRuntime) -> Result<(), Fail> {
    let alloc = rt.alloc();
    holds(
        &rt,
        are_chunks(
            alloc,
            limits(64, 10),
            b"6\r\nabcdef\r\n4\r\nghij\r\n0\r\n\r\n",
            b"=abcdefghij|",
        ),
    )?;
    holds(
        &rt,
        are_chunks(alloc, limits(64, 10), b"6\r\nabcdef\r\n5\r\n", b"413|"),
    )
}

// How many bytes are unread at most behind each of so many equal pieces.
fn most_unread_behind(
    reader: &mut Reader,
    piece: &[u8],
    count: usize,
) -> Result<usize, AllocError> {
    let mut most = 0;
    for _ in 0..count {
        pass_over(reader, piece)?;
        most = reader.unread().len().max(most);
    }
    Ok(most)
}

// The same where each piece is a chunk of one byte with a long extension.
fn most_unread(alloc: Global, count: usize) -> Result<usize, AllocError> {
    let line = long_line(alloc, 250)?;
    let chunk = joined(alloc, &[line.as_bytes(), b"a\r\n"])?;
    let mut reader = Reader::new(alloc, Limits::default());
    pass_over(&mut reader, POST)?;
    most_unread_behind(&mut reader, chunk.as_bytes(), count)
}

fn keeps_little(alloc: Global) -> Result<bool, AllocError> {
    Ok(most_unread(alloc, 400)? <= 257)
}

#[test]
fn chunks_that_were_read_are_not_kept(rt: HostRuntime) -> Result<(), Fail> {
    holds(&rt, keeps_little(rt.alloc()))
}

fn feed_many(reader: &mut Reader, piece: &[u8], count: usize) -> Result<(), AllocError> {
    for _ in 0..count {
        reader.feed(piece)?;
    }
    reader.feed(b"0\r\n\r\n")
}

fn is_body(step: &Step, len: usize) -> bool {
    match step {
        Step::Body(body) => body.len() == len,
        Step::NeedMore | Step::Head(_) | Step::Refused(_) => false,
    }
}

fn next_is_body(reader: &mut Reader, len: usize) -> Result<bool, AllocError> {
    match reader.next() {
        Ok(step) => {
            let shown = is_body(&step, len);
            drop(step);
            Ok(shown)
        }
        Err(error) => Err(error),
    }
}

fn is_whole(alloc: Global, count: usize) -> Result<bool, AllocError> {
    let mut reader = Reader::new(alloc, Limits::default());
    pass_over(&mut reader, POST)?;
    feed_many(&mut reader, b"1\r\na\r\n", count)?;
    next_is_body(&mut reader, count)
}

#[test]
fn many_small_chunks_are_one_body(rt: HostRuntime) -> Result<(), Fail> {
    holds(&rt, is_whole(rt.alloc(), 1000))
}
