//! The steps of bytes, in lines.
use crate::shown::{push_bytes, push_line};
use crate::size::Size;
use http1_head::ReadHead;
use http1_plain::{HeaderList, HttpVersion, RequestHead, RequestHeaders};
use http1_reader::{Reader, Step};
use std::alloc::{AllocError, Global};

fn version_text(version: HttpVersion) -> &'static str {
    match version {
        HttpVersion::Http10 => " 1.0\n",
        HttpVersion::Http11 => " 1.1\n",
    }
}

fn push_headers(text: &mut String, headers: &HeaderList) -> Result<(), AllocError> {
    for (name, value) in headers.entries() {
        text.push_str("  ")?;
        push_bytes(text, name.as_bytes())?;
        push_line(text, ":", value.as_bytes())?;
    }
    Ok(())
}

// The headers with their names in lower case, whatever the case in which they were sent.
fn push_listed(text: &mut String, headers: &RequestHeaders) -> Result<(), AllocError> {
    match headers.to_list() {
        Ok(list) => {
            let pushed = push_headers(text, &list);
            drop(list);
            pushed
        }
        Err(error) => Err(error),
    }
}

// What the head asks of its connection.
fn push_asks(text: &mut String, head: &ReadHead) -> Result<(), AllocError> {
    if head.closes(true) {
        text.push_str("  (closes)\n")?;
    }
    if head.expects() {
        text.push_str("  (expects)\n")?;
    }
    if head.upgrades() {
        text.push_str("  (upgrades)\n")?;
    }
    Ok(())
}

fn push_head(text: &mut String, head: &RequestHead) -> Result<(), AllocError> {
    text.push_str("head ")?;
    push_bytes(text, head.method.as_str().as_bytes())?;
    text.push_str(" ")?;
    push_bytes(text, head.target.as_bytes())?;
    text.push_str(version_text(head.version))?;
    push_listed(text, &head.headers)
}

fn push_status(text: &mut String, status: u16) -> Result<(), AllocError> {
    match status {
        400 => text.push_str("refused 400\n"),
        413 => text.push_str("refused 413\n"),
        431 => text.push_str("refused 431\n"),
        _ => text.push_str("refused by another status\n"),
    }
}

/// Whether the connection goes on behind a step.
#[derive(Clone, Copy, PartialEq, Eq)]
enum Going {
    /// Another step may be there.
    On,
    /// More bytes are needed.
    Waits,
    /// It is refused.
    Ended,
}

fn push_step(text: &mut String, step: &Step) -> Result<Going, AllocError> {
    match step {
        Step::NeedMore => Ok(Going::Waits),
        Step::Head(head) => {
            push_head(text, head.head())?;
            push_asks(text, head)?;
            Ok(Going::On)
        }
        Step::Body(body) => {
            push_line(text, "body", body.as_bytes())?;
            Ok(Going::On)
        }
        Step::Refused(status) => {
            push_status(text, *status)?;
            Ok(Going::Ended)
        }
    }
}

fn push_next(text: &mut String, reader: &mut Reader) -> Result<Going, AllocError> {
    let step = reader.next()?;
    let going = push_step(text, &step);
    drop(step);
    going
}

// The steps that are there: each uses bytes, or is a body behind a head, so there are at most twice as many as bytes.
fn push_steps(text: &mut String, reader: &mut Reader, most: usize) -> Result<Going, AllocError> {
    for _ in 0..most {
        match push_next(text, reader)? {
            Going::On => {}
            Going::Waits => return Ok(Going::Waits),
            Going::Ended => return Ok(Going::Ended),
        }
    }
    Ok(Going::On)
}

fn push_all(
    text: &mut String,
    reader: &mut Reader,
    bytes: &[u8],
    piece: usize,
) -> Result<(), AllocError> {
    for piece in bytes.chunks(piece.max(1)) {
        reader.feed(piece)?;
        let most = bytes.len().saturating_mul(2).saturating_add(2);
        if push_steps(text, reader, most)? == Going::Ended {
            return Ok(());
        }
    }
    push_line(text, "unread", reader.unread())
}

/// The steps of the bytes, a line each with the headers of heads behind them, up to a refusal. Where there is none, the
/// bytes that no step used are told last.
pub fn steps_of(alloc: Global, size: Size, bytes: &[u8]) -> Result<String, AllocError> {
    let mut text = String::new(alloc);
    let mut reader = Reader::new(alloc, size.limits);
    push_all(&mut text, &mut reader, bytes, size.piece)?;
    Ok(text)
}
