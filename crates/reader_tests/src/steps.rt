//! The steps of bytes, as a text.
use http1_plain::{Limits, RequestHead};
use http1_reader::{Reader, Step};
use service_core::Octets;
use std::alloc::{AllocError, Global};

/// These limits, or the nearest that there are.
pub(crate) fn limits(head: usize, body: usize) -> Limits {
    Limits::new(head.clamp(1, 65_535), body.clamp(1, 16_777_216))
}

// The text goes on with these bytes, and a bar.
fn add(log: &mut Octets, front: &[u8], bytes: &[u8]) -> Result<(), AllocError> {
    log.push_all(front)?;
    log.push_all(bytes)?;
    log.push_all(b"|")
}

fn add_head(log: &mut Octets, head: &RequestHead) -> Result<(), AllocError> {
    add(log, head.method.as_str().as_bytes(), head.target.as_bytes())
}

fn add_status(log: &mut Octets, status: u16) -> Result<(), AllocError> {
    match status {
        400 => add(log, b"", b"400"),
        413 => add(log, b"", b"413"),
        431 => add(log, b"", b"431"),
        _ => add(log, b"", b"?"),
    }
}

// The text goes on with the step: a method and a target, the data of a body in brackets, or a status. True where another
// step may follow without more bytes.
fn add_step(log: &mut Octets, step: &Step) -> Result<bool, AllocError> {
    match step {
        Step::NeedMore => Ok(false),
        Step::Head(head) => {
            add_head(log, head.head())?;
            Ok(true)
        }
        Step::Body(body) => {
            add(log, b"=", body.as_bytes())?;
            Ok(true)
        }
        Step::Refused(status) => {
            add_status(log, *status)?;
            Ok(false)
        }
    }
}

/// The text goes on with the next step. True where another may follow without more bytes.
pub(crate) fn add_next(reader: &mut Reader, log: &mut Octets) -> Result<bool, AllocError> {
    match reader.next() {
        Ok(step) => {
            let goes_on = add_step(log, &step);
            drop(step);
            goes_on
        }
        Err(error) => Err(error),
    }
}

// The text goes on with the steps that are there, of at most twelve.
fn add_steps(reader: &mut Reader, log: &mut Octets) -> Result<(), AllocError> {
    for _ in 0..12 {
        if !add_next(reader, log)? {
            return Ok(());
        }
    }
    Ok(())
}

fn feed_pieces(
    reader: &mut Reader,
    log: &mut Octets,
    bytes: &[u8],
    size: usize,
) -> Result<(), AllocError> {
    for piece in bytes.chunks(size.max(1)) {
        reader.feed(piece)?;
        add_steps(reader, log)?;
        if log.as_bytes().ends_with(b"400|")
            || log.as_bytes().ends_with(b"413|")
            || log.as_bytes().ends_with(b"431|")
        {
            return Ok(());
        }
    }
    Ok(())
}

/// The steps of the bytes in pieces of so many bytes, up to a refusal.
pub(crate) fn steps_of(
    alloc: Global,
    limits: Limits,
    bytes: &[u8],
    size: usize,
) -> Result<Octets, AllocError> {
    let mut reader = Reader::new(alloc, limits);
    let mut log = Octets::new(alloc);
    let fed = feed_pieces(&mut reader, &mut log, bytes, size);
    drop(reader);
    match fed {
        Ok(()) => Ok(log),
        Err(error) => Err(error),
    }
}

fn is_made(made: &Result<Octets, AllocError>, wanted: &[u8]) -> Result<bool, AllocError> {
    match made {
        Ok(made) => Ok(made.as_bytes() == wanted),
        Err(error) => Err(*error),
    }
}

/// Whether the steps of the bytes are these, whole and in pieces of 1, 2, 3, 5, 7 and 64 bytes.
pub(crate) fn are_steps(
    alloc: Global,
    limits: Limits,
    bytes: &[u8],
    wanted: &[u8],
) -> Result<bool, AllocError> {
    for size in [100_000, 1, 2, 3, 5, 7, 64] {
        if !is_made(&steps_of(alloc, limits, bytes, size), wanted)? {
            return Ok(false);
        }
    }
    Ok(true)
}

/// The same of each pair of bytes and steps, within the usual limits.
pub(crate) fn are_all_steps(alloc: Global, rows: &[(&str, &str)]) -> Result<bool, AllocError> {
    for (text, wanted) in rows {
        if !are_steps(alloc, Limits::default(), text.as_bytes(), wanted.as_bytes())? {
            return Ok(false);
        }
    }
    Ok(true)
}

/// The bytes come, and the next step is passed over.
pub(crate) fn pass_over(reader: &mut Reader, bytes: &[u8]) -> Result<(), AllocError> {
    reader.feed(bytes)?;
    match reader.next() {
        Ok(step) => {
            drop(step);
            Ok(())
        }
        Err(error) => Err(error),
    }
}
