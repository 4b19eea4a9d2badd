//! A small server that sends back what it reads, polled by hand.
use futures::task::{Context, Poll};
use futures::test::MockTask;
use server_run::{Accepted, Listener};
use service_core::{Link, LinkFault};
use std::thread::yield_now;

// How often something is polled until it is given up.
const LOOKS: u32 = 1_000_000;

/// The next connection, where one comes.
pub(crate) fn accept<Li: Listener>(listener: &mut Li) -> Option<Li::Link> {
    for _ in 0..LOOKS {
        match listener.accept() {
            Accepted::Got(link) => return Some(link),
            Accepted::NotYet | Accepted::Skipped => yield_now(),
            Accepted::Failed | Accepted::Ended => return None,
        }
    }
    None
}

// One read, where there is room for it.
fn poll_read<L: Link>(
    cx: &mut Context<'_>,
    link: &mut L,
    buf: &mut [u8],
) -> Poll<Result<usize, LinkFault>> {
    if buf.is_empty() {
        return Poll::Ready(Ok(0));
    }
    link.poll_read(cx, buf)
}

// One write, where there is something to write.
fn poll_write<L: Link>(
    cx: &mut Context<'_>,
    link: &mut L,
    piece: &[u8],
) -> Poll<Result<usize, LinkFault>> {
    if piece.is_empty() {
        return Poll::Ready(Ok(0));
    }
    link.poll_write(cx, piece)
}

/// One poll of a read.
pub(crate) fn read_once<L: Link>(
    task: &MockTask,
    link: &mut L,
    buf: &mut [u8],
) -> Poll<Result<usize, LinkFault>> {
    task.enter(|cx| poll_read(cx, link, buf))
}

/// One poll of a write.
pub(crate) fn write_once<L: Link>(
    task: &MockTask,
    link: &mut L,
    piece: &[u8],
) -> Poll<Result<usize, LinkFault>> {
    task.enter(|cx| poll_write(cx, link, piece))
}

/// Polls until a read answers. `None`: it never did.
pub(crate) fn read<L: Link>(
    task: &MockTask,
    link: &mut L,
    buf: &mut [u8],
) -> Option<Result<usize, LinkFault>> {
    for _ in 0..LOOKS {
        if let Poll::Ready(answer) = read_once(task, link, buf) {
            return Some(answer);
        }
        yield_now();
    }
    None
}

/// Polls until all is written. Whether it is.
pub(crate) fn write_all<L: Link>(task: &MockTask, link: &mut L, bytes: &[u8]) -> bool {
    let mut rest = bytes;
    for _ in 0..LOOKS {
        if rest.is_empty() {
            return true;
        }
        match write_once(task, link, rest) {
            Poll::Ready(Ok(n)) => rest = rest.get(n..).unwrap_or(b""),
            Poll::Ready(Err(_)) => return false,
            Poll::Pending => yield_now(),
        }
    }
    false
}

/// Polls until so many bytes were read as `wanted` has. Whether they are these.
pub(crate) fn reads<L: Link>(task: &MockTask, link: &mut L, wanted: &[u8]) -> bool {
    let mut rest = wanted;
    for _ in 0..LOOKS {
        if rest.is_empty() {
            return true;
        }
        let mut buf = [0u8; 64];
        let room = rest.len().min(64);
        match read_once(task, link, &mut buf[..room]) {
            Poll::Ready(Ok(0)) | Poll::Ready(Err(_)) => return false,
            Poll::Ready(Ok(n)) => {
                if buf.get(..n) != rest.get(..n) {
                    return false;
                }
                rest = rest.get(n..).unwrap_or(b"");
            }
            Poll::Pending => yield_now(),
        }
    }
    false
}

/// Sends back what it reads next. Whether that went well, and was not the end.
pub(crate) fn send_back<L: Link>(task: &MockTask, link: &mut L) -> bool {
    let mut buf = [0u8; 64];
    match read(task, link, &mut buf) {
        Some(Ok(n)) => n > 0 && write_all(task, link, buf.get(..n).unwrap_or(b"")),
        _ => false,
    }
}

/// Whether the other end was closed.
pub(crate) fn is_at_end<L: Link>(task: &MockTask, link: &mut L) -> bool {
    read(task, link, &mut [0u8; 8]) == Some(Ok(0))
}

/// Whether the client's bytes come back to it from the server's end.
pub(crate) fn comes_back<C: Link, S: Link>(
    task: &MockTask,
    client: &mut C,
    server: &mut S,
    bytes: &[u8],
) -> bool {
    write_all(task, client, bytes) && send_back(task, server) && reads(task, client, bytes)
}
