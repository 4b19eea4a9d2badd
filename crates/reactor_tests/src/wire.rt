//! A reactor, a listener of it, and connections.
use futures::task::{Context, Poll};
use futures::test::MockTask;
use server_bind::Binder;
use server_jobs::Bell;
use server_reactor::Reactor;
use server_run::{Accepted, Host, Listener};
use server_sockets::{MioBinder, SocketLink, SocketListener};
use service_core::{Link, LinkFault};
use std::alloc::Global;
use std::io;
use std::net::{Net, SocketAddr};
use std::sync::Arc;
use std::time::Duration;

// So many waits of 10 ms are enough.
const WAITS: u32 = 1_000;

// The seat of the job that waits.
const SEAT: usize = 0;

/// A reactor with a place for one job.
pub(crate) fn reactor<N: Net>(net: &N, alloc: Global) -> io::Result<Arc<Reactor>> {
    let reactor = Arc::new(alloc, Reactor::new(net, alloc)?)?;
    reactor.announce(SEAT, Arc::new(alloc, Bell::new(alloc))?);
    reactor.take_seat(net)?;
    Ok(reactor)
}

fn limit() -> Duration {
    Duration::from_millis(10)
}

/// A listener of the reactor at a port of the system's choosing, and its address.
pub(crate) fn listening<Ho: Host>(
    rt: &Ho,
    reactor: &Arc<Reactor>,
) -> io::Result<(SocketListener, SocketAddr)> {
    let mut binder = MioBinder::over(Arc::try_clone(reactor)?);
    let Ok(listener) = binder.tcp(rt, "127.0.0.1:0") else {
        return Err(io::Error::other("the loopback can't be bound"));
    };
    match listener.local_addr() {
        Some(addr) => Ok((listener, addr)),
        None => Err(io::Error::other("the listener has no address")),
    }
}

/// The next connection, once the listener is told of it. The job polls its link.
pub(crate) fn accepted(reactor: &Reactor, listener: &mut SocketListener) -> io::Result<SocketLink> {
    for _ in 0..WAITS {
        if let Accepted::Got(link) = listener.accept() {
            link.board(SEAT);
            return Ok(link);
        }
        reactor.rest(limit())?;
    }
    Err(io::ErrorKind::TimedOut.into())
}

fn poll_read(
    cx: &mut Context<'_>,
    link: &mut SocketLink,
    buf: &mut [u8; 8],
) -> Poll<Result<usize, LinkFault>> {
    link.poll_read(cx, buf)
}

/// One poll of a read.
pub(crate) fn read_once(
    task: &MockTask,
    link: &mut SocketLink,
    buf: &mut [u8; 8],
) -> Poll<Result<usize, LinkFault>> {
    task.enter(|cx| poll_read(cx, link, buf))
}

/// What is read next, once the link is told of it.
pub(crate) fn read(
    reactor: &Reactor,
    task: &MockTask,
    link: &mut SocketLink,
    buf: &mut [u8; 8],
) -> io::Result<usize> {
    for _ in 0..WAITS {
        if let Poll::Ready(Ok(count)) = read_once(task, link, buf) {
            return Ok(count);
        }
        reactor.wait(SEAT, limit())?;
    }
    Err(io::ErrorKind::TimedOut.into())
}

fn poll_write(
    cx: &mut Context<'_>,
    link: &mut SocketLink,
    piece: &[u8; 4096],
) -> Poll<Result<usize, LinkFault>> {
    link.poll_write(cx, piece)
}

/// One poll of a write of 4,096 bytes. How many were written, or none where it waits.
pub(crate) fn write_once(task: &MockTask, link: &mut SocketLink) -> io::Result<Option<usize>> {
    let piece = [b'a'; 4096];
    match task.enter(|cx| poll_write(cx, link, &piece)) {
        Poll::Pending => Ok(None),
        Poll::Ready(Ok(count)) => Ok(Some(count)),
        Poll::Ready(Err(_)) => Err(io::ErrorKind::BrokenPipe.into()),
    }
}

/// Whether a write finds room, once the link is told of it.
pub(crate) fn writes(
    reactor: &Reactor,
    task: &MockTask,
    link: &mut SocketLink,
) -> io::Result<bool> {
    for _ in 0..WAITS {
        if write_once(task, link)?.is_some() {
            return Ok(true);
        }
        reactor.wait(SEAT, limit())?;
    }
    Ok(false)
}
