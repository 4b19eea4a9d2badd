//! Connections over sockets.
use crate::clients::{tcp_client, uds_client};
use crate::echo::{accept, comes_back, is_at_end, read, read_once, write_once};
use futures::task::Poll;
use futures::test::MockTask;
use mio::net::UnixStream;
use server_bind::Binder;
use server_run::{Accepted, Host, Listener};
use server_sockets::{FromStream, MioBinder, MioStream, SocketLink, SocketListener};
use service_core::{Link, LinkFault, Peer};
use std::net::SocketAddr;
use std::test::Fail;
use std::{env, fs, io, process};

// The address of the loopback, as a number.
const LOOPBACK: u32 = 0x7f00_0001;

// A listener at a port of the system's choice, and its address.
fn at_loopback<Ho: Host>(rt: &Ho) -> io::Result<(SocketListener, SocketAddr)> {
    let mut binder = MioBinder::new();
    let Ok(listener) = binder.tcp(rt, "127.0.0.1:0") else {
        return Err(io::Error::other("the loopback can't be bound"));
    };
    match binder.local_addr() {
        Some(addr) => Ok((listener, addr)),
        None => Err(io::Error::other("the listener has no address")),
    }
}

// The next connection, of which there is to be one.
fn accepted(listener: &mut SocketListener) -> io::Result<SocketLink> {
    match accept(listener) {
        Some(link) => Ok(link),
        None => Err(io::Error::other("no connection came")),
    }
}

// Whether nothing waits at the listener.
fn waits(listener: &mut SocketListener) -> bool {
    matches!(listener.accept(), Accepted::NotYet)
}

// Whether two clients get back what they send, each its own, and their closes are told as the end.
fn two_over_tcp(rt: &HostRuntime, listener: SocketListener, addr: SocketAddr) -> io::Result<bool> {
    let task = MockTask::new(rt)?;
    let mut listener = listener;
    let none = waits(&mut listener);
    let (mut first, first_port) = tcp_client(rt, addr)?;
    let mut first_end = accepted(&mut listener)?;
    let (mut second, second_port) = tcp_client(rt, addr)?;
    let mut second_end = accepted(&mut listener)?;
    let peers = first_end.peer()
        == Peer::V4 {
            host: LOOPBACK,
            port: first_port,
        }
        && second_end.peer()
            == Peer::V4 {
                host: LOOPBACK,
                port: second_port,
            }
        && first.peer()
            == Peer::V4 {
                host: LOOPBACK,
                port: addr.port(),
            };
    let back = comes_back(&task, &mut first, &mut first_end, b"hello")
        && comes_back(&task, &mut second, &mut second_end, b"you there")
        && comes_back(&task, &mut first, &mut first_end, b"!");
    drop(first);
    let ended = is_at_end(&task, &mut first_end)
        && comes_back(&task, &mut second, &mut second_end, b"still here");
    drop(second);
    Ok(none && peers && back && ended && is_at_end(&task, &mut second_end) && waits(&mut listener))
}

#[test]
fn two_clients_get_their_bytes_back(rt: HostRuntime) -> Result<(), Fail> {
    let (listener, addr) = at_loopback(&rt)?;
    assert!(rt; two_over_tcp(&rt, listener, addr)?);
    Ok(())
}

// Whether a link that nothing has come to waits, and asks to be polled again.
fn silence_waits(rt: &HostRuntime) -> io::Result<bool> {
    let task = MockTask::new(rt)?;
    let (near, _far) = UnixStream::pair(rt)?;
    let mut link = SocketLink::from_mio(MioStream::Uds(near));
    let polled = read_once(&task, &mut link, &mut [0u8; 8]);
    Ok(polled == Poll::Pending && task.is_woken() && link.peer() == Peer::Local)
}

#[test]
fn silence_is_no_end(rt: HostRuntime) -> Result<(), Fail> {
    assert!(rt; silence_waits(&rt)?);
    Ok(())
}

// Writes until a write waits, and tells how many bytes were taken. None: no write waited.
fn fill<L: Link>(task: &MockTask, link: &mut L) -> Option<usize> {
    let piece = [7u8; 1024];
    let mut taken = 0usize;
    for _ in 0..1_000_000 {
        match write_once(task, link, &piece) {
            Poll::Ready(Ok(n)) => taken = taken.saturating_add(n),
            Poll::Ready(Err(_)) => return None,
            Poll::Pending => return Some(taken),
        }
    }
    None
}

// How many bytes are read until a read waits. None: it fails, or is at the end.
fn drain<L: Link>(task: &MockTask, link: &mut L) -> Option<usize> {
    let mut taken = 0usize;
    for _ in 0..1_000_000 {
        match read_once(task, link, &mut [0u8; 1024]) {
            Poll::Ready(Ok(0)) | Poll::Ready(Err(_)) => return None,
            Poll::Ready(Ok(n)) => taken = taken.saturating_add(n),
            Poll::Pending => return Some(taken),
        }
    }
    None
}

// Whether a write to a full socket waits, and goes on once the other end has read all.
fn full_waits(rt: &HostRuntime) -> io::Result<bool> {
    let task = MockTask::new(rt)?;
    let (near, far) = UnixStream::pair(rt)?;
    let mut near = SocketLink::from_mio(MioStream::Uds(near));
    let mut far = SocketLink::from_mio(MioStream::Uds(far));
    let written = fill(&task, &mut near);
    let woken = task.is_woken();
    let read = drain(&task, &mut far);
    let again = write_once(&task, &mut near, b"more");
    Ok(written.is_some() && written == read && woken && again == Poll::Ready(Ok(4)))
}

#[test]
fn a_full_socket_waits(rt: HostRuntime) -> Result<(), Fail> {
    assert!(rt; full_waits(&rt)?);
    Ok(())
}

// Whether a write to a socket whose other end is closed fails, and a read of it is at the end.
fn closed_fails(rt: &HostRuntime) -> io::Result<bool> {
    let task = MockTask::new(rt)?;
    let (near, far) = UnixStream::pair(rt)?;
    let mut near = SocketLink::from_mio(MioStream::Uds(near));
    drop(far);
    let write = write_once(&task, &mut near, b"hello");
    Ok(write == Poll::Ready(Err(LinkFault::Failed)) && is_at_end(&task, &mut near))
}

#[test]
fn a_write_to_a_closed_socket_fails(rt: HostRuntime) -> Result<(), Fail> {
    assert!(rt; closed_fails(&rt)?);
    Ok(())
}

// Whether a connection whose client went away with bytes unread fails.
fn reset_fails(rt: &HostRuntime, listener: SocketListener, addr: SocketAddr) -> io::Result<bool> {
    let task = MockTask::new(rt)?;
    let mut listener = listener;
    let (client, _) = tcp_client(rt, addr)?;
    let mut end = accepted(&mut listener)?;
    let write = write_once(&task, &mut end, b"hello");
    drop(client);
    let failed = read(&task, &mut end, &mut [0u8; 8]);
    Ok(write == Poll::Ready(Ok(5)) && failed == Some(Err(LinkFault::Failed)))
}

#[test]
fn a_reset_connection_fails(rt: HostRuntime) -> Result<(), Fail> {
    let (listener, addr) = at_loopback(&rt)?;
    assert!(rt; reset_fails(&rt, listener, addr)?);
    Ok(())
}

// A listener at this path.
fn at_path<Ho: Host>(rt: &Ho, path: &str) -> io::Result<SocketListener> {
    match MioBinder::new().unix(rt, path) {
        Ok(listener) => Ok(listener),
        Err(_) => Err(io::Error::other("the path can't be bound")),
    }
}

// Whether a client at this path gets back what it sends, and its close is told as the end.
fn over_uds(rt: &HostRuntime, listener: SocketListener, path: &str) -> io::Result<bool> {
    let task = MockTask::new(rt)?;
    let mut listener = listener;
    let none = waits(&mut listener);
    let mut client = uds_client(rt, path)?;
    let mut end = accepted(&mut listener)?;
    let peers = client.peer() == Peer::Local && end.peer() == Peer::Local;
    let back = comes_back(&task, &mut client, &mut end, b"hello");
    drop(client);
    Ok(none && peers && back && is_at_end(&task, &mut end) && listener.local_addr().is_none())
}

#[test]
fn a_client_over_a_unix_socket_gets_its_bytes_back(rt: HostRuntime) -> Result<(), Fail> {
    let name = format!(in rt.alloc(); "socket-tests-link-{}", process::id(rt.process()))?;
    let path = env::temp_dir(&rt)?.join(rt.alloc(), name.as_str())?;
    let Some(text) = path.to_str() else {
        return Ok(());
    };
    let listener = at_path(&rt, text)?;
    let back = over_uds(&rt, listener, text);
    fs::remove_file(&rt, path.as_path())?;
    assert!(rt; back?);
    Ok(())
}
