//! The clients' ends of connections. They are links too, made of streams that connected.
use mio::net::{TcpStream, UnixStream};
use server_sockets::{FromStream, MioStream, SocketLink};
use std::net::SocketAddr;
use std::os::unix;
use std::{io, net};

/// A client over TCP, and its own port.
pub(crate) fn tcp_client(rt: &HostRuntime, addr: SocketAddr) -> io::Result<(SocketLink, u16)> {
    let stream = net::TcpStream::connect(rt, addr)?;
    let port = stream.local_addr()?.port();
    stream.set_nonblocking(true)?;
    let stream = TcpStream::from_std(stream);
    Ok((SocketLink::from_mio(MioStream::Tcp(stream)), port))
}

/// A client over the Unix socket at this path.
pub(crate) fn uds_client(rt: &HostRuntime, path: &str) -> io::Result<SocketLink> {
    let stream = unix::net::UnixStream::connect(rt, path)?;
    stream.set_nonblocking(true)?;
    let stream = UnixStream::from_std(stream);
    Ok(SocketLink::from_mio(MioStream::Uds(stream)))
}
