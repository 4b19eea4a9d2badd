//! Connections as the system has them.
ghost use Rattle.std.specs.Io.{ReadsAtMost, WritesAtMost};

use crate::socket_peer::peer_of;
use mio::event::Source;
use mio::net::{TcpStream, UnixStream};
use mio::{Interest, Registry, Token};
use service_core::Peer;
use std::io;
use std::io::{Read, Write};

/// A connection over TCP or over a Unix socket (`actix_server::MioStream`).
#[derive(Drop)]
pub enum MioStream {
    /// Over TCP.
    Tcp(TcpStream),
    /// Over a Unix socket.
    Uds(UnixStream),
}

impl MioStream {
    // Who is at the other end, where the system can tell it.
    pub(crate) fn peer(&self) -> Peer {
        match self {
            MioStream::Tcp(stream) => match stream.peer_addr() {
                Ok(addr) => peer_of(addr),
                Err(_) => Peer::Unknown,
            },
            MioStream::Uds(_) => Peer::Local,
        }
    }

    pub(crate) fn read(&mut self, buf: &mut [u8]) -> io::Result<usize>
        ensures { ReadsAtMost result buf.new }
    {
        match self {
            MioStream::Tcp(stream) => stream.read(buf),
            MioStream::Uds(stream) => stream.read(buf),
        }
    }

    pub(crate) fn write(&mut self, piece: &[u8]) -> io::Result<usize>
        ensures { WritesAtMost result piece.now }
    {
        match self {
            MioStream::Tcp(stream) => stream.write(piece),
            MioStream::Uds(stream) => stream.write(piece),
        }
    }
}

impl Source for MioStream {
    fn register(
        &mut self,
        registry: &Registry,
        token: Token,
        interests: Interest,
    ) -> io::Result<()> {
        match self {
            MioStream::Tcp(stream) => stream.register(registry, token, interests),
            MioStream::Uds(stream) => stream.register(registry, token, interests),
        }
    }

    fn reregister(
        &mut self,
        registry: &Registry,
        token: Token,
        interests: Interest,
    ) -> io::Result<()> {
        match self {
            MioStream::Tcp(stream) => stream.reregister(registry, token, interests),
            MioStream::Uds(stream) => stream.reregister(registry, token, interests),
        }
    }

    fn deregister(&mut self, registry: &Registry) -> io::Result<()> {
        match self {
            MioStream::Tcp(stream) => stream.deregister(registry),
            MioStream::Uds(stream) => stream.deregister(registry),
        }
    }
}

/// What is made of a connection that was accepted (`actix_server::FromStream`).
pub trait FromStream {
    /// The caller has made the stream non-blocking.
    fn from_mio(sock: MioStream) -> Self;
}
