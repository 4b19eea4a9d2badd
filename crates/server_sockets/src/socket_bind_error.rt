use std::error::Error;
use std::{fmt, io};

/// Why an address was refused. Its text goes behind the address (`std::io::Error` of a bind).
#[derive(Clone, Copy, Debug)]
pub enum SocketBindError {
    /// The text is no address: an IP address with a port, or the path of a socket.
    NoAddress,
    /// The system refused it.
    System(io::Error),
}

impl fmt::Display for SocketBindError {
    fn fmt<W: fmt::Write>(&self, f: &mut fmt::Formatter<W>) -> fmt::Result {
        match self {
            SocketBindError::NoAddress => f.write_str("not an address"),
            SocketBindError::System(error) => write!(f, "{error}"),
        }
    }
}

impl Error for SocketBindError {}
